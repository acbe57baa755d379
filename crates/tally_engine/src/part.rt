// A table of any kind.
use coincidence::{Coincidence, StartStop};
use count_trace::Trace;
use flim_cube::FlimCube;
use fold_count::Fold;
use scan_image::Image;
use std::sync::ledger::Ledger;
use tally_base::{Block, Steps, TABLE_BLOCK, Tally};
use tau_cascade::Cascade;
use tcspc_hist::Hist;

/// A table of any kind.
#[derive(Drop)]
pub enum Part {
    /// A histogram of dtimes.
    Hist(Hist),
    /// A trace over the time of the file.
    Trace(Trace),
    /// A table of the times between neighbours among the photons of two groups.
    StartStop(StartStop),
    /// A table of pairs of photons by their difference in time.
    Coincidence(Coincidence),
    /// An image of a scan.
    Image(Image),
    /// A correlation of two groups.
    Correlation(Cascade),
    /// An image of a scan with a histogram of dtimes in each pixel.
    Cube(FlimCube),
    /// The sets of groups that have a photon in a window.
    Fold(Fold),
}

/// Evaluates an expression of the table of whatever kind that a part is, as
/// `in_part!(part, table => table.taken())`.
#[macro_export]
macro_rules! in_part {
    ($part:expr, $table:ident => $value:expr) => {
        match $part {
            $crate::Part::Hist($table) => $value,
            $crate::Part::Trace($table) => $value,
            $crate::Part::StartStop($table) => $value,
            $crate::Part::Coincidence($table) => $value,
            $crate::Part::Image($table) => $value,
            $crate::Part::Correlation($table) => $value,
            $crate::Part::Cube($table) => $value,
            $crate::Part::Fold($table) => $value,
        }
    };
}

impl Tally for Part {
    ghost use Rattle.std.specs.Prelude.{◌≡◌};
    ghost use Rattle.tally_engine.specs.Part.{by_kind, laws_of};

    ghost holds = { by_kind (λ T g t. g.holds t) };

    ghost taken = { by_kind (λ T g t. g.taken t) };

    ghost floor = { by_kind (λ T g t. g.floor t) };

    ghost held = { by_kind (λ T g t. g.held t) };

    ghost settings = { by_kind (λ T g t. g.settings t) };

    ghost closed = { by_kind (λ T g t. g.closed t) };

    ghost spent = { by_kind (λ T g t. g.spent t) };

    ghost same_set = { λ old new.
        by_kind (λ T g t. g.settings t) new ≡ by_kind (λ T g t. g.settings t) old };

    ghost taken_is = { λ p. (laws_of p).taken_is };

    ghost floor_is = { λ p. (laws_of p).floor_is };

    ghost within = { λ p. (laws_of p).within };

    ghost marker_groups = { λ p. (laws_of p).marker_groups };

    /// The kind of the table is tested once.
    #[inline]
    fn events<L: Ledger>(&mut self, block: &Block<TABLE_BLOCK>, steps: &mut Steps<L>) {
        in_part!(self, table => table.events(block, steps))
    }

    fn close<L: Ledger>(&mut self, steps: &mut Steps<L>) {
        in_part!(self, table => table.close(steps))
    }
}
