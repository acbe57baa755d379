// A correlation over its levels.
ghost use Rattle.std.specs.{Prelude.{◌≡◌, ◌+◌, ◌*◌, ◌<◌, ◌≤◌, [], ◌++◌, false, length, vec_len, ◌-◌, true, IfOk, None, Some, slice_index}, Option.{ForSome, option_map}};
ghost use Rattle.tally_base.specs.{Settings.{correlation_view, PartSettings.CorrelationSettings}, Tally.History, Limits.record_limit, Columns.{events_in, IsSorted}};
ghost use Rattle.tau_cascade.specs.{StandsFor.{StandsFor, HasTaken}, Levels.spent, Bins.CanGiveBlock, declared.bins.TheConstants.LEVELS};

use crate::bins::{FIRST_PLACE, Gaps, LIST, NO_BIN, gather, spacing};
use crate::carry::{carry_all, end_all};
use crate::level::{Coming, Level, skipped_lags};
use crate::scratch::Scratch;
use lag_ring::{Entry, PairCells};
use std::alloc::{AllocError, Global};
use std::sync::ledger::Ledger;
use tally_base::{Block, CorrelationSet, Steps, TABLE_BLOCK, Tally};

/// Counts the pairs of a photon of the first group and one of the second by how far the second is after
/// the first, on levels of coarser and coarser time.
///
/// A time, in ticks in T2 and sync periods in T3, lies in the bin `time >> level` of each level. The cell
/// of a lag counts the pairs that are so many bins apart. The lags of level 0 are 1 to `lags`, those of
/// each level above are `lags / 2 + 1` to `lags`.
///
/// The lists that it keeps: those of its levels. How many there are of these is a setting.
#[derive(Drop)]
pub struct Cascade {
    set: CorrelationSet,
    levels: Vec<Level>,
    taken: u64,
    floor: u64,
    closed: bool,
    ghost sized: { vec_len levels ≡ set.levels },
    ghost few: { taken ≤ record_limit },
    ghost stands: { ∥ ((h : History) × StandsFor closed set levels.items taken floor h) ∥₁ },
}

impl Cascade {
    ghost use Rattle.tau_cascade.specs.{Cascade.{Holds, paired_at, cells_at, ring_at, open_at, set_of, spent_by, added_below}, Correlation.{correlation, lag_count, skipped_lags, photons_of}};
    ghost use Rattle.tau_cascade.specs.{Opens.open_bin, Work.{work, occupied, IsWithinLevelWork, IsPaired}};

    /// A correlation of no events, with all the memory that it ever takes, or `AllocError` where there is
    /// not enough.
    pub fn open(alloc: Global, set: CorrelationSet) -> Result<Cascade, AllocError>
        ensures set { IfOk result (λ t. set_of t ≡ set) }
        ensures settings { IfOk result (λ t.
            ⟦<Cascade as Tally>⟧.settings t ≡ CorrelationSettings (correlation_view set)) }
        ensures empty { IfOk result (λ t. Holds t []) }
        ensures opened { IfOk result (λ t. ⟦<Cascade as Tally>⟧.closed t ≡ false) }
        ensures unspent { IfOk result (λ t. spent_by t ≡ 0) }
    {
        let mut levels = Vec::new(alloc);
        for level in 0..set.levels {
            levels.push(Level::open(alloc, &set, level)?)?;
        }
        Ok(Cascade {
            set,
            levels,
            taken: 0,
            floor: 0,
            closed: false,
        })
    }

    /// What it was opened with.
    pub fn set(&self) -> &CorrelationSet
        ensures { result.now ≡ set_of self.now }
    {
        &self.set
    }

    /// The least lag of a level.
    pub fn first_lag(&self, level: u32) -> u32
        ensures first { result ≡ skipped_lags (correlation_view (set_of self.now)) level + 1 }
        ensures within { result ≤ (set_of self.now).lags }
    {
        skipped_lags(&self.set, level) + 1
    }

    /// The cells of a level, one for each of its lags from the least on. Beside them a level keeps its open bin and at
    /// most `lags` closed ones. By its notes the lists that it paired had together at most twice as many bins as have
    /// photons, and once it is closed at least a quarter as many, where four places of a grid count as a bin. Those of
    /// which it began a window had at most twice as many; if a bin is too heavy for the window, the list is paired bin by
    /// bin.
    #[tactic(auto, using(crate::proofs::Work::all_lent, crate::proofs::Work::spent_within))]
    pub fn level(&self, level: u32) -> &PairCells
        requires { level < (set_of self.now).levels }
        ensures cells { cells_at self.now level ≡ Some result.now }
        ensures sizes { (length result.now.cells ≡ lag_count (correlation_view (set_of self.now)) level)
            × ForSome (ring_at self.now level) (λ r. length r.entries ≤ (set_of self.now).lags) }
        ensures spent { spent_by self.now
            ≡ added_below self.now (set_of self.now).levels }
        ensures work { (h : History) → Holds self.now h
            → spent_by self.now ≤ work (correlation_view (set_of self.now)) h }
        ensures own { (h : History) → Holds self.now h
            → IsWithinLevelWork (correlation_view (set_of self.now)) level result.now
            (photons_of (correlation_view (set_of self.now)) h) }
        ensures few { (h : History) → Holds self.now h
            → IsPaired (⟦<Cascade as Tally>⟧.closed self.now) (paired_at self.now level)
            (occupied level (photons_of (correlation_view (set_of self.now)) h)) }
    {
        &self.levels[level as usize].cells
    }

    /// The open bin of a level: the bin of the last photons that came to it, which no later ones closed.
    pub fn open_bin(&self, level: u32) -> Option<Entry>
        requires { level < (set_of self.now).levels }
        ensures bin { open_at self.now level ≡ Some result }
        ensures still_open { (h : History) → ⟦<Cascade as Tally>⟧.closed self.now ≡ false
            → Holds self.now h → result ≡ open_bin (correlation_view (set_of self.now)) level h }
        ensures closed { ⟦<Cascade as Tally>⟧.closed self.now ≡ true → result ≡ None }
    {
        self.levels[level as usize].open
    }

    /// How many pairs are `lag` bins apart on the level, which is one of the level's lags, once the table is
    /// closed.
    pub fn cell(&self, level: u32, lag: u32) -> u128
        requires level { level < (set_of self.now).levels }
        requires lag { (skipped_lags (correlation_view (set_of self.now)) level < lag)
            × (lag ≤ (set_of self.now).lags) }
        ensures pairs { ⟦<Cascade as Tally>⟧.closed self.now ≡ true
            → (h : History) → Holds self.now h
            → result ≡ correlation (correlation_view (set_of self.now)) level lag h }
        ensures place { option_map
            (λ c. slice_index c.cells (lag - skipped_lags (correlation_view (set_of self.now)) level - 1))
            (cells_at self.now level) ≡ Some result }
    {
        self.level(level)
            .get(lag - skipped_lags(&self.set, level) - 1)
    }
}

/// Gives the events of a block to the levels.
fn give_block<L: Ledger>(
    levels: &mut [Level],
    set: &CorrelationSet,
    block: &Block<TABLE_BLOCK>,
    steps: &mut Steps<L>,
)
    requires sorted { IsSorted block.now }
    requires stands { ∥ ((h : History)
        × CanGiveBlock (correlation_view set.now) levels.old block.now h) ∥₁ }
    requires depth { length levels.old ≤ LEVELS }
    ensures same { length levels.new ≡ length levels.old }
    ensures follows { (h : History) → CanGiveBlock (correlation_view set.now) levels.old block.now h
        → HasTaken (correlation_view set.now) levels.new (h ++ events_in block.now) }
    ensures steps { steps.new + spent levels.old ≡ steps.old + spent levels.new }
{
    let mut list = [NO_BIN; LIST];
    let mut scratch = Scratch::empty();
    let count = gather(set, block, &mut list, FIRST_PLACE);
    let all = Coming {
        level: 0,
        from: FIRST_PLACE,
        count,
        levels: 0,
        apart: spacing(&list[FIRST_PLACE..FIRST_PLACE + count]),
        gaps: Gaps::unknown(),
        most: block.len() as u64,
    };
    carry_all(levels, set, &mut list, all, &mut scratch, steps);
}

impl Tally for Cascade {
    ghost use Rattle.std.specs.Prelude.{◌≡◌, ◌+◌, ◌<◌, ◌≤◌, ◌++◌, [], true, false, sum_by};
    ghost use Rattle.tau_cascade.{specs.Cascade.{Holds, set_of, settings, spent_by}, specs.StandsFor.entries_of, specs.Laws.{within_bound, marker_groups}};

    ghost holds = { Holds };

    ghost taken = { λ t. t.taken };

    ghost floor = { λ t. t.floor };

    ghost held = { λ t. sum_by entries_of t.levels.items };

    ghost settings = { settings };

    ghost closed = { λ t. t.closed };

    ghost spent = { spent_by };

    ghost same_set = { λ old new. set_of new ≡ set_of old };

    ghost taken_is = { λ t h is. is.taken };

    ghost floor_is = { λ t h is. is.floor };

    ghost within = { within_bound };

    ghost marker_groups = { marker_groups };

    fn events<L: Ledger>(&mut self, block: &Block<TABLE_BLOCK>, steps: &mut Steps<L>) {
        self.taken += block.len() as u64;
        self.floor = block.floor_after(false, self.floor);
        give_block(&mut self.levels, &self.set, block, steps);
    }

    fn close<L: Ledger>(&mut self, steps: &mut Steps<L>) {
        end_all(&mut self.levels, &self.set, 0, steps);
        self.closed = true;
    }
}
