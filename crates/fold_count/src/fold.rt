// A fold: the sets of groups that have a photon in a window.
ghost use Rattle.std.specs.Prelude.{◌≡◌, ◌+◌, ◌≤◌, false, sum, ◌<◌, ◌^◌, length, slice_index, true, IfOk, []};
ghost use Rattle.{tally_base.specs.{Settings.{fold_view, PartSettings.FoldSettings}, Tally.History, Limits.record_limit}, fold_count.specs.Folded.{IsSound, IsSound-prop, waiting, photons_in}};

use crate::taking::{count_all, put_block};
use lag_ring::{Entry, LagRing};
use std::alloc::{AllocError, Global};
use std::sync::ledger::Ledger;
use tally_base::{Block, FoldSet, Steps, TABLE_BLOCK, Tally};

/// Counts the photons of up to six groups by which of these groups have a photon in the window that begins
/// at the photon, itself and others of its tick among them.
///
/// A set of groups is a number: bit k - 1 is set for the k-th group of the fold. A window ends `window`
/// ticks after the photon, that tick included.
///
/// The lists that it keeps: `cells` and `ring`. That of the groups in `set` is of fixed size.
#[derive(Drop)]
pub struct Fold {
    set: FoldSet,
    cells: Vec<u64>,
    // The bins before the open one that the window of a photon at its tick may not have left. Each is a tick
    // with the number of its photons and the set of the groups met so far in the window that begins at it,
    // but for those of the open bin.
    ring: LagRing,
    // The photons of the last tick that had one, and the set of their groups.
    bin: Entry,
    taken: u64,
    floor: u64,
    closed: bool,
    ghost sound: { IsSound (fold_view set) cells.items ring bin } by { IsSound-prop (fold_view set) cells.items ring bin },
    ghost few: { taken ≤ record_limit },
    ghost small: { sum cells.items + photons_in (waiting ring bin) ≤ taken },
    ghost begun: { bin.index ≤ floor },
}

impl Fold {
    ghost use Rattle.fold_count.{specs.FoldCounts.in_set, specs.Fold.{Holds, set_of, cells_in}};

    /// A fold of no events, with all the memory that it ever takes, or `AllocError` where there is not enough.
    pub fn open(alloc: Global, set: FoldSet) -> Result<Fold, AllocError>
        ensures set { IfOk result (λ t. set_of t ≡ set) }
        ensures settings { IfOk result (λ t.
            ⟦<Fold as Tally>⟧.settings t ≡ FoldSettings (fold_view set)) }
        ensures empty { IfOk result (λ t. Holds t []) }
        ensures opened { IfOk result (λ t. ⟦<Fold as Tally>⟧.closed t ≡ false) }
    {
        let cells = vec![in alloc; 0; 1 << set.groups.len()]?;
        let ring = LagRing::open(alloc, set.window)?;
        Ok(Fold {
            set,
            cells,
            ring,
            bin: Entry::at(0),
            taken: 0,
            floor: 0,
            closed: false,
        })
    }

    /// What it was opened with.
    pub fn set(&self) -> &FoldSet
        ensures { result.now ≡ set_of self.now }
    {
        &self.set
    }

    /// How many sets there are, 2^n where there are n groups: at most 64.
    pub fn sets(&self) -> u32
        ensures { result ≡ 2 ^ length (fold_view (set_of self.now)).groups }
    {
        1 << self.set.groups.len() as u32
    }

    /// How many photons have exactly the groups of `set` in their window, which is below 2^n where there are
    /// n groups. Before the fold is closed, those are left out whose window a photon may still come into.
    pub fn cell(&self, set: u32) -> u64
        requires { set < 2 ^ length (fold_view (set_of self.now)).groups }
        ensures photons { ⟦<Fold as Tally>⟧.closed self.now ≡ true
            → (h : History) → Holds self.now h
            → result ≡ in_set (fold_view (set_of self.now)) set h }
        ensures at_most { (h : History) → Holds self.now h
            → result ≤ in_set (fold_view (set_of self.now)) set h }
        ensures place { slice_index (cells_in self.now) set ≡ result }
    {
        self.cells[set as usize]
    }
}

impl Tally for Fold {
    ghost use Rattle.fold_count.specs.Fold.{Holds, set_of, settings, held, within_bound, marker_groups};

    ghost holds = { Holds };

    ghost taken = { λ t. t.taken };

    ghost floor = { λ t. t.floor };

    ghost held = { held };

    ghost settings = { settings };

    ghost closed = { λ t. t.closed };

    ghost same_set = { λ old new. set_of new ≡ set_of old };

    ghost taken_is = { λ t h is. is.taken };

    ghost floor_is = { λ t h is. is.floor };

    ghost within = { within_bound };

    ghost marker_groups = { marker_groups };

    fn events<L: Ledger>(&mut self, block: &Block<TABLE_BLOCK>, _steps: &mut Steps<L>) {
        self.taken += block.len() as u64;
        self.floor = block.floor_after(false, self.floor);
        self.bin = put_block(&mut self.cells, &mut self.ring, self.bin, &self.set, block);
    }

    fn close<L: Ledger>(&mut self, _steps: &mut Steps<L>) {
        self.closed = true;
        self.bin = count_all(&mut self.cells, &mut self.ring, self.bin, &self.set);
    }
}
