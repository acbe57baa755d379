// A table of the pairs of photons of two groups by the difference of their times.
ghost use Rattle.std.specs.Prelude.{◌≡◌, ◌+◌, ◌≤◌, [], false, ◌<◌, IfOk, slice_index, true};
ghost use Rattle.{tally_base.specs.{Settings.{coincidence_view, coincidence_cells, PartSettings.CoincidenceSettings}, Tally.History, Limits.record_limit}, coincidence.specs.StandsFor.StandsFor};

use crate::lone::Given;
use crate::pairing::{Pairing, cells_of};
use crate::taking::take_block;
use std::alloc::{AllocError, Global};
use std::sync::ledger::Ledger;
use tally_base::{Block, CoincidenceSet, Steps, TABLE_BLOCK, Tally};

/// Counts the ordered pairs of different photons, the first of them in the first group and the second in
/// the second group, by the time from the first to the second, which may be negative.
///
/// Differences from `-reach` to `reach` ticks count, both included. Cell c counts the pairs where the
/// difference and the reach together are `c * width` ticks or more and fewer than `(c + 1) * width`. A
/// photon in both groups makes a pair with each other photon of a group, and none with itself.
///
/// The lists that it keeps: the cells and the ring of its pairing.
#[derive(Drop)]
pub struct Coincidence {
    set: CoincidenceSet,
    pairing: Pairing,
    taken: u64,
    floor: u64,
    closed: bool,
    ghost few: { taken ≤ record_limit },
    ghost stands: { ∥ ((h : History)
        × StandsFor closed (coincidence_view set) pairing taken floor h) ∥₁ },
}

impl Coincidence {
    ghost use Rattle.coincidence.{specs.Coincidence.{Holds, set_of, settings, cells_in, spent_by}, specs.Pairs.{coincidences, coincidences_before, work}};

    /// A table of no events, with all the memory that it ever takes, or `AllocError` where there is not enough.
    pub fn open(alloc: Global, set: CoincidenceSet) -> Result<Coincidence, AllocError>
        ensures set { IfOk result (λ t. set_of t ≡ set) }
        ensures settings { IfOk result (λ t. ⟦<Coincidence as Tally>⟧.settings t ≡ CoincidenceSettings (coincidence_view set)) }
        ensures empty { IfOk result (λ t. Holds t []) }
        ensures opened { IfOk result (λ t. ⟦<Coincidence as Tally>⟧.closed t ≡ false) }
        ensures unspent { IfOk result (λ t. spent_by t ≡ 0) }
    {
        let pairing = Pairing::open(alloc, &set)?;
        Ok(Coincidence {
            set,
            pairing,
            taken: 0,
            floor: 0,
            closed: false,
        })
    }

    /// What it was opened with.
    pub fn set(&self) -> &CoincidenceSet
        ensures { result.now ≡ set_of self.now }
    {
        &self.set
    }

    /// How many cells there are, at most 2^21 + 1.
    pub fn cells(&self) -> u32
        ensures { result ≡ coincidence_cells (coincidence_view (set_of self.now)) }
    {
        cells_of(&self.set)
    }

    /// How many pairs cell `at` counts, which is below the number of cells. Before the table is closed,
    /// those of the last tick that had a photon of either group are left out. The additions to all cells are
    /// within the work of the events.
    pub fn cell(&self, at: u32) -> u128
        requires inside { at < coincidence_cells (coincidence_view (set_of self.now)) }
        ensures pairs { ⟦<Coincidence as Tally>⟧.closed self.now ≡ true
            → (h : History) → Holds self.now h
            → result ≡ coincidences (coincidence_view (set_of self.now)) at h }
        ensures before { ⟦<Coincidence as Tally>⟧.closed self.now ≡ false
            → (h : History) → Holds self.now h → result ≡ coincidences_before (coincidence_view (set_of self.now)) at h }
        ensures place { slice_index (cells_in self.now).cells at ≡ result }
        ensures work { (h : History) → Holds self.now h → spent_by self.now ≤ work (coincidence_view (set_of self.now)) h }
    {
        self.pairing.cells.get(at)
    }
}

impl Tally for Coincidence {
    ghost use Rattle.std.specs.Prelude.{◌≡◌, ◌+◌, ◌<◌, ◌≤◌, [], true, false};
    ghost use Rattle.coincidence.specs.Coincidence.{Holds, set_of, settings, held, spent_by, within_bound, marker_groups};

    ghost holds = { Holds };

    ghost taken = { λ t. t.taken };

    ghost floor = { λ t. t.floor };

    ghost held = { held };

    ghost settings = { settings };

    ghost closed = { λ t. t.closed };

    ghost spent = { spent_by };

    ghost same_set = { λ old new. set_of new ≡ set_of old };

    ghost taken_is = { λ t h is. is.taken };

    ghost floor_is = { λ t h is. is.floor };

    ghost within = { within_bound };

    ghost marker_groups = { marker_groups };

    fn events<L: Ledger>(&mut self, block: &Block<TABLE_BLOCK>, steps: &mut Steps<L>) {
        self.taken += block.len() as u64;
        self.floor = block.floor_after(false, self.floor);
        let set = self.set;
        take_block(&mut self.pairing, Given { set, block }, steps);
    }

    fn close<L: Ledger>(&mut self, steps: &mut Steps<L>) {
        self.pairing.end(&self.set, steps);
        self.closed = true;
    }
}
