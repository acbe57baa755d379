// A trace of photons over the time of the file.
ghost use Rattle.std.specs.Prelude.{◌≡◌, ◌+◌, ◌*◌, ◌≤◌, vec_len, length, sum, ◌<◌, IfOk, [], false};
ghost use Rattle.tally_base.specs.{Tally.History, Settings.{trace_view, PartSettings.TraceSettings}};

use crate::bin::Bin;
use crate::counting::{Outside, count_block};
use std::alloc::{AllocError, Global};
use std::sync::ledger::Ledger;
use tally_base::{Block, Steps, TABLE_BLOCK, Tally, TraceSet};

/// Counts the photons of a group by their times, in ticks in T2 and sync periods in T3.
///
/// Bin b counts the times from `origin + b * width` on and below `origin + (b + 1) * width`. What comes
/// before the origin is counted in one number, `before`, and what comes past the last bin in another,
/// `beyond`.
///
/// The lists that it keeps: `cells`.
#[derive(Drop)]
pub struct Trace {
    set: TraceSet,
    cells: Vec<u64>,
    outside: Outside,
    kept: Bin,
    taken: u64,
    floor: u64,
    closed: bool,
    ghost sized: { vec_len cells ≡ set.bins },
    ghost small: { sum cells.items + outside.before + outside.beyond ≤ taken },
    ghost edge: { kept.low ≡ set.origin + kept.index * set.width },
}

impl Trace {
    ghost use Rattle.count_trace.{specs.TraceCounts.{in_trace_bin, count_before, count_beyond}, specs.Trace.{Holds, set_of}};

    /// A trace of no events, with all the memory that it ever takes, or `AllocError` where there is not enough.
    pub fn open(alloc: Global, set: TraceSet) -> Result<Trace, AllocError>
        ensures set { IfOk result (λ t. set_of t ≡ set) }
        ensures settings { IfOk result (λ t. ⟦<Trace as Tally>⟧.settings t ≡ TraceSettings (trace_view set)) }
        ensures empty { IfOk result (λ t. Holds t []) }
        ensures opened { IfOk result (λ t. ⟦<Trace as Tally>⟧.closed t ≡ false) }
    {
        Ok(Trace {
            set,
            cells: vec![in alloc; 0; set.bins as usize]?,
            outside: Outside {
                before: 0,
                beyond: 0,
            },
            kept: Bin {
                index: 0,
                low: set.origin,
            },
            taken: 0,
            floor: 0,
            closed: false,
        })
    }

    /// What it was opened with.
    pub fn set(&self) -> &TraceSet
        ensures { result.now ≡ set_of self.now }
    {
        &self.set
    }

    /// How many photons of the group came in bin `at`, which is below the number of bins, of those that it
    /// was given so far.
    pub fn cell(&self, at: u32) -> u64
        requires { at < (set_of self.now).bins }
        ensures { (h : History) → Holds self.now h → result ≡ in_trace_bin (trace_view (set_of self.now)) at h }
    {
        self.cells[at as usize]
    }

    /// How many photons of the group came before the origin.
    pub fn before(&self) -> u64
        ensures { (h : History) → Holds self.now h → result ≡ count_before (trace_view (set_of self.now)) h }
    {
        self.outside.before
    }

    /// How many photons of the group came at or past the end of the last bin.
    pub fn beyond(&self) -> u64
        ensures { (h : History) → Holds self.now h → result ≡ count_beyond (trace_view (set_of self.now)) h }
    {
        self.outside.beyond
    }
}

impl Tally for Trace {
    ghost use Rattle.count_trace.specs.Trace.{Holds, set_of, settings, within_bound, marker_groups};

    ghost holds = { Holds };

    ghost taken = { λ t. t.taken };

    ghost floor = { λ t. t.floor };

    // The bin of the last event is an entry, beside the cells and the two rest counts.
    // Its list, `before` and `beyond`, and the bin that it is in.
    ghost held = { λ t. length t.cells.items + 3 };

    ghost settings = { settings };

    ghost closed = { λ t. t.closed };

    ghost same_set = { λ old new. set_of new ≡ set_of old };

    ghost taken_is = { λ t h is. is.taken };

    ghost floor_is = { λ t h is. is.floor };

    ghost within = { within_bound };

    ghost marker_groups = { marker_groups };

    fn events<L: Ledger>(&mut self, block: &Block<TABLE_BLOCK>, _steps: &mut Steps<L>) {
        self.taken += block.len() as u64;
        self.floor = block.floor_after(false, self.floor);
        count_block(
            &self.set,
            &mut self.cells,
            &mut self.outside,
            &mut self.kept,
            block,
        );
    }

    fn close<L: Ledger>(&mut self, _steps: &mut Steps<L>) {
        self.closed = true;
    }
}
