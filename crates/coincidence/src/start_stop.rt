// A table of the times from a photon of one group to the next of another.
ghost use Rattle.std.specs.Prelude.{◌≡◌, ◌+◌, ◌≤◌, vec_len, sum, ◌<◌, length, IfOk, [], false};
ghost use Rattle.{tally_base.specs.{Tally.History, Settings.{startstop_view, PartSettings.StartStopSettings}}, coincidence.specs.Starts.since_in};

use crate::counting::count_block;
use crate::start::Start;
use std::alloc::{AllocError, Global};
use std::sync::ledger::Ledger;
use tally_base::{Block, StartStopSet, Steps, TABLE_BLOCK, Tally};

/// Counts the intervals from a photon of the start group to the next of the stop group by their length.
///
/// Of the photons that are in either group, an interval is a pair of neighbours, the first of them in
/// the start group and the second in the stop group. So a photon of both groups ends one interval and
/// begins the next. Bin b counts the intervals of `b * width` ticks or more and fewer than
/// `(b + 1) * width`. What lies past the last bin is counted in one number, `over`.
///
/// The lists that it keeps: `cells`.
#[derive(Drop)]
pub struct StartStop {
    set: StartStopSet,
    cells: Vec<u64>,
    over: u64,
    // The time of the last photon of either group, where it is in the start group.
    start: Start,
    taken: u64,
    floor: u64,
    closed: bool,
    ghost sized: { vec_len cells ≡ set.bins },
    ghost small: { sum cells.items + over ≤ taken },
    ghost started: { since_in start ≤ floor },
}

impl StartStop {
    ghost use Rattle.coincidence.{specs.Intervals.{in_interval, count_over}, specs.StartStop.{Holds, set_of}};

    /// A table of no events, with all the memory that it ever takes.
    pub fn open(alloc: Global, set: StartStopSet) -> Result<StartStop, AllocError>
        ensures set { IfOk result (λ t. set_of t ≡ set) }
        ensures settings { IfOk result (λ t. ⟦<StartStop as Tally>⟧.settings t ≡ StartStopSettings (startstop_view set)) }
        ensures empty { IfOk result (λ t. Holds t []) }
        ensures opened { IfOk result (λ t. ⟦<StartStop as Tally>⟧.closed t ≡ false) }
    {
        Ok(StartStop {
            set,
            cells: vec![in alloc; 0; set.bins as usize]?,
            over: 0,
            start: Start {
                open: false,
                since: 0,
            },
            taken: 0,
            floor: 0,
            closed: false,
        })
    }

    /// What it was opened with.
    pub fn set(&self) -> &StartStopSet
        ensures { result.now ≡ set_of self.now }
    {
        &self.set
    }

    /// How many intervals came in bin `at`, of the events that it was given so far.
    pub fn cell(&self, at: u32) -> u64
        requires { at < (set_of self.now).bins }
        ensures { (h : History) → Holds self.now h → result ≡ in_interval (startstop_view (set_of self.now)) at h }
    {
        self.cells[at as usize]
    }

    /// How many intervals came past the last bin.
    pub fn over(&self) -> u64
        ensures { (h : History) → Holds self.now h → result ≡ count_over (startstop_view (set_of self.now)) h }
    {
        self.over
    }
}

impl Tally for StartStop {
    ghost use Rattle.std.specs.Prelude.{◌+◌, length};
    ghost use Rattle.coincidence.specs.StartStop.{Holds, set_of, settings, within_bound, marker_groups};

    ghost holds = { Holds };

    ghost taken = { λ t. t.taken };

    ghost floor = { λ t. t.floor };

    // Its list, `over`, and the start.
    ghost held = { λ t. length t.cells.items + 2 };

    ghost settings = { settings };

    ghost closed = { λ t. t.closed };

    ghost same_set = { λ old new. set_of new ≡ set_of old };

    ghost taken_is = { λ t h is. is.taken };

    ghost floor_is = { λ t h is. is.floor };

    ghost within = { within_bound };

    ghost marker_groups = { marker_groups };

    fn events<L: Ledger>(&mut self, block: &Block<TABLE_BLOCK>, _steps: &mut Steps<L>) {
        self.taken += block.len() as u64;
        self.floor = block.floor_after(false, self.floor);
        self.over = count_block(
            &self.set,
            &mut self.cells,
            self.over,
            &mut self.start,
            block,
        );
    }

    fn close<L: Ledger>(&mut self, _steps: &mut Steps<L>) {
        self.closed = true;
    }
}
