// What every table is.
ghost use Rattle.std.specs.Prelude.{◌≡◌, ℕ, Bool, true, false, ◌+◌, ◌<◌, ◌≤◌, [], ◌∷◌, ◌++◌, IsTrue, length, if◌then◌else◌};
ghost use Rattle.tally_base.specs.{declared.event.Event.Event, Settings.{PartSettings, entries, is_strict}, Tally.{History, moves_floor, greatest_time, floor_after, InOrder}, Limits.record_limit};
ghost use Rattle.tally_base.specs.{Limits.time_limit, Events.is_photon, Columns.{gathered, events_in, IsSorted}};

use crate::block::{Block, TABLE_BLOCK};
use crate::event::Event;
use crate::steps::Steps;
use std::sync::ledger::Ledger;

/// A table that counts over the events that it is given.
///
/// It is given the kept events of a file in their order, each with the groups that it is in, and then
/// it is closed. From then on its cells are the counts.
pub trait Tally {
    /// The table stands for these events, each with its groups.
    ghost holds: { Self → History → Type 0 };

    /// How many events it was given.
    ghost taken: { Self → ℕ };

    /// The greatest time of the photons that it was given, in a strict table of all events.
    ghost floor: { Self → ℕ };

    /// How many entries it keeps: cells, rest counts, ring entries and open bins.
    ghost held: { Self → ℕ };

    /// What it was opened with. They say how many entries it keeps at most, and whether it is strict.
    ghost settings: { Self → PartSettings };

    /// Nothing more comes.
    ghost closed: { Self → Bool };

    /// How many additions made its cells, where they are counted.
    ghost spent: { Self → ℕ } = { λ _. 0 };

    /// Both were opened with the same settings.
    ghost same_set: { Self → Self → Type 0 };

    /// Takes the events of a block, in which each has its groups, in their order. The table is open, and no
    /// more than 2^40 events are given to it. The times are at most 2^62 + 2^28, and no photon, in a strict
    /// table no event, comes at a smaller time than one before it.
    fn events<L: Ledger>(&mut self, block: &Block<TABLE_BLOCK>, steps: &mut Steps<L>)
        requires sorted { IsSorted block.now }
        requires open { closed self.old ≡ false }
        requires room { taken self.old + length (gathered block.now) ≤ record_limit }
        requires in_order { InOrder (is_strict (settings self.old)) (floor self.old)
            (gathered block.now) }
        ensures follows { (h : History) → holds self.old h
            → holds self.new (h ++ events_in block.now) }
        ensures still_open { closed self.new ≡ false }
        ensures count { taken self.new ≡ taken self.old + length (gathered block.now) }
        ensures moved { floor self.new ≡ floor_after (is_strict (settings self.old))
            (floor self.old) (gathered block.now) }
        ensures same_settings { settings self.new ≡ settings self.old }
        ensures same_set { same_set self.old self.new }
        ensures steps { steps.new + spent self.old ≡ steps.old + spent self.new };

    /// Takes an event. Bit g - 1 of `groups` says that it is in group g. The table is open and was given
    /// fewer than 2^40 events, the time is at most 2^62 + 2^28, and no photon, in a strict table no event,
    /// comes at a smaller time than one before it.
    final fn event<L: Ledger>(&mut self, e: &Event, groups: u64, steps: &mut Steps<L>)
        requires open { closed self.old ≡ false }
        requires room { taken self.old < record_limit }
        requires in_time { e.now.time ≤ time_limit }
        requires in_order { IsTrue (moves_floor (is_strict (settings self.old)) e.now)
            → floor self.old ≤ e.now.time }
        ensures follows { (h : History) → holds self.old h
            → holds self.new (h ++ (e.now, groups) ∷ []) }
        ensures still_open { closed self.new ≡ false }
        ensures one_more { taken self.new ≡ taken self.old + 1 }
        ensures moved { floor self.new ≡ (if moves_floor (is_strict (settings self.old)) e.now
            then e.now.time else floor self.old) }
        ensures same_settings { settings self.new ≡ settings self.old }
        ensures same_set { same_set self.old self.new }
        ensures steps { steps.new + spent self.old ≡ steps.old + spent self.new }
    {
        self.events(&Block::of_one(e, groups), steps);
    }

    /// Nothing more comes: from now on the cells are the counts.
    fn close<L: Ledger>(&mut self, steps: &mut Steps<L>)
        requires open { closed self.old ≡ false }
        ensures keeps { (h : History) → holds self.old h → holds self.new h }
        ensures now_closed { closed self.new ≡ true }
        ensures same_taken { taken self.new ≡ taken self.old }
        ensures same_floor { floor self.new ≡ floor self.old }
        ensures same_settings { settings self.new ≡ settings self.old }
        ensures same_set { same_set self.old self.new }
        ensures steps { steps.new + spent self.old ≡ steps.old + spent self.new };

    /// What holds of every table.
    ghost taken_is: { (t : Self) (h : History) → holds t h → taken t ≡ length h };

    ghost floor_is: { (t : Self) (h : History) → holds t h
        → floor t ≡ greatest_time (is_strict (settings t)) h };

    ghost within: { (t : Self) → held t ≤ entries (settings t) };

    /// The groups that come with a marker count for nothing.
    ghost marker_groups: { (t : Self) (h : History) (e : Event) (groups : ℕ) → is_photon e ≡ false
        → holds t (h ++ (e, 0) ∷ []) → holds t (h ++ (e, groups) ∷ []) };
}

/// The greatest time of the photons that a table was given, once this event came.
pub fn floor_behind(floor: u64, e: &Event) -> u64
    ensures { result ≡ (if moves_floor false e.now then e.now.time else floor) }
{
    if e.is_photon() { e.time } else { floor }
}
