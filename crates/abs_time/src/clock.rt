// The clock of a file: the absolute times of its records.
ghost use Rattle.std.specs.Prelude.{◌≡◌, ◌+◌, ◌<◌, ◌≤◌, ◌++◌, ◌∷◌, [], List, ℕ, Bool, ◌&&◌, not, nat_lt, max, if◌then◌else◌, OnOk, OnErr, IfOk, IfErr, length};
ghost use Rattle.{tally_base.specs.{Events.is_ordered, Limits.{record_limit, wrap_limit}}, ptu_definitions.specs.{declared.records.Raw.Raw, Layouts.Fits, Kept.ordered_time}};

use ptu_definitions::Raw;
use tally_base::{Event, EventKind, Fault, Mode, WRAP_LIMIT};

/// What a record is, with its absolute time.
#[derive(Clone, Copy, PartialEq, Eq)]
pub enum Placed {
    /// An event that is not late. Where it must come in order of time, no earlier one has a greater time.
    Event(Event),
    /// A late event, with the greatest time among the earlier events in order.
    Late { event: Event, before: u64 },
    /// The clock has wrapped. It is no event.
    Wrap,
    /// A record that has no meaning. It is no event.
    Reserved,
}

/// Where the records of a file stand in time. In T2 the photons must come in order of time. In T3 all
/// events must.
#[derive(Clone, Copy)]
pub struct Clock {
    mode: Mode,
    placed: u64,
    base: u64,
    greatest: u64,
    ghost within: { base ≤ wrap_limit },
}

impl Clock {
    ghost use Rattle.abs_time.specs.Placing.{IsClock, LeadsOn, mode_of, placed_by, greatest_by, HasPlaced, base_of, against, place_answer, IsSmall, Moves, IsAtPlace, IsNext, GoesOn};

    /// The clock of a file of this mode, before its first record.
    pub fn new(mode: Mode) -> Clock
        ensures mode { mode_of result ≡ mode }
        ensures empty { HasPlaced result [] }
    {
        Clock {
            mode,
            placed: 0,
            base: 0,
            greatest: 0,
        }
    }

    /// The number of records placed.
    pub fn placed(&self) -> u64
        ensures value { result ≡ placed_by self.now }
        ensures count { (records : List Raw) → HasPlaced self.now records
            → result ≡ length records }
    {
        self.placed
    }

    /// What its times count.
    #[inline(always)]
    pub fn mode(&self) -> Mode
        ensures { result ≡ mode_of self.now }
    {
        self.mode
    }

    /// The sum of all wraps, at most 2^62.
    #[inline(always)]
    pub fn base(&self) -> u64
        ensures value { result ≡ base_of self.now }
        ensures few { result ≤ wrap_limit }
    {
        self.base
    }

    /// The greatest time of the events in order that it placed, or 0 where there is none.
    #[inline(always)]
    pub fn greatest(&self) -> u64
        ensures { result ≡ greatest_by self.now }
    {
        self.greatest
    }

    /// Goes on after more records that were placed by the same rules without it, since a block of them needs no
    /// test for each. With them so many are placed; the wraps of all add up to `base`, at most 2^62, and `greatest`
    /// is the greatest time of the events in order.
    #[inline(always)]
    pub fn go_on(&mut self, placed: u64, base: u64, greatest: u64)
        requires limit { base ≤ wrap_limit }
        requires stands { ∥ ((more : List Raw) × LeadsOn self.old placed base greatest more) ∥₁ }
        ensures placed { (records : List Raw)
            → IsClock (mode_of self.old) placed base greatest records → HasPlaced self.new records }
        ensures count { placed_by self.new ≡ placed }
        ensures base { base_of self.new ≡ base }
        ensures greatest { greatest_by self.new ≡ greatest }
        ensures same_mode { mode_of self.new ≡ mode_of self.old }
    {
        self.placed = placed;
        self.base = base;
        self.greatest = greatest;
    }

    /// Places the next record, whose number is one more than the number of records placed, at most 2^40.
    /// The time of an event is its record's time field and the sum of all wraps before it. Refuses a wrap
    /// that makes this sum greater than 2^62, and the clock then stays as it is.
    #[inline(always)]
    pub fn place(&mut self, raw: &Raw) -> Result<Placed, Fault>
        requires { placed_by self.old < record_limit }
        ensures answer { (records : List Raw) → HasPlaced self.old records
            → result ≡ place_answer (mode_of self.old) records raw.now }
        ensures next { IfOk result (IsNext (placed_by self.old) (placed_by self.new)) }
        ensures placed { (records : List Raw) → HasPlaced self.old records
            → OnOk result (HasPlaced self.new (records ++ raw.now ∷ [])) }
        ensures goes_on { GoesOn self.old self.new }
        ensures moves { Fits (mode_of self.old) raw.now
            → IfOk result (Moves (mode_of self.old) (greatest_by self.old) (greatest_by self.new)) }
        ensures unchanged { OnErr result (self.new ≡ self.old) }
    {
        let place = self.placed + 1;
        match *raw {
            Raw::Photon { input, time, dtime } => {
                let event = Event {
                    place,
                    kind: EventKind::Photon { input, dtime },
                    time: self.base + time as u64,
                };
                self.placed = place;
                Ok(self.event(event))
            }
            Raw::Marker { bits, time } => {
                let event = Event {
                    place,
                    kind: EventKind::Marker { bits },
                    time: self.base + time as u64,
                };
                self.placed = place;
                Ok(self.event(event))
            }
            Raw::Wrap { amount } => {
                if amount > WRAP_LIMIT - self.base {
                    return Err(Fault::TimeLimit { place });
                }
                self.base += amount;
                self.placed = place;
                Ok(Placed::Wrap)
            }
            Raw::Reserved => {
                self.placed = place;
                Ok(Placed::Reserved)
            }
        }
    }

    /// An event, which is late where some ordered one before it has a greater time.
    #[inline(always)]
    fn event(&mut self, event: Event) -> Placed
        ensures answer { result ≡ against (mode_of self.old) (greatest_by self.old) event }
        ensures greatest { greatest_by self.new ≡ max (greatest_by self.old) (ordered_time
            (mode_of self.old) event) }
        ensures moves { IsSmall (mode_of self.old) event
            → Moves (mode_of self.old) (greatest_by self.old) (greatest_by self.new) result }
        ensures place { (count : ℕ) → event.place ≡ count + 1 → IsAtPlace count result }
        ensures same_mode { mode_of self.new ≡ mode_of self.old }
        ensures same_count { placed_by self.new ≡ placed_by self.old }
        ensures same_base { base_of self.new ≡ base_of self.old }
    {
        if !is_ordered(self.mode, &event) {
            return Placed::Event(event);
        }
        if event.time < self.greatest {
            return Placed::Late {
                event,
                before: self.greatest,
            };
        }
        self.greatest = event.time;
        Placed::Event(event)
    }
}

/// Whether the event must come in order of time.
pub fn is_ordered(mode: Mode, event: &Event) -> bool
    ensures { result ≡ is_ordered mode event.now }
{
    match (mode, event.kind) {
        (Mode::T3, _) => true,
        (Mode::T2, EventKind::Photon { .. }) => true,
        (Mode::T2, EventKind::Marker { .. }) => false,
    }
}
