// Events in order of time, of which the last few are kept back.
ghost use Rattle.std.specs.{Prelude.{◌≡◌, ◌+◌, ◌<◌, ◌≤◌, ◌++◌, ◌∷◌, [], List, ℕ, true, false, ◌&&◌, not, nat_lt, length, IfSome, is_some}, Option.option_to_list, List.{All, AllByRecursion}};
ghost use Rattle.std.specs.List.{AllWithin, Sorted.IsNonDecreasingBy};
ghost use Rattle.{arrayvec.specs.ArrayVec.array_vec_len, tally_base.specs.declared.event.Event.Event, ptu_definitions.specs.Settled.{put_in, is_overtaken, settles}, settle.specs.Settling.Precedes};
ghost use Rattle.settle.specs.Settling.{told};

use arrayvec::ArrayVec;
use tally_base::Event;

/// What becomes of an event that is pushed.
#[derive(Clone, Copy, PartialEq, Eq)]
pub struct Settled {
    /// The event that no later one can come before any more, if there is one.
    pub emitted: Option<Event>,
    /// Whether the event pushed is late, and left out.
    pub late: bool,
}

/// Events that come in about the order of time. The last few are kept back until no event that is not
/// late can come before them.
///
/// The lists that it keeps: `waiting`.
#[derive(Drop)]
pub struct Settle {
    reach: u32,
    waiting: ArrayVec<Event, 64>,
    last: u64,
    place: Option<u64>,
    popped: bool,
    ghost few: { array_vec_len waiting ≤ reach },
    ghost limit: { reach ≤ 64 },
    ghost low: { All (λ (x : Event). last ≤ x.time) waiting.items },
    ghost rising: { IsNonDecreasingBy (λ (x : Event). x.time) waiting.items },
}

impl Settle {
    ghost use Rattle.settle.specs.{Passing.{ComesBehind, HasPassed, HasPushed, KeepsOrEmits, MovesTo, StandsBehind}, Standing.{reach_of, kept_back, last_time, next_place, was_popped, HasSettled}};

    /// Keeps back at most so many events, and none yet.
    pub fn new(k: u32) -> Settle
        requires { k ≤ 64 }
        ensures empty { HasSettled result [] [] }
        ensures reach { reach_of result ≡ k }
        ensures none { kept_back result ≡ [] }
        ensures first { next_place result ≡ 0 }
        ensures low { last_time result ≡ 0 }
        ensures unpopped { was_popped result ≡ false }
    {
        Settle {
            reach: k,
            waiting: ArrayVec::new(),
            last: 0,
            place: None,
            popped: false,
        }
    }

    /// How many events it keeps back.
    pub fn held(&self) -> usize
        ensures value { result ≡ length (kept_back self.now) }
        ensures few { result ≤ reach_of self.now }
    {
        self.waiting.len()
    }

    /// The time of the last event that it let go, or 0 where there is none.
    pub fn last(&self) -> u64
        ensures { result ≡ last_time self.now }
    {
        self.last
    }

    /// Takes the next event, at a greater place than the one before it. It is late where more events than are
    /// kept back at most came before it and have a greater time. Otherwise the least of it and those kept back is
    /// emitted, if as many as may be are kept back.
    pub fn push(&mut self, event: Event) -> Settled
        requires behind { next_place self.old ≤ event.place }
        requires unpopped { was_popped self.old ≡ false }
        ensures pushed { (pushed given : List Event) → HasSettled self.old pushed given
            → HasPushed self.old self.new pushed given event result }
        ensures keeps { KeepsOrEmits self.old self.new event result }
        ensures moves { MovesTo self.old self.new result.emitted }
        ensures stands { StandsBehind self.old self.new event.place }
    {
        self.place = Some(event.place);
        if event.time < self.last {
            return Settled {
                emitted: None,
                late: true,
            };
        }
        if self.waiting.len() < self.reach as usize {
            put_in(&mut self.waiting, event);
            return Settled {
                emitted: None,
                late: false,
            };
        }
        let least = exchange(&mut self.waiting, event);
        self.last = least.time;
        Settled {
            emitted: Some(least),
            late: false,
        }
    }

    /// The events that it keeps back, in order of time and then of place.
    pub fn waiting(&self) -> &[Event]
        ensures value { result.now ≡ kept_back self.now }
        ensures few { length result.now ≤ 64 }
    {
        self.waiting.as_slice()
    }

    /// Takes events that come in order after all that it keeps back, which are as many as may be. Of both
    /// together these last ones stay, as many, and all before these are let go, up to this time. The last
    /// event that came has this place.
    pub fn pass(&mut self, stay: &[Event], time: u64, place: u64)
        requires as_many { length stay.now ≡ length (kept_back self.old) }
        requires low { All (λ (x : Event). time ≤ x.time) stay.now }
        requires rising { IsNonDecreasingBy (λ (x : Event). x.time) stay.now }
        ensures passed { (pushed given came went : List Event) → HasSettled self.old pushed given
            → ComesBehind self.old came went stay.now time place
            → HasPassed self.old self.new pushed given came went }
        ensures waits { kept_back self.new ≡ stay.now }
        ensures time { last_time self.new ≡ time }
        ensures stands { StandsBehind self.old self.new place }
    {
        self.waiting.as_mut_slice().copy_from_slice(stay);
        self.last = time;
        self.place = Some(place);
    }

    /// Takes out the least of the events kept back, if there is one. No event can be pushed any more.
    pub fn pop(&mut self) -> Option<Event>
        ensures settled { (pushed given : List Event) → HasSettled self.old pushed given
            → HasSettled self.new pushed (given ++ option_to_list result) }
        ensures least { kept_back self.old ≡ option_to_list result ++ kept_back self.new }
        ensures some { is_some result ≡ nat_lt 0 (length (kept_back self.old)) }
        ensures same_reach { reach_of self.new ≡ reach_of self.old }
        ensures moves { MovesTo self.old self.new result }
        ensures same_place { next_place self.new ≡ next_place self.old }
        ensures popped { was_popped self.new ≡ true }
    {
        self.popped = true;
        let first = self.waiting.pop_at(0)?;
        self.last = first.time;
        Some(first)
    }
}

/// The number of events at the front that are not later than this time.
fn place_of(events: &[Event], time: u64) -> usize
    requires { IsNonDecreasingBy (λ (x : Event). x.time) events.now }
    ensures within { result ≤ length events.now }
    ensures before { AllWithin (λ (x : Event). x.time ≤ time) events.now 0 result }
    ensures after { AllWithin (λ (x : Event). time < x.time) events.now result (length events.now) }
{
    let mut at = events.len();
    while at > 0 && events[at - 1].time > time {
        at -= 1;
    }
    at
}

/// Puts an event after all that are not later.
fn put_in(waiting: &mut ArrayVec<Event, 64>, event: Event)
    requires room { array_vec_len waiting.old < 64 }
    requires rising { IsNonDecreasingBy (λ (x : Event). x.time) waiting.old.items }
    ensures value { waiting.new.items ≡ put_in event waiting.old.items }
    ensures rising { IsNonDecreasingBy (λ (x : Event). x.time) waiting.new.items }
    ensures one_more { array_vec_len waiting.new ≡ array_vec_len waiting.old + 1 }
{
    let at = place_of(waiting.as_slice(), event.time);
    waiting.insert(at, event);
}

/// Puts an event after all that are not later, and takes out the first.
fn exchange(waiting: &mut ArrayVec<Event, 64>, event: Event) -> Event
    requires rising { IsNonDecreasingBy (λ (x : Event). x.time) waiting.old.items }
    ensures value { result ∷ waiting.new.items ≡ put_in event waiting.old.items }
    ensures rising { IsNonDecreasingBy (λ (x : Event). x.time) waiting.new.items }
    ensures as_many { array_vec_len waiting.new ≡ array_vec_len waiting.old }
{
    let at = place_of(waiting.as_slice(), event.time);
    if at == 0 {
        return event;
    }
    let least = waiting.remove(0);
    waiting.insert(at - 1, event);
    least
}
