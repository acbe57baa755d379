// The records of a stream, one after the other.
ghost use Rattle.std.specs.Prelude.{◌≡◌, ◌+◌, ◌*◌, ◌<◌, ◌≤◌, ◌++◌, ◌∷◌, [], List, ℕ, length, Some, OnOk, OnErr, IfOk, IfErr, ◌&&◌, not, IsTrue};
ghost use Rattle.{abs_time.specs.{Placing.{mode_of as clock_mode, placed_by, IsSmall}, Floors.moved_floor}, tally_base.specs.{RecordTypes.mode_of, Limits.record_limit}};
ghost use Rattle.{tally_base.specs.{declared.fault.Fault.TheVariants.WriteFault, Events.is_ordered}, ptu_definitions.specs.{Kept.Marked, Words.numbers, Streams.refusal}};

use crate::blocks::SettlesEvents;
use crate::count::{add_event, add_raw, stops_at, stops_late};
use crate::sums::Sums;
use crate::taker::EventTaker;
use abs_time::{Clock, Placed};
use record_layout::RecordLayout;
use settle::Settle;
use tally_base::{Event, Fault, Policy, RecordType};

/// How far a stream is in whole records that it refused none of.
#[derive(Clone, Copy)]
pub struct Walk {
    pub record_type: RecordType,
    pub policy: Policy,
    pub clock: Clock,
    pub sums: Sums,
    pub given: u64,
    pub ghost limit: { policy.records ≤ record_limit },
    pub ghost few: { sums.records ≤ policy.records },
    pub ghost few_given: { given ≤ sums.records },
    pub ghost few_late: { sums.late ≤ given },
    pub ghost same_mode: { clock_mode clock ≡ mode_of record_type },
    pub ghost few_placed: { placed_by clock ≤ sums.records },
}

impl Walk {
    ghost use Rattle.record_stream.specs.{OneMore.with_event, Feeding.{Follows, WasCalled}, Walking.{how_of, given_by, KeepsPlace, IsBehind, CanGive, Gave}, Keeping.IsKeeping, Settling.floor_in};
    ghost use Rattle.record_stream.specs.{Settling.{CanWalk, ComesUp, IsReady, StaysKept, TellsAfterAny, Walks}, Rows.{IsPlaced, CountsOne, KeepsGiven}};

    /// Counts and places the record of the next word. Refuses it for all but a late event.
    #[inline(always)]
    pub(crate) fn place_next<R: RecordLayout>(&mut self, word: u32) -> Result<Placed, Fault>
        requires meaning { R.meaning ≡ (how_of self.old).meaning }
        ensures refused { (words : List ℕ) → IsBehind self.old words
            → IfErr result (λ fault. refusal (how_of self.old) words word ≡ Some fault) }
        ensures placed { (words : List ℕ) → IsBehind self.old words
            → IfOk result (IsPlaced self.old self.new words word) }
        ensures counts { IfOk result (CountsOne self.old self.new) }
        ensures keeps { KeepsGiven self.old self.new }
    {
        if self.sums.records == self.policy.records {
            return Err(Fault::RecordLimit {
                limit: self.policy.records,
            });
        }
        let raw = R::decode(word);
        if stops_at(self.policy.reserved, &raw) {
            return Err(Fault::ReservedRecord {
                place: self.sums.records + 1,
                word,
            });
        }
        add_raw(&mut self.sums, &raw);
        self.clock.place(&raw)
    }

    /// Takes the next word.
    #[inline(always)]
    pub(crate) fn step<R: RecordLayout, O: SettlesEvents, S: EventTaker>(
        &mut self,
        settle: &mut Settle,
        word: u32,
        taker: &mut S,
    ) -> Result<(), Fault>
        requires { CanWalk S.EventTaker O.is_for R.meaning self.old settle.old taker.old }
        ensures { Walks S.EventTaker self.old self.new settle.old settle.new taker.old taker.new
            (word ∷ []) result }
    {
        match self.place_next::<R>(word)? {
            Placed::Event(event) => self.take_event::<O, S>(
                settle, event, event.time, false, taker,
            ),
            Placed::Late { event, before } => {
                self.take_event::<O, S>(settle, event, before, true, taker)
            }
            Placed::Wrap | Placed::Reserved => Ok(()),
        }
    }

    /// Takes the next event, of a record that is counted and placed, and gives the taker what goes with it. It is late
    /// in file order or not, and `before` is the greatest time of the events in order before it, if that is greater.
    #[inline(always)]
    fn take_event<O: SettlesEvents, S: EventTaker>(
        &mut self,
        settle: &mut Settle,
        event: Event,
        before: u64,
        late: bool,
        taker: &mut S,
    ) -> Result<(), Fault>
        requires ready { IsReady S.EventTaker O.is_for self.old settle.old taker.old }
        requires comes { ComesUp self.old settle.old event late }
        ensures tells { TellsAfterAny S.EventTaker self.old self.new settle.old settle.new taker.old
            taker.new event before late result }
        ensures goes_on { OnOk result (Follows S.EventTaker (how_of self.old).mode
            (given_by self.new) (floor_in self.new settle.new) taker.new) }
        ensures place { KeepsPlace self.old self.new }
        ensures stays { StaysKept S.EventTaker self.old self.new settle.new taker.old taker.new }
    {
        let settled = O::settle_event(self, settle, event, late);
        if settled.late {
            if stops_late(self.policy.order) {
                return Err(Fault::BackwardTime {
                    place: event.place,
                    time: event.time,
                    before,
                });
            }
            return self.give_event(&event, true, taker);
        }
        match settled.emitted {
            Some(first) => self.give_event(&first, false, taker),
            None => Ok(()),
        }
    }

    /// Gives an event whose record is counted already.
    #[inline(always)]
    pub(crate) fn give_event<S: EventTaker>(
        &mut self,
        event: &Event,
        late: bool,
        taker: &mut S,
    ) -> Result<(), Fault>
        requires can { CanGive S.EventTaker self.old event.now late taker.old }
        ensures gave { OnOk result
            (Gave S.EventTaker self.old self.new taker.old taker.new event.now late) }
        ensures broken { OnErr result ((start : S) (l : Marked) → S.got start taker.old l
            → S.broke start taker.new (l ++ (event.now, late) ∷ [])) }
        ensures fault { IfErr result (λ fault. fault ≡ WriteFault) }
        ensures called { WasCalled S.EventTaker taker.old taker.new result }
        ensures keeps { KeepsPlace self.old self.new }
    {
        if taker.take(event, late).is_err() {
            return Err(Fault::WriteFault);
        }
        self.given += 1;
        add_event(&mut self.sums, event, late);
        Ok(())
    }

    /// Takes the next words, one after the other.
    pub(crate) fn words<R: RecordLayout, O: SettlesEvents, S: EventTaker>(
        &mut self,
        settle: &mut Settle,
        words: &[[u8; 4]],
        taker: &mut S,
    ) -> Result<(), Fault>
        requires { CanWalk S.EventTaker O.is_for R.meaning self.old settle.old taker.old }
        ensures { Walks S.EventTaker self.old self.new settle.old settle.new taker.old taker.new
            (numbers words.now) result }
    {
        // A copy, whose fields the loop keeps in registers.
        let mut at = *self;
        for word in words {
            match at.step::<R, O, S>(settle, u32::from_le_bytes(*word), taker) {
                Ok(()) => {}
                Err(fault) => {
                    *self = at;
                    return Err(fault);
                }
            }
        }
        *self = at;
        Ok(())
    }
}
