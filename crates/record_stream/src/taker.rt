// What events are given to.
ghost use Rattle.std.specs.Prelude.{◌≡◌, ℕ, ◌+◌, ◌<◌, ◌≤◌, ◌&&◌, not, true, IsTrue, [], ◌∷◌, ◌++◌, length, OnOk, OnErr, max};
ghost use Rattle.tally_base.specs.{declared.header.Mode.Mode, FaultCounts.FailsOnce, Events.is_ordered, Limits.{record_limit, time_limit}, Columns.{sorted, gathered}, Tally.{floor_after, InOrder}};
ghost use Rattle.{ptu_definitions.specs.{Layouts.KindFits, Kept.{Marked, floor_of}}, abs_time.specs.Floors.{moved_floor, orders_markers}, record_stream.specs.Blocks.{on_time, AllFit, LetsLatePass}};
ghost use Rattle.record_stream.specs.Blocks.{BrokeAmong};

use tally_base::{Block, Event, Failed, Mode, TABLE_BLOCK};

/// What a stream gives its events to, each with whether it is late.
pub trait EventTaker {
    /// Since it stood at the first it was given these, and now stands at the second.
    ghost got: { Self → Self → Marked → Type 0 };

    /// Since it stood at the first it failed at the last of these, and now stands at the second.
    ghost broke: { Self → Self → Marked → Type 0 };

    ghost mode: { Self → Mode };

    ghost taken: { Self → ℕ };

    /// The greatest time of the ordered events that weren't marked late.
    ghost floor: { Self → ℕ };

    ghost faults: { Self → ℕ };

    /// What a call leaves as it is, as the references in it.
    ghost same: { Self → Self → Type 0 };

    /// Whether it may be given a late event before events on time that came before that.
    fn lets_late_pass(&self) -> bool
        ensures { result ≡ true → LetsLatePass got broke }
    {
        false
    }

    fn take(&mut self, event: &Event, late: bool) -> Result<(), Failed>
        requires room { taken self.old < record_limit }
        requires in_time { event.now.time ≤ time_limit }
        requires kind { KindFits (mode self.old) event.now.kind }
        requires in_order { IsTrue (is_ordered (mode self.old) event.now && not late)
            → floor self.old ≤ event.now.time }
        ensures follows { OnOk result ((start : Self) (l : Marked) → got start self.old l
            → got start self.new (l ++ (event.now, late) ∷ [])) }
        ensures one_more { OnOk result (taken self.new ≡ taken self.old + 1) }
        ensures same_mode { OnOk result (mode self.new ≡ mode self.old) }
        ensures moved { OnOk result (floor self.new
            ≡ moved_floor (mode self.old) (floor self.old) event.now late) }
        ensures broken { OnErr result ((start : Self) (l : Marked) → got start self.old l
            → broke start self.new (l ++ (event.now, late) ∷ [])) }
        ensures cause { FailsOnce (faults self.old) (faults self.new) result }
        ensures same { same self.old self.new };

    /// Takes the events of a block, which come in order and none late. What it leaves of the block is open.
    fn take_block(&mut self, block: &mut Block<TABLE_BLOCK>) -> Result<(), Failed>
        requires room { taken self.old + length (gathered block.old) ≤ record_limit }
        requires fit { AllFit (mode self.old) (gathered block.old) }
        requires in_order { InOrder (orders_markers (mode self.old)) (floor self.old)
            (gathered block.old) }
        requires unsorted { sorted block.old ≡ 0 }
        ensures follows { OnOk result ((start : Self) (l : Marked) → got start self.old l
            → got start self.new (l ++ on_time (gathered block.old))) }
        ensures more { OnOk result (taken self.new ≡ taken self.old + length (gathered block.old)) }
        ensures same_mode { OnOk result (mode self.new ≡ mode self.old) }
        ensures moved { OnOk result (floor self.new ≡ floor_after (orders_markers (mode self.old))
            (floor self.old) (gathered block.old)) }
        ensures broken { OnErr result (BrokeAmong got broke self.old self.new (gathered block.old)) }
        ensures cause { FailsOnce (faults self.old) (faults self.new) result }
        ensures same { same self.old self.new }
    {
        for at in 0..block.len() {
            self.take(&block.event(at), false)?;
        }
        Ok(())
    }

    /// What holds of every taker.
    ghost got_none: { (t : Self) → got t t [] };

    ghost taken_is: { (start t : Self) (l : Marked) → got start t l → taken t ≡ taken start + length l };

    ghost floor_is: { (start t : Self) (l : Marked) → got start t l → floor t ≡ max (floor start) (floor_of (mode start) l) };

    ghost same_none: { (t : Self) → same t t };

    ghost same_more: { (t u v : Self) → same t u → same u v → same t v };
}
