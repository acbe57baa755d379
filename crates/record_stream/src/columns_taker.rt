// What the events of a block of words are given to.
ghost use Rattle.std.specs.Prelude.{OnOk, OnErr};
ghost use Rattle.{tally_base.specs.FaultCounts.FailsOnce, abs_time.specs.Placing.mode_of, record_stream.specs.{Blocks.BrokeAmong, Feeding.{CanTake, WasGiven}, Whole.{events_below, InReach, IsAhead}}};

use crate::ahead::Ahead;
use crate::taker::EventTaker;
use abs_time::Clock;
use lane_decode::Columns;
use record_layout::RecordLayout;
use tally_base::Failed;

/// A taker of the events of a block of words by the columns of their records.
pub(crate) trait TakesColumns: EventTaker {
    /// Takes the events of a block, which come in order and none late.
    fn take_columns<R: RecordLayout>(
        &mut self,
        clock: &Clock,
        columns: &Columns,
        ahead: &Ahead,
    ) -> Result<(), Failed>
        requires reach { InReach clock.now R.UNIT columns.now }
        requires ahead { IsAhead clock.now R.UNIT columns.now ahead.now }
        requires can { CanTake Self.EventTaker (mode_of clock.now) self.old
            (events_below 512 clock.now R.UNIT columns.now) }
        ensures given { OnOk result
            (WasGiven Self.EventTaker self.old self.new (events_below 512 clock.now R.UNIT columns.now)) }
        ensures broken { OnErr result (BrokeAmong Self.got Self.broke self.old self.new
            (events_below 512 clock.now R.UNIT columns.now)) }
        ensures cause { FailsOnce (Self.faults self.old) (Self.faults self.new) result }
        ensures same { Self.same self.old self.new };
}
