// The events that are kept back at the end.
ghost use Rattle.std.specs.Prelude.{◌≡◌, ◌++◌, List, false, OnOk, IfErr};
ghost use Rattle.{tally_base.specs.{declared.fault.Fault.TheVariants.WriteFault, FaultCounts.FailsOnce}, ptu_definitions.specs.{Kept.Marked, Settled.marked_as}, settle.specs.Standing.kept_back};
ghost use Rattle.{settle.specs.Standing.last_time, record_stream.specs.{Feeding.Follows, Keeping.IsKeeping, Ending.BrokeFirst, OneMore.with_marks, Walking.{how_of, given_by, summary_in, Stays}}};

use crate::taker::EventTaker;
use crate::walk::Walk;
use settle::Settle;
use tally_base::Fault;

/// Gives a taker all events that are kept back, in order of time and then of place.
pub(crate) fn give_rest<S: EventTaker>(
    walk: &mut Walk,
    settle: &mut Settle,
    taker: &mut S,
) -> Result<(), Fault>
    requires keeps { IsKeeping walk.old settle.old }
    requires follows { Follows S.EventTaker (how_of walk.old).mode (given_by walk.old)
        (last_time settle.old) taker.old }
    ensures got { OnOk result ((start : S) (l : Marked) → S.got start taker.old l
        → S.got start taker.new (l ++ marked_as false (kept_back settle.old))) }
    ensures summary { OnOk result (summary_in walk.new
        ≡ with_marks (summary_in walk.old) (marked_as false (kept_back settle.old))) }
    ensures broken { IfErr result (λ fault. (fault ≡ WriteFault)
        × BrokeFirst S.EventTaker taker.old taker.new (marked_as false (kept_back settle.old))) }
    ensures cause { FailsOnce (S.faults taker.old) (S.faults taker.new) result }
    ensures stays { Stays S.EventTaker walk.old walk.new taker.old taker.new }
{
    while let Some(event) = settle.pop() {
        walk.give_event(&event, false, taker)?;
    }
    Ok(())
}
