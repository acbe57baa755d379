// Reads the plan of a command.
ghost use Rattle.std.specs.Prelude.{◌≡◌, ◌≤◌, ◌<◌, List, ℕ, length, true, IfErr, IfOk};
ghost use Rattle.{tally_base.specs.{declared.{slot.Slot.TheVariants.Plan as PlanSlot, fault.Fault.TheVariants.ReadFault}, FaultCounts.Rose, Faults.fault_in}, bench_io.specs.Given.Consumes};
ghost use Rattle.{bench_io.specs.Inputs.OnlyReads, ptu_definitions.specs.Words.record_limit, command_work.specs.{Outcomes.{SaysNoEnd, InputsOnce}, Endings.{OpensAs, TakesPlan}, Pieces.MayOpen}};
ghost use Rattle.command_work.specs.Pieces.{OnlyUses, IsFilled, AnswersPlan, PlanReason};

use bench_io::Inputs;
use plan_text::{Plan, TEXT_LIMIT, read_plan};
use std::alloc::Global;
use tally_base::{Failed, Fault, Slot};

/// The bytes of a plan that are read at most: one more than a plan may have.
const TEXT_SIZE: usize = TEXT_LIMIT + 1;

const OPEN_FAULT: Fault = Fault::OpenFault { slot: Slot::Plan };

const READ_FAULT: Fault = Fault::ReadFault { slot: Slot::Plan };

/// Reads the plan to its end, or until the text is full, and answers how many bytes it has.
fn read_text<I: Inputs>(inputs: &mut I, text: &mut [u8]) -> Result<usize, Fault>
    requires opened { (I.state inputs.old).opened PlanSlot ≡ true }
    ensures reads { OnlyReads PlanSlot (I.state inputs.old) (I.state inputs.new) }
    ensures filled { IfOk result (IsFilled (I.state inputs.old) (I.state inputs.new) text.new) }
    ensures reason { IfErr result (λ fault. (fault ≡ ReadFault PlanSlot)
        × Rose ((I.state inputs.old).read_faults PlanSlot)
        ((I.state inputs.new).read_faults PlanSlot)) }
    ensures once { InputsOnce (I.state inputs.old) (I.state inputs.new) (fault_in result) }
    ensures unread { IfErr result (λ fault. (taken : List ℕ)
        × Consumes ((I.state inputs.old).given PlanSlot)
        ((I.state inputs.new).given PlanSlot) taken
        × (length taken < length text.old)) }
    ensures unended { IfErr result (λ fault. SaysNoEnd ((I.state inputs.old).given PlanSlot)
        ((I.state inputs.new).given PlanSlot)) }
{
    let mut len = 0;
    'pieces: while len < text.len() {
        let Ok(more) = inputs.read(Slot::Plan, &mut text[len..]) else {
            return Err(READ_FAULT);
        };
        if more == 0 {
            return Ok(len);
        }
        len += more;
    }
    Ok(len)
}

/// Reads the plan of a name. Its text takes memory before the plan is opened.
pub(crate) fn plan_of<I: Inputs>(alloc: Global, inputs: &mut I, name: &str) -> Result<Plan, Fault>
    requires { MayOpen (I.state inputs.old) PlanSlot name.now }
    ensures uses { OnlyUses PlanSlot (I.state inputs.old) (I.state inputs.new) }
    ensures answer { AnswersPlan (I.state inputs.new) result }
    ensures reason { IfErr result (PlanReason (I.state inputs.old) (I.state inputs.new)) }
    ensures once { InputsOnce (I.state inputs.old) (I.state inputs.new) (fault_in result) }
    ensures takes { TakesPlan (I.state inputs.new) }
    ensures names { OpensAs PlanSlot (I.state inputs.old) (I.state inputs.new) name.now }
    ensures records { IfOk result (λ plan. (0 < plan.policy.records)
        × (plan.policy.records ≤ record_limit)) }
{
    let Ok(mut room) = vec![in alloc; 0u8; TEXT_SIZE] else {
        return Err(Fault::OutOfMemory);
    };
    let text = room.as_mut_slice();
    match inputs.open(Slot::Plan, name) {
        Err(Failed) => return Err(OPEN_FAULT),
        Ok(()) => {}
    }
    let len = read_text(inputs, text)?;
    read_plan(alloc, &text[..len])
}
