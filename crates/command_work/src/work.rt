// The work of a command: on FILE alone, or by a plan.
ghost use Rattle.std.specs.{Prelude.{◌≡◌, ◌≤◌, ◌<◌, List, ℕ, true, false, None, IfSome}, declared.option.Option.Option};
ghost use Rattle.{tally_base.specs.{declared.{slot.Slot.{Slot, TheVariants.{Plan as PlanSlot, Data}}, fault.Fault.Fault}, Faults.is_outside}, bench_io.specs.Inputs.OnlyReads};
ghost use Rattle.{ptu_definitions.specs.Words.record_limit, plan_text.specs.{Plan.PlanView, ReadPlan.plan_view}, command_work.specs.Behaviours.{Work, Writing, Memory, OnFile, ByPlan}};
ghost use Rattle.command_work.specs.{Endings.{LeavesCommand, span}, Works.{WantsNone, LeavesWork, LeavesPlanned}};

use crate::plan::plan_of;
use bench_io::{Inputs, Sink};
use plan_text::Plan;
use std::alloc::Global;
use tally_base::{Failed, Fault, Slot};

/// What a command on FILE alone does with the data.
pub trait FileWork {
    ghost work: { Work };

    ghost writing: { Writing (List ℕ → List ℕ) };

    /// Reads the data as far as the command goes, and writes its text. It takes no memory.
    fn read<I: Inputs, O: Sink>(&self, inputs: &mut I, out: &mut O) -> Result<(), Fault>
        requires { (I.state inputs.old).opened Data ≡ true }
        ensures reads { OnlyReads Data (I.state inputs.old) (I.state inputs.new) }
        ensures leaves { LeavesWork writing WantsNone work
            (span I.Inputs O.Sink inputs.old inputs.new out.old out.new) result };
}

/// Opens FILE, and does the command's work on it.
pub fn on_file<W: FileWork, I: Inputs, O: Sink>(
    work: &W,
    inputs: &mut I,
    out: &mut O,
    file: &str,
) -> Result<(), Fault>
    requires meant { (I.state inputs.old).meant Data file.now ≡ true }
    requires first { (slot : Slot) → (I.state inputs.old).asked slot ≡ false }
    ensures { LeavesCommand (OnFile file.now W.writing W.work)
        (span I.Inputs O.Sink inputs.old inputs.new out.old out.new) result }
{
    match inputs.open(Slot::Data, file) {
        Err(Failed) => Err(Fault::OpenFault { slot: Slot::Data }),
        Ok(()) => work.read(inputs, out),
    }
}

/// What a command by a plan does with the plan, and with the data.
pub trait PlanWork {
    ghost lacking: { Self → PlanView → Option Fault };

    ghost work: { Self → PlanView → Work };

    ghost writing: { Self → Writing (PlanView → List ℕ → List ℕ) };

    ghost memory: { Memory };

    /// What the plan lacks for this command. It is told before the data are opened.
    fn lacks(&self, plan: &Plan) -> Option<Fault>
        ensures answer { result ≡ lacking self.now (plan_view plan.now) }
        ensures inside { IfSome result (λ fault. is_outside fault ≡ false) };

    /// Reads the data as far as the command goes, and writes its text.
    fn read<I: Inputs, O: Sink>(
        &self,
        alloc: Global,
        inputs: &mut I,
        out: &mut O,
        plan: &Plan,
    ) -> Result<(), Fault>
        requires opened { (I.state inputs.old).opened Data ≡ true }
        requires records { (0 < plan.now.policy.records)
            × (plan.now.policy.records ≤ record_limit) }
        requires whole { lacking self.now (plan_view plan.now) ≡ None }
        ensures reads { OnlyReads Data (I.state inputs.old) (I.state inputs.new) }
        ensures leaves { LeavesPlanned (writing self.now) memory (work self.now)
            (plan_view plan.now) (span I.Inputs O.Sink inputs.old inputs.new out.old out.new) result };
}

/// Reads PLAN whole. Where it is a plan and lacks nothing, opens FILE, and does the command's work
/// on it.
pub fn by_plan<W: PlanWork, I: Inputs, O: Sink>(
    work: &W,
    alloc: Global,
    inputs: &mut I,
    out: &mut O,
    plan_name: &str,
    data_name: &str,
) -> Result<(), Fault>
    requires meant_plan { (I.state inputs.old).meant PlanSlot plan_name.now ≡ true }
    requires meant_data { (I.state inputs.old).meant Data data_name.now ≡ true }
    requires first { (slot : Slot) → (I.state inputs.old).asked slot ≡ false }
    ensures { LeavesCommand (ByPlan plan_name.now data_name.now (W.writing work.now) W.memory
        (W.lacking work.now) (W.work work.now))
        (span I.Inputs O.Sink inputs.old inputs.new out.old out.new) result }
{
    let plan = plan_of(alloc, inputs, plan_name)?;
    if let Some(fault) = work.lacks(&plan) {
        return Err(fault);
    }
    match inputs.open(Slot::Data, data_name) {
        Err(Failed) => Err(Fault::OpenFault { slot: Slot::Data }),
        Ok(()) => work.read(alloc, inputs, out, &plan),
    }
}
