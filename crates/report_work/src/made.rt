// The command that needs no files.
ghost use Rattle.std.specs.Prelude.{◌≡◌, ◌≤◌, true, Some, IfErr};
ghost use Rattle.{bench_io.specs.{Given.no_bytes, Inputs.InputState}, tally_base.specs.{declared.slot.Slot.TheVariants.Data, Faults.fault_in}, ptu_made.specs.{Records.made_file, Made.made_state}};
ghost use Rattle.{ptu_made.specs.Generator.photon_limit, command_work.specs.{Outcomes.{written, OutOnce}, Behaviours.Alone, Endings.{Answers, HasCauses, alone_span}}};
ghost use Rattle.report_work.specs.Demo.{demo_report};

use crate::run::RunJob;
use bench_io::{Inputs, Sink};
use command_work::read_file;
use plan_text::read_plan;
use ptu_made::Made;
use std::alloc::Global;
use tally_base::{Fault, Slot};

/// The text of the plan of `demo`.
pub const DEMO_PLAN: &[u8] = b"[[group]]
inputs = [1]
[[group]]
inputs = [2]
[[trace]]
group = 1
width = 1048576
bins = 64
[[startstop]]
start = 1
stop = 2
width = 64
bins = 64
[[coincidence]]
first = 1
second = 2
reach = 256
width = 64
[[correlation]]
first = 1
second = 2
lags = 4
levels = 8
";

/// The made file, of which nothing was read yet.
fn made_data(seed: u64, count: u64) -> Made
    requires { count ≤ photon_limit }
    ensures opened { (made_state result).opened Data ≡ true }
    ensures told { (made_state result).told Data ≡ Some (made_file seed count) }
    ensures given { (made_state result).given Data ≡ no_bytes }
{
    let mut made = Made::new(seed, count);
    // No name is looked at, and no call fails.
    let _ = made.open(Slot::Data, "");
    made
}

/// Counts what the fixed plan asks for in the photons of a seed, and writes the report. Nothing is
/// written before all are counted.
#[tactic(auto, unfolding(command_work::specs::Endings::outcome, command_work::specs::Endings::HasCauses))]
pub fn demo<O: Sink>(alloc: Global, out: &mut O, seed: u64, count: u64) -> Result<(), Fault>
    requires { count ≤ photon_limit }
    ensures answer { (state : InputState) → Answers (Alone (written (demo_report seed count))) state
        result (O.state out.old) (O.state out.new) }
    ensures causes { (state : InputState)
        → IfErr result (HasCauses (Alone (written (demo_report seed count)))
        (alone_span O.Sink state out.old out.new)) }
    ensures once { OutOnce (fault_in result) (O.state out.old) (O.state out.new) }
{
    let plan = read_plan(alloc, DEMO_PLAN)?;
    let mut made = made_data(seed, count);
    read_file(&RunJob { alloc, plan: &plan }, &mut made, out)
}
