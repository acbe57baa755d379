// The command `trace`.
ghost use Rattle.std.specs.Prelude.{◌≡◌, option_map};
ghost use Rattle.{tally_base.specs.Settings.trace_view, plan_text.specs.ReadPlan.plan_view, command_work.specs.Behaviours.{AsItReads, ForPlan}, trace_work.specs.TraceOutcomes.{no_trace, trace_of}};
ghost use Rattle.trace_work.specs.TraceOutcomes.{trace_so_far, tracing};

use crate::trace::TraceJob;
use bench_io::{Inputs, Sink};
use command_work::{PlanWork, read_file};
use plan_text::Plan;
use std::alloc::Global;
use tally_base::{Fault, TraceSet};

/// Prints the first trace of a plan while a file is read. Its number of bins isn't looked at, and the other
/// parts of the plan count nothing.
#[derive(Clone, Copy)]
pub struct Tracing;

impl PlanWork for Tracing {
    ghost lacking = { λ it. no_trace };

    ghost work = { λ it. tracing };

    ghost writing = { λ it. AsItReads trace_so_far };

    ghost memory = { ForPlan };

    fn lacks(&self, plan: &Plan) -> Option<Fault> {
        match first_trace(plan) {
            Some(_) => None,
            None => Some(Fault::NoTrace),
        }
    }

    fn read<I: Inputs, O: Sink>(
        &self,
        _alloc: Global,
        inputs: &mut I,
        out: &mut O,
        plan: &Plan,
    ) -> Result<(), Fault> {
        match first_trace(plan) {
            Some(set) => read_file(&TraceJob { plan, set }, inputs, out),
            None => Err(Fault::NoTrace),
        }
    }
}

/// The first trace of a plan.
#[tactic(auto, using(crate::proofs::FirstTraces::first_is))]
fn first_trace(plan: &Plan) -> Option<TraceSet>
    ensures { trace_of (plan_view plan.now) ≡ option_map trace_view result }
{
    match plan.traces.as_slice().first() {
        Some(set) => Some(*set),
        None => None,
    }
}
