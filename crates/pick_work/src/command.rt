// The command `pick`.
ghost use Rattle.std.specs.Prelude.{◌≡◌, None, Some, IfSome};
ghost use Rattle.{tally_base.specs.declared.fault.Fault.TheVariants.NoGroup, plan_text.specs.ReadPlan.plan_view, command_work.specs.Behaviours.{AsItReads, ForPlan}};
ghost use Rattle.pick_work.specs.PickOutcomes.{no_group, pick_so_far, picking};

use crate::pick::PickJob;
use bench_io::{Inputs, Sink};
use command_work::{PlanWork, read_file};
use plan_text::Plan;
use std::alloc::Global;
use tally_base::Fault;

/// Writes the photons of the plan's group of this number to a file of their own, while a file is read. The tables
/// of the plan count nothing.
#[derive(Clone, Copy)]
pub struct Picking {
    /// The number of the group, from 1 on. A plan may have no such group.
    pub group: u64,
}

impl PlanWork for Picking {
    ghost lacking = { λ it. no_group it.group };

    ghost work = { λ it. picking it.group };

    ghost writing = { λ it. AsItReads (pick_so_far it.group) };

    ghost memory = { ForPlan };

    fn lacks(&self, plan: &Plan) -> Option<Fault> {
        match group_in(plan, self.group) {
            Some(_group) => None,
            None => Some(Fault::NoGroup { group: self.group }),
        }
    }

    fn read<I: Inputs, O: Sink>(
        &self,
        _alloc: Global,
        inputs: &mut I,
        out: &mut O,
        plan: &Plan,
    ) -> Result<(), Fault> {
        match group_in(plan, self.group) {
            Some(group) => read_file(&PickJob { plan, group }, inputs, out),
            None => Err(Fault::NoGroup { group: self.group }),
        }
    }
}

/// The number of a group, where the plan has it.
fn group_in(plan: &Plan, group: u64) -> Option<u8>
    ensures some { IfSome result (λ number. (number ≡ group) × (no_group group (plan_view plan.now) ≡ None)) }
    ensures none { result ≡ None → no_group group (plan_view plan.now) ≡ Some (NoGroup group) }
{
    if 1 <= group && group <= plan.groups.len() as u64 {
        Some(group as u8)
    } else {
        None
    }
}
