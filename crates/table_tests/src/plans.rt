// What plans say: the test of `plan_text`.
use crate::given::{halves, read, same};
use crate::rows::PLANS;
use plan_text::Plan;
use std::alloc::Global;
use std::fmt::Debug;
use std::test::Fail;

/// The plan of a text, in which `; ` is the end of a line.
pub(crate) fn plan_in(alloc: Global, text: &str) -> Result<Plan, Fail> {
    let text = text.replace(alloc, "; ", "\n")?;
    read(alloc, text.as_bytes())
}

/// Appends the settings of tables of a kind.
fn tell<T: Debug>(alloc: Global, text: &mut String, sets: &[T]) -> Result<(), Fail> {
    for set in sets {
        text.push_str(&format!(in alloc; "; {set:?}")?)?;
    }
    Ok(())
}

/// Appends the bits of the inputs of each group, and its gates.
fn tell_groups(alloc: Global, text: &mut String, plan: &Plan) -> Result<(), Fail> {
    for group in plan.groups.iter() {
        let group = format!(in alloc; "; inputs {} gates {:?}", group.inputs, group.gates)?;
        text.push_str(&group)?;
    }
    Ok(())
}

fn tell_folds(alloc: Global, text: &mut String, plan: &Plan) -> Result<(), Fail> {
    for fold in plan.folds.iter() {
        let fold = format!(in alloc; "; groups {:?} window {}", fold.groups, fold.window)?;
        text.push_str(&fold)?;
    }
    Ok(())
}

/// All that a plan says.
fn told(alloc: Global, plan: &Plan) -> Result<String, Fail> {
    let mut text = format!(in alloc; "{:?} period {}", plan.policy, plan.period)?;
    tell(alloc, &mut text, &plan.shifts)?;
    tell_groups(alloc, &mut text, plan)?;
    tell(alloc, &mut text, &plan.histograms)?;
    tell(alloc, &mut text, &plan.traces)?;
    tell(alloc, &mut text, &plan.startstops)?;
    tell(alloc, &mut text, &plan.coincidences)?;
    tell(alloc, &mut text, &plan.images)?;
    tell(alloc, &mut text, &plan.correlations)?;
    tell(alloc, &mut text, &plan.cubes)?;
    tell_folds(alloc, &mut text, plan)?;
    Ok(text)
}

#[test]
fn plans_say_what_is_written(rt: HostRuntime) -> Result<(), Fail> {
    for line in PLANS.lines() {
        let (text, wanted) = halves(line);
        let plan = plan_in(rt.alloc(), text)?;
        same(text, &told(rt.alloc(), &plan)?, wanted)?;
    }
    Ok(())
}
