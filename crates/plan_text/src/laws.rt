// Laws of plans, as the contracts of functions that do nothing.
ghost use Rattle.std.specs.Prelude.{◌≡◌, ◌≢◌, ◌↔◌, ◌≤◌, ℕ, List, Some, Ok, Err, false};
ghost use Rattle.{toml.specs.Data.{Members, table}, tally_base.specs.declared.{fault.Fault.{Fault, TheVariants.OutOfMemory}, header.Mode.Mode}, plan_text.specs.declared.plan.Plan.Plan};
ghost use Rattle.plan_text.specs.{Plan.{PlanView, plan}, Version.is_second, FirstVersion.SaysFirst, ReadPlan.{document, plan_answer, IsCalledFor, IsValid, HaveSameTables}, Fits.{fits, IsMisfit}};
ghost use Rattle.plan_text.specs.Bound.{bound, greatest_bound};

/// What bytes answer as a plan is the one fault that they call for, or the plan of a document that breaks
/// no rule.
pub fn one_answer()
    ensures refused { (bytes : List ℕ) (fault : Fault)
        → (plan_answer bytes ≡ Err fault) ↔ (IsCalledFor bytes fault × (fault ≢ OutOfMemory)) }
    ensures valid { (bytes : List ℕ) (view : PlanView) → plan_answer bytes ≡ Ok view
        → IsValid bytes }
    ensures plan { (bytes : List ℕ) (ms : Members) → IsValid bytes → document bytes ≡ Some ms
        → plan_answer bytes ≡ Ok (plan (table ms)) }
{}

/// The fault of a plan that doesn't suit a mode is that of its first part that doesn't.
pub fn first_misfit()
    ensures { (mode : Mode) (view : PlanView) (fault : Fault)
        → (fits mode view ≡ Err fault) ↔ IsMisfit mode view fault }
{}

/// The one list of a plan's parts tells its tables of each kind: nothing is lost in it.
pub fn same_tables_of_each_kind()
    ensures { (one other : Plan) → HaveSameTables one other }
{}

/// A plan that bytes answer has a bound of at most 261,745,146 entries: 48 bytes that are carried, 64 events
/// that are kept back, and of each kind as many tables as may be, each of the greatest settings.
pub fn bounded()
    ensures most { (bytes : List ℕ) (view : PlanView) → plan_answer bytes ≡ Ok view
        → bound view ≤ greatest_bound }
    ensures number { greatest_bound ≡ 261745146 }
{}

/// A plan that is not of version 2 is read as before there was one: it shifts no dtime, puts no event in its place,
/// has at most one gate a group, no cube and no fold, and no row of its images runs backwards.
pub fn version_1_is_read_as_before()
    ensures { (bytes : List ℕ) (ms : Members) (view : PlanView) → document bytes ≡ Some ms
        → is_second (table ms) ≡ false → plan_answer bytes ≡ Ok view → SaysFirst view }
{}
