// How a plan is read.
ghost use Rattle.std.specs.Prelude.{◌≡◌, ◌≤◌, ◌<◌, ◌≢◌, map, filter_map, length, IfOk, IfErr, OnOk, Some, None, Ok, Err, unwrap_or, false};
ghost use Rattle.{tally_base.specs.{Faults.is_outside, Settings.group_view, Limits.record_limit}, toml.specs.{Data.{Members, table}, View.view}, toml_rules.specs.Rules.{all_kept, Names, AllHold}};
ghost use Rattle.plan_text.specs.{Groups.{groups, group}, Document.{order, reserved, records}, Settle.settle_or_none, Plan.{order_of, reserved_of, plan_rules, plan, IsWhole}, ReadPlan.document};
ghost use Rattle.plan_text.specs.ReadPlan.{plan_answer, plan_view, plan_seen, if_kept, IsCalledFor, IsValid};

use crate::document::{keeps_document_rules, order, records, reserved};
use crate::groups::{group, keeps_group_rules};
use crate::kind::list_by_rules;
use crate::plan::Plan;
use crate::settle::settle_or_none;
use crate::shifts::{period_or_one, shifts_by_rules};
use arrayvec::ArrayVec;
use std::alloc::Global;
use tally_base::{Fault, Group, OnReserved, Order, Policy, RECORD_LIMIT};
use toml::Value;
use toml_rules::list_at;

/// The most bytes of a plan.
pub const TEXT_LIMIT: usize = 65_536;

/// Reads a plan, a TOML document of at most 65,536 bytes. It is refused, by the first that applies,
///
/// - with `PlanTooLong`, where there are more bytes, which are not looked at;
/// - with `PlanSyntax`, where the bytes are no TOML document;
/// - with `PlanRule`, where a rule is broken: the least such rule, and under it the least index;
///
/// and with `OutOfMemory`, where there is not enough memory for a document that is not too long.
pub fn read_plan(alloc: Global, bytes: &[u8]) -> Result<Plan, Fault>
    ensures answer { result ≢ Err Fault.OutOfMemory → plan_seen result ≡ plan_answer bytes.now }
    ensures refused { IfErr result (IsCalledFor bytes.now) }
    ensures valid { OnOk result (IsValid bytes.now) }
    ensures records { IfOk result (λ plan. (0 < plan.policy.records) × (plan.policy.records ≤ record_limit)) }
    ensures inside { IfErr result (λ fault. fault ≢ Fault.OutOfMemory → is_outside fault ≡ false) }
{
    if TEXT_LIMIT < bytes.len() {
        return Err(Fault::PlanTooLong);
    }
    match read_document(alloc, bytes) {
        Ok(document) => plan_by_rules(&document),
        Err(fault) => Err(fault),
    }
}

/// The plan of a document that keeps the rules.
fn plan_by_rules(document: &Value) -> Result<Plan, Fault>
    ensures answer { plan_seen result ≡ if_kept (all_kept (plan_rules (view document.now))) (plan (view document.now)) }
    ensures refused { IfErr result (Names (plan_rules (view document.now))) }
    ensures valid { OnOk result (AllHold (plan_rules (view document.now))) }
    ensures whole { OnOk result (IsWhole (view document.now)) }
    ensures records { IfOk result (λ plan. (0 < plan.policy.records) × (plan.policy.records ≤ record_limit)) }
    ensures inside { IfErr result (λ fault. is_outside fault ≡ false) }
{
    match plan_of(document) {
        Ok(plan) => Ok(plan),
        Err(fault) => Err(fault),
    }
}

/// The table that the bytes are as a TOML document.
#[tactic(auto, using(crate::proofs::Called::document_of_text))]
fn read_document(alloc: Global, bytes: &[u8]) -> Result<Value, Fault>
    ensures ok { IfOk result (λ value. (ms : Members) × (document bytes.now ≡ Some ms) × (view value ≡ table ms)) }
    ensures refused { IfErr result (λ fault. fault ≢ Fault.OutOfMemory → (fault ≡ Fault.PlanSyntax) × (document bytes.now ≡ None)) }
{
    let text = match std::str::from_utf8(bytes) {
        Ok(text) => text,
        Err(_) => return Err(Fault::PlanSyntax),
    };
    match toml::table_from_str(alloc, text) {
        Ok(table) => Ok(Value::Table(table)),
        Err(error) => {
            if error.is_memory() {
                Err(Fault::OutOfMemory)
            } else {
                Err(Fault::PlanSyntax)
            }
        }
    }
}

/// Goes through all rules in their order, and reads the tables of each list after the rules on it.
#[tactic(auto, using(crate::proofs::Whole::plan_kept), unfolding(crate::specs::Plan::plan))]
fn plan_of(document: &Value) -> Result<Plan, Fault>
    ensures kept { OnOk result (all_kept (plan_rules (view document.now)) ≡ Ok tt) }
    ensures refused { IfErr result (λ fault. all_kept (plan_rules (view document.now)) ≡ Err fault) }
    ensures plan { IfOk result (λ found. plan_view found ≡ plan (view document.now)) }
    ensures records { IfOk result (λ plan. (0 < plan.policy.records) × (plan.policy.records ≤ record_limit)) }
{
    keeps_document_rules(document)?;
    keeps_group_rules(document)?;
    Ok(Plan {
        policy: policy_of(document),
        period: period_or_one(document) as u32,
        groups: groups_of(document, list_at(document, "group")),
        histograms: list_by_rules(document)?,
        traces: list_by_rules(document)?,
        startstops: list_by_rules(document)?,
        coincidences: list_by_rules(document)?,
        images: list_by_rules(document)?,
        correlations: list_by_rules(document)?,
        shifts: shifts_by_rules(document)?,
        cubes: list_by_rules(document)?,
        folds: list_by_rules(document)?,
    })
}

/// Which records the document refuses.
fn policy_of(document: &Value) -> Policy
    ensures order { result.order ≡ order_of (order (view document.now)) }
    ensures reserved { result.reserved ≡ reserved_of (reserved (view document.now)) }
    ensures records { result.records ≡ unwrap_or (records (view document.now)) record_limit }
    ensures settle { result.settle ≡ settle_or_none (view document.now) }
    ensures few { result.settle ≤ 64 }
    ensures range { (0 < result.records) × (result.records ≤ record_limit) }
{
    Policy {
        order: order_of(order(document)),
        reserved: reserved_of(reserved(document)),
        records: records(document).unwrap_or(RECORD_LIMIT),
        settle: settle_or_none(document) as u32,
    }
}

/// Late events are left out, where the document does not say that they stop the run.
fn order_of(stops: Option<bool>) -> Order
    ensures { result ≡ order_of stops }
{
    match stops {
        Some(true) => Order::Stop,
        _ => Order::Drop,
    }
}

/// Reserved records are left out, where the document does not say that they stop the run.
fn reserved_of(stops: Option<bool>) -> OnReserved
    ensures { result ≡ reserved_of stops }
{
    match stops {
        Some(true) => OnReserved::Stop,
        _ => OnReserved::Skip,
    }
}

/// The groups of the tables that give one, in their order.
fn groups_of(document: &Value, items: &[Value]) -> ArrayVec<Group, 64>
    requires few { length items.now ≤ 64 }
    ensures { map group_view result.items ≡ filter_map (group (view document.now)) (map view items.now) }
{
    let mut found: ArrayVec<Group, 64> = ArrayVec::new();
    'items: for item in items {
        if let Some(part) = group(document, item) {
            found.push(part);
        }
    }
    found
}
