// The period of the dtimes, and the shifts of a plan.
ghost use Rattle.std.specs.Prelude.{◌≡◌, ◌<◌, ◌≤◌, map, filter_map, length, is_some, option_map, IfSome, IfOk, IfErr, OnOk, Ok, Err};
ghost use Rattle.{toml.specs.View.view, tally_base.specs.Settings.shift_view, toml_rules.specs.Rules.{all_kept, kept, each}, plan_text.specs.Shifts.{shifts, period, period_or_one, shift}};
ghost use Rattle.plan_text.specs.Shifts.{shifts_from, all_shifts, shift_rules};

use crate::kind::each_has_keys;
use crate::settle::settle;
use arrayvec::ArrayVec;
use tally_base::{Fault, ShiftSet};
use toml::Value;
use toml_rules::{held, integer_in, list_at, number_in};

/// The period of the dtimes in ticks. It may be left out where there is no shift, and is 1 then.
#[tactic(auto, unfolding(crate::specs::Shifts::period))]
fn period(document: &Value) -> Option<u64>
    ensures number { result ≡ period (view document.now) }
    ensures range { IfSome result (λ n. (1 ≤ n) × (n ≤ 32768)) }
{
    match document.get("period") {
        Some(value) => integer_in(value, 1, 32768),
        None => {
            if list_at(document, "shift").is_empty() {
                Some(1)
            } else {
                None
            }
        }
    }
}

/// The period by which the shifts are read.
#[tactic(auto, unfolding(crate::specs::Shifts::period_or_one))]
pub(crate) fn period_or_one(document: &Value) -> u64
    ensures number { result ≡ period_or_one (view document.now) }
    ensures range { (1 ≤ result) × (result ≤ 32768) }
{
    period(document).unwrap_or(1)
}

/// The shift that a table gives, of an input from `low` on.
#[tactic(auto, unfolding(crate::specs::Shifts::shift))]
fn shift(period: u64, low: u64, table: &Value) -> Option<ShiftSet>
    requires { (1 ≤ period) × (period ≤ 32768) }
    ensures { option_map shift_view result ≡ shift period low (view table.now) }
{
    let input = number_in(table, "input", low, 64)?;
    let shift = number_in(table, "shift", 0, period - 1)?;
    Some(ShiftSet {
        input: input as u8,
        shift: shift as u16,
    })
}

/// The shifts that the tables give, each of a greater input than the one before. Refused with the rule and the
/// number of the first table, from 1, that gives none.
fn shifts_in(rule: u8, period: u64, items: &[Value]) -> Result<ArrayVec<ShiftSet, 65>, Fault>
    requires period { (1 ≤ period) × (period ≤ 32768) }
    requires few { length items.now ≤ 65 }
    ensures kept { OnOk result (kept (each rule (λ set. is_some set) (shifts_from period 0 (map view items.now))) ≡ Ok tt) }
    ensures refused { IfErr result (λ fault. kept (each rule (λ set. is_some set) (shifts_from period 0 (map view items.now))) ≡ Err fault) }
    ensures list { IfOk result (λ list. map shift_view list.items ≡ filter_map (λ set. set) (shifts_from period 0 (map view items.now))) }
{
    let mut found: ArrayVec<ShiftSet, 65> = ArrayVec::new();
    let mut index: u16 = 1;
    let mut low: u64 = 0;
    'items: for item in items {
        match shift(period, low, item) {
            Some(set) => {
                low = set.input as u64 + 1;
                found.push(set);
            }
            None => return Err(Fault::PlanRule { rule, index }),
        }
        index += 1;
    }
    Ok(found)
}

/// The shifts of the document, where it keeps the rules on the period, the shifts and settling, 23 to 26.
#[tactic(auto, unfolding(crate::specs::Shifts::shift_rules, crate::specs::Shifts::all_shifts, crate::specs::Shifts::has_shift_keys))]
pub(crate) fn shifts_by_rules(document: &Value) -> Result<ArrayVec<ShiftSet, 65>, Fault>
    requires few { length (shifts (view document.now)) ≤ 65 }
    ensures kept { OnOk result (all_kept (shift_rules (view document.now)) ≡ Ok tt) }
    ensures refused { IfErr result (λ fault. all_kept (shift_rules (view document.now)) ≡ Err fault) }
    ensures list { IfOk result (λ list. map shift_view list.items ≡ filter_map (λ set. set) (all_shifts (view document.now))) }
{
    held(23, 0, period(document).is_some())?;
    let tables = list_at(document, "shift");
    each_has_keys(24, tables, &["input", "shift"], &[])?;
    let list = shifts_in(25, period_or_one(document), tables)?;
    held(26, 0, settle(document).is_some())?;
    Ok(list)
}
