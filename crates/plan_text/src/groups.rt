// The groups of a plan.
ghost use Rattle.std.specs.Prelude.{◌≡◌, ◌<◌, ◌≤◌, ◌^◌, IfSome, map, length, is_some, option_map, codes};
ghost use Rattle.{toml.specs.{Data.{get, as_array}, View.view}, tally_base.specs.{Gates.AreGates, Settings.group_view}, toml_rules.specs.Rules.all_kept, plan_text.specs.Groups.{inputs_from, inputs}};
ghost use Rattle.plan_text.specs.Groups.{range_in, range_among, ranges_from, ranges_in, many_gates, one_gate, gates, groups, has_group_keys, group_rules, group, group_number};

use crate::version::is_second;
use arrayvec::ArrayVec;
use tally_base::{Fault, Group};
use toml::Value;
use toml_rules::{ListRule, each, has_keys, integer_in, list_at, number_in};

/// The bit of an input.
fn bit(input: u64) -> u128
    requires { input ≤ 64 }
    ensures { result ≡ 2 ^ input }
{
    1u128 << input
}

/// The bit set of integers from 0 to 64, each greater than the one before.
fn inputs_from(items: &[Value]) -> Option<u128>
    ensures set { result ≡ inputs_from 0 (map view items.now) }
    ensures range { IfSome result (λ set. set < 2 ^ 65) }
    ensures some { IfSome result (λ set. 0 < length items.now → 0 < set) }
{
    let mut inputs: u128 = 0;
    let mut low: u64 = 0;
    'items: for item in items {
        let input = integer_in(item, low, 64)?;
        inputs += bit(input);
        low = input + 1;
    }
    Some(inputs)
}

/// The bit set of the inputs of a group, 1 to 65.
#[tactic(auto, using(toml_rules::proofs::Least::list_of_view), unfolding(crate::specs::Groups::inputs))]
fn inputs(group: &Value) -> Option<u128>
    ensures set { result ≡ inputs (view group.now) }
    ensures range { IfSome result (λ set. (0 < set) × (set < 2 ^ 65)) }
{
    let items = group.get("inputs")?.as_array()?.as_slice();
    if items.is_empty() || 65 < items.len() {
        return None;
    }
    inputs_from(items)
}

/// A range of dtimes from two integers with low <= lo < hi <= 32768.
fn range_in(low: u16, items: &[Value]) -> Option<(u16, u16)>
    ensures { result ≡ range_in low (map view items.now) }
{
    match items {
        [lo, hi] => {
            let lo = integer_in(lo, low as u64, 32768)?;
            let hi = integer_in(hi, 0, 32768)?;
            if lo < hi {
                Some((lo as u16, hi as u16))
            } else {
                None
            }
        }
        _ => None,
    }
}

/// The same of what may be an array.
#[tactic(auto, using(toml_rules::proofs::Least::list_of_view))]
fn range_among(low: u16, value: &Value) -> Option<(u16, u16)>
    ensures { result ≡ range_among low (as_array (view value.now)) }
{
    range_in(low, value.as_array()?.as_slice())
}

/// At most 8 such ranges, each from the end of the one before on.
fn ranges_from(items: &[Value]) -> Option<ArrayVec<(u16, u16), 8>>
    requires few { length items.now ≤ 8 }
    ensures { option_map (λ ranges. ranges.items) result ≡ ranges_from 0 (map view items.now) }
{
    let mut ranges: ArrayVec<(u16, u16), 8> = ArrayVec::new();
    let mut low: u16 = 0;
    'items: for item in items {
        let range = range_among(low, item)?;
        low = range.1;
        ranges.push(range);
    }
    Some(ranges)
}

/// 1 to 8 such ranges.
fn ranges_in(items: &[Value]) -> Option<ArrayVec<(u16, u16), 8>>
    ensures { option_map (λ ranges. ranges.items) result ≡ ranges_in (map view items.now) }
{
    if items.is_empty() || 8 < items.len() {
        return None;
    }
    ranges_from(items)
}

/// The gates of a group of version 2.
#[tactic(auto, using(toml_rules::proofs::Least::list_of_view))]
fn many_gates(group: &Value) -> Option<ArrayVec<(u16, u16), 8>>
    ensures { option_map (λ ranges. ranges.items) result ≡ many_gates (get (codes "gates") (view group.now)) }
{
    match group.get("gates") {
        Some(value) => ranges_in(value.as_array()?.as_slice()),
        None => Some(ArrayVec::new()),
    }
}

/// The gate of a group of version 1, if it has one.
fn one_gate(group: &Value) -> Option<ArrayVec<(u16, u16), 8>>
    ensures { option_map (λ ranges. ranges.items) result ≡ one_gate (get (codes "gate") (view group.now)) }
{
    let mut ranges: ArrayVec<(u16, u16), 8> = ArrayVec::new();
    match group.get("gate") {
        Some(value) => {
            ranges.push(range_among(0, value)?);
            Some(ranges)
        }
        None => Some(ranges),
    }
}

/// The gates of a group of a document, in its version.
#[tactic(auto, unfolding(crate::specs::Groups::gates))]
fn gates(document: &Value, group: &Value) -> Option<ArrayVec<(u16, u16), 8>>
    ensures { option_map (λ ranges. ranges.items) result ≡ gates (view document.now) (view group.now) }
{
    if is_second(document) {
        many_gates(group)
    } else {
        one_gate(group)
    }
}

/// The group that a table gives.
#[tactic(auto, using(crate::proofs::Gates::gates_rise), unfolding(crate::specs::Groups::group))]
pub(crate) fn group(document: &Value, table: &Value) -> Option<Group>
    ensures { option_map group_view result ≡ group (view document.now) (view table.now) }
{
    let inputs = inputs(table)?;
    let gates = gates(document, table)?;
    Some(Group { inputs, gates })
}

/// A group has the key `inputs`, and no other key but `gate` in version 1 and `gates` in version 2.
struct GroupKeys;

impl ListRule for GroupKeys {
    ghost asks = { has_group_keys };

    #[tactic(auto, unfolding(crate::specs::Groups::has_group_keys))]
    fn is_met(document: &Value, item: &Value) -> bool {
        if is_second(document) {
            has_keys(item, &["inputs"], &["gates"])
        } else {
            has_keys(item, &["inputs"], &["gate"])
        }
    }
}

/// The inputs of a group are as they should be.
struct GroupInputs;

impl ListRule for GroupInputs {
    ghost asks = { λ d group. is_some (inputs group) };

    fn is_met(_document: &Value, item: &Value) -> bool {
        inputs(item).is_some()
    }
}

/// The gates of a group are as they should be, if it has any.
struct GroupGates;

impl ListRule for GroupGates {
    ghost asks = { λ d group. is_some (gates d group) };

    fn is_met(document: &Value, item: &Value) -> bool {
        gates(document, item).is_some()
    }
}

/// Goes through the rules on groups, 8 to 10.
#[tactic(auto, unfolding(crate::specs::Groups::group_rules))]
pub(crate) fn keeps_group_rules(document: &Value) -> Result<(), Fault>
    requires few { length (groups (view document.now)) ≤ 255 }
    ensures { result ≡ all_kept (group_rules (view document.now)) }
{
    each::<GroupKeys>(8, document, "group")?;
    each::<GroupInputs>(9, document, "group")?;
    each::<GroupGates>(10, document, "group")?;
    Ok(())
}

/// The number of one of the document's groups, at a key.
pub(crate) fn group_number(document: &Value, table: &Value, key: &str) -> Option<u64>
    ensures number { result ≡ group_number (view document.now) (get key.now (view table.now)) }
    ensures range { IfSome result (λ n. (1 ≤ n) × (n ≤ length (groups (view document.now)))) }
{
    number_in(table, key, 1, list_at(document, "group").len() as u64)
}
