// The folds of a plan.
ghost use Rattle.std.specs.Prelude.{◌≡◌, ◌<◌, ◌≤◌, length, map, option_map, IfSome};
ghost use Rattle.{toml.specs.View.view, tally_base.specs.{Gates.AreGroups, Settings.{fold_view, PartSettings.FoldSettings}}, plan_text.specs.{Groups.groups, Folds.{numbers_from, numbers}}};
ghost use Rattle.plan_text.specs.Folds.{fold_settings, fold_kind};

use crate::kind::{PlanKind, each_has_keys};
use arrayvec::ArrayVec;
use tally_base::{Fault, FoldSet, Mode, PartKind};
use toml::Value;
use toml_rules::{integer_in, list_at, number_in};

/// Integers from 1 to the greatest, each greater than the one before.
fn numbers_from(most: u64, items: &[Value]) -> Option<ArrayVec<u8, 6>>
    requires most { most ≤ 64 }
    requires few { length items.now ≤ 6 }
    ensures numbers { option_map (λ numbers. numbers.items) result
        ≡ numbers_from most 1 (map view items.now) }
    ensures rise { IfSome result (λ numbers. AreGroups 0 numbers.items) }
    ensures count { IfSome result (λ numbers. length numbers.items ≡ length items.now) }
{
    let mut numbers: ArrayVec<u8, 6> = ArrayVec::new();
    let mut low: u64 = 1;
    'items: for item in items {
        let number = integer_in(item, low, most)?;
        low = number + 1;
        numbers.push(number as u8);
    }
    Some(numbers)
}

/// How many groups the document has.
fn group_count(document: &Value) -> u64
    ensures { result ≡ length (groups (view document.now)) }
{
    list_at(document, "group").len() as u64
}

/// The numbers of the groups of a fold, 1 to 6.
#[tactic(auto, using(toml_rules::proofs::Least::list_of_view), unfolding(crate::specs::Folds::numbers))]
fn numbers(document: &Value, table: &Value) -> Option<ArrayVec<u8, 6>>
    requires few { length (groups (view document.now)) ≤ 64 }
    ensures numbers { option_map (λ numbers. numbers.items) result
        ≡ numbers (view document.now) (view table.now) }
    ensures groups { IfSome result
        (λ numbers. AreGroups 0 numbers.items × (0 < length numbers.items) × (length numbers.items ≤ 6)) }
{
    let items = table.get("groups")?.as_array()?.as_slice();
    if items.is_empty() || 6 < items.len() {
        return None;
    }
    numbers_from(group_count(document), items)
}

impl PlanKind for FoldSet {
    ghost kind = { fold_kind };

    ghost settings = { λ set. FoldSettings (fold_view set) };

    fn tables(document: &Value) -> &[Value] {
        list_at(document, "fold")
    }

    /// All that a fold must say stands there, and nothing else.
    #[tactic(auto, unfolding(crate::specs::Folds::has_fold_keys))]
    fn keeps_before(document: &Value) -> Result<(), Fault> {
        let tables = list_at(document, "fold");
        each_has_keys(30, tables, &["groups", "window"], &[])
    }

    fn last_rule() -> u8 {
        31
    }

    #[tactic(auto, unfolding(crate::specs::Folds::fold_settings))]
    fn read(document: &Value, table: &Value) -> Option<FoldSet> {
        let groups = numbers(document, table)?;
        let window = number_in(table, "window", 1, 1 << 20)?;
        Some(FoldSet {
            groups,
            window: window as u32,
        })
    }

    fn misfit(mode: Mode) -> Option<PartKind> {
        match mode {
            Mode::T2 => None,
            Mode::T3 => Some(PartKind::Fold),
        }
    }
}
