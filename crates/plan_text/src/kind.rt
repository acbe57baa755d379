// What a plan says of one kind of tables: the rules on them, and the settings that they give.
ghost use Rattle.std.specs.Prelude.{◌≡◌, ◌+◌, ◌≤◌, Option, map, filter_map, length, is_some, option_map, OnOk, IfOk, IfErr, Ok, Err};
ghost use Rattle.{toml.specs.View.view, tally_base.specs.Settings.PartSettings, toml_rules.specs.{Rules.{all_kept, kept, each}, Values.has_keys}, plan_text.specs.Fits.{misfit, parts_fit}};
ghost use Rattle.plan_text.specs.{Groups.groups, Kind.{Kind, tables, kind_rules}};

use arrayvec::ArrayVec;
use tally_base::{Fault, Mode, PartKind};
use toml::Value;
use toml_rules::{has_keys, held};

/// The settings of one kind of tables.
pub(crate) trait PlanKind: Default + Drop {
    /// What a plan says of the kind.
    ghost kind: { Kind };

    /// The settings, as those of a table of any kind.
    ghost settings: { Self → PartSettings };

    /// The tables of the kind in a document.
    fn tables(document: &Value) -> &[Value]
        ensures { map view result.now ≡ tables kind (view document.now) };

    /// Goes through the rules on the kind but the last, which asks that each table gives settings.
    fn keeps_before(document: &Value) -> Result<(), Fault>
        requires few { length (tables kind (view document.now)) ≤ 255 }
        ensures { result ≡ all_kept (kind.before (view document.now)) };

    /// The number of that last rule.
    fn last_rule() -> u8
        ensures { result ≡ kind.last };

    /// The settings that a table of a document gives.
    fn read(document: &Value, table: &Value) -> Option<Self>
        requires few { length (groups (view document.now)) ≤ 64 }
        ensures { option_map settings result ≡ kind.read (view document.now) (view table.now) };

    /// The name of the kind, where it doesn't suit a mode.
    fn misfit(mode: Mode) -> Option<PartKind>
        ensures { (set : Self) → misfit mode (settings set) ≡ result };
}

/// Each of the tables has each of the needed keys, and of others only these. Refused with the rule and the number of
/// the first, from 1, that has not.
pub(crate) fn each_has_keys(
    rule: u8,
    items: &[Value],
    needed: &[&str],
    other: &[&str],
) -> Result<(), Fault>
    requires few { length (map view items.now) ≤ 255 }
    ensures { result ≡ kept (each rule (has_keys (map (λ k. k.now) needed.now) (map (λ k. k.now) other.now)) (map view items.now)) }
{
    let mut index: u16 = 1;
    'items: for item in items {
        held(rule, index, has_keys(item, needed, other))?;
        index += 1;
    }
    Ok(())
}

/// The settings that each of the tables of a kind gives, in their order, where they keep the rules on it.
#[tactic(auto, using(toml_rules::proofs::Least::all_kept_after))]
pub(crate) fn list_by_rules<K: PlanKind, const N: usize>(
    document: &Value,
) -> Result<ArrayVec<K, N>, Fault>
    requires few { length (groups (view document.now)) ≤ 64 }
    requires room { length (tables K.kind (view document.now)) ≤ N }
    requires small { N ≤ 255 }
    ensures kept { OnOk result (all_kept (kind_rules K.kind (view document.now)) ≡ Ok tt) }
    ensures refused { IfErr result (λ fault. all_kept (kind_rules K.kind (view document.now)) ≡ Err fault) }
    ensures list { IfOk result (λ list. map K.settings list.items
        ≡ filter_map (K.kind.read (view document.now)) (tables K.kind (view document.now))) }
{
    K::keeps_before(document)?;
    let mut found: ArrayVec<K, N> = ArrayVec::new();
    let mut index: u16 = 1;
    let items = K::tables(document);
    'items: for item in items {
        match K::read(document, item) {
            Some(set) => found.push(set),
            None => {
                return Err(Fault::PlanRule {
                    rule: K::last_rule(),
                    index,
                });
            }
        }
        index += 1;
    }
    Ok(found)
}

/// There is no table of a kind that the mode does not suit.
pub(crate) fn suit_tables<K: PlanKind>(sets: &[K], mode: Mode) -> Result<(), Fault>
    ensures { result ≡ parts_fit mode (map K.settings sets.now) }
{
    match K::misfit(mode) {
        Some(kind) if !sets.is_empty() => Err(Fault::PlanMode {
            kind,
            index: 1,
            mode,
        }),
        _ => Ok(()),
    }
}
