// What the document says as a whole.
ghost use Rattle.std.{specs.Prelude.{◌≡◌, ◌<◌, ◌≤◌, ◌+◌, ◌++◌, IfSome, OnOk, map, filter, length, true, false, [], ◌∷◌, if◌then◌else◌}, proofs.Math.Bool.beq};
ghost use Rattle.{tally_base.specs.Limits.record_limit, toml.specs.View.view, toml_rules.specs.{Rules.{all_kept, kept}, Values.{list_at, has_keys}}, plan_text.specs.Kinds.{lists, keys_of}};
ghost use Rattle.plan_text.specs.{Kinds.{first_lists, second_lists}, Document.{order, reserved, records, known_keys, has_known_keys, may_have_tables, has_at_most, rule_of_lists, rule_of_lengths}};
ghost use Rattle.plan_text.specs.Document.{document_rules, AreShort, HasFewTables};

use crate::version::{is_second, version};
use arrayvec::ArrayVec;
use tally_base::{Fault, RECORD_LIMIT};
use toml::Value;
use toml_rules::{has_keys, held, list_at, may_be_tables, number_or, second_of};

/// Whether late events stop the run.
#[tactic(auto, unfolding(crate::specs::Document::order))]
pub(crate) fn order(document: &Value) -> Option<bool>
    ensures { result ≡ order (view document.now) }
{
    second_of(document, "order", "drop", "stop")
}

/// Whether reserved records stop the run.
#[tactic(auto, unfolding(crate::specs::Document::reserved))]
pub(crate) fn reserved(document: &Value) -> Option<bool>
    ensures { result ≡ reserved (view document.now) }
{
    second_of(document, "reserved", "skip", "stop")
}

/// The greatest number of records of a file.
#[tactic(auto, unfolding(crate::specs::Document::records))]
pub(crate) fn records(document: &Value) -> Option<u64>
    ensures number { result ≡ records (view document.now) }
    ensures range { IfSome result (λ n. (1 ≤ n) × (n ≤ record_limit)) }
{
    match document.get("limits") {
        Some(limits) if has_keys(limits, &[], &["records"]) => {
            number_or(limits, "records", RECORD_LIMIT, 1, RECORD_LIMIT)
        }
        Some(_) => None,
        None => Some(RECORD_LIMIT),
    }
}

/// Whether the document has only keys of a plan of its version.
#[tactic(auto, unfolding(crate::specs::Document::has_known_keys))]
fn has_known_keys(document: &Value) -> bool
    ensures { result ≡ has_known_keys (view document.now) }
{
    let keys = known_keys(is_second(document));
    has_keys(document, &[], keys.as_slice())
}

/// The keys of a plan, by its version.
#[tactic(auto, unfolding(crate::specs::Document::known_keys))]
fn known_keys(second: bool) -> ArrayVec<&'static str, 64>
    ensures { map (λ key. key.now) result.items ≡ known_keys second }
{
    let mut keys: ArrayVec<&'static str, 64> = ArrayVec::new();
    put_keys(
        &["version", "order", "reserved", "limits"],
        false,
        &mut keys,
    );
    if second {
        put_keys(&["period", "settle"], true, &mut keys);
    }
    keys
}

/// Puts these keys after others, and that of each list that version 2 added, or of each that it did not.
fn put_keys(own: &[&'static str], added: bool, keys: &mut ArrayVec<&'static str, 64>)
    requires room { length keys.old.items + length own.now + length lists ≤ 64 }
    ensures few { length keys.new.items ≤ length keys.old.items + length own.now + length lists }
    ensures keys { map (λ key. key.now) keys.new.items ≡ map (λ key. key.now) keys.old.items
        ++ (map (λ key. key.now) own.now ++ keys_of (if added then second_lists else first_lists)) }
{
    let _ = keys.try_extend_from_slice(own);
    let lists = lists();
    'lists: for (key, _, second) in lists {
        if *second == added {
            keys.push(key);
        }
    }
}

/// Whether the array at the key has at most so many members.
#[tactic(auto, unfolding(crate::specs::Document::has_at_most))]
fn has_at_most(most: usize, document: &Value, key: &str) -> bool
    ensures test { result ≡ has_at_most most key.now (view document.now) }
    ensures most { result ≡ true → length (list_at key.now (view document.now)) ≤ most }
{
    list_at(document, key).len() <= most
}

/// Rule 6: at the key of each list stands an array of tables, or nothing at all.
#[tactic(auto, unfolding(crate::specs::Document::rule_of_lists, crate::specs::Document::may_have_tables))]
fn may_have_lists(document: &Value, lists: &[(&str, usize, bool)]) -> Result<(), Fault>
    requires few { length lists.now ≤ 255 }
    ensures { result ≡ kept (rule_of_lists (map (λ list. (list.0.now, list.1)) lists.now) (view document.now)) }
{
    let mut place: u16 = 1;
    'lists: for (key, _, _) in lists {
        held(6, place, may_be_tables(document, key))?;
        place += 1;
    }
    Ok(())
}

/// Rule 7: each list has at most so many members.
#[tactic(auto, unfolding(crate::specs::Document::rule_of_lengths))]
fn have_at_most(document: &Value, lists: &[(&str, usize, bool)]) -> Result<(), Fault>
    requires few { length lists.now ≤ 255 }
    ensures kept { result ≡ kept (rule_of_lengths (map (λ list. (list.0.now, list.1)) lists.now) (view document.now)) }
    ensures few { OnOk result (AreShort (map (λ list. (list.0.now, list.1)) lists.now) (view document.now)) }
{
    let mut place: u16 = 1;
    'lists: for (key, most, _) in lists {
        held(7, place, has_at_most(*most, document, key))?;
        place += 1;
    }
    Ok(())
}

/// The key and the greatest length of each list of a plan, and whether version 2 added it.
fn lists() -> &'static [(&'static str, usize, bool)]
    ensures limits { map (λ list. (list.0.now, list.1)) result.now ≡ lists }
    ensures first { map (λ list. list.0.now) (filter (λ list. beq list.2 false) result.now) ≡ keys_of first_lists }
    ensures second { map (λ list. list.0.now) (filter (λ list. beq list.2 true) result.now) ≡ keys_of second_lists }
{
    &[
        ("group", 64, false),
        ("histogram", 32, false),
        ("trace", 32, false),
        ("startstop", 16, false),
        ("coincidence", 16, false),
        ("image", 8, false),
        ("correlation", 16, false),
        ("shift", 65, true),
        ("cube", 2, true),
        ("fold", 8, true),
    ]
}

/// Goes through the rules on the document as a whole, 1 to 7.
#[tactic(auto, unfolding(crate::specs::Document::document_rules))]
pub(crate) fn keeps_document_rules(document: &Value) -> Result<(), Fault>
    ensures kept { result ≡ all_kept (document_rules (view document.now)) }
    ensures few { OnOk result (HasFewTables (view document.now)) }
{
    held(1, 0, has_known_keys(document))?;
    held(2, 0, version(document).is_some())?;
    held(3, 0, order(document).is_some())?;
    held(4, 0, reserved(document).is_some())?;
    held(5, 0, records(document).is_some())?;
    let lists = lists();
    may_have_lists(document, lists)?;
    have_at_most(document, lists)
}
