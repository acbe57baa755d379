// What is read in the values of a document.
ghost use Rattle.std.specs.{Prelude.{◌≡◌, ◌≤◌, map, IfSome}, List.list_all};
ghost use Rattle.{toml.specs.{Data.get, View.{view, table_view}}, toml_rules.specs.Values.{list_at, is_table, may_be_tables, is_one_of, members_within, has_each, has_keys, integer_in, number_in}};
ghost use Rattle.toml_rules.specs.Values.{number_or, truth_or, second_of};

use toml::{Table, Value};

/// The members of the array at a key. None, where no array stands there.
#[tactic(auto, using(crate::proofs::Least::list_of_view))]
pub fn list_at<'a>(table: &'a Value, key: &str) -> &'a [Value]
    ensures { map view result.now ≡ list_at key.now (view table.now) }
{
    match table.get(key) {
        Some(value) => match value.as_array() {
            Some(items) => items.as_slice(),
            None => &[],
        },
        None => &[],
    }
}

/// The integer that a value is, where it is one from `least` to `greatest`.
pub fn integer_in(value: &Value, least: u64, greatest: u64) -> Option<u64>
    ensures number { result ≡ integer_in least greatest (view value.now) }
    ensures range { IfSome result (λ n. (least ≤ n) × (n ≤ greatest)) }
{
    match value {
        Value::Integer(number) => match u64::try_from(*number) {
            Ok(number) => {
                if least <= number && number <= greatest {
                    Some(number)
                } else {
                    None
                }
            }
            Err(_) => None,
        },
        _ => None,
    }
}

/// The integer at a key, where it is one from `least` to `greatest`.
pub fn number_in(table: &Value, key: &str, least: u64, greatest: u64) -> Option<u64>
    ensures number { result ≡ number_in least greatest (get key.now (view table.now)) }
    ensures range { IfSome result (λ n. (least ≤ n) × (n ≤ greatest)) }
{
    match table.get(key) {
        Some(value) => integer_in(value, least, greatest),
        None => None,
    }
}

/// The integer at a key, where it is one from `least` to `greatest`. Where nothing stands at the key, it
/// is the default.
pub fn number_or(table: &Value, key: &str, default: u64, least: u64, greatest: u64) -> Option<u64>
    requires { (least ≤ default) × (default ≤ greatest) }
    ensures number { result ≡ number_or default least greatest (get key.now (view table.now)) }
    ensures range { IfSome result (λ n. (least ≤ n) × (n ≤ greatest)) }
{
    match table.get(key) {
        Some(value) => integer_in(value, least, greatest),
        None => Some(default),
    }
}

/// The truth value at a key. Where nothing stands at the key, it is the default. None, where another
/// value stands there.
pub fn truth_or(table: &Value, key: &str, default: bool) -> Option<bool>
    ensures { result ≡ truth_or default (get key.now (view table.now)) }
{
    match table.get(key) {
        Some(value) => value.as_bool(),
        None => Some(default),
    }
}

/// Whether an array of tables stands at a key, or nothing at all. The array may be empty.
#[tactic(auto, using(crate::proofs::Least::list_of_view))]
pub fn may_be_tables(table: &Value, key: &str) -> bool
    ensures { result ≡ may_be_tables (get key.now (view table.now)) }
{
    match table.get(key) {
        Some(value) => match value.as_array() {
            Some(items) => are_tables(items.as_slice()),
            None => false,
        },
        None => true,
    }
}

/// Whether each of the values is a table.
fn are_tables(items: &[Value]) -> bool
    ensures { result ≡ list_all is_table (map view items.now) }
{
    'items: for item in items {
        if !item.is_table() {
            return false;
        }
    }
    true
}

/// Which of two words stands at a key: false is the first, and true the second. Where nothing stands at
/// the key, the first is meant. None, where another value stands there.
pub fn second_of(table: &Value, key: &str, first: &str, second: &str) -> Option<bool>
    ensures { result ≡ second_of first.now second.now (get key.now (view table.now)) }
{
    match table.get(key) {
        Some(value) => match value.as_str() {
            Some(word) => {
                if word == first {
                    Some(false)
                } else if word == second {
                    Some(true)
                } else {
                    None
                }
            }
            None => None,
        },
        None => Some(false),
    }
}

/// Whether a value is a table that has each of the needed keys, and no key that is neither needed nor
/// among the others.
pub fn has_keys(value: &Value, needed: &[&str], other: &[&str]) -> bool
    ensures { result ≡ has_keys (map (λ k. k.now) needed.now) (map (λ k. k.now) other.now) (view value.now) }
{
    match value.as_table() {
        Some(table) => has_each(value, needed) && is_within(table, needed, other),
        None => false,
    }
}

/// Whether each of the keys stands in a table.
fn has_each(value: &Value, needed: &[&str]) -> bool
    ensures { result ≡ has_each (map (λ k. k.now) needed.now) (view value.now) }
{
    'keys: for key in needed {
        if value.get(*key).is_none() {
            return false;
        }
    }
    true
}

/// Whether a table has only keys that are needed or among the others.
fn is_within(table: &Table, needed: &[&str], other: &[&str]) -> bool
    ensures { result ≡ members_within (map (λ k. k.now) needed.now) (map (λ k. k.now) other.now) (table_view table.now) }
{
    'members: for (key, _value) in table.iter() {
        if !is_one_of(key.as_str(), needed) && !is_one_of(key.as_str(), other) {
            return false;
        }
    }
    true
}

/// Whether a key is one of these.
fn is_one_of(key: &str, keys: &[&str]) -> bool
    ensures { result ≡ is_one_of (map (λ k. k.now) keys.now) key.now }
{
    'keys: for other in keys {
        if *other == key {
            return true;
        }
    }
    false
}
