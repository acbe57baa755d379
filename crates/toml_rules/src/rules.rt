// Goes through rules in their order, up to the first that is broken.
ghost use Rattle.std.specs.Prelude.{◌≡◌, Bool, ◌≤◌, map, length, true, OnOk};
ghost use Rattle.{toml.specs.{Data.Data, View.view}, toml_rules.specs.{Rules.{held, kept, each}, Values.list_at}};

use crate::values::list_at;
use tally_base::Fault;
use toml::Value;

/// What a rule asks of each table of a list, in its document.
pub trait ListRule {
    /// Whether the table, the second, is as the rule says in the document, the first.
    ghost asks: { Data → Data → Bool };

    /// Whether the table is as the rule says.
    fn is_met(document: &Value, item: &Value) -> bool
        ensures { result ≡ asks (view document.now) (view item.now) };
}

/// A rule of the plan at one index. Refused with the rule and the index, where it does not hold.
pub fn held(rule: u8, index: u16, holds: bool) -> Result<(), Fault>
    ensures answer { result ≡ held (λ at. Fault.PlanRule rule at) index holds }
    ensures holds { OnOk result (holds ≡ true) }
{
    if holds {
        Ok(())
    } else {
        Err(Fault::PlanRule { rule, index })
    }
}

/// A rule of the plan on each table of the array at a key, which has at most 255. Refused with the rule
/// and the number of the first table, from 1, that is not as it says. Without an array nothing is refused.
pub fn each<R: ListRule>(rule: u8, document: &Value, key: &str) -> Result<(), Fault>
    requires few { length (list_at key.now (view document.now)) ≤ 255 }
    ensures { result ≡ kept (each rule (R.asks (view document.now)) (list_at key.now (view document.now))) }
{
    each_item::<R>(rule, document, list_at(document, key))
}

/// The same on the tables of an array.
fn each_item<R: ListRule>(rule: u8, document: &Value, items: &[Value]) -> Result<(), Fault>
    requires few { length (map view items.now) ≤ 255 }
    ensures { result ≡ kept (each rule (R.asks (view document.now)) (map view items.now)) }
{
    let mut index: u16 = 1;
    'items: for item in items {
        held(rule, index, R::is_met(document, item))?;
        index += 1;
    }
    Ok(())
}
