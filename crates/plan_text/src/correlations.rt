// The correlations of a plan.
ghost use Rattle.std.specs.Prelude.{◌≡◌, ◌≤◌, ◌%◌, length, option_map, IfSome};
ghost use Rattle.{toml.specs.View.view, tally_base.specs.Settings.{correlation_view, PartSettings.CorrelationSettings}, plan_text.specs.Correlations.{lags, correlation, correlation_kind}};
ghost use Rattle.plan_text.specs.Groups.{groups};

use crate::groups::group_number;
use crate::kind::{PlanKind, each_has_keys};
use tally_base::{CorrelationSet, Fault, Mode, PartKind};
use toml::Value;
use toml_rules::{list_at, number_in};

/// The greatest lag of a correlation, an even number.
#[tactic(auto, unfolding(crate::specs::Correlations::lags))]
fn lags(table: &Value) -> Option<u64>
    ensures number { result ≡ lags (view table.now) }
    ensures range { IfSome result (λ n. (2 ≤ n) × (n ≤ 128)) }
    ensures even { IfSome result (λ n. n % 2 ≡ 0) }
{
    let number = number_in(table, "lags", 2, 128)?;
    if number % 2 == 0 { Some(number) } else { None }
}

impl PlanKind for CorrelationSet {
    ghost kind = { correlation_kind };

    ghost settings = { λ set. CorrelationSettings (correlation_view set) };

    fn tables(document: &Value) -> &[Value] {
        list_at(document, "correlation")
    }

    /// A correlation has exactly the keys `first`, `second`, `lags` and `levels`.
    #[tactic(auto, unfolding(crate::specs::Correlations::has_correlation_keys))]
    fn keeps_before(document: &Value) -> Result<(), Fault> {
        let tables = list_at(document, "correlation");
        each_has_keys(21, tables, &["first", "second", "lags", "levels"], &[])
    }

    fn last_rule() -> u8 {
        22
    }

    #[tactic(auto, unfolding(crate::specs::Correlations::correlation))]
    fn read(document: &Value, table: &Value) -> Option<CorrelationSet> {
        let first = group_number(document, table, "first")?;
        let second = group_number(document, table, "second")?;
        let lags = lags(table)?;
        let levels = number_in(table, "levels", 1, 40)?;
        Some(CorrelationSet {
            first: first as u8,
            second: second as u8,
            lags: lags as u32,
            levels: levels as u32,
        })
    }

    fn misfit(_mode: Mode) -> Option<PartKind> {
        None
    }
}
