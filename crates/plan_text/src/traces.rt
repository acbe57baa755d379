// The traces of a plan.
ghost use Rattle.std.specs.Prelude.{◌≡◌, ◌≤◌, length, option_map, IfSome};
ghost use Rattle.{toml.specs.View.view, tally_base.specs.{Settings.{trace_view, PartSettings.TraceSettings}, Limits.wrap_limit}, plan_text.specs.{Groups.groups, Traces.{origin, trace, trace_kind}}};

use crate::groups::group_number;
use crate::kind::{PlanKind, each_has_keys};
use tally_base::{Fault, Mode, PartKind, TraceSet, WRAP_LIMIT};
use toml::Value;
use toml_rules::{list_at, number_in, number_or};

/// The time at which a trace begins, which is 0 where the table does not say it.
#[tactic(auto, unfolding(crate::specs::Traces::origin))]
fn origin(table: &Value) -> Option<u64>
    ensures number { result ≡ origin (view table.now) }
    ensures range { IfSome result (λ n. n ≤ wrap_limit) }
{
    number_or(table, "origin", 0, 0, WRAP_LIMIT)
}

impl PlanKind for TraceSet {
    ghost kind = { trace_kind };

    ghost settings = { λ set. TraceSettings (trace_view set) };

    fn tables(document: &Value) -> &[Value] {
        list_at(document, "trace")
    }

    /// A trace has the keys `group`, `width` and `bins`, and no other key but `origin`.
    #[tactic(auto, unfolding(crate::specs::Traces::has_trace_keys))]
    fn keeps_before(document: &Value) -> Result<(), Fault> {
        let tables = list_at(document, "trace");
        each_has_keys(13, tables, &["group", "width", "bins"], &["origin"])
    }

    fn last_rule() -> u8 {
        14
    }

    #[tactic(auto, unfolding(crate::specs::Traces::trace))]
    fn read(document: &Value, table: &Value) -> Option<TraceSet> {
        let group = group_number(document, table, "group")?;
        let origin = origin(table)?;
        let width = number_in(table, "width", 1, WRAP_LIMIT)?;
        let bins = number_in(table, "bins", 1, 1 << 20)?;
        Some(TraceSet {
            group: group as u8,
            origin,
            width,
            bins: bins as u32,
        })
    }

    fn misfit(_mode: Mode) -> Option<PartKind> {
        None
    }
}
