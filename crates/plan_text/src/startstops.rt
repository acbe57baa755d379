// The start-stops of a plan.
ghost use Rattle.std.specs.Prelude.{◌≡◌, ◌≤◌, length, option_map};
ghost use Rattle.{toml.specs.View.view, tally_base.specs.Settings.{startstop_view, PartSettings.StartStopSettings}, plan_text.specs.{Groups.groups, StartStops.{startstop, startstop_kind}}};

use crate::groups::group_number;
use crate::kind::{PlanKind, each_has_keys};
use tally_base::{Fault, Mode, PartKind, StartStopSet, WRAP_LIMIT};
use toml::Value;
use toml_rules::{list_at, number_in};

impl PlanKind for StartStopSet {
    ghost kind = { startstop_kind };

    ghost settings = { λ set. StartStopSettings (startstop_view set) };

    fn tables(document: &Value) -> &[Value] {
        list_at(document, "startstop")
    }

    /// A start-stop has exactly the keys `start`, `stop`, `width` and `bins`.
    #[tactic(auto, unfolding(crate::specs::StartStops::has_startstop_keys))]
    fn keeps_before(document: &Value) -> Result<(), Fault> {
        let tables = list_at(document, "startstop");
        each_has_keys(15, tables, &["start", "stop", "width", "bins"], &[])
    }

    fn last_rule() -> u8 {
        16
    }

    #[tactic(auto, unfolding(crate::specs::StartStops::startstop))]
    fn read(document: &Value, table: &Value) -> Option<StartStopSet> {
        let start = group_number(document, table, "start")?;
        let stop = group_number(document, table, "stop")?;
        let width = number_in(table, "width", 1, WRAP_LIMIT)?;
        let bins = number_in(table, "bins", 1, 32768)?;
        Some(StartStopSet {
            start: start as u8,
            stop: stop as u8,
            width,
            bins: bins as u32,
        })
    }

    fn misfit(mode: Mode) -> Option<PartKind> {
        match mode {
            Mode::T2 => None,
            Mode::T3 => Some(PartKind::StartStop),
        }
    }
}
