// The coincidences of a plan.
ghost use Rattle.std.specs.Prelude.{◌≡◌, ◌≤◌, length, option_map};
ghost use Rattle.{toml.specs.View.view, tally_base.specs.Settings.{coincidence_view, PartSettings.CoincidenceSettings}, plan_text.specs.{Coincidences.{coincidence, coincidence_kind}, Groups.groups}};

use crate::groups::group_number;
use crate::kind::{PlanKind, each_has_keys};
use tally_base::{CoincidenceSet, Fault, Mode, PartKind};
use toml::Value;
use toml_rules::{list_at, number_in};

impl PlanKind for CoincidenceSet {
    ghost kind = { coincidence_kind };

    ghost settings = { λ set. CoincidenceSettings (coincidence_view set) };

    fn tables(document: &Value) -> &[Value] {
        list_at(document, "coincidence")
    }

    /// A coincidence has exactly the keys `first`, `second`, `reach` and `width`.
    #[tactic(auto, unfolding(crate::specs::Coincidences::has_coincidence_keys))]
    fn keeps_before(document: &Value) -> Result<(), Fault> {
        let tables = list_at(document, "coincidence");
        each_has_keys(17, tables, &["first", "second", "reach", "width"], &[])
    }

    fn last_rule() -> u8 {
        18
    }

    #[tactic(auto, unfolding(crate::specs::Coincidences::coincidence))]
    fn read(document: &Value, table: &Value) -> Option<CoincidenceSet> {
        let first = group_number(document, table, "first")?;
        let second = group_number(document, table, "second")?;
        let reach = number_in(table, "reach", 1, 1 << 20)?;
        let width = number_in(table, "width", 1, 1 << 21)?;
        Some(CoincidenceSet {
            first: first as u8,
            second: second as u8,
            reach: reach as u32,
            width: width as u32,
        })
    }

    fn misfit(mode: Mode) -> Option<PartKind> {
        match mode {
            Mode::T2 => None,
            Mode::T3 => Some(PartKind::Coincidence),
        }
    }
}
