// The histograms of a plan.
ghost use Rattle.std.specs.Prelude.{◌≡◌, ◌≤◌, length, option_map};
ghost use Rattle.{toml.specs.View.view, tally_base.specs.Settings.{hist_view, PartSettings.HistSettings}, plan_text.specs.{Groups.groups, Histograms.{histogram_kind, histogram}}};

use crate::groups::group_number;
use crate::kind::{PlanKind, each_has_keys};
use tally_base::{Fault, HistSet, Mode, PartKind};
use toml::Value;
use toml_rules::{list_at, number_in};

impl PlanKind for HistSet {
    ghost kind = { histogram_kind };

    ghost settings = { λ set. HistSettings (hist_view set) };

    fn tables(document: &Value) -> &[Value] {
        list_at(document, "histogram")
    }

    /// A histogram has exactly the keys `group`, `width` and `bins`.
    #[tactic(auto, unfolding(crate::specs::Histograms::has_histogram_keys))]
    fn keeps_before(document: &Value) -> Result<(), Fault> {
        let tables = list_at(document, "histogram");
        each_has_keys(11, tables, &["group", "width", "bins"], &[])
    }

    fn last_rule() -> u8 {
        12
    }

    #[tactic(auto, unfolding(crate::specs::Histograms::histogram))]
    fn read(document: &Value, table: &Value) -> Option<HistSet> {
        let group = group_number(document, table, "group")?;
        let width = number_in(table, "width", 1, 32768)?;
        let bins = number_in(table, "bins", 1, 32768)?;
        Some(HistSet {
            group: group as u8,
            width: width as u32,
            bins: bins as u32,
        })
    }

    fn misfit(mode: Mode) -> Option<PartKind> {
        match mode {
            Mode::T2 => Some(PartKind::Histogram),
            Mode::T3 => None,
        }
    }
}
