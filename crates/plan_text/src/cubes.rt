// The cubes of a plan.
ghost use Rattle.std.specs.Prelude.{◌≡◌, ◌<◌, ◌≤◌, length, option_map, IfSome};
ghost use Rattle.{toml.specs.View.view, tally_base.specs.Settings.{cube_view, PartSettings.CubeSettings}, plan_text.specs.{Groups.groups, Cubes.{bins, has_cube_values, cube, cube_kind}}};

use crate::images::{has_image_values, image};
use crate::kind::{PlanKind, each_has_keys};
use tally_base::{CubeSet, Fault, Mode, PartKind};
use toml::Value;
use toml_rules::{ListRule, each, list_at, number_in};

/// The most bins that all pixels of a cube have together.
const MOST_BINS: u64 = 1 << 26;

/// How many ticks a bin has, and how many bins a pixel.
#[tactic(auto, unfolding(crate::specs::Cubes::bins))]
fn bins(table: &Value) -> Option<(u32, u32)>
    ensures numbers { result ≡ bins (view table.now) }
    ensures width { IfSome result (λ bins. (0 < bins.0) × (bins.0 ≤ 32768)) }
    ensures count { IfSome result (λ bins. (0 < bins.1) × (bins.1 ≤ 32768)) }
{
    let dwidth = number_in(table, "dwidth", 1, 32768)?;
    let dbins = number_in(table, "dbins", 1, 32768)?;
    Some((dwidth as u32, dbins as u32))
}

/// It would be an image without its bins, and these are in their ranges.
struct CubeValues;

impl ListRule for CubeValues {
    ghost asks = { has_cube_values };

    #[tactic(auto, unfolding(crate::specs::Cubes::has_cube_values))]
    fn is_met(document: &Value, item: &Value) -> bool {
        has_image_values(document, item) && bins(item).is_some()
    }
}

impl PlanKind for CubeSet {
    ghost kind = { cube_kind };

    ghost settings = { λ set. CubeSettings (cube_view set) };

    fn tables(document: &Value) -> &[Value] {
        list_at(document, "cube")
    }

    /// All that an image must say and how its pixels are binned stand there, and nothing else but what an image
    /// may say.
    #[tactic(auto, unfolding(crate::specs::Cubes::has_cube_keys))]
    fn keeps_before(document: &Value) -> Result<(), Fault> {
        let tables = list_at(document, "cube");
        each_has_keys(
            27,
            tables,
            &[
                "group", "width", "height", "dwell", "line", "dwidth", "dbins",
            ],
            &["frame", "stop", "serpentine"],
        )?;
        each::<CubeValues>(28, document, "cube")
    }

    fn last_rule() -> u8 {
        29
    }

    #[tactic(auto, unfolding(crate::specs::Cubes::cube))]
    fn read(document: &Value, table: &Value) -> Option<CubeSet> {
        let image = image(document, table)?;
        let (dwidth, dbins) = bins(table)?;
        if u64::from(image.width) * u64::from(image.height) * u64::from(dbins) <= MOST_BINS {
            Some(CubeSet {
                image,
                dwidth,
                dbins,
            })
        } else {
            None
        }
    }

    fn misfit(mode: Mode) -> Option<PartKind> {
        match mode {
            Mode::T2 => Some(PartKind::Cube),
            Mode::T3 => None,
        }
    }
}
