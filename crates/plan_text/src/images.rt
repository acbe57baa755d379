// The images of a plan.
ghost use Rattle.std.specs.Prelude.{◌≡◌, ◌<◌, ◌≤◌, map, length, option_map, is_some, IfSome};
ghost use Rattle.{toml.specs.View.view, tally_base.specs.{Settings.{image_view, PartSettings.ImageSettings}, Limits.wrap_limit}, plan_text.specs.{Groups.groups, Images.{other_image_keys, bit}}};
ghost use Rattle.plan_text.specs.Images.{raster, bits, serpentine, image_values, image_kind};

use crate::groups::group_number;
use crate::kind::{PlanKind, each_has_keys};
use crate::version::is_second;
use tally_base::{Fault, ImageSet, Mode, PartKind, WRAP_LIMIT};
use toml::Value;
use toml_rules::{integer_in, list_at, number_in, truth_or};

/// The number of the marker bit at a key, if there is one.
#[tactic(auto, unfolding(crate::specs::Images::bit))]
fn bit(table: &Value, key: &str) -> Option<Option<u8>>
    ensures number { result ≡ bit key.now (view table.now) }
    ensures range { IfSome result (λ bit. IfSome bit (λ n. (0 < n) × (n ≤ 4))) }
{
    match table.get(key) {
        Some(value) => Some(Some(integer_in(value, 1, 4)? as u8)),
        None => Some(None),
    }
}

/// The columns, the rows, and the time of a column.
#[tactic(auto, unfolding(crate::specs::Images::raster))]
fn raster(table: &Value) -> Option<(u32, (u32, u64))>
    ensures numbers { result ≡ raster (view table.now) }
    ensures width { IfSome result (λ raster. (0 < raster.0) × (raster.0 ≤ 2048)) }
    ensures height { IfSome result (λ raster. (0 < raster.1.0) × (raster.1.0 ≤ 2048)) }
    ensures dwell { IfSome result (λ raster. (0 < raster.1.1) × (raster.1.1 ≤ wrap_limit)) }
{
    let width = number_in(table, "width", 1, 2048)?;
    let height = number_in(table, "height", 1, 2048)?;
    let dwell = number_in(table, "dwell", 1, WRAP_LIMIT)?;
    Some((width as u32, (height as u32, dwell)))
}

/// The marker bits of a line, of a frame and of a stop.
#[tactic(auto, unfolding(crate::specs::Images::bits))]
fn bits(table: &Value) -> Option<(u8, (Option<u8>, Option<u8>))>
    ensures numbers { result ≡ bits (view table.now) }
    ensures line { IfSome result (λ bits. (0 < bits.0) × (bits.0 ≤ 4)) }
    ensures frame { IfSome result (λ bits. IfSome bits.1.0 (λ n. (0 < n) × (n ≤ 4))) }
    ensures stop { IfSome result (λ bits. IfSome bits.1.1 (λ n. (0 < n) × (n ≤ 4))) }
{
    let line = number_in(table, "line", 1, 4)?;
    let frame = bit(table, "frame")?;
    let stop = bit(table, "stop")?;
    Some((line as u8, (frame, stop)))
}

/// Whether the odd rows run backwards, which they don't where the table does not say so.
#[tactic(auto, unfolding(crate::specs::Images::serpentine))]
fn serpentine(table: &Value) -> Option<bool>
    ensures { result ≡ serpentine (view table.now) }
{
    truth_or(table, "serpentine", false)
}

/// Whether each value of an image that a table asks for keeps its rule.
#[tactic(auto, unfolding(crate::specs::Images::image_values))]
pub(crate) fn has_image_values(document: &Value, table: &Value) -> bool
    ensures { result ≡ is_some (image_values (view document.now) (view table.now)) }
{
    group_number(document, table, "group").is_some()
        && raster(table).is_some()
        && bits(table).is_some()
        && serpentine(table).is_some()
}

/// The image that a table asks for.
#[tactic(auto, unfolding(crate::specs::Images::image_values))]
pub(crate) fn image(document: &Value, table: &Value) -> Option<ImageSet>
    requires few { length (groups (view document.now)) ≤ 64 }
    ensures { option_map image_view result ≡ image_values (view document.now) (view table.now) }
{
    let group = group_number(document, table, "group")?;
    let (width, (height, dwell)) = raster(table)?;
    let (line, (frame, stop)) = bits(table)?;
    let serpentine = serpentine(table)?;
    Some(ImageSet {
        group: group as u8,
        width,
        height,
        dwell,
        line,
        frame,
        stop,
        serpentine,
    })
}

/// The keys that an image may have or not.
fn other_keys(second: bool) -> &'static [&'static str]
    ensures { map (λ key. key.now) result.now ≡ other_image_keys second }
{
    if second {
        &["frame", "stop", "serpentine"]
    } else {
        &["frame", "stop"]
    }
}

impl PlanKind for ImageSet {
    ghost kind = { image_kind };

    ghost settings = { λ set. ImageSettings (image_view set) };

    fn tables(document: &Value) -> &[Value] {
        list_at(document, "image")
    }

    /// An image has the keys `group`, `width`, `height`, `dwell` and `line`, and no other key but `frame`,
    /// `stop` and, in version 2, `serpentine`.
    #[tactic(auto, unfolding(crate::specs::Images::has_image_keys))]
    fn keeps_before(document: &Value) -> Result<(), Fault> {
        let tables = list_at(document, "image");
        let needed = &["group", "width", "height", "dwell", "line"];
        each_has_keys(19, tables, needed, other_keys(is_second(document)))
    }

    fn last_rule() -> u8 {
        20
    }

    fn read(document: &Value, table: &Value) -> Option<ImageSet> {
        image(document, table)
    }

    fn misfit(mode: Mode) -> Option<PartKind> {
        match mode {
            Mode::T2 => Some(PartKind::Image),
            Mode::T3 => None,
        }
    }
}
