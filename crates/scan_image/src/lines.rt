// The lines of a scan.
ghost use Rattle.std.specs.{Prelude.{◌≡◌, ◌+◌, ◌<◌, ◌≤◌, None, Some, option_map, if◌then◌else◌, ℕ, List, [], ◌∷◌, ◌++◌, IfSome, max}, Option.ForSome};
ghost use Rattle.{tally_base.specs.{Settings.{image_view, divisor_of}, Limits.record_limit}, scan_image.specs.{Places.runs_back, Strips.{line_at, row_after}}};

use crate::bits::{has_bit, has_named_bit};
use crate::strip::Strip;
use tally_base::{Divisor, ImageSet};

/// A line that no stop has ended, and its row.
#[derive(Clone, Copy)]
struct Line {
    /// The time of its marker.
    start: u64,
    row: u64,
}

/// Where a photon is in an image, by the markers that came before it.
///
/// The line of a photon is the last marker with the line bit, where no marker after that one has the
/// stop bit. With a frame bit the rows count from 0 from each frame on, and before the first frame a line
/// has no row. Without a frame bit they count from the first line on, and begin again after the last row
/// of the image. In one marker the stop bit counts first, then the frame bit, then the line bit. The
/// columns of a line count from its marker on, and in the odd rows of a serpentine image backwards, from
/// the last one. Times are sync periods.
#[derive(Drop)]
pub struct Lines {
    set: ImageSet,
    dwell: Divisor,
    // None before the first line, after a stop, and at a line that has no row.
    line: Option<Line>,
    // The row of the next line. None before the first frame.
    next_row: Option<u64>,
    given: u64,
    ghost divides: { divisor_of dwell ≡ set.dwell },
    ghost counted: { ForSome next_row (λ row. row ≤ given) },
}

/// The row of a line in a marker: the first row where the marker begins a frame.
fn row_here(next_row: Option<u64>, frames: bool) -> Option<u64>
    ensures { result ≡ (if frames then Some 0 else next_row) }
{
    if frames { Some(0) } else { next_row }
}

/// The line that begins at this time, where it has a row.
fn begun_at(time: u64, row: Option<u64>) -> Option<Line>
    ensures { result ≡ option_map (line_at time) row }
{
    match row {
        Some(row) => Some(Line { start: time, row }),
        None => None,
    }
}

/// What a stop leaves of a line.
fn unless_stopped(line: Option<Line>, stops: bool) -> Option<Line>
    ensures { result ≡ (if stops then None else line) }
{
    if stops { None } else { line }
}

/// The row after this one. Without a frame bit the first row follows the last.
fn row_behind(set: &ImageSet, row: Option<u64>) -> Option<u64>
    requires { ForSome row (λ row. row ≤ record_limit) }
    ensures { result ≡ option_map (row_after (image_view set.now)) row }
{
    let row = row? + 1;
    if row == u64::from(set.height) && set.frame.is_none() {
        Some(0)
    } else {
        Some(row)
    }
}

/// Whether a row is run through backwards.
fn runs_back(set: &ImageSet, row: u64) -> bool
    ensures { result ≡ runs_back (image_view set.now) row }
{
    set.serpentine && row % 2 == 1
}

impl Lines {
    ghost use Rattle.scan_image.specs.{Places.{Mark, mark, place_of}, Strips.{HasSizeOf, place_on, start_of, width_of, height_of, place_by}, Lines.{Saw, image_of, markers_given, line_start}};

    /// The lines of an image, before any marker.
    pub fn new(set: &ImageSet) -> Lines
        ensures image { image_of result ≡ image_view set.now }
        ensures given { markers_given result ≡ 0 }
        ensures none { line_start result ≡ 0 }
        ensures empty { Saw result [] }
    {
        Lines {
            set: *set,
            dwell: Divisor::new(set.dwell),
            line: None,
            next_row: if set.frame.is_none() { Some(0) } else { None },
            given: 0,
        }
    }

    /// Takes a marker: its bits and its time. Fewer than 2^40 markers came before it.
    pub fn marker(&mut self, bits: u8, time: u64)
        requires { markers_given self.old < record_limit }
        ensures follows { (ms : List Mark) → Saw self.old ms → Saw self.new (ms ++ mark bits time ∷ []) }
        ensures one_more { markers_given self.new ≡ markers_given self.old + 1 }
        ensures begun { line_start self.new ≤ max (line_start self.old) time }
        ensures same_image { image_of self.new ≡ image_of self.old }
    {
        let stops = has_named_bit(bits, self.set.stop);
        let row = row_here(self.next_row, has_named_bit(bits, self.set.frame));
        self.given += 1;
        if has_bit(bits, self.set.line) {
            self.line = begun_at(time, row);
            self.next_row = row_behind(&self.set, row);
        } else {
            self.line = unless_stopped(self.line, stops);
            self.next_row = row;
        }
    }

    /// The column and the row of a photon at this time, which isn't below that of the line's marker. None
    /// where the photon is outside the image: it has no line, its line has no row, or the column or the
    /// row is past the last of the image.
    #[inline(always)]
    pub fn place(&self, time: u64) -> Option<(u32, u32)>
        requires in_order { line_start self.now ≤ time }
        ensures place { (ms : List Mark) → Saw self.now ms → result ≡ place_of (image_of self.now) time ms }
        ensures inside { IfSome result (λ place. (place.0 < (image_of self.now).width) × (place.1 < (image_of self.now).height)) }
    {
        self.strip().place(time)
    }

    /// Where the photons that come before the next marker are.
    #[inline(always)]
    pub fn strip(&self) -> Strip
        ensures place { (ms : List Mark) → Saw self.now ms
            → (time : ℕ) → place_on result time ≡ place_of (image_of self.now) time ms }
        ensures begun { start_of result ≤ line_start self.now }
        ensures width { width_of result ≡ (image_of self.now).width }
        ensures height { height_of result ≡ (image_of self.now).height }
    {
        match self.line {
            Some(line) if line.row < u64::from(self.set.height) => self.strip_of(line),
            _ => self.no_strip(),
        }
    }

    /// A line whose row is in the image.
    #[inline(always)]
    fn strip_of(&self, line: Line) -> Strip
        requires { line.row < (image_of self.now).height }
        ensures place { (time : ℕ) → place_on result time ≡ place_by (image_of self.now) time (Some line) }
        ensures begun { start_of result ≡ line.start }
        ensures size { HasSizeOf (image_of self.now) result }
    {
        Strip {
            open: true,
            start: line.start,
            row: line.row as u32,
            near: self.dwell.short_end(self.set.width),
            backwards: runs_back(&self.set, line.row),
            width: self.set.width,
            height: self.set.height,
            dwell: self.dwell,
        }
    }

    /// Outside the image.
    #[inline(always)]
    fn no_strip(&self) -> Strip
        ensures place { (time : ℕ) → place_on result time ≡ None }
        ensures begun { start_of result ≡ 0 }
        ensures size { HasSizeOf (image_of self.now) result }
    {
        Strip {
            open: false,
            start: 0,
            row: 0,
            near: 0,
            backwards: false,
            width: self.set.width,
            height: self.set.height,
            dwell: self.dwell,
        }
    }
}
