// The lines of events.
ghost use Rattle.std.specs.Prelude.{◌≡◌, ◌+◌, ◌≤◌, ◌++◌, length, take, drop, map, false};
ghost use Rattle.{tally_base.specs.Columns.{count, gathered}, list_out.specs.Lines.{event_text, events_text, kind_text, line_end}};

use crate::backwards::{LINE_SIZE, write_number, write_text};
use arrayvec::ArrayVec;
use tally_base::{Block, Event, EventKind, TABLE_BLOCK, put_text};

/// The most lines that are formatted at once.
pub const LINES: usize = 64;

/// Room for these, in bytes.
pub const LINES_SIZE: usize = LINES * LINE_SIZE;

/// Writes what an event is, with its time, before what stands from `end` on, and returns where it starts.
#[inline(always)]
fn write_kind(line: &mut [u8], end: usize, kind: EventKind, time: u64) -> usize
    requires { (70 ≤ end) × (end ≤ length line.old) }
    ensures start { (result ≤ end) × (end ≤ result + 70) }
    ensures written { drop result line.new ≡ kind_text kind time ++ drop end line.old }
{
    match kind {
        EventKind::Photon { input, dtime } => {
            let dtime_at = write_number(line, end, dtime as u64);
            let space_at = write_text(line, dtime_at, b" ");
            let time_at = write_number(line, space_at, time);
            let between_at = write_text(line, time_at, b" ");
            let input_at = write_number(line, between_at, input as u64);
            write_text(line, input_at, b" photon ")
        }
        EventKind::Marker { bits } => {
            let time_at = write_number(line, end, time);
            let between_at = write_text(line, time_at, b" ");
            let bits_at = write_number(line, between_at, bits as u64);
            write_text(line, bits_at, b" marker ")
        }
    }
}

/// Writes the end of a line before what stands from `end` on, and returns where it starts.
#[inline(always)]
fn write_end(line: &mut [u8], end: usize, late: bool) -> usize
    requires { (6 ≤ end) × (end ≤ length line.old) }
    ensures start { (result ≤ end) × (end ≤ result + 6) }
    ensures written { drop result line.new ≡ line_end late ++ drop end line.old }
{
    if late {
        write_text(line, end, b" late\n")
    } else {
        write_text(line, end, b"\n")
    }
}

/// Writes the line of an event, with its newline, before what stands from `end` on, and returns where it
/// starts.
#[inline(always)]
#[tactic(auto, unfolding(crate::specs::Lines::event_text))]
fn write_event(text: &mut [u8], end: usize, event: &Event, late: bool) -> usize
    requires { (LINE_SIZE ≤ end) × (end ≤ length text.old) }
    ensures start { (result ≤ end) × (end ≤ result + LINE_SIZE) }
    ensures written { drop result text.new ≡ event_text event.now late ++ drop end text.old }
{
    let end_at = write_end(text, end, late);
    let kind_at = write_kind(text, end_at, event.kind, event.time);
    write_number(text, kind_at, event.place)
}

/// Writes the line of an event, with its newline, at the end of a buffer, and returns where it starts.
#[inline(always)]
fn write_line(line: &mut [u8; LINE_SIZE], event: &Event, late: bool) -> usize
    ensures inside { result ≤ LINE_SIZE }
    ensures written { drop result line.new ≡ event_text event.now late }
{
    write_event(line, LINE_SIZE, event, late)
}

/// Formats the line of an event, with its newline, in a buffer. The answer has exactly the bytes that
/// `event_line` leaves.
#[inline(always)]
pub fn format_event<'l>(event: &Event, late: bool, line: &'l mut [u8; LINE_SIZE]) -> &'l [u8]
    ensures text { result.now ≡ event_text event.now late }
    ensures short { length result.now ≤ LINE_SIZE }
{
    let start = write_line(line, event, late);
    &line[start..]
}

/// Formats the lines of up to 64 events of a block from a place on, none of them late, in a buffer, where no line is
/// copied. The last line is written first, and each before what stands after it.
pub fn format_block<'l>(
    block: &Block<TABLE_BLOCK>,
    from: usize,
    text: &'l mut [u8; LINES_SIZE],
) -> &'l [u8]
    requires { from ≤ count block.now }
    ensures { result.now ≡ events_text (map (λ e. (e, false)) (take LINES (drop from (gathered block.now)))) }
{
    let mut at = block.len().min(from + LINES);
    let mut start = LINES_SIZE;
    'back: while at > from {
        at -= 1;
        start = write_event(text, start, &block.event(at), false);
    }
    &text[start..]
}

/// Leaves exactly the line of an event in `into`, with its newline: the number of its record, `photon`
/// with its input, time and dtime or `marker` with its bits and time, and `late` where it is late. All
/// numbers are decimal.
pub fn event_line(event: &Event, late: bool, into: &mut ArrayVec<u8, LINE_SIZE>)
    ensures { into.new.items ≡ event_text event.now late }
{
    let mut line = [0; LINE_SIZE];
    into.clear();
    put_text(into, format_event(event, late, &mut line));
}
