// The lines of a trace without end.
ghost use Rattle.std.specs.Prelude.{◌≡◌, ◌+◌, ◌≤◌, ◌++◌};
ghost use Rattle.{arrayvec.specs.ArrayVec.array_vec_len, tally_base.specs.Settings.trace_view, long_trace.specs.Texts.{bin_line, frequency_line, first_line}};

use arrayvec::ArrayVec;
use tally_base::{TraceSet, put_decimal, put_text};

/// Room for the line of a bin, in bytes.
pub const LINE_SIZE: usize = 42;

/// Room for the lines of the bins that the events of a block close, in bytes.
pub const LINES_SIZE: usize = 43_008;

/// Appends the line of a bin, unless it is empty.
#[inline(always)]
pub(crate) fn put_bin<const N: usize>(lines: &mut ArrayVec<u8, N>, bin: u64, count: u64)
    requires room { array_vec_len lines.old + LINE_SIZE ≤ N }
    ensures items { lines.new.items ≡ lines.old.items ++ bin_line bin count }
    ensures len { array_vec_len lines.new ≤ array_vec_len lines.old + LINE_SIZE }
{
    if count > 0 {
        put_decimal(lines, bin);
        put_text(lines, b" ");
        put_decimal(lines, count);
        put_text(lines, b"\n");
    }
}

/// The line of a count and of how many bins have it, or nothing where none has it.
pub(crate) fn frequency_line(count: u64, bins: u64) -> ArrayVec<u8, 56>
    ensures { result.items ≡ frequency_line count bins }
{
    let mut line = ArrayVec::new();
    if bins > 0 {
        put_text(&mut line, b"frequency ");
        put_decimal(&mut line, count);
        put_text(&mut line, b" ");
        put_decimal(&mut line, bins);
        put_text(&mut line, b"\n");
    }
    line
}

/// The first line.
pub(crate) fn first_line(set: &TraceSet) -> ArrayVec<u8, 64>
    ensures { result.items ≡ first_line (trace_view set.now) }
{
    let mut line = ArrayVec::new();
    put_text(&mut line, b"trace 1 origin ");
    put_decimal(&mut line, set.origin);
    put_text(&mut line, b" width ");
    put_decimal(&mut line, set.width);
    put_text(&mut line, b"\n");
    line
}
