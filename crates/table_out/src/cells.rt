// The lines of a table of cells.
ghost use Rattle.std.specs.Prelude.{◌≡◌, ◌<◌, ◌≤◌, true, length, OnOk, OnErr, codes, decimal};
ghost use Rattle.{bench_io.specs.Sinks.CountsFault, tally_base.specs.Tally.History, list_out.specs.Lines.line, table_out.specs.Printed.{cell_line, pair_line, row_lines, cell_lines, first_line}};
ghost use Rattle.table_out.specs.Report.{PutsText, CutsText, printed, part_text, Puts};

use arrayvec::ArrayVec;
use bench_io::{OutBuffer, Sink};
use list_out::{LINE_SIZE, put_count, write_newline, write_number, write_text, write_wide};
use tally_base::{Failed, Tally, put_decimal, put_text};

/// A table that is printed: its cells stand in rows, and are read once it is closed. Rows, and the columns
/// of each, are numbered from 0.
pub(crate) trait Prints: Tally {
    /// The name of its kind.
    fn word(&self) -> &'static str
        ensures text { result.now ≡ (printed (Self.settings self.now)).word }
        ensures short { length result.now ≤ 16 };

    /// Its settings, as its first line has them after its number.
    fn settings_text(&self) -> ArrayVec<u8, 160>
        ensures { result.items ≡ (printed (Self.settings self.now)).settings };

    /// How many rows it has.
    fn row_count(&self) -> u32
        ensures { result ≡ (printed (Self.settings self.now)).rows };

    /// How many columns a row has.
    fn column_count(&self, row: u32) -> u32
        requires { row < (printed (Self.settings self.now)).rows }
        ensures { result ≡ (printed (Self.settings self.now)).columns row };

    /// Formats the line of a cell in a buffer. A cell that is 0 has none.
    fn line_of<'l>(&self, row: u32, column: u32, line: &'l mut [u8; LINE_SIZE]) -> &'l [u8]
        requires closed { Self.closed self.now ≡ true }
        requires row { row < (printed (Self.settings self.now)).rows }
        requires column { column < (printed (Self.settings self.now)).columns row }
        ensures { (h : History) → Self.holds self.now h → result.now ≡ (printed (Self.settings self.now)).cell row column h };

    /// The lines after the cells.
    fn rest_lines(&self) -> ArrayVec<u8, 64>
        ensures { (h : History) → Self.holds self.now h → result.items ≡ (printed (Self.settings self.now)).rest h };
}

/// Formats the line of a cell with a number in a buffer. A cell that is 0 has none.
#[inline(always)]
pub(crate) fn cell_line<'l>(cell: u32, count: u128, line: &'l mut [u8; LINE_SIZE]) -> &'l [u8]
    ensures { result.now ≡ cell_line cell count }
{
    if count == 0 {
        return &[];
    }
    let end_at = write_newline(line);
    let count_at = write_wide(line, end_at, count);
    let space_at = write_text(line, count_at, b" ");
    let start = write_number(line, space_at, cell as u64);
    &line[start..]
}

/// Formats the line of a cell with two numbers in a buffer. A cell that is 0 has none.
#[inline(always)]
pub(crate) fn pair_line<'l>(
    first: u32,
    second: u32,
    count: u128,
    line: &'l mut [u8; LINE_SIZE],
) -> &'l [u8]
    ensures { result.now ≡ pair_line first second count }
{
    if count == 0 {
        return &[];
    }
    let end_at = write_newline(line);
    let count_at = write_wide(line, end_at, count);
    let behind_at = write_text(line, count_at, b" ");
    let second_at = write_number(line, behind_at, second as u64);
    let between_at = write_text(line, second_at, b" ");
    let start = write_number(line, between_at, first as u64);
    &line[start..]
}

/// Puts the lines of a row of cells, in rising order.
fn put_row<T: Prints, O: Sink>(
    table: &T,
    row: u32,
    block: &mut OutBuffer,
    out: &mut O,
) -> Result<(), Failed>
    requires closed { T.closed table.now ≡ true }
    requires row { row < (printed (T.settings table.now)).rows }
    ensures { Puts (T.holds table.now) (row_lines (printed (T.settings table.now)) row)
        (O.state out.old) (O.state out.new) block.old block.new result }
{
    let mut line = [0; LINE_SIZE];
    for column in 0..table.column_count(row) {
        block.put(out, table.line_of(row, column, &mut line))?;
    }
    Ok(())
}

/// Puts the lines of the cells, row by row.
fn put_rows<T: Prints, O: Sink>(table: &T, block: &mut OutBuffer, out: &mut O) -> Result<(), Failed>
    requires closed { T.closed table.now ≡ true }
    ensures { Puts (T.holds table.now) (cell_lines (printed (T.settings table.now)))
        (O.state out.old) (O.state out.new) block.old block.new result }
{
    for row in 0..table.row_count() {
        put_row(table, row, block, out)?;
    }
    Ok(())
}

/// The first line of a table: the name of its kind, its number, and its settings.
fn first_line<T: Prints>(number: u64, table: &T) -> ArrayVec<u8, 224>
    ensures { result.items ≡ first_line (printed (T.settings table.now)) number }
{
    let mut line = ArrayVec::new();
    put_text(&mut line, table.word().as_bytes());
    put_text(&mut line, b" ");
    put_decimal(&mut line, number);
    put_text(&mut line, table.settings_text().as_slice());
    put_text(&mut line, b"\n");
    line
}

/// Puts the lines of a table: its first line, its cells, and its rest lines.
pub(crate) fn put_table<T: Prints, O: Sink>(
    number: u64,
    table: &T,
    block: &mut OutBuffer,
    out: &mut O,
) -> Result<(), Failed>
    requires closed { T.closed table.now ≡ true }
    ensures { Puts (T.holds table.now) (part_text number (T.settings table.now))
        (O.state out.old) (O.state out.new) block.old block.new result }
{
    block.put(out, first_line(number, table).as_slice())?;
    put_rows(table, block, out)?;
    block.put(out, table.rest_lines().as_slice())
}

/// The line of what is past the last cell.
pub(crate) fn over_line(over: u64) -> ArrayVec<u8, 64>
    ensures { result.items ≡ line (codes "over") (decimal over) }
{
    let mut line = ArrayVec::new();
    put_count(&mut line, b"over", over);
    line
}
