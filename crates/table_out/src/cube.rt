// How a cube is printed.
ghost use Rattle.std.specs.Prelude.{◌≡◌};
ghost use Rattle.table_out.specs.Cube.{triple_line};

use crate::cells::Prints;
use arrayvec::ArrayVec;
use flim_cube::FlimCube;
use list_out::{LINE_SIZE, put_count, write_newline, write_number, write_text};
use tally_base::{put_decimal, put_text};

/// Formats the line of a cell with three numbers in a buffer. A cell that is 0 has none.
#[inline(always)]
fn triple_line<'l>(
    first: u32,
    second: u32,
    third: u32,
    count: u64,
    line: &'l mut [u8; LINE_SIZE],
) -> &'l [u8]
    ensures { result.now ≡ triple_line first second third count }
{
    if count == 0 {
        return &[];
    }
    let end_at = write_newline(line);
    let count_at = write_number(line, end_at, count);
    let last_at = write_text(line, count_at, b" ");
    let third_at = write_number(line, last_at, third as u64);
    let behind_at = write_text(line, third_at, b" ");
    let second_at = write_number(line, behind_at, second as u64);
    let between_at = write_text(line, second_at, b" ");
    let start = write_number(line, between_at, first as u64);
    &line[start..]
}

#[tactic(auto, unfolding(crate::specs::Cube::cube_printed))]
impl Prints for FlimCube {
    fn word(&self) -> &'static str {
        "cube"
    }

    fn settings_text(&self) -> ArrayVec<u8, 160> {
        let set = self.set();
        let mut text = ArrayVec::new();
        put_text(&mut text, b" width ");
        put_decimal(&mut text, set.image.width as u64);
        put_text(&mut text, b" height ");
        put_decimal(&mut text, set.image.height as u64);
        put_text(&mut text, b" dwell ");
        put_decimal(&mut text, set.image.dwell);
        put_text(&mut text, b" dwidth ");
        put_decimal(&mut text, set.dwidth as u64);
        put_text(&mut text, b" dbins ");
        put_decimal(&mut text, set.dbins as u64);
        text
    }

    fn row_count(&self) -> u32 {
        self.set().image.height
    }

    fn column_count(&self, _row: u32) -> u32 {
        self.set().image.width * self.set().dbins
    }

    fn line_of<'l>(&self, row: u32, column: u32, line: &'l mut [u8; LINE_SIZE]) -> &'l [u8] {
        let bins = self.set().dbins;
        let x = column / bins;
        let bin = column % bins;
        triple_line(x, row, bin, self.cell(x, row, bin), line)
    }

    fn rest_lines(&self) -> ArrayVec<u8, 64> {
        let mut lines = ArrayVec::new();
        put_count(&mut lines, b"outside", self.outside());
        put_count(&mut lines, b"over", self.over());
        lines
    }
}
