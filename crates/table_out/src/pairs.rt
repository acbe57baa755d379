// How a table of coincidences is printed.
ghost use Rattle.std.specs.Prelude.{◌≡◌};

use crate::cells::{Prints, cell_line};
use arrayvec::ArrayVec;
use coincidence::Coincidence;
use list_out::LINE_SIZE;
use tally_base::{put_decimal, put_text};

#[tactic(auto, unfolding(crate::specs::Coincidence::coincidence_printed))]
impl Prints for Coincidence {
    fn word(&self) -> &'static str {
        "coincidence"
    }

    fn settings_text(&self) -> ArrayVec<u8, 160> {
        let set = self.set();
        let mut text = ArrayVec::new();
        put_text(&mut text, b" reach ");
        put_decimal(&mut text, set.reach as u64);
        put_text(&mut text, b" width ");
        put_decimal(&mut text, set.width as u64);
        text
    }

    fn row_count(&self) -> u32 {
        1
    }

    fn column_count(&self, _row: u32) -> u32 {
        self.cells()
    }

    fn line_of<'l>(&self, _row: u32, column: u32, line: &'l mut [u8; LINE_SIZE]) -> &'l [u8] {
        cell_line(column, self.cell(column), line)
    }

    fn rest_lines(&self) -> ArrayVec<u8, 64> {
        ArrayVec::new()
    }
}
