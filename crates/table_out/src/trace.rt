// How a trace is printed.
ghost use Rattle.std.specs.Prelude.{◌≡◌};

use crate::cells::{Prints, cell_line};
use arrayvec::ArrayVec;
use count_trace::Trace;
use list_out::{LINE_SIZE, put_count};
use tally_base::{put_decimal, put_text};

#[tactic(auto, unfolding(crate::specs::Trace::trace_printed))]
impl Prints for Trace {
    fn word(&self) -> &'static str {
        "trace"
    }

    fn settings_text(&self) -> ArrayVec<u8, 160> {
        let set = self.set();
        let mut text = ArrayVec::new();
        put_text(&mut text, b" origin ");
        put_decimal(&mut text, set.origin);
        put_text(&mut text, b" width ");
        put_decimal(&mut text, set.width);
        put_text(&mut text, b" bins ");
        put_decimal(&mut text, set.bins as u64);
        text
    }

    fn row_count(&self) -> u32 {
        1
    }

    fn column_count(&self, _row: u32) -> u32 {
        self.set().bins
    }

    fn line_of<'l>(&self, _row: u32, column: u32, line: &'l mut [u8; LINE_SIZE]) -> &'l [u8] {
        cell_line(column, u128::from(self.cell(column)), line)
    }

    fn rest_lines(&self) -> ArrayVec<u8, 64> {
        let mut lines = ArrayVec::new();
        put_count(&mut lines, b"before", self.before());
        put_count(&mut lines, b"beyond", self.beyond());
        lines
    }
}
