// How a correlation is printed.
ghost use Rattle.std.specs.Prelude.{◌≡◌};

use crate::cells::{Prints, pair_line};
use arrayvec::ArrayVec;
use list_out::LINE_SIZE;
use tally_base::{put_decimal, put_text};
use tau_cascade::Cascade;

#[tactic(auto, unfolding(crate::specs::Correlation::correlation_printed))]
impl Prints for Cascade {
    fn word(&self) -> &'static str {
        "correlation"
    }

    fn settings_text(&self) -> ArrayVec<u8, 160> {
        let set = self.set();
        let mut text = ArrayVec::new();
        put_text(&mut text, b" lags ");
        put_decimal(&mut text, set.lags as u64);
        put_text(&mut text, b" levels ");
        put_decimal(&mut text, set.levels as u64);
        text
    }

    fn row_count(&self) -> u32 {
        self.set().levels
    }

    fn column_count(&self, row: u32) -> u32 {
        self.set().lags + 1 - self.first_lag(row)
    }

    fn line_of<'l>(&self, row: u32, column: u32, line: &'l mut [u8; LINE_SIZE]) -> &'l [u8] {
        let lag = self.first_lag(row) + column;
        pair_line(row, lag, self.cell(row, lag), line)
    }

    fn rest_lines(&self) -> ArrayVec<u8, 64> {
        ArrayVec::new()
    }
}
