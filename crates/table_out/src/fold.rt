// How a fold is printed.
ghost use Rattle.std.specs.Prelude.{◌≡◌};

use crate::cells::{Prints, cell_line};
use arrayvec::ArrayVec;
use fold_count::Fold;
use list_out::LINE_SIZE;
use tally_base::{put_decimal, put_text};

#[tactic(auto, unfolding(crate::specs::Fold::fold_printed))]
impl Prints for Fold {
    fn word(&self) -> &'static str {
        "fold"
    }

    fn settings_text(&self) -> ArrayVec<u8, 160> {
        let mut text = ArrayVec::new();
        put_text(&mut text, b" window ");
        put_decimal(&mut text, self.set().window as u64);
        put_text(&mut text, b" sets ");
        put_decimal(&mut text, self.sets() as u64);
        text
    }

    fn row_count(&self) -> u32 {
        1
    }

    fn column_count(&self, _row: u32) -> u32 {
        self.sets()
    }

    fn line_of<'l>(&self, _row: u32, column: u32, line: &'l mut [u8; LINE_SIZE]) -> &'l [u8] {
        cell_line(column, u128::from(self.cell(column)), line)
    }

    fn rest_lines(&self) -> ArrayVec<u8, 64> {
        ArrayVec::new()
    }
}
