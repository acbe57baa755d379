// How an image is printed.
ghost use Rattle.std.specs.Prelude.{◌≡◌};

use crate::cells::{Prints, pair_line};
use arrayvec::ArrayVec;
use list_out::{LINE_SIZE, put_count};
use scan_image::Image;
use tally_base::{put_decimal, put_text};

#[tactic(auto, unfolding(crate::specs::Image::image_printed))]
impl Prints for Image {
    fn word(&self) -> &'static str {
        "image"
    }

    fn settings_text(&self) -> ArrayVec<u8, 160> {
        let set = self.set();
        let mut text = ArrayVec::new();
        put_text(&mut text, b" width ");
        put_decimal(&mut text, set.width as u64);
        put_text(&mut text, b" height ");
        put_decimal(&mut text, set.height as u64);
        put_text(&mut text, b" dwell ");
        put_decimal(&mut text, set.dwell);
        text
    }

    fn row_count(&self) -> u32 {
        self.set().height
    }

    fn column_count(&self, _row: u32) -> u32 {
        self.set().width
    }

    fn line_of<'l>(&self, row: u32, column: u32, line: &'l mut [u8; LINE_SIZE]) -> &'l [u8] {
        pair_line(column, row, u128::from(self.cell(column, row)), line)
    }

    fn rest_lines(&self) -> ArrayVec<u8, 64> {
        let mut lines = ArrayVec::new();
        put_count(&mut lines, b"outside", self.outside());
        lines
    }
}
