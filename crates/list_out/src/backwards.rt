// Texts written from their end to their start.
ghost use Rattle.std.specs.Prelude.{◌≡◌, ◌+◌, ◌≤◌, ◌++◌, length, drop, decimal, codes};

use itoa::{Buffer, write_digits};

/// Room for the longest line of an event, and for that of a cell of a table, in bytes.
pub const LINE_SIZE: usize = 96;

/// Writes a piece before what stands from `end` on, and returns where it starts.
#[inline(always)]
pub fn write_text(text: &mut [u8], end: usize, piece: &[u8]) -> usize
    requires room { length piece.now ≤ end }
    requires inside { end ≤ length text.old }
    ensures start { result + length piece.now ≡ end }
    ensures written { drop result text.new ≡ piece.now ++ drop end text.old }
{
    let start = end - piece.len();
    text[start..end].copy_from_slice(piece);
    start
}

/// Writes the end of a line at the end of a buffer, and returns where it starts.
#[inline(always)]
pub fn write_newline(line: &mut [u8; LINE_SIZE]) -> usize
    ensures start { result + 1 ≡ LINE_SIZE }
    ensures written { drop result line.new ≡ codes "\n" }
{
    write_text(line, LINE_SIZE, b"\n")
}

/// Writes a number in decimal digits, of which there are at most 20, before what stands from `end` on,
/// and returns where it starts.
#[inline(always)]
pub fn write_number(text: &mut [u8], end: usize, number: u64) -> usize
    requires { (20 ≤ end) × (end ≤ length text.old) }
    ensures start { (result ≤ end) × (end ≤ result + 20) }
    ensures written { drop result text.new ≡ decimal number ++ drop end text.old }
{
    write_digits(number, text, end)
}

/// The same of a greater number, which has at most 39 digits.
#[inline(always)]
pub fn write_wide(text: &mut [u8], end: usize, number: u128) -> usize
    requires { (39 ≤ end) × (end ≤ length text.old) }
    ensures start { (result ≤ end) × (end ≤ result + 39) }
    ensures written { drop result text.new ≡ decimal number ++ drop end text.old }
{
    if number <= u64::MAX as u128 {
        return write_number(text, end, number as u64);
    }
    let mut buffer = Buffer::new();
    write_text(text, end, buffer.format(number).as_bytes())
}
