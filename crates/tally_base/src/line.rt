// Lines of text in a fixed room.
ghost use Rattle.std.specs.{Prelude.{◌≡◌, ◌+◌, ◌<◌, ◌≤◌, ◌++◌, length, decimal}, Fmt.signed_decimal};
ghost use Rattle.{arrayvec.specs.ArrayVec.array_vec_len, tally_base.specs.Hexadecimal.{hexadecimal, digit_code, digit_at}};

use arrayvec::ArrayVec;
use itoa::Buffer;

/// Appends a text for which there is room.
pub fn put_text<const N: usize>(line: &mut ArrayVec<u8, N>, text: &[u8])
    requires { array_vec_len line.old + length text.now ≤ N }
    ensures items { line.new.items ≡ line.old.items ++ text.now }
    ensures len { array_vec_len line.new ≡ array_vec_len line.old + length text.now }
{
    let _ = line.try_extend_from_slice(text);
}

/// Appends a number in decimal digits, of which there are at most 20.
pub fn put_decimal<const N: usize>(line: &mut ArrayVec<u8, N>, number: u64)
    requires { array_vec_len line.old + 20 ≤ N }
    ensures items { line.new.items ≡ line.old.items ++ decimal number }
    ensures len { array_vec_len line.new ≤ array_vec_len line.old + 20 }
{
    let mut buffer = Buffer::new();
    put_text(line, buffer.format(number).as_bytes());
}

/// Appends a signed number in decimal digits, with `-` before a negative one: at most 20 bytes.
pub fn put_signed<const N: usize>(line: &mut ArrayVec<u8, N>, number: i64)
    requires { array_vec_len line.old + 20 ≤ N }
    ensures items { line.new.items ≡ line.old.items ++ signed_decimal number }
    ensures len { array_vec_len line.new ≤ array_vec_len line.old + 20 }
{
    let mut buffer = Buffer::new();
    put_text(line, buffer.format(number).as_bytes());
}

/// Appends the last `count` hexadecimal digits of a number, in upper case and the highest first.
pub fn put_hexadecimal<const N: usize>(line: &mut ArrayVec<u8, N>, number: u64, count: u32)
    requires digits { count ≤ 16 }
    requires room { array_vec_len line.old + count ≤ N }
    ensures items { line.new.items ≡ line.old.items ++ hexadecimal count number }
    ensures len { array_vec_len line.new ≡ array_vec_len line.old + count }
{
    let mut left = count;
    'digits: while left > 0 {
        left -= 1;
        line.push(digit(number, left));
    }
}

/// The hexadecimal digit of a number that has `below` digits after it.
fn digit(number: u64, below: u32) -> u8
    requires { below < 16 }
    ensures { result ≡ digit_code (digit_at number below) }
{
    let value = ((number >> (4 * below)) & 15) as u8;
    if value < 10 {
        b'0' + value
    } else {
        b'A' + (value - 10)
    }
}
