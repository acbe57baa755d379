// Lines of a word and a value.
ghost use Rattle.std.specs.Prelude.{◌≡◌, ◌+◌, ◌≤◌, ◌++◌, length, decimal, codes};
ghost use Rattle.{arrayvec.specs.ArrayVec.array_vec_len, list_out.specs.Lines.{line, announced, bits_text, time_text}};

use arrayvec::ArrayVec;
use itoa::Buffer;
use tally_base::{put_hexadecimal, put_text};

/// Appends a line of a word and a value, which wants room for both and two bytes more.
pub fn put_line<const N: usize>(into: &mut ArrayVec<u8, N>, word: &[u8], value: &[u8])
    requires { array_vec_len into.old + length word.now + length value.now + 2 ≤ N }
    ensures items { into.new.items ≡ into.old.items ++ line word.now value.now }
    ensures len { array_vec_len into.new ≡ array_vec_len into.old + length word.now + length value.now + 2 }
{
    put_text(into, word);
    put_text(into, b" ");
    put_text(into, value);
    put_text(into, b"\n");
}

/// Appends a line of a word and a number, which has at most 20 digits. It wants room for the word and 22
/// bytes more.
pub fn put_count<const N: usize>(into: &mut ArrayVec<u8, N>, word: &[u8], count: u64)
    requires { array_vec_len into.old + length word.now + 22 ≤ N }
    ensures items { into.new.items ≡ into.old.items ++ line word.now (decimal count) }
    ensures len { array_vec_len into.new ≤ array_vec_len into.old + length word.now + 22 }
{
    let mut buffer = Buffer::new();
    put_line(into, word, buffer.format(count).as_bytes());
}

/// Appends the line of the number of records that a header announces, or `-`. It has at most 31 bytes, and
/// wants room for all of these.
pub fn put_announced<const N: usize>(into: &mut ArrayVec<u8, N>, count: Option<i64>)
    requires { array_vec_len into.old + 31 ≤ N }
    ensures items { into.new.items ≡ into.old.items ++ line (codes "announced") (announced count) }
    ensures len { array_vec_len into.new ≤ array_vec_len into.old + 31 }
{
    match count {
        Some(count) => {
            let mut buffer = Buffer::new();
            put_line(into, b"announced", buffer.format(count).as_bytes());
        }
        None => put_line(into, b"announced", b"-"),
    }
}

/// Appends a line of a word and 64 bits, as 16 hexadecimal digits or `-`.
pub fn put_bits<const N: usize>(into: &mut ArrayVec<u8, N>, word: &[u8], bits: Option<u64>)
    requires { array_vec_len into.old + length word.now + 18 ≤ N }
    ensures items { into.new.items ≡ into.old.items ++ line word.now (bits_text bits) }
    ensures len { array_vec_len into.new ≤ array_vec_len into.old + length word.now + 18 }
{
    let mut digits = ArrayVec::<u8, 16>::new();
    match bits {
        Some(bits) => put_hexadecimal(&mut digits, bits, 16),
        None => put_text(&mut digits, b"-"),
    }
    put_line(into, word, digits.as_slice());
}

/// Appends a line of a word and a time, or `-`.
pub fn put_time<const N: usize>(into: &mut ArrayVec<u8, N>, word: &[u8], time: Option<u64>)
    requires { array_vec_len into.old + length word.now + 22 ≤ N }
    ensures items { into.new.items ≡ into.old.items ++ line word.now (time_text time) }
    ensures len { array_vec_len into.new ≤ array_vec_len into.old + length word.now + 22 }
{
    match time {
        Some(time) => put_count(into, word, time),
        None => put_line(into, word, b"-"),
    }
}
