// The lines of a preamble.
ghost use Rattle.std.specs.{Prelude.{◌≡◌, ◌+◌, ◌*◌, ◌≤◌, ◌++◌, length}, List.flat_map};
ghost use Rattle.{arrayvec.specs.ArrayVec.array_vec_len, tally_base.specs.Hexadecimal.hexadecimal, list_out.specs.HeaderText.preamble_lines_of};

use arrayvec::ArrayVec;
use tally_base::{put_hexadecimal, put_text};

/// Appends bytes as two hexadecimal digits each, in their order.
fn put_digits(line: &mut ArrayVec<u8, 64>, bytes: &[u8])
    requires { array_vec_len line.old + 2 * length bytes.now ≤ 64 }
    ensures items { line.new.items ≡ line.old.items ++ flat_map (hexadecimal 2) bytes.now }
    ensures len { array_vec_len line.new ≡ array_vec_len line.old + 2 * length bytes.now }
{
    for byte in bytes {
        put_hexadecimal(line, *byte as u64, 2);
    }
}

/// Leaves in `into` exactly the two lines of the magic and the version of a file.
pub fn preamble_lines(magic: &[u8; 8], version: &[u8; 8], into: &mut ArrayVec<u8, 64>)
    ensures { into.new.items ≡ preamble_lines_of magic.now version.now }
{
    into.clear();
    put_text(into, b"magic ");
    put_digits(into, magic.as_slice());
    put_text(into, b"\nversion ");
    put_digits(into, version.as_slice());
    put_text(into, b"\n");
}
