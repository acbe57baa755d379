// The line of a tag, up to its body.
ghost use Rattle.std.specs.{Prelude.{◌≡◌, ◌+◌, ◌≤◌, ◌++◌, length}, List.flat_map};
ghost use Rattle.{arrayvec.specs.ArrayVec.array_vec_len, list_out.specs.HeaderText.{head_text, type_name, value_text, shown_byte}};

use arrayvec::ArrayVec;
use ptu_header::{TagHead, TagKind};
use tally_base::{put_hexadecimal, put_signed, put_text};

/// Appends a byte of a text: as it stands from `low` to 7E, but for the backslash, and else as `\x` and
/// two digits. It takes at most 4 bytes.
pub(crate) fn put_shown<const N: usize>(line: &mut ArrayVec<u8, N>, low: u8, byte: u8)
    requires { array_vec_len line.old + 4 ≤ N }
    ensures items { line.new.items ≡ line.old.items ++ shown_byte low byte }
    ensures len { array_vec_len line.new ≤ array_vec_len line.old + 4 }
{
    if low <= byte && byte <= 0x7E && byte != b'\\' {
        line.push(byte);
    } else {
        put_text(line, b"\\x");
        put_hexadecimal(line, byte as u64, 2);
    }
}

/// Appends the bytes of a name: at most 128 bytes.
fn put_name(line: &mut ArrayVec<u8, 256>, name: &[u8])
    requires short { length name.now ≤ 32 }
    requires room { array_vec_len line.old + 128 ≤ 256 }
    ensures items { line.new.items ≡ line.old.items ++ flat_map (shown_byte 0x21) name.now }
    ensures len { array_vec_len line.new ≤ array_vec_len line.old + 128 }
{
    for byte in name {
        put_shown(line, 0x21, *byte);
    }
}

/// The name of a type, at most 13 bytes.
fn type_text(kind: TagKind) -> &'static str
    ensures text { result.now ≡ type_name kind }
    ensures short { length result.now ≤ 13 }
{
    match kind {
        TagKind::Empty8 => "tyEmpty8",
        TagKind::Bool8 => "tyBool8",
        TagKind::Int8 => "tyInt8",
        TagKind::BitSet64 => "tyBitSet64",
        TagKind::Color8 => "tyColor8",
        TagKind::Float8 => "tyFloat8",
        TagKind::TDateTime => "tyTDateTime",
        TagKind::Float8Array => "tyFloat8Array",
        TagKind::AnsiString => "tyAnsiString",
        TagKind::WideString => "tyWideString",
        TagKind::BinaryBlob => "tyBinaryBlob",
    }
}

/// Appends the value of a tag: at most 21 bytes.
fn put_value(line: &mut ArrayVec<u8, 256>, kind: TagKind, value: u64)
    requires { array_vec_len line.old + 21 ≤ 256 }
    ensures items { line.new.items ≡ line.old.items ++ value_text kind value }
    ensures len { array_vec_len line.new ≤ array_vec_len line.old + 21 }
{
    match kind {
        TagKind::Empty8 => put_text(line, b"-"),
        TagKind::Bool8 => put_text(line, truth_text(value).as_bytes()),
        TagKind::Int8 => put_signed(line, value.cast_signed()),
        TagKind::BitSet64 | TagKind::Color8 | TagKind::Float8 | TagKind::TDateTime => {
            put_hexadecimal(line, value, 16);
        }
        TagKind::Float8Array | TagKind::AnsiString | TagKind::WideString | TagKind::BinaryBlob => {
            put_signed(line, value.cast_signed());
            put_text(line, b" ");
        }
    }
}

fn truth_text(value: u64) -> &'static str
    ensures text { result.now ≡ value_text TagKind.Bool8 value }
    ensures short { length result.now ≤ 5 }
{
    if value == 0 { "false" } else { "true" }
}

/// Leaves in `into` exactly the line of a tag up to its body, without the newline: its name, index, type
/// and value, or the length of its body in bytes and a space. It has at most 189 bytes.
#[tactic(auto, unfolding(crate::specs::HeaderText::head_text))]
pub fn header_line(tag: &TagHead, kind: TagKind, into: &mut ArrayVec<u8, 256>)
    ensures line { into.new.items ≡ head_text tag.now kind }
    ensures short { array_vec_len into.new ≤ 189 }
{
    into.clear();
    put_text(into, b"tag ");
    put_name(into, tag.name());
    put_text(into, b" ");
    put_signed(into, tag.index as i64);
    put_text(into, b" ");
    put_text(into, type_text(kind).as_bytes());
    put_text(into, b" ");
    put_value(into, kind, tag.value);
}
