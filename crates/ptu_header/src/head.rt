// The parts of one tag.
ghost use Rattle.std.specs.Prelude.{◌≡◌};
ghost use Rattle.{ptu_definitions.specs.TagList.name_of, ptu_header.specs.Kinds.IsHead};

use byteorder::{ByteOrder, LittleEndian};

/// The 48 bytes of one tag of PicoQuant's unified TTTR format. All numbers in them are
/// little-endian.
#[derive(Clone, Copy, PartialEq, Eq)]
pub struct TagHead {
    /// Bytes 0 to 31: the identifier, padded with NUL.
    pub ident: [u8; 32],
    /// Bytes 32 to 35: the place in an array, or -1 where the tag is no element of one.
    pub index: i32,
    /// Bytes 36 to 39: the code of the tag's type.
    pub code: u32,
    /// Bytes 40 to 47: the value, or the length of the body in bytes where the type has one.
    pub value: u64,
}

impl TagHead {
    /// The parts of a tag. Every 48 bytes have them, whatever the type code is.
    pub fn read(bytes: &[u8; 48]) -> TagHead
        ensures { IsHead bytes.now result }
    {
        let bytes = bytes.as_slice();
        let mut ident = [0; 32];
        ident.copy_from_slice(bytes.split_at(32).0);
        let index = LittleEndian::read_u32(bytes.split_at(32).1);
        let code = LittleEndian::read_u32(bytes.split_at(36).1);
        let value = LittleEndian::read_u64(bytes.split_at(40).1);
        TagHead {
            ident,
            index: index.cast_signed(),
            code,
            value,
        }
    }

    /// The identifier up to its first NUL, or all of it.
    pub fn name(&self) -> &[u8]
        ensures { result.now ≡ name_of self.now.ident }
    {
        let mut len = 0;
        'bytes: while len < 32 && self.ident[len] != 0 {
            len += 1;
        }
        &self.ident[..len]
    }
}
