// The body of a tag, byte by byte.
ghost use Rattle.std.specs.Prelude.{◌≡◌, ◌++◌, ◌∷◌, [], List, ℕ};
ghost use Rattle.{ptu_header.specs.declared.kind.TagKind.TagKind, list_out.specs.HeaderText.body_text};

use crate::head::put_shown;
use arrayvec::ArrayVec;
use ptu_header::TagKind;
use tally_base::put_hexadecimal;

/// How the next byte of a body is printed.
#[derive(Clone, Copy)]
enum Printing {
    /// As two digits.
    Digits,
    /// As a byte of a text.
    Text,
    /// Not at all: the text has ended with a NUL.
    Nothing,
}

/// What the body of a tag is printed as, byte by byte: a text up to its first NUL, and any other body as
/// two hexadecimal digits a byte.
#[derive(Clone, Copy)]
pub struct BodyText {
    printing: Printing,
}

impl BodyText {
    ghost use Rattle.list_out.specs.Lines.{HasPut};

    /// The text of a body of which no byte was put yet.
    pub fn new(kind: TagKind) -> BodyText
        ensures { HasPut result kind [] }
    {
        let printing = match kind {
            TagKind::AnsiString => Printing::Text,
            _ => Printing::Digits,
        };
        BodyText { printing }
    }

    /// What the next byte of the body adds to its text: at most 4 bytes.
    pub fn put(&mut self, byte: u8) -> ArrayVec<u8, 4>
        ensures taken { (kind : TagKind) (body : List ℕ) → HasPut self.old kind body → HasPut self.new kind (body ++ byte ∷ []) }
        ensures text { (kind : TagKind) (body : List ℕ) → HasPut self.old kind body
            → body_text kind (body ++ byte ∷ []) ≡ body_text kind body ++ result.items }
    {
        let mut text = ArrayVec::new();
        match self.printing {
            Printing::Digits => put_hexadecimal(&mut text, byte as u64, 2),
            Printing::Text => {
                if byte == 0 {
                    self.printing = Printing::Nothing;
                } else {
                    put_shown(&mut text, 0x20, byte);
                }
            }
            Printing::Nothing => {}
        }
        text
    }
}
