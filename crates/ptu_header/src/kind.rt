// The types of tags.
ghost use Rattle.std.specs.Prelude.{◌≡◌, IfSome, IsSome, ◌↔◌, true};
ghost use Rattle.{ptu_definitions.specs.TagList.{is_known, has_body}, ptu_header.specs.Kinds.code_of};

/// The types of tags in PicoQuant's unified TTTR format, there named tyEmpty8, tyBool8 and so on.
/// A tag of one of the last four has a body after it, and its value is the body's length in bytes.
#[derive(Clone, Copy, PartialEq, Eq)]
pub enum TagKind {
    /// No value.
    Empty8,
    /// A truth value: false where all 64 bits are 0.
    Bool8,
    /// A signed number.
    Int8,
    /// 64 bits.
    BitSet64,
    /// A colour.
    Color8,
    /// A floating-point number.
    Float8,
    /// A date and time, as a floating-point number of days.
    TDateTime,
    /// Floating-point numbers, in the body.
    Float8Array,
    /// A text, in the body.
    AnsiString,
    /// A text of wide characters, in the body.
    WideString,
    /// Any bytes, in the body.
    BinaryBlob,
}

impl TagKind {
    /// The type of a code. None exactly for a code that is no type's.
    #[tactic(auto, unfolding(ptu_definitions::specs::TagList::is_known, ptu_definitions::specs::TagList::has_body))]
    pub fn of(code: u32) -> Option<TagKind>
        ensures known { IsSome result ↔ (is_known code ≡ true) }
        ensures code { IfSome result (λ kind. code_of kind ≡ code) }
    {
        match code {
            0xFFFF_0008 => Some(TagKind::Empty8),
            0x0000_0008 => Some(TagKind::Bool8),
            0x1000_0008 => Some(TagKind::Int8),
            0x1100_0008 => Some(TagKind::BitSet64),
            0x1200_0008 => Some(TagKind::Color8),
            0x2000_0008 => Some(TagKind::Float8),
            0x2100_0008 => Some(TagKind::TDateTime),
            0x2001_FFFF => Some(TagKind::Float8Array),
            0x4001_FFFF => Some(TagKind::AnsiString),
            0x4002_FFFF => Some(TagKind::WideString),
            0xFFFF_FFFF => Some(TagKind::BinaryBlob),
            _ => None,
        }
    }

    /// Whether a body follows the tag. Its value is the body's length then.
    #[tactic(auto, unfolding(ptu_definitions::specs::TagList::has_body))]
    pub fn has_body(&self) -> bool
        ensures { result ≡ has_body (code_of self.now) }
    {
        match self {
            TagKind::Empty8
            | TagKind::Bool8
            | TagKind::Int8
            | TagKind::BitSet64
            | TagKind::Color8
            | TagKind::Float8
            | TagKind::TDateTime => false,
            TagKind::Float8Array
            | TagKind::AnsiString
            | TagKind::WideString
            | TagKind::BinaryBlob => true,
        }
    }
}
