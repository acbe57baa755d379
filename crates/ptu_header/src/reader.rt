// A reader that carries at most one tag, and the number of body bytes still to come.
ghost use Rattle.std.specs.Prelude.{◌≡◌, ◌+◌, ◌*◌, ◌^◌, ◌≤◌, ◌↔◌, [], IsTrue, List, ℕ, length, true, false, Err, take, codes};
ghost use Rattle.{arrayvec.specs.ArrayVec.array_vec_len, ptu_definitions.specs.{Endings.IsOtherFile, TagList.{code_in, body_size}, Headers.header_answer}, ptu_header.specs.Kinds.{IsHead, code_of}};
ghost use Rattle.{ptu_header.specs.Phases.{phase_after, outside_at}, tally_base.specs.Faults.is_outside};
ghost use Rattle.ptu_header.specs.declared.reader.Phase.TheVariants as Phase;

use crate::fields::{header, with};
use crate::fill::{eight, fill, same};
use crate::head::TagHead;
use crate::kind::TagKind;
use crate::step::HeaderStep;
use arrayvec::ArrayVec;
use ptu_definitions::Found;
use tally_base::Fault;

/// The most bytes of a header, from the first byte of the file to the end of `Header_End` and its
/// body.
pub const HEADER_LIMIT: u64 = 1 << 24;

/// What comes next.
#[derive(Clone, Copy)]
pub enum Phase {
    /// The 16 bytes of magic and version.
    Preamble,
    /// The 48 bytes of a tag.
    Tag,
    /// So many bytes of the body of the tag, which may be `Header_End`.
    Body { left: u64, last: bool },
    /// Nothing: the header is whole.
    End,
    /// Nothing: the header is refused.
    Refused { fault: Fault },
}

/// Reads a header step by step. It never takes more than `HEADER_LIMIT` bytes. Once it has answered
/// Done or a refusal, it answers the same to each piece and isn't changed.
///
/// The lists and arrays that it keeps: `carried`, of at most 48 bytes, and the 8 bytes of `version`.
#[derive(Drop)]
pub struct HeaderReader {
    phase: Phase,
    carried: ArrayVec<u8, 48>,
    taken: u64,
    tags: u32,
    found: Found,
    version: [u8; 8],
    ghost first: { phase ≡ Phase.Preamble → taken ≡ array_vec_len carried },
    ghost short: { phase ≡ Phase.Preamble → array_vec_len carried ≤ 16 },
    ghost inside: { outside_at phase ≡ false },
    ghost limit: { taken ≤ 2 ^ 24 },
    ghost sizes: { 48 * tags + array_vec_len carried ≤ taken },
}

impl HeaderReader {
    ghost use Rattle.ptu_header.specs.ReadHeader.{HasRead, Steps, Feeds, TakesTag, IsEnd, IsInside, Takes, IsDue, Repeats, bytes_taken, is_open};

    /// A reader that has taken no byte.
    #[tactic(auto, unfolding(ptu_definitions::specs::Fields::found_in))]
    pub fn new() -> HeaderReader
        ensures start { HasRead result [] }
        ensures is_open { is_open result ≡ true }
        ensures taken { bytes_taken result ≡ 0 }
    {
        HeaderReader {
            phase: Phase::Preamble,
            carried: ArrayVec::new(),
            taken: 0,
            tags: 0,
            found: Found {
                record_type: None,
                count: None,
                global: None,
                resolution: None,
            },
            version: [0; 8],
        }
    }

    /// Takes bytes of the piece, up to the next step. A piece may be empty.
    #[tactic(auto, using(crate::proofs::ReadHeader::end_inside))]
    pub fn feed(&mut self, piece: &[u8]) -> HeaderStep
        ensures step { (bytes : List ℕ) → HasRead self.old bytes → Steps bytes piece.now self.new result }
        ensures room { Takes (bytes_taken self.old) (bytes_taken self.new) (length piece.now) result }
        ensures limit { bytes_taken self.new ≤ 2 ^ 24 }
        ensures due { (bytes : List ℕ) → HasRead self.old bytes → IsDue (header_answer bytes) result }
        ensures ended { IsEnd self.new result }
        ensures inside { IsInside result }
        ensures repeated { Repeats self.old self.new result }
    {
        match self.phase {
            Phase::Preamble => self.preamble(piece),
            Phase::Tag => self.tag(piece),
            Phase::Body { left, last } => self.body(piece, left, last),
            Phase::End => match header(self.version, &self.found) {
                Ok(header) => HeaderStep::Done { used: 0, header },
                Err(fault) => self.refuse(fault),
            },
            Phase::Refused { fault } => HeaderStep::Refused(fault),
        }
    }

    fn preamble(&mut self, piece: &[u8]) -> HeaderStep
        requires { self.old.phase ≡ Phase.Preamble }
        ensures { Feeds self.old piece.now self.new result }
    {
        let room = 16 - self.carried.len();
        let used = fill(&mut self.carried, piece, room);
        self.taken += used as u64;
        if is_other(self.carried.as_slice()) {
            return self.refuse(Fault::BadMagic);
        }
        if self.carried.len() < 16 {
            return HeaderStep::More;
        }
        let magic = eight(self.carried.as_slice());
        let version = eight(self.carried.as_slice().split_at(8).1);
        self.carried.clear();
        self.version = version;
        self.phase = Phase::Tag;
        HeaderStep::Preamble {
            used,
            magic,
            version,
        }
    }

    fn tag(&mut self, piece: &[u8]) -> HeaderStep
        requires { self.old.phase ≡ Phase.Tag }
        ensures { Feeds self.old piece.now self.new result }
    {
        let room = (48 - self.carried.len()).min((HEADER_LIMIT - self.taken) as usize);
        let used = fill(&mut self.carried, piece, room);
        self.taken += used as u64;
        if self.carried.len() == 48 {
            return self.whole(used);
        }
        if self.is_full() {
            return self.refuse(Fault::HeaderLimit);
        }
        HeaderStep::More
    }

    // Whether as many bytes were taken as a header may have.
    fn is_full(&self) -> bool
        ensures { IsTrue result ↔ (bytes_taken self.now ≡ 2 ^ 24) }
    {
        self.taken == HEADER_LIMIT
    }

    fn refuse(&mut self, fault: Fault) -> HeaderStep
        requires { is_outside fault ≡ false }
        ensures step { result ≡ HeaderStep.Refused fault }
        ensures phase { self.new.phase ≡ Phase.Refused fault }
        ensures taken { self.new.taken ≡ self.old.taken }
    {
        self.carried.clear();
        self.phase = Phase::Refused { fault };
        HeaderStep::Refused(fault)
    }

    // The carried bytes are a whole tag.
    fn whole(&mut self, used: usize) -> HeaderStep
        requires phase { self.old.phase ≡ Phase.Tag }
        requires whole { array_vec_len self.old.carried ≡ 48 }
        ensures { TakesTag self.old self.new used result }
    {
        let head = head_of(self.carried.as_slice());
        self.carried.clear();
        let number = self.tags + 1;
        let Some(kind) = TagKind::of(head.code) else {
            return self.refuse(Fault::TagType {
                tag: number,
                code: head.code,
            });
        };
        let left = body_len(&head, kind);
        if left >= 1 << 63 {
            return self.refuse(Fault::TagLength {
                tag: number,
                length: left.cast_signed(),
            });
        }
        self.tags = number;
        self.found = with(&self.found, &head);
        self.phase = after(left, same(head.name(), b"Header_End"));
        HeaderStep::Tag {
            used,
            tag: head,
            kind,
        }
    }

    fn body(&mut self, piece: &[u8], left: u64, last: bool) -> HeaderStep
        requires { self.old.phase ≡ Phase.Body left last }
        ensures { Feeds self.old piece.now self.new result }
    {
        if self.is_full() {
            return self.refuse(Fault::HeaderLimit);
        }
        if piece.is_empty() {
            return HeaderStep::More;
        }
        let used = left.min(HEADER_LIMIT - self.taken).min(piece.len() as u64);
        self.taken += used;
        self.phase = after(left - used, last);
        HeaderStep::Body {
            used: used as usize,
            last: used == left,
        }
    }

    /// The fault of a file that ends before its header does: TruncatedHeader, with the number of
    /// bytes taken. It may be called before the first feed and after More.
    pub fn finish(self) -> Fault
        requires { is_open self ≡ true }
        ensures answer { (bytes : List ℕ) → HasRead self bytes → header_answer bytes ≡ Err result }
        ensures bytes { result ≡ Fault.TruncatedHeader (bytes_taken self) }
        ensures inside { is_outside result ≡ false }
    {
        Fault::TruncatedHeader { bytes: self.taken }
    }
}

// The bytes of a file that is none of this format.
fn is_other(bytes: &[u8]) -> bool
    ensures yes { result ≡ true → IsOtherFile bytes.now }
    ensures no { result ≡ false → 6 ≤ length bytes.now → take 6 bytes.now ≡ codes "PQTTTR" }
{
    if bytes.len() < 6 {
        return false;
    }
    !same(bytes.split_at(6).0, b"PQTTTR")
}

fn head_of(bytes: &[u8]) -> TagHead
    requires { length bytes.now ≡ 48 }
    ensures { IsHead bytes.now result }
{
    let mut tag = [0; 48];
    tag.copy_from_slice(bytes);
    TagHead::read(&tag)
}

// How many bytes follow a tag. A length below 0 is 2^63 or more here.
fn body_len(head: &TagHead, kind: TagKind) -> u64
    ensures { (tag : List ℕ) → IsHead tag head.now → code_of kind ≡ code_in tag → result ≡ body_size tag }
{
    if kind.has_body() { head.value } else { 0 }
}

fn after(left: u64, last: bool) -> Phase
    ensures { result ≡ phase_after left last }
{
    if left > 0 {
        return Phase::Body { left, last };
    }
    if last { Phase::End } else { Phase::Tag }
}
