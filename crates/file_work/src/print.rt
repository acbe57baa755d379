// Prints a header while it is read.
ghost use Rattle.std.specs.Prelude.{◌≡◌, ◌≤◌, ◌^◌, ◌++◌, [], List, ℕ, true, false, IfOk, OnOk, OnErr, Err};
ghost use Rattle.{tally_base.specs.Faults.is_outside, ptu_definitions.specs.{Headers.header_answer, TagList.code_in}, bench_io.specs.Sinks.{CountsFault, WroteShort, PassesOn}};
ghost use Rattle.{ptu_header.specs.{declared.kind.TagKind.TagKind, Kinds.{IsHead, code_of}, ReadHeader.{bytes_taken, is_open}}, list_out.specs.{HeaderText.{head_text, bare_end}, Lines.HasPut}};
ghost use Rattle.file_work.specs.BodyPieces.{PutsBody, CutsBody, end_line};

use arrayvec::ArrayVec;
use bench_io::{OutBuffer, Sink};
use list_out::{BodyText, header_line, preamble_lines};
use ptu_header::{HeaderReader, HeaderStep, TagHead, TagKind};
use tally_base::{Failed, Fault};

/// A header that is printed as far as it was read.
#[derive(Drop)]
pub(crate) struct HeaderPrinter {
    reader: HeaderReader,
    body: BodyText,
}

/// How a piece leaves a printer.
#[derive(Clone, Copy)]
pub(crate) enum Printed {
    /// The printer has taken the whole piece and goes on.
    More,
    /// The header has ended.
    Done,
    /// The bytes are no header.
    Refused { fault: Fault },
}

/// The line of a tag, with its newline where no body follows.
fn tag_line(tag: &TagHead, kind: TagKind) -> ArrayVec<u8, 256>
    ensures { (bytes : List ℕ) → IsHead bytes tag.now → code_of kind ≡ code_in bytes
        → result.items ≡ head_text tag.now kind ++ bare_end bytes }
{
    let mut line = ArrayVec::new();
    header_line(tag, kind, &mut line);
    if !kind.has_body() || tag.value == 0 {
        line.push(b'\n');
    }
    line
}

/// Puts what bytes of a body are printed as.
fn put_body<O: Sink>(
    text: &mut BodyText,
    bytes: &[u8],
    block: &mut OutBuffer,
    out: &mut O,
) -> Result<(), Failed>
    ensures taken { OnOk result ((kind : TagKind) (part : List ℕ) → HasPut text.old kind part
        → HasPut text.new kind (part ++ bytes.now)) }
    ensures all { OnOk result ((kind : TagKind) (part : List ℕ) → HasPut text.old kind part
        → PutsBody kind part bytes.now (O.state out.old)
        (O.state out.new) block.old block.new) }
    ensures short { OnErr result ((kind : TagKind) (part : List ℕ) → HasPut text.old kind part
        → CutsBody kind part bytes.now (O.state out.old) (O.state out.new) block.old) }
    ensures cause { CountsFault (O.state out.old) (O.state out.new) result }
{
    for byte in bytes {
        block.put(out, text.put(*byte).as_slice())?;
    }
    Ok(())
}

/// Puts the newline after the last byte of a body.
fn put_end<O: Sink>(last: bool, block: &mut OutBuffer, out: &mut O) -> Result<(), Failed>
    ensures all { OnOk result (PassesOn (O.state out.old) (O.state out.new)
        (block.old ++ end_line last) block.new) }
    ensures short { OnErr result (WroteShort (O.state out.old) (O.state out.new)
        (block.old ++ end_line last)) }
{
    let end: &[u8] = if last { b"\n" } else { b"" };
    block.put(out, end)
}

impl HeaderPrinter {
    ghost use Rattle.file_work.specs.BodyPieces.{Prints, Leaves, PutsHeader, CutsHeader, AppendsHeader, EndsPiece};

    /// A printer that was given no bytes.
    pub(crate) fn new() -> HeaderPrinter
        ensures start { Prints result [] }
        ensures is_open { is_open result.reader ≡ true }
    {
        HeaderPrinter {
            reader: HeaderReader::new(),
            body: BodyText::new(TagKind::Empty8),
        }
    }

    /// Puts what a piece shows of the header after what a block holds.
    fn put_piece<O: Sink>(
        &mut self,
        piece: &[u8],
        block: &mut OutBuffer,
        out: &mut O,
    ) -> Result<Printed, Failed>
        requires { (bytes : List ℕ) × Prints self.old bytes }
        ensures leaves { IfOk result (λ printed. (bytes : List ℕ) → Prints self.old bytes
            → Leaves bytes piece.now self.new printed) }
        ensures text { OnOk result ((bytes : List ℕ) → Prints self.old bytes
            → PutsHeader bytes piece.now (O.state out.old) (O.state out.new)
            block.old block.new) }
        ensures short { OnErr result ((bytes : List ℕ) → Prints self.old bytes
            → CutsHeader bytes piece.now (O.state out.old) (O.state out.new) block.old) }
        ensures ends { IfOk result (EndsPiece self.old self.new piece.now) }
        ensures limit { IfOk result (λ printed. bytes_taken self.new.reader ≤ 2 ^ 24) }
        ensures cause { CountsFault (O.state out.old) (O.state out.new) result }
    {
        let mut used = 0;
        'steps: loop {
            let left = piece.split_at(used).1;
            match self.reader.feed(left) {
                HeaderStep::More => return Ok(Printed::More),
                HeaderStep::Preamble {
                    used: more,
                    magic,
                    version,
                } => {
                    let mut lines = ArrayVec::new();
                    preamble_lines(&magic, &version, &mut lines);
                    block.put(out, lines.as_slice())?;
                    used += more;
                }
                HeaderStep::Tag {
                    used: more,
                    tag,
                    kind,
                } => {
                    self.body = BodyText::new(kind);
                    block.put(out, tag_line(&tag, kind).as_slice())?;
                    used += more;
                }
                HeaderStep::Body { used: more, last } => {
                    put_body(&mut self.body, left.split_at(more).0, block, out)?;
                    put_end(last, block, out)?;
                    used += more;
                }
                HeaderStep::Done { .. } => return Ok(Printed::Done),
                HeaderStep::Refused(fault) => return Ok(Printed::Refused { fault }),
            }
        }
    }

    /// Prints what a piece shows of the header.
    pub(crate) fn print_piece<O: Sink>(
        &mut self,
        piece: &[u8],
        out: &mut O,
    ) -> Result<Printed, Failed>
        requires { (bytes : List ℕ) × Prints self.old bytes }
        ensures leaves { IfOk result (λ printed. (bytes : List ℕ) → Prints self.old bytes
            → Leaves bytes piece.now self.new printed) }
        ensures text { OnOk result ((bytes : List ℕ) → Prints self.old bytes
            → AppendsHeader bytes piece.now (O.state out.old) (O.state out.new)) }
        ensures short { OnErr result ((bytes : List ℕ) → Prints self.old bytes
            → CutsHeader bytes piece.now (O.state out.old) (O.state out.new) []) }
        ensures ends { IfOk result (EndsPiece self.old self.new piece.now) }
        ensures limit { IfOk result (λ printed. bytes_taken self.new.reader ≤ 2 ^ 24) }
        ensures cause { CountsFault (O.state out.old) (O.state out.new) result }
    {
        let mut block = OutBuffer::new();
        let printed = self.put_piece(piece, &mut block, out)?;
        block.flush(out)?;
        Ok(printed)
    }

    /// The fault of a file that ends before its header does.
    pub(crate) fn finish(self) -> Fault
        requires { is_open self.reader ≡ true }
        ensures answer { (bytes : List ℕ) → Prints self bytes → header_answer bytes ≡ Err result }
        ensures inside { is_outside result ≡ false }
    {
        self.reader.finish()
    }
}
