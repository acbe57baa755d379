// What a command makes of the bytes after a header, and the loop that reads a file.
ghost use Rattle.std.specs.Prelude.{◌≡◌, ◌+◌, ◌≤◌, [], List, ℕ, ◌++◌, length, IfOk, OnOk, None, true};
ghost use Rattle.{tally_base.specs.declared.{slot.Slot.TheVariants.Data, header.Header.Header}, bench_io.specs.Inputs.OnlyReads, command_work.specs.{Behaviours.{Work, Writing}, Endings.span}};
ghost use Rattle.command_work.specs.{RecordsWork.{RecordsWork, IsText, Opens, Suits, WritesPiece, WritesEnd}, Works.LeavesWork};

use crate::data::{PIECE, READ_FAULT, read_header};
use bench_io::{Inputs, Sink};
use tally_base::{Fault, Header, Slot};

/// Takes bytes in pieces, writes a text meanwhile, and more of it at their end.
pub trait Reader: Drop {
    /// What it makes of bytes. No call changes that.
    ghost tells: { Self → RecordsWork };

    /// It was given these bytes and refused none.
    ghost stands: { Self → List ℕ → Type 0 };

    /// How many bytes it takes at most.
    ghost room: { Self → ℕ };

    /// Takes the next bytes, and writes what they add to the text.
    fn piece<O: Sink>(&mut self, piece: &[u8], out: &mut O) -> Result<(), Fault>
        requires { (bytes : List ℕ) × stands self.old bytes }
        ensures same { tells self.new ≡ tells self.old }
        ensures writes { (bytes : List ℕ) → stands self.old bytes
            → WritesPiece (tells self.old) bytes piece.now (O.state out.old) (O.state out.new) result }
        ensures takes { OnOk result ((bytes : List ℕ) → stands self.old bytes
            → stands self.new (bytes ++ piece.now)) }
        ensures room { OnOk result (room self.new + length piece.now ≤ room self.old) };

    /// Writes the end of the text.
    fn end<O: Sink>(self, out: &mut O) -> Result<(), Fault>
        requires { (bytes : List ℕ) × stands self bytes }
        ensures { (bytes : List ℕ) → stands self bytes
            → WritesEnd (tells self) bytes (O.state out.old) (O.state out.new) result };

    ghost law: { (r : Self) → IsText (tells r) };

    /// What it stands for is not refused.
    ghost clear: { (r : Self) (bytes : List ℕ) → stands r bytes → (tells r).refuses bytes ≡ None };
}

/// Opens a reader for the bytes after a header.
pub trait Job {
    type Reader: Reader;

    ghost work: { Self → Work };

    ghost writing: { Self → Writing (List ℕ → List ℕ) };

    /// The bytes of FILE at which memory may be refused.
    ghost wanting: { Self → List ℕ → Type 0 };

    /// What it makes of the bytes after this header. Where the header is refused, all bytes are.
    ghost tells: { Self → Header → RecordsWork };

    /// Why it may be refused memory after this header.
    ghost wants: { Self → Header → Type 0 };

    /// Writes what stands in front, and gives a reader that was given nothing.
    fn open<O: Sink>(&self, header: &Header, out: &mut O) -> Result<Self::Reader, Fault>
        ensures opens { Opens (tells self.now header.now) (wants self.now header.now)
            (O.state out.old) (O.state out.new) result }
        ensures tells { IfOk result (λ r. Self.Reader.tells r ≡ tells self.now header.now) }
        ensures stands { IfOk result (λ r. Self.Reader.stands r []) };

    ghost law: { (job : Self)
        → Suits (work job) (writing job) (wanting job) (tells job) (wants job) };
}

/// Does a job with all bytes of FILE: its header, and those after it in the pieces that reads give.
pub fn read_file<J: Job, I: Inputs, O: Sink>(
    job: &J,
    inputs: &mut I,
    out: &mut O,
) -> Result<(), Fault>
    requires { (I.state inputs.old).opened Data ≡ true }
    ensures reads { OnlyReads Data (I.state inputs.old) (I.state inputs.new) }
    ensures leaves { LeavesWork (J.writing job.now) (J.wanting job.now) (J.work job.now)
        (span I.Inputs O.Sink inputs.old inputs.new out.old out.new) result }
{
    let mut buffer = [0u8; PIECE];
    let found = read_header(inputs, &mut buffer)?;
    let mut reader = job.open(&found.header, out)?;
    let mut used = found.used;
    let mut len = found.len;
    'pieces: loop {
        reader.piece(&buffer[used..len], out)?;
        let Ok(more) = inputs.read(Slot::Data, &mut buffer) else {
            return Err(READ_FAULT);
        };
        if more == 0 {
            return reader.end(out);
        }
        used = 0;
        len = more;
    }
}
