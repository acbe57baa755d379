// Reads the data up to the end of its header.
ghost use Rattle.std.specs.Prelude.{List, ℕ, IfErr, IfOk};
ghost use Rattle.{tally_base.specs.{declared.slot.Slot.TheVariants.Data, Faults.fault_in}, bench_io.specs.{Given.Consumes, Inputs.OnlyReads}, command_work.specs.Outcomes.{InputsOnce, IsCut}};
ghost use Rattle.command_work.specs.Pieces.{ReadReason, IsReady, StopsSoon, EndsIn, HeaderEnds};

use crate::header::{Fed, feed_piece};
use bench_io::Inputs;
use ptu_header::HeaderReader;
use tally_base::{Fault, Header, Slot};

/// The bytes that one read takes at most.
pub const PIECE: usize = 8192;

/// The fault of a read of the data that failed.
pub const READ_FAULT: Fault = Fault::ReadFault { slot: Slot::Data };

/// A header, and the bytes after it that were read with its last ones: those of the buffer from
/// `used` to `len`.
#[derive(Clone, Copy)]
pub struct FoundHeader {
    pub header: Header,
    pub used: usize,
    pub len: usize,
}

/// Reads the data up to the end of its header.
pub fn read_header<I: Inputs>(inputs: &mut I, buffer: &mut [u8]) -> Result<FoundHeader, Fault>
    requires { IsReady (I.state inputs.old) buffer.old }
    ensures reads { OnlyReads Data (I.state inputs.old) (I.state inputs.new) }
    ensures reason { IfErr result (ReadReason (I.state inputs.old) (I.state inputs.new)) }
    ensures once { InputsOnce (I.state inputs.old) (I.state inputs.new) (fault_in result) }
    ensures part { IfOk result (EndsIn buffer.new) }
    ensures answer { (taken : List ℕ)
        × Consumes ((I.state inputs.old).given Data) ((I.state inputs.new).given Data) taken
        × HeaderEnds buffer.new taken ((I.state inputs.new).given Data) result }
    ensures stops { StopsSoon IsCut ((I.state inputs.old).given Data)
        ((I.state inputs.new).given Data) result }
{
    let mut reader = HeaderReader::new();
    'pieces: loop {
        let Ok(len) = inputs.read(Slot::Data, buffer) else {
            return Err(READ_FAULT);
        };
        if len == 0 {
            return Err(reader.finish());
        }
        match feed_piece(&mut reader, &buffer[..len]) {
            Fed::More => {}
            Fed::Done { used, header } => return Ok(FoundHeader { header, used, len }),
            Fed::Refused { fault } => return Err(fault),
        }
    }
}
