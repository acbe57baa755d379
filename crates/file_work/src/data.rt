// The command `header`: reads the data up to the end of its header, and prints it meanwhile.
ghost use Rattle.{list_out.specs.HeaderText.header_text, command_work.specs.Behaviours.AsItReads, file_work.specs.FileOutcomes.printing};

use crate::print::{HeaderPrinter, Printed};
use bench_io::{Inputs, Sink};
use command_work::{FileWork, PIECE, READ_FAULT};
use tally_base::{Failed, Fault, Slot};

/// Prints the header of a file while it is read.
#[derive(Clone, Copy)]
pub struct Printing;

impl FileWork for Printing {
    ghost work = { printing };

    ghost writing = { AsItReads header_text };

    fn read<I: Inputs, O: Sink>(&self, inputs: &mut I, out: &mut O) -> Result<(), Fault> {
        let mut buffer = [0u8; PIECE];
        let mut printer = HeaderPrinter::new();
        'pieces: loop {
            let Ok(len) = inputs.read(Slot::Data, &mut buffer) else {
                return Err(READ_FAULT);
            };
            if len == 0 {
                return Err(printer.finish());
            }
            match printer.print_piece(&buffer[..len], out) {
                Err(Failed) => return Err(Fault::WriteFault),
                Ok(Printed::More) => {}
                Ok(Printed::Done) => return Ok(()),
                Ok(Printed::Refused { fault }) => return Err(fault),
            }
        }
    }
}
