// What a trace without end prints at the end.
ghost use Rattle.std.specs.Prelude.{◌≡◌, ℕ, List, OnOk, OnErr};
ghost use Rattle.{bench_io.specs.Sinks.{Wrote, WroteShort}, long_trace.specs.{Texts.above, States.{AreFrequencies, end_text}, LongTrace.RefusesWrite}};

use crate::closed::{Closed, FREQUENCIES};
use crate::counting::Counting;
use crate::lines::{frequency_line, put_bin};
use arrayvec::ArrayVec;
use bench_io::{Sink, write_all};
use tally_base::{Failed, Fault, put_decimal, put_text};

/// Room for what is printed at the end, in bytes.
pub(crate) const END_SIZE: usize = 57_600;

/// What is after the lines of the bins before the last, by how often each count came.
pub(crate) fn end_lines(counting: &Counting, closed: &Closed) -> ArrayVec<u8, END_SIZE>
    ensures { (all : List ℕ) → AreFrequencies closed.now all → closed.now.many ≡ above all
        → result.items ≡ end_text counting.now all }
{
    let mut lines = ArrayVec::new();
    put_bin(&mut lines, counting.newest.bin.index, counting.newest.count);
    put_text(&mut lines, b"before ");
    put_decimal(&mut lines, counting.before);
    put_text(&mut lines, b"\n");
    for count in 0..FREQUENCIES {
        let line = frequency_line(count as u64, closed.frequencies[count]);
        put_text(&mut lines, line.as_slice());
    }
    put_text(&mut lines, b"above ");
    put_decimal(&mut lines, closed.many);
    put_text(&mut lines, b"\n");
    lines
}

/// Writes all the bytes.
pub(crate) fn write_or_refuse<O: Sink>(out: &mut O, bytes: &[u8]) -> Result<(), Fault>
    ensures text { OnOk result (Wrote (O.state out.old) (O.state out.new) bytes.now) }
    ensures short { OnErr result (WroteShort (O.state out.old) (O.state out.new) bytes.now) }
    ensures refuses { RefusesWrite (O.state out.old) (O.state out.new) result }
{
    match write_all(out, bytes) {
        Ok(()) => Ok(()),
        Err(Failed) => Err(Fault::WriteFault),
    }
}
