// The lines of `count`.
ghost use Rattle.std.specs.Prelude.{◌≡◌, IfErr, OnOk, OnErr};
ghost use Rattle.{bench_io.specs.Sinks.{Wrote, WroteShort}, file_work.specs.FileOutcomes.counts_text};

use arrayvec::ArrayVec;
use bench_io::{Sink, write_all};
use list_out::{put_announced, put_count, put_line};
use record_layout::KindCounts;
use tally_base::{Fault, Header};

/// Leaves the seven lines of `count` in `into`.
#[tactic(auto, unfolding(crate::specs::FileOutcomes::counts_text))]
fn put_counts(header: &Header, counts: &KindCounts, into: &mut ArrayVec<u8, 256>)
    ensures { into.new.items ≡ counts_text header.now counts.now }
{
    into.clear();
    put_line(into, b"type", header.record_type.name().as_bytes());
    put_announced(into, header.count);
    put_count(into, b"records", counts.records);
    put_count(into, b"photons", counts.photons);
    put_count(into, b"markers", counts.markers);
    put_count(into, b"wraps", counts.wraps);
    put_count(into, b"reserved", counts.reserved);
}

/// Writes the seven lines of `count`: the record type, the announced number of records, the number
/// of records, and how many are of each kind. Refuses with `WriteFault` where a write fails; then a
/// beginning of the lines was written.
pub fn write_counts<O: Sink>(header: &Header, counts: &KindCounts, out: &mut O) -> Result<(), Fault>
    ensures text { OnOk result (Wrote (O.state out.old) (O.state out.new)
        (counts_text header.now counts.now)) }
    ensures short { OnErr result (WroteShort (O.state out.old) (O.state out.new)
        (counts_text header.now counts.now)) }
    ensures fault { IfErr result (λ fault. fault ≡ Fault.WriteFault) }
{
    let mut text = ArrayVec::<u8, 256>::new();
    put_counts(header, counts, &mut text);
    match write_all(out, text.as_slice()) {
        Ok(()) => Ok(()),
        Err(_) => Err(Fault::WriteFault),
    }
}
