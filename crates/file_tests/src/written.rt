// What is written of single photons: the tests of `record_write` and of `long_trace`.
ghost use Rattle.std.specs.Prelude.{◌≡◌};
ghost use Rattle.tally_base.specs.declared.event.EventKind.TheVariants.{Photon};

use crate::checks::holds;
use bench_io::MemorySink;
use long_trace::LongTrace;
use record_write::Picker;
use std::test::Fail;
use tally_base::{Event, EventKind, Fault, Mode, TraceSet};

/// The photon of a record, with its input and its times.
fn photon(place: u64, input: u8, dtime: u16, time: u64) -> Event
    ensures { result ≡ record { place = place; kind = Photon input dtime; time = time } }
{
    Event {
        place,
        kind: EventKind::Photon { input, dtime },
        time,
    }
}

const HEADER: usize = 112;

/// The greatest time after whose unit no wrap is too great, in T2.
const LAST: u64 = (1 << 62) + (1 << 25) - 1;

#[test]
fn the_last_time_is_written(rt: HostRuntime) -> Result<(), Fail> {
    let alloc = rt.alloc();
    let mut sink = MemorySink::new(alloc, 20_000, Vec::new(alloc))?;
    let mut picker = Picker::new(Mode::T2);
    holds(picker.start(&mut sink).is_ok(), 1)?;
    holds(picker.photon(&photon(9, 1, 0, LAST), &mut sink).is_ok(), 2)?;
    holds(sink.bytes().len() == 16_504, 3)?;
    let mut short = MemorySink::new(alloc, 20_000, Vec::new(alloc))?;
    let mut refusing = Picker::new(Mode::T2);
    holds(refusing.start(&mut short).is_ok(), 4)?;
    let late = refusing.photon(&photon(10, 1, 0, LAST + 1), &mut short);
    holds(late == Err(Fault::PickTime { place: 10 }), 5)?;
    holds(short.bytes().len() == HEADER, 6)?;
    Ok(())
}

#[test]
fn a_failed_write_leaves_a_front(rt: HostRuntime) -> Result<(), Fail> {
    let alloc = rt.alloc();
    let mut sink = MemorySink::new(alloc, HEADER + 6, Vec::new(alloc))?;
    let mut picker = Picker::new(Mode::T2);
    holds(picker.start(&mut sink).is_ok(), 1)?;
    let cut = picker.photon(&photon(1, 0, 0, 7 + (1 << 25)), &mut sink);
    holds(cut == Err(Fault::WriteFault), 2)?;
    holds(sink.bytes().ends_with(&[1, 0, 0, 0xFE, 7, 0]), 3)?;
    Ok(())
}

/// The last bin of all.
#[test]
fn a_trace_of_the_greatest_time(rt: HostRuntime) -> Result<(), Fail> {
    let alloc = rt.alloc();
    let mut sink = MemorySink::new(alloc, 200, Vec::new(alloc))?;
    let mut trace = LongTrace::new(&TraceSet {
        group: 1,
        origin: 0,
        width: 1,
        bins: 1,
    });
    holds(trace.start(&mut sink).is_ok(), 1)?;
    holds(
        trace
            .event(&photon(1, 1, 0, u64::MAX), 1, &mut sink)
            .is_ok(),
        2,
    )?;
    holds(trace.finish(&mut sink).is_ok(), 3)?;
    let written = b"trace 1 origin 0 width 1\n18446744073709551615 1\nbefore 0\n\
        frequency 0 18446744073709551615\nfrequency 1 1\nabove 0\n";
    holds(sink.bytes() == written.as_slice(), 4)?;
    Ok(())
}
