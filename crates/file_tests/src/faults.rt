// The lines of faults that whole runs don't show, and record types: the tests of `tally_base`.
use crate::checks::holds;
use arrayvec::ArrayVec;
use std::test::Fail;
use tally_base::{Fault, Mode, PartKind, RecordType, fault_line};

/// A fault has this status and this line.
fn tells(rt: &HostRuntime, status: u8, fault: Fault, line: &str) -> Result<(), Fail> {
    let mut into = ArrayVec::new();
    fault_line(&fault, &mut into);
    let wanted = format!(in rt.alloc(); "ptu: {line}\n")?;
    if into.as_slice() == wanted.as_bytes() && fault.status() == status {
        return Ok(());
    }
    Err(Fail::new(line))
}

#[test]
fn lines_of_faults_of_plans(rt: HostRuntime) -> Result<(), Fail> {
    use Mode::*;
    use PartKind::*;
    tells(&rt, 5, Fault::OutOfMemory, "out of memory")?;
    let (rule, index) = (22, 65535);
    let broken = Fault::PlanRule { rule, index };
    tells(&rt, 8, broken, "plan breaks rule 22 at 65535")?;
    for (kind, index, mode, line) in [
        (Gate, 64, T2, "gate 64 does not suit T2"),
        (Shift, 65, T2, "shift 65 does not suit T2"),
        (StartStop, 2, T3, "startstop 2 does not suit T3"),
        (Coincidence, 16, T3, "coincidence 16 does not suit T3"),
        (Image, 8, T2, "image 8 does not suit T2"),
        (Cube, 2, T2, "cube 2 does not suit T2"),
    ] {
        tells(&rt, 9, Fault::PlanMode { kind, index, mode }, line)?;
    }
    Ok(())
}

#[test]
fn lines_of_faults_of_headers(rt: HostRuntime) -> Result<(), Fail> {
    for (tag, code, line) in [
        (3, 0x2001_00AF, "tag 3 has type 200100AF"),
        (u32::MAX, 0, "tag 4294967295 has type 00000000"),
    ] {
        tells(&rt, 12, Fault::TagType { tag, code }, line)?;
    }
    let (tag, length) = (2, i64::MIN);
    let negative = Fault::TagLength { tag, length };
    tells(&rt, 13, negative, "tag 2 has length -9223372036854775808")?;
    let unknown = Fault::UnknownRecordType { value: -2 };
    tells(&rt, 15, unknown, "record type FFFFFFFFFFFFFFFE")
}

/// A record that goes back.
fn backward(place: u64, time: u64, before: u64) -> Fault {
    Fault::BackwardTime {
        place,
        time,
        before,
    }
}

#[test]
fn lines_of_faults_of_records(rt: HostRuntime) -> Result<(), Fail> {
    let (place, word) = (4, 0xA000_0009);
    let reserved = Fault::ReservedRecord { place, word };
    tells(&rt, 18, reserved, "record 4 is reserved: A0000009")?;
    tells(&rt, 19, backward(7, 5, 6), "record 7 goes back from 6 to 5")?;
    let last = backward(u64::MAX, u64::MAX - 2, u64::MAX - 1);
    let line =
        "record 18446744073709551615 goes back from 18446744073709551614 to 18446744073709551613";
    tells(&rt, 19, last, line)?;
    let limit = Fault::RecordLimit { limit: 1 << 40 };
    tells(&rt, 20, limit, "more than 1099511627776 records")?;
    let great = Fault::TimeLimit { place: 9 };
    tells(&rt, 21, great, "record 9 passes the greatest time")?;
    let late = Fault::PickTime { place: 2 };
    tells(&rt, 24, late, "record 2 is too late to write")
}

#[test]
fn record_types(_rt: HostRuntime) -> Result<(), Fail> {
    use Mode::*;
    for (code, mode, name) in [
        (0x0001_0303, T3, "PicoHarpT3"),
        (0x0001_0203, T2, "PicoHarpT2"),
        (0x0001_0304, T3, "HydraHarpT3"),
        (0x0001_0204, T2, "HydraHarpT2"),
        (0x0101_0304, T3, "HydraHarp2T3"),
        (0x0101_0204, T2, "HydraHarp2T2"),
        (0x0001_0305, T3, "TimeHarp260NT3"),
        (0x0001_0205, T2, "TimeHarp260NT2"),
        (0x0001_0306, T3, "TimeHarp260PT3"),
        (0x0001_0206, T2, "TimeHarp260PT2"),
        (0x0001_0307, T3, "MultiHarpT3"),
        (0x0001_0207, T2, "MultiHarpT2"),
    ] {
        let Some(record_type) = RecordType::of(code as i64) else {
            return Err(Fail::new(name));
        };
        holds(record_type.code() == code && record_type.mode() == mode, 1)?;
        holds(record_type.name() == name, 2)?;
    }
    for value in [0, -1, 0x0001_0302, 0x0001_0403, 0x0101_0303, 0x1_0001_0303] {
        holds(RecordType::of(value) == None, 3)?;
    }
    Ok(())
}
