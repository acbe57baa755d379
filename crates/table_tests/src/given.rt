// Events with their times and groups, tables that are given them, and plans of many groups.
ghost use Rattle.std.specs.Prelude.{◌≡◌, ◌<◌, false, OnOk};

use plan_text::{Plan, read_plan};
use std::alloc::Global;
use std::marker::Brand;
use std::sync::ledger::{Blank, Ledger};
use std::test::Fail;
use tally_base::{Event, EventKind, Steps, Tally};

/// The greatest time of a file.
const END: u64 = (1 << 62) + (1 << 28);

/// A time, what comes then, and its groups.
pub(crate) type Given = (u64, EventKind, u64);

/// A number of a word, whose numbers have colons between.
pub(crate) fn number(word: &str, at: usize, default: u64) -> Result<u64, Fail> {
    match word.split(':').nth(at) {
        Some(digits) => Ok(digits.parse::<u64>()?),
        None => Ok(default),
    }
}

/// What a photon's word tells after its time: its dtime and its groups.
fn photon_of(word: &str) -> Result<(EventKind, u64), Fail> {
    let dtime = u16::try_from(number(word, 2, 9)?)?;
    Ok((EventKind::Photon { input: 1, dtime }, number(word, 1, 1)?))
}

/// What a marker's word tells after its time: its bits, and its groups.
fn marker_of(word: &str) -> Result<(EventKind, u64), Fail> {
    let bits = u8::try_from(number(word, 1, 0)?)?;
    Ok((EventKind::Marker { bits }, number(word, 2, u64::MAX)?))
}

/// The event of a word: `5:3:9` is a photon at 5 of the groups 1 and 2 with the dtime 9, and `m5:3` a marker with the
/// bits 1 and 2, were it in all groups.
fn event_of(word: &str) -> Result<Given, Fail> {
    let (word, (kind, groups)) = match word.strip_prefix('m') {
        Some(marker) => (marker, marker_of(marker)?),
        None => (word, photon_of(word)?),
    };
    Ok((number(word, 0, 0)?, kind, groups))
}

/// Puts the event of a word after others, as `3*5` three times.
fn put(events: &mut Vec<Given>, word: &str) -> Result<(), Fail> {
    let (times, word) = word.split_once('*').unwrap_or(("1", word));
    let event = event_of(word)?;
    for _ in 0..times.parse::<u32>()? {
        events.push(event)?;
    }
    Ok(())
}

/// The events of a text.
pub(crate) fn events_of(alloc: Global, text: &str) -> Result<Vec<Given>, Fail> {
    let mut events = Vec::new(alloc);
    for word in text.split_whitespace() {
        put(&mut events, word)?;
    }
    Ok(events)
}

/// Gives events to a table that has none, with a counter of its steps.
fn give_all<T: Tally, L: Ledger>(table: &mut T, events: &[Given], blank: Blank) -> Result<(), Fail>
    requires name { blank.name ≡ L.name }
    requires parts { blank.parts ≡ L.parts }
    requires some { 0 < blank.parts }
    requires open { T.closed table.old ≡ false }
    requires none { T.taken table.old ≡ 0 }
    requires early { T.floor table.old ≡ 0 }
    ensures open { OnOk result (T.closed table.new ≡ false) }
{
    if events.len() > 100_000 {
        return Err(Fail::new("a row has too many events"));
    }
    let mut steps = Steps::<L>::new(blank);
    let mut latest = 0;
    for &(time, kind, groups) in events {
        if time < latest || time > END {
            return Err(Fail::new("the times of a row are out of order"));
        }
        latest = time;
        let event = Event {
            place: 1,
            kind,
            time,
        };
        table.event(&event, groups, &mut steps);
    }
    Ok(())
}

/// Gives events to a table that has none.
pub(crate) fn give<T: Tally>(table: &mut T, events: &[Given]) -> Result<(), Fail>
    requires open { T.closed table.old ≡ false }
    requires none { T.taken table.old ≡ 0 }
    requires early { T.floor table.old ≡ 0 }
    ensures open { OnOk result (T.closed table.new ≡ false) }
{
    give_all::<T, Brand>(table, events, Blank::new(1))
}

/// Closes a table, with a counter of its steps.
fn close_by<T: Tally, L: Ledger>(table: &mut T, blank: Blank)
    requires name { blank.name ≡ L.name }
    requires parts { blank.parts ≡ L.parts }
    requires some { 0 < blank.parts }
    requires open { T.closed table.old ≡ false }
{
    let mut steps = Steps::<L>::new(blank);
    table.close(&mut steps);
}

/// Closes a table.
pub(crate) fn close<T: Tally>(table: &mut T)
    requires open { T.closed table.old ≡ false }
{
    close_by::<T, Brand>(table, Blank::new(1))
}

/// The plan of a text and of 64 groups.
pub(crate) fn plan_of(alloc: Global, text: &str) -> Result<Plan, Fail> {
    let mut bytes = Vec::new(alloc);
    bytes.extend_from_slice(b"version = 2\n")?;
    bytes.extend_from_slice(text.as_bytes())?;
    for _ in 0..64 {
        bytes.extend_from_slice(b"\n[[group]]\ninputs = [0]")?;
    }
    read(alloc, &bytes)
}

/// The plan of these bytes, which must be one.
pub(crate) fn read(alloc: Global, bytes: &[u8]) -> Result<Plan, Fail> {
    match read_plan(alloc, bytes) {
        Ok(plan) => Ok(plan),
        Err(fault) => Err(Fail::new(format_args!("a plan has status {}", fault.status()))),
    }
}

/// Refuses a row of which another text was found than the one that is wanted.
pub(crate) fn same(name: &str, found: &str, wanted: &str) -> Result<(), Fail> {
    if found == wanted {
        return Ok(());
    }
    Err(Fail::new(format_args!("{name}: {found}")))
}

/// Refuses what is not right.
pub(crate) fn holds(right: bool, what: &str) -> Result<(), Fail> {
    if right {
        return Ok(());
    }
    Err(Fail::new(what))
}

/// What stands before the first bar of a line, and after it.
pub(crate) fn halves(line: &str) -> (&str, &str) {
    line.split_once(" | ").unwrap_or((line, ""))
}
