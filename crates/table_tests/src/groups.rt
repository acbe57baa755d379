// The groups of known events: the tests of `gate_plan`.
use crate::given::{halves, holds, number, plan_of};
use crate::plans::plan_in;
use crate::rows::GROUPS;
use gate_plan::Gates;
use std::test::Fail;
use tally_base::{Event, EventKind};

/// What comes by a word: `3:9` is a photon of the input 3 with the dtime 9, and `m1` a marker with the bit 1.
fn kind_of(word: &str) -> Result<EventKind, Fail> {
    if let Some(bits) = word.strip_prefix('m') {
        let bits = bits.parse::<u8>()?;
        return Ok(EventKind::Marker { bits });
    }
    let input = u8::try_from(number(word, 0, 0)?)?;
    let dtime = u16::try_from(number(word, 1, 0)?)?;
    Ok(EventKind::Photon { input, dtime })
}

/// The groups by the gates of the event of a word.
fn groups_of(gates: &Gates, word: &str) -> Result<u64, Fail> {
    let kind = kind_of(word)?;
    Ok(gates.groups(&Event {
        place: 1,
        kind,
        time: 5,
    }))
}

#[test]
fn groups_of_events(rt: HostRuntime) -> Result<(), Fail> {
    for line in GROUPS.lines() {
        let (name, rest) = halves(line);
        let (text, rest) = halves(rest);
        let (events, groups) = halves(rest);
        let wanted = groups.parse::<u64>()?;
        let plan = plan_in(rt.alloc(), text)?;
        let gates = Gates::of(&plan);
        for word in events.split_whitespace() {
            holds(groups_of(&gates, word)? == wanted, name)?;
        }
    }
    Ok(())
}

#[test]
fn as_many_groups_as_a_plan_may_have(rt: HostRuntime) -> Result<(), Fail> {
    let plan = plan_of(rt.alloc(), "")?;
    holds(
        groups_of(&Gates::of(&plan), "0:0")? == u64::MAX,
        "64 groups",
    )
}
