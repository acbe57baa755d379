// Streams whose events are put in their places.
ghost use Rattle.std.specs.Prelude.{◌≡◌, ◌<◌, ◌≤◌, None};
ghost use Rattle.{tally_base.specs.Limits.record_limit, record_stream.specs.{Feeding.Follows, Standing.{how_of, given_by, greatest_of, refused_with}}};

use crate::checks::holds;
use crate::refused::{Counter, answer, with_place};
use record_stream::{EventTaker, RecordStream, Summary};
use std::test::Fail;
use tally_base::{Fault, OnReserved, Order, Policy, RecordType};

/// What a stream of these words answers to them, if it refuses them, and at its end; after the first answer
/// how many events its taker has and how many are kept back, and after the other how many its taker has.
fn settled(
    record_type: RecordType,
    policy: Policy,
    room: u64,
    words: &[u8],
) -> (Option<Fault>, [u64; 2], Result<Summary, Fault>, u64)
    requires records { (0 < policy.records) × (policy.records ≤ record_limit) }
    requires settle { policy.settle ≤ 64 }
{
    let mut stream = RecordStream::new(record_type, policy);
    let mut taker = Counter {
        mode: record_type.mode(),
        room,
        taken: 0,
        floor: 0,
        failed: 0,
        digest: 0,
    };
    let refused = answer(&mut stream, words, &mut taker);
    let fed = [taker.taken, stream.kept_back() as u64];
    let summary = stream.finish(&mut taker);
    (refused, fed, summary, taker.taken)
}

const ONE: Policy = Policy {
    order: Order::Drop,
    reserved: OnReserved::Skip,
    records: 9,
    settle: 1,
};

const T3: RecordType = RecordType::HydraHarp2T3;

const TWO: Policy = Policy { settle: 2, ..ONE };

/// The summary of three photons, of which so many are late.
fn three(late: u64, first: u64) -> Summary {
    Summary {
        records: 3,
        photons: 3,
        markers: 0,
        wraps: 0,
        reserved: 0,
        late,
        first: Some(first),
        last: Some(9),
    }
}

const BACKWARDS: [u8; 12] = [9, 0, 0, 0, 8, 0, 0, 0, 7, 0, 0, 0];

#[test]
fn an_overtaken_event_is_put_in_its_place(_rt: HostRuntime) -> Result<(), Fail> {
    let t3 = RecordType::HydraHarp2T3;
    let found = settled(t3, ONE, 9, &BACKWARDS);
    holds(found == (None, [2, 1], Ok(three(1, 8)), 3), 1)?;
    let found = settled(t3, TWO, 9, &BACKWARDS);
    holds(found == (None, [1, 2], Ok(three(0, 7)), 3), 2)?;
    let found = settled(t3, TWO, 2, &BACKWARDS);
    holds(found == (None, [1, 2], Err(Fault::WriteFault), 2), 3)?;
    let cut = Fault::TruncatedRecord { bytes: 1 };
    let found = settled(t3, TWO, 9, &BACKWARDS[..9]);
    holds(found == (None, [0, 2], Err(cut), 0), 4)?;
    Ok(())
}

#[test]
fn an_event_that_too_many_overtook_is_refused(_rt: HostRuntime) -> Result<(), Fail> {
    let strict = Policy {
        order: Order::Stop,
        ..ONE
    };
    let late = Fault::BackwardTime {
        place: 3,
        time: 7,
        before: 9,
    };
    let found = settled(RecordType::HydraHarp2T3, strict, 9, &BACKWARDS);
    holds(found == (Some(late), [1, 1], Err(late), 1), 1)?;
    Ok(())
}

#[test]
fn markers_of_t2_are_counted_and_not_given(_rt: HostRuntime) -> Result<(), Fail> {
    let words = [5, 0, 0, 0x82, 7, 0, 0, 0];
    let summary = Summary {
        records: 2,
        photons: 1,
        markers: 1,
        wraps: 0,
        reserved: 0,
        late: 0,
        first: Some(7),
        last: Some(7),
    };
    let found = settled(RecordType::HydraHarp2T2, ONE, 9, &words);
    holds(found == (None, [0, 1], Ok(summary), 1), 1)?;
    Ok(())
}

/// Feeds pieces of this size. A refusal shows at the end.
fn feed_pieces<S: EventTaker>(stream: &mut RecordStream, words: &[u8], size: usize, taker: &mut S)
    requires some { 0 < size }
    requires follows { refused_with stream.old ≡ None → Follows S.EventTaker (how_of stream.old).mode
        (given_by stream.old) (greatest_of stream.old) taker.old }
    ensures { refused_with stream.new ≡ None → Follows S.EventTaker (how_of stream.new).mode
        (given_by stream.new) (greatest_of stream.new) taker.new }
{
    for piece in words.chunks(size) {
        let _refused = answer(stream, piece, taker);
    }
}

/// How many events come before the end where so many may overtake one, in pieces of this size; how many are
/// late; and the digest of their places as they come.
fn digested(
    record_type: RecordType,
    settle: u32,
    words: &[u8],
    size: usize,
) -> (u64, Result<u64, Fault>, u64)
    requires some { 0 < size }
    requires settle { settle ≤ 64 }
{
    let policy = Policy {
        records: 200,
        settle,
        ..ONE
    };
    let mut stream = RecordStream::new(record_type, policy);
    let mut taker = Counter {
        mode: record_type.mode(),
        room: 200,
        taken: 0,
        floor: 0,
        failed: 0,
        digest: 0,
    };
    feed_pieces(&mut stream, words, size, &mut taker);
    let before = taker.taken;
    let late = match stream.finish(&mut taker) {
        Ok(summary) => Ok(summary.late),
        Err(fault) => Err(fault),
    };
    (before, late, taker.digest)
}

/// Photons at the places 1 to 130, each at the time of its place, but the one at 65 at this time.
fn photons(time: u8) -> [u8; 520] {
    let mut words = [0; 520];
    for at in 0..130usize {
        words[4 * at] = if at == 64 { time } else { at as u8 + 1 };
    }
    words
}

/// The digest of these photons, where the one at place 65 comes after this one.
fn digest_behind(last: u64) -> u64 {
    let mut digest = 0;
    for place in 1..131 {
        if place != 65 {
            digest = with_place(digest, place);
        }
        if place == last {
            digest = with_place(digest, 65);
        }
    }
    digest
}

#[test]
fn blocks_are_settled_in_order(_rt: HostRuntime) -> Result<(), Fail> {
    let digest = digest_behind(64);
    for size in [520, 300, 100, 5] {
        let found = digested(T3, 4, &photons(65), size);
        holds(found == (126, Ok(0), digest), 1)?;
        let found = digested(T3, 64, &photons(65), size);
        holds(found == (66, Ok(0), digest), 2)?;
    }
    Ok(())
}

#[test]
fn an_event_is_put_into_the_block_before(_rt: HostRuntime) -> Result<(), Fail> {
    for size in [520, 300, 100, 5] {
        let found = digested(T3, 4, &photons(61), size);
        holds(found == (126, Ok(0), digest_behind(61)), 1)?;
        let found = digested(T3, 64, &photons(61), size);
        holds(found == (66, Ok(0), digest_behind(61)), 2)?;
        let found = digested(T3, 2, &photons(61), size);
        holds(found == (128, Ok(1), digest_behind(62)), 3)?;
    }
    Ok(())
}

/// The same photons in T2, where each tenth is a marker, and the digest of the others.
fn with_markers() -> ([u8; 520], u64) {
    let mut words = photons(65);
    let mut digest = 0;
    for at in 0..130usize {
        if at % 10 == 9 {
            words[4 * at + 3] = 0x82;
        } else {
            digest = with_place(digest, at as u64 + 1);
        }
    }
    (words, digest)
}

#[test]
fn markers_of_t2_stand_between_photons(_rt: HostRuntime) -> Result<(), Fail> {
    let (words, digest) = with_markers();
    for size in [520, 300, 100, 5] {
        let t2 = RecordType::HydraHarp2T2;
        holds(digested(t2, 4, &words, size) == (113, Ok(0), digest), 1)?;
        holds(digested(t2, 64, &words, size) == (53, Ok(0), digest), 2)?;
    }
    Ok(())
}
