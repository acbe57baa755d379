// Streams that have refused, which are fed once more.
ghost use Rattle.std.specs.Prelude.{◌≡◌, ◌+◌, ◌<◌, ◌≤◌, length, None, max};
ghost use Rattle.{tally_base.specs.Limits.record_limit, ptu_definitions.specs.Kept.floor_of, record_stream.specs.{Feeding.Follows, Standing.{how_of, given_by, greatest_of, refused_with}}};

use crate::checks::holds;
use abs_time::moved_floor;
use record_stream::{EventTaker, RecordStream};
use std::test::Fail;
use tally_base::{Event, Failed, Fault, Mode, OnReserved, Order, Policy, RecordType};

/// Counts its calls, and fails at each of them once it took as many events as it has room for.
#[derive(Drop)]
pub(crate) struct Counter {
    pub(crate) mode: Mode,
    pub(crate) room: u64,
    pub(crate) taken: u64,
    pub(crate) floor: u64,
    pub(crate) failed: u64,
    /// It tells in what order the places came.
    pub(crate) digest: u64,
}

/// The digest of places with one more.
pub(crate) fn with_place(digest: u64, place: u64) -> u64 {
    digest.wrapping_mul(31).wrapping_add(place)
}

impl EventTaker for Counter {
    ghost use Rattle.std.{specs.Prelude.{refl, true}, proofs.Common.{◌∙◌, arith}};

    ghost got = { λ s t l. (t.mode ≡ s.mode) × (t.taken ≡ s.taken + length l)
        × (t.floor ≡ max s.floor (floor_of s.mode l)) };

    ghost broke = { λ s t l. (t.mode ≡ s.mode) × (t.taken + 1 ≡ s.taken + length l) };

    ghost same = { λ s t. t.room ≡ s.room };

    ghost same_none = { λ t. refl };

    ghost same_more = { λ t u v p q. q ∙ p };

    ghost mode = { λ t. t.mode };

    ghost taken = { λ t. t.taken };

    ghost floor = { λ t. t.floor };

    ghost faults = { λ t. t.failed };

    ghost got_none = { λ t. (refl, omega arith, omega arith) };

    ghost taken_is = { λ s t l is. is.1 };

    ghost floor_is = { λ s t l is. is.2 };

    fn take(&mut self, event: &Event, late: bool) -> Result<(), Failed> {
        if self.taken == self.room {
            self.failed = self.failed.saturating_add(1);
            return Err(Failed);
        }
        self.taken += 1;
        self.digest = with_place(self.digest, event.place);
        self.floor = moved_floor(self.mode, self.floor, event, late);
        Ok(())
    }
}

/// What a stream answers to a piece, if it refuses it.
pub(crate) fn answer<S: EventTaker>(
    stream: &mut RecordStream,
    piece: &[u8],
    taker: &mut S,
) -> Option<Fault>
    requires { refused_with stream.old ≡ None → Follows S.EventTaker (how_of stream.old).mode
        (given_by stream.old) (greatest_of stream.old) taker.old }
    ensures { refused_with stream.new ≡ None → Follows S.EventTaker (how_of stream.new).mode
        (given_by stream.new) (greatest_of stream.new) taker.new }
{
    match stream.feed(piece, taker) {
        Ok(()) => None,
        Err(fault) => Some(fault),
    }
}

/// What a stream of T3 records answers to these words, to an empty piece and to two photons more, and
/// after each how many events its taker took and how often it failed.
fn answers(policy: Policy, room: u64, words: &[u8]) -> ([Option<Fault>; 3], [[u64; 2]; 3])
    requires records { (0 < policy.records) × (policy.records ≤ record_limit) }
    requires settle { policy.settle ≤ 64 }
{
    let mut stream = RecordStream::new(RecordType::HydraHarp2T3, policy);
    let mut taker = Counter {
        mode: Mode::T3,
        room,
        taken: 0,
        floor: 0,
        failed: 0,
        digest: 0,
    };
    let first = answer(&mut stream, words, &mut taker);
    let at_first = [taker.taken, taker.failed];
    let empty = answer(&mut stream, &[], &mut taker);
    let at_empty = [taker.taken, taker.failed];
    let more = answer(&mut stream, &[30, 0, 0, 0, 31, 0, 0, 0], &mut taker);
    let at_more = [taker.taken, taker.failed];
    ([first, empty, more], [at_first, at_empty, at_more])
}

/// Passes over what may be passed over, in three records.
const LENIENT: Policy = Policy {
    order: Order::Drop,
    reserved: OnReserved::Skip,
    records: 3,
    settle: 0,
};

#[test]
fn a_refusal_is_repeated(_rt: HostRuntime) -> Result<(), Fail> {
    let ordered = Policy {
        order: Order::Stop,
        ..LENIENT
    };
    let late = Fault::BackwardTime {
        place: 2,
        time: 20,
        before: 21,
    };
    let found = answers(ordered, 9, &[21, 0, 0, 0, 20, 0, 0, 0]);
    holds(found == ([Some(late); 3], [[1, 0]; 3]), 1)?;
    let known = Policy {
        reserved: OnReserved::Stop,
        ..LENIENT
    };
    let reserved = Fault::ReservedRecord {
        place: 2,
        word: 0xFC00_0000,
    };
    let found = answers(known, 9, &[21, 0, 0, 0, 0, 0, 0, 0xFC]);
    holds(found == ([Some(reserved); 3], [[1, 0]; 3]), 2)?;
    let four = [21, 0, 0, 0, 22, 0, 0, 0, 23, 0, 0, 0, 24, 0, 0, 0];
    let limit = Fault::RecordLimit { limit: 3 };
    let found = answers(LENIENT, 9, &four);
    holds(found == ([Some(limit); 3], [[3, 0]; 3]), 3)?;
    let found = answers(LENIENT, 2, &four[..12]);
    holds(found == ([Some(Fault::WriteFault); 3], [[2, 1]; 3]), 4)?;
    Ok(())
}
