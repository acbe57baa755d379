// A stream of records that comes in pieces.
ghost use Rattle.std.specs.Prelude.{◌≡◌, ◌+◌, ◌*◌, ◌<◌, ◌≤◌, ◌++◌, ◌∷◌, [], List, ℕ, length, None, Some, OnOk, OnErr, IfErr, ◌≢◌, ◌&&◌, not, IsTrue, if◌then◌else◌, Err, true, false};
ghost use Rattle.std.proofs.Props.{props};
ghost use Rattle.{abs_time.{proofs.Floors.kind_fits-prop, specs.Placing.IsSmall}, tally_base.specs.{Limits.record_limit, declared.fault.Fault.{Fault, TheVariants.WriteFault}, FaultCounts.FailsOnce}};
ghost use Rattle.{tally_base.specs.{FaultCounts.Rose, Events.is_ordered, Faults.{is_outside, fault_in}, Columns.gathered}, ptu_definitions.specs.{Kept.Marked, Streams.{reading, streamed}}};
ghost use Rattle.{ptu_definitions.specs.{Layouts.Fits, Words.numbers, Headers.Shows}, record_stream.specs.Keeping.IsKeeping};

use crate::blocks::{FileOrder, take_words};
use crate::columns_taker::TakesColumns;
use crate::in_blocks::{InBlocks, give_all};
use crate::settled::give_rest;
use crate::settled_blocks::InPlace;
use crate::sums::Sums;
use crate::taker::EventTaker;
use crate::unwritten::Unwritten;
use crate::walk::Walk;
use abs_time::Clock;
use ptu_definitions::Summary;
use record_layout::{BegunWord, RecordLayout, in_layout};
use settle::Settle;
use tally_base::{Block, Fault, Policy, RecordType};

/// The records of a file, of which the bytes come in pieces. It gives the photons and markers of the whole
/// words to a taker, each once. Where none may be overtaken it gives all, in file order, each with whether it
/// is late.
///
/// Where the policy lets events be overtaken it gives each event in order that isn't late once no later one
/// can come before it, in order of time, and each late one, marked, when it comes. Markers of T2 it counts
/// and doesn't give.
///
/// It keeps at most three bytes of a word that is not whole yet, and as many events as may overtake one.
/// After a refusal it answers the same refusal to each piece.
#[derive(Drop)]
pub struct RecordStream {
    walk: Walk,
    settle: Settle,
    carried: BegunWord,
    refused: Option<Fault>,
    ghost keeps: { IsKeeping walk settle } by { Prim.hlevel (props, kind_fits-prop) },
}

impl RecordStream {
    ghost use Rattle.record_stream.specs.{OneMore.with_event, Feeding.{Follows, Delivers, FedPiece}, Standing.{how_of, given_by, greatest_of, refused_with, carried_by, kept_back_by, records_of}};
    ghost use Rattle.record_stream.specs.{Standing.{bytes_in, summary_in, clock_in, IsBehind, CarriesOn, HasStreamed, HasGivenNone, CanRead, Feeds, IsFollowed, StreamsOn, Stays}, Ending.Ended};
    ghost use Rattle.record_stream.specs.Pieces.{Passes};

    /// The stream of a file of this type, which was given no bytes. The greatest number of records is 1
    /// to 2^40, and at most 64 events may overtake one.
    pub fn new(record_type: RecordType, policy: Policy) -> RecordStream
        requires records { (0 < policy.records) × (policy.records ≤ record_limit) }
        requires settle { policy.settle ≤ 64 }
        ensures how { how_of result ≡ reading record_type policy }
        ensures empty { HasStreamed result [] }
        ensures unrefused { refused_with result ≡ None }
        ensures none { HasGivenNone result }
    {
        RecordStream {
            walk: Walk {
                record_type,
                policy,
                clock: Clock::new(record_type.mode()),
                sums: Sums {
                    records: 0,
                    photons: 0,
                    markers: 0,
                    wraps: 0,
                    reserved: 0,
                    late: 0,
                    kept: false,
                    first: 0,
                    last: 0,
                },
                given: 0,
            },
            settle: Settle::new(policy.settle),
            carried: BegunWord::new(),
            refused: None,
        }
    }

    /// What it was refused with, or none.
    pub fn refusal(&self) -> Option<Fault>
        ensures { result ≡ refused_with self.now }
    {
        self.refused
    }

    /// How many events it has given, as long as it refused nothing.
    pub fn given(&self) -> u64
        ensures { result ≡ given_by self.now }
    {
        self.walk.given
    }

    /// The greatest time of the events in order that it gave and that were not late, or 0 where there is
    /// none, as long as it refused nothing.
    pub fn greatest(&self) -> u64
        ensures { result ≡ greatest_of self.now }
    {
        if self.walk.policy.settle == 0 {
            self.walk.clock.greatest()
        } else {
            self.settle.last()
        }
    }

    /// How many events it keeps back.
    pub fn kept_back(&self) -> usize
        ensures value { result ≡ length (kept_back_by self.now) }
        ensures few { result ≤ (how_of self.now).policy.settle }
    {
        self.settle.held()
    }

    /// Takes the next words.
    fn words<R: RecordLayout, W: TakesColumns>(
        &mut self,
        words: &[[u8; 4]],
        taker: &mut W,
    ) -> Result<(), Fault>
        requires { CanRead W.EventTaker R.meaning self.old taker.old }
        ensures delivers { Delivers W.EventTaker (how_of self.old) (IsBehind self.old)
            (IsBehind self.new) taker.old taker.new (numbers words.now) result }
        ensures goes_on { OnOk result
            (StreamsOn W.EventTaker self.old self.new taker.new (4 * length words.now)) }
        ensures carried { carried_by self.new ≡ carried_by self.old }
        ensures stays { Stays W.EventTaker self.old self.new taker.old taker.new }
    {
        if self.walk.policy.settle == 0 {
            take_words::<R, FileOrder, W>(&mut self.walk, &mut self.settle, words, taker)
        } else {
            take_words::<R, InPlace, W>(&mut self.walk, &mut self.settle, words, taker)
        }
    }

    /// Takes a piece in this layout.
    fn piece<R: RecordLayout, W: TakesColumns>(
        &mut self,
        piece: &[u8],
        taker: &mut W,
    ) -> Result<(), Fault>
        requires { CanRead W.EventTaker R.meaning self.old taker.old }
        ensures { Feeds W.EventTaker self.old self.new taker.old taker.new piece.now result }
    {
        let (first, words) = self.carried.take(piece);
        self.words::<R, W>(first.as_slice(), taker)?;
        self.words::<R, W>(words, taker)
    }

    /// Takes a piece in the layout of the record type.
    fn by_type<W: TakesColumns>(&mut self, piece: &[u8], taker: &mut W) -> Result<(), Fault>
        requires { IsFollowed W.EventTaker self.old taker.old }
        ensures { Feeds W.EventTaker self.old self.new taker.old taker.new piece.now result }
    {
        in_layout!(self.walk.record_type, self.piece::<R, W>(piece, taker))
    }

    /// Takes a piece, and gives its events in blocks. None waits for the next call, nor after a refusal.
    fn whole<'t, S: EventTaker>(
        &mut self,
        piece: &[u8],
        blocks: &mut InBlocks<'t, S>,
    ) -> Result<(), Fault>
        requires follows { IsFollowed S.EventTaker self.old blocks.old.taker.now }
        requires none { gathered blocks.old.block ≡ [] }
        ensures feeds { Feeds S.EventTaker self.old self.new blocks.old.taker.now
            blocks.new.taker.now piece.now result }
        ensures name { blocks.new.taker.ghost_name ≡ blocks.old.taker.ghost_name }
    {
        let fed = self.by_type(piece, blocks);
        if is_broken(&fed) {
            return fed;
        }
        if give_all(blocks.taker, &mut blocks.block).is_err() {
            return Err(Fault::WriteFault);
        }
        fed
    }

    /// Takes a piece, with a block for its events.
    fn in_blocks<S: EventTaker>(&mut self, piece: &[u8], taker: &mut S) -> Result<(), Fault>
        requires { IsFollowed S.EventTaker self.old taker.old }
        ensures { Feeds S.EventTaker self.old self.new taker.old taker.new piece.now result }
    {
        let mut blocks = InBlocks {
            taker,
            block: Block::new(),
        };
        self.whole(piece, &mut blocks)
    }

    /// Takes a piece of the bytes, and gives the taker the events of its whole words, but those that it keeps
    /// back, and with them those kept back before that no later event can come before any more.
    ///
    /// Refuses one record more than the greatest number, and a wrap that makes the sum of wraps greater
    /// than 2^62. By the policy it refuses a reserved record or a late event, which the taker is not given.
    /// Where the taker fails the stream is refused with `WriteFault`.
    pub fn feed<S: EventTaker>(&mut self, piece: &[u8], taker: &mut S) -> Result<(), Fault>
        requires follows { refused_with self.old ≡ None
            → Follows S.EventTaker (how_of self.old).mode (given_by self.old)
            (greatest_of self.old) taker.old }
        ensures taken { (bytes : List ℕ) → HasStreamed self.old bytes
            → HasStreamed self.new (bytes ++ piece.now) }
        ensures fed { refused_with self.old ≡ None → (bytes : List ℕ)
            → HasStreamed self.old bytes → FedPiece S.EventTaker (how_of self.old) taker.old
            taker.new bytes piece.now result }
        ensures kept { (fault : Fault) → refused_with self.old ≡ Some fault
            → (result ≡ Err fault) × (self.new ≡ self.old) × (taker.new ≡ taker.old) }
        ensures refused { refused_with self.new ≡ fault_in result }
        ensures follows { OnOk result (Follows S.EventTaker (how_of self.new).mode
            (given_by self.new) (greatest_of self.new) taker.new) }
        ensures counted { OnOk result (bytes_in self.new ≡ bytes_in self.old + length piece.now) }
        ensures limit { bytes_in self.new ≤ 4 * record_limit + 3 }
        ensures few { length (kept_back_by self.new) ≤ (how_of self.new).policy.settle }
        ensures shown { (bytes : List ℕ) → HasStreamed self.old bytes
            → IfErr result (λ fault. fault ≢ WriteFault → Shows (streamed (how_of self.old))
            (bytes ++ piece.now) (Err fault)) }
        ensures same_how { how_of self.new ≡ how_of self.old }
        ensures later { S.faults taker.old ≤ S.faults taker.new }
        ensures same { S.same taker.old taker.new }
    {
        if let Some(fault) = self.refused {
            return Err(fault);
        }
        match self.in_blocks(piece, taker) {
            Ok(()) => Ok(()),
            Err(fault) => {
                self.refused = Some(fault);
                Err(fault)
            }
        }
    }

    /// Takes a piece of the bytes, whose events nobody is given: it does the same as `feed`, and refuses the same.
    pub fn pass(&mut self, piece: &[u8]) -> Result<(), Fault>
        ensures { Passes self.old self.new piece.now result }
    {
        if let Some(fault) = self.refused {
            return Err(fault);
        }
        let mut taker = Unwritten {
            mode: self.walk.clock.mode(),
            taken: self.given(),
            floor: self.greatest(),
        };
        match self.by_type(piece, &mut taker) {
            Ok(()) => Ok(()),
            Err(fault) => {
                self.refused = Some(fault);
                Err(fault)
            }
        }
    }

    /// Gives the taker the events that are kept back, in order of time and then of place, and answers the
    /// summary of all bytes.
    ///
    /// Refuses bytes that end within a record, and answers again what a piece was refused for, and then
    /// gives nothing. Where the taker fails it answers `WriteFault`.
    pub fn finish<S: EventTaker>(self, taker: &mut S) -> Result<Summary, Fault>
        requires follows { refused_with self ≡ None → Follows S.EventTaker (how_of self).mode
            (given_by self) (greatest_of self) taker.old }
        ensures answer { refused_with self ≢ Some WriteFault → (bytes : List ℕ)
            → HasStreamed self bytes → Ended S.EventTaker (how_of self) taker.old taker.new
            bytes result }
        ensures kept { (fault : Fault) → refused_with self ≡ Some fault
            → (result ≡ Err fault) × (taker.new ≡ taker.old) }
        ensures untouched { (how_of self).policy.settle ≡ 0 → taker.new ≡ taker.old }
        ensures inside { refused_with self ≡ None → IfErr result
            (λ fault. fault ≢ WriteFault → is_outside fault ≡ false) }
        ensures unsettled { refused_with self ≡ None → (how_of self).policy.settle ≡ 0
            → IfErr result (λ fault. is_outside fault ≡ false) }
        ensures cause { refused_with self ≡ None → IfErr result
            (λ fault. fault ≡ WriteFault → Rose (S.faults taker.old) (S.faults taker.new)) }
        ensures later { S.faults taker.old ≤ S.faults taker.new }
        ensures same { S.same taker.old taker.new }
    {
        if let Some(fault) = self.refused {
            return Err(fault);
        }
        let bytes = self.carried.len();
        if bytes > 0 {
            return Err(Fault::TruncatedRecord { bytes: bytes as u8 });
        }
        if self.walk.policy.settle == 0 {
            return Ok(self.walk.sums.summary());
        }
        let RecordStream {
            mut walk,
            mut settle,
            ..
        } = self;
        give_rest(&mut walk, &mut settle, taker)?;
        Ok(walk.sums.summary())
    }
}

/// Whether the taker broke.
fn is_broken(fed: &Result<(), Fault>) -> bool
    ensures broken { result ≡ true → fed.now ≡ Err WriteFault }
    ensures whole { result ≡ false → IfErr fed.now (λ fault. fault ≢ WriteFault) }
{
    matches!(fed, Err(Fault::WriteFault))
}
