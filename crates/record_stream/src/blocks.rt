// The words of a piece in blocks, without a branch on what each record is, in file order or another.
ghost use Rattle.std.specs.Prelude.{◌≡◌, ◌+◌, ◌*◌, ◌≤◌, ◌++◌, List, ℕ, length, Some, if◌then◌else◌, OnOk, IfSome};
ghost use Rattle.{tally_base.specs.{declared.event.Event.Event, Limits.record_limit, Columns.{count, sorted, gathered}}, ptu_definitions.specs.Words.numbers, record_layout.specs.Sums.IsSplit};
ghost use Rattle.record_stream.specs.{Blocks.PutsAfter, OneMore.{CountsMore, summed, with_block, first_with, last_with}, Whole.{events_below, InReach}, Walking.how_of, Keeping.IsKeeping};
ghost use Rattle.record_stream.specs.Settling.{Becomes, CanWalk, ComesUp, Walks};

use crate::ahead::{Ahead, first_time};
use crate::columns_taker::TakesColumns;
use crate::sums::Sums;
use crate::walk::Walk;
use abs_time::Clock;
use lane_decode::Columns;
use ptu_definitions::KindCounts;
use record_layout::RecordLayout;
use settle::{Settle, Settled};
use tally_base::{BLOCK_SIZE, Block, Event, Fault, TABLE_BLOCK};

/// Puts the events of 64 records whose codes are below `below` after those of a block, several records at once.
#[inline(always)]
pub(crate) fn put_events<R: RecordLayout>(
    clock: &Clock,
    columns: &Columns,
    below: u16,
    block: &mut Block<TABLE_BLOCK>,
)
    requires reach { InReach clock.now R.UNIT columns.now }
    requires room { count block.old + BLOCK_SIZE ≤ TABLE_BLOCK }
    ensures { PutsAfter block.old block.new (events_below below clock.now R.UNIT columns.now) }
{
    columns.put_events::<R>(below, clock.placed(), clock.base(), block);
}

/// Counts the records of words, of which these are the kinds, and notes the times of the first and the last of their
/// events, if they have any. None is late.
#[inline(always)]
pub(crate) fn add_block(sums: &mut Sums, counts: &KindCounts, first: u64, last: Option<u64>)
    requires few { sums.old.records + counts.now.records ≤ record_limit }
    requires split { IsSplit counts.now }
    ensures value { (es : List Event) → last_with None es ≡ last
        → IfSome last (λ t. Some first ≡ first_with (summed sums.old).first es)
        → summed sums.new ≡ with_block (summed sums.old) counts.now es }
    ensures more { CountsMore sums.old sums.new counts.now.records }
{
    sums.records += counts.records;
    sums.photons += counts.photons;
    sums.markers += counts.markers;
    sums.wraps += counts.wraps;
    sums.reserved += counts.reserved;
    if let Some(last) = last {
        sums.kept = true;
        sums.first = first;
        sums.last = last;
    }
}

/// The time of the first event that was kept, where one more is kept now.
pub(crate) fn first_kept(kept: bool, first: u64, time: u64) -> u64
    ensures { result ≡ (if kept then first else time) }
{
    if kept { first } else { time }
}

/// What becomes of events, in file order or where they are put in their places.
pub(crate) trait SettlesEvents {
    /// It is for policies by which so many events may overtake one.
    ghost is_for: { ℕ → Type 0 };

    /// What becomes of the next event, of a record that is counted and placed, which is late in file order or not.
    fn settle_event(walk: &Walk, settle: &mut Settle, event: Event, late: bool) -> Settled
        requires is_for { is_for (how_of walk.now).policy.settle }
        requires keeps { IsKeeping walk.now settle.old }
        requires comes { ComesUp walk.now settle.old event late }
        ensures { Becomes walk.now settle.old settle.new event late result };
}

/// The order in which a stream gives its events, with room for a block of words.
pub(crate) trait GivingOrder: SettlesEvents {
    fn new() -> Self;

    /// Takes a block of words.
    fn take_block<R: RecordLayout, W: TakesColumns>(
        &mut self,
        walk: &mut Walk,
        settle: &mut Settle,
        words: &[[u8; 4]],
        taker: &mut W,
    ) -> Result<(), Fault>
        requires whole { length words.now ≡ BLOCK_SIZE }
        requires can { CanWalk W.EventTaker Self.is_for R.meaning walk.old settle.old taker.old }
        ensures { Walks W.EventTaker walk.old walk.new settle.old settle.new taker.old taker.new
            (numbers words.now) result };
}

/// File order.
#[derive(Drop)]
pub(crate) struct FileOrder {
    columns: Columns,
}

impl SettlesEvents for FileOrder {
    ghost is_for = { λ k. k ≡ 0 };

    /// It is given at once.
    #[inline(always)]
    fn settle_event(_walk: &Walk, _settle: &mut Settle, event: Event, late: bool) -> Settled {
        let emitted = if late { None } else { Some(event) };
        Settled { emitted, late }
    }
}

impl GivingOrder for FileOrder {
    fn new() -> FileOrder {
        FileOrder {
            columns: Columns::new(),
        }
    }

    #[inline(always)]
    fn take_block<R: RecordLayout, W: TakesColumns>(
        &mut self,
        walk: &mut Walk,
        settle: &mut Settle,
        words: &[[u8; 4]],
        taker: &mut W,
    ) -> Result<(), Fault> {
        let Some(ahead) = Ahead::of::<R>(walk, words, &mut self.columns) else {
            return walk.runs::<R, FileOrder, W>(settle, words, &self.columns, taker);
        };
        let clock = walk.clock;
        if taker
            .take_columns::<R>(&clock, &self.columns, &ahead)
            .is_err()
        {
            return Err(Fault::WriteFault);
        }
        let sums = walk.sums;
        let first = first_time::<R>(&sums, &self.columns, &clock);
        add_block(&mut walk.sums, &ahead.counts, first, ahead.last);
        let placed = clock.placed() + ahead.counts.records;
        let low = clock.greatest();
        let greatest = ahead.greatest.unwrap_or(low);
        walk.clock.go_on(placed, ahead.base, greatest);
        walk.given += ahead.counts.photons + ahead.counts.markers;
        Ok(())
    }
}

/// Takes the next words, in blocks.
pub(crate) fn take_words<R: RecordLayout, O: GivingOrder + Drop, W: TakesColumns>(
    walk: &mut Walk,
    settle: &mut Settle,
    words: &[[u8; 4]],
    taker: &mut W,
) -> Result<(), Fault>
    requires { CanWalk W.EventTaker O.is_for R.meaning walk.old settle.old taker.old }
    ensures { Walks W.EventTaker walk.old walk.new settle.old settle.new taker.old taker.new
        (numbers words.now) result }
{
    if words.len() < BLOCK_SIZE {
        return walk.words::<R, O, W>(settle, words, taker);
    }
    let mut order = O::new();
    let mut rest = words;
    'many: while rest.len() >= BLOCK_SIZE {
        let (front, back) = rest.split_at(BLOCK_SIZE);
        order.take_block::<R, W>(walk, settle, front, taker)?;
        rest = back;
    }
    walk.words::<R, O, W>(settle, rest, taker)
}
