// Where a block of words leads, whose records are in columns.
ghost use Rattle.std.specs.Prelude.{◌≡◌, ◌+◌, ◌*◌, ◌^◌, ◌<◌, ◌≤◌, ◌∷◌, ℕ, List, length, IfSome, if◌then◌else◌};
ghost use Rattle.{tally_base.specs.declared.header.Mode.Mode, abs_time.specs.Placing.base_of, lane_decode.specs.{InColumns.{HasRows, row_at, wraps_at, sum_to, time_in}, Staying.staying}};
ghost use Rattle.record_stream.specs.{Rows.{ordered_below, gathered_below}, Runs.IsBlock, Whole.{last_time, InReach, IsAfterAll, LeadsTo}, Walking.how_of};

use crate::count::stops_reserved;
use crate::sums::Sums;
use crate::walk::Walk;
use abs_time::Clock;
use lane_decode::Columns;
use ptu_definitions::KindCounts;
use record_layout::RecordLayout;
use tally_base::{BLOCK_SIZE, Mode, WRAP_LIMIT};

/// The greatest sum of wraps that those of a block of words can't make greater than 2^62.
const EARLY_ENOUGH: u64 = WRAP_LIMIT - (1 << 56);

/// Where a block of words leads of which none is refused and no event is late.
#[derive(Clone, Copy)]
pub struct Ahead {
    /// How many records it has of each kind.
    pub counts: KindCounts,
    /// The sum of all wraps, with its own.
    pub base: u64,
    /// The time of its last event.
    pub last: Option<u64>,
    /// The time of its last event in order.
    pub greatest: Option<u64>,
}

impl Ahead {
    /// Puts the records of words into columns, and says where they lead. None: one may be refused, or late. It may also
    /// say so of an event that is not late, after a time that is longer than a wrap, at or after a marker of T2 out of
    /// order, or at a reserved record.
    #[inline(always)]
    pub(crate) fn of<R: RecordLayout>(
        walk: &Walk,
        words: &[[u8; 4]],
        columns: &mut Columns,
    ) -> Option<Ahead>
        requires meaning { R.meaning ≡ (how_of walk.now).meaning }
        requires whole { length words.now ≡ BLOCK_SIZE }
        ensures block { IsBlock R.meaning R.UNIT columns.new words.now }
        ensures leads { IfSome result (LeadsTo walk.now words.now R.UNIT columns.new) }
    {
        columns.fill::<R>(words);
        let counts = columns.kinds::<R>(words);
        let stops = stops_reserved(walk.policy.reserved) && counts.reserved > 0;
        let fits = counts.records <= walk.policy.records - walk.sums.records;
        let start = walk.clock.base();
        if stops || !fits || start > EARLY_ENOUGH {
            return None;
        }
        let low = walk.clock.greatest();
        let in_order = columns.rises::<R>(start, low);
        if !in_order {
            return None;
        }
        let wraps = wraps_in(columns);
        let base = start + R::UNIT * wraps as u64;
        let last = last_time::<R>(columns, 512, base);
        let greatest = last_in_order::<R>(columns, walk.clock.mode(), base, last);
        Some(Ahead {
            counts,
            base,
            last,
            greatest,
        })
    }
}

/// How many wraps 64 records stand for.
#[inline(always)]
fn wraps_in(columns: &Columns) -> u32
    requires { (i : ℕ) → i < 64 → wraps_at columns.now i ≤ 2 ^ 25 }
    ensures { result ≡ sum_to (wraps_at columns.now) 64 }
{
    let mut wraps = 0u32;
    for at in 0..64usize {
        wraps += columns.get(at).wraps;
    }
    wraps
}

/// The time of the last of 64 records whose code is below `below`, where this is the sum of all wraps with theirs.
#[inline(always)]
fn last_time<R: RecordLayout>(columns: &Columns, below: u16, sum: u64) -> Option<u64>
    requires { IsAfterAll R.UNIT columns.now sum }
    ensures { (base : ℕ) → sum ≡ base + R.UNIT * sum_to (wraps_at columns.now) 64
        → result ≡ last_time below base R.UNIT columns.now }
{
    let mut before = sum;
    let mut at = 64usize;
    'back: while at > 0 {
        at -= 1;
        let row = columns.get(at);
        if row.code < below {
            return Some(before + row.time as u64);
        }
        before -= R::UNIT * row.wraps as u64;
    }
    None
}

/// The time of the last event in order of 64 records, where this is that of their last event.
#[inline(always)]
fn last_in_order<R: RecordLayout>(
    columns: &Columns,
    mode: Mode,
    sum: u64,
    last: Option<u64>,
) -> Option<u64>
    requires { IsAfterAll R.UNIT columns.now sum }
    ensures { (base : ℕ) → sum ≡ base + R.UNIT * sum_to (wraps_at columns.now) 64
        → last ≡ last_time 512 base R.UNIT columns.now
        → result ≡ last_time (ordered_below mode) base R.UNIT columns.now }
{
    match mode {
        Mode::T2 => last_time::<R>(columns, 256, sum),
        Mode::T3 => last,
    }
}

/// The time of the first event that was kept, where those of 64 records are kept too, which come next.
#[inline(always)]
pub(crate) fn first_time<R: RecordLayout>(sums: &Sums, columns: &Columns, clock: &Clock) -> u64
    requires { InReach clock.now R.UNIT columns.now }
    ensures { (at : ℕ) (more : List ℕ) → staying 512 columns.now 64 ≡ at ∷ more → result
        ≡ (if sums.now.kept then sums.now.first else time_in (base_of clock.now) R.UNIT columns.now at) }
{
    if sums.kept {
        return sums.first;
    }
    first_event::<R>(columns, clock.base())
}

/// The time of the first event of 64 records, if they have one, where this is the sum of the wraps before them.
#[inline(never)]
fn first_event<R: RecordLayout>(columns: &Columns, base: u64) -> u64
    requires { (i : ℕ) → i < 64 → time_in base R.UNIT columns.now i < 2 ^ 64 }
    ensures { (at : ℕ) (more : List ℕ) → staying 512 columns.now 64 ≡ at ∷ more
        → result ≡ time_in base R.UNIT columns.now at }
{
    let mut before = base;
    for at in 0..64usize {
        let row = columns.get(at);
        before += R::UNIT * row.wraps as u64;
        if row.code < 512 {
            return before + row.time as u64;
        }
    }
    before
}

/// The codes below this one are those of events in order.
#[inline(always)]
pub(crate) fn ordered_below(mode: Mode) -> u16
    ensures { result ≡ ordered_below mode }
{
    match mode {
        Mode::T2 => 256,
        Mode::T3 => 512,
    }
}
