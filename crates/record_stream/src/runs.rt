// The words of a block one after the other, but for runs of reserved ones.
ghost use Rattle.std.specs.Prelude.{◌≡◌, ◌<◌, ◌≤◌, ℕ, true, length, OnOk, slice_index};
ghost use Rattle.{ptu_definitions.specs.Words.numbers, lane_decode.specs.InColumns.row_at, record_stream.specs.Runs.EndsReserved};

use crate::blocks::{SettlesEvents, add_block};
use crate::count::stops_reserved;
use crate::taker::EventTaker;
use crate::walk::Walk;
use lane_decode::Columns;
use ptu_definitions::KindCounts;
use record_layout::RecordLayout;
use settle::Settle;
use tally_base::{BLOCK_SIZE, Fault};

/// How many places there are where a run of a block's reserved records may end.
const ENDS: usize = BLOCK_SIZE + 1;

/// For each place of a block's records, and the one after them: the first from it on whose record isn't reserved, or
/// the one after them.
#[inline(always)]
fn reserved_ends(columns: &Columns) -> [u8; ENDS]
    ensures { (from : ℕ) → from ≤ BLOCK_SIZE → EndsReserved columns.now from (slice_index result from) }
{
    let mut ends = [BLOCK_SIZE as u8; ENDS];
    let mut end = BLOCK_SIZE as u8;
    let mut at = BLOCK_SIZE;
    'back: while at > 0 {
        at -= 1;
        if columns.get(at).code <= 512 {
            end = at as u8;
        }
        ends[at] = end;
    }
    ends
}

/// The greatest code of a block's records: above 512 where one of them is reserved.
#[inline(always)]
fn greatest_code(columns: &Columns) -> u16
    ensures { (at : ℕ) → at < BLOCK_SIZE → (row_at columns.now at).code ≤ result }
{
    let mut greatest = 0u16;
    for at in 0..BLOCK_SIZE {
        greatest = greatest.max(columns.get(at).code);
    }
    greatest
}

impl Walk {
    ghost use Rattle.record_stream.{specs.Keeping.IsKeeping, specs.Runs.{IsBlock, LetsSkip, Skips}, specs.Settling.{CanWalk, Walks}};

    /// Whether a block has reserved records that can be skipped: they aren't refused, and there is room for all its records.
    #[inline(always)]
    fn lets_skip(&self, columns: &Columns) -> bool
        ensures { result ≡ true → LetsSkip self.now BLOCK_SIZE }
    {
        let room = self.policy.records - self.sums.records;
        greatest_code(columns) > 512
            && room >= BLOCK_SIZE as u64
            && !stops_reserved(self.policy.reserved)
    }

    /// Counts and places so many reserved records.
    #[inline(always)]
    fn skip(&mut self, many: u64)
        requires { LetsSkip self.old many }
        ensures { Skips self.old self.new many }
    {
        let counts = KindCounts {
            records: many,
            photons: 0,
            markers: 0,
            wraps: 0,
            reserved: many,
        };
        add_block(&mut self.sums, &counts, 0, None);
        let placed = self.clock.placed() + many;
        let base = self.clock.base();
        let greatest = self.clock.greatest();
        self.clock.go_on(placed, base, greatest);
    }

    /// Takes the words of a block, of which these are the records, one after the other, but reserved ones in runs:
    /// where they begin and end is as good as random, and a branch on it is costly.
    #[inline(never)]
    pub(crate) fn runs<R: RecordLayout, O: SettlesEvents, S: EventTaker>(
        &mut self,
        settle: &mut Settle,
        words: &[[u8; 4]],
        columns: &Columns,
        taker: &mut S,
    ) -> Result<(), Fault>
        requires can { CanWalk S.EventTaker O.is_for R.meaning self.old settle.old taker.old }
        requires block { IsBlock R.meaning R.UNIT columns.now words.now }
        ensures { Walks S.EventTaker self.old self.new settle.old settle.new taker.old taker.new
            (numbers words.now) result }
    {
        if !self.lets_skip(columns) {
            return self.words::<R, O, S>(settle, words, taker);
        }
        // A copy, whose fields the loop keeps in registers.
        let mut at = *self;
        let ends = reserved_ends(columns);
        let mut next = ends[0] as usize;
        at.skip(next as u64);
        'runs: while next < BLOCK_SIZE {
            match at.step::<R, O, S>(settle, u32::from_le_bytes(words[next]), taker) {
                Ok(()) => {}
                Err(fault) => {
                    *self = at;
                    return Err(fault);
                }
            }
            let end = ends[next + 1] as usize;
            at.skip((end - next - 1) as u64);
            next = end;
        }
        *self = at;
        Ok(())
    }
}
