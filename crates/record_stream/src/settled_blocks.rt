// The words of a piece in blocks, where events are put in their places.
ghost use Rattle.std.specs.Prelude.{◌≡◌, ◌≢◌, Some, IfSome};
ghost use Rattle.{tally_base.specs.Columns.gathered, record_stream.specs.OneMore.{summed, first_with, last_with}};

use crate::ahead::{Ahead, ordered_below};
use crate::blocks::{GivingOrder, SettlesEvents, add_block, first_kept, put_events};
use crate::columns_taker::TakesColumns;
use crate::letting_go::let_go;
use crate::sums::Sums;
use crate::walk::Walk;
use abs_time::is_ordered;
use arrayvec::ArrayVec;
use lane_decode::Columns;
use record_layout::RecordLayout;
use settle::{Settle, Settled};
use tally_base::{BLOCK_SIZE, Block, Event, Fault, TABLE_BLOCK};

/// The time of the first event that was kept, where those of a block are kept too, and that of their last. Where there is
/// no last, the first means nothing.
fn times_of(sums: &Sums, block: &Block<TABLE_BLOCK>) -> (u64, Option<u64>)
    ensures last { last_with None (gathered block.now) ≡ result.1 }
    ensures first { IfSome result.1 (λ t. Some result.0
        ≡ first_with (summed sums.now).first (gathered block.now)) }
{
    let len = block.len();
    if len == 0 {
        return (0, None);
    }
    let first = first_kept(sums.kept, sums.first, block.time(0));
    (first, Some(block.time(len - 1)))
}

/// Each event in its place.
#[derive(Drop)]
pub(crate) struct InPlace {
    columns: Columns,
    /// The events of the columns that are in order.
    block: Block<TABLE_BLOCK>,
    /// Those that are let go with them.
    out: Block<TABLE_BLOCK>,
    /// Those that stay.
    stay: ArrayVec<Event, 64>,
}

impl SettlesEvents for InPlace {
    ghost is_for = { λ k. k ≢ 0 };

    /// It is left out if it isn't in order, and otherwise the least of it and those kept back goes.
    fn settle_event(walk: &Walk, settle: &mut Settle, event: Event, _late: bool) -> Settled {
        if !is_ordered(walk.clock.mode(), &event) {
            return Settled {
                emitted: None,
                late: false,
            };
        }
        settle.push(event)
    }
}

impl GivingOrder for InPlace {
    fn new() -> InPlace {
        InPlace {
            columns: Columns::new(),
            block: Block::new(),
            out: Block::new(),
            stay: ArrayVec::new(),
        }
    }

    #[inline(always)]
    fn take_block<R: RecordLayout, W: TakesColumns>(
        &mut self,
        walk: &mut Walk,
        settle: &mut Settle,
        words: &[[u8; 4]],
        taker: &mut W,
    ) -> Result<(), Fault> {
        let Some(ahead) = Ahead::of::<R>(walk, words, &mut self.columns) else {
            return walk.runs::<R, InPlace, W>(settle, words, &self.columns, taker);
        };
        let clock = walk.clock;
        let below = ordered_below(clock.mode());
        self.block.clear();
        put_events::<R>(&clock, &self.columns, below, &mut self.block);
        let_go(walk, &self.block, settle, &mut self.out, &mut self.stay);
        let (first, last) = times_of(&walk.sums, &self.out);
        add_block(&mut walk.sums, &ahead.counts, first, last);
        let placed = clock.placed() + ahead.counts.records;
        let low = clock.greatest();
        let greatest = ahead.greatest.unwrap_or(low);
        walk.clock.go_on(placed, ahead.base, greatest);
        walk.given += self.out.len() as u64;
        if taker.take_block(&mut self.out).is_err() {
            return Err(Fault::WriteFault);
        }
        Ok(())
    }
}
