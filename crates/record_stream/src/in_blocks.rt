// Events in blocks.
ghost use Rattle.std.{specs.Prelude.{◌≡◌, ◌+◌, ◌<◌, ◌≤◌, [], true, length, OnOk, OnErr}, proofs.Props.props};
ghost use Rattle.{abs_time.proofs.Floors.kind_fits-prop, tally_base.{specs.{FaultCounts.FailsOnce, Columns.{sorted, gathered}}, proofs.Floors.in_order-prop}, record_stream.specs.InBlocks.GoesOn};
ghost use Rattle.record_stream.specs.InBlocks.{Breaks, Gives, GivesWay, Waits};

use crate::ahead::Ahead;
use crate::blocks::put_events;
use crate::columns_taker::TakesColumns;
use crate::taker::EventTaker;
use abs_time::Clock;
use lane_decode::Columns;
use record_layout::RecordLayout;
use tally_base::{BLOCK_SIZE, Block, Event, Failed, TABLE_BLOCK};

/// Gives a taker the events that wait, so that none does.
pub(crate) fn give_all<S: EventTaker>(
    taker: &mut S,
    block: &mut Block<TABLE_BLOCK>,
) -> Result<(), Failed>
    requires waits { Waits S.EventTaker taker.old block.old }
    ensures gives { Gives S.EventTaker taker.old taker.new (gathered block.old) [] result }
    ensures empty { gathered block.new ≡ [] }
    ensures unsorted { sorted block.new ≡ 0 }
{
    if block.len() == 0 {
        return Ok(());
    }
    let given = taker.take_block(block);
    block.clear();
    given
}

/// Gives a taker the events that wait, unless there is room for so many more.
#[inline(always)]
pub(crate) fn make_room<S: EventTaker>(
    taker: &mut S,
    block: &mut Block<TABLE_BLOCK>,
    more: usize,
) -> Result<(), Failed>
    requires waits { Waits S.EventTaker taker.old block.old × (more ≤ TABLE_BLOCK) }
    ensures gives { Gives S.EventTaker taker.old taker.new (gathered block.old)
        (gathered block.new) result }
    ensures crowded { OnErr result (TABLE_BLOCK < length (gathered block.old) + more) }
    ensures waits { Waits S.EventTaker taker.new block.new }
    ensures room { length (gathered block.new) + more ≤ TABLE_BLOCK }
{
    if block.len() + more > TABLE_BLOCK {
        return give_all(taker, block);
    }
    Ok(())
}

/// Gives a taker the events that wait, unless a late one may pass them.
#[inline(always)]
pub(crate) fn give_before_late<S: EventTaker>(
    taker: &mut S,
    block: &mut Block<TABLE_BLOCK>,
) -> Result<(), Failed>
    requires waits { Waits S.EventTaker taker.old block.old }
    ensures { GivesWay S.EventTaker taker.old taker.new block.old block.new result }
{
    if taker.lets_late_pass() {
        return Ok(());
    }
    give_all(taker, block)
}

/// Gives a taker its events in blocks. It lives for one call of a stream.
#[derive(Drop)]
pub struct InBlocks<'t, S: EventTaker> {
    pub taker: &'t mut S,
    // The events that it is given next, with room for those of 64 words more.
    pub block: Block<TABLE_BLOCK>,
    ghost waits: { Waits S.EventTaker taker.now block } by { Prim.hlevel (props, in_order-prop, kind_fits-prop) },
    ghost room: { length (gathered block) + 64 ≤ 1024 },
}

impl<'t, S: EventTaker> EventTaker for InBlocks<'t, S> {
    ghost use Rattle.std.{specs.Prelude.refl, proofs.Common.{◌∙◌}};
    ghost use Rattle.record_stream.specs.InBlocks.{taken_with, floor_with, goes_on-none};

    ghost got = { λ s t l. GoesOn S.EventTaker s.taker.now t.taker.now (gathered s.block) (gathered t.block) l };

    ghost broke = { λ s t l. Breaks S.EventTaker s.taker.now t.taker.now (gathered s.block) l };

    ghost mode = { λ t. S.mode t.taker.now };

    ghost taken = { λ t. taken_with S.EventTaker t.taker.now (gathered t.block) };

    ghost floor = { λ t. floor_with S.EventTaker t.taker.now (gathered t.block) };

    ghost faults = { λ t. S.faults t.taker.now };

    ghost same = { λ s t. (t.taker.ghost_name ≡ s.taker.ghost_name) × S.same s.taker.now t.taker.now };

    ghost got_none = { λ t. goes_on-none _ _ _ };

    ghost taken_is = { λ s t l is. is.counted };

    ghost floor_is = { λ s t l is. is.moved };

    ghost same_none = { λ t. (refl, S.same_none _) };

    ghost same_more = { λ t u v p q. (q.0 ∙ p.0, S.same_more _ _ _ p.1 q.1) };

    /// A late one is given at once.
    #[inline(always)]
    fn take(&mut self, event: &Event, late: bool) -> Result<(), Failed> {
        if late {
            give_before_late(self.taker, &mut self.block)?;
            return self.taker.take(event, true);
        }
        self.block.push(event);
        make_room(self.taker, &mut self.block, BLOCK_SIZE)
    }

    fn take_block(&mut self, block: &mut Block<TABLE_BLOCK>) -> Result<(), Failed> {
        let more = block.len();
        if more == 0 {
            return Ok(());
        }
        make_room(self.taker, &mut self.block, more)?;
        self.block.push_front(block, more);
        make_room(self.taker, &mut self.block, BLOCK_SIZE)
    }
}

impl<'t, S: EventTaker> TakesColumns for InBlocks<'t, S> {
    #[inline(always)]
    fn take_columns<R: RecordLayout>(
        &mut self,
        clock: &Clock,
        columns: &Columns,
        _ahead: &Ahead,
    ) -> Result<(), Failed> {
        put_events::<R>(clock, columns, 512, &mut self.block);
        make_room(self.taker, &mut self.block, BLOCK_SIZE)
    }
}
