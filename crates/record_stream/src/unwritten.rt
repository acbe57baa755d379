// Events that are counted, and given to nobody.
ghost use Rattle.std.specs.Prelude.{◌≡◌};

use crate::ahead::Ahead;
use crate::columns_taker::TakesColumns;
use crate::taker::EventTaker;
use abs_time::{Clock, is_ordered, orders_markers};
use lane_decode::Columns;
use record_layout::RecordLayout;
use tally_base::{Block, Event, Failed, Mode, TABLE_BLOCK};

/// Keeps no events: counts them and notes the latest time in order.
#[derive(Drop)]
pub struct Unwritten {
    pub mode: Mode,
    /// How many events came.
    pub taken: u64,
    /// The greatest time of the events in order that were not late.
    pub floor: u64,
}

impl EventTaker for Unwritten {
    ghost use Rattle.std.{specs.Prelude.refl, proofs.Common.◌∙◌};
    ghost use Rattle.record_stream.specs.Counted.{HasCounted, counted_none};

    ghost got = { λ s t l. HasCounted s.mode t.mode s.taken t.taken s.floor t.floor l };

    ghost broke = { λ s t l. ⊥ };

    ghost mode = { λ t. t.mode };

    ghost taken = { λ t. t.taken };

    ghost floor = { λ t. t.floor };

    ghost faults = { λ t. 0 };

    ghost same = { λ s t. t.mode ≡ s.mode };

    ghost got_none = { λ t. counted_none _ _ _ };

    ghost taken_is = { λ s t l is. is.counted };

    ghost floor_is = { λ s t l is. is.moved };

    ghost same_none = { λ t. refl };

    ghost same_more = { λ t u v p q. q ∙ p };

    #[inline(always)]
    fn take(&mut self, event: &Event, late: bool) -> Result<(), Failed> {
        self.taken += 1;
        if is_ordered(self.mode, event) && !late {
            self.floor = event.time;
        }
        Ok(())
    }

    fn take_block(&mut self, block: &mut Block<TABLE_BLOCK>) -> Result<(), Failed> {
        self.taken += block.len() as u64;
        self.floor = block.floor_after(orders_markers(self.mode), self.floor);
        Ok(())
    }
}

impl TakesColumns for Unwritten {
    #[inline(always)]
    fn take_columns<R: RecordLayout>(
        &mut self,
        _clock: &Clock,
        _columns: &Columns,
        ahead: &Ahead,
    ) -> Result<(), Failed> {
        self.taken += ahead.counts.photons + ahead.counts.markers;
        let floor = ahead.greatest.unwrap_or(self.floor);
        self.floor = floor;
        Ok(())
    }
}
