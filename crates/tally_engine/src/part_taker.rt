// The taker of a stream's events that gives them to every table.
ghost use Rattle.std.specs.Prelude.{◌≡◌, All};
ghost use Rattle.{gate_plan.specs.Groups.sorting_of, tally_engine.specs.Give.Standing};

use crate::give::give;
use crate::part::Part;
use abs_time::orders_markers;
use gate_plan::Gates;
use record_stream::EventTaker;
use std::sync::ledger::Ledger;
use tally_base::{Block, Event, Failed, Mode, Steps, TABLE_BLOCK, Tally};

/// Gives each event that isn't late to every table, with its groups. It keeps none, and lives for one piece, or for
/// the end.
#[derive(Drop)]
pub(crate) struct PartTaker<'g, 'p, 's, L: Ledger> {
    pub(crate) gates: &'g Gates,
    pub(crate) parts: &'p mut Vec<Part>,
    pub(crate) steps: &'s mut Steps<L>,
    pub(crate) mode: Mode,
    /// How many events came, with the late ones, which the tables aren't given.
    pub(crate) taken: u64,
    /// The greatest time of the events in order that were not late.
    pub(crate) floor: u64,
    ghost standing: { All (Standing ⟦<Part as Tally>⟧ mode taken floor) parts.now.items },
}

impl<'g, 'p, 's, L: Ledger> EventTaker for PartTaker<'g, 'p, 's, L> {
    ghost use Rattle.tally_engine.specs.Give.{Gave, gave_none, SameTaker, same_taker_none, same_taker_more};

    ghost got = { λ s t l. Gave ⟦<Part as Tally>⟧ (sorting_of s.gates.now) (sorting_of t.gates.now)
        s.mode t.mode s.taken t.taken s.floor t.floor s.parts.now.items t.parts.now.items l };

    ghost broke = { λ s t l. ⊥ };

    ghost mode = { λ t. t.mode };

    ghost taken = { λ t. t.taken };

    ghost floor = { λ t. t.floor };

    ghost faults = { λ t. 0 };

    ghost same = { λ t u. SameTaker ⟦<Part as Tally>⟧ t.parts.ghost_name u.parts.ghost_name
        t.steps.ghost_name u.steps.ghost_name t.parts.now.items u.parts.now.items };

    ghost got_none = { λ t. gave_none ⟦<Part as Tally>⟧ _ _ _ _ _ };

    ghost taken_is = { λ s t l is. is.counted };

    ghost floor_is = { λ s t l is. is.moved };

    ghost same_none = { λ t. same_taker_none ⟦<Part as Tally>⟧ _ _ _ };

    ghost same_more = { λ t u v. same_taker_more ⟦<Part as Tally>⟧ _ _ _ _ _ _ _ _ _ };

    #[inline(always)]
    fn lets_late_pass(&self) -> bool {
        true
    }

    /// Another one than a late one goes as a block of one.
    fn take(&mut self, event: &Event, late: bool) -> Result<(), Failed> {
        if late {
            self.taken += 1;
            return Ok(());
        }
        let mut block = Block::new();
        block.push(event);
        self.take_block(&mut block)
    }

    fn take_block(&mut self, block: &mut Block<TABLE_BLOCK>) -> Result<(), Failed> {
        let taken = self.taken + block.len() as u64;
        let floor = block.floor_after(orders_markers(self.mode), self.floor);
        give(self.gates, block, self.parts, self.steps);
        self.taken = taken;
        self.floor = floor;
        Ok(())
    }
}
