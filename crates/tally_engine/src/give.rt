// A block of events to every table.
ghost use Rattle.std.specs.Prelude.{◌≡◌, All, false};
ghost use Rattle.{tally_base.specs.Columns.{sorted, gathered, events_in, IsSorted}, gate_plan.specs.{Groups.sorting_of, Histories.with_groups}, tally_engine.specs.Give.{Each, Closed, MayTake}};
ghost use Rattle.tally_engine.specs.Give.{HasTaken};

use crate::part::Part;
use gate_plan::{Gates, sort_events};
use std::sync::ledger::Ledger;
use tally_base::{Block, Steps, TABLE_BLOCK, Tally};

/// Gives the events of a block to every table, each photon with its shifted dtime, and each event with its
/// groups.
#[inline(never)]
pub(crate) fn give<L: Ledger>(
    gates: &Gates,
    block: &mut Block<TABLE_BLOCK>,
    parts: &mut [Part],
    steps: &mut Steps<L>,
)
    requires unsorted { sorted block.old ≡ 0 }
    requires may { All (MayTake ⟦<Part as Tally>⟧ (gathered block.old)) parts.old }
    ensures took { Each (HasTaken ⟦<Part as Tally>⟧ (gathered block.old)
        (with_groups (sorting_of gates.now) (gathered block.old))) parts.old parts.new }
{
    if block.len() > 0 {
        sort_events(gates, block);
        give_all(parts, block, steps);
    }
}

/// Gives the events of a sorted block to every table.
fn give_all<L: Ledger>(parts: &mut [Part], block: &Block<TABLE_BLOCK>, steps: &mut Steps<L>)
    requires sorted { IsSorted block.now }
    requires may { All (MayTake ⟦<Part as Tally>⟧ (gathered block.now)) parts.old }
    ensures took { Each (HasTaken ⟦<Part as Tally>⟧ (gathered block.now) (events_in block.now))
        parts.old parts.new }
{
    for part in parts.iter_mut() {
        part.events(block, steps);
    }
}

/// Closes every table.
pub(crate) fn close_all<T: Tally, L: Ledger>(parts: &mut [T], steps: &mut Steps<L>)
    requires open { All (λ t. T.closed t ≡ false) parts.old }
    ensures closed { Each (Closed T.Tally) parts.old parts.new }
{
    for part in parts.iter_mut() {
        part.close(steps);
    }
}
