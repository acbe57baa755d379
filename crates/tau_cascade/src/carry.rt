// What goes from level to level.
ghost use Rattle.std.specs.Prelude.{◌≡◌, ◌+◌, ◌<◌, ◌≤◌, true, [], ◌∷◌, length};
ghost use Rattle.{tally_base.specs.{Settings.correlation_view, Tally.History}, tau_cascade.specs.{Levels.{Chain, LevelIs, spent}, Bins.{CanCome, Carries}, Opens.coming_bins, Comes.HasCome}};

use crate::bins::{LEVELS, LIST, NO_BIN};
use crate::level::{Coming, Level};
use crate::scratch::Scratch;
use lag_ring::Entry;
use std::sync::ledger::Ledger;
use tally_base::{CorrelationSet, Steps};

/// Gives bins of a list to the first of these levels, and those that this closes to the next level, and so on. What is in
/// the list is lost.
pub(crate) fn carry_all<L: Ledger>(
    levels: &mut [Level],
    set: &CorrelationSet,
    list: &mut [Entry],
    coming: Coming,
    scratch: &mut Scratch,
    steps: &mut Steps<L>,
)
    requires comes { HasCome list.old coming scratch.old }
    requires stands { ∥ ((came : History) × (xs : History) × CanCome (correlation_view set.now) coming.level
        levels.old (coming_bins coming list.old) came xs) ∥₁ }
    requires depth { coming.level + length levels.old ≤ LEVELS }
    ensures follows { Carries (correlation_view set.now) coming.level levels.old levels.new
        (coming_bins coming list.old) }
    ensures steps { steps.new + spent levels.old ≡ steps.old + spent levels.new }
{
    if coming.count > 0 {
        if let Some((first, rest)) = levels.split_first_mut() {
            let next = first.take(set, list, coming, scratch, steps);
            carry_all(rest, set, list, next, scratch, steps);
        }
    }
}

/// Closes the open bin of a level, and gives it to the levels above.
fn end_first<L: Ledger>(
    first: &mut Level,
    rest: &mut [Level],
    set: &CorrelationSet,
    level: u32,
    steps: &mut Steps<L>,
)
    requires stands { ∥ ((came : History) × CanCome (correlation_view set.now) level (first.old ∷ rest.old) [] came []) ∥₁ }
    requires depth { level + 1 + length rest.old ≤ LEVELS }
    ensures first { (came : History) → CanCome (correlation_view set.now) level (first.old ∷ rest.old) [] came []
        → LevelIs (correlation_view set.now) level true first.new came [] }
    ensures rest { (came : History) → CanCome (correlation_view set.now) level (first.old ∷ rest.old) [] came []
        → CanCome (correlation_view set.now) (level + 1) rest.new [] came [] }
    ensures steps { steps.new + (first.old.cells.added + spent rest.old) ≡ steps.old + (first.new.cells.added + spent rest.new) }
{
    let mut list = [NO_BIN; LIST];
    let mut scratch = Scratch::empty();
    let next = first.end(set, level, &mut list, &mut scratch, steps);
    carry_all(rest, set, &mut list, next, &mut scratch, steps);
}

/// Closes the open bins from the first level upwards.
pub(crate) fn end_all<L: Ledger>(
    levels: &mut [Level],
    set: &CorrelationSet,
    level: u32,
    steps: &mut Steps<L>,
)
    requires stands { ∥ ((came : History) × CanCome (correlation_view set.now) level levels.old [] came []) ∥₁ }
    requires depth { level + length levels.old ≤ LEVELS }
    ensures follows { (came : History) → CanCome (correlation_view set.now) level levels.old [] came [] → Chain true (correlation_view set.now) level levels.new came }
    ensures steps { steps.new + spent levels.old ≡ steps.old + spent levels.new }
{
    if let Some((first, rest)) = levels.split_first_mut() {
        end_first(first, rest, set, level, steps);
        end_all(rest, set, level + 1, steps);
    }
}
