// Laws of settling, each as the contract of a function that does nothing.
ghost use Rattle.std.specs.Prelude.{◌≡◌, ◌++◌, List, false};
ghost use Rattle.{tally_base.specs.declared.event.Event.Event, ptu_definitions.specs.Settled.{in_time, last_of, without_last}, settle.specs.{Settling.IsInOrder, Standing.{HasSettled, kept_back}}};
ghost use Rattle.settle.specs.{Standing.{reach_of, was_popped}, declared.settle.Settle.Settle};

/// The events emitted or popped, and then those kept back, are the kept list of the events pushed. Those
/// kept back are in order of time and then of place. Until one is popped, what was emitted is the settled
/// list of the events pushed.
pub fn kept_and_settled()
    ensures kept { (s : Settle) (pushed given : List Event) → HasSettled s pushed given
        → given ++ kept_back s ≡ in_time (reach_of s) pushed }
    ensures in_order { (s : Settle) (pushed given : List Event) → HasSettled s pushed given
        → IsInOrder (kept_back s) }
    ensures settled { (s : Settle) (pushed given : List Event) → HasSettled s pushed given
        → was_popped s ≡ false
        → given ≡ without_last (reach_of s) (in_time (reach_of s) pushed) }
    ensures rest { (s : Settle) (pushed given : List Event) → HasSettled s pushed given
        → was_popped s ≡ false
        → kept_back s ≡ last_of (reach_of s) (in_time (reach_of s) pushed) }
{}
