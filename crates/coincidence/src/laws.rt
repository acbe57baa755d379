// Laws of the definitions and of tables, each as the contract of a function that does nothing.
ghost use Rattle.std.specs.Prelude.{◌≡◌, ℕ, ◌-◌, ◌*◌, ◌≤◌, Bool};
ghost use Rattle.{tally_base.specs.{Settings.{CoincidenceView, StartStopView}, Tally.History}, coincidence.specs.{declared.coincidence.Coincidence.Coincidence, Coincidence.{set_of, bins_kept}}};
ghost use Rattle.coincidence.specs.{Intervals.{count_intervals, count_pairs}, Pairs.{coincidences, exchanged}};

/// The intervals are the pairs of places i before j in the list of events, with a photon of the start
/// group at i, one of the stop group at j, and no photon of either group at a place between them.
#[tactic(auto, using(crate::proofs::Intervals::intervals_are_pairs))]
pub fn intervals_are_pairs_of_places()
    ensures { (set : StartStopView) (test : ℕ → Bool) (h : History) → count_intervals set test h ≡ count_pairs set test h }
{}

/// No table of coincidences keeps more closed bins than its reach.
#[tactic(auto, using(crate::specs::Coincidence::few_bins))]
pub fn few_bins()
    ensures { (t : Coincidence) → bins_kept t ≤ (set_of t).reach }
{}

/// Exchanged groups turn the differences: where a cell is one tick wide, each cell counts what the cell of
/// the opposite difference counted.
pub fn exchanged_groups_turn_the_differences()
    ensures { (set : CoincidenceView) (c : ℕ) (h : History)
        → set.width ≡ 1
        → c ≤ 2 * set.reach
        → coincidences (exchanged set) c h ≡ coincidences set (2 * set.reach - c) h }
{}
