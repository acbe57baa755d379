// Laws of the definitions, each as the contract of a function that does nothing.
ghost use Rattle.std.specs.Prelude.{◌≡◌, count_by};
ghost use Rattle.{tally_base.specs.{Settings.FoldView, Tally.History}, fold_count.specs.FoldCounts.{is_of_any, in_set, in_all_sets}};

/// Each photon of at least one of the groups is in one cell.
#[tactic(auto, using(crate::proofs::Totals::add_up))]
pub fn the_cells_add_up()
    ensures { (set : FoldView) (h : History)
        → in_all_sets set h ≡ count_by (is_of_any set.groups) h }
{}

/// A photon is in its own window, so no photon has the set of no groups.
pub fn no_photon_has_no_group()
    ensures { (set : FoldView) (h : History) → in_set set 0 h ≡ 0 }
{}
