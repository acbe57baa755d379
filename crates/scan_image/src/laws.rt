// Laws of the definitions, each as the contract of a function that does nothing.
ghost use Rattle.std.specs.{Prelude.{◌≡◌, ◌+◌, Bool, false, None, List, [], ◌++◌, option_to_list, if◌then◌else◌}, List.{list_any, last_or}};
ghost use Rattle.{tally_base.specs.{Settings.ImageView, Tally.{History, photons_of_group}}, scan_image.specs.{ImageCounts.{count_outside, in_all_cells}, Places.{last_that, until_last, behind_last}}};
ghost use Rattle.scan_image.specs.Places.{from_last, Mark};

/// Each photon of the group counts once, in a cell or outside the image.
#[tactic(auto, using(crate::proofs::Totals::total))]
pub fn each_photon_counts_once()
    ensures { (set : ImageView) (h : History) → in_all_cells set h + count_outside set h ≡ photons_of_group set.group h }
{}

/// The last marker that passes a test parts the markers: up to it, and after it, where none passes.
pub fn the_last_marker_parts_them()
    ensures parts { (p : Mark → Bool) (ms : List Mark) → until_last p ms ++ behind_last p ms ≡ ms }
    ensures ends { (p : Mark → Bool) (ms : List Mark) → last_or None (until_last p ms) ≡ last_that p ms }
    ensures behind { (p : Mark → Bool) (ms : List Mark) → list_any p (behind_last p ms) ≡ false }
    ensures from { (p : Mark → Bool) (ms : List Mark) → from_last p ms
        ≡ (if list_any p ms then option_to_list (last_that p ms) ++ behind_last p ms else []) }
{}
