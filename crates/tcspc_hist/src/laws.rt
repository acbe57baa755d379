// Laws of the definitions, each as the contract of a function that does nothing.
ghost use Rattle.std.specs.Prelude.{◌≡◌, ◌+◌};
ghost use Rattle.{tally_base.specs.{Settings.HistView, Tally.{History, in_all_bins, photons_of_group}}, tcspc_hist.specs.HistogramCounts.{in_bin, count_over}};

/// Each photon of the group counts once, in a bin or past the last.
pub fn each_photon_counts_once()
    ensures { (set : HistView) (h : History)
        → in_all_bins set.bins (λ b. in_bin set b h) + count_over set h
        ≡ photons_of_group set.group h }
{}
