// Laws of the definitions, each as the contract of a function that does nothing.
ghost use Rattle.std.specs.Prelude.{◌≡◌, ◌+◌};
ghost use Rattle.{tally_base.specs.{Settings.TraceView, Tally.{History, in_all_bins, photons_of_group}}, count_trace.specs.TraceCounts.{in_trace_bin, count_before, count_beyond}};

/// Each photon of the group counts once, in a bin, before the origin or past the last bin.
pub fn each_photon_counts_once()
    ensures { (set : TraceView) (h : History)
        → in_all_bins set.bins (λ b. in_trace_bin set b h) + count_before set h + count_beyond set h
        ≡ photons_of_group set.group h }
{}
