// Laws of the definitions, each as the contract of a function that does nothing.
ghost use Rattle.std.specs.Prelude.{◌≡◌, ◌+◌, ◌-◌, ◌<◌, ◌≤◌, ℕ};
ghost use Rattle.{count_trace.specs.TraceCounts.in_trace_bin, long_trace.specs.{declared.trace.LongTrace.LongTrace, LongTrace.held, Texts.{span, counts, above, in_all_frequencies}}};
ghost use Rattle.tally_base.specs.{Settings.TraceView, Tally.History};

/// The last bin of the span of a trace isn't empty, and each after it is.
pub fn the_span_ends_with_its_last_bin()
    ensures last { (set : TraceView) (h : History) → 0 < span set h → 0 < in_trace_bin set (span set h - 1) h }
    ensures behind { (set : TraceView) (h : History) (bin : ℕ) → span set h ≤ bin → in_trace_bin set bin h ≡ 0 }
{}

/// Each bin up to the last that isn't empty has a count with a number of its own, or a greater one.
pub fn each_bin_has_one_count()
    ensures { (set : TraceView) (h : History)
        → in_all_frequencies (counts set (span set h) h) + above (counts set (span set h) h)
        ≡ span set h }
{}

/// A trace keeps at most 1,032 entries, whatever the file.
pub fn a_trace_keeps_little()
    ensures { (trace : LongTrace) → held trace ≤ 1032 }
{}
