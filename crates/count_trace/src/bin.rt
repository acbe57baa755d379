// The bin of a time.
ghost use Rattle.std.specs.Prelude.{◌≡◌, ◌+◌, ◌-◌, ◌*◌, ◌/◌, ◌≤◌};

use tally_base::TraceSet;

/// A bin of a trace, or one of those that would follow its last.
#[derive(Clone, Copy)]
pub struct Bin {
    /// Its number, from 0.
    pub index: u64,
    /// The time at which it begins.
    pub low: u64,
}

impl Bin {
    /// The bin of a time.
    ///
    /// Most times fall in the bin of the time before them, and a time in the bin that is given costs no
    /// division.
    #[inline(always)]
    pub fn of(set: &TraceSet, kept: Bin, time: u64) -> Bin
        requires begun { set.now.origin ≤ time }
        requires edge { kept.low ≡ set.now.origin + kept.index * set.now.width }
        ensures index { result.index ≡ (time - set.now.origin) / set.now.width }
        ensures low { result.low ≡ set.now.origin + result.index * set.now.width }
    {
        if kept.low <= time && time - kept.low < set.width {
            return kept;
        }
        let index = (time - set.origin) / set.width;
        Bin {
            index,
            low: set.origin + index * set.width,
        }
    }
}
