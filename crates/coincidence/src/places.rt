// Lags in reach, and windows over some of them.
ghost use Rattle.std.specs.Prelude.{◌+◌, ◌≤◌};

use lag_ring::Side;
use tally_base::CoincidenceSet;

/// How many lags a window serves at most, and how many places after them it has for later bins.
pub(crate) const MOST_LAGS: u32 = 4096;

/// Some of the lags in reach, in one direction.
#[derive(Clone, Copy)]
pub(crate) struct Lags {
    /// What the table was opened with.
    pub(crate) set: CoincidenceSet,
    /// The side of the earlier photons.
    pub(crate) direction: Side,
    /// The least of them.
    pub(crate) from: u32,
    /// How many they are.
    pub(crate) count: u32,
    ghost within: { from + count ≤ set.reach + 1 },
}

/// Windows in which later entries, and all that stand before them by some of the lags in reach, have their places.
#[derive(Clone, Copy)]
pub(crate) struct Places {
    /// What the table was opened with.
    pub(crate) set: CoincidenceSet,
    /// The least index of the later ones.
    pub(crate) low: u64,
    /// An index that is above theirs.
    pub(crate) high: u64,
    /// A number that no place has more photons of either group than.
    pub(crate) most: usize,
    /// How many lags come before those of the windows.
    pub(crate) base: u32,
    ghost within: { base ≤ set.reach },
}

impl Places {
    ghost use Rattle.std.specs.Prelude.{◌≡◌};
    ghost use Rattle.tally_base.specs.Settings.{coincidence_view};
    ghost use Rattle.coincidence.specs.Closing.{lags_of};

    /// How many lags the windows serve.
    #[inline(always)]
    pub(crate) fn lags(self) -> u32
        ensures { result ≡ lags_of (coincidence_view self.set) self.base }
    {
        (self.set.reach - self.base).min(MOST_LAGS)
    }
}
