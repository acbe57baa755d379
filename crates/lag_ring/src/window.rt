// The weights of entries in one of the two groups.
ghost use Rattle.std.specs.Prelude.{◌≡◌, ◌-◌, ◌^◌, ◌<◌, sum_by};
ghost use Rattle.lag_ring.specs.Bytes.{weight_of};

use crate::ring::Entry;

/// One of the two weights of an entry.
#[derive(Clone, Copy)]
pub enum Side {
    /// How many photons are in the first group.
    First,
    /// How many photons are in the second group.
    Second,
}

impl Side {
    ghost use Rattle.lag_ring.specs.Bytes.{weight_of};

    /// This weight of an entry.
    #[inline(always)]
    pub fn weight(self, entry: &Entry) -> u64
        ensures { result ≡ weight_of self entry.now }
    {
        match self {
            Side::First => entry.a,
            Side::Second => entry.b,
        }
    }
}

/// The weights of entries taken together, or 2^64 - 1 where they are that or more.
pub fn total_weight(side: Side, entries: &[Entry]) -> u64
    ensures total { result < 2 ^ 64 - 1 → sum_by (weight_of side) entries.now ≡ result }
{
    let mut total = 0u64;
    for entry in entries {
        total = total.saturating_add(side.weight(entry));
    }
    total
}
