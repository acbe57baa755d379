// Later entries, and those before them that they may reach.
ghost use Rattle.std.specs.Prelude.{◌≡◌, ◌-◌, ◌≤◌, ◌++◌, length, take, drop, filter, nat_lt, nat_le};
ghost use Rattle.{lag_ring.specs.Ring.IsRising, coincidence.specs.Closing.{placed, HasWindow, HasWindow-prop}};

use crate::places::{MOST_LAGS, Places};
use lag_ring::Entry;

/// Later entries, and all that stand before them by some of the lags in reach, in the order of their rising indices:
/// those of a ring, in two slices, and of the later ones themselves.
#[derive(Clone, Copy)]
pub(crate) struct Stretch<'a> {
    /// Windows in which they have their places.
    pub(crate) places: Places,
    /// The first of those of the ring.
    pub(crate) front: &'a [Entry],
    /// The others of the ring.
    pub(crate) back: &'a [Entry],
    /// Those of the later ones.
    pub(crate) own: &'a [Entry],
    /// The later ones.
    pub(crate) later: &'a [Entry],
    ghost window: { HasWindow places (front.now ++ back.now ++ own.now) later.now } by { HasWindow-prop places (front.now ++ back.now ++ own.now) later.now },
}

/// How many of rising entries are below an index.
fn count_below(entries: &[Entry], index: u64) -> usize
    requires rising { IsRising entries.now }
    ensures below { take result entries.now ≡ filter (λ e. nat_lt e.index index) entries.now }
    ensures above { drop result entries.now ≡ filter (λ e. nat_le index e.index) entries.now }
    ensures within { result ≤ length entries.now }
{
    entries.partition_point(
        |e: &Entry| -> bool
            ensures { result ≡ nat_lt e.now.index index }
        { e.index < index },
    )
}

/// Those of rising entries that later ones may reach at the lags of windows.
#[tactic(auto, using(lag_ring::proofs::Rising::rising_drop))]
fn placed(places: Places, entries: &[Entry]) -> &[Entry]
    requires rising { IsRising entries.now }
    ensures { result.now ≡ placed places.base places.low places.high entries.now }
{
    let from = places
        .low
        .saturating_sub(u64::from(places.base + MOST_LAGS));
    let upto = places.high.saturating_sub(u64::from(places.base));
    let rest = &entries[count_below(entries, from)..];
    &rest[..count_below(rest, upto)]
}

impl<'a> Stretch<'a> {
    ghost use Rattle.coincidence.specs.Stretch.{reached};

    /// The same at the lags of one window, after so many.
    #[tactic(auto, using(lag_ring::proofs::Rising::rising_front, lag_ring::proofs::Rising::rising_back, crate::proofs::LagPairs::placed_append))]
    pub(crate) fn at(self, base: u32) -> Stretch<'a>
        requires within { base ≤ self.places.set.reach }
        ensures set { result.places.set ≡ self.entry.places.set }
        ensures base { result.places.base ≡ base }
        ensures later { result.later.now ≡ self.entry.later.now }
        ensures reached { reached result ≡ placed base self.entry.places.low self.entry.places.high (reached self.entry) }
    {
        let was = self.places;
        let places = Places {
            set: was.set,
            low: was.low,
            high: was.high,
            most: was.most,
            base,
        };
        Stretch {
            places,
            front: placed(places, self.front),
            back: placed(places, self.back),
            own: placed(places, self.own),
            later: self.later,
        }
    }
}
