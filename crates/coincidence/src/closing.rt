// Bins that are closed together.
ghost use Rattle.std.specs.{Prelude.{◌≡◌, ◌-◌, ◌*◌, ◌<◌, ◌≤◌, ◌++◌, [], IsTrue, length, sum_by}, List.AllByRecursion};
ghost use Rattle.{tally_base.specs.Settings.coincidence_view, lag_ring.specs.Bytes.{weight_of, IsLight}, arrayvec.specs.ArrayVec.array_vec_len, coincidence.specs.Pairing.{bin_pairs, MayClose}};
ghost use Rattle.coincidence.specs.{Pairing.{Closes, HasRoom, Counts}, Closing.{weights_in, FitsWindow}};

use crate::lags::{are_near, pair_lags};
use crate::pairing::{Bin, Pairing, close, least_kept, pair_inside};
use crate::places::{MOST_LAGS, Places};
use crate::stretch::Stretch;
use arrayvec::ArrayVec;
use lag_ring::{Entry, LagRing, MOST_SPOTS, PairCells, Side, total_weight, weight_bound};
use std::sync::ledger::Ledger;
use tally_base::{CoincidenceSet, Steps, TABLE_BLOCK};

/// How many entries a ring has at least where a window pays.
pub(crate) const MANY: u32 = 64;

/// How many bins are closed together at least where a window pays.
const SOME: usize = 8;

/// No bin has an index from here on.
const END: u64 = 1 << 63;

/// Puts the entries of bins into an empty list.
#[inline(always)]
fn put_weights(entries: &mut ArrayVec<Entry, TABLE_BLOCK>, bins: &[Bin])
    requires empty { (entries.old.items ≡ []) × (array_vec_len entries.old ≡ 0) × (length bins.now ≤ TABLE_BLOCK) }
    ensures { entries.new.items ≡ weights_in bins.now }
{
    for bin in bins {
        entries.push(bin.weights);
    }
}

/// A number that no weight of the entries in a ring and of later ones is above. It is not 0.
#[tactic(auto, using(std::proofs::lemmas::Nat::le_or_l))]
fn weight_bound_of(ring: &LagRing, later: &[Entry]) -> u64
    ensures some { 0 < result }
    ensures light { IsLight result (ring.now.entries ++ later.now) }
{
    let (front, back) = ring.slices();
    weight_bound(front) | weight_bound(back) | weight_bound(later)
}

/// Whether entries have few photons of one group.
fn are_few(side: Side, entries: &[Entry]) -> bool
    ensures { IsTrue result → sum_by (weight_of side) entries.now ≤ MOST_SPOTS }
{
    total_weight(side, entries) <= MOST_SPOTS as u64
}

/// Whether later entries have their places in windows, and few photons: no entry more than so many.
fn fits_window(places: Places, ring: &LagRing, later: &[Entry]) -> bool
    requires most { (0 < places.most) × IsLight places.most (ring.now.entries ++ later.now) }
    requires some { (0 < length later.now) × (length later.now ≤ TABLE_BLOCK) }
    ensures { IsTrue result → FitsWindow places (ring.now.entries ++ later.now) later.now }
{
    let Places {
        low,
        high,
        most,
        ..
    } = places;
    most < 256
        && high < END
        && ring.newest() < END
        && low < high
        && high - low <= u64::from(MOST_LAGS)
        && are_near(low, high, later)
        && are_few(Side::First, later)
        && are_few(Side::Second, later)
}

/// Pairs the photons of each bin with one another.
fn pair_insides<L: Ledger>(
    cells: &mut PairCells,
    set: &CoincidenceSet,
    bins: &[Bin],
    steps: &mut Steps<L>,
)
    requires both { AllByRecursion (λ bin. bin.both ≤ bin.weights.a * bin.weights.b) bins.now }
    requires room { HasRoom (coincidence_view set.now) cells.old (λ c. sum_by (λ bin. bin_pairs (coincidence_view set.now) c bin []) bins.now) }
    ensures { Counts (coincidence_view set.now) cells.old cells.new steps.old steps.new
        (λ c. sum_by (λ bin. bin_pairs (coincidence_view set.now) c bin []) bins.now) (length bins.now) }
{
    for bin in bins {
        pair_inside(cells, set, bin, steps);
    }
}

/// Pairs bins over windows, and puts them among the closed ones. Those that no later photon reaches leave the ring.
fn close_together<L: Ledger>(
    pairing: &mut Pairing,
    places: Places,
    bins: &[Bin],
    later: &[Entry],
    steps: &mut Steps<L>,
)
    requires stands { MayClose (coincidence_view places.set) pairing.old bins.now }
    requires entries { later.now ≡ weights_in bins.now }
    requires window { FitsWindow places (pairing.old.ring.entries ++ later.now) later.now }
    ensures { Closes (coincidence_view places.set) pairing.old pairing.new bins.now steps.old steps.new }
{
    let Pairing { ring, cells, .. } = pairing;
    let (front, back) = ring.slices();
    let stretch = Stretch {
        places,
        front,
        back,
        own: later,
        later,
    };
    pair_lags(cells, stretch, steps);
    pair_insides(cells, &places.set, bins, steps);
    let last = later[later.len() - 1].index;
    ring.renew(later, least_kept(&places.set, last));
}

/// Pairs bins, over windows where they fit these and many are in reach, and else one by one, and puts them among the closed
/// ones.
fn close_part<L: Ledger>(
    pairing: &mut Pairing,
    set: &CoincidenceSet,
    bins: &[Bin],
    steps: &mut Steps<L>,
)
    requires some { (0 < length bins.now) × (length bins.now ≤ TABLE_BLOCK) }
    requires stands { MayClose (coincidence_view set.now) pairing.old bins.now }
    ensures { Closes (coincidence_view set.now) pairing.old pairing.new bins.now steps.old steps.new }
{
    let kept = pairing.ring.len();
    // So many pairs that it pays to go through all lags in reach.
    let dense = kept as usize * bins.len() >= set.reach as usize / 8;
    if kept >= MANY && bins.len() >= SOME && dense {
        let mut later = ArrayVec::new();
        put_weights(&mut later, bins);
        let places = Places {
            set: *set,
            low: bins[0].weights.index,
            high: bins[bins.len() - 1].weights.index.saturating_add(1),
            most: weight_bound_of(&pairing.ring, &later) as usize,
            base: 0,
        };
        if fits_window(places, &pairing.ring, &later) {
            close_together(pairing, places, bins, &later, steps);
            return;
        }
    }
    for bin in bins {
        close(pairing, set, bin, steps);
    }
}

/// How many bins there are before the first for which a window from the first one on has no place, or too many photons.
fn near_first(bins: &[Bin]) -> usize
    requires some { 0 < length bins.now }
    ensures { (0 < result) × (result ≤ length bins.now) }
{
    let Entry { index: low, a, b } = bins[0].weights;
    let last = bins[bins.len() - 1].weights.index;
    // The other bins have only photons of one block.
    if last.saturating_sub(low) < u64::from(MOST_LAGS) && a.max(b) <= 1 {
        return bins.len();
    }
    let mut firsts = 0u64;
    let mut seconds = 0u64;
    for count in 0..bins.len() {
        let Entry { index, a, b } = bins[count].weights;
        firsts = firsts.saturating_add(a);
        seconds = seconds.saturating_add(b);
        let near = index.saturating_sub(low) < u64::from(MOST_LAGS);
        if count > 0 && !(near && firsts.max(seconds) <= MOST_SPOTS as u64) {
            return count;
        }
    }
    bins.len()
}

/// Pairs bins, and puts them among the closed ones: as many at once as a window takes.
pub(crate) fn close_all<L: Ledger>(
    pairing: &mut Pairing,
    set: &CoincidenceSet,
    bins: &[Bin],
    steps: &mut Steps<L>,
)
    requires few { length bins.now ≤ TABLE_BLOCK }
    requires stands { MayClose (coincidence_view set.now) pairing.old bins.now }
    ensures { Closes (coincidence_view set.now) pairing.old pairing.new bins.now steps.old steps.new }
{
    let mut rest = bins;
    while !rest.is_empty() {
        let (part, behind) = rest.split_at(near_first(rest));
        close_part(pairing, set, part, steps);
        rest = behind;
    }
}
