// Pairs of bins that are laid close together: a bin further from the one before it than the lags reach is laid
// just out of reach, so that all have places in a short window.
ghost use Rattle.std.specs.{Prelude.{◌≡◌, ℕ, ◌+◌, ◌-◌, ◌*◌, ◌/◌, ◌%◌, ◌^◌, ◌<◌, ◌≤◌, ◌==◌, true, length, min, slice_index, sum_by, take, drop, ◌++◌, if◌then◌else◌}, List.AllByRecursion};
ghost use Rattle.{lag_ring.specs.{declared.window.Side.TheVariants.Second, Bytes.{product_at, IsLight}}, tau_cascade.specs.Dense.{bins_of, laid, placed, IsLaid, IsZero, FitLanes, HavePlaces}};
ghost use Rattle.tau_cascade.specs.{Dense.{HavePaired, AreWithin, HaveRoom}, Bins.IsSpaced};

use crate::bins::{Bins, LagRange, MOST_LAGS};
use lag_ring::Entry;
use std::simd::Simd;

/// How many bins are paired over a window at most.
pub(crate) const CLOSE_PART: usize = 250;

/// How many places a window has before that of the first bin: no fewer than it has lanes and lags are skipped.
pub(crate) const TOP: usize = 192;

/// How many places a window has.
pub(crate) const PLACES: usize = 8640;

/// How many photons of one group are too many for a bin that is laid.
pub(crate) const TOO_HEAVY: u64 = 2048;

/// Places for bins that are laid close together, or for two halves of a grid: between two uses all are empty.
#[derive(Drop)]
pub(crate) struct Window {
    pub(crate) places: [u16; PLACES],
    ghost empty: { IsZero places },
}

/// The last of bins that were laid, and what is known of all.
#[derive(Clone, Copy)]
pub(crate) struct Laying {
    /// The index of the last bin.
    pub(crate) index: u64,
    /// How far after the first bin it was laid.
    pub(crate) place: u64,
    /// A number that no bin has more photons of either group than.
    pub(crate) heaviest: u64,
}

/// Lays a bin, so many levels up, after another one: as far after it as it is, and no further than just out of reach.
/// Adds the lowest 16 bits of its weight in the first group to what the window has at its place.
#[inline(always)]
#[tactic(auto, using(std::proofs::lemmas::Nat::le_or_l, std::proofs::lemmas::Nat::le_or_r))]
fn lay_one(window: &mut [u16; PLACES], was: Laying, bin: &Entry, levels: u32, reach: u64) -> Laying
    requires place { (was.place + reach + TOP < PLACES) × (levels < 64)
        × (was.index ≤ bin.now.index / 2 ^ levels) }
    ensures last { (result.index ≡ bin.now.index / 2 ^ levels) × (result.place
        ≡ was.place + min (bin.now.index / 2 ^ levels - was.index) reach) }
    ensures heaviest { (was.heaviest ≤ result.heaviest) × (bin.now.a ≤ result.heaviest)
        × (bin.now.b ≤ result.heaviest) }
    ensures weights { (p : ℕ) → p < PLACES → slice_index window.new p
        ≡ (if result.place + TOP == p
        then (slice_index window.old p + bin.now.a % 2 ^ 16) % 2 ^ 16 else slice_index window.old p) }
    ensures light { slice_index window.old (result.place + TOP) + bin.now.a % 2 ^ 16
        ≤ result.heaviest }
{
    let index = bin.index >> levels;
    let place = was.place + (index - was.index).min(reach);
    let at = place as usize + TOP;
    let all = bin.a.wrapping_add(u64::from(window[at]));
    window[at] = (all % (1 << 16)) as u16;
    Laying {
        index,
        place,
        heaviest: was.heaviest | all | bin.a | bin.b,
    }
}

/// Lays the bins before those that are paired, one after the other, and puts their weights in the first group into the
/// window. They are no further after the index `first` than the lags.
#[inline(always)]
fn lay_before(window: &mut [u16; PLACES], first: u64, bins: Bins, lags: u32) -> Laying
    requires near { AllByRecursion (λ e. first ≤ e.index) (take bins.start (bins_of bins))
        × AllByRecursion (λ e. e.index ≤ first + lags) (take bins.start (bins_of bins)) }
    requires lags { (lags ≤ MOST_LAGS) × IsZero window.old }
    ensures { IsLaid window.new (lags + 1) first result (take bins.entry.start (bins_of bins.entry)) }
{
    let reach = u64::from(lags) + 1;
    let mut laying = Laying {
        index: first,
        place: 0,
        heaviest: 0,
    };
    let before = &bins.list[..bins.start];
    for bin in before {
        laying = lay_one(window, laying, bin, bins.levels, reach);
    }
    laying
}

/// Lays the bins of a list one after the other, puts their weights in the first group into the window, and keeps the
/// places of those from its start on. Those before are no further after the index `first` than the lags.
#[inline(always)]
fn lay_all(
    window: &mut [u16; PLACES],
    places: &mut [u16; CLOSE_PART],
    first: u64,
    bins: Bins,
    lags: u32,
) -> Laying
    requires few { (length bins.list.now ≤ bins.start + CLOSE_PART) × (lags ≤ MOST_LAGS) }
    requires fits { (lags + 1) * (length bins.list.now - bins.start) ≤ PLACES - 2 * TOP }
    requires near { AllByRecursion (λ e. first ≤ e.index) (bins_of bins)
        × AllByRecursion (λ e. e.index ≤ first + lags) (take bins.start (bins_of bins)) }
    requires zeros { IsZero window.old × ((i : ℕ) → slice_index places.old i ≡ 0) }
    ensures all { IsLaid window.new (lags + 1) first result (bins_of bins.entry) }
    ensures places { laid (lags + 1) first 0 (bins_of bins.entry)
        ≡ laid (lags + 1) first 0 (take bins.entry.start (bins_of bins.entry))
        ++ placed (drop bins.entry.start bins.entry.list.now) places.new }
    ensures near { ((i : ℕ) → slice_index places.new i ≤ result.place)
        × (result.place + TOP < PLACES) }
{
    let reach = u64::from(lags) + 1;
    let mut laying = lay_before(window, first, bins, lags);
    for i in bins.start..bins.list.len() {
        laying = lay_one(window, laying, &bins.list[i], bins.levels, reach);
        places[i - bins.start] = laying.place as u16;
    }
    laying
}

/// Makes a window zero again, in which nothing was laid after a place.
#[inline(always)]
pub(crate) fn clear_window(window: &mut [u16; PLACES], place: u64)
    requires room { place + TOP < PLACES }
    requires behind { (p : ℕ) → place + TOP < p → p < PLACES → slice_index window.old p ≡ 0 }
    ensures { IsZero window.new }
{
    window[..place as usize + TOP + 1].fill(0);
}

/// Adds so many times each of a part of a window to a sum.
#[inline(always)]
fn add_laid<const N: usize>(sums: &mut [u32; N], part: &[u16], times: u32)
    requires all { length part.now ≡ N }
    requires fits { (q : ℕ) → q < N
        → slice_index sums.old q + slice_index part.now q * times < 2 ^ 32 }
    ensures { (q : ℕ) → q < N → slice_index sums.new q
        ≡ slice_index sums.old q + slice_index part.now q * times }
{
    for q in 0..N {
        sums[q] += u32::from(part[q]) * times;
    }
}

/// The same in lanes of 16 bits.
#[inline(always)]
fn add_lanes<const N: usize>(sums: Simd<u16, N>, part: &[u16], times: u16) -> Simd<u16, N>
    requires all { (length sums ≡ N) × (length part.now ≡ N) }
    requires fits { (q : ℕ) → q < N
        → slice_index sums q + slice_index part.now q * times < 2 ^ 16 }
    ensures same { length result ≡ N }
    ensures sums { (q : ℕ) → q < N → slice_index result q
        ≡ slice_index sums.entry q + slice_index part.now q * times }
{
    sums + Simd::<u16, N>::from_slice(part) * Simd::<u16, N>::splat(times)
}

/// Sums the products of the weights in the second group of bins with those in the window, for some lags.
/// Sum `q` takes for a bin the place `from + q` after that where it is laid.
#[inline(always)]
#[tactic(auto, using(crate::proofs::Close::row_next))]
fn sum_light<const N: usize>(
    window: &[u16; PLACES],
    places: &[u16],
    list: &[Entry],
    from: usize,
) -> [u16; N]
    requires light { ∥ ((most : ℕ) × (most < 2 ^ 16) × (most * most * length list.now < 2 ^ 16)
        × ((p : ℕ) → p < PLACES → slice_index window.now p ≤ most) × IsLight most list.now) ∥₁ }
    requires places { HavePlaces (length list.now) from N places.now }
    ensures { (q : ℕ) → q < N → slice_index result q ≡ sum_by
        (product_at Second window.now 0 (from + q)) (placed list.now places.now) }
{
    let rows = &window[from..];
    let mut sums = Simd::<u16, N>::splat(0);
    for i in 0..list.len() {
        let at = places[i] as usize;
        sums = add_lanes(sums, &rows[at..at + N], list[i].b as u16);
    }
    sums.to_array()
}

/// Adds the same to sums of 32 bits.
#[inline(always)]
#[tactic(auto, using(crate::proofs::Close::row_next))]
fn sum_heavy<const N: usize>(
    sums: &mut [u32; N],
    window: &[u16; PLACES],
    places: &[u16],
    list: &[Entry],
    from: usize,
)
    requires light { ((p : ℕ) → p < PLACES → slice_index window.now p ≤ TOO_HEAVY - 1)
        × IsLight (TOO_HEAVY - 1) list.now }
    requires places { HavePlaces (length list.now) from N places.now × HaveRoom N (length list.now) sums.old }
    ensures { (q : ℕ) → q < N → slice_index sums.new q ≡ slice_index sums.old q
        + sum_by (product_at Second window.now 0 (from + q)) (placed list.now places.now) }
{
    let rows = &window[from..];
    for i in 0..list.len() {
        let at = places[i] as usize;
        add_laid(sums, &rows[at..at + N], list[i].b as u32);
    }
}

/// The same, in 16 bits first where all are light.
#[inline(always)]
fn sum_laid<const N: usize>(
    sums: &mut [u32; N],
    window: &[u16; PLACES],
    places: &[u16],
    list: &[Entry],
    from: usize,
    heaviest: u64,
)
    requires light { (heaviest < TOO_HEAVY) × IsLight heaviest list.now
        × ((p : ℕ) → p < PLACES → slice_index window.now p ≤ heaviest) }
    requires places { HavePlaces (length list.now) from N places.now × HaveRoom N (length list.now) sums.old
        × (length list.now ≤ CLOSE_PART) }
    ensures sums { (q : ℕ) → q < N → slice_index sums.new q ≡ slice_index sums.old q
        + sum_by (product_at Second window.now 0 (from + q)) (placed list.now places.now) }
    ensures within { AreWithin N (length list.now) sums.old sums.new }
{
    let light = heaviest * heaviest * (list.len() as u64) < 1 << 16;
    if light {
        let more = sum_light::<N>(window, places, list, from);
        add_laid(sums, &more, 1);
    } else {
        sum_heavy(sums, window, places, list, from);
    }
}

/// Whether no two bins are in reach of one another.
#[inline(always)]
#[tactic(auto, using(crate::proofs::Passes::spaced_one))]
fn is_apart(bins: Bins, lags: u32) -> bool
    ensures { result ≡ true → IsSpaced (lags + 1) (bins_of bins.entry) }
{
    let Bins { list, levels, .. } = bins;
    if list.is_empty() {
        return true;
    }
    let mut was = list[0].index >> levels;
    for at in 1..list.len() {
        let index = list[at].index >> levels;
        if index.saturating_sub(was) <= u64::from(lags) {
            return false;
        }
        was = index;
    }
    true
}

/// Adds the pairs of bins with those before them, at the lags of a range, to sums, and answers true. The last sum is that
/// of the first lag. Where the first bin is further before those than the lags, or bins are too heavy, the answer is
/// false.
#[tactic(auto, using(crate::proofs::Passes::paired_apart, crate::proofs::Close::over, crate::proofs::Close::from_first, crate::proofs::Close::under))]
pub(crate) fn sum_part<const N: usize>(
    sums: &mut [u32; N],
    window: &mut [u16; PLACES],
    range: LagRange,
    bins: Bins,
) -> bool
    requires few { (bins.start < length bins.list.now) × (length bins.list.now - bins.start ≤ CLOSE_PART)
        × ((range.last + 1) * (length bins.list.now - bins.start) ≤ PLACES - 2 * TOP) }
    requires room { FitLanes N range × HaveRoom N (length bins.list.now - bins.start) sums.old × IsZero window.old }
    ensures sums { result ≡ true → HavePaired N range sums.old sums.new bins.entry.start (bins_of bins.entry) }
    ensures within { AreWithin N (length bins.entry.list.now - bins.entry.start) sums.old sums.new }
    ensures empty { IsZero window.new }
{
    if is_apart(bins, range.last) {
        return true;
    }
    let first = bins.list[0].index >> bins.levels;
    let span = (bins.list[bins.start].index >> bins.levels) - first;
    if span > u64::from(range.last) {
        return false;
    }
    let mut places = [0; CLOSE_PART];
    let laying = lay_all(window, &mut places, first, bins, range.last);
    let light = laying.heaviest < TOO_HEAVY;
    if light {
        let from = TOP - N - range.skipped as usize;
        sum_laid(
            sums,
            window,
            &places,
            &bins.list[bins.start..],
            from,
            laying.heaviest,
        );
    }
    clear_window(window, laying.place);
    light
}
