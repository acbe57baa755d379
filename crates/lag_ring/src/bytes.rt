// Weights by tick in bytes, and the pairs that single photons make over them at many lags at once.
ghost use Rattle.std.specs.{Prelude.{◌≡◌, ℕ, ◌+◌, ◌-◌, ◌*◌, ◌^◌, ◌<◌, ◌≤◌, ◌==◌, [], ◌∷◌, ◌++◌, take, length, slice_index, sum_by, if◌then◌else◌}, List.AllByRecursion};
ghost use Rattle.{lag_ring.specs.Bytes.{weight_of, IsLight, behind, Fit, Have}, arrayvec.specs.ArrayVec.array_vec_len};

use crate::ring::Entry;
use crate::window::Side;
use arrayvec::ArrayVec;

/// How many lags at most are summed at once in bytes.
pub const BYTE_LAGS: usize = 256;

/// How many spots there are at most.
pub const MOST_SPOTS: usize = 1024;

/// How many places from the first on may be spots.
const SPAN: u64 = 4096;

/// A number that no weight of the entries is above. It is not 0.
pub fn weight_bound(entries: &[Entry]) -> u64
    ensures some { 0 < result }
    ensures light { IsLight result entries.now }
{
    let mut most = 1;
    for entry in entries {
        most |= entry.a | entry.b;
    }
    most
}

/// Adds a weight to a place of a window.
#[inline(always)]
fn put_byte(window: &mut [u8], at: usize, weight: u64)
    requires inside { at < length window.old }
    requires fits { slice_index window.old at + weight < 2 ^ 8 }
    ensures weights { (p : ℕ) → p < length window.old → slice_index window.new p ≡ slice_index window.old p + (if at == p then weight else 0) }
    ensures same { length window.new ≡ length window.old }
{
    window[at] += weight as u8;
}

/// Adds the weights of entries in one of the two groups to the places of their indices in a window: place `p` is that
/// of the index which is `top` below `low + p`. An index without a place counts nowhere.
#[tactic(auto, using(std::proofs::lemmas::List::Sums::sum_by_more_le))]
pub fn put_side(window: &mut [u8], side: Side, top: u64, low: u64, entries: &[Entry])
    requires early { AllByRecursion (λ e. e.index + top < 2 ^ 64) entries.now }
    requires fit { Fit side top low window.old entries.now }
    ensures have { Have side top low window.old window.new entries.now }
    ensures same { length window.new ≡ length window.old }
{
    for entry in entries {
        let place = entry.index + top;
        if place >= low && place - low < window.len() as u64 {
            put_byte(window, (place - low) as usize, side.weight(entry));
        }
    }
}

/// Puts a spot after others, where there is a place.
#[inline(always)]
fn put_once(spots: &mut [u16; MOST_SPOTS], count: usize, spot: u16)
    ensures others { take count spots.new ≡ take count spots.old }
    ensures once { count < MOST_SPOTS → take (count + 1) spots.new ≡ take count spots.old ++ spot ∷ [] }
{
    if count < MOST_SPOTS {
        spots[count] = spot;
    }
}

/// Puts a spot after others so many times.
#[inline(always)]
fn put_times(spots: &mut [u16; MOST_SPOTS], count: usize, spot: u16, times: u64)
    requires room { count + times ≤ MOST_SPOTS }
    ensures sums { (f : ℕ → ℕ) → sum_by f (take (count + times) spots.new) ≡ sum_by f (take count spots.old) + f spot * times }
    ensures within { (n : ℕ) → spot ≤ n → AllByRecursion (λ s. s ≤ n) (take count spots.old)
        → AllByRecursion (λ s. s ≤ n) (take (count + times) spots.new) }
{
    for time in 0..times {
        spots[count + time as usize] = spot;
    }
}

/// Puts a spot after others so many times, and answers how many there are then. It takes no branch on whether that is
/// none or one, which is as good as random.
#[inline(always)]
fn put_spot(spots: &mut [u16; MOST_SPOTS], count: usize, spot: u16, times: u64) -> usize
    requires room { count + times ≤ MOST_SPOTS }
    ensures len { result ≡ count + times }
    ensures sums { (f : ℕ → ℕ) → sum_by f (take result spots.new) ≡ sum_by f (take count spots.old) + f spot * times }
    ensures within { (n : ℕ) → spot ≤ n → AllByRecursion (λ s. s ≤ n) (take count spots.old) → AllByRecursion (λ s. s ≤ n) (take result spots.new) }
{
    if times > 1 {
        put_times(spots, count, spot, times);
    } else {
        put_once(spots, count, spot);
    }
    count + times as usize
}

/// The spot of each photon that entries have on one side, in a window that begins at `low`.
pub fn spots_of(side: Side, low: u64, entries: &[Entry]) -> ArrayVec<u16, MOST_SPOTS>
    requires near { AllByRecursion (λ e. (low ≤ e.index) × (e.index - low < SPAN)) entries.now }
    requires few { sum_by (weight_of side) entries.now ≤ MOST_SPOTS }
    ensures sums { (f : ℕ → ℕ) → sum_by f result.items ≡ sum_by (λ e. f (e.index - low) * weight_of side e) entries.now }
    ensures few { array_vec_len result ≤ MOST_SPOTS }
    ensures within { (n : ℕ) → AllByRecursion (λ e. e.index - low ≤ n) entries.now → AllByRecursion (λ s. s ≤ n) result.items }
{
    let mut spots = [0; MOST_SPOTS];
    let mut count = 0;
    for entry in entries {
        let spot = (entry.index - low) as u16;
        count = put_spot(&mut spots, count, spot, side.weight(entry));
    }
    let mut filled = ArrayVec::from(spots);
    filled.truncate(count);
    filled
}

/// Adds each byte of a part of a window to a sum.
#[inline(always)]
fn add_bytes<const N: usize>(sums: &mut [u8; N], part: &[u8])
    requires all { length part.now ≡ N }
    requires fits { (q : ℕ) → q < N → slice_index sums.old q + slice_index part.now q < 2 ^ 8 }
    ensures sums { (q : ℕ) → q < N → slice_index sums.new q ≡ slice_index sums.old q + slice_index part.now q }
{
    for q in 0..N {
        sums[q] += part[q];
    }
}

/// What stands after each of a few spots of a window, summed for each of some lags.
#[inline(always)]
fn byte_sums<const N: usize>(window: &[u8], from: usize, spots: &[u16]) -> [u8; N]
    requires lags { N ≤ BYTE_LAGS }
    requires fits { (q : ℕ) → q < N → sum_by (behind window.now (from + q)) spots.now < 2 ^ 8 }
    requires inside { AllByRecursion (λ s. s + from + N ≤ length window.now) spots.now }
    ensures sums { (q : ℕ) → q < N → slice_index result q ≡ sum_by (behind window.now (from + q)) spots.now }
{
    let mut sums = [0; N];
    for spot in spots {
        let at = *spot as usize + from;
        add_bytes(&mut sums, &window[at..at + N]);
    }
    sums
}

/// Adds each of some bytes to a sum.
#[inline(always)]
fn add_wide<const N: usize>(sums: &mut [u32; N], bytes: &[u8; N])
    requires fits { (q : ℕ) → q < N → slice_index sums.old q + slice_index bytes.now q < 2 ^ 32 }
    ensures sums { (q : ℕ) → q < N → slice_index sums.new q ≡ slice_index sums.old q + slice_index bytes.now q }
{
    for q in 0..N {
        sums[q] += u32::from(bytes[q]);
    }
}

/// What stands after each of some spots of a window, summed for each of some lags: sum `q` takes for a spot the
/// place `from + q` after it.
pub fn byte_lag_sums<const N: usize>(
    window: &[u8],
    most: usize,
    from: usize,
    spots: &[u16],
) -> [u32; N]
    requires lags { N ≤ BYTE_LAGS }
    requires most { (0 < most) × (most ≤ 255) }
    requires light { (p : ℕ) → p < length window.now → slice_index window.now p ≤ most }
    requires few { length spots.now ≤ 2 ^ 16 }
    requires inside { AllByRecursion (λ s. s + from + N ≤ length window.now) spots.now }
    ensures sums { (q : ℕ) → q < N → slice_index result q ≡ sum_by (behind window.now (from + q)) spots.now }
{
    let mut sums = [0; N];
    // So many spots are summed in bytes that none passes 255.
    for part in spots.chunks(255 / most) {
        let bytes = byte_sums(window, from, part);
        add_wide(&mut sums, &bytes);
    }
    sums
}
