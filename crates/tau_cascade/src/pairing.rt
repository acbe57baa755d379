// Pairs of bins with those before them.
ghost use Rattle.std.specs.{Prelude.{◌≡◌, true, ℕ, ◌+◌, ◌-◌, ◌*◌, ◌^◌, ◌<◌, ◌≤◌, length, map, take, drop, slice_index}, List.AllByRecursion};
ghost use Rattle.{lag_ring.specs.Cells.Spends, tau_cascade.specs.{Levels.weight_before, Dense.{bins_of, bins_paired, FitPairs, FitLanes, Notes, NotesOnce, ArePaired, HavePairs, PairsIfClose}}};
ghost use Rattle.tau_cascade.specs.{Dense.{AddsAtMost, HavePaired}, Bins.raised, Grid.{IsGrid, FewFirsts, counted}};

use crate::bins::{Bins, LagRange, MOST_LAGS, first_kept};
use crate::grid::Grid;
use crate::laid::{CLOSE_PART, PLACES, TOP, Window, sum_part};
use crate::scratch::Scratch;
use lag_ring::{Entry, PairCells, Pairings};
use std::sync::ledger::Ledger;
use tally_base::Steps;

/// How many bins at most have sums that fit.
const CLOSE_LIST: usize = 1024;

/// How many lags a window has room for with as many bins as are paired over it at most.
const FEW_LAGS: u32 = 32;

/// How many bins it has room for with any lags.
const FEW_BINS: usize = 64;

/// The place, at most `at`, of the first of the bins that is no more than `lags` before the index.
#[inline(always)]
fn first_in_reach(bins: Bins, at: usize, index: u64, lags: u32) -> usize
    requires { at ≤ length bins.list.now }
    ensures place { result ≤ at }
    ensures far { AllByRecursion (λ e. e.index + lags < index) (take result (bins_of bins.entry)) }
{
    first_kept(
        &bins.list[..at],
        bins.levels,
        index.saturating_sub(u64::from(lags)),
    )
}

/// How many bins are paired over one window at most: it has room for them, each just out of reach of the one before it.
#[inline(always)]
fn part_size(lags: u32) -> usize
    requires { lags ≤ MOST_LAGS }
    ensures some { (0 < result) × (result ≤ CLOSE_PART) }
    ensures fits { (lags + 1) * result ≤ PLACES - 2 * TOP }
{
    if lags <= FEW_LAGS {
        CLOSE_PART
    } else {
        FEW_BINS
    }
}

/// Adds the pairs of a list to sums, part by part, as `sum_part` does; where the range has no lags, there is nothing to do.
fn sum_parts<const N: usize>(
    sums: &mut [u32; N],
    window: &mut Window,
    range: LagRange,
    bins: Bins,
) -> bool
    requires few { length bins.list.now - bins.start ≤ CLOSE_LIST }
    requires zeros { FitLanes N range × ((q : ℕ) → q < N → slice_index sums.old q ≡ 0) }
    ensures { result ≡ true → HavePaired N range sums.old sums.new bins.entry.start (bins_of bins.entry) }
{
    if range.skipped == range.last {
        return true;
    }
    let most = part_size(range.last);
    let mut at = bins.start;
    'parts: while at < bins.list.len() {
        let end = bins.list.len().min(at + most);
        let index = bins.list[at].index >> bins.levels;
        let near = first_in_reach(bins, at, index, range.last);
        let part = Bins {
            list: &bins.list[near..end],
            start: at - near,
            levels: bins.levels,
            apart: 0,
        };
        if !sum_part(sums, &mut window.places, range, part) {
            return false;
        }
        at = end;
    }
    true
}

/// Puts so many sums, which stand in the other order, to those from one on: the last is that of the first lag.
#[inline(always)]
fn turn(sums: &mut [u128; MOST_LAGS], at: u32, count: u32, close: &[u32])
    requires all { (count ≤ length close.now) × (at + count ≤ MOST_LAGS) }
    ensures turned { (p : ℕ) → p < count
        → slice_index sums.new (at + p) ≡ slice_index close.now (length close.now - 1 - p) }
    ensures before { (p : ℕ) → p < at → slice_index sums.new p ≡ slice_index sums.old p }
{
    for p in 0..count as usize {
        sums[at as usize + p] = u128::from(close[close.len() - 1 - p]);
    }
}

/// Puts the pairs of bins with those before them into sums, over a window in which they are laid close together, notes how
/// many they are, and answers true. Where there are too many bins, or they are too heavy for it, the sums stay as they are,
/// and the answer is false; that a window was begun is noted too. The lags are summed `N` at once, in two parts where there
/// are more.
fn sum_close<const N: usize>(
    sums: &mut [u128; MOST_LAGS],
    paired: &mut Pairings,
    window: &mut Window,
    range: LagRange,
    bins: Bins,
) -> bool
    requires { (range.last - range.skipped ≤ 2 * N) × (N ≤ 64) }
    ensures { PairsIfClose range bins.entry sums.old sums.new paired.old paired.new result }
{
    let count = bins.list.len() - bins.start;
    if count > CLOSE_LIST {
        return false;
    }
    paired.begin_window(count);
    let LagRange { skipped, last, .. } = range;
    let middle = last.min(skipped + N as u32);
    let mut near = [0; N];
    if !sum_parts(
        &mut near,
        window,
        LagRange {
            skipped,
            last: middle,
        },
        bins,
    ) {
        return false;
    }
    let mut far = [0; N];
    if !sum_parts(
        &mut far,
        window,
        LagRange {
            skipped: middle,
            last,
        },
        bins,
    ) {
        return false;
    }
    turn(sums, 0, middle - skipped, &near);
    turn(sums, middle - skipped, last - middle, &far);
    paired.note(count);
    true
}

/// The same, by the number of lags.
fn sum_lanes(
    sums: &mut [u128; MOST_LAGS],
    paired: &mut Pairings,
    window: &mut Window,
    range: LagRange,
    bins: Bins,
) -> bool
    ensures { PairsIfClose range bins.entry sums.old sums.new paired.old paired.new result }
{
    match range.last - range.skipped {
        0..=8 => sum_close::<8>(sums, paired, window, range, bins),
        9..=16 => sum_close::<16>(sums, paired, window, range, bins),
        _ => sum_close::<64>(sums, paired, window, range, bins),
    }
}

/// Adds the pairs of so many photons of the second group at `index` with those of earlier bins, so many levels up, to the
/// sums of the lags of a range.
#[inline(always)]
fn sum_one(
    sums: &mut [u128; MOST_LAGS],
    range: LagRange,
    bins: &[Entry],
    levels: u32,
    index: u64,
    weight: u64,
)
    requires lags { (range.last ≤ range.skipped + MOST_LAGS) × (levels < 64) }
    requires fits { (p : ℕ) → p < range.last - range.skipped → slice_index sums.old p
        + weight_before (p + range.skipped + 1) index (map (raised levels) bins.now) * weight < 2 ^ 128 }
    ensures { (p : ℕ) → p < range.last - range.skipped → slice_index sums.new p ≡ slice_index sums.old p
        + weight_before (p + range.skipped + 1) index (map (raised levels) bins.now) * weight }
{
    for bin in bins {
        let lag = index.saturating_sub(bin.index >> levels);
        if lag > u64::from(range.skipped) && lag <= u64::from(range.last) {
            let pairs = u128::from(bin.a) * u128::from(weight);
            sums[(lag - u64::from(range.skipped) - 1) as usize] += pairs;
        }
    }
}

/// Adds the pairs of bins with those before them to sums as those of `sum_one`, and notes how many they are.
fn sum_each(sums: &mut [u128; MOST_LAGS], paired: &mut Pairings, range: LagRange, bins: Bins)
    requires { FitPairs range bins sums.old }
    ensures sums { ArePaired range bins.entry.start sums.old sums.new (bins_of bins.entry) }
    ensures noted { Notes paired.old paired.new (bins_paired bins.entry) 0 }
{
    paired.note(bins.list.len() - bins.start);
    for at in bins.start..bins.list.len() {
        let bin = bins.list[at];
        let index = bin.index >> bins.levels;
        let near = first_in_reach(bins, at, index, range.last);
        sum_one(sums, range, &bins.list[near..at], bins.levels, index, bin.b);
    }
}

/// Adds a sum to each of so many cells, which are all.
fn add_each<L: Ledger>(cells: &mut PairCells, count: u32, sums: &[u128], steps: &mut Steps<L>)
    requires all { (length cells.old.cells ≡ count) × (count ≤ length sums.now) }
    requires fits { (p : ℕ) → p < count
        → slice_index cells.old.cells p + slice_index sums.now p ≤ 2 ^ 80 }
    ensures cells { (p : ℕ) → p < count
        → slice_index cells.new.cells p ≡ slice_index cells.old.cells p + slice_index sums.now p }
    ensures spends { Spends cells.old cells.new steps.old steps.new count
        × AddsAtMost 1 cells.old cells.new }
{
    for at in 0..count {
        cells.add(at, sums[at as usize], steps);
    }
}

/// Puts the pairs of bins with those before them, at the lags of a range, into sums: over a grid, if they are in one, over
/// a window in which they are laid close together, or else bin by bin, as only merged ones are. What sums them notes how
/// many they are, or a quarter as many as the grid has places.
#[tactic(auto, using(std::proofs::lemmas::Bool::Decides::nat_tests))]
fn sum_all(
    sums: &mut [u128; MOST_LAGS],
    paired: &mut Pairings,
    window: &mut Window,
    grid: &Grid,
    range: LagRange,
    bins: Bins,
)
    requires zeros { FitPairs range bins sums.old × ((p : ℕ) → slice_index sums.old p ≡ 0) }
    requires grid { IsGrid grid.now (drop bins.start (bins_of bins))
        × (0 < grid.now.len → FewFirsts (take bins.start (bins_of bins))) }
    ensures sums { HavePairs range bins.entry.start sums.new (bins_of bins.entry) }
    ensures noted { NotesOnce paired.old paired.new (counted grid.now (bins_paired bins.entry)) }
{
    if grid.is_on() {
        grid.sum(sums, paired, window, range, bins);
        return;
    }
    if sum_lanes(sums, paired, window, range, bins) {
        return;
    }
    sum_each(sums, paired, range, bins);
}

/// Pairs bins with those before them, at the lags of a range, and notes how many they are, or a quarter as many as a grid
/// has places. Where they are out of reach of one another, there are no pairs.
pub(crate) fn pair_all<L: Ledger>(
    cells: &mut PairCells,
    paired: &mut Pairings,
    scratch: &mut Scratch,
    range: LagRange,
    bins: Bins,
    steps: &mut Steps<L>,
)
    requires lags { length cells.old.cells ≡ range.last - range.skipped }
    requires fits { FitPairs range bins cells.old.cells }
    requires grid { IsGrid scratch.old.grid (drop bins.start (bins_of bins))
        × (0 < scratch.old.grid.len → FewFirsts (take bins.start (bins_of bins))) }
    ensures cells { ArePaired range bins.entry.start cells.old.cells cells.new.cells (bins_of bins.entry) }
    ensures noted { NotesOnce paired.old paired.new (counted scratch.old.grid (bins_paired bins.entry)) }
    ensures spends { Spends cells.old cells.new steps.old steps.new (range.last - range.skipped)
        × AddsAtMost 1 cells.old cells.new }
    ensures grid { scratch.new.grid ≡ scratch.old.grid }
{
    let Bins { apart, levels, .. } = bins;
    if apart >> levels > u64::from(range.last) {
        paired.note(scratch.grid.counted(bins.list.len() - bins.start));
        return;
    }
    let mut sums = [0; MOST_LAGS];
    let window = &mut scratch.window;
    sum_all(&mut sums, paired, window, &scratch.grid, range, bins);
    add_each(cells, range.last - range.skipped, &sums, steps);
}
