// Pairs of many bins at once, lag by lag.
ghost use Rattle.std.specs.{Prelude.{◌≡◌, ◌+◌, ◌-◌, ◌*◌, ◌<◌, ◌≤◌, IsTrue, length, min, sum_by}, List.AllByRecursion};
ghost use Rattle.{tally_base.specs.Settings.coincidence_view, lag_ring.specs.Bytes.{Fit, Have, ServesSpots}, coincidence.specs.{Pairing.{HasRoom, Counts, lag_pair}, Closing.{row_sum, strip_sum}}};
ghost use Rattle.coincidence.specs.{Closing.{window_sum, each_lag_pair, lags_of, CountsEarlier, CountsEach}, Stretch.{reached, view_of, lags_in, at_lags, both_at_lags, reach_sums, CountsLags}};

use crate::pairing::{add_pairs, later_side, pair_one};
use crate::places::{Lags, MOST_LAGS, Places};
use crate::stretch::Stretch;
use lag_ring::{
    BYTE_LAGS, Entry, MOST_SPOTS, PairCells, Side, byte_lag_sums, put_side, spots_of, total_weight,
};
use std::sync::ledger::Ledger;
use tally_base::{CoincidenceSet, Steps};

/// How many places a window has.
const WIDE: usize = 8192;

/// Fewer entries than this are paired one by one, where the reach has more lags than a window.
const FEW: usize = 64;

/// So many pairs of entries, and so many more for each photon of the later ones, take as long as windows.
const MANY_PAIRS: usize = 1 << 14;

/// How many pairs take as long as one photon of the later ones does.
const PAIRS_OF_SPOT: usize = 64;

/// Adds the numbers of a row to the cells of as many differences, from one upwards. A difference has the reach added.
#[inline(always)]
fn add_row<L: Ledger>(
    cells: &mut PairCells,
    set: CoincidenceSet,
    from: u32,
    row: &[u32],
    steps: &mut Steps<L>,
)
    requires inside { from + length row.now ≤ 2 * set.reach + 1 }
    requires room { HasRoom (coincidence_view set) cells.old (λ c. row_sum (coincidence_view set) c from row.now) }
    ensures { Counts (coincidence_view set) cells.old cells.new steps.old steps.new
        (λ c. row_sum (coincidence_view set) c from row.now) (length row.now) }
{
    if set.width == 1 {
        cells.add_row(from, row, steps);
    } else {
        for q in 0..row.len() {
            add_pairs(cells, set, from + q as u32, u64::from(row[q]), 1, steps);
        }
    }
}

/// Adds the sums of the lags above `least` that are in reach to the cells of their differences. That of a lag stands at
/// `least + BYTE_LAGS - lag`.
#[inline(always)]
fn add_sums<L: Ledger>(
    cells: &mut PairCells,
    set: CoincidenceSet,
    direction: Side,
    least: u32,
    sums: &mut [u32; BYTE_LAGS],
    steps: &mut Steps<L>,
)
    requires inside { least ≤ set.reach }
    requires room { HasRoom (coincidence_view set) cells.old (λ c. strip_sum direction (coincidence_view set) c least sums.old) }
    ensures { Counts (coincidence_view set) cells.old cells.new steps.old steps.new
        (λ c. strip_sum direction (coincidence_view set) c least sums.old) (min (set.reach - least) 256) }
{
    let count = (set.reach - least).min(BYTE_LAGS as u32);
    match direction {
        Side::First => {
            sums.reverse();
            let rising = &sums[..count as usize];
            add_row(cells, set, set.reach + least + 1, rising, steps);
        }
        Side::Second => {
            let falling = &sums[BYTE_LAGS - count as usize..];
            add_row(cells, set, set.reach - least - count, falling, steps);
        }
    }
}

/// Pairs photons at some spots with what stands in the window before them, at the lags of the windows.
fn pair_window<L: Ledger>(
    cells: &mut PairCells,
    places: Places,
    direction: Side,
    window: &[u8],
    spots: &[u16],
    steps: &mut Steps<L>,
)
    requires window { ServesSpots places.most MOST_LAGS window.now spots.now }
    requires room { HasRoom (coincidence_view places.set) cells.old (λ c. window_sum direction (coincidence_view places.set) c places.base window.now spots.now) }
    ensures { let set = coincidence_view places.set in Counts set cells.old cells.new steps.old steps.new
        (λ c. window_sum direction set c places.base window.now spots.now) (lags_of set places.base) }
{
    for strip in 0..places.lags().div_ceil(BYTE_LAGS as u32) {
        let past = strip * BYTE_LAGS as u32;
        let from = (MOST_LAGS - past) as usize - BYTE_LAGS;
        let mut sums = byte_lag_sums::<BYTE_LAGS>(window, places.most, from, spots);
        let least = places.base + past;
        add_sums(cells, places.set, direction, least, &mut sums, steps);
    }
}

/// Adds the weights that the entries of a stretch have on one side to a window.
fn fill(window: &mut [u8], side: Side, stretch: Stretch)
    requires fit { Fit side (stretch.places.base + MOST_LAGS) stretch.places.low window.old (reached stretch) }
    ensures have { Have side (stretch.entry.places.base + MOST_LAGS) stretch.entry.places.low window.old window.new (reached stretch.entry) }
    ensures same { length window.new ≡ length window.old }
{
    let (top, low) = (
        u64::from(stretch.places.base + MOST_LAGS),
        stretch.places.low,
    );
    put_side(window, side, top, low, stretch.front);
    put_side(window, side, top, low, stretch.back);
    put_side(window, side, top, low, stretch.own);
}

/// Whether all entries have an index from one on and below another.
pub(crate) fn are_near(low: u64, high: u64, later: &[Entry]) -> bool
    ensures { IsTrue result → AllByRecursion (λ e. (low ≤ e.index) × (e.index < high)) later.now }
{
    for entry in later {
        if entry.index < low || entry.index >= high {
            return false;
        }
    }
    true
}

/// Pairs later entries with those before them over a window of one group, in one direction.
fn pair_side<L: Ledger>(cells: &mut PairCells, stretch: Stretch, side: Side, steps: &mut Steps<L>)
    requires { HasRoom (view_of stretch) cells.old (at_lags stretch side) }
    ensures { CountsLags stretch.entry side cells.old cells.new steps.old steps.new 1 }
{
    let mut window = [0; WIDE];
    fill(&mut window, side, stretch);
    let spots = spots_of(later_side(side), stretch.places.low, stretch.later);
    pair_window(cells, stretch.places, side, &window, &spots, steps);
}

/// Pairs the photons of later entries with those of an earlier one, at some lags.
#[inline(always)]
#[tactic(auto, using(std::proofs::lemmas::List::Sums::sum_by_more_le))]
fn pair_with_later<L: Ledger>(
    cells: &mut PairCells,
    lags: Lags,
    later: &[Entry],
    earlier: &Entry,
    steps: &mut Steps<L>,
)
    requires { let set = coincidence_view lags.set in HasRoom set cells.old
        (λ c. sum_by (λ l. lag_pair lags.direction set c lags.from lags.count l earlier.now) later.now) }
    ensures { CountsEarlier lags cells.old cells.new steps.old steps.new earlier.now later.now }
{
    if lags.direction.weight(earlier) > 0 {
        for entry in later {
            let apart = entry.index.saturating_sub(earlier.index);
            pair_one(cells, lags, apart, entry, earlier, steps);
        }
    }
}

/// Pairs later entries with others one by one, at some lags.
#[tactic(auto, using(std::proofs::lemmas::List::Sums::sum_by_more_le))]
fn pair_each<L: Ledger>(
    cells: &mut PairCells,
    lags: Lags,
    entries: &[Entry],
    later: &[Entry],
    steps: &mut Steps<L>,
)
    requires { let set = coincidence_view lags.set in HasRoom set cells.old
        (λ c. each_lag_pair lags.direction set c lags.from lags.count entries.now later.now) }
    ensures { CountsEach lags cells.old cells.new steps.old steps.new entries.now later.now }
{
    for earlier in entries {
        pair_with_later(cells, lags, later, earlier, steps);
    }
}

/// Pairs later entries with those before them one by one, at the lags of the windows, in one direction.
fn pair_few<L: Ledger>(cells: &mut PairCells, stretch: Stretch, side: Side, steps: &mut Steps<L>)
    requires few { length (reached stretch) ≤ lags_in stretch }
    requires room { HasRoom (view_of stretch) cells.old (at_lags stretch side) }
    ensures { CountsLags stretch.entry side cells.old cells.new steps.old steps.new (length stretch.entry.later.now) }
{
    let Places { set, base, .. } = stretch.places;
    let count = stretch.places.lags();
    let lags = Lags {
        set,
        direction: side,
        from: base + 1,
        count,
    };
    pair_each(cells, lags, stretch.front, stretch.later, steps);
    pair_each(cells, lags, stretch.back, stretch.later, steps);
    pair_each(cells, lags, stretch.own, stretch.later, steps);
}

/// How many pairs of entries take as long, one by one, as windows for later ones.
fn pairs_of_windows(later: &[Entry]) -> usize {
    let firsts = total_weight(Side::First, later).min(MOST_SPOTS as u64) as usize;
    let seconds = total_weight(Side::Second, later).min(MOST_SPOTS as u64) as usize;
    MANY_PAIRS + PAIRS_OF_SPOT * (firsts + seconds)
}

/// Whether the entries that later ones reach at the lags of the windows are few.
fn are_few_reached(stretch: Stretch) -> bool
    ensures { IsTrue result → length (reached stretch.entry) ≤ lags_in stretch.entry }
{
    if stretch.places.set.reach <= MOST_LAGS {
        return false;
    }
    let count = stretch.front.len() + stretch.back.len() + stretch.own.len();
    count <= stretch.places.lags() as usize
        && (count < FEW || count * stretch.later.len() < pairs_of_windows(stretch.later))
}

/// Pairs later entries with those before them at the lags of the windows.
fn pair_stretch<L: Ledger>(cells: &mut PairCells, stretch: Stretch, steps: &mut Steps<L>)
    requires { HasRoom (view_of stretch) cells.old (both_at_lags stretch) }
    ensures { Counts (view_of stretch.entry) cells.old cells.new steps.old steps.new
        (both_at_lags stretch.entry) (2 * (length stretch.entry.later.now * lags_in stretch.entry)) }
{
    if are_few_reached(stretch) {
        pair_few(cells, stretch, Side::First, steps);
        pair_few(cells, stretch, Side::Second, steps);
    } else {
        pair_side(cells, stretch, Side::First, steps);
        pair_side(cells, stretch, Side::Second, steps);
    }
}

/// Pairs later entries with those before them, at the lags of one window after another.
pub(crate) fn pair_lags<L: Ledger>(cells: &mut PairCells, stretch: Stretch, steps: &mut Steps<L>)
    requires { HasRoom (view_of stretch) cells.old (reach_sums stretch) }
    ensures { Counts (view_of stretch.entry) cells.old cells.new steps.old steps.new
        (reach_sums stretch.entry) (2 * (length stretch.entry.later.now * stretch.entry.places.set.reach)) }
{
    for turn in 0..stretch.places.set.reach.div_ceil(MOST_LAGS) {
        pair_stretch(cells, stretch.at(turn * MOST_LAGS), steps);
    }
}
