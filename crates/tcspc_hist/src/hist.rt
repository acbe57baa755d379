// A histogram of photons by their dtimes.
ghost use Rattle.std.specs.Prelude.{◌≡◌, ◌+◌, ◌*◌, ◌/◌, ◌^◌, ◌<◌, ◌≤◌, ℕ, vec_len, sum, length, slice_index, nat_le, ◌==◌, if◌then◌else◌, IfOk, [], false, count_by};
ghost use Rattle.tally_base.specs.{Settings.{divisor_of, hist_view, PartSettings.HistSettings}, Tally.History, Limits.record_limit, Columns.{gathered, events_in, IsSorted}, Codes.dtime_in};
ghost use Rattle.tcspc_hist.specs.HistogramCounts.{in_bin, count_over};

use crate::picking::pick;
use std::alloc::{AllocError, Global};
use std::sync::ledger::Ledger;
use tally_base::{Block, Divisor, HistSet, Steps, TABLE_BLOCK, Tally, dtime_in};

/// Counts the photons of a group by their dtimes, that is by the ticks since their syncs.
///
/// Bin b counts the dtimes from `b * width` on and below `(b + 1) * width`. What lies past the last
/// bin is counted in one number, `over`.
///
/// The lists that it keeps: `cells`.
#[derive(Drop)]
pub struct Hist {
    set: HistSet,
    cells: Vec<u64>,
    over: u64,
    taken: u64,
    floor: u64,
    closed: bool,
    ghost sized: { vec_len cells ≡ set.bins },
    ghost small: { sum cells.items + over ≤ taken },
}

impl Hist {
    ghost use Rattle.tcspc_hist.specs.Hist.{Holds, set_of};

    /// A histogram of no events, with all the memory that it ever takes, or `AllocError` where there is not enough.
    pub fn open(alloc: Global, set: HistSet) -> Result<Hist, AllocError>
        ensures set { IfOk result (λ t. set_of t ≡ set) }
        ensures settings { IfOk result (λ t. ⟦<Hist as Tally>⟧.settings t ≡ HistSettings (hist_view set)) }
        ensures empty { IfOk result (λ t. Holds t []) }
        ensures opened { IfOk result (λ t. ⟦<Hist as Tally>⟧.closed t ≡ false) }
    {
        Ok(Hist {
            set,
            cells: vec![in alloc; 0; set.bins as usize]?,
            over: 0,
            taken: 0,
            floor: 0,
            closed: false,
        })
    }

    /// What it was opened with.
    pub fn set(&self) -> &HistSet
        ensures { result.now ≡ set_of self.now }
    {
        &self.set
    }

    /// How many photons of the group came in bin `at`, which is below the number of bins, of those that it
    /// was given so far.
    pub fn cell(&self, at: u32) -> u64
        requires { at < (set_of self.now).bins }
        ensures { (h : History) → Holds self.now h → result ≡ in_bin (hist_view (set_of self.now)) at h }
    {
        self.cells[at as usize]
    }

    /// How many photons of the group came at or past the end of the last bin.
    pub fn over(&self) -> u64
        ensures { (h : History) → Holds self.now h → result ≡ count_over (hist_view (set_of self.now)) h }
    {
        self.over
    }
}

/// Counts the photons of a block, and answers how many are now past the last bin. Those of the group are picked before
/// any is counted: no branch on the group, which is as good as random from photon to photon, and no cell is read for
/// the others.
// Not inlined, so that its loop has the registers for itself.
#[inline(never)]
fn count_block(set: &HistSet, cells: &mut [u64], over: u64, block: &Block<TABLE_BLOCK>) -> u64
    requires sorted { IsSorted block.now }
    requires sized { length cells.old ≡ set.now.bins }
    requires room { sum cells.old + over + length (gathered block.now) ≤ record_limit }
    ensures cells { (b : ℕ) → b < set.now.bins → slice_index cells.new b
        ≡ slice_index cells.old b + in_bin (hist_view set.now) b (events_in block.now) }
    ensures over { result ≡ over + count_over (hist_view set.now) (events_in block.now) }
    ensures few { sum cells.new + result ≤ sum cells.old + over + length (gathered block.now) }
{
    let group = set.group;
    let width = set.width;
    let by = Divisor::new(u64::from(width));
    let len = block.len().min(TABLE_BLOCK);
    let mut marks = [0; TABLE_BLOCK];
    let eights = len / 8;
    let many = pick(group, block, eights, &mut marks);
    let mut over = add_marks(set, &by, cells, over, &marks[..many]);
    for at in 8 * eights..len {
        let more = block.photons_in(at, group);
        let bin = bin_of(width, &by, block.dtime(at));
        put(cells, &mut over, bin, more);
    }
    over
}

/// Counts photons by their marks, and answers how many are now past the last bin.
#[inline(always)]
fn add_marks(set: &HistSet, by: &Divisor, cells: &mut [u64], over: u64, marks: &[u32]) -> u64
    requires divisor { divisor_of by.now ≡ set.now.width }
    requires room { sum cells.old + over + length marks.now ≤ record_limit }
    ensures cells { (b : ℕ) → b < length cells.old → slice_index cells.new b
        ≡ slice_index cells.old b + count_by (λ mark. dtime_in mark / set.now.width == b) marks.now }
    ensures over { result
        ≡ over + count_by (λ mark. nat_le (length cells.old) (dtime_in mark / set.now.width)) marks.now }
    ensures few { sum cells.new + result ≡ sum cells.old + over + length marks.now }
{
    let width = set.width;
    let mut over = over;
    for at in 0..marks.len() {
        let bin = bin_of(width, by, dtime_in(marks[at]));
        put(cells, &mut over, bin, 1);
    }
    over
}

/// Adds to the cell of a bin, or past the last.
#[inline(always)]
fn put(cells: &mut [u64], over: &mut u64, bin: u64, more: u64)
    requires { sum cells.old + over.old + more < 2 ^ 64 }
    ensures cells { (b : ℕ) → b < length cells.old → slice_index cells.new b
        ≡ slice_index cells.old b + (if bin == b then more else 0) }
    ensures rest { over.new ≡ over.old + (if nat_le (length cells.old) bin then more else 0) }
    ensures sum { sum cells.new + over.new ≡ sum cells.old + over.old + more }
{
    let bin = bin as usize;
    if bin < cells.len() {
        cells[bin] += more;
    } else {
        *over += more;
    }
}

/// The bin of a dtime, or the one where it would be after the last, by the divisor for the width. Bins of one tick need
/// no product.
#[inline(always)]
fn bin_of(width: u32, by: &Divisor, dtime: u16) -> u64
    requires { divisor_of by.now ≡ width }
    ensures { result ≡ dtime / width }
{
    let dtime = u64::from(dtime);
    if width == 1 {
        dtime
    } else {
        by.quotient(dtime)
    }
}

impl Tally for Hist {
    ghost use Rattle.tcspc_hist.specs.Hist.{Holds, set_of, settings, within_bound, marker_groups};

    ghost holds = { Holds };

    ghost taken = { λ t. t.taken };

    ghost floor = { λ t. t.floor };

    // Its list, and `over`.
    ghost held = { λ t. length t.cells.items + 1 };

    ghost settings = { settings };

    ghost closed = { λ t. t.closed };

    ghost same_set = { λ old new. set_of new ≡ set_of old };

    ghost taken_is = { λ t h is. is.taken };

    ghost floor_is = { λ t h is. is.floor };

    ghost within = { within_bound };

    ghost marker_groups = { marker_groups };

    fn events<L: Ledger>(&mut self, block: &Block<TABLE_BLOCK>, _steps: &mut Steps<L>) {
        self.taken += block.len() as u64;
        self.floor = block.floor_after(false, self.floor);
        self.over = count_block(&self.set, &mut self.cells, self.over, block);
    }

    fn close<L: Ledger>(&mut self, _steps: &mut Steps<L>) {
        self.closed = true;
    }
}
