// The intervals that the photons of a block end.
ghost use Rattle.std.specs.Prelude.{◌≡◌, ◌+◌, ◌/◌, ◌^◌, ◌<◌, ◌≤◌, ◌==◌, ℕ, false, length, nat_le, slice_index, sum, if◌then◌else◌};
ghost use Rattle.tally_base.specs.{Settings.{divisor_of, startstop_view}, Limits.record_limit, Columns.{gathered, events_in, IsSorted}, Tally.{floor_after, InOrder}};
ghost use Rattle.coincidence.specs.{StartStop.CountsMore, Starts.since_in};

use crate::start::{Start, ended, start_behind};
use tally_base::{Block, Divisor, StartStopSet, TABLE_BLOCK};

/// Counts the intervals that the photons of a block end, and answers how many are now past the last bin.
// Not inlined, so that its loop has the registers for itself.
#[inline(never)]
pub(crate) fn count_block(
    set: &StartStopSet,
    cells: &mut [u64],
    over: u64,
    start: &mut Start,
    block: &Block<TABLE_BLOCK>,
) -> u64
    requires sorted { IsSorted block.now }
    requires sized { length cells.old ≡ set.now.bins }
    requires room { sum cells.old + over + length (gathered block.now) ≤ record_limit }
    requires in_order { InOrder false (since_in start.old) (gathered block.now) }
    ensures follows { CountsMore (startstop_view set.now) set.now.bins cells.old cells.new over result start.old start.new (events_in block.now) }
    ensures few { sum cells.new + result ≤ sum cells.old + over + length (gathered block.now) }
    ensures begun { since_in start.new ≤ floor_after false (since_in start.old) (gathered block.now) }
{
    // Copies, so that no field is read again for each photon.
    let own = *set;
    let by = Divisor::new(set.width);
    let mut last = *start;
    let mut over = over;
    for at in 0..block.len().min(TABLE_BLOCK) {
        if block.code(at) < 256 {
            // No branch on the groups, which are as good as random from photon to photon.
            let starts = block.has_photon(at, own.start);
            let stops = block.has_photon(at, own.stop);
            let time = block.time(at);
            let bin = bin_of(time - last.since, own.width, &by);
            over += put(cells, bin, ended(last, stops));
            last = start_behind(last, time, starts, stops);
        }
    }
    *start = last;
    over
}

/// The bin of a time, by the divisor for the width. Bins of one tick need no product.
#[inline(always)]
fn bin_of(time: u64, width: u64, by: &Divisor) -> u64
    requires { divisor_of by.now ≡ width }
    ensures { result ≡ time / width }
{
    if width == 1 { time } else { by.quotient(time) }
}

/// Adds to the cell of a bin, or answers what is to be added past the last. It takes no branch.
#[inline(always)]
pub(crate) fn put(cells: &mut [u64], bin: u64, more: u64) -> u64
    requires some { 0 < length cells.old }
    requires room { sum cells.old + more < 2 ^ 64 }
    ensures cells { (b : ℕ) → b < length cells.old → slice_index cells.new b ≡ slice_index cells.old b + (if bin == b then more else 0) }
    ensures rest { result ≡ (if nat_le (length cells.old) bin then more else 0) }
    ensures sum { sum cells.new + result ≡ sum cells.old + more }
{
    let inside = bin < cells.len() as u64;
    let at = if inside { bin as usize } else { 0 };
    let here = if inside { more } else { 0 };
    cells[at] += here;
    more - here
}
