// The photons of a block, counted by their times.
ghost use Rattle.std.specs.Prelude.{◌≡◌, ◌+◌, ◌*◌, ◌^◌, ◌<◌, ◌≤◌, ◌==◌, ℕ, length, nat_le, slice_index, sum, if◌then◌else◌};
ghost use Rattle.{tally_base.specs.{Settings.trace_view, Limits.record_limit, Columns.{gathered, events_in, IsSorted}}, count_trace.specs.Trace.CountsMore};

use crate::bin::Bin;
use tally_base::{Block, TABLE_BLOCK, TraceSet};

/// How many photons came outside a trace.
#[derive(Clone, Copy)]
pub struct Outside {
    /// Before the origin.
    pub before: u64,
    /// At or past the end of the last bin.
    pub beyond: u64,
}

/// Counts the photons of a block.
pub(crate) fn count_block(
    set: &TraceSet,
    cells: &mut [u64],
    outside: &mut Outside,
    kept: &mut Bin,
    block: &Block<TABLE_BLOCK>,
)
    requires sorted { IsSorted block.now }
    requires sized { length cells.old ≡ set.now.bins }
    requires edge { kept.old.low ≡ set.now.origin + kept.old.index * set.now.width }
    requires room { sum cells.old + outside.old.before + outside.old.beyond + length (gathered block.now) ≤ record_limit }
    ensures counts { CountsMore (trace_view set.now) cells.old cells.new outside.old outside.new (events_in block.now) }
    ensures few { sum cells.new + outside.new.before + outside.new.beyond
        ≤ sum cells.old + outside.old.before + outside.old.beyond
        + length (gathered block.now) }
    ensures edge { kept.new.low ≡ set.now.origin + kept.new.index * set.now.width }
{
    // Copies, so that no field is read again for each photon.
    let own = *set;
    let mut bin = *kept;
    let mut rest = *outside;
    for at in 0..block.len().min(TABLE_BLOCK) {
        // No branch on the group, which is as good as random from photon to photon.
        let more = block.photons_in(at, own.group);
        let time = block.time(at);
        if time < own.origin {
            rest.before += more;
        } else {
            bin = Bin::of(&own, bin, time);
            rest.beyond += put(cells, bin.index, more);
        }
    }
    *kept = bin;
    *outside = rest;
}

/// Adds to the cell of a bin, or answers what is to be added past the last.
#[inline(always)]
fn put(cells: &mut [u64], bin: u64, more: u64) -> u64
    requires { sum cells.old + more < 2 ^ 64 }
    ensures cells { (b : ℕ) → b < length cells.old → slice_index cells.new b
        ≡ slice_index cells.old b + (if bin == b then more else 0) }
    ensures rest { result ≡ (if nat_le (length cells.old) bin then more else 0) }
    ensures sum { sum cells.new + result ≡ sum cells.old + more }
{
    if bin < cells.len() as u64 {
        cells[bin as usize] += more;
        0
    } else {
        more
    }
}
