// The events that a fold is given.
ghost use Rattle.std.specs.Prelude.{◌≡◌, ◌+◌, ◌<◌, ◌≤◌, ◌++◌, ◌∷◌, [], ℕ, false, ◌^◌, length, sum, if◌then◌else◌};
ghost use Rattle.{tally_base.specs.{Events.is_photon, Settings.fold_view, Tally.{History, floor_after}, Limits.time_limit, Columns.{gathered, events_in}}, fold_count.specs.Folded.{IsSound, IsInTime}};
ghost use Rattle.fold_count.specs.Folded.{Stands, ComesAfter, AreCounts, CanTake, Took, Settled, photons, waiting, photons_in};

use crate::groups::set_in;
use crate::waiting::settle;
use lag_ring::{Entry, LagRing};
use tally_base::{Block, Event, FoldSet, TABLE_BLOCK};

/// The bin that is open at a time, which is not before the open one. Before a later one opens, those that
/// are further back than the window are counted.
#[inline(always)]
fn open_at(cells: &mut [u64], ring: &mut LagRing, bin: Entry, set: &FoldSet, time: u64) -> Entry
    requires ready { CanTake (fold_view set.now) cells.old ring.old bin 0 }
    requires after { (bin.index ≤ time) × (time ≤ time_limit) }
    ensures settled { Settled (fold_view set.now) cells.old cells.new ring.old ring.new bin result }
    ensures time { result.index ≡ time }
    ensures follows { (h : History) → Stands (fold_view set.now) cells.old ring.old bin h
        → Stands (fold_view set.now) cells.new ring.new result h }
{
    if time == bin.index {
        return bin;
    }
    let before = time.saturating_sub(u64::from(set.window));
    settle(cells, ring, &bin, before);
    Entry::at(time)
}

/// Puts an event where it is a photon of at least one of the groups, and answers the bin that is open then.
#[inline(always)]
pub(crate) fn put_event(
    cells: &mut [u64],
    ring: &mut LagRing,
    bin: Entry,
    set: &FoldSet,
    e: &Event,
    groups: u64,
) -> Entry
    requires ready { CanTake (fold_view set.now) cells.old ring.old bin 1 }
    requires in_time { IsInTime bin e.now }
    ensures took { Took (fold_view set.now) cells.old cells.new ring.old ring.new bin result 1 }
    ensures begun { (floor : ℕ) → bin.index ≤ floor
        → result.index ≤ (if is_photon e.now then e.now.time else floor) }
    ensures follows { (h : History) → Stands (fold_view set.now) cells.old ring.old bin h
        → Stands (fold_view set.now) cells.new ring.new result
        (h ++ (e.now, groups) ∷ []) }
{
    if e.is_photon() {
        let met = set_in(&set.groups, groups);
        if met != 0 {
            let here = open_at(cells, ring, bin, set, e.time);
            return Entry {
                index: here.index,
                a: here.a + 1,
                b: here.b | met,
            };
        }
    }
    bin
}

/// Puts the photons of a block, and answers the bin that is open then.
pub(crate) fn put_block(
    cells: &mut [u64],
    ring: &mut LagRing,
    bin: Entry,
    set: &FoldSet,
    block: &Block<TABLE_BLOCK>,
) -> Entry
    requires ready { CanTake (fold_view set.now) cells.old ring.old bin (length (gathered block.now)) }
    requires comes { ComesAfter bin block.now }
    ensures took { Took (fold_view set.now) cells.old cells.new ring.old ring.new bin result (length (gathered block.now)) }
    ensures begun { result.index ≤ floor_after false bin.index (gathered block.now) }
    ensures follows { (h : History) → Stands (fold_view set.now) cells.old ring.old bin h
        → Stands (fold_view set.now) cells.new ring.new result
        (h ++ events_in block.now) }
{
    let mut last = bin;
    for at in 0..block.len().min(TABLE_BLOCK) {
        let (e, groups) = block.get(at);
        last = put_event(cells, ring, last, set, &e, groups);
    }
    last
}

/// Counts all photons that wait: nothing more comes.
pub(crate) fn count_all(cells: &mut [u64], ring: &mut LagRing, bin: Entry, set: &FoldSet) -> Entry
    requires sound { IsSound (fold_view set.now) cells.old ring.old bin }
    requires room { sum cells.old + photons_in (waiting ring.old bin) < 2 ^ 64 }
    ensures settled { Settled (fold_view set.now) cells.old cells.new ring.old ring.new bin result }
    ensures time { result.index ≡ bin.index }
    ensures follows { (h : History) → Stands (fold_view set.now) cells.old ring.old bin h
        → AreCounts (fold_view set.now) cells.new (photons (fold_view set.now) h) }
{
    settle(cells, ring, &bin, bin.index + 1);
    Entry::at(bin.index)
}
