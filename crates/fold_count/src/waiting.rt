// The bins of a fold that wait for their window to end.
ghost use Rattle.std.specs.{Prelude.{◌≡◌, ◌+◌, ◌^◌, ◌<◌, ◌≤◌, ◌==◌, ℕ, filter, length, slice_index, sum, nat_lt, nat_le, if◌then◌else◌}, List.AllByRecursion};
ghost use Rattle.{lag_ring.specs.Ring.{IsRising, ring as ring_of}, fold_count.specs.Folded.{waiting, met_in, as_met, AreHeld, GainsBefore, IsNested, photons_in, photons_where}};

use lag_ring::{Entry, LagRing};

/// Notes that these groups were met after the closed bins. A bin in which they all were met already ends
/// the walk from the newest back, since they were met in those before it too. Each other bin gains one of
/// at most six groups at least, so it changes at most six times while it waits, and all walks together take
/// at most seven steps for each bin, whatever the window.
#[inline(always)]
#[tactic(auto, using(crate::proofs::Nested::partly_none, crate::proofs::Nested::length_partly, crate::proofs::Nested::ring_is, crate::proofs::Nested::partly_all))]
fn meet(ring: &mut LagRing, groups: u64)
    requires nested { IsNested ring.old.entries }
    ensures met { ring.new ≡ ring_of (met_in groups ring.old.entries) ring.old.reach }
{
    let mut at = ring.len();
    'back: while at > 0 {
        let bin = ring.visit(at - 1);
        let met = bin.b | groups;
        if met == bin.b {
            return;
        }
        at -= 1;
        ring.set_b(at, met);
    }
}

/// Adds the photons of a bin to the cell of the set of groups that was met in it.
#[inline(always)]
fn count_bin(cells: &mut [u64], bin: &Entry)
    requires inside { bin.now.b < length cells.old }
    requires room { sum cells.old + bin.now.a < 2 ^ 64 }
    ensures cells { (s : ℕ) → s < length cells.old → slice_index cells.new s ≡ slice_index cells.old s
        + (if bin.now.b == s then bin.now.a else 0) }
    ensures sum { sum cells.new ≡ sum cells.old + bin.now.a }
    ensures same { length cells.new ≡ length cells.old }
{
    cells[bin.b as usize] += bin.a;
}

/// Counts those of some bins that are before a tick, up to the first that isn't.
#[inline(always)]
fn count_front(cells: &mut [u64], bins: &[Entry], before: u64)
    requires inside { AllByRecursion (λ e. e.b < length cells.old) bins.now }
    requires rising { IsRising bins.now }
    requires room { sum cells.old + photons_in bins.now < 2 ^ 64 }
    ensures cells { GainsBefore cells.old cells.new before bins.now }
    ensures sum { sum cells.new ≡ sum cells.old + photons_where (λ tick. nat_lt tick before) bins.now }
{
    for bin in bins {
        if bin.index >= before {
            return;
        }
        count_bin(cells, bin);
    }
}

/// Counts those of the closed bins that are before a tick.
#[inline(always)]
#[tactic(auto, using(lag_ring::proofs::Lists::all_front, lag_ring::proofs::Rising::rising_front, lag_ring::proofs::Rising::rising_back))]
fn count_closed(cells: &mut [u64], ring: &LagRing, before: u64)
    requires inside { AllByRecursion (λ e. e.b < length cells.old) ring.now.entries }
    requires room { sum cells.old + photons_in ring.now.entries < 2 ^ 64 }
    ensures cells { GainsBefore cells.old cells.new before ring.now.entries }
    ensures sum { sum cells.new ≡ sum cells.old + photons_where (λ tick. nat_lt tick before) ring.now.entries }
{
    let (front, back) = ring.slices();
    count_front(cells, front, before);
    count_front(cells, back, before);
}

/// Counts the bins that are before a tick, with the groups of the open one met in those before it too, and
/// keeps the others, the open one as the last.
#[tactic(auto, using(lag_ring::proofs::Lists::all_front, crate::proofs::Nested::photons_met_in, std::proofs::lemmas::List::Sums::sum_by_push, crate::proofs::Nested::last_of, crate::proofs::Bins::not_before))]
pub(crate) fn settle(cells: &mut [u64], ring: &mut LagRing, bin: &Entry, before: u64)
    requires held { AreHeld cells.old ring.old bin.now }
    requires near { bin.now.index < before + ring.old.reach }
    requires room { sum cells.old + photons_in (waiting ring.old bin.now) < 2 ^ 64 }
    ensures cells { GainsBefore cells.old cells.new before (as_met ring.old bin.now) }
    ensures kept { ring.new ≡ ring_of
        (filter (λ e. nat_le before e.index) (as_met ring.old bin.now)) ring.old.reach }
    ensures within { length ring.new.entries ≤ ring.new.reach }
    ensures sum { sum cells.new + photons_in ring.new.entries
        ≡ sum cells.old + photons_in (waiting ring.old bin.now) }
{
    meet(ring, bin.b);
    count_closed(cells, ring, before);
    ring.retire(before);
    if bin.index < before {
        count_bin(cells, bin);
    } else {
        ring.push(bin.index, bin.a, bin.b);
    }
}
