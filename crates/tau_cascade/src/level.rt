// One level: its open bin, the ring of its last closed bins, and its cells.
ghost use Rattle.std.specs.{Prelude.{true, false, ◌≡◌, ◌+◌, ◌-◌, ◌*◌, ◌^◌, ◌<◌, ◌≤◌, filter, length, nat_le, take, drop, [], ◌++◌, IfOk, map}, List.AllByRecursion};
ghost use Rattle.{lag_ring.specs.Ring.{IsRising, ring as ring_of}, tally_base.specs.{Settings.correlation_view, Tally.History}, tau_cascade.specs.{Correlation.skipped_lags, Bins.{raised, merged_at}}};
ghost use Rattle.tau_cascade.specs.{Bins.{merged_all, kept_of, FitCounts, IsSpaced, AreAlike, ComeAlike}, Dense.bins_of, Grid.{IsEmpty, IsGrid, FewFirsts, CanClose, counted, kept_and}};
ghost use Rattle.tau_cascade.specs.{Opens.{IsComing, coming_bins, closed_bins}, Comes.{HasCome, GoesOn, IsClosing}};

use crate::bins::{
    Bins, FIRST_PLACE, Gaps, LEVELS, LIST, LagRange, apart_all, copy_into, cut_last, first_kept,
    heaviest_of, known_gaps, lay_out, lower_open, lower_ring, merge,
};
use crate::grid::{Grid, SPAN, TOO_MANY};
use crate::laid::TOO_HEAVY;
use crate::pairing::pair_all;
use crate::scratch::Scratch;
use lag_ring::{Entry, LagRing, PairCells, Pairings, Side, total_weight};
use std::alloc::{AllocError, Global};
use std::sync::ledger::Ledger;
use tally_base::{CorrelationSet, Steps};

/// A level of a correlation. The lists that it keeps: those of `ring` and `cells`, beside the bin in `open`.
#[derive(Drop)]
pub struct Level {
    /// The bin of the last photon.
    pub(crate) open: Option<Entry>,
    /// The bins before it that a later photon may still reach.
    pub(crate) ring: LagRing,
    /// The pairs of each lag.
    pub(crate) cells: PairCells,
    /// How many bins the lists had that were paired, where four places of a grid are a bin.
    pub(crate) paired: Pairings,
    /// No bin of the ring has more photons of either group. Nothing that is counted depends on it.
    heaviest: u64,
}

/// Bins that come to a level.
#[derive(Clone, Copy)]
pub(crate) struct Coming {
    /// The level, or while they are being closed the one that closes them.
    pub(crate) level: u32,
    /// The place of the first in their list.
    pub(crate) from: usize,
    /// How many there are.
    pub(crate) count: usize,
    /// Each is meant so many levels up from where it stands in the list.
    pub(crate) levels: u32,
    /// A distance that no two of them fall below, as they stand in the list, or 0.
    pub(crate) apart: u64,
    /// How near they are to one another, as they stand in the list.
    pub(crate) gaps: Gaps,
    /// Neither group has more photons in all of them. Nothing that is counted depends on it.
    pub(crate) most: u64,
}

/// From this level on a grid is begun only where bins were in one: more would cost more seconds than it spares.
const DENSE_LEVELS: u32 = 4;

/// How many of the first lags a level leaves to those below it: its own are above them.
pub(crate) fn skipped_lags(set: &CorrelationSet, level: u32) -> u32
    ensures skipped { result ≡ skipped_lags (correlation_view set.now) level }
    ensures within { result < set.now.lags }
{
    if level == 0 { 0 } else { set.lags / 2 }
}

/// Puts those bins of a list, so many levels up and merged, that are not before an index into a ring, in place of what it
/// has. Answers a number of photons that none of them has more of. What is in `spare` is lost.
#[inline(always)]
#[tactic(auto, using(crate::proofs::Near::laid_kept, crate::proofs::Near::kept_bins, crate::proofs::Near::take_front))]
fn keep(ring: &mut LagRing, list: &[Entry], levels: u32, before: u64, spare: &mut [Entry]) -> u64
    requires list { (levels < 64) × IsSpaced 0 (map (raised levels) list.now) }
    requires some { 0 < length (filter (λ e. nat_le before e.index)
        (map (raised levels) list.now)) }
    requires spare { length list.now ≤ length spare.old }
    requires fits { FitCounts (kept_of before levels list.now) }
    requires rising { IsRising (kept_of before levels list.now) }
    requires room { length (kept_of before levels list.now) ≤ ring.old.reach }
    ensures { ring.new ≡ ring_of (kept_of before levels list.now) ring.old.reach }
{
    let first = first_kept(list, levels, before);
    let end = copy_into(&list[first..], spare, 0);
    let count = merge(&mut spare[..end], levels);
    ring.refill(&spare[..count]);
    heaviest_of(&spare[..count])
}

/// Puts the bins of a grid from a place on after those of a ring that are not before an index, and takes out the others.
/// Answers a number of photons that none of them has more of. What is in `spare` is lost.
#[inline(always)]
#[tactic(auto, using(crate::proofs::Near::fewer))]
fn keep_dense(
    ring: &mut LagRing,
    grid: &Grid,
    place: usize,
    before: u64,
    spare: &mut [Entry],
) -> u64
    requires grid { (grid.now.base + grid.now.len ≤ 2 ^ 64) × (grid.now.len ≤ SPAN) }
    requires spare { (length ring.old.entries + (grid.now.len - place) ≤ length spare.old) }
    requires rising { IsRising (kept_and before ring.old.entries grid.now place) }
    requires room { length (kept_and before ring.old.entries grid.now place) ≤ ring.old.reach }
    ensures { ring.new ≡ ring_of (kept_and before ring.old.entries grid.now place) ring.old.reach }
{
    ring.retire(before);
    let at = lay_out(ring, spare);
    let end = grid.put_bins(place, spare, at);
    ring.refill(&spare[..end]);
    heaviest_of(&spare[..end])
}

/// Merges neighbours of one index among the bins that a level closes, in their list, and answers where they are then. They
/// stay as they are if they are in a grid, if they are too far apart to share an index, or if at most half of them do and
/// a window takes them: neither all of them nor a bin of the ring, by `heaviest`, have too many photons for one place.
#[tactic(auto, using(crate::proofs::Few::alike_merged, crate::proofs::Few::few_apart, crate::proofs::Few::few_share))]
fn merge_many(list: &mut [Entry], closing: Coming, grid: &Grid, heaviest: u64) -> Coming
    requires comes { IsClosing closing list.old × (0 < closing.count) }
    requires bins { CanClose grid.now (coming_bins closing list.old) }
    ensures comes { IsComing result (closing.level + 1) list.new × (0 < result.count) }
    ensures same { (result.from ≡ closing.from) × (result.level ≡ closing.level)
        × (result.levels ≤ closing.levels) }
    ensures bins { AreAlike (coming_bins closing list.old) (coming_bins result list.new) }
    ensures grid { IsGrid grid.now (coming_bins result list.new) }
    ensures few { counted grid.now (length (coming_bins result list.new))
        ≤ 2 * length (merged_all (coming_bins closing list.old)) }
{
    let Coming { from, count, .. } = closing;
    let levels = closing.levels;
    if grid.is_on() || closing.apart >> levels > 0 {
        return closing;
    }
    // Once they were merged, they nearly always are again.
    let gaps = known_gaps(
        &list[from..from + count],
        closing.gaps,
        levels == closing.level,
    );
    let light = (heaviest | closing.most) < TOO_HEAVY;
    if light && gaps.usual >> levels > 0 && gaps.nearer <= count / 2 {
        return Coming { gaps, ..closing };
    }
    let count = merge(&mut list[from..from + count], levels);
    Coming {
        level: closing.level,
        from,
        count,
        levels: 0,
        apart: 0,
        gaps: Gaps::unknown(),
        most: closing.most,
    }
}

impl Level {
    ghost use Rattle.tau_cascade.{specs.Levels.LevelIs, specs.Bins.{CanShutAll, CanTake, Takes, Shuts, Ends}};

    /// A level to which nothing came, or `AllocError` where there is not enough memory for it.
    pub(crate) fn open(alloc: Global, set: &CorrelationSet, level: u32) -> Result<Level, AllocError>
        ensures empty { IfOk result (λ l. LevelIs (correlation_view set.now) level false l [] []) }
        ensures none { IfOk result (λ l. l.cells.added ≡ 0) }
    {
        Ok(Level {
            open: None,
            ring: LagRing::open(alloc, set.lags)?,
            cells: PairCells::open(alloc, set.lags - skipped_lags(set, level))?,
            paired: Pairings::open(alloc),
            heaviest: 0,
        })
    }

    /// Whether the bins of the ring are so light that those that come may go into a grid.
    #[inline(always)]
    fn has_light_ring(&self) -> bool
        ensures { result ≡ true → FewFirsts self.now.ring.entries }
    {
        let (front, back) = self.ring.slices();
        let more = total_weight(Side::First, back);
        total_weight(Side::First, front).saturating_add(more) < TOO_MANY
    }

    /// Pairs bins with the closed ones, which stand before them as far as the ring has them, and with one another. Puts
    /// them among the closed ones, merged. A grid has those bins, or none.
    fn shut<L: Ledger>(
        &mut self,
        set: &CorrelationSet,
        level: u32,
        bins: Bins,
        scratch: &mut Scratch,
        steps: &mut Steps<L>,
    )
        requires ring { take bins.start (bins_of bins) ≡ self.old.ring.entries }
        requires room { (bins.start < length bins.list.now) × (length bins.list.now ≤ LIST) }
        requires grid { IsGrid scratch.old.grid (drop bins.start (bins_of bins))
            × (0 < scratch.old.grid.len → FewFirsts self.old.ring.entries) }
        requires stands { ∥ ((closed : History) × (xs : History) × CanShutAll
            (correlation_view set.now) level self.old.ring self.old.cells
            (merged_at bins.start bins.levels bins.list.now) closed xs) ∥₁ }
        requires few { counted scratch.old.grid (length bins.list.now - bins.start)
            ≤ 2 * length (merged_at bins.start bins.levels bins.list.now) }
        ensures shuts { Shuts (correlation_view set.now) level self.old self.new
            (merged_at bins.entry.start bins.entry.levels bins.entry.list.now) }
        ensures others { (scratch.new.grid ≡ scratch.old.grid)
            × (steps.new + self.old.cells.added ≡ steps.old + self.new.cells.added) }
    {
        let Bins { list, levels, .. } = bins;
        let skipped = skipped_lags(set, level);
        let range = LagRange {
            skipped,
            last: set.lags,
        };
        pair_all(
            &mut self.cells,
            &mut self.paired,
            scratch,
            range,
            bins,
            steps,
        );
        let last = list[list.len() - 1].index >> levels;
        let before = last.saturating_sub(u64::from(set.lags) - 1);
        let spare = &mut scratch.spare;
        self.heaviest = match scratch.grid.place_from(before) {
            Some(place) => keep_dense(&mut self.ring, &scratch.grid, place, before, spare),
            None => keep(&mut self.ring, list, levels, before, spare),
        };
    }

    /// Takes bins, one after the other and none before what came. The open bin goes before them in the list, those of
    /// the last bin are cut off after them, and it is open. Answers where those are that are closed: what else the list had
    /// is lost. A grid of those that came is then one of those that are closed, or has none.
    pub(crate) fn take<L: Ledger>(
        &mut self,
        set: &CorrelationSet,
        list: &mut [Entry],
        came: Coming,
        scratch: &mut Scratch,
        steps: &mut Steps<L>,
    ) -> Coming
        requires comes { HasCome list.old came scratch.old × (0 < came.count) × (came.level < LEVELS) }
        requires stands { ∥ ((shut : History) × (open' : History) × (xs : History)
            × CanTake (correlation_view set.now) came.level self.old (coming_bins came list.old)
            shut open' xs) ∥₁ }
        ensures follows { Takes (correlation_view set.now) came.level self.old self.new
            (coming_bins came list.old) (closed_bins result list.new) }
        ensures goes { GoesOn came.level self.old.cells self.new.cells steps.old steps.new list.new result scratch.new }
    {
        let levels = came.levels;
        let first = came.from;
        let end = first + came.count;
        // For the proof: the index of the first fits, and nothing that is put before it is above it.
        let _first = list[first].index;
        let from = lower_open(&self.open, list, first, levels);
        let apart = apart_all(&list[from..first + 1], came.apart, levels, set.lags);
        let bins = Bins {
            list: &list[from..end],
            start: first - from,
            levels,
            apart: 0,
        };
        let last = cut_last(bins);
        // Bins after a heavy ring go into no grid, so that they may be merged.
        let dense = scratch.grid.is_on() || came.level < DENSE_LEVELS;
        if dense && self.has_light_ring() {
            let window = &mut scratch.window;
            scratch.grid.follow(&self.open, bins, &last, window);
        } else {
            scratch.grid.clear();
        }
        self.open = Some(last.bin);
        let count = last.closed;
        let mut closing = Coming {
            from,
            count,
            apart,
            most: came.most.saturating_add(heaviest_of(&list[from..first])),
            ..came
        };
        closing.gaps.nearer = came.gaps.nearer.saturating_add(1);
        self.close(set, list, closing, scratch, steps)
    }

    /// Closes bins of a list, merged first where many share one, and answers where they are then. What stood before them in
    /// the list is lost, and what they were if they are merged.
    fn close<L: Ledger>(
        &mut self,
        set: &CorrelationSet,
        list: &mut [Entry],
        closing: Coming,
        scratch: &mut Scratch,
        steps: &mut Steps<L>,
    ) -> Coming
        requires comes { IsClosing closing list.old × CanClose scratch.old.grid (coming_bins closing list.old) }
        requires room { (length self.old.ring.entries ≤ closing.from)
            × (0 < closing.levels → AllByRecursion (λ e. e.index * 2 ^ closing.levels < 2 ^ 64) self.old.ring.entries) }
        requires bins { IsSpaced 0 (self.old.ring.entries ++ coming_bins closing list.old)
            × (0 < scratch.old.grid.len → FewFirsts self.old.ring.entries) }
        requires stands { ∥ ((shut : History) × (xs : History) × CanShutAll
            (correlation_view set.now) closing.level self.old.ring self.old.cells
            (merged_all (coming_bins closing list.old)) shut xs) ∥₁ }
        ensures shuts { Shuts (correlation_view set.now) closing.level self.old self.new
            (merged_all (coming_bins closing list.old)) }
        ensures alike { ComeAlike (coming_bins closing list.old) (closed_bins result list.new) }
        ensures goes { GoesOn closing.level self.old.cells self.new.cells steps.old steps.new list.new result scratch.new }
    {
        if closing.count == 0 {
            return Coming {
                level: closing.level + 1,
                levels: closing.levels + 1,
                ..closing
            };
        }
        let shut = merge_many(list, closing, &scratch.grid, self.heaviest);
        let Coming { from, count, .. } = shut;
        let start = lower_ring(&self.ring, list, from, shut.levels);
        let apart = apart_all(&list[start..from + 1], shut.apart, shut.levels, set.lags);
        let bins = Bins {
            list: &list[start..from + count],
            start: from - start,
            levels: shut.levels,
            apart,
        };
        self.shut(set, closing.level, bins, scratch, steps);
        Coming {
            level: shut.level + 1,
            levels: shut.levels + 1,
            ..shut
        }
    }

    /// Closes the open bin, where there is one, and answers where it is then. What is in the list is lost.
    pub(crate) fn end<L: Ledger>(
        &mut self,
        set: &CorrelationSet,
        level: u32,
        list: &mut [Entry],
        scratch: &mut Scratch,
        steps: &mut Steps<L>,
    ) -> Coming
        requires room { (length list.old ≡ LIST) × (level < LEVELS) × IsEmpty scratch.old.grid }
        requires stands { ∥ ((closed : History) × (open' : History)
            × CanTake (correlation_view set.now) level self.old [] closed open' []) ∥₁ }
        ensures follows { Ends (correlation_view set.now) level self.old self.new (closed_bins result list.new) }
        ensures goes { GoesOn level self.old.cells self.new.cells steps.old steps.new list.new result scratch.new }
    {
        let from = lower_open(&self.open, list, FIRST_PLACE, 0);
        self.open = None;
        let one = Coming {
            level,
            from,
            count: FIRST_PLACE - from,
            levels: 0,
            apart: 0,
            gaps: Gaps::unknown(),
            most: heaviest_of(&list[from..FIRST_PLACE]),
        };
        self.close(set, list, one, scratch, steps)
    }
}
