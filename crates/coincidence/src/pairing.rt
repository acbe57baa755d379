// The bins of a table of coincidences, the ring of the last closed ones, and the cells.
ghost use Rattle.std.specs.{Prelude.{◌≡◌, ℕ, ◌+◌, ◌-◌, ◌*◌, ◌/◌, ◌^◌, ◌<◌, ◌≤◌, [], ◌∷◌, ◌++◌, length, slice_index, if◌then◌else◌, ◌==◌, IfOk, None, Some, List}, List.AllByRecursion};
ghost use Rattle.{tally_base.specs.{Settings.{coincidence_view, coincidence_cells}, Tally.History}, lag_ring.specs.{Cells.{Cells, Spends}, Ring.ring as ring_of}, coincidence.specs.Pairing.MayJoin};
ghost use Rattle.coincidence.specs.Pairing.{other_side, shifted_by, lag_pair, pairs_at, pairs_with, kept_for, bin_pairs, MayClose, Closes, Pays, Gathered, CanPut, Joins, Puts, HasRoom, Counts};

use crate::places::Lags;
use lag_ring::{Entry, LagRing, PairCells, Side};
use std::alloc::{AllocError, Global};
use std::sync::ledger::Ledger;
use tally_base::{CoincidenceSet, Steps};

/// The photons of one tick.
#[derive(Clone, Copy, Default)]
pub struct Bin {
    /// The tick, and how many of its photons are in each group.
    pub weights: Entry,
    /// How many of its photons are in both groups.
    pub both: u64,
}

impl Bin {
    ghost use Rattle.coincidence.specs.Pairing.{joined};

    /// The photons of this bin, and more of the same tick.
    pub(crate) fn with(&self, more: &Bin) -> Bin
        requires a { self.now.weights.a + more.now.weights.a < 2 ^ 64 }
        requires b { self.now.weights.b + more.now.weights.b < 2 ^ 64 }
        requires both { self.now.both + more.now.both < 2 ^ 64 }
        ensures { result ≡ joined self.now more.now }
    {
        Bin {
            weights: Entry {
                index: self.weights.index,
                a: self.weights.a + more.weights.a,
                b: self.weights.b + more.weights.b,
            },
            both: self.both + more.both,
        }
    }
}

// A direction is told by the side of the earlier photon of a pair: the difference is positive where it is of the first group.

/// The side of the later photon of a pair.
#[inline(always)]
pub(crate) fn later_side(earlier: Side) -> Side
    ensures { result ≡ other_side earlier }
{
    match earlier {
        Side::First => Side::Second,
        Side::Second => Side::First,
    }
}

/// The difference of two ticks that are so far apart, with the reach added.
#[inline(always)]
fn shifted_by(earlier: Side, set: CoincidenceSet, apart: u64) -> u32
    requires { apart ≤ set.reach }
    ensures { result ≡ shifted_by earlier set.reach apart }
{
    match earlier {
        Side::First => set.reach + apart as u32,
        Side::Second => set.reach - apart as u32,
    }
}

/// Photons in closed bins, which are paired with one another, and in an open one, which are not.
#[derive(Drop)]
pub struct Pairing {
    pub open: Option<Bin>,
    pub ring: LagRing,
    pub cells: PairCells,
}

/// How many cells the differences take.
pub fn cells_of(set: &CoincidenceSet) -> u32
    ensures { result ≡ coincidence_cells (coincidence_view set.now) }
{
    2 * set.reach / set.width + 1
}

/// The cell of a difference that is given with the reach added. Cells of one tick need no division.
#[inline(always)]
fn cell_of(set: CoincidenceSet, shifted: u32) -> u32
    ensures { result ≡ shifted / set.width }
{
    if set.width == 1 {
        shifted
    } else {
        shifted / set.width
    }
}

/// The least index of a bin that is still in reach of a bin after the one at `index`.
pub(crate) fn least_kept(set: &CoincidenceSet, index: u64) -> u64
    ensures { result ≡ index - (set.now.reach - 1) }
{
    index.saturating_sub(u64::from(set.reach) - 1)
}

/// Adds the pairs of so many photons of an earlier tick and so many of a later one to the cell of their
/// difference.
#[inline(always)]
pub(crate) fn add_pairs<L: Ledger>(
    cells: &mut PairCells,
    set: CoincidenceSet,
    shifted: u32,
    earlier: u64,
    later: u64,
    steps: &mut Steps<L>,
)
    requires inside { shifted / set.width < length cells.old.cells }
    requires sum { slice_index cells.old.cells (shifted / set.width) + earlier * later ≤ 2 ^ 80 }
    ensures cells { (c : ℕ) → c < length cells.old.cells
        → slice_index cells.new.cells c ≡ slice_index cells.old.cells c
        + (if shifted / set.width == c then earlier * later else 0) }
    ensures spends { Spends cells.old cells.new steps.old steps.new 1 }
{
    let pairs = u128::from(earlier) * u128::from(later);
    cells.add(cell_of(set, shifted), pairs, steps);
}

/// Pairs the photons of a later entry with those of an earlier one that is so many ticks before it, or not before it at 0,
/// where that is one of some lags.
#[inline(always)]
pub(crate) fn pair_one<L: Ledger>(
    cells: &mut PairCells,
    lags: Lags,
    apart: u64,
    later: &Entry,
    earlier: &Entry,
    steps: &mut Steps<L>,
)
    requires apart { apart ≡ later.now.index - earlier.now.index }
    requires room { let set = coincidence_view lags.set in HasRoom set cells.old
        (λ c. lag_pair lags.direction set c lags.from lags.count later.now earlier.now) }
    ensures { let set = coincidence_view lags.set in Counts set cells.old cells.new steps.old steps.new
        (λ c. lag_pair lags.direction set c lags.from lags.count later.now earlier.now) 1 }
{
    // One test: fewer ticks than the least lag wrap round.
    if apart.wrapping_sub(u64::from(lags.from)) < u64::from(lags.count) {
        let shifted = shifted_by(lags.direction, lags.set, apart);
        let weight = lags.direction.weight(earlier);
        let photons = later_side(lags.direction).weight(later);
        add_pairs(cells, lags.set, shifted, weight, photons, steps);
    }
}

/// Pairs the photons of an entry with those of earlier ones, in one direction.
#[inline(always)]
#[tactic(auto, using(std::proofs::lemmas::List::Sums::sum_by_more_le))]
fn pair_direction<L: Ledger>(
    cells: &mut PairCells,
    set: CoincidenceSet,
    direction: Side,
    later: Entry,
    entries: &[Entry],
    steps: &mut Steps<L>,
)
    requires after { AllByRecursion (λ e. e.index < later.index) entries.now }
    requires room { HasRoom (coincidence_view set) cells.old (λ c. pairs_at direction (coincidence_view set) c later entries.now) }
    ensures { Counts (coincidence_view set) cells.old cells.new steps.old steps.new
        (λ c. pairs_at direction (coincidence_view set) c later entries.now) (length entries.now) }
{
    let (from, count) = (0, set.reach + 1);
    let lags = Lags {
        set,
        direction,
        from,
        count,
    };
    if later_side(direction).weight(&later) > 0 {
        for earlier in entries {
            let apart = later.index - earlier.index;
            pair_one(cells, lags, apart, &later, earlier, steps);
        }
    }
}

/// Pairs the photons of an entry with those of earlier ones.
fn pair_entries<L: Ledger>(
    cells: &mut PairCells,
    set: &CoincidenceSet,
    later: &Entry,
    entries: &[Entry],
    steps: &mut Steps<L>,
)
    requires after { AllByRecursion (λ e. e.index < later.now.index) entries.now }
    requires room { HasRoom (coincidence_view set.now) cells.old (λ c. pairs_with (coincidence_view set.now) c later.now entries.now) }
    ensures { Counts (coincidence_view set.now) cells.old cells.new steps.old steps.new
        (λ c. pairs_with (coincidence_view set.now) c later.now entries.now) (2 * length entries.now) }
{
    // Copies, so that no field is read again for each entry.
    let own = *set;
    pair_direction(cells, own, Side::First, *later, entries, steps);
    pair_direction(cells, own, Side::Second, *later, entries, steps);
}

/// Pairs the photons of a bin with one another, and none with itself.
pub(crate) fn pair_inside<L: Ledger>(
    cells: &mut PairCells,
    set: &CoincidenceSet,
    bin: &Bin,
    steps: &mut Steps<L>,
)
    requires both { bin.now.both ≤ bin.now.weights.a * bin.now.weights.b }
    requires room { HasRoom (coincidence_view set.now) cells.old (λ c. bin_pairs (coincidence_view set.now) c bin.now []) }
    ensures { Counts (coincidence_view set.now) cells.old cells.new steps.old steps.new
        (λ c. bin_pairs (coincidence_view set.now) c bin.now []) 1 }
{
    let pairs = u128::from(bin.weights.a) * u128::from(bin.weights.b) - u128::from(bin.both);
    if pairs > 0 {
        cells.add(cell_of(*set, set.reach), pairs, steps);
    }
}

/// Pairs the photons of an entry with those of a ring, and puts it among them. Those that no later photon reaches leave
/// the ring.
#[tactic(auto, using(lag_ring::proofs::Lists::all_back))]
fn append<L: Ledger>(
    cells: &mut PairCells,
    ring: &mut LagRing,
    set: &CoincidenceSet,
    later: &Entry,
    steps: &mut Steps<L>,
)
    requires after { AllByRecursion (λ e. e.index < later.now.index) ring.old.entries }
    requires room { HasRoom (coincidence_view set.now) cells.old (λ c. pairs_with (coincidence_view set.now) c later.now ring.old.entries) }
    requires place { length (kept_for set.now.reach later.now ring.old.entries) < ring.old.reach }
    ensures counts { Counts (coincidence_view set.now) cells.old cells.new steps.old steps.new
        (λ c. pairs_with (coincidence_view set.now) c later.now ring.old.entries) (2 * length ring.old.entries) }
    ensures kept { ring.new ≡ ring_of (kept_for set.now.reach later.now ring.old.entries ++ later.now ∷ []) ring.old.reach }
{
    let (front, back) = ring.slices();
    pair_entries(cells, set, later, front, steps);
    pair_entries(cells, set, later, back, steps);
    ring.retire(least_kept(set, later.index));
    ring.push(later.index, later.a, later.b);
}

/// Pairs the photons of a bin, and puts it among the closed ones. Where the last of those is out of
/// reach, which is the most frequent case, no other pairs with it, and the ring has it alone.
#[inline(always)]
pub(crate) fn close<L: Ledger>(
    pairing: &mut Pairing,
    set: &CoincidenceSet,
    bin: &Bin,
    steps: &mut Steps<L>,
)
    requires stands { MayClose (coincidence_view set.now) pairing.old (bin.now ∷ []) }
    ensures { Closes (coincidence_view set.now) pairing.old pairing.new (bin.now ∷ []) steps.old steps.new }
{
    let Pairing { ring, cells, .. } = pairing;
    pair_inside(cells, set, bin, steps);
    // A copy, so that a bin that is alone need not stand in memory.
    let near = bin.weights;
    if near.index.saturating_sub(ring.newest()) > u64::from(set.reach) {
        ring.restart(near.index, near.a, near.b);
    } else {
        append(cells, ring, set, &near, steps);
    }
}

/// Takes photons of one tick, after all that came. They join the open bin, or close it: the answer is the bin that is
/// to be closed then, if there is one, and the open one.
#[inline(always)]
pub(crate) fn join(waiting: Option<Bin>, bin: Bin) -> (Option<Bin>, Bin)
    requires stands { MayJoin waiting bin }
    ensures follows { Joins waiting bin result.0 result.1 }
{
    match waiting {
        Some(open) => {
            if open.weights.index == bin.weights.index {
                (None, open.with(&bin))
            } else {
                (Some(open), bin)
            }
        }
        None => (None, bin),
    }
}

/// Takes photons of one tick, after all that came: the answer is the bin that is open then. One that they close is
/// paired.
#[inline(always)]
pub(crate) fn put<L: Ledger>(
    waiting: Option<Bin>,
    pairing: &mut Pairing,
    set: &CoincidenceSet,
    bin: Bin,
    steps: &mut Steps<L>,
) -> Option<Bin>
    requires stands { ∥ ((came : History) × (xs : History) × CanPut (coincidence_view set.now)
        (Gathered (coincidence_view set.now) waiting pairing.old.ring pairing.old.cells []) bin came xs) ∥₁ }
    ensures follows { Puts (coincidence_view set.now) waiting result pairing.old pairing.new bin }
    ensures steps { Pays pairing.old pairing.new steps.old steps.new }
{
    let (closed, open) = join(waiting, bin);
    if let Some(closed) = closed {
        close(pairing, set, &closed, steps);
    }
    Some(open)
}

impl Pairing {
    ghost use Rattle.coincidence.specs.Pairing.{Came, PairingDone, CanEnd};

    /// No bins, with all the memory that they and the cells ever take, or `AllocError` where it is
    /// wanting.
    pub fn open(alloc: Global, set: &CoincidenceSet) -> Result<Pairing, AllocError>
        ensures empty { IfOk result (λ p. Came (coincidence_view set.now) p []) }
        ensures none { IfOk result (λ p. p.cells.added ≡ 0) }
    {
        Ok(Pairing {
            open: None,
            ring: LagRing::open(alloc, set.reach)?,
            cells: PairCells::open(alloc, cells_of(set))?,
        })
    }

    /// Closes the open bin, and opens none.
    pub fn end<L: Ledger>(&mut self, set: &CoincidenceSet, steps: &mut Steps<L>)
        requires stands { ∥ ((came : History) × CanEnd (coincidence_view set.now) self.old came) ∥₁ }
        ensures follows { (came : History) → CanEnd (coincidence_view set.now) self.old came → PairingDone (coincidence_view set.now) self.new came }
        ensures steps { Pays self.old self.new steps.old steps.new }
    {
        if let Some(open) = self.open {
            close(self, set, &open, steps);
            self.open = None;
        }
    }
}
