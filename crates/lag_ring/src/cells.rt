// Cells that count pairs, one number each.
ghost use Rattle.std.specs.Prelude.{◌≡◌, ℕ, ◌+◌, ◌%◌, ◌^◌, ◌<◌, ◌≤◌, [], ◌∷◌, ◌++◌, IfOk, length, replicate, slice_index, slice_set};
ghost use Rattle.lag_ring.specs.Cells.{row_at, places_from, without_carry, carry_of};

use std::alloc::{AllocError, Global};
use std::marker::Model;
use std::sync::ledger::Ledger;
use tally_base::{Noted, Steps};

/// Counts of pairs of photons, at most 2^80 each.
///
/// Contracts see the counts as a list, the number of additions that made them, and the cell of each. Each
/// addition is a step, and there is no other way to change a count.
///
/// The lists that it keeps: `cells`. `additions` has no bytes.
#[derive(Drop)]
pub struct PairCells {
    cells: Vec<u128>,
    additions: Noted<usize>,
}

impl Model for PairCells {
    ghost use Rattle.std.specs.Prelude.{length};
    ghost use Rattle.lag_ring.specs.Cells.{Cells, pair_cells, cells_code};

    ghost Value = { Cells };

    ghost coded = { cells_code };

    ghost view = { λ c. pair_cells c.cells.items (length c.additions.items) c.additions.items };
}

/// Where the upper half of a cell begins.
const HALF: u128 = 1 << 64;

/// A lower half below this has room for a number of a row.
const ROOM: u64 = 1 << 63;

/// Adds to the lower half of a cell, and answers what that half was. A carry is lost. The upper half is not written.
#[inline(always)]
fn add_low(cell: &mut u128, more: u32) -> u64
    ensures low { result ≡ cell.old % 2 ^ 64 }
    ensures sum { cell.new ≡ without_carry cell.old more }
{
    let low = (*cell % HALF) as u64;
    *cell = *cell / HALF * HALF + u128::from(low.wrapping_add(u64::from(more)));
    low
}

/// Adds each number of a row to the lower half of its cell, from one cell upwards. The answer is 2^63 or more where a
/// carry may be lost.
#[inline(always)]
fn add_lows<L: Ledger>(
    cells: &mut [u128],
    from: usize,
    row: &[u32],
    additions: &mut Noted<usize>,
    steps: &mut Steps<L>,
) -> u64
    requires inside { from + length row.now ≤ length cells.old }
    ensures lows { (c : ℕ) → c < length cells.old → slice_index cells.new c ≡ without_carry (slice_index cells.old c) (row_at from row.now c) }
    ensures sums { result < ROOM → (c : ℕ) → c < length cells.old → slice_index cells.new c ≡ slice_index cells.old c + row_at from row.now c }
    ensures places { additions.new.items ≡ additions.old.items ++ places_from from (length row.now) }
    ensures steps { steps.new ≡ steps.old + length row.now }
{
    let mut seen = 0;
    for q in 0..row.len() {
        seen |= add_low(&mut cells[from + q], row[q]);
        additions.note(&[from + q]);
        steps.tick();
    }
    seen
}

/// Carries where a row was added to lower halves from one cell upwards.
#[inline(never)]
fn carry_lows(cells: &mut [u128], from: usize, row: &[u32])
    requires inside { from + length row.now ≤ length cells.old }
    requires few { (q : ℕ) → q < length row.now → slice_index cells.old (from + q) < 2 ^ 81 }
    ensures carried { (c : ℕ) → c < length cells.old → slice_index cells.new c
        ≡ slice_index cells.old c + carry_of (slice_index cells.old c) (row_at from row.now c) }
{
    for q in 0..row.len() {
        if cells[from + q] % HALF < u128::from(row[q]) {
            cells[from + q] += HALF;
        }
    }
}

impl PairCells {
    ghost use Rattle.lag_ring.specs.Cells.{pair_cells};

    /// So many cells, each 0, or `AllocError` where there is not enough memory for them.
    pub fn open(alloc: Global, cells: u32) -> Result<PairCells, AllocError>
        ensures zeros { IfOk result (λ c. c ≡ pair_cells (replicate cells 0) 0 []) }
    {
        Ok(PairCells {
            cells: vec![in alloc; 0; cells as usize]?,
            additions: Noted::new(),
        })
    }

    /// Adds pairs to one cell, in one step.
    pub fn add<L: Ledger>(&mut self, at: u32, pairs: u128, steps: &mut Steps<L>)
        requires inside { at < length self.old.cells }
        requires sum { slice_index self.old.cells at + pairs ≤ 2 ^ 80 }
        ensures cells { self.new ≡ pair_cells
            (slice_set self.old.cells at (slice_index self.old.cells at + pairs))
            (self.old.added + 1) (self.old.places ++ at ∷ []) }
        ensures step { steps.new ≡ steps.old + 1 }
    {
        self.cells[at as usize] += pairs;
        self.additions.note(&[at as usize]);
        steps.tick();
    }

    /// Adds a row of numbers of pairs to as many cells, in one step each: the first to the cell
    /// `from`, and each further one to the cell above.
    #[inline(always)]
    #[tactic(auto, using(crate::proofs::Between::places_length))]
    pub fn add_row<L: Ledger>(&mut self, from: u32, row: &[u32], steps: &mut Steps<L>)
        requires inside { from + length row.now ≤ length self.old.cells }
        requires sums { (q : ℕ) → q < length row.now → slice_index self.old.cells (from + q) + slice_index row.now q ≤ 2 ^ 80 }
        ensures cells { (c : ℕ) → c < length self.old.cells → slice_index self.new.cells c ≡ slice_index self.old.cells c + row_at from row.now c }
        ensures same { length self.new.cells ≡ length self.old.cells }
        ensures added { self.new.added ≡ self.old.added + length row.now }
        ensures places { self.new.places ≡ self.old.places ++ places_from from (length row.now) }
        ensures steps { steps.new ≡ steps.old + length row.now }
    {
        let PairCells { cells, additions } = self;
        let seen = add_lows(cells, from as usize, row, additions, steps);
        if seen >= ROOM {
            carry_lows(cells, from as usize, row);
        }
    }

    /// How many pairs a cell has.
    pub fn get(&self, at: u32) -> u128
        requires inside { at < length self.now.cells }
        ensures count { result ≡ slice_index self.now.cells at }
    {
        self.cells[at as usize]
    }
}
