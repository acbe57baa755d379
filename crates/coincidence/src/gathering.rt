// Bins that the photons of a block close.
ghost use Rattle.std.specs.Prelude.{◌≡◌, ◌+◌, ◌<◌, ◌≤◌, ◌++◌, [], take};
ghost use Rattle.{tally_base.specs.{Settings.coincidence_view, Tally.History, Columns.{count, gathered, events_in}}, lag_ring.specs.{Cells.Cells, Ring.Ring}, arrayvec.specs.ArrayVec.array_vec_len};
ghost use Rattle.coincidence.specs.{StandsFor.{CanTake, Gathers}, Pairing.{Gathered, closed_bin}, Picked.ArePicked};

use crate::lone::{Given, bin_in};
use crate::pairing::{Bin, join};
use arrayvec::ArrayVec;
use tally_base::TABLE_BLOCK;

/// Puts the rows of a block that have a photon of either group after one another, and answers how many there are. What
/// stands after them has no meaning.
#[inline(always)]
fn pick(given: Given, rows: &mut [u16; TABLE_BLOCK]) -> usize
    ensures few { result ≤ TABLE_BLOCK }
    ensures picked { ArePicked (coincidence_view given.entry.set) given.entry.block.now (take result rows.new) 0 (count given.entry.block.now) }
{
    let mut picked = 0;
    for at in 0..given.block.len().min(TABLE_BLOCK) {
        // No branch on which group it is, which is as good as random from photon to photon.
        let first = given.block.has_photon(at, given.set.first);
        let second = given.block.has_photon(at, given.set.second);
        rows[picked] = at as u16;
        picked += usize::from(first | second);
    }
    picked
}

/// Puts a bin after others, if there is one.
#[inline(always)]
fn put_bin(bins: &mut ArrayVec<Bin, TABLE_BLOCK>, more: Option<Bin>)
    requires room { array_vec_len bins.old < TABLE_BLOCK }
    ensures items { bins.new.items ≡ bins.old.items ++ closed_bin more }
    ensures few { array_vec_len bins.new ≤ array_vec_len bins.old + 1 }
{
    if let Some(bin) = more {
        bins.push(bin);
    }
}

/// Takes the photons of a block, and puts the bins that they close into a list. The answer is the bin
/// that is open then.
#[tactic(auto, using(crate::proofs::Picked::next_within))]
pub(crate) fn gather_block(
    given: Given,
    waiting: Option<Bin>,
    bins: &mut ArrayVec<Bin, TABLE_BLOCK>,
) -> Option<Bin>
    requires empty { (bins.old.items ≡ []) × (array_vec_len bins.old ≡ 0) }
    requires stands { let set = coincidence_view given.set in ∥ ((ring : Ring) × (cells : Cells) × (h : History)
        × CanTake set (Gathered set waiting ring cells []) (gathered given.block.now) h) ∥₁ }
    ensures follows { Gathers (coincidence_view given.entry.set) waiting result bins.new.items (gathered given.entry.block.now) (events_in given.entry.block.now) }
    ensures few { array_vec_len bins.new ≤ TABLE_BLOCK }
{
    let mut rows = [0; TABLE_BLOCK];
    let picked = pick(given, &mut rows);
    let mut open = waiting;
    for row in &rows[..picked] {
        let bin = bin_in(given, *row as usize);
        let (closed, now) = join(open, bin);
        put_bin(bins, closed);
        open = Some(now);
    }
    open
}
