// Photons that are alone in their reach.
ghost use Rattle.std.specs.Prelude.{◌≡◌, ◌+◌, ◌<◌, ◌≤◌, ℕ, IsTrue};
ghost use Rattle.{tally_base.specs.{Settings.coincidence_view, Columns.{count, IsSorted}}, coincidence.specs.Lone.{bin_at, IsAlone, IsLone, Passes}};

use crate::pairing::Bin;
use lag_ring::{Entry, LagRing};
use tally_base::{Block, CoincidenceSet, TABLE_BLOCK};

/// A block whose events have their groups, for a table of coincidences.
#[derive(Clone, Copy)]
pub(crate) struct Given<'a> {
    /// What the table was opened with.
    pub(crate) set: CoincidenceSet,
    /// The events.
    pub(crate) block: &'a Block<TABLE_BLOCK>,
    ghost sorted: { IsSorted block.now },
}

/// The photon in a row of a block, as a bin.
#[inline(always)]
pub(crate) fn bin_in(given: Given, at: usize) -> Bin
    requires { at < count given.block.now }
    ensures { result ≡ bin_at (coincidence_view given.entry.set) given.entry.block.now at }
{
    let first = given.block.has_photon(at, given.set.first);
    let second = given.block.has_photon(at, given.set.second);
    Bin {
        weights: Entry {
            index: given.block.time(at),
            a: u64::from(first),
            b: u64::from(second),
        },
        both: u64::from(first & second),
    }
}

/// Whether the photons of a bin make no pair, also with those in a ring: none of these is in reach of it.
#[inline(always)]
fn is_alone(set: CoincidenceSet, ring: &LagRing, bin: &Bin) -> bool
    ensures { IsTrue result → IsAlone (coincidence_view set) ring.now.entries bin.now }
{
    let pairs = u128::from(bin.weights.a) * u128::from(bin.weights.b);
    if pairs != u128::from(bin.both) {
        return false;
    }
    if bin.weights.index.saturating_sub(ring.newest()) <= u64::from(set.reach) {
        return false;
    }
    true
}

/// Whether a row has a photon of either group, out of reach of the row before.
#[inline(always)]
fn is_lone(given: Given, at: usize) -> bool
    requires inside { (0 < at) × (at < count given.block.now) }
    ensures { IsTrue result → IsLone (coincidence_view given.entry.set) given.entry.block.now at }
{
    let Given { set, block } = given;
    let either = block.has_photon(at, set.first) | block.has_photon(at, set.second);
    either && block.time(at).saturating_sub(block.time(at - 1)) > u64::from(set.reach)
}

/// The first row from one on that isn't lone, or the end.
#[inline(always)]
fn lone_upto(given: Given, from: usize) -> usize
    requires inside { (0 < from) × (from ≤ count given.block.now) }
    ensures upto { (from ≤ result) × (result ≤ count given.entry.block.now) }
    ensures lone { (at : ℕ) → from ≤ at → at < result → IsLone (coincidence_view given.entry.set) given.entry.block.now at }
{
    for at in from..given.block.len() {
        if !is_lone(given, at) {
            return at;
        }
    }
    given.block.len()
}

/// Passes the rows after one that are lone, where the open bin is alone in its reach: they make no pair. The answer
/// is the bin that is open then, and the next row.
#[inline(always)]
pub(crate) fn pass_lone(
    given: Given,
    ring: &mut LagRing,
    waiting: Option<Bin>,
    at: usize,
) -> (Option<Bin>, usize)
    requires inside { at < count given.block.now }
    ensures upto { (at < result.1) × (result.1 ≤ count given.entry.block.now) }
    ensures follows { Passes (coincidence_view given.entry.set) given.entry.block.now waiting result.0 ring.old ring.new (at + 1) result.1 }
{
    if let Some(bin) = waiting {
        if bin.weights.index == given.block.time(at) && is_alone(given.set, ring, &bin) {
            let to = lone_upto(given, at + 1);
            if to > at + 2 {
                let before = bin_in(given, to - 2).weights;
                ring.restart(before.index, before.a, before.b);
                return (Some(bin_in(given, to - 1)), to);
            }
        }
    }
    (waiting, at + 1)
}
