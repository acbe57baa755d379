// The photons of a block, for a table of coincidences.
ghost use Rattle.{tally_base.specs.Settings.coincidence_view, coincidence.specs.StandsFor.{MayTake, Takes}};

use crate::closing::{MANY, close_all};
use crate::gathering::gather_block;
use crate::lone::{Given, bin_in, pass_lone};
use crate::pairing::{Pairing, put};
use arrayvec::ArrayVec;
use std::sync::ledger::Ledger;
use tally_base::Steps;

/// Gives the photons of a block to the bins, and leaves out those of other groups. Where many bins are in reach, those
/// that it closes are paired together, and else one by one, but for photons that are alone in their reach.
pub(crate) fn take_block<L: Ledger>(pairing: &mut Pairing, given: Given, steps: &mut Steps<L>)
    requires stands { MayTake (coincidence_view given.set) pairing.old given.block.now }
    ensures { Takes (coincidence_view given.entry.set) pairing.old pairing.new given.entry.block.now steps.old steps.new }
{
    if pairing.ring.len() >= MANY {
        let mut bins = ArrayVec::new();
        let open = gather_block(given, pairing.open, &mut bins);
        close_all(pairing, &given.set, &bins, steps);
        pairing.open = open;
        return;
    }
    let mut open = pairing.open;
    let mut at = 0;
    while at < given.block.len() {
        // No branch on which group it is, which is as good as random from photon to photon.
        let first = given.block.has_photon(at, given.set.first);
        let second = given.block.has_photon(at, given.set.second);
        if first | second {
            let bin = bin_in(given, at);
            open = put(open, pairing, &given.set, bin, steps);
        }
        let passed = pass_lone(given, &mut pairing.ring, open, at);
        open = passed.0;
        at = passed.1;
    }
    pairing.open = open;
}
