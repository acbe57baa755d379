// The only gate of a plan.
ghost use Rattle.std.specs.Prelude.{◌≡◌, slice_index_or, [], ◌∷◌};
ghost use Rattle.gate_plan.specs.Taking.{is_in_gate};

use tally_base::{Block, TABLE_BLOCK};

/// The only gate of a plan, with the groups of each input after it.
#[derive(Clone, Copy)]
pub struct OnlyGate {
    /// By input, and by whether a dtime is in the gate: the number of the groups. After them 0, for markers.
    groups: [[u64; 2]; 257],
    /// The range of dtimes, from its first number on and below its second.
    gate: (u16, u16),
    ghost markers: { slice_index_or groups 256 [] ≡ 0 ∷ 0 ∷ [] },
}

impl OnlyGate {
    ghost use Rattle.std.specs.Prelude.{ℕ, List, slice_index, if◌then◌else◌};
    ghost use Rattle.tally_base.{specs.Settings.GroupView, specs.Columns.{events_in, gathered, IsSorted}};
    ghost use Rattle.gate_plan.{specs.Parting.{groups_behind, TellsGroups}, specs.Histories.grouped};

    /// A gate, and by input the number of the groups of a photon whose dtime isn't in it, and of one whose is.
    pub(crate) fn new(gate: (u16, u16), groups: [[u64; 2]; 257]) -> OnlyGate
        requires markers { slice_index_or groups 256 [] ≡ 0 ∷ 0 ∷ [] }
        ensures { (input dtime : ℕ) → groups_behind input dtime result
            ≡ slice_index (slice_index_or groups input []) (if is_in_gate dtime gate then 1 else 0) }
    {
        OnlyGate { groups, gate }
    }

    /// Finds the groups of the events of a block, whose dtimes are shifted.
    // Not inlined, so that its loop has the registers for itself.
    #[inline(never)]
    pub(crate) fn sort(&self, block: &mut Block<TABLE_BLOCK>)
        ensures kept { (gathered block.new ≡ gathered block.old) × IsSorted block.new }
        ensures found { (groups : List GroupView) → TellsGroups self.now groups
            → events_in block.new ≡ grouped groups (gathered block.old) }
    {
        block.sort_by_gate(self.gate, &self.groups);
    }

    /// The groups of a photon, by its shifted dtime. It takes no branch on the input or on the dtime.
    #[inline(always)]
    pub fn of_photon(&self, input: u8, dtime: u16) -> u64
        ensures { result ≡ groups_behind input dtime self.now }
    {
        self.groups[input as usize][is_in_gate(&self.gate, dtime) as usize]
    }
}

/// Whether a dtime is in the gate: from its first on and below its second.
#[inline(always)]
pub(crate) fn is_in_gate(gate: &(u16, u16), dtime: u16) -> bool
    ensures { result ≡ is_in_gate dtime gate.now }
{
    (gate.0 <= dtime) & (dtime < gate.1)
}
