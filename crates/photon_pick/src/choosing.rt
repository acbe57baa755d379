// Which events of a block are photons of a group.
ghost use Rattle.std.specs.Prelude.{◌≡◌, ◌<◌, ◌≤◌, ◌&&◌, ℕ, false, filter, slice_index};
ghost use Rattle.{tally_base.specs.Columns.{count, gathered}, gate_plan.specs.{Groups.sorting_of, Parting.gated_bits, Taking.groups_in}, photon_pick.specs.{Chosen.is_chosen, Giving.events_at}};

use gate_plan::Gates;
use tally_base::{Block, Event, EventKind, TABLE_BLOCK, is_in};

/// The groups that an event is in, none for a marker. Where no group has a gate, its input alone tells.
#[inline(always)]
fn groups_of(gates: &Gates, gated: bool, e: &Event) -> u64
    requires { gated ≡ false → (input dtime : ℕ) → gated_bits (sorting_of gates.now).groups input dtime ≡ 0 }
    ensures { result ≡ groups_in (sorting_of gates.now) e.now }
{
    if gated {
        return gates.groups(e);
    }
    match e.kind {
        EventKind::Photon { input, .. } => gates.of_input(input),
        EventKind::Marker { .. } => 0,
    }
}

/// Puts the places of the photons of a group in a block, in order, to the front of an array. The answer is how
/// many they are. It takes no branch on the group, which no processor would foresee.
// Not inlined, so that its loop has the registers for itself.
#[inline(never)]
pub(crate) fn choose(
    gates: &Gates,
    group: u8,
    block: &Block<TABLE_BLOCK>,
    places: &mut [u16; TABLE_BLOCK],
) -> usize
    requires group { (0 < group) × (group ≤ 64) }
    ensures few { result ≤ TABLE_BLOCK }
    ensures inside { (k : ℕ) → k < result → slice_index places.new k < count block.now }
    ensures chosen { events_at block.now places.new result
        ≡ filter (is_chosen (sorting_of gates.now) group) (gathered block.now) }
{
    let gated = gates.has_gates();
    let mut chosen = 0;
    for at in 0..block.len().min(TABLE_BLOCK) {
        places[chosen] = at as u16;
        let groups = groups_of(gates, gated, &block.event(at));
        chosen += usize::from(is_in(groups, group));
    }
    chosen
}
