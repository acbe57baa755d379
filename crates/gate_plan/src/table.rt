// The groups without a gate by input, and those with gates.
ghost use Rattle.std.specs.{Prelude.{◌≡◌, ◌<◌, ◌≤◌, ◌+◌, ◌-◌, ◌*◌, ◌^◌, ℕ, min, map, length, slice_index, slice_index_or, is_some, ◌==◌, false, [], ◌∷◌}, Int.bit_at, Option.ForSome};
ghost use Rattle.{tally_base.specs.Settings.group_view, gate_plan.specs.{Taking.{is_among, is_in_gate, one_if}, Parting.{on_sides, takes_plainly, takes_gated, passes, gates_of, all_gates, gates_in}}};
ghost use Rattle.gate_plan.specs.Parting.{plain_bits, gated_bits, gated_bit, gated_sum, TellsGroupsBy};

use crate::copies::gates_again;
use crate::gated::Gated;
use crate::only_gate::{OnlyGate, is_in_gate};
use arrayvec::ArrayVec;
use tally_base::Group;

/// For each input the number of those of its groups that have no gate, and after them 0, for markers.
#[tactic(auto, using(crate::proofs::Parts::filled_more))]
pub(crate) fn plain_table(groups: &ArrayVec<Group, 64>) -> [u64; 257]
    ensures inputs { (input : ℕ) → input < 256 → slice_index result input ≡ plain_bits (map group_view groups.now.items) input }
    ensures markers { slice_index result 256 ≡ 0 }
{
    let mut table = [0; 257];
    for input in 0..256u16 {
        table[input as usize] = plain_of(groups, input as u8);
    }
    table
}

/// The number of the groups of an input that have no gate.
fn plain_of(groups: &ArrayVec<Group, 64>, input: u8) -> u64
    ensures { result ≡ plain_bits (map group_view groups.now.items) input }
{
    let items = groups.as_slice();
    let mut bits: u64 = 0;
    let mut place: u64 = 0;
    'groups: for group in items {
        bits += bit_if(is_plain(group, input), place);
        place += 1;
    }
    bits
}

/// Whether a group has the input, and no gate.
#[inline]
fn is_plain(group: &Group, input: u8) -> bool
    ensures { result ≡ takes_plainly input (group_view group.now) }
{
    is_among(group.inputs, input) && group.gates.is_empty()
}

/// The groups that have gates.
pub(crate) fn gated_of(groups: &ArrayVec<Group, 64>) -> ArrayVec<Gated, 64>
    ensures bits { (input dtime : ℕ) → gated_sum result.items input dtime ≡ gated_bits (map group_view groups.now.items) input dtime }
    ensures gates { gates_in result.items ≡ all_gates (map group_view groups.now.items) }
{
    let items = groups.as_slice();
    let mut gated: ArrayVec<Gated, 64> = ArrayVec::new();
    let mut place: u64 = 0;
    'groups: for group in items {
        if !group.gates.is_empty() {
            gated.push(gated_at(group, place));
        }
        place += 1;
    }
    gated
}

/// The group with its gates, whose bit stands at a place.
fn gated_at(group: &Group, place: u64) -> Gated
    requires place { place < 64 }
    requires some { 0 < length group.now.gates.items }
    ensures bit { (input dtime : ℕ) → gated_bit input dtime result
        ≡ one_if (takes_gated input dtime (group_view group.now)) * 2 ^ place }
    ensures gates { gates_of result ≡ group.now.gates.items }
{
    let gates = group.gates.as_slice();
    Gated {
        place,
        has: inputs_of(group.inputs),
        gate: gates[0],
        others: gates_again(&gates[1..]),
    }
}

/// The only gate of these groups, if they are one group that has one gate, with the groups of each input
/// after it, where these are the groups that have none.
pub(crate) fn only_gate(gated: &[Gated], plain: &[u64; 257]) -> Option<OnlyGate>
    ensures groups { ForSome result (TellsGroupsBy plain.now gated.now) }
    ensures one { is_some result ≡ (length (gates_in gated.now) == 1) }
{
    match gated {
        [group] if group.others.is_empty() => {
            Some(OnlyGate::new(group.gate, sides_table(group, plain)))
        }
        _ => None,
    }
}

/// For each input the number of its groups where the dtime isn't in a gate of this group, and where it is, and these
/// are the groups that have none. After them 0, for markers.
#[tactic(auto, using(crate::proofs::Parts::filled_more))]
fn sides_table(group: &Gated, plain: &[u64; 257]) -> [[u64; 2]; 257]
    ensures inputs { (input : ℕ) → input < 256 → slice_index_or result input [] ≡ on_sides plain.now group.now input }
    ensures markers { slice_index_or result 256 [] ≡ 0 ∷ 0 ∷ [] }
{
    let mut table = [[0; 2]; 257];
    for input in 0..256u16 {
        let at = input as usize;
        let inside = plain[at].saturating_add(bit_if(group.has[at], group.place));
        table[at] = [plain[at], inside];
    }
    table
}

/// The number of those of these groups that a photon is in.
// Not inlined, so that the loop over the events has the registers for itself: most plans have one gate at most.
#[cold]
#[inline(never)]
pub(crate) fn bits_of_gated(gated: &[Gated], input: u8, dtime: u16) -> u64
    requires fits { gated_sum gated.now input dtime < 2 ^ 64 }
    ensures { result ≡ gated_sum gated.now input dtime }
{
    let mut bits: u64 = 0;
    'gated: for group in gated {
        bits += bit_in(group, input, dtime);
    }
    bits
}

/// The bit of a group, if a photon is in it. It takes no branch on the input or on the dtime.
#[inline(always)]
fn bit_in(group: &Gated, input: u8, dtime: u16) -> u64
    ensures { result ≡ gated_bit input dtime group.now }
{
    let set = group.has[input as usize] & passes(group, dtime);
    u64::from(set) << group.place
}

/// Whether a dtime is in one of the gates of a group. Most groups have one, which is compared with alone.
#[inline(always)]
fn passes(group: &Gated, dtime: u16) -> bool
    ensures { result ≡ passes (gates_of group.now) dtime }
{
    let first = is_in_gate(&group.gate, dtime);
    if group.others.is_empty() {
        first
    } else {
        first | passes_some(group.others.as_slice(), dtime)
    }
}

/// Whether a dtime is in one of several gates.
fn passes_some(gates: &[(u16, u16)], dtime: u16) -> bool
    ensures { result ≡ passes gates.now dtime }
{
    let mut found = false;
    'gates: for gate in gates {
        found |= is_in_gate(gate, dtime);
    }
    found
}

/// For each input whether it is one of these.
fn inputs_of(inputs: u128) -> [bool; 256]
    ensures { (input : ℕ) → slice_index_or result input false ≡ is_among inputs input }
{
    let mut has = [false; 256];
    for input in 0..256u16 {
        has[input as usize] = is_among(inputs, input as u8);
    }
    has
}

/// The bit at a place, if it is set.
#[inline]
fn bit_if(set: bool, place: u64) -> u64
    requires { place < 64 }
    ensures { result ≡ one_if set * 2 ^ place }
{
    if set { 1u64 << place } else { 0 }
}

/// Whether an input is one of these.
#[inline]
fn is_among(inputs: u128, input: u8) -> bool
    ensures { result ≡ is_among inputs input }
{
    input < 128 && (inputs >> input) & 1 == 1
}
