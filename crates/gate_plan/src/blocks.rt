// The events of a block, shifted and sorted.
ghost use Rattle.std.specs.Prelude.{◌≡◌, ℕ, ◌≤◌, map};
ghost use Rattle.{tally_base.specs.{declared.event.Event.Event, Codes.kind_of, Columns.{sorted, gathered}}, gate_plan.specs.{Groups.sorting_of, Shifting.shifted, Taking.groups_by}};
ghost use Rattle.gate_plan.specs.{Parting.gated_bits, Histories.{FindsGroups, SortsEvents}};

use crate::gates::Gates;
use tally_base::{Block, TABLE_BLOCK};

/// Shifts the dtimes of the photons of a block, and finds the groups of its events.
pub fn sort_events(gates: &Gates, block: &mut Block<TABLE_BLOCK>)
    ensures { SortsEvents (sorting_of gates.now) block.old block.new }
{
    if gates.has_shifts() {
        shift_each(gates, block);
    }
    sort(gates, block);
}

/// Shifts the dtimes of the photons of a block.
fn shift_each(gates: &Gates, block: &mut Block<TABLE_BLOCK>)
    ensures shifted { gathered block.new ≡ map (shifted (sorting_of gates.now)) (gathered block.old) }
    ensures unsorted { sorted block.new ≡ sorted block.old }
{
    for at in 0..block.len().min(TABLE_BLOCK) {
        let dtime = dtime_behind(gates, block.code(at), block.dtime(at));
        block.set_dtime(at, dtime);
    }
}

/// The shifted dtime of an event in a block.
#[inline(always)]
fn dtime_behind(gates: &Gates, code: u16, dtime: u16) -> u16
    ensures { (e : Event) → e.kind ≡ kind_of code dtime → kind_of code result ≡ (shifted (sorting_of gates.now) e).kind }
{
    if code < 256 {
        gates.shifted_dtime(code as u8, dtime)
    } else {
        dtime
    }
}

/// Finds the groups of the events of a block, whose dtimes are shifted. Where a plan has one gate, its numbers
/// are read once for them all, and where it has none, the groups of a photon are those of its input.
fn sort(gates: &Gates, block: &mut Block<TABLE_BLOCK>)
    ensures { FindsGroups (sorting_of gates.now).groups block.old block.new }
{
    match gates.only_gate() {
        Some(only) => only.sort(block),
        None if gates.has_gates() => sort_each(gates, block),
        None => sort_by_input(gates, block),
    }
}

/// Finds the groups of the events of a block, where no group has a gate.
// Not inlined, so that its loop has the registers for itself.
#[inline(never)]
fn sort_by_input(gates: &Gates, block: &mut Block<TABLE_BLOCK>)
    requires { (input dtime : ℕ) → gated_bits (sorting_of gates.now).groups input dtime ≡ 0 }
    ensures { FindsGroups (sorting_of gates.now).groups block.old block.new }
{
    block.sort_by(gates.by_input());
}

/// Finds the groups of the events of a block, event by event.
// Not inlined, so that its loop has the registers for itself.
#[inline(never)]
fn sort_each(gates: &Gates, block: &mut Block<TABLE_BLOCK>)
    ensures { FindsGroups (sorting_of gates.now).groups block.old block.new }
{
    let mut groups = [0; TABLE_BLOCK];
    for at in 0..block.len().min(TABLE_BLOCK) {
        groups[at] = groups_at(gates, block.code(at), block.dtime(at));
    }
    block.put_all(&groups);
}

/// The groups of an event in a block.
#[inline(always)]
#[tactic(auto, using(crate::proofs::Parts::of_photon, crate::proofs::Parts::of_marker))]
fn groups_at(gates: &Gates, code: u16, dtime: u16) -> u64
    ensures marker { 256 ≤ code → result ≡ 0 }
    ensures value { (e : Event) → e.kind ≡ kind_of code dtime → result ≡ groups_by (sorting_of gates.now).groups e }
{
    if code < 256 {
        gates.of_photon(code as u8, dtime)
    } else {
        0
    }
}
