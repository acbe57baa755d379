// The shifted dtimes of events, and the groups that they are in.
ghost use Rattle.std.specs.{Prelude.{◌≡◌, ◌<◌, ◌≤◌, ◌==◌, ℕ, map, length, None, is_some, slice_index, slice_index_or, ◌+◌, ◌-◌, ◌↔◌, [], get_or, nat_lt, false}, Option.ForSome};
ghost use Rattle.{tally_base.specs.{Settings.{group_view, shift_view}, Events.is_in}, plan_text.specs.ReadPlan.plan_view, gate_plan.specs.{Shifting.shift_of, Parting.{plain_bits, gated_bits}}};
ghost use Rattle.gate_plan.specs.Parting.{gated_sum, all_gates, gates_in, TellsGroups};

use crate::copies::clone_groups;
use crate::gated::Gated;
use crate::only_gate::OnlyGate;
use crate::shifts::{shift_table, shifted_by};
use crate::table::{bits_of_gated, gated_of, only_gate, plain_table};
use arrayvec::ArrayVec;
use plan_text::Plan;
use tally_base::{Event, EventKind, Group, ShiftSet};

/// The shifts and the groups of a plan, which sort events. Its lists and arrays are settings, of fixed size whatever the
/// file, and so are those of `Gated` and `OnlyGate`: nothing that is held is counted of them.
#[derive(Drop)]
pub struct Gates {
    period: u32,
    shifts: ArrayVec<ShiftSet, 65>,
    // By input: its shift, if it has one.
    shift_by_input: [Option<u16>; 256],
    groups: ArrayVec<Group, 64>,
    // By input: the number of those groups of the input that have no gate. After them 0, for markers.
    plain: [u64; 257],
    // The groups that have gates.
    gated: ArrayVec<Gated, 64>,
    // The gate of those with the groups of each input, where there is only one.
    only: Option<OnlyGate>,
    ghost some_period: { (0 < period) × (period ≤ 32768) },
    ghost few: { length groups.items ≤ 64 },
    ghost shifts_are: { (input : ℕ) → input < 256
        → slice_index_or shift_by_input input None ≡ shift_of (map shift_view shifts.items) input },
    ghost plain_is: { (input : ℕ) → input < 256 → slice_index plain input ≡ plain_bits (map group_view groups.items) input },
    ghost markers: { slice_index plain 256 ≡ 0 },
    ghost gated_is: { (input dtime : ℕ) → gated_sum gated.items input dtime
        ≡ gated_bits (map group_view groups.items) input dtime },
    ghost gates_are: { gates_in gated.items ≡ all_gates (map group_view groups.items) },
    ghost only_one: { is_some only ≡ (length (all_gates (map group_view groups.items)) == 1) },
    ghost only_is: { ForSome only (λ gate. TellsGroups gate (map group_view groups.items)) },
}

impl Gates {
    ghost use Rattle.gate_plan.{specs.Shifting.{sorting, shifted, shifted_dtime}, specs.Taking.{takes, groups_in}, specs.Groups.sorting_of};

    /// The shifts and the groups of a plan.
    pub fn of(plan: &Plan) -> Gates
        ensures sorting { sorting_of result ≡ sorting (plan_view plan.now) }
    {
        let mut shifts: ArrayVec<ShiftSet, 65> = ArrayVec::new();
        let _ = shifts.try_extend_from_slice(plan.shifts.as_slice());
        let shift_by_input = shift_table(shifts.as_slice());
        let groups = clone_groups(&plan.groups);
        let plain = plain_table(&groups);
        let gated = gated_of(&groups);
        let only = only_gate(gated.as_slice(), &plain);
        Gates {
            period: plan.period,
            shifts,
            shift_by_input,
            groups,
            plain,
            gated,
            only,
        }
    }

    /// Whether an input has a shift.
    pub fn has_shifts(&self) -> bool
        ensures { (result ≡ false) ↔ ((sorting_of self.now).shifts ≡ []) }
    {
        !self.shifts.is_empty()
    }

    /// The dtime of a photon of an input, in ticks, with the shift of the input added modulo the period,
    /// where it has one.
    #[inline(always)]
    pub fn shifted_dtime(&self, input: u8, dtime: u16) -> u16
        ensures { result ≡ shifted_dtime (sorting_of self.now) input dtime }
    {
        shifted_by(self.period, self.shift_by_input[input as usize], dtime)
    }

    /// The event with its shifted dtime in place of its dtime. A marker stays as it is.
    #[inline(always)]
    pub fn shifted(&self, e: &Event) -> Event
        ensures { result ≡ shifted (sorting_of self.now) e.now }
    {
        match e.kind {
            EventKind::Photon { input, dtime } => Event {
                place: e.place,
                kind: EventKind::Photon {
                    input,
                    dtime: self.shifted_dtime(input, dtime),
                },
                time: e.time,
            },
            EventKind::Marker { .. } => *e,
        }
    }

    /// The groups that a photon is in, by its shifted dtime. One gate takes no loop.
    #[inline(always)]
    #[tactic(auto, using(crate::proofs::Parts::parted_fits, crate::proofs::Parts::gated_fits, crate::proofs::Parts::few_groups))]
    pub fn of_photon(&self, input: u8, dtime: u16) -> u64
        ensures { result ≡ plain_bits (sorting_of self.now).groups input + gated_bits (sorting_of self.now).groups input dtime }
    {
        match &self.only {
            Some(only) => only.of_photon(input, dtime),
            None => self.of_input(input) + bits_of_gated(self.gated.as_slice(), input, dtime),
        }
    }

    /// The only gate of the plan, if there is one, with the groups of each input after it.
    pub fn only_gate(&self) -> Option<&OnlyGate>
        ensures tells { ForSome result (λ gate. TellsGroups gate.now (sorting_of self.now).groups) }
        ensures one { is_some result ≡ (length (all_gates (sorting_of self.now).groups) == 1) }
    {
        self.only.as_ref()
    }

    /// Whether a group has a gate.
    #[tactic(auto, using(crate::proofs::Parts::some_gates))]
    pub fn has_gates(&self) -> bool
        ensures none { result ≡ false → (input dtime : ℕ) → gated_bits (sorting_of self.now).groups input dtime ≡ 0 }
        ensures some { result ≡ nat_lt 0 (length (all_gates (sorting_of self.now).groups)) }
    {
        !self.gated.is_empty()
    }

    /// By input the groups without a gate that its photons are in, and after them those of markers, which are none.
    pub(crate) fn by_input(&self) -> &[u64; 257]
        ensures inputs { (input : ℕ) → input < 256
            → slice_index result.now input ≡ plain_bits (sorting_of self.now).groups input }
        ensures markers { slice_index result.now 256 ≡ 0 }
    {
        &self.plain
    }

    /// The groups without a gate that the photons of an input are in.
    #[inline(always)]
    pub fn of_input(&self, input: u8) -> u64
        ensures { result ≡ plain_bits (sorting_of self.now).groups input }
    {
        self.plain[input as usize]
    }

    /// The groups that an event is in, asked of the event as the file has it: bit g - 1 is set for group
    /// g. A photon is in a group where its input is one of the group's, and its shifted dtime (in ticks)
    /// is in one of the group's gates, if there are any. A marker is in no group.
    #[inline(always)]
    pub fn groups(&self, e: &Event) -> u64
        ensures number { result ≡ groups_in (sorting_of self.now) e.now }
        ensures each { (g : ℕ) → 0 < g → is_in result g
            ≡ get_or (map (λ group. takes group (shifted (sorting_of self.now) e.now))
            (sorting_of self.now).groups) (g - 1) false }
    {
        match e.kind {
            EventKind::Photon { input, dtime } => {
                self.of_photon(input, self.shifted_dtime(input, dtime))
            }
            EventKind::Marker { .. } => 0,
        }
    }
}
