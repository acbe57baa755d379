// What gives the photons of a group to a picker.
ghost use Rattle.std.specs.Prelude.{◌≡◌, ◌+◌, ◌<◌, ◌≤◌, ◌&&◌, not, true, None};
ghost use Rattle.{tally_base.specs.declared.event.Event.Event, gate_plan.specs.Groups.sorting_of, record_write.specs.Picker.{mode_of, last_by, is_going}, photon_pick.specs.Chosen.is_chosen};

use crate::choosing::choose;
use crate::giving::give_photons;
use abs_time::{moved_floor, orders_markers};
use bench_io::{OutBuffer, Sink};
use gate_plan::Gates;
use record_stream::EventTaker;
use record_write::Picker;
use tally_base::{Block, Event, Failed, Fault, Mode, TABLE_BLOCK, is_in};

/// Whether an event is a photon of a group, by its shifted dtime, that isn't late.
#[inline(always)]
fn is_wanted(gates: &Gates, group: u8, e: &Event, late: bool) -> bool
    requires { (0 < group) × (group ≤ 64) }
    ensures { result ≡ (not late && is_chosen (sorting_of gates.now) group e.now) }
{
    !late && e.is_photon() && is_in(gates.groups(e), group)
}

/// Writes each photon of a group that isn't late, with the dtime that the file has, through a block. It lives for
/// one piece, or for the end.
#[derive(Drop)]
pub(crate) struct Picks<'g, 'p, 'o, O: Sink> {
    pub(crate) gates: &'g Gates,
    pub(crate) group: u8,
    pub(crate) picker: &'p mut Picker,
    pub(crate) out: &'o mut O,
    pub(crate) block: OutBuffer,
    // Why a photon was refused. Then no other is given to the picker.
    pub(crate) fault: Option<Fault>,
    // How often it failed.
    pub(crate) refusals: u64,
    pub(crate) mode: Mode,
    pub(crate) taken: u64,
    pub(crate) floor: u64,
    ghost some_group: { (0 < group) × (group ≤ 64) },
    ghost of_mode: { mode_of picker.now ≡ mode },
    ghost before: { last_by picker.now ≤ floor },
    ghost going: { fault ≡ None → is_going picker.now ≡ true },
}

impl<'g, 'p, 'o, O: Sink> EventTaker for Picks<'g, 'p, 'o, O> {
    ghost use Rattle.std.{specs.Prelude.{refl}, proofs.Common.{◌∙◌}};
    ghost use Rattle.photon_pick.specs.Giving.{TookPhotons, Refused, took_none, stand, pen_on};

    ghost got = { λ s t l. TookPhotons (stand (is_chosen (sorting_of s.gates.now) s.group)
        (pen_on O.Sink s.picker.now s.out.now s.block) s.mode s.taken s.floor s.fault)
        (stand (is_chosen (sorting_of t.gates.now) t.group)
        (pen_on O.Sink t.picker.now t.out.now t.block) t.mode t.taken t.floor t.fault) l };

    // It failed at one of these.
    ghost broke = { λ s t l. s.fault ≡ None → Refused (stand (is_chosen (sorting_of s.gates.now) s.group)
        (pen_on O.Sink s.picker.now s.out.now s.block) s.mode s.taken s.floor s.fault)
        (stand (is_chosen (sorting_of t.gates.now) t.group)
        (pen_on O.Sink t.picker.now t.out.now t.block) t.mode t.taken t.floor t.fault) l };

    ghost same = { λ s t. (t.out.ghost_name ≡ s.out.ghost_name)
        × (t.picker.ghost_name ≡ s.picker.ghost_name) × (t.mode ≡ s.mode) };

    ghost same_none = { λ t. (refl, refl, refl) };

    ghost same_more = { λ t u v p q. (q.0 ∙ p.0, q.1 ∙ p.1, q.2 ∙ p.2) };

    ghost mode = { λ t. t.mode };

    ghost taken = { λ t. t.taken };

    ghost floor = { λ t. t.floor };

    ghost faults = { λ t. t.refusals };

    ghost got_none = { λ t. took_none _ };

    ghost taken_is = { λ s t l is. is.counted };

    ghost floor_is = { λ s t l is. is.moved };

    #[inline(always)]
    fn take(&mut self, event: &Event, late: bool) -> Result<(), Failed> {
        self.taken += 1;
        self.floor = moved_floor(self.mode, self.floor, event, late);
        let wanted = is_wanted(self.gates, self.group, event, late);
        if !wanted {
            return Ok(());
        }
        if self.fault.is_some() {
            self.refusals = self.refusals.saturating_add(1);
            return Err(Failed);
        }
        match self.picker.put(event, &mut self.block, self.out) {
            Ok(()) => Ok(()),
            Err(fault) => {
                self.fault = Some(fault);
                self.refusals = self.refusals.saturating_add(1);
                Err(Failed)
            }
        }
    }

    fn take_block(&mut self, block: &mut Block<TABLE_BLOCK>) -> Result<(), Failed> {
        if block.len() == 0 {
            return Ok(());
        }
        if self.fault.is_some() {
            self.refusals = self.refusals.saturating_add(1);
            return Err(Failed);
        }
        self.taken += block.len() as u64;
        self.floor = block.floor_after(orders_markers(self.mode), self.floor);
        // All places first, and then the photons: so no branch depends on the group.
        let mut places = [0; TABLE_BLOCK];
        let many = choose(self.gates, self.group, block, &mut places);
        let given = give_photons(block, &places, many, self.picker, &mut self.block, self.out);
        if let Err(fault) = given {
            self.fault = Some(fault);
            self.refusals = self.refusals.saturating_add(1);
            return Err(Failed);
        }
        Ok(())
    }
}
