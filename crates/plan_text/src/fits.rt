// Whether the parts of a plan suit a file's mode.
ghost use Rattle.std.specs.Prelude.{◌≡◌, IfErr, ◌≤◌, map, length};
ghost use Rattle.{tally_base.specs.Settings.{group_view, shift_view}, plan_text.specs.{Fits.{fits, groups_fit, shifts_fit, IsMisfit}, ReadPlan.plan_view}};

use crate::plan::Plan;
use tally_base::{Fault, Group, Mode, PartKind, ShiftSet};

impl Plan {
    /// Whether each part suits files of a mode. T2 has no dtimes and no sync periods, so it suits no
    /// gate, no shift, no histogram, no image and no cube. T3 suits no start-stop, no coincidence and no fold.
    /// `PlanMode` names the first part that does not suit: gates before shifts, these before histograms, these
    /// before images and these before cubes, start-stops before coincidences and these before folds, and of a
    /// kind the least number. For a gate it is its group's. A period by itself suits either mode.
    pub fn fits(&self, mode: Mode) -> Result<(), Fault>
        ensures answer { result ≡ fits mode (plan_view self.now) }
        ensures first { IfErr result (IsMisfit mode (plan_view self.now)) }
    {
        match self.suits(mode) {
            Ok(()) => Ok(()),
            Err(fault) => Err(fault),
        }
    }

    /// Goes through the parts in their order.
    #[tactic(auto, unfolding(crate::specs::Fits::fits))]
    fn suits(&self, mode: Mode) -> Result<(), Fault>
        ensures { result ≡ fits mode (plan_view self.now) }
    {
        suit_groups(self.groups.as_slice(), mode)?;
        suit_shifts(self.shifts.as_slice(), mode)?;
        self.tables_suit(mode)?;
        Ok(())
    }
}

/// No group has gates that the mode does not suit.
fn suit_groups(groups: &[Group], mode: Mode) -> Result<(), Fault>
    requires few { length groups.now ≤ 64 }
    ensures { result ≡ groups_fit mode (map group_view groups.now) }
{
    let mut index: u8 = 1;
    'groups: for group in groups {
        if mode == Mode::T2 && !group.gates.is_empty() {
            return Err(Fault::PlanMode {
                kind: PartKind::Gate,
                index,
                mode,
            });
        }
        index += 1;
    }
    Ok(())
}

/// There is no shift that the mode does not suit.
fn suit_shifts(sets: &[ShiftSet], mode: Mode) -> Result<(), Fault>
    ensures { result ≡ shifts_fit mode (map shift_view sets.now) }
{
    match mode {
        Mode::T2 if !sets.is_empty() => Err(Fault::PlanMode {
            kind: PartKind::Shift,
            index: 1,
            mode,
        }),
        _ => Ok(()),
    }
}
