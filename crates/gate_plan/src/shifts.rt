// The shifts of dtimes by input.
ghost use Rattle.std.specs.Prelude.{◌≡◌, ◌<◌, ◌≤◌, ℕ, map, None, slice_index_or, IfSome};
ghost use Rattle.{tally_base.specs.Settings.shift_view, gate_plan.specs.Shifting.{shift_of, shifted_by}};

use tally_base::ShiftSet;

/// For each input its shift, if it has one.
pub(crate) fn shift_table(shifts: &[ShiftSet]) -> [Option<u16>; 256]
    ensures { (input : ℕ) → input < 256 → slice_index_or result input None ≡ shift_of (map shift_view shifts.now) input }
{
    let mut table = [None; 256];
    for input in 0..256u16 {
        table[input as usize] = shift_of(shifts, input as u8);
    }
    table
}

/// The shift of an input, the first where there are several.
fn shift_of(shifts: &[ShiftSet], input: u8) -> Option<u16>
    ensures { result ≡ shift_of (map shift_view shifts.now) input }
{
    'shifts: for set in shifts {
        if set.input == input {
            return Some(set.shift);
        }
    }
    None
}

/// The dtime after a shift, modulo a period, and the dtime itself where there is no shift.
#[inline(always)]
pub(crate) fn shifted_by(period: u32, shift: Option<u16>, dtime: u16) -> u16
    requires { (0 < period) × (period ≤ 32768) }
    ensures { result ≡ shifted_by period shift dtime }
{
    match shift {
        Some(shift) => ((u32::from(dtime) + u32::from(shift)) % period) as u16,
        None => dtime,
    }
}
