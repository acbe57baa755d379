// Photons of a block, given to a picker.
ghost use Rattle.std.specs.Prelude.{◌≡◌, ◌≤◌, true, OnOk, IfErr};
ghost use Rattle.{tally_base.specs.{Columns.gathered, Tally.floor_after}, record_write.specs.Picker.{mode_of, last_by, is_going}, photon_pick.specs.Giving.{events_at, pen_on, ArePlaces, CanBeGiven}};
ghost use Rattle.photon_pick.specs.Giving.{Gave, Stopped};

use bench_io::{OutBuffer, Sink};
use record_write::Picker;
use tally_base::{Block, Fault, TABLE_BLOCK};

/// Gives the photons at the first so many of these places of a block to a picker, until it refuses one.
pub(crate) fn give_photons<O: Sink>(
    events: &Block<TABLE_BLOCK>,
    places: &[u16; TABLE_BLOCK],
    many: usize,
    picker: &mut Picker,
    block: &mut OutBuffer,
    out: &mut O,
) -> Result<(), Fault>
    requires places { ArePlaces events.now places.now many }
    requires can { CanBeGiven picker.old (events_at events.now places.now many) }
    ensures gave { OnOk result (Gave
        (pen_on O.Sink picker.old out.old block.old) (pen_on O.Sink picker.new out.new block.new)
        (events_at events.now places.now many)) }
    ensures stopped { IfErr result (Stopped
        (pen_on O.Sink picker.old out.old block.old) (pen_on O.Sink picker.new out.new block.new)
        (events_at events.now places.now many)) }
    ensures goes_on { OnOk result ((is_going picker.new ≡ true)
        × (last_by picker.new ≡ floor_after true (last_by picker.old) (events_at events.now places.now many))) }
    ensures same_mode { mode_of picker.new ≡ mode_of picker.old }
    ensures last { last_by picker.new ≤ floor_after true (last_by picker.old) (events_at events.now places.now many) }
{
    for k in 0..many {
        picker.put(&events.event(places[k] as usize), block, out)?;
    }
    Ok(())
}
