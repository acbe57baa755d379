// What the end of a file writes of the photons of a group.
ghost use Rattle.std.specs.Prelude.{◌≡◌, ◌<◌, ◌≤◌, [], None};
ghost use Rattle.{record_stream.specs.{Standing.{how_of, given_by, greatest_of, refused_with}, Pieces.Begins}, photon_pick.specs.{Chosen.is_of_group, Texts.answer_by, Pieces.{IsNoFurther, PicksEnd}}};

use crate::taker::Picks;
use bench_io::{OutBuffer, Sink};
use gate_plan::Gates;
use record_stream::{RecordStream, Summary};
use record_write::Picker;
use tally_base::{Failed, Fault};

/// The answer of a stream at its end, with the fault that its taker met in place of its own.
fn answer_at_end(kept: Option<Fault>, finished: Result<Summary, Fault>) -> Result<(), Fault>
    ensures { result ≡ answer_by kept finished }
{
    match (kept, finished) {
        (Some(fault), _) => Err(fault),
        (None, Ok(_)) => Ok(()),
        (None, Err(fault)) => Err(fault),
    }
}

/// Ends a stream, and writes the words that the block holds.
fn end_picks<'g, 'p, 'o, O: Sink>(
    stream: RecordStream,
    picks: &mut Picks<'g, 'p, 'o, O>,
) -> Result<(), Fault>
    requires begins { Begins stream picks.old.mode picks.old.taken picks.old.floor picks.old.block }
    requires unrefused { picks.old.fault ≡ None }
    requires going { refused_with stream ≡ None }
    ensures writes { PicksEnd O.Sink (is_of_group picks.old.gates.now picks.old.group) stream
        picks.old.picker.now picks.old.out.now picks.new.out.now result }
    ensures same { (picks.new.out.ghost_name ≡ picks.old.out.ghost_name)
        × (picks.new.picker.ghost_name ≡ picks.old.picker.ghost_name) }
{
    let finished = stream.finish(picks);
    match picks.block.flush(picks.out) {
        Ok(()) => answer_at_end(picks.fault, finished),
        Err(Failed) => Err(Fault::WriteFault),
    }
}

/// Ends a stream that has refused nothing, and writes the photons of a group, 1 to 64, among the events that it kept
/// back. The picker has picked those before.
///
/// Refuses bytes that end within a record, and then writes nothing, and with `PickTime` the first of these photons that is too late to be
/// written; then those before it were written. Where a write fails it answers `WriteFault`.
pub fn pick_end<O: Sink>(
    stream: RecordStream,
    gates: &Gates,
    group: u8,
    mut picker: Picker,
    out: &mut O,
) -> Result<(), Fault>
    requires group { (0 < group) × (group ≤ 64) }
    requires behind { IsNoFurther stream picker }
    requires going { refused_with stream ≡ None }
    ensures writes { PicksEnd O.Sink (is_of_group gates.now group) stream picker out.old out.new result }
{
    let mode = picker.mode();
    let mut picks = Picks {
        gates,
        group,
        picker: &mut picker,
        out,
        block: OutBuffer::new(),
        fault: None,
        refusals: 0,
        mode,
        taken: stream.given(),
        floor: stream.greatest(),
    };
    end_picks(stream, &mut picks)
}
