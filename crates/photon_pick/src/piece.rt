// What a piece of a file writes of the photons of a group.
ghost use Rattle.std.specs.Prelude.{◌≡◌, ◌<◌, ◌≤◌, None, OnOk};
ghost use Rattle.{record_stream.specs.{Standing.refused_with, Pieces.{TakesOn, Begins}}, record_write.specs.Picker.mode_of, photon_pick.specs.{Chosen.is_of_group, Texts.answer_by, Pieces.GoesOn}};
ghost use Rattle.photon_pick.specs.Pieces.{IsNoFurther, PicksPiece};

use crate::taker::Picks;
use bench_io::{OutBuffer, Sink};
use gate_plan::Gates;
use record_stream::RecordStream;
use record_write::Picker;
use tally_base::{Failed, Fault};

/// The answer of a stream, with the fault that its taker met in place of its own.
fn answer(kept: Option<Fault>, fed: Result<(), Fault>) -> Result<(), Fault>
    ensures { result ≡ answer_by kept fed }
{
    match kept {
        Some(fault) => Err(fault),
        None => fed,
    }
}

/// Feeds a piece, and writes the words that the block holds.
fn feed_picks<'g, 'p, 'o, O: Sink>(
    stream: &mut RecordStream,
    piece: &[u8],
    picks: &mut Picks<'g, 'p, 'o, O>,
) -> Result<(), Fault>
    requires begins { Begins stream.old picks.old.mode picks.old.taken picks.old.floor picks.old.block }
    requires unrefused { picks.old.fault ≡ None }
    requires going { refused_with stream.old ≡ None }
    ensures fed { TakesOn stream.old stream.new piece.now }
    ensures writes { PicksPiece O.Sink
        (is_of_group picks.old.gates.now picks.old.group) stream.old piece.now
        picks.old.picker.now picks.new.picker.now picks.old.out.now picks.new.out.now result }
    ensures goes_on { OnOk result (GoesOn stream.old stream.new picks.new.picker.now piece.now) }
    ensures same_mode { mode_of picks.new.picker.now ≡ mode_of picks.old.picker.now }
    ensures same { (picks.new.out.ghost_name ≡ picks.old.out.ghost_name)
        × (picks.new.picker.ghost_name ≡ picks.old.picker.ghost_name) }
{
    let fed = stream.feed(piece, picks);
    match picks.block.flush(picks.out) {
        Ok(()) => answer(picks.fault, fed),
        Err(Failed) => Err(Fault::WriteFault),
    }
}

/// Gives a piece to a stream that has refused nothing, and writes the photons of a group, 1 to 64, that the stream
/// gives and that aren't late. The picker has written its header, and has picked those before.
///
/// Refuses what the stream refuses, and with `PickTime` the first of these photons that is too late to be written; then those before
/// it were written. Where a write fails it answers `WriteFault`.
pub fn pick_piece<O: Sink>(
    stream: &mut RecordStream,
    gates: &Gates,
    group: u8,
    picker: &mut Picker,
    piece: &[u8],
    out: &mut O,
) -> Result<(), Fault>
    requires group { (0 < group) × (group ≤ 64) }
    requires behind { IsNoFurther stream.old picker.old }
    requires going { refused_with stream.old ≡ None }
    ensures fed { TakesOn stream.old stream.new piece.now }
    ensures writes { PicksPiece O.Sink (is_of_group gates.now group) stream.old piece.now
        picker.old picker.new out.old out.new result }
    ensures goes_on { OnOk result (GoesOn stream.old stream.new picker.new piece.now) }
    ensures same_mode { mode_of picker.new ≡ mode_of picker.old }
{
    let mode = picker.mode();
    let mut picks = Picks {
        gates,
        group,
        picker,
        out,
        block: OutBuffer::new(),
        fault: None,
        refusals: 0,
        mode,
        taken: stream.given(),
        floor: stream.greatest(),
    };
    feed_picks(stream, piece, &mut picks)
}
