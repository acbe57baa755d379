// The trace of a plan, written while the file is read.
ghost use Rattle.std.specs.Prelude.{◌≡◌, ◌<◌, ◌≤◌, ℕ, List, true, OnOk, None, Some};
ghost use Rattle.{tally_base.specs.Settings.trace_view, ptu_definitions.specs.Words.record_limit, plan_text.specs.ReadPlan.plan_view, record_stream.specs.Standing.{how_of, refused_with, HasStreamed}};
ghost use Rattle.{record_stream.specs.Pieces.{TakesOn, StaysOpen, Begins}, gate_plan.specs.Groups.sorting_of, long_trace.specs.LongTrace.{set_of, taken_of, floor_of, is_going}};
ghost use Rattle.{command_work.specs.RecordsWork.WritesEnd, trace_work.specs.{TraceOutcomes.trace_of, TracePieces.{CanEnd, IsBehindStream, FeedsTrace, TracesPiece, EndsLines, EndsTrace, both_ended}}};

use abs_time::{moved_floor, orders_markers};
use arrayvec::ArrayVec;
use bench_io::{OutBuffer, Sink};
use command_work::{Job, Reader};
use gate_plan::{Gates, sort_events};
use long_trace::{LINES_SIZE, LongTrace};
use plan_text::Plan;
use record_stream::{EventTaker, RecordStream, Summary};
use tally_base::{Block, Event, Failed, Fault, Header, Mode, TABLE_BLOCK, TraceSet};

/// Gives each event that isn't late to a trace, with its groups, and writes the lines of the bins that it closes,
/// through a block. It lives for one piece, or for the end.
#[derive(Drop)]
struct TraceLines<'g, 't, 'o, O: Sink> {
    gates: &'g Gates,
    trace: &'t mut LongTrace,
    out: &'o mut O,
    block: OutBuffer,
    // Room for the lines of a block of events.
    lines: ArrayVec<u8, LINES_SIZE>,
    mode: Mode,
    taken: u64,
    floor: u64,
    ghost few: { taken_of trace.now ≤ taken },
    ghost before: { floor_of trace.now ≤ floor },
    ghost going: { is_going trace.now ≡ true },
}

impl<'g, 't, 'o, O: Sink> EventTaker for TraceLines<'g, 't, 'o, O> {
    ghost use Rattle.std.{specs.Prelude.{refl}, proofs.Common.{◌∙◌}};
    ghost use Rattle.trace_work.specs.TraceOutcomes.{Traced, TracedShort, traced_none};

    ghost got = { λ s t l. Traced s.trace.now t.trace.now (sorting_of s.gates.now) (sorting_of t.gates.now)
        s.mode t.mode s.taken t.taken s.floor t.floor (O.state s.out.now) (O.state t.out.now) s.block t.block l };

    ghost broke = { λ s t l. TracedShort s.trace.now (sorting_of s.gates.now) (O.state s.out.now)
        (O.state t.out.now) s.block t.block l };

    ghost same = { λ s t. (t.out.ghost_name ≡ s.out.ghost_name)
        × (t.trace.ghost_name ≡ s.trace.ghost_name) × (set_of t.trace.now ≡ set_of s.trace.now) };

    ghost same_none = { λ t. (refl, refl, refl) };

    ghost same_more = { λ t u v p q. (q.0 ∙ p.0, q.1 ∙ p.1, q.2 ∙ p.2) };

    ghost mode = { λ t. t.mode };

    ghost taken = { λ t. t.taken };

    ghost floor = { λ t. t.floor };

    ghost faults = { λ t. (O.state t.out.now).faults };

    ghost got_none = { λ t. traced_none _ _ _ _ _ _ _ };

    ghost taken_is = { λ s t l is. is.counted };

    ghost floor_is = { λ s t l is. is.moved };

    fn take(&mut self, event: &Event, late: bool) -> Result<(), Failed> {
        self.taken += 1;
        self.floor = moved_floor(self.mode, self.floor, event, late);
        if late {
            return Ok(());
        }
        let line = self
            .trace
            .take(&self.gates.shifted(event), self.gates.groups(event));
        self.block.put(self.out, line.as_slice())?;
        Ok(())
    }

    fn take_block(&mut self, block: &mut Block<TABLE_BLOCK>) -> Result<(), Failed> {
        if block.len() == 0 {
            return Ok(());
        }
        self.taken += block.len() as u64;
        self.floor = block.floor_after(orders_markers(self.mode), self.floor);
        sort_events(self.gates, block);
        self.trace.take_block(block, &mut self.lines);
        self.block.put(self.out, self.lines.as_slice())?;
        Ok(())
    }
}

/// Feeds a piece, and writes the lines that the block holds.
fn feed_lines<'g, 't, 'o, O: Sink>(
    stream: &mut RecordStream,
    piece: &[u8],
    lines: &mut TraceLines<'g, 't, 'o, O>,
) -> Result<(), Fault>
    requires begins { Begins stream.old lines.old.mode lines.old.taken lines.old.floor
        lines.old.block }
    ensures fed { TakesOn stream.old stream.new piece.now }
    ensures writes { TracesPiece O.Sink (sorting_of lines.old.gates.now) stream.old
        lines.old.trace.now lines.new.trace.now piece.now lines.old.out.now lines.new.out.now result }
    ensures going { OnOk result (StaysOpen stream.old stream.new piece.now) }
    ensures behind { OnOk result (IsBehindStream stream.new lines.new.trace.now) }
    ensures set { set_of lines.new.trace.now ≡ set_of lines.old.trace.now }
    ensures same { (lines.new.out.ghost_name ≡ lines.old.out.ghost_name)
        × (lines.new.trace.ghost_name ≡ lines.old.trace.ghost_name) }
{
    let fed = stream.feed(piece, lines);
    match lines.block.flush(lines.out) {
        Ok(()) => fed,
        Err(Failed) => Err(Fault::WriteFault),
    }
}

/// Writes the lines of the bins that the events of a piece close.
fn trace_piece<O: Sink>(
    stream: &mut RecordStream,
    mode: Mode,
    gates: &Gates,
    trace: &mut LongTrace,
    piece: &[u8],
    out: &mut O,
) -> Result<(), Fault>
    requires mode { mode ≡ (how_of stream.old).mode }
    requires behind { IsBehindStream stream.old trace.old }
    ensures { FeedsTrace O.Sink (sorting_of gates.now) stream.old stream.new trace.old trace.new
        piece.now out.old out.new result }
{
    let mut lines = TraceLines {
        gates,
        trace,
        out,
        block: OutBuffer::new(),
        lines: ArrayVec::new(),
        mode,
        taken: stream.given(),
        floor: stream.greatest(),
    };
    feed_lines(stream, piece, &mut lines)
}

/// Gives a trace the events that a stream keeps back, and writes the lines that the block holds. Refuses bytes that
/// end within a record, and then writes nothing.
fn end_lines<'g, 't, 'o, O: Sink>(
    stream: RecordStream,
    lines: &mut TraceLines<'g, 't, 'o, O>,
) -> Result<(), Fault>
    requires begins { Begins stream lines.old.mode lines.old.taken lines.old.floor lines.old.block }
    requires going { refused_with stream ≡ None }
    ensures writes { EndsLines O.Sink (sorting_of lines.old.gates.now) stream
        lines.old.trace.now lines.new.trace.now lines.old.out.now lines.new.out.now result }
    ensures going { is_going lines.new.trace.now ≡ true }
    ensures set { set_of lines.new.trace.now ≡ set_of lines.old.trace.now }
    ensures same { (lines.new.out.ghost_name ≡ lines.old.out.ghost_name)
        × (lines.new.trace.ghost_name ≡ lines.old.trace.ghost_name) }
{
    let finished = stream.finish(lines);
    let flushed = lines.block.flush(lines.out);
    both(finished, flushed)
}

/// What ends a stream whose last lines are flushed.
fn both(finished: Result<Summary, Fault>, flushed: Result<(), Failed>) -> Result<(), Fault>
    ensures { result ≡ both_ended finished flushed }
{
    match flushed {
        Err(Failed) => Err(Fault::WriteFault),
        Ok(()) => match finished {
            Err(fault) => Err(fault),
            Ok(_) => Ok(()),
        },
    }
}

/// Gives a trace the events that a stream keeps back, and writes all that is after the lines so far. Refuses bytes
/// that end within a record, and then writes nothing.
fn end_trace<O: Sink>(
    stream: RecordStream,
    mode: Mode,
    gates: &Gates,
    mut trace: LongTrace,
    out: &mut O,
) -> Result<(), Fault>
    requires { CanEnd stream mode trace }
    ensures { EndsTrace O.Sink (sorting_of gates.now) stream trace out.old out.new result }
{
    last_lines(stream, mode, gates, &mut trace, out)?;
    trace.finish(out)
}

/// Gives a trace the events that a stream keeps back, and writes the lines of the bins that they close.
fn last_lines<O: Sink>(
    stream: RecordStream,
    mode: Mode,
    gates: &Gates,
    trace: &mut LongTrace,
    out: &mut O,
) -> Result<(), Fault>
    requires { CanEnd stream mode trace.old }
    ensures writes { EndsLines O.Sink (sorting_of gates.now) stream
        trace.old trace.new out.old out.new result }
    ensures going { is_going trace.new ≡ true }
    ensures set { set_of trace.new ≡ set_of trace.old }
{
    let mut lines = TraceLines {
        gates,
        trace,
        out,
        block: OutBuffer::new(),
        lines: ArrayVec::new(),
        mode,
        taken: stream.given(),
        floor: stream.greatest(),
    };
    end_lines(stream, &mut lines)
}

/// Writes a trace while the data are read.
#[derive(Drop)]
pub(crate) struct TraceReader {
    stream: RecordStream,
    mode: Mode,
    gates: Gates,
    trace: LongTrace,
    ghost same_mode: { mode ≡ (how_of stream).mode },
}

impl Reader for TraceReader {
    ghost use Rattle.std.specs.Prelude.{◌+◌, ◌*◌, ◌-◌};
    ghost use Rattle.record_stream.specs.Standing.{bytes_in};
    ghost use Rattle.trace_work.{specs.TraceOutcomes.traces, specs.TracePieces.HasTraced, specs.TraceLaws.{traces-law, traced-clear}};

    ghost tells = { λ r. traces (trace_view (set_of r.trace)) (sorting_of r.gates) (how_of r.stream) };

    ghost stands = { λ r bytes. HasTraced (sorting_of r.gates) r.stream r.trace bytes };

    ghost room = { λ r. 4 * record_limit + 3 - bytes_in r.stream };

    fn piece<O: Sink>(&mut self, piece: &[u8], out: &mut O) -> Result<(), Fault> {
        trace_piece(
            &mut self.stream,
            self.mode,
            &self.gates,
            &mut self.trace,
            piece,
            out,
        )
    }

    fn end<O: Sink>(self, out: &mut O) -> Result<(), Fault> {
        end_trace(self.stream, self.mode, &self.gates, self.trace, out)
    }

    ghost law = { λ r. traces-law (set_of r.trace) (sorting_of r.gates) (how_of r.stream) };

    ghost clear = { λ r bytes h. traced-clear (sorting_of r.gates) r.stream r.trace bytes h };
}

/// The work on a plan's first trace.
#[derive(Drop)]
pub(crate) struct TraceJob<'p> {
    pub plan: &'p Plan,
    pub set: TraceSet,
    ghost records: { (0 < plan.now.policy.records) × (plan.now.policy.records ≤ record_limit) },
    ghost traced: { trace_of (plan_view plan.now) ≡ Some (trace_view set) },
}

impl<'p> Job for TraceJob<'p> {
    ghost use Rattle.command_work.{specs.Behaviours.AsItReads, specs.Works.WantsNone};
    ghost use Rattle.trace_work.{specs.TraceOutcomes.{traces_by, trace_so_far, tracing}, specs.TraceLaws.tracing-suits};

    type Reader = TraceReader;

    ghost work = { λ job. tracing (plan_view job.plan.now) };

    ghost writing = { λ job. AsItReads (trace_so_far (plan_view job.plan.now)) };

    ghost wanting = { λ job. WantsNone };

    ghost tells = { λ job header. traces_by (Some (trace_view job.set)) (plan_view job.plan.now) header };

    ghost wants = { λ job header. ⊥ };

    fn open<O: Sink>(&self, header: &Header, out: &mut O) -> Result<TraceReader, Fault> {
        let mode = header.record_type.mode();
        self.plan.fits(mode)?;
        let gates = Gates::of(self.plan);
        let stream = RecordStream::new(header.record_type, self.plan.policy);
        let mut trace = LongTrace::new(&self.set);
        trace.start(out)?;
        Ok(TraceReader {
            stream,
            mode,
            gates,
            trace,
        })
    }

    ghost law = { λ job. tracing-suits job.set (plan_view job.plan.now) job.traced };
}
