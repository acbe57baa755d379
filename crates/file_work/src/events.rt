// The lines of the events of a file, written while it is read.
ghost use Rattle.std.specs.Prelude.{◌≡◌, List, ℕ, OnOk, false, IfErr};
ghost use Rattle.{tally_base.specs.Faults.is_outside, ptu_definitions.specs.Streams.streamed, record_stream.specs.{Standing.{how_of, HasStreamed}, Pieces.{TakesOn, StaysOpen}}};
ghost use Rattle.file_work.specs.EventLines.{ListsNone, IsOpenIn, ListsPiece};

use abs_time::{moved_floor, orders_markers};
use bench_io::{OutBuffer, Sink};
use command_work::{Job, Reader};
use list_out::{LINE_SIZE, LINES, LINES_SIZE, format_block, format_event};
use record_stream::{EventTaker, RecordStream, Summary};
use tally_base::{
    Block, Event, Failed, Fault, Header, Mode, OnReserved, Order, Policy, RECORD_LIMIT, TABLE_BLOCK,
};

/// How the records are read that are listed: late events are marked, and reserved records are left
/// out.
const LISTING: Policy = Policy {
    order: Order::Drop,
    reserved: OnReserved::Skip,
    records: RECORD_LIMIT,
    settle: 0,
};

/// Writes the line of each event that it is given, through a block. It lives for one piece, or for the end.
#[derive(Drop)]
struct EventLines<'o, O: Sink> {
    out: &'o mut O,
    block: OutBuffer,
    // Room for the lines of some events of a block.
    text: [u8; LINES_SIZE],
    mode: Mode,
    taken: u64,
    floor: u64,
}

impl<'o, O: Sink> EventTaker for EventLines<'o, O> {
    ghost use Rattle.file_work.specs.EventLines.{Listed, ListedShort, listed_none};
    ghost use Rattle.std.{specs.Prelude.{refl, true}, proofs.Common.{◌∙◌}};

    ghost got = { λ s t l. Listed s.out.ghost_name t.out.ghost_name s.mode t.mode s.taken t.taken
        s.floor t.floor (O.state s.out.now) (O.state t.out.now) s.block t.block l };

    ghost broke = { λ s t l. ListedShort (O.state s.out.now) (O.state t.out.now)
        s.block t.block l };

    ghost same = { λ s t. t.out.ghost_name ≡ s.out.ghost_name };

    ghost same_none = { λ t. refl };

    ghost same_more = { λ t u v p q. q ∙ p };

    ghost mode = { λ t. t.mode };

    ghost taken = { λ t. t.taken };

    ghost floor = { λ t. t.floor };

    ghost faults = { λ t. (O.state t.out.now).faults };

    ghost got_none = { λ t. listed_none _ _ _ _ _ _ };

    ghost taken_is = { λ s t l is. is.counted };

    ghost floor_is = { λ s t l is. is.moved };

    #[inline(always)]
    fn take(&mut self, event: &Event, late: bool) -> Result<(), Failed> {
        let mut line = [0; LINE_SIZE];
        let text = format_event(event, late, &mut line);
        self.block.put(self.out, text)?;
        self.taken += 1;
        self.floor = moved_floor(self.mode, self.floor, event, late);
        Ok(())
    }

    fn take_block(&mut self, block: &mut Block<TABLE_BLOCK>) -> Result<(), Failed> {
        let mut from = 0;
        'parts: while from < block.len() {
            let lines = format_block(block, from, &mut self.text);
            self.block.put(self.out, lines)?;
            from += LINES;
        }
        self.taken += block.len() as u64;
        self.floor = block.floor_after(orders_markers(self.mode), self.floor);
        Ok(())
    }
}

/// Feeds a piece, and writes the lines that the block holds.
fn feed_lines<'o, O: Sink>(
    stream: &mut RecordStream,
    piece: &[u8],
    lines: &mut EventLines<'o, O>,
) -> Result<(), Fault>
    requires mode { lines.old.mode ≡ (how_of stream.old).mode }
    requires none { ListsNone lines.old.taken lines.old.floor lines.old.block }
    ensures fed { TakesOn stream.old stream.new piece.now }
    ensures writes { ListsPiece O.Sink stream.old piece.now lines.old.out.now lines.new.out.now
        result }
    ensures going { OnOk result (StaysOpen stream.old stream.new piece.now) }
    ensures same { lines.new.out.ghost_name ≡ lines.old.out.ghost_name }
{
    let fed = stream.feed(piece, lines);
    match lines.block.flush(lines.out) {
        Ok(()) => fed,
        Err(Failed) => Err(Fault::WriteFault),
    }
}

/// Ends a stream that keeps no event back: there is no line more to write.
fn end_lines<O: Sink>(stream: RecordStream, mode: Mode, out: &mut O) -> Result<Summary, Fault>
    requires open_in { IsOpenIn mode stream }
    ensures answer { (bytes : List ℕ) → HasStreamed stream bytes
        → result ≡ streamed (how_of stream) bytes }
    ensures inside { IfErr result (λ fault. is_outside fault ≡ false) }
    ensures untouched { out.new ≡ out.old }
{
    let mut lines = EventLines {
        out,
        block: OutBuffer::new(),
        text: [0; LINES_SIZE],
        mode,
        taken: 0,
        floor: 0,
    };
    stream.finish(&mut lines)
}

/// Writes the lines of events while the data are read.
#[derive(Drop)]
pub struct EventReader {
    stream: RecordStream,
    mode: Mode,
    ghost same_mode: { mode ≡ (how_of stream).mode },
    ghost unsettled: { (how_of stream).policy.settle ≡ 0 },
}

impl Reader for EventReader {
    ghost use Rattle.std.specs.Prelude.{◌+◌, ◌*◌, ◌-◌};
    ghost use Rattle.ptu_definitions.specs.Words.{record_limit};
    ghost use Rattle.record_stream.specs.Standing.{bytes_in};
    ghost use Rattle.file_work.{specs.FileOutcomes.lists, specs.EventLines.HasListed, specs.EventLaws.{lists-law, listed-clear}};

    ghost tells = { λ r. lists (how_of r.stream) };

    ghost stands = { λ r bytes. HasListed r.stream bytes };

    ghost room = { λ r. 4 * record_limit + 3 - bytes_in r.stream };

    fn piece<O: Sink>(&mut self, piece: &[u8], out: &mut O) -> Result<(), Fault> {
        let mut lines = EventLines {
            out,
            block: OutBuffer::new(),
            text: [0; LINES_SIZE],
            mode: self.mode,
            taken: 0,
            floor: 0,
        };
        feed_lines(&mut self.stream, piece, &mut lines)
    }

    fn end<O: Sink>(self, out: &mut O) -> Result<(), Fault> {
        end_lines(self.stream, self.mode, out)?;
        Ok(())
    }

    ghost law = { λ r. lists-law (how_of r.stream) };

    ghost clear = { λ r bytes h. listed-clear r.stream bytes h };
}

/// Lists the events of a file while it is read.
#[derive(Clone, Copy)]
pub struct Listing;

impl Job for Listing {
    ghost use Rattle.command_work.{specs.Behaviours.AsItReads, specs.Works.WantsNone};
    ghost use Rattle.file_work.{specs.FileOutcomes.{events_so_far, lists_by, listing_all}, specs.EventLaws.listing-suits};

    type Reader = EventReader;

    ghost work = { λ job. listing_all };

    ghost writing = { λ job. AsItReads events_so_far };

    ghost wanting = { λ job. WantsNone };

    ghost tells = { λ job header. lists_by header };

    ghost wants = { λ job header. ⊥ };

    fn open<O: Sink>(&self, header: &Header, _out: &mut O) -> Result<EventReader, Fault> {
        let stream = RecordStream::new(header.record_type, LISTING);
        let mode = header.record_type.mode();
        Ok(EventReader { stream, mode })
    }

    ghost law = { λ job. listing-suits };
}
