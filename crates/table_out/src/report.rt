// The report of a run.
ghost use Rattle.std.specs.Prelude.{◌≡◌, ◌+◌, ◌≤◌, true, List, count_by, OnOk, OnErr, IfErr};
ghost use Rattle.{bench_io.specs.Sinks.{CountsFault, Wrote, WroteShort}, tally_engine.specs.Parts.{settings_in, AllClosed}, table_out.specs.Report.{Table, EachHolds, printed, same_kind, part_text}};
ghost use Rattle.table_out.specs.Report.{parts_text, report_of, PutsText, CutsText, Puts, WritesReport};

use crate::cells::{Prints, put_table};
use crate::report_head::report_head;
use bench_io::{OutBuffer, Sink};
use tally_base::{Failed, Fault, Tally};
use tally_engine::{Part, Results, in_part};

/// The name of a table's kind.
fn word(part: &Part) -> &'static str
    ensures { result.now ≡ (printed (⟦<Part as Tally>⟧.settings part.now)).word }
{
    in_part!(part, table => table.word())
}

/// Whether two tables are of one kind.
fn same_kind(part: &Part, other: &Part) -> bool
    ensures { result ≡ same_kind (⟦<Part as Tally>⟧.settings part.now) (⟦<Part as Tally>⟧.settings other.now) }
{
    word(part) == word(other)
}

/// The place of a table among those of its kind, from 1. `before` has all tables before it.
fn number_of(before: &[Part], part: &Part) -> u64
    ensures { result ≡ count_by (same_kind (⟦<Part as Tally>⟧.settings part.now)) (settings_in before.now) + 1 }
{
    let mut number = 1;
    for other in before {
        if same_kind(part, other) {
            number += 1;
        }
    }
    number
}

/// Puts the lines of a table.
fn put_part<O: Sink>(
    number: u64,
    part: &Part,
    block: &mut OutBuffer,
    out: &mut O,
) -> Result<(), Failed>
    requires closed { ⟦<Part as Tally>⟧.closed part.now ≡ true }
    ensures { Puts (⟦<Part as Tally>⟧.holds part.now) (part_text number (⟦<Part as Tally>⟧.settings part.now))
        (O.state out.old) (O.state out.new) block.old block.new result }
{
    in_part!(part, table => put_table(number, table, block, out))
}

/// Puts the lines of all tables.
fn put_parts<O: Sink>(parts: &[Part], block: &mut OutBuffer, out: &mut O) -> Result<(), Failed>
    requires closed { AllClosed parts.now }
    ensures { Puts (EachHolds parts.now) parts_text
        (O.state out.old) (O.state out.new) block.old block.new result }
{
    for (place, part) in parts.iter().enumerate() {
        let number = number_of(&parts[..place], part);
        put_part(number, part, block, out)?;
    }
    Ok(())
}

/// Writes the whole report through a block.
fn put_report<O: Sink>(results: &Results, out: &mut O) -> Result<(), Failed>
    requires closed { AllClosed results.now.parts.items }
    ensures { WritesReport results.now (O.state out.old) (O.state out.new) result }
{
    let mut block = OutBuffer::new();
    let head = report_head(&results.header, &results.summary);
    block.put(out, head.as_slice())?;
    put_parts(&results.parts, &mut block, out)?;
    block.flush(out)
}

/// Writes the report of a run: its head, and the settings and cells of each table. The tables of a kind
/// are numbered from 1, in their order. A cell that is 0 has no line.
///
/// Every table must be closed, since only then are its cells the counts. Tables need not stand for the
/// same events: each one's lines are those of its own.
///
/// Refuses with `WriteFault` where a write fails, and nothing else: then a beginning of the report that
/// is not all of it was written.
pub fn write_report<O: Sink>(results: &Results, out: &mut O) -> Result<(), Fault>
    requires closed { AllClosed results.now.parts.items }
    ensures text { OnOk result ((tables : List Table) → EachHolds results.now.parts.items tables
        → Wrote (O.state out.old) (O.state out.new)
        (report_of results.now tables)) }
    ensures short { OnErr result ((tables : List Table) → EachHolds results.now.parts.items tables
        → WroteShort (O.state out.old) (O.state out.new)
        (report_of results.now tables)) }
    ensures fault { IfErr result (λ fault. fault ≡ Fault.WriteFault) }
    ensures cause { CountsFault (O.state out.old) (O.state out.new) result }
{
    match put_report(results, out) {
        Ok(()) => Ok(()),
        Err(Failed) => Err(Fault::WriteFault),
    }
}
