// A trace without end.
ghost use Rattle.std.specs.Prelude.{◌≡◌, ◌+◌, ◌*◌, ◌<◌, ◌≤◌, ◌&&◌, if◌then◌else◌, OnOk, OnErr, slice_index, ◌++◌, ◌∷◌, [], true, false, is_ok, length};
ghost use Rattle.{bench_io.specs.{Sinks.{Wrote, WroteShort}, Texts.{WroteText, CutText}}, tally_base.specs.{Events.{is_photon, is_in}, Columns.{gathered, events_in}, Tally.{floor_after, History}}};
ghost use Rattle.{tally_base.specs.Settings.trace_view, long_trace.specs.States.IsUpTo};

use crate::closed::Closed;
use crate::counting::{Counting, OpenBin, closed_with};
use crate::ending::{end_lines, write_or_refuse};
use crate::lines::{LINE_SIZE, LINES_SIZE, first_line};
use arrayvec::ArrayVec;
use bench_io::Sink;
use count_trace::Bin;
use tally_base::{Block, Event, Fault, TABLE_BLOCK, TraceSet, floor_behind, is_in};

/// Counts the photons of a group by their times, in bins without end, in ticks in T2 and sync periods in T3.
///
/// Bin b counts the times from `origin + b * width` on and below `origin + (b + 1) * width`. A bin that isn't
/// empty has a line once a photon comes in a later one, and the last such bin at the end. Then it is printed how
/// many photons came before the origin, and for each count below 1,024 how many bins have it, of those up to
/// the last that isn't empty; those of a greater count are counted in one number. How much it keeps doesn't
/// depend on the file. `start` is called first and once, and nothing after a refused call.
///
/// The lists and arrays that it keeps: the frequencies of `closed`.
#[derive(Drop)]
pub struct LongTrace {
    counting: Counting,
    closed: Closed,
    taken: u64,
    floor: u64,
    // Whether `start` was called, and whether it answered Ok and no call was refused.
    begun: bool,
    going: bool,
    ghost stands: { IsUpTo counting closed floor },
    ghost few: { counting.before + counting.newest.count ≤ taken },
    // A closed bin that isn't empty took an event.
    ghost filled: { counting.newest.count + counting.newest.bin.index ≤ taken + slice_index closed.frequencies 0 },
}

impl LongTrace {
    ghost use Rattle.long_trace.specs.{Texts.{first_line, whole_text}, LongTrace.{Holds, GivenMore, GoesOn, CanTake, CanTakeBlock, RefusesWrite, Starts, set_of, taken_of, floor_of, was_begun}};
    ghost use Rattle.long_trace.specs.LongTrace.{is_going, printed_by};

    /// A trace of no events. It doesn't look at the number of bins.
    pub fn new(set: &TraceSet) -> LongTrace
        ensures set { set_of result ≡ set.now }
        ensures empty { Holds result [] }
        ensures none { (taken_of result ≡ 0) × (floor_of result ≡ 0) }
        ensures fresh { was_begun result ≡ false }
    {
        let bin = Bin {
            index: 0,
            low: set.origin,
        };
        LongTrace {
            counting: Counting {
                set: *set,
                before: 0,
                newest: OpenBin { bin, count: 0 },
            },
            closed: Closed::new(),
            taken: 0,
            floor: 0,
            begun: false,
            going: false,
        }
    }

    /// Writes the first line. Refuses with `WriteFault` where a write fails: then a beginning of the line that
    /// isn't all of it was written.
    #[tactic(auto, using(std::proofs::lemmas::Result::on_err_weaker))]
    pub fn start<O: Sink>(&mut self, out: &mut O) -> Result<(), Fault>
        requires first { was_begun self.old ≡ false }
        ensures text { OnOk result (Wrote (O.state out.old) (O.state out.new) (first_line (trace_view (set_of self.old)))) }
        ensures short { OnErr result (WroteShort (O.state out.old) (O.state out.new)
            (first_line (trace_view (set_of self.old)))) }
        ensures refuses { RefusesWrite (O.state out.old) (O.state out.new) result }
        ensures starts { Starts self.old self.new result }
    {
        self.begun = true;
        let written = write_or_refuse(out, first_line(&self.counting.set).as_slice());
        self.going = written.is_ok();
        written
    }

    /// Takes an event, and answers the line of the bin that it closes, if any. Bit g - 1 of `groups` says that
    /// it is in group g. Fewer than 2^40 events came before it, and a photon doesn't come at a smaller time than one
    /// before it.
    #[inline(always)]
    pub fn take(&mut self, e: &Event, groups: u64) -> ArrayVec<u8, LINE_SIZE>
        requires can { CanTake self.old e.now }
        ensures given { GivenMore self.old self.new ((e.now, groups) ∷ []) result.items }
        ensures one_more { taken_of self.new ≡ taken_of self.old + 1 }
        ensures moved { floor_of self.new ≡ (if is_photon e.now then e.now.time else floor_of self.old) }
    {
        let mut line = ArrayVec::new();
        let more = photons_in(e, groups, self.counting.set.group);
        self.counting
            .count_at(&mut self.closed, e.time, more, &mut line);
        self.taken += 1;
        self.floor = floor_behind(self.floor, e);
        line
    }

    /// Takes the events of a block, as `take` does one by one, and puts the lines of the bins that they close
    /// into a buffer, in place of its own.
    pub fn take_block(&mut self, block: &Block<TABLE_BLOCK>, lines: &mut ArrayVec<u8, LINES_SIZE>)
        requires can { CanTakeBlock self.old block.now }
        ensures given { GivenMore self.old self.new (events_in block.now) lines.new.items }
        ensures more { taken_of self.new ≡ taken_of self.old + length (gathered block.now) }
        ensures moved { floor_of self.new ≡ floor_after false (floor_of self.old) (gathered block.now) }
    {
        self.taken += block.len() as u64;
        self.floor = self
            .counting
            .count_block(&mut self.closed, self.floor, block, lines);
    }

    /// Takes an event as `take` does, and writes the line of the bin that it closes. After `start` and such
    /// calls the first line and the lines of all bins are written but for the last that isn't empty.
    ///
    /// Refuses with `WriteFault` where a write fails: then a beginning of the line that isn't all of it was
    /// written.
    #[tactic(auto, using(std::proofs::lemmas::Result::on_ok_weaker, std::proofs::lemmas::Result::on_err_weaker))]
    pub fn event<O: Sink>(&mut self, e: &Event, groups: u64, out: &mut O) -> Result<(), Fault>
        requires can { CanTake self.old e.now }
        ensures text { (h : History) → Holds self.old h → OnOk result (WroteText (printed_by self.old h)
            (printed_by self.old (h ++ (e.now, groups) ∷ [])) (O.state out.old) (O.state out.new)) }
        ensures short { (h : History) → Holds self.old h → OnErr result (CutText (printed_by self.old h)
            (printed_by self.old (h ++ (e.now, groups) ∷ [])) (O.state out.old) (O.state out.new)) }
        ensures refuses { RefusesWrite (O.state out.old) (O.state out.new) result }
        ensures follows { GoesOn self.old self.new e.now groups result }
    {
        let line = self.take(e, groups);
        let written = write_or_refuse(out, line.as_slice());
        self.going = written.is_ok();
        written
    }

    /// Writes what is after the lines of the bins that are closed: that of the last bin, how many photons came
    /// before the origin, and how often each count came.
    ///
    /// Refuses with `WriteFault` where a write fails: then a beginning of this that isn't all of it was
    /// written.
    pub fn finish<O: Sink>(self, out: &mut O) -> Result<(), Fault>
        requires going { is_going self ≡ true }
        ensures text { (h : History) → Holds self h → OnOk result (WroteText (printed_by self h)
            (whole_text (trace_view (set_of self)) h) (O.state out.old) (O.state out.new)) }
        ensures short { (h : History) → Holds self h → OnErr result (CutText (printed_by self h)
            (whole_text (trace_view (set_of self)) h) (O.state out.old) (O.state out.new)) }
        ensures refuses { RefusesWrite (O.state out.old) (O.state out.new) result }
    {
        let closed = closed_with(&self.counting.newest, self.closed);
        write_or_refuse(out, end_lines(&self.counting, &closed).as_slice())
    }
}

/// 1 where the event is a photon of the group, 1 to 64, else 0.
#[inline(always)]
fn photons_in(e: &Event, groups: u64, group: u8) -> u64
    requires { (0 < group) × (group ≤ 64) }
    ensures { result ≡ (if is_photon e.now && is_in groups group then 1 else 0) }
{
    u64::from(e.is_photon() && is_in(groups, group))
}
