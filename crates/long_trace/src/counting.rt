// The photons of a trace, counted by their times.
ghost use Rattle.std.specs.Prelude.{◌≡◌, ℕ, ◌+◌, ◌*◌, ◌^◌, ◌<◌, ◌≤◌, ◌&&◌, [], false, true, max, nat_lt, nat_le, ◌==◌, slice_index, sum, length, if◌then◌else◌};
ghost use Rattle.{arrayvec.specs.ArrayVec.array_vec_len, tally_base.specs.{Columns.{gathered, events_in, IsSorted}, Tally.{floor_after, InOrder}, Limits.record_limit, Settings.trace_view}};
ghost use Rattle.long_trace.specs.{Texts.frequency_limit, Bins.CountsAt, States.state_of};

use crate::closed::Closed;
use crate::lines::{LINE_SIZE, LINES_SIZE, put_bin};
use arrayvec::ArrayVec;
use count_trace::Bin;
use tally_base::{Block, TABLE_BLOCK, TraceSet};

/// The newest bin, of which more photons may come, and how many came so far.
#[derive(Clone, Copy)]
pub(crate) struct OpenBin {
    pub bin: Bin,
    pub count: u64,
}

/// The numbers of a trace beside how often each count came in its closed bins.
#[derive(Clone, Copy)]
pub(crate) struct Counting {
    pub set: TraceSet,
    /// How many photons came before the origin.
    pub before: u64,
    pub newest: OpenBin,
}

impl Counting {
    ghost use Rattle.long_trace.specs.States.{CanCount, Counted, CountsAll, IsInStep, IsUpTo, Opens, OpensAt};

    /// Closes the newest bin, and answers the bin of a photon after it.
    fn open_next(&self, closed: &mut Closed, time: u64) -> Counting
        requires step { IsInStep self.now closed.old }
        requires later { self.now.newest.bin.low + self.now.set.width ≤ time }
        ensures step { IsInStep result closed.new }
        ensures opens { Opens self.now result closed.old closed.new time }
        ensures counts { OpensAt self.now result closed.old closed.new time }
    {
        let bin = Bin::of(&self.set, self.newest.bin, time);
        closed.close(self.newest.count, bin.index - self.newest.bin.index - 1);
        Counting {
            newest: OpenBin { bin, count: 1 },
            ..*self
        }
    }

    /// Counts a photon of the group at a time, where `more` is 1, or none.
    #[inline(always)]
    pub(crate) fn count_at<const N: usize>(
        &mut self,
        closed: &mut Closed,
        time: u64,
        more: u64,
        lines: &mut ArrayVec<u8, N>,
    )
        requires can { CanCount self.old closed.old time more }
        requires room { array_vec_len lines.old + LINE_SIZE ≤ N }
        ensures counted { Counted self.old self.new closed.old closed.new time more }
        ensures len { array_vec_len lines.new ≤ array_vec_len lines.old + LINE_SIZE }
        ensures counts { CountsAt (trace_view self.old.set) (state_of self.old closed.old)
            (state_of self.new closed.new) time (λ met. more ≡ (if met then 1 else 0))
            lines.old.items lines.new.items }
    {
        if time < self.set.origin {
            self.before += more;
        } else if self.newest.bin.low <= time && time - self.newest.bin.low < self.set.width {
            self.newest.count += more;
        } else if more > 0 {
            put_bin(lines, self.newest.bin.index, self.newest.count);
            *self = self.open_next(closed, time);
        }
    }

    /// Counts the photons of a block, and answers the greatest time of the photons so far. The lines of the bins that
    /// they close are put in the place of others.
    pub(crate) fn count_block(
        &mut self,
        closed: &mut Closed,
        floor: u64,
        block: &Block<TABLE_BLOCK>,
        lines: &mut ArrayVec<u8, LINES_SIZE>,
    ) -> u64
        requires block { IsSorted block.now × InOrder false floor (gathered block.now) }
        requires stands { IsUpTo self.old closed.old floor }
        requires few { self.old.before + self.old.newest.count + length (gathered block.now) ≤ record_limit }
        ensures floor { result ≡ floor_after false floor (gathered block.now) }
        ensures stands { IsUpTo self.new closed.new result }
        ensures counted { CountsAll self.old self.new closed.old closed.new (events_in block.now) lines.new.items }
    {
        lines.clear();
        // A copy, so that no field is read again for each photon.
        let mut own = *self;
        for at in 0..block.len().min(TABLE_BLOCK) {
            let more = block.photons_in(at, own.set.group);
            own.count_at(closed, block.time(at), more, lines);
        }
        *self = own;
        block.floor_after(false, floor)
    }
}

/// How often each count came in the closed bins and the newest, if it isn't empty.
pub(crate) fn closed_with(newest: &OpenBin, closed: Closed) -> Closed
    requires filled { newest.now.count + sum closed.frequencies + closed.many < 2 ^ 64 + slice_index closed.frequencies 0 }
    ensures frequencies { (c : ℕ) → c < frequency_limit → slice_index result.frequencies c
        ≡ slice_index closed.frequencies c
        + (if nat_lt 0 newest.now.count && (newest.now.count == c) then 1 else 0) }
    ensures many { result.many ≡ closed.many
        + (if nat_lt 0 newest.now.count && nat_le frequency_limit newest.now.count then 1 else 0) }
{
    let mut all = closed;
    if newest.count > 0 {
        all.raise(newest.count);
    }
    all
}
