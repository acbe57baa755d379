// The summary of a stream, one record and one event at a time.
ghost use Rattle.std.specs.Prelude.{◌≡◌, ◌+◌, ◌<◌, ◌≤◌, ◌&&◌, if◌then◌else◌};
ghost use Rattle.{tally_base.specs.{Events.{stops_late, stops_reserved}, Limits.record_limit}, ptu_definitions.specs.Kinds.is_reserved, record_stream.specs.OneMore.{with_raw, with_event, time_if}};
ghost use Rattle.record_stream.specs.OneMore.{summed, CountsMore};

use crate::sums::Sums;
use ptu_definitions::{Raw, Summary};
use tally_base::{Event, OnReserved, Order};

impl Sums {
    ghost use Rattle.record_stream.specs.OneMore.{summed};

    /// The summary of what was counted.
    pub(crate) fn summary(&self) -> Summary
        ensures { result ≡ summed self.now }
    {
        Summary {
            records: self.records,
            photons: self.photons,
            markers: self.markers,
            wraps: self.wraps,
            reserved: self.reserved,
            late: self.late,
            first: time_if(self.kept, self.first),
            last: time_if(self.kept, self.last),
        }
    }
}

fn time_if(kept: bool, time: u64) -> Option<u64>
    ensures { result ≡ time_if kept time }
{
    if kept { Some(time) } else { None }
}

/// Counts one more record.
#[inline(always)]
pub(crate) fn add_raw(sums: &mut Sums, raw: &Raw)
    requires { sums.old.records < record_limit }
    ensures value { summed sums.new ≡ with_raw (summed sums.old) raw.now }
    ensures more { CountsMore sums.old sums.new 1 }
{
    sums.records += 1;
    match raw {
        Raw::Photon { .. } => sums.photons += 1,
        Raw::Marker { .. } => sums.markers += 1,
        Raw::Wrap { .. } => sums.wraps += 1,
        Raw::Reserved => sums.reserved += 1,
    }
}

/// Notes one more event, whose record is counted already.
#[inline(always)]
pub(crate) fn add_event(sums: &mut Sums, event: &Event, late: bool)
    requires { sums.old.late < record_limit }
    ensures value { summed sums.new ≡ with_event (summed sums.old) event.now late }
    ensures records { sums.new.records ≡ sums.old.records }
    ensures late { sums.new.late ≤ sums.old.late + 1 }
{
    if late {
        sums.late += 1;
        return;
    }
    if !sums.kept {
        sums.kept = true;
        sums.first = event.time;
    }
    sums.last = event.time;
}

/// Whether the record is reserved and may not be.
pub(crate) fn stops_at(reserved: OnReserved, raw: &Raw) -> bool
    ensures { result ≡ (is_reserved raw.now && stops_reserved reserved) }
{
    match raw {
        Raw::Reserved => stops_reserved(reserved),
        _ => false,
    }
}

pub(crate) fn stops_late(order: Order) -> bool
    ensures { result ≡ stops_late order }
{
    match order {
        Order::Drop => false,
        Order::Stop => true,
    }
}

/// Whether reserved records are refused.
pub(crate) fn stops_reserved(reserved: OnReserved) -> bool
    ensures { result ≡ stops_reserved reserved }
{
    match reserved {
        OnReserved::Skip => false,
        OnReserved::Stop => true,
    }
}
