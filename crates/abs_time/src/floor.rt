// The greatest time of the events that are given on.
ghost use Rattle.std.specs.Prelude.{◌≡◌};
ghost use Rattle.abs_time.specs.Floors.{moved_floor, orders_markers};

use tally_base::{Event, EventKind, Mode};

/// Whether markers come in the order of their times, as photons do.
#[inline(always)]
pub fn orders_markers(mode: Mode) -> bool
    ensures { result ≡ orders_markers mode }
{
    match mode {
        Mode::T2 => false,
        Mode::T3 => true,
    }
}

/// The greatest time of the events in order that were not late, with one event more. It is what the
/// `floor` of a taker becomes.
#[inline(always)]
pub fn moved_floor(mode: Mode, floor: u64, event: &Event, late: bool) -> u64
    ensures { result ≡ moved_floor mode floor event.now late }
{
    match (mode, event.kind) {
        (Mode::T2, EventKind::Marker { .. }) => floor,
        _ if late => floor,
        _ => event.time,
    }
}
