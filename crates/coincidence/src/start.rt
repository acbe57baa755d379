// The start of an interval.
ghost use Rattle.std.specs.Prelude.{◌≡◌, ◌≤◌, None, Some, if◌then◌else◌};
ghost use Rattle.coincidence.specs.Starts.{ended, start_in, since_in};

/// The last photon of either group, where it is in the start group.
///
/// It has two plain fields and no `Option`, so that what changes it takes no branch.
#[derive(Clone, Copy)]
pub struct Start {
    /// It is in the start group.
    pub(crate) open: bool,
    /// The time of the last photon that was in the start group, or 0.
    pub(crate) since: u64,
}

/// The start that is open after a photon: its own time where it starts, and none where it only stops.
#[inline(always)]
pub(crate) fn start_behind(start: Start, time: u64, starts: bool, stops: bool) -> Start
    ensures value { start_in result ≡ (if starts then Some time else if stops then None else start_in start) }
    ensures since { since_in result ≡ (if starts then time else since_in start) }
{
    Start {
        open: starts | (!stops & start.open),
        since: if starts { time } else { start.since },
    }
}

/// How many intervals a photon ends: one where it stops and one is open.
#[inline(always)]
pub(crate) fn ended(start: Start, stops: bool) -> u64
    ensures value { result ≡ ended stops (start_in start) }
    ensures one { result ≤ 1 }
{
    u64::from(stops & start.open)
}
