// Events that come some places too late: the test of `settle`.
ghost use Rattle.std.specs.Prelude.{◌≡◌};

use crate::checks::holds;
use settle::Settle;
use std::test::Fail;
use tally_base::{Event, EventKind};

fn at(place: u64, time: u64) -> Event
    ensures { result.place ≡ place }
{
    Event {
        place,
        kind: EventKind::Marker { bits: 1 },
        time,
    }
}

#[test]
fn one_place_too_late(_rt: HostRuntime) -> Result<(), Fail> {
    let mut settle = Settle::new(1);
    holds(settle.push(at(0, 9)).emitted == None, 1)?;
    holds(settle.held() == 1, 2)?;
    holds(settle.push(at(1, 8)).emitted == Some(at(1, 8)), 3)?;
    let late = settle.push(at(2, 7));
    holds(late.late, 4)?;
    holds(settle.last() == 8, 5)?;
    holds(late.emitted == None, 6)?;
    holds(settle.pop() == Some(at(0, 9)), 7)?;
    holds(settle.pop() == None, 8)?;
    Ok(())
}
