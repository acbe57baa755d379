// A group that has gates.
ghost use Rattle.std.specs.Prelude.{◌<◌};

use arrayvec::ArrayVec;

/// A group with gates.
#[derive(Drop)]
pub struct Gated {
    /// The place of its bit.
    pub place: u64,
    /// By input: whether it is in the group.
    pub has: [bool; 256],
    /// The first of its ranges of dtimes, from its first number on and below its second.
    pub gate: (u16, u16),
    /// Its other ranges, which most groups don't have.
    pub others: ArrayVec<(u16, u16), 8>,
    pub ghost in_place: { place < 64 },
}

/// The group of no input, which fills unused room.
impl Default for Gated {
    fn default() -> Gated {
        Gated {
            place: 0,
            has: [false; 256],
            gate: (0, 0),
            others: ArrayVec::new(),
        }
    }
}
