// The events of a file, and how its records are read.
ghost use Rattle.std.specs.Prelude.{◌≡◌, ◌<◌, ◌≤◌};
ghost use Rattle.tally_base.specs.Events.{is_photon, is_in};

/// What an event is.
#[derive(Clone, Copy, PartialEq, Eq)]
pub enum EventKind {
    /// A photon of an input channel. In T3 `dtime` counts ticks after its sync, at most 32,767. In T2 it
    /// is 0. In the T2 layout of HydraHarp and later devices the input 0 is the sync input.
    Photon { input: u8, dtime: u16 },
    /// A marker of one to four bits, so `bits` is 1 to 15.
    Marker { bits: u8 },
}

/// A photon or a marker at its absolute time.
#[derive(Clone, Copy, PartialEq, Eq)]
pub struct Event {
    /// The number of its record in the file, where the first record has the number 1.
    pub place: u64,
    /// What it is.
    pub kind: EventKind,
    /// Ticks in T2 and sync periods in T3, from the beginning of the file on.
    pub time: u64,
}

/// A marker of no bits at the beginning, which no file has.
impl Default for Event {
    fn default() -> Self {
        Event {
            place: 0,
            kind: EventKind::Marker { bits: 0 },
            time: 0,
        }
    }
}

impl Event {
    /// Whether it is a photon.
    pub fn is_photon(&self) -> bool
        ensures { result ≡ is_photon self.now }
    {
        match self.kind {
            EventKind::Photon { .. } => true,
            EventKind::Marker { .. } => false,
        }
    }
}

/// Whether a group, 1 to 64, is among these groups, where bit g - 1 stands for group g.
pub fn is_in(groups: u64, group: u8) -> bool
    requires { (0 < group) × (group ≤ 64) }
    ensures { result ≡ is_in groups group }
{
    (groups >> (group - 1)) & 1 == 1
}

/// What becomes of a late event: one in order of time that comes after a greater time.
#[derive(Clone, Copy, Debug, PartialEq, Eq)]
pub enum Order {
    /// It is counted as late and left out.
    Drop,
    /// It is refused.
    Stop,
}

/// What becomes of a reserved record.
#[derive(Clone, Copy, Debug, PartialEq, Eq)]
pub enum OnReserved {
    /// It is counted and left out.
    Skip,
    /// It is refused.
    Stop,
}

/// Which records of a file are refused.
#[derive(Clone, Copy, Debug, PartialEq, Eq)]
pub struct Policy {
    /// What becomes of late events.
    pub order: Order,
    /// What becomes of reserved records.
    pub reserved: OnReserved,
    /// The greatest number of records. One record more is refused.
    pub records: u64,
    /// How many earlier events in order may have a greater time than an event that isn't late, 0 to 64. Where
    /// it isn't 0, such an event is put in its place.
    pub settle: u32,
}
