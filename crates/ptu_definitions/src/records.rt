/// What one record says. Times count ticks in T2 and sync periods in T3.
#[derive(Clone, Copy, PartialEq, Eq)]
pub enum Raw {
    /// A photon of an input, 0 to 64. `time` is below 2^28. `dtime` counts ticks after its sync, at
    /// most 32,767, and is 0 in T2.
    Photon { input: u8, time: u32, dtime: u16 },
    /// A marker of one to four bits, so `bits` is 1 to 15.
    Marker { bits: u8, time: u32 },
    /// The time field ran over: later times are greater by this amount, in ticks in T2 and in sync
    /// periods in T3.
    Wrap { amount: u64 },
    /// A record that has no meaning.
    Reserved,
}

/// How many records there are, and of each kind.
#[derive(Clone, Copy, PartialEq, Eq)]
pub struct KindCounts {
    /// All records.
    pub records: u64,
    /// Photons.
    pub photons: u64,
    /// Markers.
    pub markers: u64,
    /// Wraps of the time field.
    pub wraps: u64,
    /// Records that have no meaning.
    pub reserved: u64,
}

/// What the records of a whole file are, and its events.
#[derive(Clone, Copy, PartialEq, Eq)]
pub struct Summary {
    pub records: u64,
    /// The photons, with those that are late.
    pub photons: u64,
    /// The markers, with those that are late.
    pub markers: u64,
    pub wraps: u64,
    pub reserved: u64,
    /// The late events. They are not kept.
    pub late: u64,
    /// The time of the first event that is kept.
    pub first: Option<u64>,
    /// The time of the last event that is kept.
    pub last: Option<u64>,
}
