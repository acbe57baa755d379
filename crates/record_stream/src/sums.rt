// What a stream counted.
ghost use Rattle.std.specs.Prelude.{◌≡◌, ◌+◌};

/// What a stream counted so far: a summary, whose times mean nothing until an event is kept. So the loop
/// over the words keeps each field in a register.
#[derive(Clone, Copy)]
pub struct Sums {
    pub records: u64,
    pub photons: u64,
    pub markers: u64,
    pub wraps: u64,
    pub reserved: u64,
    pub late: u64,
    /// An event was kept.
    pub kept: bool,
    pub first: u64,
    pub last: u64,
    pub ghost parts: { photons + markers + wraps + reserved ≡ records },
}
