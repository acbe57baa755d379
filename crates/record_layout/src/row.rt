// A record by its parts.

/// A record by its parts, of which each is there whatever the record is, so that no code has to test its
/// kind first.
#[derive(Clone, Copy, PartialEq, Eq)]
pub struct Row {
    /// The input of a photon, or 256 and the bits of a marker, or 512 of a wrap, or 513 of a reserved record.
    pub code: u16,
    /// The time field, in ticks in T2 and in sync periods in T3.
    pub time: u32,
    /// The time after the sync of a photon, in ticks. That of another record has no meaning.
    pub dtime: u16,
    /// How many wraps a wrap record stands for. It is 0 of any other record.
    pub wraps: u32,
}
