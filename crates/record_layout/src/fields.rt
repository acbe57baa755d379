/// The parts of the word of a record.
#[derive(Clone, Copy, PartialEq, Eq)]
pub struct Fields {
    /// The highest bits of the word, with the channel and what tells photons from the rest: 0 to 127.
    pub top: u8,
    /// The time after the sync, in ticks, at most 32,767. 0 in T2.
    pub dtime: u16,
    /// The lowest bits of the word, with the time: below 2^28, in ticks in T2 and in sync periods in T3.
    pub time: u32,
}
