// How many records a file has at most, and how late its events come.

/// The most records of a file, 2^40. So it has no more events, and no count of them is greater.
pub const RECORD_LIMIT: u64 = 1 << 40;

/// The greatest sum of the wraps of a file, 2^62, in ticks in T2 and in sync periods in T3. No time that a
/// plan names is greater.
pub const WRAP_LIMIT: u64 = 1 << 62;
