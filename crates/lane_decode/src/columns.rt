// The records of a few words, by their parts.
ghost use Rattle.std.specs.{Prelude.{◌≡◌, ◌+◌, ◌*◌, ◌^◌, ◌<◌, ◌≤◌, ℕ, [], true, nat_lt, if◌then◌else◌, length, map, slice_index, slice_index_or}, Int.{from_le_bytes, w32}};
ghost use Rattle.{ptu_definitions.specs.{Words.numbers, Kinds.counts_of}, record_layout.specs.Rowed.raw_of};

use crate::lanes::FieldLanes;
use ptu_definitions::KindCounts;
use record_layout::{RecordLayout, Row};
use tally_base::{code_in, dtime_in, joined};

/// The records of up to 64 words by their parts, each part in a column, so that the compiler takes several
/// words at once.
#[derive(Clone, Copy)]
pub struct Columns {
    // The code of each record, and its dtime in the upper half, as a block of events has them.
    pub(crate) marks: [u32; 64],
    pub(crate) times: [u32; 64],
    // How many wraps each record stands for: narrower than how much later the times after it are.
    pub(crate) wraps: [u32; 64],
}

impl Columns {
    ghost use Rattle.lane_decode.specs.InColumns.{HasRows, HasRowsTo, row_at, time_in, Rises};

    /// Columns for records, which say nothing yet.
    pub fn new() -> Columns {
        Columns {
            marks: [0; 64],
            times: [0; 64],
            wraps: [0; 64],
        }
    }

    /// Puts the records of at most 64 words in the layout `R`. The time of a record that is no event has no meaning. The
    /// columns stay where they are: a copy of them takes longer than the split.
    #[inline(always)]
    pub fn fill<R: RecordLayout>(&mut self, words: &[[u8; 4]])
        requires { length words.now ≤ 64 }
        ensures { HasRows R.meaning R.UNIT self.new words.now }
    {
        for k in 0..words.len() / 8 {
            self.fill_eight::<R>(words, 8 * k);
        }
        for i in words.len() / 8 * 8..words.len() {
            self.put(i, &R::row(u32::from_le_bytes(words[i])));
        }
    }

    /// Puts the records of eight words from a place on, of which those before have theirs.
    #[inline(always)]
    fn fill_eight<R: RecordLayout>(&mut self, words: &[[u8; 4]], at: usize)
        requires eight { (at + 8 ≤ length words.now) × (length words.now ≤ 64) }
        requires before { HasRowsTo R.meaning R.UNIT self.old words.now at }
        ensures { HasRowsTo R.meaning R.UNIT self.new words.now (at + 8) }
    {
        let lanes = FieldLanes::of::<R>(&words[at..at + 8]);
        for j in 0..8usize {
            self.put(at + j, &R::split(&lanes.fields(j)));
        }
    }

    /// Puts a record at a place, 0 to 63.
    #[inline(always)]
    fn put(&mut self, at: usize, row: &Row)
        requires { at < 64 }
        ensures record { (unit : ℕ) → raw_of unit (row_at self.new at) ≡ raw_of unit row.now }
        ensures wraps { (row_at self.new at).wraps ≡ row.now.wraps }
        ensures others { (i : ℕ) → i < at → row_at self.new i ≡ row_at self.old i }
    {
        self.marks[at] = joined(row.code, row.dtime);
        self.times[at] = time_of(row);
        self.wraps[at] = row.wraps;
    }

    /// True only where no time of the 64 records falls, from this one on. It needs no sum of wraps: the time before a
    /// wrap counts as one that falls after it only where it is longer than a wrap.
    #[inline(always)]
    pub fn rises<R: RecordLayout>(&self, base: u64, low: u64) -> bool
        ensures rises { result ≡ true → Rises low (time_in base R.UNIT self.now) 64 }
        ensures few { (i : ℕ) → i < 64 → slice_index self.now.times i < 2 ^ 32 }
    {
        let ahead = low.saturating_sub(base);
        let mut last = (ahead % (1 << 32)) as u32;
        let mut falls = (ahead >> 32) as u32;
        for i in 0..64usize {
            let time = self.times[i];
            // A time that the record does not fall after, of those that are known without its wraps.
            let most = if self.wraps[i] == 0 {
                time
            } else {
                R::UNIT as u32
            };
            falls |= u32::from(most < last);
            last = time;
        }
        falls == 0
    }

    /// How many of the words are of each kind whose records it has. It reads their codes alone.
    #[inline(always)]
    pub fn kinds<R: RecordLayout>(&self, words: &[[u8; 4]]) -> KindCounts
        requires few { length words.now ≤ 64 }
        requires rows { HasRows R.meaning R.UNIT self.now words.now }
        ensures { result ≡ counts_of (map R.meaning (numbers words.now)) }
    {
        let mut photons = 0u32;
        let mut markers = 0u32;
        let mut wraps = 0u32;
        for i in 0..words.len() {
            let code = u32::from(code_in(self.marks[i]));
            photons += (code < 256) as u32;
            markers += ((256 <= code) & (code < 512)) as u32;
            wraps += (code == 512) as u32;
        }
        let records = words.len() as u64;
        let others = photons as u64 + markers as u64 + wraps as u64;
        KindCounts {
            records,
            photons: photons as u64,
            markers: markers as u64,
            wraps: wraps as u64,
            reserved: records - others,
        }
    }

    /// The record of the word at a place, 0 to 63.
    #[inline(always)]
    pub fn get(&self, at: usize) -> Row
        requires { at < 64 }
        ensures { result ≡ row_at self.now at }
    {
        Row {
            code: code_in(self.marks[at]),
            time: self.times[at],
            dtime: dtime_in(self.marks[at]),
            wraps: self.wraps[at],
        }
    }
}

/// The time of a record if it is an event, or else 0.
#[inline(always)]
fn time_of(row: &Row) -> u32
    ensures { result ≡ (if nat_lt row.now.code 512 then row.now.time else 0) }
{
    if row.code < 512 { row.time } else { 0 }
}
