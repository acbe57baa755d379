// How the bits of a word are laid out.
ghost use Rattle.std.specs.Prelude.{◌≡◌, ◌*◌, ◌^◌, ◌<◌, ◌≤◌, ℕ};
ghost use Rattle.{tally_base.specs.declared.header.Mode.Mode, ptu_definitions.specs.{declared.records.Raw.Raw, Times.amount}, record_layout.specs.{declared.fields.Fields.Fields, Joins.fields_in}};
ghost use Rattle.record_layout.specs.Rowed.{raw_of};

use crate::fields::Fields;
use crate::row::Row;
use ptu_definitions::Raw;
use tally_base::Mode;

/// One of the record layouts of PicoQuant's unified TTTR format.
pub trait RecordLayout {
    /// What the times of its records count.
    const MODE: Mode;

    /// Where the highest field of a word begins, 25 to 31.
    const TOP_SHIFT: u32;

    /// Where the time after the sync begins, at most 31.
    const DTIME_SHIFT: u32;

    /// The mask of the time after the sync, at most 32767.
    const DTIME_MASK: u32;

    /// The mask of the time, which begins at bit 0.
    const TIME_MASK: u32;

    /// How much later the times after one wrap are, below 2^28.
    const UNIT: u64;

    ghost MODE: { Mode };

    ghost TOP_SHIFT: { ℕ };

    ghost DTIME_SHIFT: { ℕ };

    ghost DTIME_MASK: { ℕ };

    ghost TIME_MASK: { ℕ };

    ghost UNIT: { ℕ };

    /// What a word means.
    ghost meaning: { ℕ → Raw };

    /// What fields say.
    ghost joined: { Fields → Raw };

    /// What fields say, also ones that no word has.
    fn join(fields: &Fields) -> Raw
        ensures { result ≡ joined fields.now };

    /// The parts of the record that fields say, also of ones that no word has. It is to take no branch.
    fn split(fields: &Fields) -> Row
        ensures record { raw_of UNIT result ≡ joined fields.now }
        ensures wraps { UNIT * result.wraps ≡ amount (joined fields.now) };

    ghost unit_small: { UNIT < 2 ^ 28 };

    /// No word stands for more than 2^25 wraps, so those of 64 words fit 32 bits.
    ghost wraps_few: { (word n : ℕ) → UNIT * n ≡ amount (meaning word) → n ≤ 2 ^ 25 };

    ghost top_shift_low: { 25 ≤ TOP_SHIFT };

    ghost top_shift_high: { TOP_SHIFT ≤ 31 };

    ghost dtime_shift_high: { DTIME_SHIFT ≤ 31 };

    ghost dtime_mask_high: { DTIME_MASK ≤ 32767 };

    /// A word means what its fields say.
    ghost decode_is_join: { (word : ℕ) → word < 2 ^ 32
        → meaning word ≡ joined (fields_in TOP_SHIFT DTIME_SHIFT DTIME_MASK TIME_MASK word) };

    /// What the word of a record means.
    #[inline(always)]
    final fn decode(word: u32) -> Raw
        ensures { result ≡ meaning word }
    {
        Self::join(&fields_of::<Self>(word))
    }

    /// The parts of the record of a word.
    #[inline(always)]
    final fn row(word: u32) -> Row
        ensures record { raw_of UNIT result ≡ meaning word }
        ensures wraps { UNIT * result.wraps ≡ amount (meaning word) }
    {
        Self::split(&fields_of::<Self>(word))
    }

    /// What the parts of a record say.
    #[inline(always)]
    final fn raw(row: &Row) -> Raw
        ensures { result ≡ raw_of UNIT row.now }
    {
        match row.code {
            0..256 => Raw::Photon {
                input: row.code as u8,
                time: row.time,
                dtime: row.dtime,
            },
            256..512 => Raw::Marker {
                bits: (row.code % 256) as u8,
                time: row.time,
            },
            512 => Raw::Wrap {
                amount: Self::UNIT * u64::from(row.wraps),
            },
            _ => Raw::Reserved,
        }
    }
}

/// The fields of a word.
#[inline(always)]
fn fields_of<R: RecordLayout>(word: u32) -> Fields
    ensures { result ≡ fields_in R.TOP_SHIFT R.DTIME_SHIFT R.DTIME_MASK R.TIME_MASK word }
{
    Fields {
        top: (word >> R::TOP_SHIFT) as u8,
        dtime: ((word >> R::DTIME_SHIFT) & R::DTIME_MASK) as u16,
        time: word & R::TIME_MASK,
    }
}
