// The fields of eight words, split at once.
ghost use Rattle.std.specs.Prelude.{◌≡◌, ◌<◌, ◌^◌, ℕ, length, slice_index};
ghost use Rattle.ptu_definitions.specs.Words.{numbers};

use record_layout::{Fields, RecordLayout};
use std::simd::prelude::*;

/// The fields of eight words, each field of all eight in lanes.
#[derive(Clone, Copy)]
pub struct FieldLanes {
    tops: [u32; 8],
    dtimes: [u32; 8],
    times: [u32; 8],
    ghost small_tops: { (place : ℕ) → place < 8 → slice_index tops place < 2 ^ 8 },
    ghost small_dtimes: { (place : ℕ) → place < 8 → slice_index dtimes place < 2 ^ 16 },
}

impl FieldLanes {
    ghost use Rattle.lane_decode.specs.Lanes.{fields_at};

    /// The fields of eight words of four bytes each, little endian, in the layout `R`.
    #[inline(always)]
    pub fn of<R: RecordLayout>(words: &[[u8; 4]]) -> FieldLanes
        requires { length words.now ≡ 8 }
        ensures { (place : ℕ) → place < 8 → R.joined (fields_at result place)
            ≡ R.meaning (slice_index (numbers words.now) place) }
    {
        let words = u32x8::from_array(numbers_of(words));
        let dtimes = (words >> u32x8::splat(R::DTIME_SHIFT)) & u32x8::splat(R::DTIME_MASK);
        FieldLanes {
            tops: (words >> u32x8::splat(R::TOP_SHIFT)).to_array(),
            dtimes: dtimes.to_array(),
            times: (words & u32x8::splat(R::TIME_MASK)).to_array(),
        }
    }

    /// The fields of the word at `place`, 0 to 7.
    #[inline(always)]
    pub fn fields(&self, place: usize) -> Fields
        requires { place < 8 }
        ensures { result ≡ fields_at self.now place }
    {
        Fields {
            top: self.tops[place] as u8,
            dtime: self.dtimes[place] as u16,
            time: self.times[place],
        }
    }
}

/// The numbers of eight words.
#[inline(always)]
fn numbers_of(words: &[[u8; 4]]) -> [u32; 8]
    requires { length words.now ≡ 8 }
    ensures { result ≡ numbers words.now }
{
    [
        u32::from_le_bytes(words[0]),
        u32::from_le_bytes(words[1]),
        u32::from_le_bytes(words[2]),
        u32::from_le_bytes(words[3]),
        u32::from_le_bytes(words[4]),
        u32::from_le_bytes(words[5]),
        u32::from_le_bytes(words[6]),
        u32::from_le_bytes(words[7]),
    ]
}
