// How many records there are of each kind, in words.
ghost use Rattle.std.specs.Prelude.{◌≡◌, ◌+◌, ◌^◌, ◌<◌, length, map};
ghost use Rattle.{ptu_definitions.specs.{Words.numbers, Kinds.{is_photon, is_marker, is_wrap, counts_of}}, record_layout.specs.Sums.{IsSplit, sum_of}};

use crate::layout::RecordLayout;
use ptu_definitions::{KindCounts, Raw};

/// How many words are counted at once, in counters of 32 bits.
const BLOCK: usize = 1 << 30;

/// How many of the words are of each kind in the layout `R`.
#[inline]
#[tactic(auto, using(crate::proofs::KindLemmas::counted_records, crate::proofs::KindLemmas::counted_split))]
pub fn kinds_of<R: RecordLayout>(words: &[[u8; 4]]) -> KindCounts
    ensures { result ≡ counts_of (map R.meaning (numbers words.now)) }
{
    let mut counts = KindCounts {
        records: 0,
        photons: 0,
        markers: 0,
        wraps: 0,
        reserved: 0,
    };
    let mut rest = words;
    'whole_blocks: while rest.len() > BLOCK {
        let (block, behind) = rest.split_at(BLOCK);
        counts = sum(&counts, &kinds_in_block::<R>(block));
        rest = behind;
    }
    sum(&counts, &kinds_in_block::<R>(rest))
}

/// The same for a block. Each word adds to its counter without a branch, so that the loop works on
/// several words at once.
fn kinds_in_block<R: RecordLayout>(words: &[[u8; 4]]) -> KindCounts
    requires { length words.now < 2 ^ 32 }
    ensures { result ≡ counts_of (map R.meaning (numbers words.now)) }
{
    let mut photons = 0u32;
    let mut markers = 0u32;
    let mut wraps = 0u32;
    for bytes in words {
        let word = u32::from_le_bytes(*bytes);
        photons += is_photon::<R>(word) as u32;
        markers += is_marker::<R>(word) as u32;
        wraps += is_wrap::<R>(word) as u32;
    }
    let records = words.len() as u64;
    let others = photons as u64 + markers as u64 + wraps as u64;
    KindCounts {
        records,
        photons: photons as u64,
        markers: markers as u64,
        wraps: wraps as u64,
        reserved: records - others,
    }
}

// Each test is a function of its own, which the compiler makes a comparison before it stands in the
// loop. A `match` with a counter an arm stays a chain of branches there.

#[inline]
fn is_photon<R: RecordLayout>(word: u32) -> bool
    ensures { result ≡ is_photon (R.meaning word) }
{
    matches!(R::decode(word), Raw::Photon { .. })
}

#[inline]
fn is_marker<R: RecordLayout>(word: u32) -> bool
    ensures { result ≡ is_marker (R.meaning word) }
{
    matches!(R::decode(word), Raw::Marker { .. })
}

#[inline]
fn is_wrap<R: RecordLayout>(word: u32) -> bool
    ensures { result ≡ is_wrap (R.meaning word) }
{
    matches!(R::decode(word), Raw::Wrap { .. })
}

/// The counts of some records and of more after them.
pub(crate) fn sum(counts: &KindCounts, more: &KindCounts) -> KindCounts
    requires fits { counts.now.records + more.now.records < 2 ^ 64 }
    requires split { IsSplit counts.now }
    requires more_split { IsSplit more.now }
    ensures value { result ≡ sum_of counts.now more.now }
    ensures split { IsSplit result }
{
    KindCounts {
        records: counts.records + more.records,
        photons: counts.photons + more.photons,
        markers: counts.markers + more.markers,
        wraps: counts.wraps + more.wraps,
        reserved: counts.reserved + more.reserved,
    }
}
