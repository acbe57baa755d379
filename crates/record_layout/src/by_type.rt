// What words mean by the record type of their file.
ghost use Rattle.std.specs.Prelude.{◌≡◌, map};
ghost use Rattle.ptu_definitions.specs.{Words.numbers, Kinds.counts_of, Layouts.meaning_of};

use crate::kinds::kinds_of;
use crate::layout::RecordLayout;
use ptu_definitions::{KindCounts, Raw};
use tally_base::RecordType;

/// Calls a function that is generic in a layout `R`, in the layout of a record type, as
/// `in_layout!(record_type, kinds_of::<R>(words))`. Where it is called `RecordType` is in scope.
#[macro_export]
macro_rules! in_layout {
    ($record_type:expr, $($call:ident).+::<R $(, $more:ty)*>($($argument:expr),*)) => {
        match $record_type {
            RecordType::PicoHarpT2 => $($call).+::<$crate::PicoT2 $(, $more)*>($($argument),*),
            RecordType::PicoHarpT3 => $($call).+::<$crate::PicoT3 $(, $more)*>($($argument),*),
            RecordType::HydraHarpT2 => {
                $($call).+::<$crate::HydraT2<true> $(, $more)*>($($argument),*)
            }
            RecordType::HydraHarpT3 => {
                $($call).+::<$crate::HydraT3<true> $(, $more)*>($($argument),*)
            }
            RecordType::HydraHarp2T2
            | RecordType::TimeHarp260NT2
            | RecordType::TimeHarp260PT2
            | RecordType::MultiHarpT2 => {
                $($call).+::<$crate::HydraT2<false> $(, $more)*>($($argument),*)
            }
            RecordType::HydraHarp2T3
            | RecordType::TimeHarp260NT3
            | RecordType::TimeHarp260PT3
            | RecordType::MultiHarpT3 => {
                $($call).+::<$crate::HydraT3<false> $(, $more)*>($($argument),*)
            }
        }
    };
}

/// What the word of a record means in a file of this type, after the record layouts of PicoQuant's
/// unified TTTR format.
pub fn decode(record_type: RecordType, word: u32) -> Raw
    ensures { result ≡ meaning_of record_type word }
{
    in_layout!(record_type, decode_in::<R>(word))
}

/// What the word of a record means in a layout.
fn decode_in<R: RecordLayout>(word: u32) -> Raw
    ensures { result ≡ R.meaning word }
{
    R::decode(word)
}

/// How many of the words are of each kind in a file of this type.
pub(crate) fn kinds(record_type: RecordType, words: &[[u8; 4]]) -> KindCounts
    ensures { result ≡ counts_of (map (meaning_of record_type) (numbers words.now)) }
{
    in_layout!(record_type, kinds_of::<R>(words))
}
