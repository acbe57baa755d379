// Blocks of words, decoded.
ghost use Rattle.std.specs.Prelude.{◌≡◌, ◌*◌, ◌≤◌, length, map};
ghost use Rattle.ptu_definitions.specs.Words.{numbers, words_of};

use crate::columns::Columns;
use ptu_definitions::Raw;
use record_layout::RecordLayout;

/// Decodes `N` words of four bytes each, little endian, in the layout `R`: place i of `out` becomes
/// what `R::decode` answers for word i. Where `N` is 0 there are no bytes and no places.
pub fn decode_block<R: RecordLayout, const N: usize>(words: &[u8], out: &mut [Raw; N])
    requires { length words.now ≡ 4 * N }
    ensures { out.new ≡ map R.meaning (words_of words.now) }
{
    let (fours, _) = words.as_chunks::<4>();
    decode_words::<R>(fours, out);
}

/// Decodes words, up to 64 of them at a time.
fn decode_words<R: RecordLayout>(words: &[[u8; 4]], out: &mut [Raw])
    requires { length out.old ≡ length words.now }
    ensures { out.new ≡ map R.meaning (numbers words.now) }
{
    let mut columns = Columns::new();
    let mut rest = words;
    let mut at = 0;
    'many: while !rest.is_empty() {
        let (part, behind) = rest.split_at(rest.len().min(64));
        decode_part::<R>(&mut columns, part, &mut out[at..at + part.len()]);
        at += part.len();
        rest = behind;
    }
}

/// Decodes at most 64 words.
fn decode_part<R: RecordLayout>(columns: &mut Columns, words: &[[u8; 4]], out: &mut [Raw])
    requires { (length out.old ≡ length words.now) × (length words.now ≤ 64) }
    ensures { out.new ≡ map R.meaning (numbers words.now) }
{
    columns.fill::<R>(words);
    for i in 0..words.len() {
        out[i] = R::raw(&columns.get(i));
    }
}
