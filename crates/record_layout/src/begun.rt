// The bytes of a word that one piece begins and a later one completes.
ghost use Rattle.std.specs.Prelude.{◌≡◌, ◌+◌, ◌*◌, ◌<◌, ◌++◌, ◌∷◌, [], length};
ghost use Rattle.{arrayvec.specs.ArrayVec.array_vec_len, ptu_definitions.specs.{Words.{numbers, words_of, rest_of}, Prefixes.listed}};

use arrayvec::ArrayVec;
use tally_base::put_text;

/// The bytes of a word that was begun and is not whole yet, 0 to 3. It parts bytes that come in pieces
/// of any sizes into words of four.
#[derive(Drop)]
pub struct BegunWord {
    bytes: ArrayVec<u8, 4>,
    pub ghost short: { array_vec_len bytes < 4 },
}

impl BegunWord {
    ghost use Rattle.record_layout.specs.Counting.{begun_in};

    /// No byte.
    pub fn new() -> BegunWord
        ensures { begun_in result ≡ [] }
    {
        BegunWord {
            bytes: ArrayVec::new(),
        }
    }

    /// How many bytes it has, 0 to 3.
    pub fn len(&self) -> usize
        ensures value { result ≡ length (begun_in self.now) }
        ensures short { result < 4 }
    {
        self.bytes.len()
    }

    /// Takes the next piece of the bytes. Gives the word that the piece completes, if one was begun and
    /// becomes whole, and the whole words after it. What is left over is the word that is begun now.
    pub fn take<'p>(&mut self, piece: &'p [u8]) -> (Option<[u8; 4]>, &'p [[u8; 4]])
        ensures words { numbers (listed result.0 ++ result.1.now)
            ≡ words_of (begun_in self.old ++ piece.now) }
        ensures rest { begun_in self.new ≡ rest_of (begun_in self.old ++ piece.now) }
        ensures bytes { 4 * length (listed result.0 ++ result.1.now) + length (begun_in self.new)
            ≡ length (begun_in self.old) + length piece.now }
    {
        let begun = self.bytes.len();
        if begun == 0 {
            return (None, self.cut(piece));
        }
        let missing = 4 - begun;
        if piece.len() < missing {
            put_text(&mut self.bytes, piece);
            return (None, &[]);
        }
        let (front, behind) = piece.split_at(missing);
        let word = self.complete(front);
        (Some(word), self.cut(behind))
    }

    /// The word that is begun, with the bytes that complete it.
    fn complete(&mut self, front: &[u8]) -> [u8; 4]
        requires { length (begun_in self.old ++ front.now) ≡ 4 }
        ensures word { numbers (result ∷ []) ≡ words_of (begun_in self.old ++ front.now) }
        ensures none { begun_in self.new ≡ [] }
    {
        put_text(&mut self.bytes, front);
        let (words, _) = self.bytes.as_slice().as_chunks::<4>();
        let word = words[0];
        self.bytes.clear();
        word
    }

    /// The whole words of a piece before which none is begun.
    fn cut<'p>(&mut self, piece: &'p [u8]) -> &'p [[u8; 4]]
        requires { begun_in self.old ≡ [] }
        ensures words { numbers result.now ≡ words_of piece.now }
        ensures rest { begun_in self.new ≡ rest_of piece.now }
        ensures bytes { 4 * length result.now + length (begun_in self.new) ≡ length piece.now }
    {
        let (words, left) = piece.as_chunks::<4>();
        put_text(&mut self.bytes, left);
        words
    }
}
