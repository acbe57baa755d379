// Counts the records of bytes that come in pieces.
ghost use Rattle.std.specs.Prelude.{◌≡◌, ◌+◌, ◌<◌, ◌≤◌, ◌++◌, ◌↔◌, [], List, ℕ, length, true, false, IsErr, IfErr, Err, OnOk, OnErr};
ghost use Rattle.{tally_base.specs.{declared.header.RecordType.RecordType, Limits.record_limit, Faults.is_outside}, ptu_definitions.specs.{Words.{words_of, counted}, Headers.Shows}};
ghost use Rattle.record_layout.specs.Sums.{IsSplit};

use crate::begun::BegunWord;
use crate::by_type::kinds;
use crate::kinds::sum;
use ptu_definitions::KindCounts;
use tally_base::{Fault, RECORD_LIMIT, RecordType};

const LIMIT: Fault = Fault::RecordLimit {
    limit: RECORD_LIMIT,
};

/// Counts the records of a file by kind, from the bytes after its header. These come in pieces of
/// any sizes, and a record may lie in two of them.
#[derive(Drop)]
pub struct Counter {
    record_type: RecordType,
    carried: BegunWord,
    counts: KindCounts,
    refused: bool,
    ghost few: { counts.records ≤ record_limit },
    ghost split: { IsSplit counts },
}

impl Counter {
    ghost use Rattle.record_layout.specs.Counting.{HasCounted, was_refused, room};

    /// A counter that was given no bytes.
    pub fn new(record_type: RecordType) -> Counter
        ensures start { HasCounted result record_type [] }
        ensures going { was_refused result ≡ false }
    {
        Counter {
            record_type,
            carried: BegunWord::new(),
            counts: KindCounts {
                records: 0,
                photons: 0,
                markers: 0,
                wraps: 0,
                reserved: 0,
            },
            refused: false,
        }
    }

    /// Takes the next piece of the bytes. Refuses (`RecordLimit`) where there are more than 2^40 whole
    /// records, and from then on every piece.
    pub fn feed(&mut self, piece: &[u8]) -> Result<(), Fault>
        ensures taken { (record_type : RecordType) (bytes : List ℕ)
            → HasCounted self.old record_type bytes
            → HasCounted self.new record_type (bytes ++ piece.now) }
        ensures limit { (record_type : RecordType) (bytes : List ℕ)
            → HasCounted self.old record_type bytes
            → (IsErr result ↔ (record_limit < length (words_of (bytes ++ piece.now)))) }
        ensures shown { (record_type : RecordType) (bytes : List ℕ)
            → HasCounted self.old record_type bytes
            → IfErr result (λ fault. Shows (counted record_type) (bytes ++ piece.now) (Err fault)) }
        ensures fault { IfErr result (λ fault. fault ≡ Fault.RecordLimit record_limit) }
        ensures inside { IfErr result (λ fault. is_outside fault ≡ false) }
        ensures room { OnOk result (room self.new + length piece.now ≤ room self.old) }
        ensures refused { OnErr result (was_refused self.new ≡ true) }
        ensures repeats { was_refused self.old ≡ true → IsErr result × (self.new ≡ self.old) }
    {
        if self.refused {
            return Err(LIMIT);
        }
        let room = 4 * (RECORD_LIMIT - self.counts.records) + 3 - self.carried.len() as u64;
        if piece.len() as u64 > room {
            self.refused = true;
            return Err(LIMIT);
        }
        self.take(piece);
        Ok(())
    }

    /// Counts a piece that it has room for.
    #[tactic(auto, using(crate::proofs::KindLemmas::counted_records, crate::proofs::KindLemmas::counted_split))]
    fn take(&mut self, piece: &[u8])
        requires going { was_refused self.old ≡ false }
        requires fits { length piece.now ≤ room self.old }
        ensures going { was_refused self.new ≡ false }
        ensures taken { (record_type : RecordType) (bytes : List ℕ)
            → HasCounted self.old record_type bytes
            → HasCounted self.new record_type (bytes ++ piece.now) }
        ensures room { room self.new + length piece.now ≡ room self.old }
    {
        let (first, words) = self.carried.take(piece);
        let of_first = kinds(self.record_type, first.as_slice());
        let of_words = kinds(self.record_type, words);
        self.counts = sum(&self.counts, &sum(&of_first, &of_words));
    }

    /// The counts of all bytes. Refuses bytes that end within a record (`TruncatedRecord`), and answers
    /// again what a piece was refused for.
    pub fn finish(self) -> Result<KindCounts, Fault>
        ensures answer { (record_type : RecordType) (bytes : List ℕ)
            → HasCounted self record_type bytes
            → result ≡ counted record_type bytes }
        ensures repeats { was_refused self ≡ true → result ≡ Err (Fault.RecordLimit record_limit) }
        ensures inside { IfErr result (λ fault. is_outside fault ≡ false) }
    {
        if self.refused {
            return Err(LIMIT);
        }
        let bytes = self.carried.len();
        if bytes == 0 {
            return Ok(self.counts);
        }
        Err(Fault::TruncatedRecord { bytes: bytes as u8 })
    }
}
