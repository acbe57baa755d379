// Laws of the made file, each as the contract of a function that does nothing.
ghost use Rattle.std.specs.{Prelude.{◌≡◌, ◌+◌, ◌*◌, ◌≤◌, ℕ, List, [], Ok, false, length, map}, List.All};
ghost use Rattle.{tally_base.specs.{declared.{event.Policy.Policy, slot.Slot.Slot}, Events.stops_late}, bench_io.specs.Memory.left_of, ptu_definitions.specs.Headers.header_answer};
ghost use Rattle.{ptu_definitions.specs.{Layouts.meaning_of, Times.{base, events}, Words.{words_of, rest_of}}, ptu_made.specs.{declared.made.Made.Made, Generator.{photon_limit, made_words}}};
ghost use Rattle.{ptu_made.specs.Records.{IsPhotonOrWrap, made_header, made_photons, made_file, made_refusal}, minimal_file.specs.ShortFiles.{bytes_in, timed}};
ghost use Rattle.tally_base.specs.declared.header.RecordType.TheVariants as RecordType;

use crate::made::Made;
use bench_io::Inputs;

/// The file has a header of the record type HydraHarp2T2 and 112 bytes, and after it its words,
/// four bytes each and no byte more. There are at least as many words as photons, and at most twice as
/// many.
pub fn the_file_is_whole()
    ensures header { (seed count : ℕ)
        → header_answer (made_file seed count)
        ≡ Ok (made_header, bytes_in (made_words seed count)) }
    ensures words { (seed count : ℕ) → words_of (bytes_in (made_words seed count)) ≡ made_words seed count }
    ensures rest { (seed count : ℕ) → rest_of (bytes_in (made_words seed count)) ≡ [] }
    ensures size { (seed count : ℕ) → length (made_file seed count) ≡ 112 + 4 * length (made_words seed count) }
    ensures few { (seed count : ℕ) → (count ≤ length (made_words seed count)) × (length (made_words seed count) ≤ 2 * count) }
{}

/// Each word is a photon of input 1 or 2 or one wrap. The events are the photons that the seed gives:
/// each of the input one above its channel, and as much later than the one before as its gap is.
pub fn the_words_are_photons()
    ensures words { (seed count : ℕ)
        → All (λ word. IsPhotonOrWrap (meaning_of RecordType.HydraHarp2T2 word))
        (made_words seed count) }
    ensures events { (seed count : ℕ)
        → map timed (events (map (meaning_of RecordType.HydraHarp2T2) (made_words seed count)))
        ≡ made_photons seed count }
    ensures wraps { (seed count : ℕ) → base (map (meaning_of RecordType.HydraHarp2T2) (made_words seed count)) ≤ 512 * count }
{}

/// A slot that was not opened has nothing left to read, whatever was read of the other.
pub fn an_unopened_slot_has_nothing_left()
    ensures { (made : Made) (slot : Slot) → (⟦<Made as Inputs>⟧.state made).opened slot ≡ false
        → left_of (⟦<Made as Inputs>⟧.state made) slot ≡ [] }
{}

/// No record is refused of at most 10,000,000 photons, where late events are dropped and the limit
/// of records is no less than there are.
pub fn no_record_is_refused()
    ensures { (seed count : ℕ) (policy : Policy) → count ≤ photon_limit
        → length (made_words seed count) ≤ policy.records → stops_late policy.order ≡ false
        → made_refusal policy seed count ≡ None }
{}
