// Laws of short files, each as the contract of a function that does nothing.
ghost use Rattle.std.specs.{Prelude.{◌≡◌, ◌+◌, ◌*◌, ◌<◌, ◌^◌, ℕ, List, [], Ok, length}, List.All};
ghost use Rattle.{tally_base.specs.declared.header.Mode.Mode, ptu_definitions.specs.{Headers.header_answer, Words.{words_of, rest_of}}, minimal_file.specs.ShortFiles.{bytes_in, short_fields}};
ghost use Rattle.minimal_file.specs.ShortFiles.{minimal_file};

/// A short file has a header of its mode's record type and 112 bytes, and after it its words, four bytes
/// each and no byte more.
pub fn a_short_file_is_read()
    ensures header { (mode : Mode) (words : List ℕ)
        → header_answer (minimal_file mode words) ≡ Ok (short_fields mode, bytes_in words) }
    ensures words { (words : List ℕ) → All (λ word. word < 2 ^ 32) words → words_of (bytes_in words) ≡ words }
    ensures rest { (words : List ℕ) → rest_of (bytes_in words) ≡ [] }
    ensures size { (mode : Mode) (words : List ℕ) → length (minimal_file mode words) ≡ 112 + 4 * length words }
{}
