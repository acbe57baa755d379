// The law of written photons, as the contract of a function that does nothing.
ghost use Rattle.std.specs.{Prelude.{◌≡◌, List, Ok, map}, List.All};
ghost use Rattle.{tally_base.specs.declared.{event.{Event.Event, Policy.Policy}, header.Mode.Mode}, ptu_definitions.specs.{Headers.header_answer, Kept.kept, Words.words_of}};
ghost use Rattle.{minimal_file.specs.ShortFiles.{bytes_in, short_fields, timed}, record_write.specs.Picked.{picked_words, picked_file, picked_events, CanBePicked, IsPhotonOrWrap, StaysWithin}};
ghost use Rattle.record_write.specs.Picked.{TakesAll, GivesAll};

/// Photons that can be written are read back: from their file come their words, each word is one of
/// these photons or a wrap, no front of the words passes the greatest time, and the events are these photons,
/// at their times. None of them is late, and no record is refused, whatever becomes of late events and of reserved
/// records: so a stream gives these events and no more.
pub fn picked_photons_are_read()
    ensures header { (mode : Mode) (photons : List Event)
        → header_answer (picked_file mode photons)
        ≡ Ok (short_fields mode, bytes_in (picked_words mode photons)) }
    ensures words { (mode : Mode) (photons : List Event) → CanBePicked mode photons
        → words_of (bytes_in (picked_words mode photons)) ≡ picked_words mode photons }
    ensures records { (mode : Mode) (photons : List Event) → CanBePicked mode photons
        → All (IsPhotonOrWrap mode) (picked_words mode photons) }
    ensures within { (mode : Mode) (photons : List Event) → CanBePicked mode photons
        → StaysWithin mode (picked_words mode photons) }
    ensures photons { (mode : Mode) (photons : List Event) → CanBePicked mode photons
        → map timed (picked_events mode photons) ≡ map timed photons }
    ensures in_time { (mode : Mode) (photons : List Event) → CanBePicked mode photons
        → kept mode (picked_events mode photons) ≡ picked_events mode photons }
    ensures given { (mode : Mode) (photons : List Event) (policy : Policy)
        → TakesAll policy mode photons → GivesAll policy mode photons }
{}
