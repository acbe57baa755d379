// Laws of the photons that are picked, each as the contract of a function that does nothing.
ghost use Rattle.std.specs.Prelude.{ℕ, List};
ghost use Rattle.{tally_base.specs.{declared.{event.{Event.Event, Policy.Policy}, header.{Mode.Mode, RecordType.RecordType}}, RecordTypes.mode_of}, ptu_definitions.specs.Streams.reading};
ghost use Rattle.{gate_plan.specs.Shifting.Sorting, photon_pick.specs.{Chosen.is_chosen, Ends.CanBeWritten, Late.{writable, AreBeforeLate}}};

/// The photons of a group in the kept list of any words can be written where none of them is too late:
/// they fit the mode of the record type, and their times never fall, whether late events are left out or
/// put in their places. Those before the first that is too late can be written always: of all bytes
/// after a header, refused or not, and of what words settle while more may come. These are all photons
/// that are ever written.
pub fn kept_photons_can_be_written()
    ensures { (record_type : RecordType) (policy : Policy) (sorting : Sorting) (group : ℕ)
        → CanBeWritten (mode_of record_type) (is_chosen sorting group) (reading record_type policy) }
{}

/// The photons that are written are those before the first that is too late.
pub fn those_before_a_late_one_are_written()
    ensures { (mode : Mode) (photons : List Event) → AreBeforeLate mode (writable mode photons) photons }
{}
