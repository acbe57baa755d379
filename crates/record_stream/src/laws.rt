// Laws of streams, each as the contract of a function that does nothing.
ghost use Rattle.std.specs.Prelude.{◌≡◌, ◌++◌, ℕ, List, length, None, Some, Err};
ghost use Rattle.{tally_base.specs.declared.fault.Fault.Fault, ptu_definitions.specs.{Words.words_of, Kept.floor_of, Headers.Shows, Streams.{StreamSettings, record_refusal, streamed}}};
ghost use Rattle.record_stream.specs.{declared.stream.RecordStream.RecordStream, Standing.{how_of, given_in, given_by, greatest_of, refused_with, HasStreamed}};

/// The two numbers of a stream that has refused nothing: how many events it has given, and the greatest
/// time of those in order that were not late.
pub fn stream_numbers()
    ensures given { (stream : RecordStream) (bytes : List ℕ)
        → HasStreamed stream bytes → refused_with stream ≡ None
        → given_by stream ≡ length (given_in stream bytes) }
    ensures greatest { (stream : RecordStream) (bytes : List ℕ)
        → HasStreamed stream bytes → refused_with stream ≡ None
        → greatest_of stream ≡ floor_of (how_of stream).mode (given_in stream bytes) }
{}

/// A refusal of records stays, whatever comes after: that of words, and what their bytes answer. What is
/// given then is what those before it deliver (`first_refusal` of the definitions), and stays too.
pub fn a_refusal_stays()
    ensures words { (how : StreamSettings) (words more : List ℕ) (fault : Fault)
        → record_refusal how words ≡ Some fault
        → record_refusal how (words ++ more) ≡ Some fault }
    ensures bytes { (how : StreamSettings) (bytes : List ℕ) (fault : Fault)
        → record_refusal how (words_of bytes) ≡ Some fault
        → Shows (streamed how) bytes (Err fault) }
{}
