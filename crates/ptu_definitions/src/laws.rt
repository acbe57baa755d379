// Laws of the definitions, each as the contract of a function that does nothing.
ghost use Rattle.std.specs.{Prelude.{◌==◌, filter, ◌≡◌, ◌≢◌, ◌↔◌, ◌⊎◌, ◌++◌, ◌∷◌, [], ◌+◌, ◌<◌, ◌≤◌, ◌^◌, ℕ, List, Result, Ok, length, take, get_or}, List.Sorted.{IsPermutation, IsNonDecreasingBy}};
ghost use Rattle.{tally_base.specs.declared.{fault.Fault.Fault, header.{Header.Header, Mode.Mode}, event.Event.Event}, ptu_definitions.specs.Headers.{HasAnswer, header_answer, Shows, seen}};
ghost use Rattle.ptu_definitions.specs.{Headers.{seen_preamble, begun, IsLongestFront, HasLongestFront, HasNoFront}, TagList.{Item, IsFront, IsHeader}, Begins.{Front, BeginsWith, IsFrontOf, Nest}};
ghost use Rattle.ptu_definitions.specs.{Begins.{IsBegun, ShowsItems, ShowsNoMore}, Endings.{Ending, EndsAs, HasHeader}, Kept.{marked, kept, is_late, greatest, floor_of}, Settled.not_overtaken};
ghost use Rattle.ptu_definitions.specs.{Settled.{in_time, is_late_by, ordered, kept_by, settled_by, late_by, delivered, delivered_last, not_marked, those_marked}, Streams.{StreamSettings, refusal}};
ghost use Rattle.ptu_definitions.specs.Streams.{record_refusal, unrefused_after, events_in, given, IsFirst};
ghost use Rattle.tally_base.specs.declared.fault.Fault.TheVariants as Fault;

/// Exactly one answer applies to a file, and it is the one that the function finds.
pub fn one_answer()
    ensures { (file : List ℕ) (answer : Result (Header × List ℕ) Fault)
        → HasAnswer file answer ↔ (header_answer file ≡ answer) }
{}

/// Of the ways in which a tag list can end, one applies and no other.
pub fn one_ending()
    ensures one { (bytes : List ℕ) (a b : Ending) → EndsAs bytes a → EndsAs bytes b → a ≡ b }
    ensures some { (bytes : List ℕ) → (end : Ending) × EndsAs bytes end }
{}

/// Two fronts of the same bytes have one preamble, and one of them goes on as the other.
pub fn fronts_nest()
    ensures { (file : List ℕ) (one other : Front)
        → BeginsWith file one → BeginsWith file other → Nest one other }
{}

/// A header ends the list: each front of the same bytes has its preamble and its first items.
pub fn a_header_ends()
    ensures { (file : List ℕ) (items : List Item) (front : Front)
        (header : HasHeader file items) → BeginsWith file front
        → IsFrontOf front header.start header.inner }
{}

/// What bytes show: after whole items the front of a tag shows nothing, and a tag shows as much of
/// its body as is there.
pub fn seen_items()
    ensures tag { (start : List ℕ) (items : List Item) (front part : List ℕ)
        → IsFront start items front → length part < 48 → seen (front ++ part) ≡ items }
    ensures body { (start : List ℕ) (items : List Item) (front : List ℕ) (item : Item)
        → IsFront start items front → IsBegun item
        → seen (front ++ (item.tag ++ item.body)) ≡ items ++ item ∷ [] }
    ensures start { (bytes : List ℕ) → length bytes < 16 → (seen_preamble bytes ≡ None)
        × (seen bytes ≡ []) }
{}

/// The longest front or header says what bytes show: its preamble, its items, and of the item that
/// has begun after a front its tag and as much of its body as is there.
pub fn seen_longest()
    ensures front { (bytes start : List ℕ) (items : List Item) (front rest : List ℕ)
        → IsLongestFront bytes start items front rest
        → ShowsItems bytes start (items ++ begun rest) }
    ensures header { (start : List ℕ) (inner : List Item) (last : Item) (header rest : List ℕ)
        → IsHeader start inner last header
        → ShowsItems (header ++ rest) start (inner ++ last ∷ []) }
    ensures none { (bytes : List ℕ) → HasNoFront bytes → (seen_preamble bytes ≡ None)
        × (seen bytes ≡ []) }
{}

/// All bytes have no front, a longest front or a header.
pub fn some_longest()
    ensures { (bytes : List ℕ)
        → HasNoFront bytes
        ⊎ (HasLongestFront bytes ⊎ ((items : List Item) × HasHeader bytes items)) }
{}

/// Bytes that have an answer show all that the first bytes of the file show, whatever comes after.
pub fn seen_answered()
    ensures answered { (bytes more : List ℕ) → length bytes ≤ 2 ^ 24
        → ((count : ℕ) → header_answer bytes ≢ Err (Fault.TruncatedHeader count))
        → ShowsNoMore bytes more }
    ensures refused { (bytes more : List ℕ) (fault : Fault) → length bytes ≤ 2 ^ 24
        → Shows header_answer bytes (Err fault) → ShowsNoMore bytes more }
{}

/// No bytes show that a header is cut, since more may come after them.
pub fn no_cut_is_shown()
    ensures { (bytes : List ℕ) (count : ℕ)
        → Shows header_answer bytes (Err (Fault.TruncatedHeader count)) → ⊥ }
{}

/// Bytes after a file leave its header's answer, unless it is that the header is cut: a refusal stays,
/// and so does a header, with these bytes after it.
pub fn an_answer_stays()
    ensures refused { (file more : List ℕ) (fault : Fault) → header_answer file ≡ Err fault
        → ((count : ℕ) → fault ≢ Fault.TruncatedHeader count)
        → header_answer (file ++ more) ≡ Err fault }
    ensures header { (file more behind : List ℕ) (header : Header)
        → header_answer file ≡ Ok (header, behind)
        → header_answer (file ++ more) ≡ Ok (header, behind ++ more) }
{}

/// A stream is refused for its least record that is refused, and for that record whenever there is
/// one. What is given is what the records before it deliver, and where none is refused what all records
/// do. Whatever comes after a refused record changes neither the refusal nor what is given.
pub fn first_refusal()
    ensures first { (how : StreamSettings) (words : List ℕ) (fault : Fault)
        → record_refusal how words ≡ Some fault → IsFirst how fault [] words }
    ensures refused { (how : StreamSettings) (words : List ℕ) (fault : Fault)
        → IsFirst how fault [] words → record_refusal how words ≡ Some fault }
    ensures none { (how : StreamSettings) (words : List ℕ)
        → record_refusal how words ≡ None
        ↔ ((k d : ℕ) → k < length words → refusal how (take k words) (get_or words k d) ≡ None) }
    ensures before { (how : StreamSettings) (words : List ℕ) (fault : Fault)
        (least : IsFirst how fault [] words) → given how words ≡ events_in how least.front }
    ensures all { (how : StreamSettings) (words : List ℕ)
        → record_refusal how words ≡ None → given how words ≡ events_in how words }
    ensures stays { (how : StreamSettings) (words more : List ℕ) (fault : Fault)
        → record_refusal how words ≡ Some fault
        → record_refusal how (words ++ more) ≡ Some fault }
    ensures no_more { (how : StreamSettings) (words more : List ℕ) (fault : Fault)
        → record_refusal how words ≡ Some fault
        → given how (words ++ more) ≡ given how words }
{}

/// The words before the first that is refused are those in front of the least refused record, and all where there is
/// none.
pub fn the_words_before_a_refusal()
    ensures before { (how : StreamSettings) (words : List ℕ) (fault : Fault)
        (least : IsFirst how fault [] words) → unrefused_after how [] words ≡ least.front }
    ensures all { (how : StreamSettings) (words : List ℕ)
        → record_refusal how words ≡ None → unrefused_after how [] words ≡ words }
{}

/// The greatest time of the events in order that are not late is that of all events in order.
pub fn late_events_are_no_greatest()
    ensures { (mode : Mode) (events : List Event)
        → floor_of mode (marked mode events) ≡ greatest mode events }
{}

/// The kept list of events in order that `k` may overtake: it has each event that is not late once, in
/// order of time, and those of equal time in file order. None is late among `k` + 1 events or fewer.
pub fn kept_list()
    ensures once { (k : ℕ) (events : List Event)
        → IsPermutation (not_overtaken k events) (in_time k events) }
    ensures rising { (k : ℕ) (events : List Event)
        → IsNonDecreasingBy (λ (e : Event). e.time) (in_time k events) }
    ensures stable { (k time : ℕ) (events : List Event)
        → filter (λ (e : Event). e.time == time) (in_time k events) ≡ filter
        (λ (e : Event). e.time == time) (not_overtaken k events) }
    ensures all { (k : ℕ) (events : List Event)
        → length events ≤ k + 1 → not_overtaken k events ≡ events }
{}

/// Where `k` is 0, an event is late where some event in order before it has a greater time, and the kept
/// list is that in file order: of the events in order it has the same list.
pub fn kept_list_of_zero()
    ensures late { (mode : Mode) (before : List Event) (e : Event)
        → is_late_by 0 mode before e ≡ is_late mode before e }
    ensures kept { (mode : Mode) (events : List Event)
        → in_time 0 (ordered mode events) ≡ ordered mode (kept mode events) }
    ensures settled { (mode : Mode) (events : List Event)
        → settled_by 0 mode events ≡ kept mode events }
    ensures delivered { (mode : Mode) (events : List Event)
        → delivered 0 mode events ≡ marked mode events }
    ensures rest { (mode : Mode) (events : List Event) → delivered_last 0 mode events ≡ [] }
{}

/// What is delivered after some first events: of the events that aren't late the settled list, which
/// the rest that is delivered at the end makes the kept list, and the late events in file order.
pub fn delivered_once()
    ensures settled { (k : ℕ) (mode : Mode) (events : List Event)
        → not_marked (delivered k mode events) ≡ settled_by k mode events }
    ensures kept { (k : ℕ) (mode : Mode) (events : List Event)
        → not_marked (delivered k mode events ++ delivered_last k mode events) ≡ kept_by k mode events }
    ensures late { (k : ℕ) (mode : Mode) (events : List Event)
        → those_marked (delivered k mode events) ≡ late_by k mode events }
{}
