// The faults of the program, each with its exit status and its line.
ghost use Rattle.std.specs.Prelude.{◌≡◌, ◌+◌, ◌≤◌, ◌++◌, length, codes, decimal};
ghost use Rattle.{arrayvec.specs.ArrayVec.array_vec_len, tally_base.specs.Faults.{status_of, reason_of, line_of, kind_name, mode_name, slot_name}};

use crate::header::Mode;
use crate::line::{put_decimal, put_hexadecimal, put_signed, put_text};
use crate::part::PartKind;
use crate::slot::Slot;
use arrayvec::ArrayVec;

/// Why a run ends with a status other than 0. Tags and records are numbered from 1.
#[derive(Clone, Copy, PartialEq, Eq)]
pub enum Fault {
    /// The words are no command.
    Usage,
    /// An input could not be opened.
    OpenFault {
        slot: Slot,
    },
    /// A read of an input failed.
    ReadFault {
        slot: Slot,
    },
    /// A write to standard output failed.
    WriteFault,
    /// Memory was refused.
    OutOfMemory,
    /// The plan has more than 65,536 bytes.
    PlanTooLong,
    /// The plan is no TOML document.
    PlanSyntax,
    /// The plan breaks a rule, at the member of this number.
    PlanRule {
        rule: u8,
        index: u16,
    },
    /// A part of the plan does not suit the mode of the file. For a gate, the index is its group's number.
    PlanMode {
        kind: PartKind,
        index: u8,
        mode: Mode,
    },
    /// The file does not begin with the magic of a PTU file.
    BadMagic,
    /// The file ends before its header does, after this many bytes.
    TruncatedHeader {
        bytes: u64,
    },
    /// The tag of this number has a type code that is no type's.
    TagType {
        tag: u32,
        code: u32,
    },
    /// The tag of this number has a body of a negative length.
    TagLength {
        tag: u32,
        length: i64,
    },
    /// The header has no record type.
    NoRecordType,
    /// The header has a record type that is unknown.
    UnknownRecordType {
        value: i64,
    },
    /// The header is longer than 16,777,216 bytes.
    HeaderLimit,
    /// The file ends within a record, of which it has this many bytes.
    TruncatedRecord {
        bytes: u8,
    },
    /// The record of this number is reserved, and the plan stops there.
    ReservedRecord {
        place: u64,
        word: u32,
    },
    /// The record of this number has a time below an earlier one, and the plan stops there.
    BackwardTime {
        place: u64,
        time: u64,
        before: u64,
    },
    /// The file has more records than this.
    RecordLimit {
        limit: u64,
    },
    /// The record of this number makes the time greater than a time can be.
    TimeLimit {
        place: u64,
    },
    /// The plan has no trace, and the command prints one.
    NoTrace,
    /// The plan has no group of this number, and the command writes its photons.
    NoGroup {
        group: u64,
    },
    /// The photon at the record of this number comes too late to be written.
    PickTime {
        place: u64,
    },
}

impl Fault {
    /// The exit status of a run that ends with this fault.
    pub fn status(&self) -> u8
        ensures { result ≡ status_of self.now }
    {
        match self {
            Fault::Usage => 1,
            Fault::OpenFault { .. } => 2,
            Fault::ReadFault { .. } => 3,
            Fault::WriteFault => 4,
            Fault::OutOfMemory => 5,
            Fault::PlanTooLong => 6,
            Fault::PlanSyntax => 7,
            Fault::PlanRule { .. } => 8,
            Fault::PlanMode { .. } => 9,
            Fault::BadMagic => 10,
            Fault::TruncatedHeader { .. } => 11,
            Fault::TagType { .. } => 12,
            Fault::TagLength { .. } => 13,
            Fault::NoRecordType => 14,
            Fault::UnknownRecordType { .. } => 15,
            Fault::HeaderLimit => 16,
            Fault::TruncatedRecord { .. } => 17,
            Fault::ReservedRecord { .. } => 18,
            Fault::BackwardTime { .. } => 19,
            Fault::RecordLimit { .. } => 20,
            Fault::TimeLimit { .. } => 21,
            Fault::NoTrace => 22,
            Fault::NoGroup { .. } => 23,
            Fault::PickTime { .. } => 24,
        }
    }
}

/// Leaves exactly the fault's line in `into`, with its newline. Every line has at most 93 bytes.
pub fn fault_line(fault: &Fault, into: &mut ArrayVec<u8, 96>)
    ensures line { into.new.items ≡ line_of fault.now }
    ensures short { array_vec_len into.new ≤ 93 }
{
    into.clear();
    put_text(into, b"ptu: ");
    put_reason(into, fault);
    put_text(into, b"\n");
}

/// Appends what a fault says, at most 87 bytes.
fn put_reason(into: &mut ArrayVec<u8, 96>, fault: &Fault)
    requires { array_vec_len into.old ≤ 5 }
    ensures items { into.new.items ≡ into.old.items ++ reason_of fault.now }
    ensures len { array_vec_len into.new ≤ array_vec_len into.old + 87 }
{
    match fault {
        Fault::Usage => put_text(into, b"bad command line"),
        Fault::OpenFault { slot } => put_two(into, b"cannot open the ", slot_text(*slot)),
        Fault::ReadFault { slot } => put_two(into, b"cannot read the ", slot_text(*slot)),
        Fault::WriteFault => put_text(into, b"cannot write"),
        Fault::OutOfMemory => put_text(into, b"out of memory"),
        Fault::PlanTooLong => put_text(into, b"plan longer than 65536 bytes"),
        Fault::PlanSyntax => put_text(into, b"plan is not TOML"),
        Fault::PlanRule { rule, index } => put_text(into, plan_rule_text(*rule, *index).as_slice()),
        Fault::PlanMode { kind, index, mode } => put_text(
            into,
            plan_mode_text(*kind, *index, *mode).as_slice(),
        ),
        Fault::BadMagic => put_text(into, b"not a PTU file"),
        Fault::TruncatedHeader { bytes } => {
            put_around(into, b"header cut after ", *bytes, b" bytes");
        }
        Fault::TagType { tag, code } => put_text(into, tag_type_text(*tag, *code).as_slice()),
        Fault::TagLength { tag, length } => put_text(
            into,
            tag_length_text(*tag, *length).as_slice(),
        ),
        Fault::NoRecordType => put_text(into, b"no record type"),
        Fault::UnknownRecordType { value } => put_text(into, record_type_text(*value).as_slice()),
        Fault::HeaderLimit => put_text(into, b"header longer than 16777216 bytes"),
        Fault::TruncatedRecord { bytes } => {
            put_around(into, b"", *bytes as u64, b" bytes of a record at the end");
        }
        Fault::ReservedRecord { place, word } => put_text(
            into,
            reserved_text(*place, *word).as_slice(),
        ),
        Fault::BackwardTime {
            place,
            time,
            before,
        } => {
            put_text(into, backward_text(*place, *before, *time).as_slice());
        }
        Fault::RecordLimit { limit } => put_around(into, b"more than ", *limit, b" records"),
        Fault::TimeLimit { place } => put_record(into, *place, b" passes the greatest time"),
        Fault::NoTrace => put_text(into, b"plan has no trace"),
        Fault::NoGroup { group } => put_around(into, b"plan has no group ", *group, b""),
        Fault::PickTime { place } => put_record(into, *place, b" is too late to write"),
    }
}

/// Appends two texts.
fn put_two(into: &mut ArrayVec<u8, 96>, first: &[u8], second: &str)
    requires { array_vec_len into.old + length first.now + length second.now ≤ 96 }
    ensures items { into.new.items ≡ into.old.items ++ (first.now ++ second.now) }
    ensures len { array_vec_len into.new ≡ array_vec_len into.old + length first.now + length second.now }
{
    put_text(into, first);
    put_text(into, second.as_bytes());
}

/// Appends a number between two texts.
fn put_around(into: &mut ArrayVec<u8, 96>, before: &[u8], number: u64, behind: &[u8])
    requires { array_vec_len into.old + length before.now + 20 + length behind.now ≤ 96 }
    ensures items { into.new.items ≡ into.old.items ++
        (before.now ++ decimal number ++ behind.now) }
    ensures len { array_vec_len into.new ≤ array_vec_len into.old + length before.now + 20 + length behind.now }
{
    put_text(into, before);
    put_decimal(into, number);
    put_text(into, behind);
}

/// Appends the number of a record with a text after it.
fn put_record(into: &mut ArrayVec<u8, 96>, place: u64, behind: &[u8])
    requires { array_vec_len into.old + 27 + length behind.now ≤ 96 }
    ensures items { into.new.items ≡ into.old.items ++
        (codes "record " ++ decimal place ++ behind.now) }
    ensures len { array_vec_len into.new ≤ array_vec_len into.old + 27 + length behind.now }
{
    put_around(into, b"record ", place, behind);
}

fn plan_rule_text(rule: u8, index: u16) -> ArrayVec<u8, 87>
    ensures { result.items ≡ reason_of (Fault.PlanRule rule index) }
{
    let mut text = ArrayVec::new();
    put_text(&mut text, b"plan breaks rule ");
    put_decimal(&mut text, rule as u64);
    put_text(&mut text, b" at ");
    put_decimal(&mut text, index as u64);
    text
}

fn plan_mode_text(kind: PartKind, index: u8, mode: Mode) -> ArrayVec<u8, 87>
    ensures { result.items ≡ reason_of (Fault.PlanMode kind index mode) }
{
    let mut text = ArrayVec::new();
    put_text(&mut text, kind_text(kind).as_bytes());
    put_text(&mut text, b" ");
    put_decimal(&mut text, index as u64);
    put_text(&mut text, b" does not suit ");
    put_text(&mut text, mode_text(mode).as_bytes());
    text
}

fn tag_type_text(tag: u32, code: u32) -> ArrayVec<u8, 87>
    ensures { result.items ≡ reason_of (Fault.TagType tag code) }
{
    let mut text = ArrayVec::new();
    put_text(&mut text, b"tag ");
    put_decimal(&mut text, tag as u64);
    put_text(&mut text, b" has type ");
    put_hexadecimal(&mut text, code as u64, 8);
    text
}

fn tag_length_text(tag: u32, length: i64) -> ArrayVec<u8, 87>
    ensures { result.items ≡ reason_of (Fault.TagLength tag length) }
{
    let mut text = ArrayVec::new();
    put_text(&mut text, b"tag ");
    put_decimal(&mut text, tag as u64);
    put_text(&mut text, b" has length ");
    put_signed(&mut text, length);
    text
}

fn record_type_text(value: i64) -> ArrayVec<u8, 87>
    ensures { result.items ≡ reason_of (Fault.UnknownRecordType value) }
{
    let mut text = ArrayVec::new();
    put_text(&mut text, b"record type ");
    put_hexadecimal(&mut text, value.cast_unsigned(), 16);
    text
}

fn reserved_text(place: u64, word: u32) -> ArrayVec<u8, 87>
    ensures { result.items ≡ reason_of (Fault.ReservedRecord place word) }
{
    let mut text = ArrayVec::new();
    put_text(&mut text, b"record ");
    put_decimal(&mut text, place);
    put_text(&mut text, b" is reserved: ");
    put_hexadecimal(&mut text, word as u64, 8);
    text
}

fn backward_text(place: u64, before: u64, time: u64) -> ArrayVec<u8, 87>
    ensures { result.items ≡ reason_of (Fault.BackwardTime place time before) }
{
    let mut text = ArrayVec::new();
    put_text(&mut text, b"record ");
    put_decimal(&mut text, place);
    put_text(&mut text, b" goes back from ");
    put_decimal(&mut text, before);
    put_text(&mut text, b" to ");
    put_decimal(&mut text, time);
    text
}

fn kind_text(kind: PartKind) -> &'static str
    ensures text { result.now ≡ kind_name kind }
    ensures short { length result.now ≤ 11 }
{
    match kind {
        PartKind::Gate => "gate",
        PartKind::Shift => "shift",
        PartKind::Histogram => "histogram",
        PartKind::StartStop => "startstop",
        PartKind::Coincidence => "coincidence",
        PartKind::Image => "image",
        PartKind::Cube => "cube",
        PartKind::Fold => "fold",
    }
}

fn mode_text(mode: Mode) -> &'static str
    ensures text { result.now ≡ mode_name mode }
    ensures short { length result.now ≤ 2 }
{
    match mode {
        Mode::T2 => "T2",
        Mode::T3 => "T3",
    }
}

fn slot_text(slot: Slot) -> &'static str
    ensures text { result.now ≡ slot_name slot }
    ensures short { length result.now ≤ 4 }
{
    match slot {
        Slot::Plan => "plan",
        Slot::Data => "data",
    }
}
