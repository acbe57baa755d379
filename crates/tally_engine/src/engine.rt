// All tables of a plan, and the stream that feeds them.
ghost use Rattle.std.specs.Prelude.{◌≡◌, ℕ, All, List, None, Some, false, ◌+◌, ◌*◌, ◌<◌, ◌≤◌, [], ◌++◌, length, Err, OnOk, IfOk, IfErr};
ghost use Rattle.{tally_base.specs.{declared.fault.Fault.Fault, Faults.{is_outside, fault_in}, RecordTypes.mode_of, Limits.record_limit}, record_stream.specs.Standing.{how_of, given_by, greatest_of}};
ghost use Rattle.{record_stream.specs.Standing.{refused_with, HasStreamed}, tally_engine.specs.Give.Standing, plan_text.specs.{ReadPlan.plan_view, Bound.bound as plan_bound}};
ghost use Rattle.ptu_definitions.specs.{Headers.Shows, Streams.{record_refusal, streamed}, Words.words_of};

use crate::give::close_all;
use crate::open::open_all;
use crate::part::Part;
use crate::part_taker::PartTaker;
use crate::results::Results;
use gate_plan::Gates;
use plan_text::Plan;
use record_stream::RecordStream;
use std::alloc::{AllocError, Global};
use std::sync::ledger::Ledger;
use tally_base::{Fault, Header, Steps, Tally};

/// All tables of a plan, and the stream of a file's records that feeds them.
///
/// It takes all its memory when it is opened. Beside the tables it keeps at most three bytes of a record, and as
/// many events as the plan lets overtake one.
#[derive(Drop)]
pub struct Engine {
    header: Header,
    gates: Gates,
    stream: RecordStream,
    parts: Vec<Part>,
    ghost same_mode: { (how_of stream).mode ≡ mode_of header.record_type },
    ghost standing: { refused_with stream ≡ None
        → All (Standing ⟦<Part as Tally>⟧ (mode_of header.record_type) (given_by stream) (greatest_of stream)) parts.items },
    ghost streams: { ∥ ((bytes : List ℕ) × HasStreamed stream bytes) ∥₁ },
    ghost inside: { (fault : Fault) → refused_with stream ≡ Some fault
        → is_outside fault ≡ false },
}

impl Engine {
    ghost use Rattle.tally_engine.specs.Engine.{OpensAs, TakesPiece, parts_in, reading_of, refused_by, bytes_fed, HasFed, IsFor, SameEngine, Finishes, held, bound};

    /// An engine of no bytes, for a plan and the header of a file.
    ///
    /// Refuses with `PlanMode` a part of the plan that doesn't suit the mode of the file, and else with
    /// `OutOfMemory` where there is not enough memory for a table. The greatest number of records is 1 to 2^40.
    pub fn open(alloc: Global, plan: &Plan, header: &Header) -> Result<Engine, Fault>
        requires records { (0 < plan.now.policy.records) × (plan.now.policy.records ≤ record_limit) }
        ensures answer { OpensAs (mode_of header.now.record_type) (plan_view plan.now) result }
        ensures made { IfOk result (λ engine. IsFor engine (plan_view plan.now) header.now) }
        ensures empty { IfOk result (λ engine. HasFed engine []) }
        ensures going { IfOk result (λ engine. refused_by engine ≡ None) }
        ensures bound { IfOk result (λ engine. bound engine ≡ plan_bound (plan_view plan.now)) }
        ensures within { IfOk result (λ engine. held engine ≤ bound engine) }
        ensures none { IfOk result (λ engine. bytes_fed engine ≡ 0) }
    {
        if let Err(fault) = plan.fits(header.record_type.mode()) {
            return Err(fault);
        }
        match open_all(alloc, plan) {
            Ok(parts) => Ok(Engine {
                header: *header,
                gates: Gates::of(plan),
                stream: RecordStream::new(header.record_type, plan.policy),
                parts,
            }),
            Err(AllocError) => Err(Fault::OutOfMemory),
        }
    }

    /// Takes a piece of the bytes after the header, and gives each event that isn't late to every
    /// table, a photon with its shifted dtime.
    ///
    /// Refuses one record more than the greatest number, and a wrap that makes the sum of wraps greater
    /// than 2^62. By the policy it refuses a reserved record or a late event. After a refusal it answers
    /// the same refusal to each piece.
    pub fn feed<L: Ledger>(&mut self, piece: &[u8], steps: &mut Steps<L>) -> Result<(), Fault>
        ensures taken { (bytes : List ℕ) → HasFed self.old bytes
            → HasFed self.new (bytes ++ piece.now) }
        ensures answer { refused_by self.old ≡ None → (bytes : List ℕ) → HasFed self.old bytes
            → fault_in result ≡ record_refusal (reading_of self.old)
            (words_of (bytes ++ piece.now)) }
        ensures kept { (fault : Fault) → refused_by self.old ≡ Some fault
            → (result ≡ Err fault) × (self.new ≡ self.old) }
        ensures refused { refused_by self.new ≡ fault_in result }
        ensures shown { (bytes : List ℕ) → HasFed self.old bytes
            → IfErr result (λ fault. Shows (streamed (reading_of self.old)) (bytes ++ piece.now)
            (Err fault)) }
        ensures inside { IfErr result (λ fault. is_outside fault ≡ false) }
        ensures counted { OnOk result (bytes_fed self.new ≡ bytes_fed self.old + length piece.now) }
        ensures limit { bytes_fed self.new ≤ 4 * record_limit + 3 }
        ensures same { SameEngine self.old self.new }
        ensures within { held self.new ≤ bound self.new }
    {
        if let Some(refusal) = self.stream.refusal() {
            return Err(refusal);
        }
        if self.parts.is_empty() {
            return self.pass(piece);
        }
        self.count(piece, steps)
    }

    /// Takes a piece of a plan without tables: its records are checked and counted, and no table gets their events.
    fn pass(&mut self, piece: &[u8]) -> Result<(), Fault>
        requires going { refused_by self.old ≡ None }
        requires none { length (parts_in self.old) ≡ 0 }
        ensures { TakesPiece self.old self.new piece.now result }
    {
        self.stream.pass(piece)
    }

    /// Takes a piece, and gives its events to every table.
    fn count<L: Ledger>(&mut self, piece: &[u8], steps: &mut Steps<L>) -> Result<(), Fault>
        requires going { refused_by self.old ≡ None }
        ensures { TakesPiece self.old self.new piece.now result }
    {
        let mut taker = PartTaker {
            gates: &self.gates,
            parts: &mut self.parts,
            steps,
            mode: self.header.record_type.mode(),
            taken: self.stream.given(),
            floor: self.stream.greatest(),
        };
        self.stream.feed(piece, &mut taker)
    }

    /// Gives every table the events that were kept back, closes it, and gives what was counted.
    ///
    /// Refuses bytes that end within a record, and answers again what a piece was refused for.
    pub fn finish<L: Ledger>(self, steps: &mut Steps<L>) -> Result<Results, Fault>
        ensures answer { (bytes : List ℕ) → HasFed self bytes → Finishes self bytes result }
        ensures kept { (fault : Fault) → refused_by self ≡ Some fault → result ≡ Err fault }
        ensures inside { IfErr result (λ fault. is_outside fault ≡ false) }
    {
        if let Some(refusal) = self.stream.refusal() {
            return Err(refusal);
        }
        let Engine {
            header,
            gates,
            stream,
            mut parts,
        } = self;
        let mut taker = PartTaker {
            gates: &gates,
            parts: &mut parts,
            steps: &mut *steps,
            mode: header.record_type.mode(),
            taken: stream.given(),
            floor: stream.greatest(),
        };
        let summary = stream.finish(&mut taker)?;
        close_all(&mut parts, steps);
        Ok(Results {
            header,
            summary,
            parts,
        })
    }
}
