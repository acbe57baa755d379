// Inputs in memory, which tell everything.
ghost use Rattle.std.specs.{Prelude.{◌≡◌, ◌↔◌, true, false, length, min, IsSome, IsOk, IfOk, OnErr, OnOk}, Io.ReadsAtMost};
ghost use Rattle.{tally_base.specs.FaultCounts.FailsOnce, bench_io.specs.{Given.{no_bytes, ReadGives}, Inputs.{IsOpened, Keeps, KeepsOther, OpensNone}, Memory.{file_named, IsFresh, IsFailing}}};
ghost use Rattle.bench_io.specs.{Memory.{given_of, after_open, after_read, left_of, CountsOpening, CountsReading}, MemorySlots.{input_state, memory_state}};

use crate::failing_calls::FailingCalls;
use crate::inputs::Inputs;
use crate::memory_file::MemoryFile;
use crate::memory_slot::MemorySlot;
use crate::piece_limits::PieceLimits;
use tally_base::{Failed, Slot};

/// Inputs over files in memory. They tell everything.
#[derive(Drop)]
pub struct MemoryInputs {
    files: Vec<MemoryFile>,
    limits: PieceLimits,
    calls: FailingCalls,
    plan: MemorySlot,
    data: MemorySlot,
}

#[tactic(auto, unfolding(crate::specs::MemorySlots::input_state, crate::specs::MemorySlots::memory_state))]
impl MemoryInputs {
    /// Inputs over these files, of which the first of a name counts. They take no memory.
    ///
    /// The calls of `open` and `read` are numbered from 1, and those in `failing` fail. The reads
    /// alone go by the entries of `pieces`, taken round and round, and give at most so many bytes.
    /// 0 is taken as 1, and with no entry a read is not limited.
    pub fn new(files: Vec<MemoryFile>, pieces: Vec<usize>, failing: Vec<u64>) -> MemoryInputs
        ensures fresh { IsFresh files.items (⟦<MemoryInputs as Inputs>⟧.state result) }
        ensures state { memory_state result ≡ record {
          files = files.items;
          pieces = pieces.items;
          turn = 0;
          failing = failing.items;
          calls = 0;
        } }
    {
        MemoryInputs {
            files,
            limits: PieceLimits::new(pieces),
            calls: FailingCalls::new(failing),
            plan: MemorySlot::new(),
            data: MemorySlot::new(),
        }
    }
}

#[tactic(auto, unfolding(crate::specs::MemorySlots::input_state, crate::specs::MemorySlots::memory_state))]
impl Inputs for MemoryInputs {
    ghost use Rattle.bench_io.specs.MemorySlots.{slots_asked_first, slots_agree};

    ghost state = { input_state };

    ghost asked_first = { slots_asked_first };

    ghost agrees = { slots_agree };

    fn open(&mut self, slot: Slot, name: &str) -> Result<(), Failed>
        requires meant { (input_state self.old).meant slot name.now ≡ true }
        requires first { (input_state self.old).asked slot ≡ false }

        ensures file { OnOk result (IsOpened ((input_state self.old).contents name.now) ((input_state self.new).told slot)) }
        ensures given { OnOk result ((input_state self.new).given slot ≡ no_bytes) }
        ensures opened { OnOk result ((input_state self.new).opened slot ≡ true) }
        ensures unopened { OnErr result ((input_state self.new).opened slot ≡ (input_state self.old).opened slot) }
        ensures asked { (input_state self.new).asked slot ≡ true }
        ensures cause { FailsOnce ((input_state self.old).open_faults slot) ((input_state self.new).open_faults slot) result }
        ensures reads { (input_state self.new).read_faults slot ≡ (input_state self.old).read_faults slot }
        ensures keeps { Keeps (input_state self.old) (input_state self.new) }
        ensures keeps_other { KeepsOther slot (input_state self.old) (input_state self.new) }

        // The call fails where its number is in the list, and where there is no such file.
        ensures succeeds { IsOk result ↔
            ((¬ IsFailing (memory_state self.old))
            × IsSome (file_named (memory_state self.old).files name.now)) }
        ensures counts { CountsOpening slot (input_state self.old) (input_state self.new) result }
        ensures goes_on { memory_state self.new ≡ after_open (memory_state self.old) }
    {
        let fails = self.calls.fails_next();
        match slot {
            Slot::Plan => self.plan.open(&self.files, name, fails),
            Slot::Data => self.data.open(&self.files, name, fails),
        }
    }

    fn read(&mut self, slot: Slot, into: &mut [u8]) -> Result<usize, Failed>
        requires { (input_state self.old).opened slot ≡ true }

        ensures bound { ReadsAtMost result into.new }
        ensures gives { ReadGives ((input_state self.old).given slot) ((input_state self.new).given slot) result into.new }
        ensures cause { FailsOnce ((input_state self.old).read_faults slot) ((input_state self.new).read_faults slot) result }
        ensures keeps { Keeps (input_state self.old) (input_state self.new) }
        ensures keeps_other { KeepsOther slot (input_state self.old) (input_state self.new) }
        ensures opens_none { OpensNone (input_state self.old) (input_state self.new) }

        // The call fails only where its number is in the list. It gives as much as there is, as
        // there is room for and as its entry allows.
        ensures succeeds { IsOk result ↔ (¬ IsFailing (memory_state self.old)) }
        ensures count { IfOk result (λ n. n ≡ given_of (memory_state self.old)
            (min (length (left_of (input_state self.old) slot)) (length into.old))) }
        ensures counts { CountsReading slot (input_state self.old) (input_state self.new) result }
        ensures goes_on { memory_state self.new ≡ after_read (memory_state self.old) }
    {
        let fails = self.calls.fails_next();
        let entry = self.limits.next_entry();
        match slot {
            Slot::Plan => self.plan.read(&self.files, into, entry, fails),
            Slot::Data => self.data.read(&self.files, into, entry, fails),
        }
    }
}
