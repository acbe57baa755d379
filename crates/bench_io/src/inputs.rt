// Two inputs that count their faults.
ghost use Rattle.std.specs.{Prelude.{◌≡◌, ℕ, List, Some, true, false, OnOk, OnErr}, Io.ReadsAtMost};
ghost use Rattle.{tally_base.specs.{declared.slot.Slot.Slot, FaultCounts.FailsOnce}, bench_io.specs.{Given.{no_bytes, ReadGives, IsOf}, Inputs.{InputState, IsOpened, Keeps, KeepsOther, OpensNone}}};

use tally_base::{Failed, Slot};

/// Two inputs, one for each slot, of which a file is opened at most once and then read to its end.
///
/// It tells what its reads have given of each slot, and the contents of a name where it can. It
/// counts for each slot how often an opening and a read have failed, up to 2^64 - 1.
pub trait Inputs {
    /// What the inputs hold and what was asked of them.
    ghost state: { Self → InputState };

    /// Opens the file of a name in a slot. A slot is asked for once, whether that fails or not.
    fn open(&mut self, slot: Slot, name: &str) -> Result<(), Failed>
        requires meant { (state self.old).meant slot name.now ≡ true }
        requires first { (state self.old).asked slot ≡ false }

        ensures file { OnOk result (IsOpened ((state self.old).contents name.now) ((state self.new).told slot)) }
        ensures given { OnOk result ((state self.new).given slot ≡ no_bytes) }
        ensures opened { OnOk result ((state self.new).opened slot ≡ true) }
        ensures unopened { OnErr result ((state self.new).opened slot ≡ (state self.old).opened slot) }
        ensures asked { (state self.new).asked slot ≡ true }
        ensures cause { FailsOnce ((state self.old).open_faults slot) ((state self.new).open_faults slot) result }
        ensures reads { (state self.new).read_faults slot ≡ (state self.old).read_faults slot }
        ensures keeps { Keeps (state self.old) (state self.new) }
        ensures keeps_other { KeepsOther slot (state self.old) (state self.new) };

    /// Reads the next bytes of a slot into the front of a buffer, and says how many. 0 for a buffer
    /// that is not empty is the end.
    fn read(&mut self, slot: Slot, into: &mut [u8]) -> Result<usize, Failed>
        requires { (state self.old).opened slot ≡ true }

        ensures bound { ReadsAtMost result into.new }
        ensures gives { ReadGives ((state self.old).given slot) ((state self.new).given slot) result into.new }
        ensures cause { FailsOnce ((state self.old).read_faults slot) ((state self.new).read_faults slot) result }
        ensures keeps { Keeps (state self.old) (state self.new) }
        ensures keeps_other { KeepsOther slot (state self.old) (state self.new) }
        ensures opens_none { OpensNone (state self.old) (state self.new) };

    /// What was opened was asked for.
    ghost asked_first: { (inputs : Self) (slot : Slot) → (state inputs).opened slot ≡ true → (state inputs).asked slot ≡ true };

    /// The file that is told of a slot is one of which the reads gave what they gave.
    ghost agrees: { (inputs : Self) (slot : Slot) (file : List ℕ) →
        (state inputs).told slot ≡ Some file → IsOf ((state inputs).given slot) file };
}
