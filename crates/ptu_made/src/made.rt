// A made file as inputs.
ghost use Rattle.std.specs.{Prelude.{◌≡◌, ◌≤◌, true, false, length, min, unwrap_or, [], IsOk, IfOk, OnErr, OnOk}, Io.ReadsAtMost};
ghost use Rattle.{bench_io.specs.{Given.{ReadGives, no_bytes}, Inputs.{IsOpened, Keeps, KeepsOther, OpensNone}, Memory.left_of}, tally_base.specs.FaultCounts.FailsOnce};
ghost use Rattle.ptu_made.specs.{Records.made_file, Generator.photon_limit};

use crate::slot::{Begun, read_in};
use crate::unread::Unread;
use bench_io::Inputs;
use tally_base::{Failed, Slot};

/// The most photons of a made file.
pub const PHOTON_LIMIT: u64 = 10_000_000;

/// Inputs in which every name is that of one made file of photons. Its words are made while it is
/// read, so that it is never held whole. No call fails.
#[derive(Drop)]
pub struct Made {
    seed: u64,
    count: u64,
    /// The slots that were opened.
    plan: Option<Begun>,
    data: Option<Begun>,
    ghost few: { count ≤ photon_limit },
}

#[tactic(auto, unfolding(crate::specs::Made::made_state))]
impl Made {
    ghost use Rattle.ptu_made.specs.Made.{IsUnopened};

    /// The file of `count` photons of this seed, at most 10,000,000: a header of the record type
    /// HydraHarp2T2 and the words, a photon or a wrap each. It takes no memory.
    pub fn new(seed: u64, count: u64) -> Made
        requires { count ≤ photon_limit }
        ensures { IsUnopened (made_file seed count) (⟦<Made as Inputs>⟧.state result) }
    {
        Made {
            seed,
            count,
            plan: None,
            data: None,
        }
    }
}

#[tactic(auto, unfolding(crate::specs::Made::made_state))]
impl Inputs for Made {
    ghost use Rattle.ptu_made.specs.Made.{made_state, made_asked_first, made_agrees, OpensSlot, ServesSlot};

    ghost state = { made_state };

    ghost asked_first = { made_asked_first };

    ghost agrees = { made_agrees };

    fn open(&mut self, slot: Slot, name: &str) -> Result<(), Failed>
        requires meant { (made_state self.old).meant slot name.now ≡ true }
        requires first { (made_state self.old).asked slot ≡ false }

        ensures opens { OpensSlot slot name.now (made_state self.old) (made_state self.new) result }
        // No opening fails.
        ensures serves { ServesSlot slot (made_state self.old) (made_state self.new) result }
    {
        let begun = Some(Begun::new(Unread::new(self.seed, self.count)));
        match slot {
            Slot::Plan => self.plan = begun,
            Slot::Data => self.data = begun,
        }
        Ok(())
    }

    fn read(&mut self, slot: Slot, into: &mut [u8]) -> Result<usize, Failed>
        requires { (made_state self.old).opened slot ≡ true }

        ensures bound { ReadsAtMost result into.new }
        ensures gives { ReadGives ((made_state self.old).given slot) ((made_state self.new).given slot) result into.new }
        ensures cause { FailsOnce ((made_state self.old).read_faults slot) ((made_state self.new).read_faults slot) result }
        ensures opens_none { OpensNone (made_state self.old) (made_state self.new) }

        // No read fails. It gives as much as there is and as there is room for.
        ensures serves { ServesSlot slot (made_state self.old) (made_state self.new) result }
        ensures count { IfOk result (λ n. n ≡ min (length (left_of (made_state self.old) slot)) (length into.old)) }
    {
        Ok(match slot {
            Slot::Plan => read_in(&mut self.plan, into),
            Slot::Data => read_in(&mut self.data, into),
        })
    }
}
