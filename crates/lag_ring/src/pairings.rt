// How many bins were paired.
ghost use Rattle.std.specs.Prelude.{◌≡◌, ◌+◌};
ghost use Rattle.lag_ring.specs.Pairings.{paired_by};

use std::alloc::Global;
use std::marker::Model;
use tally_base::Noted;

/// How many bins the lists had that were paired. It takes no memory.
///
/// Contracts see two numbers, which only grow: how many bins the lists had together whose pairs were summed, and those of
/// which a window was begun, whether it was given up or not. It is made only where a table is opened, since an allocator is
/// needed: what sums pairs has none, so it can't make another one, note its work in that, and forget it.
#[derive(Drop)]
pub struct Pairings {
    lists: Noted<usize>,
    windows: Noted<usize>,
}

impl Model for Pairings {
    ghost use Rattle.std.specs.Prelude.{sum_by};
    ghost use Rattle.lag_ring.specs.Pairings.{Paired, paired_by, paired_code};

    ghost Value = { Paired };

    ghost coded = { paired_code };

    ghost view = { λ p. paired_by (sum_by (λ n. n) p.lists.items) (sum_by (λ n. n) p.windows.items) };
}

impl Pairings {
    /// No lists.
    pub fn open(_alloc: Global) -> Pairings
        ensures none { result ≡ paired_by 0 0 }
    {
        Pairings {
            lists: Noted::new(),
            windows: Noted::new(),
        }
    }

    /// Notes that a list of so many bins is paired.
    #[inline(always)]
    pub fn note(&mut self, bins: usize)
        ensures list { self.new ≡ paired_by (self.old.lists + bins) self.old.windows }
    {
        self.lists.note(&[bins]);
    }

    /// Notes that a window is begun for a list of so many bins.
    #[inline(always)]
    pub fn begin_window(&mut self, bins: usize)
        ensures window { self.new ≡ paired_by self.old.lists (self.old.windows + bins) }
    {
        self.windows.note(&[bins]);
    }
}
