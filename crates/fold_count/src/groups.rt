// The groups of a fold that a photon is in, as a set.
ghost use Rattle.std.specs.Prelude.{◌≡◌, ◌^◌, ◌<◌, ◌≤◌, length, if◌then◌else◌};
ghost use Rattle.{tally_base.specs.Events.is_in, fold_count.specs.{FoldCounts.number_of, Folded.AreNumbers}};

use tally_base::is_in;

/// A bit, where a group is among these groups, and else 0.
#[inline(always)]
fn bit_of(group: u8, groups: u64, bit: u64) -> u64
    requires { (0 < group) × (group ≤ 64) }
    ensures { result ≡ (if is_in groups group then bit else 0) }
{
    if is_in(groups, group) { bit } else { 0 }
}

/// The set of a fold's groups that are among these groups, where bit g - 1 stands for group g. In the set,
/// which is a number too, bit k - 1 is set for the k-th group of the fold.
#[inline(always)]
pub(crate) fn set_in(own: &[u8], groups: u64) -> u64
    requires numbers { AreNumbers own.now }
    requires few { length own.now ≤ 6 }
    ensures set { result ≡ number_of (λ group. is_in groups group) own.now }
    ensures inside { result < 2 ^ length own.now }
{
    let mut set = 0;
    let mut bit = 1;
    for group in own {
        set += bit_of(*group, groups, bit);
        bit *= 2;
    }
    set
}
