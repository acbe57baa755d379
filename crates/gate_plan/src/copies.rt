// Groups again, since they are no plain numbers.
ghost use Rattle.std.specs.Prelude.{◌≡◌, ◌≤◌, map, length};
ghost use Rattle.tally_base.specs.Settings.{group_view};

use arrayvec::ArrayVec;
use tally_base::Group;

/// The same groups.
pub(crate) fn clone_groups(groups: &ArrayVec<Group, 64>) -> ArrayVec<Group, 64>
    ensures same { map group_view result.items ≡ map group_view groups.now.items }
    ensures few { length result.items ≤ 64 }
{
    let items = groups.as_slice();
    let mut again: ArrayVec<Group, 64> = ArrayVec::new();
    'groups: for group in items {
        again.push(group_again(group));
    }
    again
}

/// The same group.
fn group_again(group: &Group) -> Group
    ensures { group_view result ≡ group_view group.now }
{
    Group {
        inputs: group.inputs,
        gates: gates_again(group.gates.as_slice()),
    }
}

/// The same gates.
pub(crate) fn gates_again(gates: &[(u16, u16)]) -> ArrayVec<(u16, u16), 8>
    requires few { length gates.now ≤ 8 }
    ensures { result.items ≡ gates.now }
{
    let mut again: ArrayVec<(u16, u16), 8> = ArrayVec::new();
    let _ = again.try_extend_from_slice(gates);
    again
}
