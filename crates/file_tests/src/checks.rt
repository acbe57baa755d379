// What tests check.
ghost use Rattle.std.specs.Prelude.{◌≡◌, true, OnOk};

use std::test::Fail;

/// A check of a test, with its number, or that of the row that it is of.
pub(crate) fn holds(right: bool, check: usize) -> Result<(), Fail>
    ensures { OnOk result (right ≡ true) }
{
    if right {
        return Ok(());
    }
    Err(Fail::new(check))
}
