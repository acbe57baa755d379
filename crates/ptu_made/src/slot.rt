// One slot of a made file.
ghost use Rattle.std.specs.Prelude.{◌≡◌, [], length, min, is_some, true, false, Some};
ghost use Rattle.{bench_io.specs.Given.GivesCount, ptu_made.specs.Unread.{bytes_left, rest_in, told_in, given_in}};

use crate::unread::Unread;
use tally_base::Noted;

/// A made file that was opened: what is still to come of it, what was given, and whether a read has
/// said the end.
#[derive(Drop)]
pub(crate) struct Begun {
    unread: Unread,
    given: Noted<u8>,
    ended: bool,
}

impl Begun {
    /// A file of which nothing was read.
    pub(crate) fn new(unread: Unread) -> Begun
        ensures unread { result.unread ≡ unread }
        ensures given { result.given.items ≡ [] }
        ensures ended { result.ended ≡ false }
    {
        Begun {
            unread,
            given: Noted::new(),
            ended: false,
        }
    }

    /// Gives as many of the bytes as there is room for.
    fn read(&mut self, into: &mut [u8]) -> usize
        ensures count { result ≡ min (length (bytes_left self.old.unread)) (length into.new) }
        ensures told { told_in (Some self.new) ≡ told_in (Some self.old) }
        ensures gives { GivesCount (given_in (Some self.old)) (given_in (Some self.new)) result into.new }
    {
        let count = self.unread.read(into);
        self.given.note(&into[..count]);
        self.ended = count == 0 && (self.ended || !into.is_empty());
        count
    }
}

/// Reads from a slot that was opened.
pub(crate) fn read_in(slot: &mut Option<Begun>, into: &mut [u8]) -> usize
    requires { is_some slot.old ≡ true }
    ensures count { result ≡ min (length (rest_in slot.old)) (length into.new) }
    ensures told { told_in slot.new ≡ told_in slot.old }
    ensures gives { GivesCount (given_in slot.old) (given_in slot.new) result into.new }
    ensures opened { is_some slot.new ≡ is_some slot.old }
{
    match slot {
        Some(begun) => begun.read(into),
        None => unreachable!(),
    }
}
