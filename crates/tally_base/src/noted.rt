// A list that only contracts read.

ghost use Rattle.std.specs.{Prelude.{◌≡◌, List, [], ◌++◌}, Borrow.ftrue, Coded.coded_list};

use std::marker::{Model, PhantomData};

/// A list that only contracts read: the items that were noted so far, by `note`. It takes no memory, and its methods do
/// nothing at run time.
pub struct Noted<T> {
    marker: PhantomData<T>,
    pub ghost items: { List T } by { coded_list T.code },
}

impl<T> Model for Noted<T> {
    ghost also_owns = { λ _. ftrue };
}

impl<T> Noted<T> {
    /// No items.
    pub fn new() -> Noted<T>
        ensures { result.items ≡ [] }
    {
        Noted {
            marker: PhantomData,
        }
    }

    /// Adds items at the end.
    #[inline(always)]
    pub fn note(&mut self, _items: &[T])
        ensures { self.new.items ≡ self.old.items ++ _items.now }
    {}
}

impl<T> Drop for Noted<T> {
    fn drop(self) {
        let Self { marker: _ } = self;
    }
}
