// What the levels need of room for the bins of one call.
ghost use Rattle.tau_cascade.specs.Grid.{IsEmpty};

use crate::bins::{LIST, NO_BIN};
use crate::grid::Grid;
use crate::laid::{PLACES, Window};
use lag_ring::Entry;

/// Room for bins, beside their list.
#[derive(Drop)]
pub(crate) struct Scratch {
    /// Bins on their way into a ring.
    pub(crate) spare: [Entry; LIST],
    /// Places for bins that are laid close together.
    pub(crate) window: Window,
    /// The weights of bins by index, where they are dense.
    pub(crate) grid: Grid,
}

impl Scratch {
    /// Room in which nothing is.
    #[inline(always)]
    pub(crate) fn empty() -> Scratch
        ensures { IsEmpty result.grid }
    {
        Scratch {
            spare: [NO_BIN; LIST],
            window: Window {
                places: [0; PLACES],
            },
            grid: Grid::empty(),
        }
    }
}
