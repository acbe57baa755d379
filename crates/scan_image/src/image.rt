// An image of a scan.
ghost use Rattle.std.specs.Prelude.{◌≡◌, ◌+◌, ◌*◌, ◌<◌, ◌≤◌, vec_len, length, sum, IfOk, [], false};
ghost use Rattle.{tally_base.specs.{Settings.{image_view, PartSettings.ImageSettings}, Tally.History, Limits.record_limit}, scan_image.specs.Lines.{image_of, markers_given, line_start}};

use crate::count::count_block;
use crate::lines::Lines;
use crate::pixels::{PixelCounts, Pixels, cell_of};
use std::alloc::{AllocError, Global};
use std::sync::ledger::Ledger;
use tally_base::{Block, ImageSet, Steps, TABLE_BLOCK, Tally};

/// Counts the photons of a group by their places in a scan.
///
/// The markers before a photon give it a line and a row, and the time since that line gives it a column.
/// The photons of the group that have no place in the image are counted in one number, `outside`. Times
/// are sync periods.
///
/// The lists that it keeps: the cells of `counts`.
#[derive(Drop)]
pub struct Image {
    set: ImageSet,
    lines: Lines,
    counts: PixelCounts,
    taken: u64,
    floor: u64,
    closed: bool,
    ghost sized: { vec_len counts.cells ≡ set.width * set.height },
    ghost small: { sum counts.cells.items + counts.outside ≤ taken },
    ghost of_set: { image_of lines ≡ image_view set },
    ghost few_markers: { markers_given lines ≤ taken },
    ghost begun: { line_start lines ≤ floor },
}

impl Image {
    ghost use Rattle.scan_image.{specs.ImageCounts.{in_cell, count_outside}, specs.Image.{Holds, set_of}};

    /// An image of no events, with all the memory that it ever takes, or `AllocError` where there is not enough.
    pub fn open(alloc: Global, set: ImageSet) -> Result<Image, AllocError>
        ensures set { IfOk result (λ t. set_of t ≡ set) }
        ensures settings { IfOk result (λ t. ⟦<Image as Tally>⟧.settings t ≡ ImageSettings (image_view set)) }
        ensures empty { IfOk result (λ t. Holds t []) }
        ensures opened { IfOk result (λ t. ⟦<Image as Tally>⟧.closed t ≡ false) }
    {
        Ok(Image {
            set,
            lines: Lines::new(&set),
            counts: PixelCounts {
                cells: vec![in alloc; 0; (set.width * set.height) as usize]?,
                outside: 0,
            },
            taken: 0,
            floor: 0,
            closed: false,
        })
    }

    /// What it was opened with.
    pub fn set(&self) -> &ImageSet
        ensures { result.now ≡ set_of self.now }
    {
        &self.set
    }

    /// How many photons of the group came in column `x` and row `y`, which are below the width and the
    /// height, of those that it was given so far.
    pub fn cell(&self, x: u32, y: u32) -> u64
        requires column { x < (set_of self.now).width }
        requires row { y < (set_of self.now).height }
        ensures { (h : History) → Holds self.now h → result ≡ in_cell (image_view (set_of self.now)) x y h }
    {
        self.counts.cells[cell_of(&self.set, x, y)]
    }

    /// How many photons of the group came outside the image.
    pub fn outside(&self) -> u64
        ensures { (h : History) → Holds self.now h → result ≡ count_outside (image_view (set_of self.now)) h }
    {
        self.counts.outside
    }
}

impl Tally for Image {
    ghost use Rattle.scan_image.specs.Image.{Holds, set_of, settings, within_bound, marker_groups};

    ghost holds = { Holds };

    ghost taken = { λ t. t.taken };

    ghost floor = { λ t. t.floor };

    // Its list, the rest count, the time and the row of the line, and the row of the next line.
    ghost held = { λ t. length t.counts.cells.items + 4 };

    ghost settings = { settings };

    ghost closed = { λ t. t.closed };

    ghost same_set = { λ old new. set_of new ≡ set_of old };

    ghost taken_is = { λ t h is. is.taken };

    ghost floor_is = { λ t h is. is.floor };

    ghost within = { within_bound };

    ghost marker_groups = { marker_groups };

    fn events<L: Ledger>(&mut self, block: &Block<TABLE_BLOCK>, _steps: &mut Steps<L>) {
        self.taken += block.len() as u64;
        self.floor = block.floor_after(true, self.floor);
        count_block(&self.set, &mut self.lines, &mut self.counts, block);
    }

    fn close<L: Ledger>(&mut self, _steps: &mut Steps<L>) {
        self.closed = true;
    }
}
