// A cube: an image of a scan with a histogram in each pixel.
ghost use Rattle.std.specs.{Prelude.{◌≡◌, ◌+◌, ◌*◌, ◌<◌, ◌≤◌, length, sum, IfOk, [], false}, Int.div_ceil};
ghost use Rattle.{tally_base.specs.{Settings.{image_view, cube_view, PartSettings.CubeSettings}, Tally.History}, scan_image.specs.Lines.{image_of, markers_given, line_start}};
ghost use Rattle.{scan_image.specs.ImageCounts.count_outside, flim_cube.specs.Cells.counts_of};

use crate::count::{BinCounts, Bins, cell_of};
use crate::spread::Cells;
use scan_image::{Lines, Pixels, count_block};
use std::alloc::{AllocError, Global};
use std::sync::ledger::Ledger;
use tally_base::{Block, CubeSet, Steps, TABLE_BLOCK, Tally};

/// Counts the photons of a group by their places in a scan and by their dtimes.
///
/// Where a photon is, is told by the markers before it, as in an image. Bin b of a pixel counts the dtimes
/// from `b * dwidth` on and below `(b + 1) * dwidth`. The photons of the group that have no place in the
/// image are counted in one number, `outside`, and those that have one and a dtime past the last bin in
/// another, `over`. Times are sync periods, dtimes are ticks.
///
/// The lists that it keeps: the bytes of the cells of `counts`.
#[derive(Drop)]
pub struct FlimCube {
    bins: Bins,
    lines: Lines,
    counts: BinCounts,
    taken: u64,
    floor: u64,
    closed: bool,
    ghost sized: { length (counts_of counts.cells) ≡ bins.set.image.width * bins.set.image.height * bins.set.dbins },
    ghost small: { sum (counts_of counts.cells) + (counts.outside + counts.over) ≤ taken },
    ghost of_set: { image_of lines ≡ image_view bins.set.image },
    ghost few_markers: { markers_given lines ≤ taken },
    ghost begun: { line_start lines ≤ floor },
}

impl FlimCube {
    ghost use Rattle.flim_cube.{specs.CubeCounts.{in_cell, count_over}, specs.Cube.{Holds, set_of}};

    /// A cube of no events, with all the memory that it ever takes, or `AllocError` where there is not enough. Of
    /// this an eighth is in use at first: one byte for each count.
    pub fn open(alloc: Global, set: CubeSet) -> Result<FlimCube, AllocError>
        ensures set { IfOk result (λ t. set_of t ≡ set) }
        ensures settings { IfOk result (λ t. ⟦<FlimCube as Tally>⟧.settings t ≡ CubeSettings (cube_view set)) }
        ensures empty { IfOk result (λ t. Holds t []) }
        ensures opened { IfOk result (λ t. ⟦<FlimCube as Tally>⟧.closed t ≡ false) }
        ensures narrow { IfOk result (λ t. ⟦<FlimCube as Tally>⟧.held t
            ≡ div_ceil (set.image.width * set.image.height * set.dbins) 8 + 5) }
    {
        let size = set.image.width * set.image.height * set.dbins;
        Ok(FlimCube {
            bins: Bins::new(set),
            lines: Lines::new(&set.image),
            counts: BinCounts {
                cells: Cells::open(alloc, size)?,
                outside: 0,
                over: 0,
            },
            taken: 0,
            floor: 0,
            closed: false,
        })
    }

    /// What it was opened with.
    pub fn set(&self) -> &CubeSet
        ensures { result.now ≡ set_of self.now }
    {
        &self.bins.set
    }

    /// How many photons of the group came in column `x` and row `y` with their dtime in bin `b`, which are
    /// below the width, the height and the number of bins, of those that it was given so far.
    pub fn cell(&self, x: u32, y: u32, b: u32) -> u64
        requires column { x < (set_of self.now).image.width }
        requires row { y < (set_of self.now).image.height }
        requires bin { b < (set_of self.now).dbins }
        ensures { (h : History) → Holds self.now h → result ≡ in_cell (cube_view (set_of self.now)) x y b h }
    {
        self.counts.cells.get(cell_of(&self.bins.set, x, y, b))
    }

    /// How many photons of the group came outside the image.
    pub fn outside(&self) -> u64
        ensures { (h : History) → Holds self.now h → result ≡ count_outside (image_view (set_of self.now).image) h }
    {
        self.counts.outside
    }

    /// How many photons of the group came in the image with a dtime at or past the end of the last bin.
    pub fn over(&self) -> u64
        ensures { (h : History) → Holds self.now h → result ≡ count_over (cube_view (set_of self.now)) h }
    {
        self.counts.over
    }
}

impl Tally for FlimCube {
    ghost use Rattle.flim_cube.{specs.Cells.entries_of, specs.Cube.{Holds, set_of, settings, within_bound, marker_groups}};

    ghost holds = { Holds };

    ghost taken = { λ t. t.taken };

    ghost floor = { λ t. t.floor };

    // Its list, by eight bytes, the two rest counts, the time and the row of the line, and the row of the next line.
    ghost held = { λ t. entries_of t.counts.cells + 5 };

    ghost settings = { settings };

    ghost closed = { λ t. t.closed };

    ghost same_set = { λ old new. set_of new ≡ set_of old };

    ghost taken_is = { λ t h is. is.taken };

    ghost floor_is = { λ t h is. is.floor };

    ghost within = { within_bound };

    ghost marker_groups = { marker_groups };

    fn events<L: Ledger>(&mut self, block: &Block<TABLE_BLOCK>, _steps: &mut Steps<L>) {
        self.taken += block.len() as u64;
        self.floor = block.floor_after(true, self.floor);
        count_block(&self.bins, &mut self.lines, &mut self.counts, block);
    }

    fn close<L: Ledger>(&mut self, _steps: &mut Steps<L>) {
        self.closed = true;
    }
}
