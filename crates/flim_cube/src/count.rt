// What the photons of a cube add to.
ghost use Rattle.std.specs.Prelude.{◌≡◌, ◌+◌, ◌*◌, ◌/◌, ◌<◌, ◌≤◌, sum, length};
ghost use Rattle.tally_base.specs.Settings.{cube_view, divisor_of};

use crate::spread::Cells;
use scan_image::Pixels;
use tally_base::{CubeSet, Divisor, ImageSet};

/// The pixels of a cube, each with its bins.
#[derive(Clone, Copy)]
pub struct Bins {
    pub(crate) set: CubeSet,
    // Divides by the width of a bin.
    ticks: Divisor,
    ghost width: { divisor_of ticks ≡ set.dwidth },
}

/// The counts of a cube.
#[derive(Drop)]
pub struct BinCounts {
    // Row by row, in each row by column, in each column by bin.
    pub(crate) cells: Cells,
    // Those without a place in the image.
    pub(crate) outside: u64,
    // Those in the image with a dtime past the last bin.
    pub(crate) over: u64,
}

impl Pixels for Bins {
    ghost use Rattle.flim_cube.{specs.Cells.counts_of, specs.Cube.Counted};

    type Counts = BinCounts;

    ghost image = { λ bins. bins.set.image };

    ghost fits = { λ bins counts. length (counts_of counts.cells)
        ≡ bins.set.image.width * bins.set.image.height * bins.set.dbins };

    ghost total = { λ counts. sum (counts_of counts.cells) + (counts.outside + counts.over) };

    ghost over = { λ bins counts. Counted (cube_view bins.set) (counts_of counts.cells) counts.outside counts.over };

    #[inline(always)]
    fn image(&self) -> &ImageSet {
        &self.set.image
    }

    #[inline(always)]
    fn add(&self, counts: &mut BinCounts, place: Option<(u32, u32)>, dtime: u16, more: u64) {
        let bin = bin_by(&self.ticks, dtime);
        match place {
            None => counts.outside += more,
            Some(_) if bin >= self.set.dbins => counts.over += more,
            Some((column, row)) => counts.cells.add(cell_of(&self.set, column, row, bin), more),
        }
    }
}

impl Bins {
    /// The bins of a cube that was opened with these settings.
    pub(crate) fn new(set: CubeSet) -> Bins
        ensures { result.set ≡ set }
    {
        Bins {
            set,
            ticks: Divisor::new(u64::from(set.dwidth)),
        }
    }
}

/// The bin of a dtime, or the one where it would be after the last, by a product.
#[inline(always)]
fn bin_by(ticks: &Divisor, dtime: u16) -> u32
    requires { divisor_of ticks.now ≤ 32768 }
    ensures { result ≡ dtime / divisor_of ticks.now }
{
    ticks.short_quotient(u64::from(dtime)) as u32
}

/// Where the cell of a column, a row and a bin stands.
#[inline(always)]
pub(crate) fn cell_of(set: &CubeSet, x: u32, y: u32, b: u32) -> usize
    requires column { x < set.now.image.width }
    requires row { y < set.now.image.height }
    requires bin { b < set.now.dbins }
    ensures place { result ≡ (y * set.now.image.width + x) * set.now.dbins + b }
    ensures inside { result < set.now.image.width * set.now.image.height * set.now.dbins }
{
    ((y * set.image.width + x) * set.dbins + b) as usize
}
