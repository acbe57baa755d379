// What the photons of a scan add to.
ghost use Rattle.std.specs.Prelude.{◌≡◌, ◌+◌, ◌*◌, ◌^◌, ◌<◌, ℕ, IfSome, sum, vec_len};
ghost use Rattle.{tally_base.specs.{declared.settings.ImageSet.ImageSet, Settings.image_view}, scan_image.specs.Behind.{Counted, HowMany, with_photon}};

use tally_base::ImageSet;

/// Counts the photons of a group by their places in an image, and it may be by their dtimes too.
pub trait Pixels: Copy {
    /// How many photons are in each cell, and how many in no cell.
    type Counts;

    /// The image, and the group.
    ghost image: { Self → ImageSet };

    /// There are as many cells as these pixels have.
    ghost fits: { Self → Self.Counts → Type 0 };

    /// How many photons are counted in all.
    ghost total: { Self.Counts → ℕ };

    /// They are the counts of photons of which so many pass each test.
    ghost over: { Self → Self.Counts → HowMany → Type 0 };

    /// The image, and the group.
    fn image(&self) -> &ImageSet
        ensures { result.now ≡ image self.now };

    /// Adds so much to the count that a place and a dtime belong to: 1 for a photon of the group, and else 0.
    fn add(&self, counts: &mut Self::Counts, place: Option<(u32, u32)>, dtime: u16, more: u64)
        requires fit { fits self.now counts.old }
        requires inside { IfSome place (λ place. (place.0 < (image self.now).width) × (place.1 < (image self.now).height)) }
        requires room { total counts.old + more < 2 ^ 64 }
        ensures follows { (many : HowMany) → over self.now counts.old many
            → over self.now counts.new (with_photon many place dtime more) }
        ensures fit { fits self.now counts.new }
        ensures total { total counts.new ≡ total counts.old + more };
}

/// The counts of an image.
#[derive(Drop)]
pub struct PixelCounts {
    // Row by row, in each row by column.
    pub(crate) cells: Vec<u64>,
    pub(crate) outside: u64,
}

impl Pixels for ImageSet {
    type Counts = PixelCounts;

    ghost image = { λ set. set };

    ghost fits = { λ set counts. vec_len counts.cells ≡ set.width * set.height };

    ghost total = { λ counts. sum counts.cells.items + counts.outside };

    ghost over = { λ set counts. Counted (image_view set) counts.cells.items counts.outside };

    #[inline(always)]
    fn image(&self) -> &ImageSet {
        self
    }

    #[inline(always)]
    fn add(&self, counts: &mut PixelCounts, place: Option<(u32, u32)>, _dtime: u16, more: u64) {
        if let Some((column, row)) = place {
            counts.cells[cell_of(self, column, row)] += more;
        } else {
            counts.outside += more;
        }
    }
}

/// Where the cell of a column and a row stands.
#[inline(always)]
pub(crate) fn cell_of(set: &ImageSet, x: u32, y: u32) -> usize
    requires column { x < set.now.width }
    requires row { y < set.now.height }
    ensures place { result ≡ y * set.now.width + x }
    ensures inside { result < set.now.width * set.now.height }
{
    (y * set.width + x) as usize
}
