// The line of the photons that come before the next marker.
ghost use Rattle.std.specs.Prelude.{◌≡◌, ◌<◌, ◌/◌, ℕ, true, ◌≤◌, IfSome};
ghost use Rattle.tally_base.specs.Settings.{divisor_of, IsShort};

use tally_base::Divisor;

/// Which way a line runs.
#[derive(Clone, Copy, PartialEq, Eq)]
pub enum Way {
    /// From the first column to the last.
    Forwards,
    /// From the last column to the first.
    Backwards,
}

impl Way {
    ghost use Rattle.scan_image.specs.Strips.{turns};

    /// Whether it is from the last column to the first.
    #[inline(always)]
    fn turns(self) -> bool
        ensures { result ≡ turns self }
    {
        match self {
            Way::Forwards => false,
            Way::Backwards => true,
        }
    }
}

/// Where the photons that come before the next marker are: their line, where it has a row in the image.
#[derive(Clone, Copy)]
pub struct Strip {
    pub(crate) open: bool,
    // The time of the marker of the line.
    pub(crate) start: u64,
    pub(crate) row: u32,
    // Whether the line runs from the last column to the first.
    pub(crate) backwards: bool,
    pub(crate) width: u32,
    pub(crate) height: u32,
    pub(crate) dwell: Divisor,
    // A photon that comes sooner than this after the start of the line is on it, and its column is a product.
    pub(crate) near: u64,
    pub(crate) ghost inside: { row < height },
    pub(crate) ghost is_near: { (since : ℕ) → since < near
        → («open» ≡ true) × IsShort dwell since × (since / divisor_of dwell < width) },
}

impl Strip {
    ghost use Rattle.scan_image.specs.Strips.{place_on, place_behind, column_on, start_of, width_of, height_of, is_backwards, turns};

    /// Whether the line runs from the last column to the first.
    #[inline(always)]
    pub fn is_backwards(&self) -> bool
        ensures { result ≡ is_backwards self.now }
    {
        self.backwards
    }

    /// The same, where it is known which way it runs. In a loop after this the way isn't tested.
    #[inline(always)]
    pub fn facing(&self, way: Way) -> Strip
        requires { turns way ≡ is_backwards self.now }
        ensures { result ≡ self.now }
    {
        Strip {
            open: self.open,
            start: self.start,
            row: self.row,
            backwards: way.turns(),
            width: self.width,
            height: self.height,
            dwell: self.dwell,
            near: self.near,
        }
    }

    /// The column and the row of a photon at this time, which isn't below that of the marker of the line.
    #[inline(always)]
    pub fn place(&self, time: u64) -> Option<(u32, u32)>
        requires { start_of self.now ≤ time }
        ensures value { result ≡ place_on self.now time }
        ensures inside { IfSome result (λ place. (place.0 < width_of self.now) × (place.1 < height_of self.now)) }
    {
        let since = time - self.start;
        if since < self.near {
            let steps = self.dwell.short_quotient(since);
            Some((self.column(steps), self.row))
        } else {
            self.far_place(since)
        }
    }

    /// The column and the row of a photon so long after the start of the line, however long it is.
    #[inline(always)]
    fn far_place(&self, since: u64) -> Option<(u32, u32)>
        ensures value { result ≡ place_behind self.now since }
        ensures inside { IfSome result (λ place. (place.0 < width_of self.now) × (place.1 < height_of self.now)) }
    {
        if !self.open {
            return None;
        }
        let steps = self.dwell.quotient(since);
        if steps < u64::from(self.width) {
            Some((self.column(steps), self.row))
        } else {
            None
        }
    }

    /// The column so many dwell times after the start of the line, fewer than there are columns.
    #[inline(always)]
    fn column(&self, steps: u64) -> u32
        requires { steps < width_of self.now }
        ensures value { result ≡ column_on self.now steps }
        ensures inside { result < width_of self.now }
    {
        let last = self.width - 1;
        let steps = steps as u32;
        if self.backwards { last - steps } else { steps }
    }
}
