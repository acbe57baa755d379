// The settings of the groups and tables of a plan. Each has its ranges as facts of its type.
ghost use Rattle.std.specs.{Prelude.{◌≡◌, ◌*◌, ◌%◌, ◌^◌, ◌<◌, ◌≤◌, length}, Option.ForSome};
ghost use Rattle.tally_base.specs.{Gates.{AreGates, AreGates-prop, AreGroups, AreGroups-prop}, Limits.wrap_limit};

use arrayvec::ArrayVec;

/// The photons of some inputs, and of some ranges of the dtimes.
#[derive(Drop)]
pub struct Group {
    /// Bit n is set for the input n, 0 to 64. There is at least one.
    pub inputs: u128,
    /// The gates, ranges of the dtimes of the group in ticks, each from its first on and below its
    /// second. They are at most 32,768, and rise. Without a gate every dtime is of the group.
    pub gates: ArrayVec<(u16, u16), 8>,
    pub ghost some_inputs: { (0 < inputs) × (inputs < 2 ^ 65) },
    pub ghost rising_gates: { AreGates 0 gates.items } by { AreGates-prop 0 gates.items },
}

/// What is added to the dtimes of an input, modulo the period of the plan.
#[derive(Clone, Copy, Debug)]
pub struct ShiftSet {
    /// The input, 0 to 64.
    pub input: u8,
    /// How many ticks are added, below 32,768.
    pub shift: u16,
    pub ghost of_input: { input ≤ 64 },
    pub ghost some_shift: { shift < 32768 },
}

/// A histogram of the photons of a group by their dtimes.
#[derive(Clone, Copy, Debug)]
pub struct HistSet {
    /// The number of the group, from 1.
    pub group: u8,
    /// How many ticks of the dtime a bin has, 1 to 32,768.
    pub width: u32,
    /// How many bins there are, 1 to 32,768.
    pub bins: u32,
    pub ghost of_group: { (0 < group) × (group ≤ 64) },
    pub ghost some_width: { (0 < width) × (width ≤ 32768) },
    pub ghost some_bins: { (0 < bins) × (bins ≤ 32768) },
}

/// A trace of the photons of a group over the time of the file.
#[derive(Clone, Copy, Debug)]
pub struct TraceSet {
    /// The number of the group, from 1.
    pub group: u8,
    /// The time at which the first bin begins, at most 2^62, in ticks in T2 and sync periods in T3.
    pub origin: u64,
    /// How much time a bin has, 1 to 2^62.
    pub width: u64,
    /// How many bins there are, 1 to 2^20.
    pub bins: u32,
    pub ghost of_group: { (0 < group) × (group ≤ 64) },
    pub ghost some_origin: { origin ≤ wrap_limit },
    pub ghost some_width: { (0 < width) × (width ≤ wrap_limit) },
    pub ghost some_bins: { (0 < bins) × (bins ≤ 2 ^ 20) },
}

/// A table of the times between neighbours among the photons of either group, from one of the start group
/// to one of the stop group. For T2 files.
#[derive(Clone, Copy, Debug)]
pub struct StartStopSet {
    /// The number of the group that starts, from 1.
    pub start: u8,
    /// The number of the group that stops, from 1.
    pub stop: u8,
    /// How many ticks a bin has, 1 to 2^62.
    pub width: u64,
    /// How many bins there are, 1 to 32,768.
    pub bins: u32,
    pub ghost of_start: { (0 < start) × (start ≤ 64) },
    pub ghost of_stop: { (0 < stop) × (stop ≤ 64) },
    pub ghost some_width: { (0 < width) × (width ≤ wrap_limit) },
    pub ghost some_bins: { (0 < bins) × (bins ≤ 32768) },
}

/// A table of the pairs of photons of two groups by their difference in time. For T2 files.
#[derive(Clone, Copy, Debug)]
pub struct CoincidenceSet {
    /// The number of the group of the first photon, from 1.
    pub first: u8,
    /// The number of the group of the second photon, from 1.
    pub second: u8,
    /// The greatest difference that counts, 1 to 2^20 ticks.
    pub reach: u32,
    /// How many ticks a cell has, 1 to 2^21.
    pub width: u32,
    pub ghost of_first: { (0 < first) × (first ≤ 64) },
    pub ghost of_second: { (0 < second) × (second ≤ 64) },
    pub ghost some_reach: { (0 < reach) × (reach ≤ 2 ^ 20) },
    pub ghost some_width: { (0 < width) × (width ≤ 2 ^ 21) },
}

/// An image of a scan. For T3 files.
#[derive(Clone, Copy, Debug)]
pub struct ImageSet {
    /// The number of the group, from 1.
    pub group: u8,
    /// How many columns there are, 1 to 2,048.
    pub width: u32,
    /// How many rows there are, 1 to 2,048.
    pub height: u32,
    /// How many sync periods a column takes, 1 to 2^62.
    pub dwell: u64,
    /// The number of the marker bit of a line, 1 to 4.
    pub line: u8,
    /// The number of the marker bit of a frame, 1 to 4.
    pub frame: Option<u8>,
    /// The number of the marker bit that ends a line, 1 to 4.
    pub stop: Option<u8>,
    /// Whether the odd rows are run through backwards, from the last column to the first.
    pub serpentine: bool,
    pub ghost of_group: { (0 < group) × (group ≤ 64) },
    pub ghost some_width: { (0 < width) × (width ≤ 2048) },
    pub ghost some_height: { (0 < height) × (height ≤ 2048) },
    pub ghost some_dwell: { (0 < dwell) × (dwell ≤ wrap_limit) },
    pub ghost some_line: { (0 < line) × (line ≤ 4) },
    pub ghost some_frame: { ForSome frame (λ bit. (0 < bit) × (bit ≤ 4)) },
    pub ghost some_stop: { ForSome stop (λ bit. (0 < bit) × (bit ≤ 4)) },
}

/// An image of a scan with a histogram of the dtimes in each pixel. For T3 files.
#[derive(Clone, Copy, Debug)]
pub struct CubeSet {
    /// The image, whose pixels are width times height.
    pub image: ImageSet,
    /// How many ticks of the dtime a bin has, 1 to 32,768.
    pub dwidth: u32,
    /// How many bins a pixel has, 1 to 32,768. All pixels together have at most 2^26.
    pub dbins: u32,
    pub ghost some_dwidth: { (0 < dwidth) × (dwidth ≤ 32768) },
    pub ghost some_dbins: { (0 < dbins) × (dbins ≤ 32768) },
    pub ghost few_cells: { image.width * image.height * dbins ≤ 2 ^ 26 },
}

/// A table of the sets of groups that have a photon in the window that begins at a photon. For T2 files.
#[derive(Drop)]
pub struct FoldSet {
    /// The numbers of the groups, 1 to 6 of them, from 1 to 64 and rising.
    pub groups: ArrayVec<u8, 6>,
    /// How many ticks after its first the last tick of a window is, 1 to 2^20.
    pub window: u32,
    pub ghost some_groups: { (0 < length groups.items) × (length groups.items ≤ 6) },
    pub ghost rising_groups: { AreGroups 0 groups.items } by { AreGroups-prop 0 groups.items },
    pub ghost some_window: { (0 < window) × (window ≤ 2 ^ 20) },
}

impl FoldSet {
    ghost use Rattle.tally_base.specs.Settings.{fold_view};

    /// The same settings once more.
    pub fn copied(&self) -> FoldSet
        ensures { fold_view result ≡ fold_view self.now }
    {
        FoldSet {
            groups: copy_of(&self.groups),
            window: self.window,
        }
    }
}

/// The same numbers once more.
fn copy_of(groups: &[u8]) -> ArrayVec<u8, 6>
    requires few { length groups.now ≤ 6 }
    ensures { result.items ≡ groups.now }
{
    let mut found = ArrayVec::new();
    for group in groups {
        found.push(*group);
    }
    found
}

/// A correlation of two groups, whose times are halved from level to level.
#[derive(Clone, Copy, Debug)]
pub struct CorrelationSet {
    /// The number of the group of the first photon, from 1.
    pub first: u8,
    /// The number of the group of the second photon, from 1.
    pub second: u8,
    /// The greatest lag of each level, in its halved times: an even number from 2 to 128.
    pub lags: u32,
    /// How many levels there are, 1 to 40.
    pub levels: u32,
    pub ghost of_first: { (0 < first) × (first ≤ 64) },
    pub ghost of_second: { (0 < second) × (second ≤ 64) },
    pub ghost some_lags: { (2 ≤ lags) × (lags ≤ 128) },
    pub ghost even_lags: { lags % 2 ≡ 0 },
    pub ghost some_levels: { (0 < levels) × (levels ≤ 40) },
}

/// The group of the input 0, which fills unused room.
impl Default for Group {
    fn default() -> Group {
        Group {
            inputs: 1,
            gates: ArrayVec::new(),
        }
    }
}

/// The input 0, to which nothing is added, which fills unused room.
impl Default for ShiftSet {
    fn default() -> ShiftSet {
        ShiftSet { input: 0, shift: 0 }
    }
}

/// The least histogram, which fills unused room.
impl Default for HistSet {
    fn default() -> HistSet {
        HistSet {
            group: 1,
            width: 1,
            bins: 1,
        }
    }
}

/// The least trace, which fills unused room.
impl Default for TraceSet {
    fn default() -> TraceSet {
        TraceSet {
            group: 1,
            origin: 0,
            width: 1,
            bins: 1,
        }
    }
}

/// The least table of times between photons, which fills unused room.
impl Default for StartStopSet {
    fn default() -> StartStopSet {
        StartStopSet {
            start: 1,
            stop: 1,
            width: 1,
            bins: 1,
        }
    }
}

/// The least table of pairs of photons, which fills unused room.
impl Default for CoincidenceSet {
    fn default() -> CoincidenceSet {
        CoincidenceSet {
            first: 1,
            second: 1,
            reach: 1,
            width: 1,
        }
    }
}

/// The least image, which fills unused room.
impl Default for ImageSet {
    fn default() -> ImageSet {
        ImageSet {
            group: 1,
            width: 1,
            height: 1,
            dwell: 1,
            line: 1,
            frame: None,
            stop: None,
            serpentine: false,
        }
    }
}

/// The least cube, which fills unused room.
impl Default for CubeSet {
    fn default() -> CubeSet {
        CubeSet {
            image: ImageSet::default(),
            dwidth: 1,
            dbins: 1,
        }
    }
}

/// The least fold, which fills unused room.
impl Default for FoldSet {
    fn default() -> FoldSet {
        FoldSet {
            groups: copy_of(&[1]),
            window: 1,
        }
    }
}

/// The least correlation, which fills unused room.
impl Default for CorrelationSet {
    fn default() -> CorrelationSet {
        CorrelationSet {
            first: 1,
            second: 1,
            lags: 2,
            levels: 1,
        }
    }
}
