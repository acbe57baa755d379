// The weights of bins by index, where bins are dense: places stand for indices, and two of them become one on the next
// level.
ghost use Rattle.std.specs.Prelude.{◌≡◌, ℕ, ◌+◌, ◌-◌, ◌*◌, ◌/◌, ◌%◌, ◌^◌, ◌<◌, ◌≤◌, ◌==◌, true, false, List, [], ◌++◌, length, map, take, drop, nat_le, slice_index, sum_by, if◌then◌else◌};
ghost use Rattle.std.specs.{List.{AllByRecursion, range_with_len}, Option.ForSome};
ghost use Rattle.{lag_ring.specs.{declared.window.Side.TheVariants.{First, Second}, Bytes.weight_at}, tau_cascade.specs.{Bins.{raised, onto, IsCut, IsSpaced, merged_all}, Dense.bins_of}};
ghost use Rattle.tau_cascade.specs.{Dense.{bins_paired, Notes, HavePairs, IsZero}, Grid.{HaveWeights, Stands, IsEmpty, photons, IsGrid, halved, product, dots, bins_from, filled, FewFirsts, counted}};

use crate::bins::{Bins, LIST, LagRange, Last, MOST_LAGS};
use crate::laid::{PLACES, TOP, Window, clear_window};
use lag_ring::{Entry, Pairings};
use std::simd::Simd;

/// How many places a grid has.
pub(crate) const SPAN: usize = 4096;

/// A grid has fewer photons than this, and so has the ring before it: both together fit in one place of 16 bits.
pub(crate) const TOO_MANY: u64 = 1 << 15;

/// How many photons of a group are too many for a bin of a list that is put into a grid.
const NOT_FEW: u64 = 8;

/// How many places are multiplied at once.
const LANES: usize = 16;

/// The weights of bins by index.
#[derive(Clone, Copy)]
pub(crate) struct Grid {
    /// The index of the first place, which is even.
    pub(crate) base: u64,
    /// How many places may have bins. Where it is 0, bins are not in a grid.
    pub(crate) len: usize,
    /// A number of photons that all bins together have no more of.
    pub(crate) total: u64,
    /// How many photons of the first group each place has.
    pub(crate) firsts: [u16; SPAN],
    /// How many of the second.
    pub(crate) seconds: [u16; SPAN],
}

/// Adds a weight to a place.
#[inline(always)]
fn put(places: &mut [u16; SPAN], at: usize, weight: u64)
    requires inside { at < SPAN }
    requires fits { slice_index places.old at + weight < 2 ^ 16 }
    ensures { (p : ℕ) → p < SPAN → slice_index places.new p
        ≡ slice_index places.old p + (if at == p then weight else 0) }
{
    places[at] += weight as u16;
}

/// Puts the weights of bins, so many levels up, at the places of their indices, of which the first is that of `base`, and
/// answers true; or false where one has too many photons: then what the places have means nothing.
fn put_all(
    firsts: &mut [u16; SPAN],
    seconds: &mut [u16; SPAN],
    base: u64,
    bins: &[Entry],
    levels: u32,
) -> bool
    requires near { AllByRecursion (λ e. (base ≤ e.index) × (e.index < base + SPAN))
        (map (raised levels) bins.now) × (levels < 64) }
    requires few { length bins.now ≤ LIST }
    requires none { HaveWeights First base firsts.old [] × HaveWeights Second base seconds.old [] }
    ensures weights { result ≡ true → HaveWeights First base firsts.new (map (raised levels) bins.now)
        × HaveWeights Second base seconds.new (map (raised levels) bins.now) }
    ensures few { result ≡ true → sum_by photons (map (raised levels) bins.now)
        ≤ 2 * (NOT_FEW - 1) * length bins.now }
{
    for bin in bins {
        if bin.a | bin.b >= NOT_FEW {
            return false;
        }
        let at = ((bin.index >> levels) - base) as usize;
        put(firsts, at, bin.a);
        put(seconds, at, bin.b);
    }
    true
}

/// A number that no place has more than.
#[inline(always)]
fn most_of(places: &[u16]) -> u16
    ensures { (p : ℕ) → slice_index places.now p ≤ result }
{
    let mut most = 0;
    for i in 0..places.len() {
        most = places[i].max(most);
    }
    most
}

/// Makes one place of two.
#[inline(always)]
fn halve_part(pairs: &[u16], to: &mut [u16])
    requires sized { length pairs.now ≡ 2 * length to.old }
    requires room { (p : ℕ) → slice_index pairs.now p < 2 ^ 15 }
    ensures halves { (p : ℕ) → p < length to.old → slice_index to.new p
        ≡ slice_index pairs.now (2 * p) + slice_index pairs.now (2 * p + 1) }
    ensures same { length to.new ≡ length to.old }
{
    for i in 0..to.len() {
        to[i] = pairs[2 * i] + pairs[2 * i + 1];
    }
}

/// Makes one place of each two of the first `2 * half`, after `off` empty ones. The window is zero before and after. A
/// function of its own, where the compiler knows that the two share nothing.
#[inline(never)]
fn halve_at(places: &mut [u16; SPAN], window: &mut [u16; PLACES], half: usize, off: usize)
    requires room { (2 * half ≤ SPAN) × (off + half ≤ SPAN) × IsZero window.old }
    requires light { (p : ℕ) → slice_index places.old p < 2 ^ 15 }
    requires behind { (p : ℕ) → 2 * half ≤ p → slice_index places.old p ≡ 0 }
    ensures halves { (p : ℕ) → p < SPAN → slice_index places.new p
        ≡ (if nat_le off p then halved off places.old p else 0) }
    ensures zeros { IsZero window.new }
{
    halve_part(&places[..2 * half], &mut window[off..off + half]);
    places[..2 * half].fill(0);
    places[..off + half].copy_from_slice(&window[..off + half]);
    window[..off + half].fill(0);
}

/// The sum of so many numbers.
#[inline(always)]
#[tactic(auto, using(crate::proofs::Dots::range_more))]
fn sum_of(lanes: [u16; LANES]) -> u64
    ensures { result ≡ sum_by (slice_index lanes) (range_with_len 0 LANES) }
{
    let mut sum = 0;
    for q in 0..LANES {
        sum += u64::from(lanes[q]);
    }
    sum
}

/// The sum of the products of two parts by place, where that of each lane has 16 bits.
#[inline(always)]
fn dot_light(a: &[u16], b: &[u16], rows: usize) -> u64
    requires sized { (length a.now ≡ LANES * rows) × (length b.now ≡ LANES * rows) × (rows ≤ SPAN) }
    requires light { ∥ ((most : ℕ) × (most * rows < 2 ^ 16)
        × ((i : ℕ) → product a.now b.now i ≤ most)) ∥₁ }
    ensures { result ≡ sum_by (product a.now b.now) (range_with_len 0 (LANES * rows)) }
{
    let mut sums = Simd::<u16, LANES>::splat(0);
    for row in 0..rows {
        let at = LANES * row;
        let part = Simd::<u16, LANES>::from_slice(&a[at..at + LANES]);
        sums = sums + part * Simd::<u16, LANES>::from_slice(&b[at..at + LANES]);
    }
    sum_of(sums.to_array())
}

/// The same in 64 bits.
#[inline(always)]
#[tactic(auto, using(crate::proofs::Dots::range_more))]
fn dot_heavy(a: &[u16], b: &[u16]) -> u64
    requires sized { (length b.now ≡ length a.now) × (length a.now ≤ SPAN) }
    ensures { result ≡ sum_by (product a.now b.now) (range_with_len 0 (length a.now)) }
{
    let mut sum = 0;
    for i in 0..a.len() {
        sum += u64::from(u32::from(a[i]) * u32::from(b[i]));
    }
    sum
}

/// How many of these places have photons.
#[inline(always)]
#[tactic(auto, using(crate::proofs::Dots::range_more))]
fn count_filled(firsts: &[u16], seconds: &[u16]) -> u16
    requires sized { (length seconds.now ≡ length firsts.now) × (length firsts.now < 2 ^ 16) }
    ensures { result ≡ sum_by (filled firsts.now seconds.now) (range_with_len 0 (length firsts.now)) }
{
    let mut count = 0;
    for at in 0..firsts.len() {
        count += firsts[at].max(seconds[at]).min(1);
    }
    count
}

/// Adds the weights in the first group of bins, so many levels up, to the places of their indices in a window, where they
/// have one: place `TOP` is that of the index `low`.
fn put_firsts(window: &mut [u16], low: u64, bins: &[Entry], levels: u32)
    requires sized { (length window.old ≤ PLACES) × (levels < 64) }
    requires fit { (p : ℕ) → p < length window.old → slice_index window.old p
        + weight_at First TOP low p (map (raised levels) bins.now) < 2 ^ 16 }
    ensures have { (p : ℕ) → p < length window.old → slice_index window.new p
        ≡ slice_index window.old p + weight_at First TOP low p (map (raised levels) bins.now) }
    ensures same { length window.new ≡ length window.old }
{
    for bin in bins {
        let index = bin.index >> levels;
        let before = low.saturating_sub(index);
        let behind = index.saturating_sub(low);
        if before <= TOP as u64 && behind < window.len() as u64 {
            let place = (behind + TOP as u64 - before) as usize;
            if place < window.len() {
                window[place] += bin.a as u16;
            }
        }
    }
}

impl Grid {
    /// A grid without bins.
    #[inline(always)]
    pub(crate) fn empty() -> Grid
        ensures { IsEmpty result }
    {
        Grid {
            base: 0,
            len: 0,
            total: 0,
            firsts: [0; SPAN],
            seconds: [0; SPAN],
        }
    }

    /// Whether bins are in it.
    #[inline(always)]
    pub(crate) fn is_on(&self) -> bool
        ensures { result ≡ nat_le 1 self.now.len }
    {
        self.len > 0
    }

    /// Takes all bins out.
    #[tactic(auto, using(crate::proofs::Places::sound, crate::proofs::Places::front_zero))]
    pub(crate) fn clear(&mut self)
        requires { ∥ ((es : List Entry) × Stands self.old es) ∥₁ }
        ensures { IsEmpty self.new }
    {
        self.firsts[..self.len].fill(0);
        self.seconds[..self.len].fill(0);
        self.len = 0;
    }

    /// Takes the bins of a list, so many levels up, where all have a place, there are at most four places for each, and
    /// each has few photons.
    #[tactic(auto, using(crate::proofs::Places::from_to, crate::proofs::Close::over, crate::proofs::Close::from_first))]
    fn lay(&mut self, bins: &[Entry], levels: u32)
        requires bins { (0 < length bins.now) × (length bins.now ≤ LIST) × (levels < 64)
            × IsSpaced 0 (map (raised levels) bins.now) }
        requires none { IsEmpty self.old }
        ensures { IsGrid self.new (map (raised levels) bins.now) }
    {
        let first = bins[0].index >> levels;
        let base = first - first % 2;
        let span = (bins[bins.len() - 1].index >> levels) - base;
        if span >= SPAN as u64 || span >= 4 * bins.len() as u64 {
            return;
        }
        self.base = base;
        if put_all(&mut self.firsts, &mut self.seconds, base, bins, levels) {
            self.total = 2 * (NOT_FEW - 1) * bins.len() as u64;
            self.len = span as usize + 1;
        } else {
            self.firsts.fill(0);
            self.seconds.fill(0);
        }
    }

    /// Makes one place of two, of which the first is that of the index `low`.
    #[tactic(auto, using(crate::proofs::Places::sound, crate::proofs::Places::stands_halved))]
    fn halve(&mut self, low: u64, window: &mut Window)
        requires stands { ∥ ((es : List Entry) × Stands self.old es) ∥₁ }
        requires low { (low ≤ self.old.base / 2) × (low % 2 ≡ 0)
            × (self.old.base / 2 - low + (self.old.len + 1) / 2 ≤ SPAN) }
        ensures halves { (es : List Entry) → Stands self.old es → Stands self.new (map (raised 1) es) }
        ensures len { self.new.len ≡ self.old.base / 2 - low + (self.old.len + 1) / 2 }
    {
        let half = (self.len + 1) / 2;
        let off = (self.base / 2 - low) as usize;
        halve_at(&mut self.firsts, &mut window.places, half, off);
        halve_at(&mut self.seconds, &mut window.places, half, off);
        self.base = low;
        self.len = off + half;
    }

    /// Adds the open bin of a level, where there is one. Where it has no place, or photons may be too many, all bins are
    /// taken out.
    #[tactic(auto, using(crate::proofs::Places::sound))]
    fn put_open(&mut self, was: &Option<Entry>)
        requires stands { ∥ ((es : List Entry) × Stands self.old es) ∥₁ × (0 < self.old.len) }
        ensures { (es : List Entry) → Stands self.old es → IsGrid self.new (onto was.now es) }
    {
        if let Some(bin) = was {
            let at = bin.index.saturating_sub(self.base) as usize;
            let more = bin.a.saturating_add(bin.b);
            if bin.index >= self.base && at < self.len && more < TOO_MANY - self.total {
                put(&mut self.firsts, at, bin.a);
                put(&mut self.seconds, at, bin.b);
                self.total += more;
            } else {
                self.clear();
            }
        }
    }

    /// Takes out the bins of one index, which are after all others.
    #[tactic(auto, using(crate::proofs::Places::sound))]
    fn cut(&mut self, index: u64)
        requires stands { ∥ ((es : List Entry) × Stands self.old es) ∥₁ }
        requires inside { (self.old.base ≤ index) × (index < self.old.base + self.old.len) }
        ensures { (es fs : List Entry) → Stands self.old (es ++ fs)
            → AllByRecursion (λ e. e.index < index) es → AllByRecursion (λ e. e.index ≡ index) fs
            → IsGrid self.new es }
    {
        let at = (index - self.base) as usize;
        self.firsts[at] = 0;
        self.seconds[at] = 0;
        self.len = at;
    }

    /// Takes all bins out where fewer than one place in eight has photons.
    #[tactic(auto, using(crate::proofs::Places::sound))]
    fn clear_sparse(&mut self)
        requires { ∥ ((es : List Entry) × Stands self.old es) ∥₁ }
        ensures grid { (es : List Entry) → IsGrid self.old es → IsGrid self.new es }
        ensures dense { (es : List Entry) → IsGrid self.new es
            → self.new.len ≤ 8 * length (merged_all es) }
    {
        let count = count_filled(&self.firsts[..self.len], &self.seconds[..self.len]);
        if self.len > 8 * usize::from(count) {
            self.clear();
        }
    }

    /// Goes on from the bins that came to a level, on the level below, to those that are closed on this one: makes one
    /// place of two, adds the open bin, which stands before them, and takes out those of the last bin. Where bins are in
    /// no grid, it takes them from the list. They stay in it if they are dense.
    pub(crate) fn follow(
        &mut self,
        was: &Option<Entry>,
        bins: Bins,
        last: &Last,
        window: &mut Window,
    )
        requires stood { IsGrid self.old (map (raised (bins.levels - 1)) (drop bins.start bins.list.now))
            × (0 < self.old.len → 0 < bins.levels) }
        requires bins { bins_of bins ≡ onto was.now (map (raised bins.levels) (drop bins.start bins.list.now)) }
        requires cut { IsCut (bins_of bins) last.now.closed last.now.bin × (length bins.list.now ≤ LIST) }
        ensures grid { IsGrid self.new (take last.now.closed (bins_of bins.entry)) }
        ensures dense { self.new.len ≤ 8 * length (merged_all (take last.now.closed (bins_of bins.entry))) }
    {
        if self.len > 0 {
            self.raise(was, window);
        }
        if self.len > 0 {
            self.cut(last.bin.index);
        }
        if self.len == 0 && last.closed > 0 {
            self.lay(&bins.list[..last.closed], bins.levels);
        }
        self.clear_sparse();
    }

    /// Makes one place of two, and adds the open bin, as far back as it is. Where there is no room for it, all bins are
    /// taken out.
    #[tactic(auto, using(crate::proofs::Places::sound))]
    fn raise(&mut self, was: &Option<Entry>, window: &mut Window)
        requires stands { ∥ ((es : List Entry) × Stands self.old es) ∥₁ × (0 < self.old.len) }
        ensures { (es : List Entry) → Stands self.old es
            → IsGrid self.new (onto was.now (map (raised 1) es)) }
    {
        let base = self.base / 2;
        let first = match was {
            Some(bin) => bin.index.min(base),
            None => base,
        };
        let low = first - first % 2;
        if base - low <= (SPAN - (self.len + 1) / 2) as u64 {
            self.halve(low, window);
            self.put_open(was);
        } else {
            self.clear();
        }
    }

    /// Puts into the sum of each lag of a range the products of the weights in the second group with those so far before
    /// them in a window, and notes a quarter as many bins as there are places.
    fn put_dots(
        &self,
        sums: &mut [u128; MOST_LAGS],
        paired: &mut Pairings,
        window: &[u16; PLACES],
        range: LagRange,
    )
        requires { self.now.len ≤ SPAN }
        ensures sums { (p : ℕ) → p < range.last - range.skipped → slice_index sums.new p
            ≡ dots window.now (TOP - (p + range.skipped + 1)) self.now.seconds (LANES * ((self.now.len + LANES - 1) / LANES)) }
        ensures noted { Notes paired.old paired.new ((self.now.len + 3) / 4) 0 }
    {
        paired.note(self.len.div_ceil(4));
        // After the last place there are zeros.
        let rows = (self.len + LANES - 1) / LANES;
        let len = LANES * rows;
        let behind = &self.seconds[..len];
        let near = &window[TOP - range.last as usize..TOP + len];
        let most = u64::from(most_of(near)) * u64::from(most_of(behind));
        let light = most * (rows as u64) < 1 << 16;
        for p in 0..range.last - range.skipped {
            let from = TOP - (p + range.skipped + 1) as usize;
            let part = &window[from..from + len];
            sums[p as usize] = u128::from(if light {
                dot_light(part, behind, rows)
            } else {
                dot_heavy(part, behind)
            });
        }
    }

    /// Puts the pairs of the bins that it has with those before them in their list, at the lags of a range, into sums, and
    /// notes a quarter as many as it has places.
    pub(crate) fn sum(
        &self,
        sums: &mut [u128; MOST_LAGS],
        paired: &mut Pairings,
        window: &mut Window,
        range: LagRange,
        bins: Bins,
    )
        requires { IsGrid self.now (drop bins.start (bins_of bins)) × (0 < self.now.len)
            × FewFirsts (take bins.start (bins_of bins)) }
        ensures sums { HavePairs range bins.entry.start sums.new (bins_of bins.entry) }
        ensures noted { Notes paired.old paired.new (counted self.now (bins_paired bins.entry)) 0 }
    {
        let places = &mut window.places;
        places[TOP..TOP + self.len].copy_from_slice(&self.firsts[..self.len]);
        put_firsts(
            &mut places[..TOP + self.len],
            self.base,
            &bins.list[..bins.start],
            bins.levels,
        );
        self.put_dots(sums, paired, places, range);
        clear_window(places, self.len as u64 - 1);
    }

    /// As how many the bins of a list count, which are so many: where they are in a grid, a quarter as many as that has
    /// places.
    #[inline(always)]
    pub(crate) fn counted(&self, bins: usize) -> usize
        ensures { result ≡ counted self.now bins }
    {
        if self.is_on() {
            self.len.div_ceil(4)
        } else {
            bins
        }
    }

    /// The place from which on no bin is before an index, where there are bins, and a list has room for those from there on
    /// after a ring.
    pub(crate) fn place_from(&self, before: u64) -> Option<usize>
        ensures { ForSome result (λ p. (0 < self.now.len) × (p ≡ before - self.now.base)
            × (self.now.len - p + MOST_LAGS ≤ LIST)) }
    {
        let place = before.saturating_sub(self.base) as usize;
        if self.len > 0 && self.len.saturating_sub(place) <= LIST - MOST_LAGS {
            Some(place)
        } else {
            None
        }
    }

    /// Puts the bins of the places from one on, of which each has photons, after so many entries of a list, and answers how
    /// many there are then.
    pub(crate) fn put_bins(&self, start: usize, list: &mut [Entry], count: usize) -> usize
        requires room { (self.now.len ≤ SPAN) × (count + (self.now.len - start) ≤ length list.old) }
        requires fits { self.now.base + self.now.len ≤ 2 ^ 64 }
        ensures bins { take result list.new ≡ take count list.old ++ bins_from self.now start }
        ensures few { result ≤ count + (self.now.len - start) }
    {
        let mut end = count;
        for place in start..self.len {
            let a = u64::from(self.firsts[place]);
            let b = u64::from(self.seconds[place]);
            list[end] = Entry {
                index: self.base + place as u64,
                a,
                b,
            };
            end += usize::from(a + b > 0);
        }
        end
    }
}
