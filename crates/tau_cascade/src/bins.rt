// Bins that come to a level, and those that it closes.
ghost use Rattle.std.specs.{Prelude.{◌≡◌, ◌+◌, ◌*◌, ◌^◌, ◌<◌, ◌≤◌, false, [], ◌++◌, length, map, take, drop, if◌then◌else◌}, List.AllByRecursion};
ghost use Rattle.{tally_base.specs.{Settings.correlation_view, Columns.{events_in, IsSorted}}, tau_cascade.specs.Bins.{raised, onto, near, FitCounts, IsCut, IsSpaced, IsSpaced-prop, StandBefore}};
ghost use Rattle.tau_cascade.specs.{Bins.{merged_all, photon_bins}, declared.bins.TheConstants.MOST_LAGS};

use lag_ring::{Entry, LagRing};
use tally_base::{Block, CorrelationSet, TABLE_BLOCK};

/// How many bins a list has room for: before those of a block those of a ring, and one for each level.
pub(crate) const LIST: usize = LEVELS + MOST_LAGS + TABLE_BLOCK;

/// Where the first bin that comes to a level stands in the list: before it each level puts at most one bin, and those of
/// its ring before that.
pub(crate) const FIRST_PLACE: usize = LEVELS + MOST_LAGS;

/// A place of a list in which no bin is.
pub(crate) const NO_BIN: Entry = Entry {
    index: 0,
    a: 0,
    b: 0,
};

/// How many lags there are at most, and so bins in a ring.
pub(crate) const MOST_LAGS: usize = 128;

/// How many levels there are at most.
pub(crate) const LEVELS: usize = 40;

/// How many bins, so many apart, are looked at for the usual distance.
const SOME: usize = 64;

/// The lags above some that are skipped, up to the last.
#[derive(Clone, Copy)]
pub(crate) struct LagRange {
    /// How many of the first lags are skipped.
    pub(crate) skipped: u32,
    /// The last lag.
    pub(crate) last: u32,
    ghost within: { (skipped ≤ last) × (last ≤ MOST_LAGS) },
}

/// Bins from a place of a list on, after those before them.
#[derive(Clone, Copy)]
pub(crate) struct Bins<'a> {
    /// The list.
    pub(crate) list: &'a [Entry],
    /// The place of the first that is paired.
    pub(crate) start: usize,
    /// Each is meant so many levels up from where it stands.
    pub(crate) levels: u32,
    /// A distance that no two of the list fall below, as they stand in it, or 0.
    pub(crate) apart: u64,
    ghost within: { start ≤ length list.now },
    ghost up: { levels < 64 },
    ghost sorted: { IsSpaced 0 (map (raised levels) list.now) } by { IsSpaced-prop 0 (map (raised levels) list.now) },
    ghost spaced: { 0 < apart → IsSpaced apart list.now } by { Prim.hlevel IsSpaced-prop },
}

/// What is known of how near bins are to one another.
#[derive(Clone, Copy)]
pub(crate) struct Gaps {
    /// A distance.
    pub(crate) usual: u64,
    /// No more bins are nearer than that to the one before them.
    pub(crate) nearer: usize,
}

impl Gaps {
    ghost use Rattle.std.specs.Prelude.{List};

    /// Nothing is known.
    #[tactic(auto, using(crate::proofs::Few::near_zero))]
    pub(crate) fn unknown() -> Gaps
        ensures { (es : List Entry) → near result.usual es ≤ result.nearer }
    {
        Gaps {
            usual: 0,
            nearer: 0,
        }
    }
}

/// The last bin of a list, and how many are before it.
#[derive(Clone, Copy)]
pub(crate) struct Last {
    /// How many bins are before it, and are closed.
    pub(crate) closed: usize,
    /// It, which stays open.
    pub(crate) bin: Entry,
}

/// Puts the photons of either group that a block has into bins of one photon, in a list from a place on,
/// and answers how many there are.
pub(crate) fn gather(
    set: &CorrelationSet,
    block: &Block<TABLE_BLOCK>,
    bins: &mut [Entry],
    start: usize,
) -> usize
    requires sorted { IsSorted block.now }
    requires room { start + TABLE_BLOCK ≤ length bins.old }
    ensures bins { take result (drop start bins.new)
        ≡ photon_bins (correlation_view set.now) (events_in block.now) }
    ensures few { result ≤ TABLE_BLOCK }
{
    let first = set.first;
    let second = set.second;
    let mut count = 0;
    for at in 0..block.len().min(TABLE_BLOCK) {
        // No branch on the groups, which are as good as random from photon to photon.
        let a = block.photons_in(at, first);
        let b = block.photons_in(at, second);
        bins[start + count] = Entry {
            index: block.time(at),
            a,
            b,
        };
        count += usize::from(a + b > 0);
    }
    count
}

/// A distance that no two of these bins fall below, or 0.
#[tactic(auto, using(crate::proofs::Passes::spaced_one, crate::proofs::Passes::spaced_more))]
pub(crate) fn spacing(bins: &[Entry]) -> u64
    ensures { 0 < result → IsSpaced result bins.now }
{
    let mut least = u64::MAX;
    for at in 1..bins.len() {
        least = least.min(bins[at].index.saturating_sub(bins[at - 1].index));
    }
    least
}

/// A distance, at most `apart`, that no two of these bins fall below; or 0 where `apart`, so many levels up, is within
/// reach of the lags.
#[inline(always)]
#[tactic(auto, using(crate::proofs::Passes::spaced_nearer))]
pub(crate) fn apart_all(bins: &[Entry], apart: u64, levels: u32, lags: u32) -> u64
    requires { levels < 64 }
    ensures { 0 < result → (result ≤ apart) × IsSpaced result bins.now }
{
    if apart >> levels > u64::from(lags) {
        apart.min(spacing(bins))
    } else {
        0
    }
}

/// The weight of the open bin once another came: of both where they are one, else of that other.
#[inline(always)]
fn joined(apart: bool, was: u64, more: u64) -> u64
    requires { apart ≡ false → was + more < 2 ^ 64 }
    ensures { result ≡ (if apart then more else was + more) }
{
    was * u64::from(!apart) + more
}

/// A bin so many levels up.
#[inline(always)]
fn raised_bin(bin: &Entry, levels: u32) -> Entry
    requires { levels < 64 }
    ensures { result ≡ raised levels bin.now }
{
    Entry {
        index: bin.index >> levels,
        ..*bin
    }
}

/// Merges neighbours of one index of some bins, so many levels up, and answers how many they are then.
#[tactic(auto, using(crate::proofs::Follows::next_fits))]
pub(crate) fn merge(bins: &mut [Entry], levels: u32) -> usize
    requires some { (0 < length bins.old) × (levels < 64) }
    requires counts { FitCounts (merged_all (map (raised levels) bins.old)) }
    ensures bins { take result bins.new ≡ merged_all (map (raised levels) bins.old) }
    ensures few { (0 < result) × (result ≤ length bins.old) }
{
    let mut closed = 0;
    let mut open = raised_bin(&bins[0], levels);
    for at in 1..bins.len() {
        // No branch on whether they are one bin.
        let bin = raised_bin(&bins[at], levels);
        bins[closed] = open;
        let apart = open.index != bin.index;
        closed += usize::from(apart);
        open = Entry {
            index: bin.index,
            a: joined(apart, open.a, bin.a),
            b: joined(apart, open.b, bin.b),
        };
    }
    bins[closed] = open;
    closed + 1
}

/// Copies entries into a list from a place on, and answers the place after them.
#[inline(always)]
pub(crate) fn copy_into(entries: &[Entry], list: &mut [Entry], start: usize) -> usize
    requires { start + length entries.now ≤ length list.old }
    ensures entries { take result list.new ≡ take start list.old ++ entries.now }
    ensures place { result ≡ start + length entries.now }
{
    let end = start + entries.len();
    list[start..end].copy_from_slice(entries);
    end
}

/// Copies the entries of a ring to the front of a list, and answers how many they are.
#[inline(always)]
pub(crate) fn lay_out(ring: &LagRing, list: &mut [Entry]) -> usize
    requires { length ring.now.entries ≤ length list.old }
    ensures entries { take result list.new ≡ ring.now.entries }
    ensures count { result ≡ length ring.now.entries }
{
    let (front, back) = ring.slices();
    let at = copy_into(front, list, 0);
    copy_into(back, list, at)
}

/// Copies entries, so many levels down, before those of a list from a place on, and answers where they begin.
#[inline(always)]
#[tactic(auto, using(crate::proofs::Spread::lower_more, crate::proofs::Spread::lower_done, lag_ring::proofs::Lists::each_at, std::proofs::lemmas::List::take_all))]
fn lower_before(entries: &[Entry], list: &mut [Entry], from: usize, levels: u32) -> usize
    requires room { (length entries.now ≤ from) × (from ≤ length list.old) × (levels < 64) }
    requires fits { 0 < levels → AllByRecursion (λ e. e.index * 2 ^ levels < 2 ^ 64) entries.now }
    ensures { StandBefore levels from entries.now list.old list.new result }
{
    let start = from - entries.len();
    for i in 0..entries.len() {
        let bin = entries[i];
        list[start + i] = Entry {
            index: bin.index << levels,
            a: bin.a,
            b: bin.b,
        };
    }
    start
}

/// Puts the open bin, where there is one, before the bins of a list from a place on, so many levels down, and answers
/// where they begin then.
#[inline(always)]
pub(crate) fn lower_open(was: &Option<Entry>, list: &mut [Entry], from: usize, levels: u32) -> usize
    requires room { (0 < from) × (from ≤ length list.old) × (levels < 64) }
    requires fits { 0 < levels → AllByRecursion (λ e. e.index * 2 ^ levels < 2 ^ 64) (onto was.now []) }
    ensures { StandBefore levels from (onto was.now []) list.old list.new result }
{
    match was {
        Some(bin) => lower_before(&[*bin], list, from, levels),
        None => from,
    }
}

/// Puts the entries of a ring before the bins of a list from a place on, so many levels down, and answers where they
/// begin.
#[inline(always)]
#[tactic(auto, using(lag_ring::proofs::Lists::all_back, lag_ring::proofs::Lists::all_front))]
pub(crate) fn lower_ring(ring: &LagRing, list: &mut [Entry], from: usize, levels: u32) -> usize
    requires room { (length ring.now.entries ≤ from) × (from ≤ length list.old) × (levels < 64) }
    requires fits { 0 < levels → AllByRecursion (λ e. e.index * 2 ^ levels < 2 ^ 64) ring.now.entries }
    ensures { StandBefore levels from ring.now.entries list.old list.new result }
{
    let (front, back) = ring.slices();
    let at = lower_before(back, list, from, levels);
    lower_before(front, list, at, levels)
}

/// The last of some bins, together with those before it that have its index, and how many are before them.
#[tactic(auto, using(crate::proofs::Spread::cut_within, crate::proofs::Spread::cut_more, crate::proofs::Spread::cut_sum))]
pub(crate) fn cut_last(bins: Bins) -> Last
    requires some { 0 < length bins.list.now }
    requires counts { FitCounts (map (raised bins.levels) bins.list.now) }
    ensures { IsCut (map (raised bins.entry.levels) bins.entry.list.now) result.closed result.bin }
{
    let Bins { list, levels, .. } = bins;
    let last = list[list.len() - 1];
    let index = last.index >> levels;
    let mut closed = list.len() - 1;
    let mut a = last.a;
    let mut b = last.b;
    'back: while closed > 0 {
        let bin = list[closed - 1];
        if bin.index >> levels != index {
            return Last {
                closed,
                bin: Entry { index, a, b },
            };
        }
        a += bin.a;
        b += bin.b;
        closed -= 1;
    }
    Last {
        closed,
        bin: Entry { index, a, b },
    }
}

/// A number that no bin has more photons of either group than.
pub(crate) fn heaviest_of(bins: &[Entry]) -> u64 {
    let mut heaviest = 0;
    for bin in bins {
        heaviest |= bin.a | bin.b;
    }
    heaviest
}

/// The place of the bin, so many levels up, from which on none is before an index.
#[inline(always)]
pub(crate) fn first_kept(bins: &[Entry], levels: u32, before: u64) -> usize
    requires { (levels < 64) × IsSpaced 0 (map (raised levels) bins.now) }
    ensures within { result ≤ length bins.now }
    ensures left { AllByRecursion (λ e. e.index < before)
        (take result (map (raised levels) bins.now)) }
    ensures kept { AllByRecursion (λ e. before ≤ e.index)
        (drop result (map (raised levels) bins.now)) }
{
    let mut start = bins.len();
    'back: while start > 0 {
        if bins[start - 1].index >> levels < before {
            return start;
        }
        start -= 1;
    }
    start
}

/// How many of these bins are nearer than a distance to the one before them.
#[inline(always)]
#[tactic(auto, using(crate::proofs::Few::near_at, crate::proofs::Few::near_next, std::proofs::lemmas::List::take_all))]
fn count_near(bins: &[Entry], distance: u64) -> usize
    ensures { result ≡ near distance bins.now }
{
    let mut count = 0;
    for at in 1..bins.len() {
        count += usize::from(bins[at].index.saturating_sub(bins[at - 1].index) < distance);
    }
    count
}

/// The same of some of them, so many apart.
#[inline(always)]
fn some_near(bins: &[Entry], distance: u64, step: usize) -> usize {
    let mut count = 0;
    for i in 1..SOME {
        let at = step.saturating_mul(i);
        if 0 < at && at < bins.len() {
            count += usize::from(bins[at].index.saturating_sub(bins[at - 1].index) < distance);
        }
    }
    count
}

/// A distance that about two of five bins are nearer than to the one before them, or fewer, as far as some of them tell.
fn usual_gap(bins: &[Entry]) -> u64
    requires { 0 < length bins.now }
{
    let count = bins.len();
    let step = count / SOME + 1;
    let mean = bins[count - 1].index.saturating_sub(bins[0].index) / count as u64;
    for halvings in 0..64u32 {
        let distance = mean >> halvings;
        if some_near(bins, distance, step).saturating_mul(5 * step) <= 2 * count {
            return distance;
        }
    }
    0
}

/// What is known of how near these bins are to one another, found out if it is wanted and was not known.
pub(crate) fn known_gaps(bins: &[Entry], known: Gaps, wanted: bool) -> Gaps
    requires { (0 < length bins.now) × (near known.usual bins.now ≤ known.nearer) }
    ensures { near result.usual bins.now ≤ result.nearer }
{
    if known.usual > 0 || !wanted {
        return known;
    }
    let usual = usual_gap(bins);
    Gaps {
        usual,
        nearer: count_near(bins, usual),
    }
}
