// The events of records, put close together into a block.
ghost use Rattle.std.specs.{Prelude.{◌≡◌, ◌+◌, ◌*◌, ◌%◌, ◌^◌, ◌<◌, ◌≤◌, ◌++◌, ℕ, length, map, nat_lt, slice_index}, Simd.Lanes.chunk};
ghost use Rattle.{tally_base.specs.{Codes.code_in, Columns.{count, sorted, gathered}}, lane_decode.specs.{Staying.{has_bit, HasClose, HasLanes}, InColumns.{wraps_at, sum_to, time_in}}};

use crate::columns::Columns;
use record_layout::RecordLayout;
use std::simd::prelude::*;
use tally_base::{BLOCK_SIZE, Block, TABLE_BLOCK};

/// The places of the bits that are set in a number of eight bits, in order, and 0 after them.
#[rattlefmt::skip]
static LANES: [[u32; 8]; 256] = [
    [0, 0, 0, 0, 0, 0, 0, 0], [0, 0, 0, 0, 0, 0, 0, 0], [1, 0, 0, 0, 0, 0, 0, 0], [0, 1, 0, 0, 0, 0, 0, 0],
    [2, 0, 0, 0, 0, 0, 0, 0], [0, 2, 0, 0, 0, 0, 0, 0], [1, 2, 0, 0, 0, 0, 0, 0], [0, 1, 2, 0, 0, 0, 0, 0],
    [3, 0, 0, 0, 0, 0, 0, 0], [0, 3, 0, 0, 0, 0, 0, 0], [1, 3, 0, 0, 0, 0, 0, 0], [0, 1, 3, 0, 0, 0, 0, 0],
    [2, 3, 0, 0, 0, 0, 0, 0], [0, 2, 3, 0, 0, 0, 0, 0], [1, 2, 3, 0, 0, 0, 0, 0], [0, 1, 2, 3, 0, 0, 0, 0],
    [4, 0, 0, 0, 0, 0, 0, 0], [0, 4, 0, 0, 0, 0, 0, 0], [1, 4, 0, 0, 0, 0, 0, 0], [0, 1, 4, 0, 0, 0, 0, 0],
    [2, 4, 0, 0, 0, 0, 0, 0], [0, 2, 4, 0, 0, 0, 0, 0], [1, 2, 4, 0, 0, 0, 0, 0], [0, 1, 2, 4, 0, 0, 0, 0],
    [3, 4, 0, 0, 0, 0, 0, 0], [0, 3, 4, 0, 0, 0, 0, 0], [1, 3, 4, 0, 0, 0, 0, 0], [0, 1, 3, 4, 0, 0, 0, 0],
    [2, 3, 4, 0, 0, 0, 0, 0], [0, 2, 3, 4, 0, 0, 0, 0], [1, 2, 3, 4, 0, 0, 0, 0], [0, 1, 2, 3, 4, 0, 0, 0],
    [5, 0, 0, 0, 0, 0, 0, 0], [0, 5, 0, 0, 0, 0, 0, 0], [1, 5, 0, 0, 0, 0, 0, 0], [0, 1, 5, 0, 0, 0, 0, 0],
    [2, 5, 0, 0, 0, 0, 0, 0], [0, 2, 5, 0, 0, 0, 0, 0], [1, 2, 5, 0, 0, 0, 0, 0], [0, 1, 2, 5, 0, 0, 0, 0],
    [3, 5, 0, 0, 0, 0, 0, 0], [0, 3, 5, 0, 0, 0, 0, 0], [1, 3, 5, 0, 0, 0, 0, 0], [0, 1, 3, 5, 0, 0, 0, 0],
    [2, 3, 5, 0, 0, 0, 0, 0], [0, 2, 3, 5, 0, 0, 0, 0], [1, 2, 3, 5, 0, 0, 0, 0], [0, 1, 2, 3, 5, 0, 0, 0],
    [4, 5, 0, 0, 0, 0, 0, 0], [0, 4, 5, 0, 0, 0, 0, 0], [1, 4, 5, 0, 0, 0, 0, 0], [0, 1, 4, 5, 0, 0, 0, 0],
    [2, 4, 5, 0, 0, 0, 0, 0], [0, 2, 4, 5, 0, 0, 0, 0], [1, 2, 4, 5, 0, 0, 0, 0], [0, 1, 2, 4, 5, 0, 0, 0],
    [3, 4, 5, 0, 0, 0, 0, 0], [0, 3, 4, 5, 0, 0, 0, 0], [1, 3, 4, 5, 0, 0, 0, 0], [0, 1, 3, 4, 5, 0, 0, 0],
    [2, 3, 4, 5, 0, 0, 0, 0], [0, 2, 3, 4, 5, 0, 0, 0], [1, 2, 3, 4, 5, 0, 0, 0], [0, 1, 2, 3, 4, 5, 0, 0],
    [6, 0, 0, 0, 0, 0, 0, 0], [0, 6, 0, 0, 0, 0, 0, 0], [1, 6, 0, 0, 0, 0, 0, 0], [0, 1, 6, 0, 0, 0, 0, 0],
    [2, 6, 0, 0, 0, 0, 0, 0], [0, 2, 6, 0, 0, 0, 0, 0], [1, 2, 6, 0, 0, 0, 0, 0], [0, 1, 2, 6, 0, 0, 0, 0],
    [3, 6, 0, 0, 0, 0, 0, 0], [0, 3, 6, 0, 0, 0, 0, 0], [1, 3, 6, 0, 0, 0, 0, 0], [0, 1, 3, 6, 0, 0, 0, 0],
    [2, 3, 6, 0, 0, 0, 0, 0], [0, 2, 3, 6, 0, 0, 0, 0], [1, 2, 3, 6, 0, 0, 0, 0], [0, 1, 2, 3, 6, 0, 0, 0],
    [4, 6, 0, 0, 0, 0, 0, 0], [0, 4, 6, 0, 0, 0, 0, 0], [1, 4, 6, 0, 0, 0, 0, 0], [0, 1, 4, 6, 0, 0, 0, 0],
    [2, 4, 6, 0, 0, 0, 0, 0], [0, 2, 4, 6, 0, 0, 0, 0], [1, 2, 4, 6, 0, 0, 0, 0], [0, 1, 2, 4, 6, 0, 0, 0],
    [3, 4, 6, 0, 0, 0, 0, 0], [0, 3, 4, 6, 0, 0, 0, 0], [1, 3, 4, 6, 0, 0, 0, 0], [0, 1, 3, 4, 6, 0, 0, 0],
    [2, 3, 4, 6, 0, 0, 0, 0], [0, 2, 3, 4, 6, 0, 0, 0], [1, 2, 3, 4, 6, 0, 0, 0], [0, 1, 2, 3, 4, 6, 0, 0],
    [5, 6, 0, 0, 0, 0, 0, 0], [0, 5, 6, 0, 0, 0, 0, 0], [1, 5, 6, 0, 0, 0, 0, 0], [0, 1, 5, 6, 0, 0, 0, 0],
    [2, 5, 6, 0, 0, 0, 0, 0], [0, 2, 5, 6, 0, 0, 0, 0], [1, 2, 5, 6, 0, 0, 0, 0], [0, 1, 2, 5, 6, 0, 0, 0],
    [3, 5, 6, 0, 0, 0, 0, 0], [0, 3, 5, 6, 0, 0, 0, 0], [1, 3, 5, 6, 0, 0, 0, 0], [0, 1, 3, 5, 6, 0, 0, 0],
    [2, 3, 5, 6, 0, 0, 0, 0], [0, 2, 3, 5, 6, 0, 0, 0], [1, 2, 3, 5, 6, 0, 0, 0], [0, 1, 2, 3, 5, 6, 0, 0],
    [4, 5, 6, 0, 0, 0, 0, 0], [0, 4, 5, 6, 0, 0, 0, 0], [1, 4, 5, 6, 0, 0, 0, 0], [0, 1, 4, 5, 6, 0, 0, 0],
    [2, 4, 5, 6, 0, 0, 0, 0], [0, 2, 4, 5, 6, 0, 0, 0], [1, 2, 4, 5, 6, 0, 0, 0], [0, 1, 2, 4, 5, 6, 0, 0],
    [3, 4, 5, 6, 0, 0, 0, 0], [0, 3, 4, 5, 6, 0, 0, 0], [1, 3, 4, 5, 6, 0, 0, 0], [0, 1, 3, 4, 5, 6, 0, 0],
    [2, 3, 4, 5, 6, 0, 0, 0], [0, 2, 3, 4, 5, 6, 0, 0], [1, 2, 3, 4, 5, 6, 0, 0], [0, 1, 2, 3, 4, 5, 6, 0],
    [7, 0, 0, 0, 0, 0, 0, 0], [0, 7, 0, 0, 0, 0, 0, 0], [1, 7, 0, 0, 0, 0, 0, 0], [0, 1, 7, 0, 0, 0, 0, 0],
    [2, 7, 0, 0, 0, 0, 0, 0], [0, 2, 7, 0, 0, 0, 0, 0], [1, 2, 7, 0, 0, 0, 0, 0], [0, 1, 2, 7, 0, 0, 0, 0],
    [3, 7, 0, 0, 0, 0, 0, 0], [0, 3, 7, 0, 0, 0, 0, 0], [1, 3, 7, 0, 0, 0, 0, 0], [0, 1, 3, 7, 0, 0, 0, 0],
    [2, 3, 7, 0, 0, 0, 0, 0], [0, 2, 3, 7, 0, 0, 0, 0], [1, 2, 3, 7, 0, 0, 0, 0], [0, 1, 2, 3, 7, 0, 0, 0],
    [4, 7, 0, 0, 0, 0, 0, 0], [0, 4, 7, 0, 0, 0, 0, 0], [1, 4, 7, 0, 0, 0, 0, 0], [0, 1, 4, 7, 0, 0, 0, 0],
    [2, 4, 7, 0, 0, 0, 0, 0], [0, 2, 4, 7, 0, 0, 0, 0], [1, 2, 4, 7, 0, 0, 0, 0], [0, 1, 2, 4, 7, 0, 0, 0],
    [3, 4, 7, 0, 0, 0, 0, 0], [0, 3, 4, 7, 0, 0, 0, 0], [1, 3, 4, 7, 0, 0, 0, 0], [0, 1, 3, 4, 7, 0, 0, 0],
    [2, 3, 4, 7, 0, 0, 0, 0], [0, 2, 3, 4, 7, 0, 0, 0], [1, 2, 3, 4, 7, 0, 0, 0], [0, 1, 2, 3, 4, 7, 0, 0],
    [5, 7, 0, 0, 0, 0, 0, 0], [0, 5, 7, 0, 0, 0, 0, 0], [1, 5, 7, 0, 0, 0, 0, 0], [0, 1, 5, 7, 0, 0, 0, 0],
    [2, 5, 7, 0, 0, 0, 0, 0], [0, 2, 5, 7, 0, 0, 0, 0], [1, 2, 5, 7, 0, 0, 0, 0], [0, 1, 2, 5, 7, 0, 0, 0],
    [3, 5, 7, 0, 0, 0, 0, 0], [0, 3, 5, 7, 0, 0, 0, 0], [1, 3, 5, 7, 0, 0, 0, 0], [0, 1, 3, 5, 7, 0, 0, 0],
    [2, 3, 5, 7, 0, 0, 0, 0], [0, 2, 3, 5, 7, 0, 0, 0], [1, 2, 3, 5, 7, 0, 0, 0], [0, 1, 2, 3, 5, 7, 0, 0],
    [4, 5, 7, 0, 0, 0, 0, 0], [0, 4, 5, 7, 0, 0, 0, 0], [1, 4, 5, 7, 0, 0, 0, 0], [0, 1, 4, 5, 7, 0, 0, 0],
    [2, 4, 5, 7, 0, 0, 0, 0], [0, 2, 4, 5, 7, 0, 0, 0], [1, 2, 4, 5, 7, 0, 0, 0], [0, 1, 2, 4, 5, 7, 0, 0],
    [3, 4, 5, 7, 0, 0, 0, 0], [0, 3, 4, 5, 7, 0, 0, 0], [1, 3, 4, 5, 7, 0, 0, 0], [0, 1, 3, 4, 5, 7, 0, 0],
    [2, 3, 4, 5, 7, 0, 0, 0], [0, 2, 3, 4, 5, 7, 0, 0], [1, 2, 3, 4, 5, 7, 0, 0], [0, 1, 2, 3, 4, 5, 7, 0],
    [6, 7, 0, 0, 0, 0, 0, 0], [0, 6, 7, 0, 0, 0, 0, 0], [1, 6, 7, 0, 0, 0, 0, 0], [0, 1, 6, 7, 0, 0, 0, 0],
    [2, 6, 7, 0, 0, 0, 0, 0], [0, 2, 6, 7, 0, 0, 0, 0], [1, 2, 6, 7, 0, 0, 0, 0], [0, 1, 2, 6, 7, 0, 0, 0],
    [3, 6, 7, 0, 0, 0, 0, 0], [0, 3, 6, 7, 0, 0, 0, 0], [1, 3, 6, 7, 0, 0, 0, 0], [0, 1, 3, 6, 7, 0, 0, 0],
    [2, 3, 6, 7, 0, 0, 0, 0], [0, 2, 3, 6, 7, 0, 0, 0], [1, 2, 3, 6, 7, 0, 0, 0], [0, 1, 2, 3, 6, 7, 0, 0],
    [4, 6, 7, 0, 0, 0, 0, 0], [0, 4, 6, 7, 0, 0, 0, 0], [1, 4, 6, 7, 0, 0, 0, 0], [0, 1, 4, 6, 7, 0, 0, 0],
    [2, 4, 6, 7, 0, 0, 0, 0], [0, 2, 4, 6, 7, 0, 0, 0], [1, 2, 4, 6, 7, 0, 0, 0], [0, 1, 2, 4, 6, 7, 0, 0],
    [3, 4, 6, 7, 0, 0, 0, 0], [0, 3, 4, 6, 7, 0, 0, 0], [1, 3, 4, 6, 7, 0, 0, 0], [0, 1, 3, 4, 6, 7, 0, 0],
    [2, 3, 4, 6, 7, 0, 0, 0], [0, 2, 3, 4, 6, 7, 0, 0], [1, 2, 3, 4, 6, 7, 0, 0], [0, 1, 2, 3, 4, 6, 7, 0],
    [5, 6, 7, 0, 0, 0, 0, 0], [0, 5, 6, 7, 0, 0, 0, 0], [1, 5, 6, 7, 0, 0, 0, 0], [0, 1, 5, 6, 7, 0, 0, 0],
    [2, 5, 6, 7, 0, 0, 0, 0], [0, 2, 5, 6, 7, 0, 0, 0], [1, 2, 5, 6, 7, 0, 0, 0], [0, 1, 2, 5, 6, 7, 0, 0],
    [3, 5, 6, 7, 0, 0, 0, 0], [0, 3, 5, 6, 7, 0, 0, 0], [1, 3, 5, 6, 7, 0, 0, 0], [0, 1, 3, 5, 6, 7, 0, 0],
    [2, 3, 5, 6, 7, 0, 0, 0], [0, 2, 3, 5, 6, 7, 0, 0], [1, 2, 3, 5, 6, 7, 0, 0], [0, 1, 2, 3, 5, 6, 7, 0],
    [4, 5, 6, 7, 0, 0, 0, 0], [0, 4, 5, 6, 7, 0, 0, 0], [1, 4, 5, 6, 7, 0, 0, 0], [0, 1, 4, 5, 6, 7, 0, 0],
    [2, 4, 5, 6, 7, 0, 0, 0], [0, 2, 4, 5, 6, 7, 0, 0], [1, 2, 4, 5, 6, 7, 0, 0], [0, 1, 2, 4, 5, 6, 7, 0],
    [3, 4, 5, 6, 7, 0, 0, 0], [0, 3, 4, 5, 6, 7, 0, 0], [1, 3, 4, 5, 6, 7, 0, 0], [0, 1, 3, 4, 5, 6, 7, 0],
    [2, 3, 4, 5, 6, 7, 0, 0], [0, 2, 3, 4, 5, 6, 7, 0], [1, 2, 3, 4, 5, 6, 7, 0], [0, 1, 2, 3, 4, 5, 6, 7],
];

/// Those of eight lanes whose bits are set, close together.
#[inline(always)]
pub fn close(eight: u32x8, bits: usize) -> u32x8
    requires bits { bits < 256 }
    requires lanes { length eight ≡ 8 }
    ensures { HasClose bits (λ i. slice_index eight i) result }
{
    eight.swizzle_dyn(u32x8::from_array(LANES[bits]))
}

/// The places of those lanes, counted from this one.
#[inline(always)]
fn places_from(first: u64, bits: usize) -> u64x8
    requires { bits < 256 }
    ensures { HasClose bits (λ i. (first + i) % 2 ^ 64) result }
{
    u64x8::splat(first) + u32x8::from_array(LANES[bits]).cast::<u64>()
}

/// The times of eight records, modulo 2^64, where each of so many wraps adds the unit of a layout to a base.
#[inline(always)]
fn times_from<R: RecordLayout>(base: u64, wraps: u32x8, times: u32x8) -> u64x8
    requires { (length wraps ≡ 8) × (length times ≡ 8) }
    ensures { HasLanes (λ j. (base + R.UNIT * slice_index wraps j + slice_index times j) % 2 ^ 64) result }
{
    let from = u64x8::splat(R::UNIT) * wraps.cast::<u64>() + times.cast::<u64>();
    u64x8::splat(base) + from
}

impl Columns {
    ghost use Rattle.lane_decode.specs.Staying.{staying, event_in};

    /// Puts the events of those of 64 records whose codes are below `below` after those of a block. `placed` records come
    /// before these 64, and a time counts from `base`, which is what the wraps before them add.
    #[inline(always)]
    pub fn put_events<R: RecordLayout>(
        &self,
        below: u16,
        placed: u64,
        base: u64,
        block: &mut Block<TABLE_BLOCK>,
    )
        requires few { (i : ℕ) → i < 64 → wraps_at self.now i ≤ 2 ^ 25 }
        requires times { (i : ℕ) → i < 64 → time_in base R.UNIT self.now i < 2 ^ 64 }
        requires places { placed + 64 < 2 ^ 64 }
        requires room { count block.old + BLOCK_SIZE ≤ TABLE_BLOCK }
        ensures more { gathered block.new ≡ gathered block.old
            ++ map (event_in placed base R.UNIT self.now) (staying below self.now 64) }
        ensures unsorted { sorted block.new ≡ sorted block.old }
    {
        // No branch tests what a record is.
        let mut sums = u32x8::splat(0);
        for k in 0..8usize {
            let at = 8 * k;
            let marks = eight_at(&self.marks, at);
            let ticks = eight_at(&self.times, at);
            let bits = bits_below(marks, below);
            let before = sums.swizzle([7, 7, 7, 7, 7, 7, 7, 7]);
            let more = sums_up_to(eight_at(&self.wraps, at));
            sums = before + more;
            let close_marks = close(marks, bits);
            let close_sums = close(sums, bits);
            let close_ticks = close(ticks, bits);
            let times = times_from::<R>(base, close_sums, close_ticks);
            let places = places_from(placed + 1 + at as u64, bits);
            block.put_eight(places, close_marks, times, bits.count_ones() as usize);
        }
    }
}

/// Eight numbers of a column from a place on.
#[inline(always)]
fn eight_at(column: &[u32; 64], at: usize) -> u32x8
    requires { at + 8 ≤ 64 }
    ensures { result ≡ chunk at 8 column.now }
{
    u32x8::from_slice(&column[at..])
}

/// The sum of the numbers up to each of eight.
#[inline(always)]
fn sums_up_to(eight: u32x8) -> u32x8
    requires { (length eight ≡ 8) × ((i : ℕ) → i < 8 → slice_index eight i ≤ 2 ^ 25) }
    ensures { HasLanes (λ i. sum_to (λ k. slice_index eight k) (i + 1)) result }
{
    // Within four and four: each number and the one before it, then the two before these. Then the lower four's sum.
    let twos = eight + eight.shuffle(u32x8::splat(0), [8, 0, 1, 2, 8, 4, 5, 6]);
    let fours = twos + twos.shuffle(u32x8::splat(0), [8, 8, 0, 1, 8, 8, 4, 5]);
    fours + fours.shuffle(u32x8::splat(0), [8, 8, 8, 8, 3, 3, 3, 3])
}

/// Which of eight marks have a code below `below`, a bit for each.
#[inline(always)]
fn bits_below(marks: u32x8, below: u16) -> usize
    requires { length marks ≡ 8 }
    ensures few { result < 256 }
    ensures bits { (i : ℕ) → i < 8
        → has_bit result i ≡ nat_lt (code_in (slice_index marks i)) below }
{
    let codes = marks & u32x8::splat(0xFFFF);
    codes.simd_lt(u32x8::splat(u32::from(below))).to_bitmask() as usize
}
