// The photons of a group, picked from a block, eight events at a time.
ghost use Rattle.std.specs.Prelude.{◌≡◌, ◌+◌, ◌*◌, ◌<◌, ◌≤◌, ◌++◌, ℕ, length, take, drop, slice_index};
ghost use Rattle.{tally_base.specs.{Columns.sorted, Events.is_in}, lane_decode.specs.Staying.has_bit, tcspc_hist.specs.Picked.photon_marks};

use lane_decode::close;
use std::simd::prelude::*;
use tally_base::{Block, TABLE_BLOCK};

/// Puts the marks of the photons of a group, of the first events of a block, so many times eight, in order to the front
/// of an array. The answer is how many they are. It takes no branch on the group, which no processor would foresee.
#[inline(always)]
pub(crate) fn pick(
    group: u8,
    block: &Block<TABLE_BLOCK>,
    eights: usize,
    marks: &mut [u32; TABLE_BLOCK],
) -> usize
    requires group { (0 < group) × (group ≤ 64) }
    requires inside { 8 * eights ≤ sorted block.now }
    ensures few { result ≤ 8 * eights }
    ensures picked { take result marks.new ≡ photon_marks group block.now (8 * eights) }
{
    let mut many = 0;
    for k in 0..eights {
        let bits = bits_in_group(block.groups_from(8 * k), group);
        put_eight(marks, many, close(block.marks_from(8 * k), bits));
        many += bits.count_ones() as usize;
    }
    many
}

/// Which of eight events are in a group, 1 to 64, by their groups: a bit for each.
#[inline(always)]
fn bits_in_group(groups: u64x8, group: u8) -> usize
    requires lanes { length groups ≡ 8 }
    requires group { (0 < group) × (group ≤ 64) }
    ensures few { result < 256 }
    ensures bits { (i : ℕ) → i < 8 → has_bit result i ≡ is_in (slice_index groups i) group }
{
    let bit = u64x8::splat(1 << (group - 1));
    (groups & bit).simd_eq(bit).to_bitmask() as usize
}

/// Puts eight numbers into a column from a place on, after those that stay.
#[inline(always)]
fn put_eight(column: &mut [u32], start: usize, eight: u32x8)
    requires lanes { length eight ≡ 8 }
    requires room { start + 8 ≤ length column.old }
    ensures { column.new ≡ take start column.old ++ (eight ++ drop (start + 8) column.old) }
{
    column[start..start + 8].copy_from_slice(&eight.to_array());
}
