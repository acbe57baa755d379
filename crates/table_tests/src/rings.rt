// A ring whose entries are known, the cells of known additions, and the weights of known entries: the tests of `lag_ring`.
ghost use Rattle.std.specs.{Prelude.{◌≡◌, ◌<◌, IfOk, length}, List.AllByRecursion};

use crate::given::holds;
use lag_ring::{Entry, LagRing, PairCells, Side, byte_lag_sums, put_side, spots_of, total_weight};
use std::alloc::Global;
use std::marker::Brand;
use std::sync::ledger::{Blank, Ledger};
use std::test::Fail;
use tally_base::Steps;

const REACH: u32 = 3;

/// An entry: its index and its two weights.
type Weighted = (u64, u64, u64);

/// The index before which entries are removed, an entry that is appended then, and those that are kept.
type Row<'a> = (u64, Weighted, &'a [Weighted]);

fn weighted(e: &Entry) -> Weighted {
    (e.index, e.a, e.b)
}

/// The entries of a ring, one at a time and in its slices.
fn agrees(alloc: Global, ring: &LagRing, wanted: &[Weighted]) -> Result<(), Fail> {
    let mut visited = Vec::new(alloc);
    for i in 0..ring.len() {
        visited.push(weighted(&ring.visit(i)))?;
    }
    let (front, back) = ring.slices();
    let mut entries = Vec::new(alloc);
    for e in front {
        entries.push(weighted(e))?;
    }
    for e in back {
        entries.push(weighted(e))?;
    }
    holds(
        visited.as_slice() == wanted && entries.as_slice() == wanted,
        "entries",
    )
}

/// Removes what is before an index, and appends an entry. The answer is an index above all that are kept.
fn turn(ring: &mut LagRing, next: u64, before: u64, index: u64, a: u64, b: u64) -> Result<u64, Fail>
    requires reach { ring.old.reach ≡ REACH }
    requires below { AllByRecursion (λ e. e.index < next) ring.old.entries }
    ensures reach { ring.new.reach ≡ REACH }
    ensures below { IfOk result (λ next. AllByRecursion (λ e. e.index < next) ring.new.entries) }
{
    ring.retire(before);
    if ring.len() == REACH || index < next || index == u64::MAX {
        return Err(Fail::new("the entry of a row can't be appended"));
    }
    ring.push(index, a, b);
    Ok(index + 1)
}

#[test]
fn the_last_entries_are_kept(rt: HostRuntime) -> Result<(), Fail> {
    let rows: [Row; 7] = [
        (0, (4, 1, 0), &[(4, 1, 0)]),
        (4, (5, 0, 1), &[(4, 1, 0), (5, 0, 1)]),
        // No place is free then.
        (4, (6, 2, 3), &[(4, 1, 0), (5, 0, 1), (6, 2, 3)]),
        // From here on the entries go round.
        (5, (7, 1, 1), &[(5, 0, 1), (6, 2, 3), (7, 1, 1)]),
        (7, (9, 0, 2), &[(7, 1, 1), (9, 0, 2)]),
        // An index that no entry has.
        (8, (10, 5, 0), &[(9, 0, 2), (10, 5, 0)]),
        (100, (1 << 62, 7, 8), &[(1 << 62, 7, 8)]),
    ];
    let mut ring = LagRing::open(rt.alloc(), REACH)?;
    agrees(rt.alloc(), &ring, &[])?;
    let mut next = 0;
    for (before, (index, a, b), wanted) in rows {
        next = turn(&mut ring, next, before, index, a, b)?;
        agrees(rt.alloc(), &ring, wanted)?;
    }
    Ok(())
}

#[test]
fn a_ring_begins_anew(rt: HostRuntime) -> Result<(), Fail> {
    let mut ring = LagRing::open(rt.alloc(), REACH)?;
    ring.push(4, 1, 0);
    ring.push(5, 0, 1);
    ring.restart(9, 1, 2);
    agrees(rt.alloc(), &ring, &[(9, 1, 2)])?;
    holds(ring.newest() == 9, "newest")?;
    ring.push(10, 3, 0);
    agrees(rt.alloc(), &ring, &[(9, 1, 2), (10, 3, 0)])?;
    ring.restart(12, 0, 7);
    ring.retire(12);
    agrees(rt.alloc(), &ring, &[(12, 0, 7)])?;
    ring.retire(13);
    agrees(rt.alloc(), &ring, &[])?;
    let entries = [
        Entry {
            index: 14,
            a: 1,
            b: 2,
        },
        Entry {
            index: 17,
            a: 0,
            b: 4,
        },
    ];
    ring.refill(&entries);
    agrees(rt.alloc(), &ring, &[(14, 1, 2), (17, 0, 4)])?;
    holds(ring.newest() == 17, "newest")?;
    ring.refill(&[]);
    agrees(rt.alloc(), &ring, &[])
}

/// Replaces the second weight of an entry, where there is one at the place.
fn replaced(ring: &mut LagRing, i: u32, b: u64) -> Result<(), Fail> {
    if i >= ring.len() {
        return Err(Fail::new("no entry is at the place"));
    }
    ring.set_b(i, b);
    Ok(())
}

#[test]
fn one_weight_is_replaced(rt: HostRuntime) -> Result<(), Fail> {
    let mut ring = LagRing::open(rt.alloc(), REACH)?;
    ring.push(4, 1, 2);
    ring.push(5, 3, 4);
    ring.push(7, 5, 6);
    ring.retire(5);
    // From here on the entries go round.
    ring.push(8, 7, 0);
    replaced(&mut ring, 2, 9)?;
    agrees(rt.alloc(), &ring, &[(5, 3, 4), (7, 5, 6), (8, 7, 9)])?;
    replaced(&mut ring, 0, 11)?;
    agrees(rt.alloc(), &ring, &[(5, 3, 11), (7, 5, 6), (8, 7, 9)])?;
    ring.restart(9, 1, 1);
    replaced(&mut ring, 0, 3)?;
    agrees(rt.alloc(), &ring, &[(9, 1, 3)])
}

/// Cells to which some pairs were added.
fn filled<L: Ledger>(alloc: Global, blank: Blank) -> Result<PairCells, Fail>
    requires name { blank.name ≡ L.name }
    requires parts { blank.parts ≡ L.parts }
    requires some { 0 < blank.parts }
    ensures { IfOk result (λ cells. length cells.cells ≡ 3) }
{
    let mut steps = Steps::<L>::new(blank);
    let mut cells = PairCells::open(alloc, 3)?;
    cells.add(0, 1 << 79, &mut steps);
    cells.add(2, 5, &mut steps);
    cells.add(2, 0, &mut steps);
    cells.add(0, 1 << 79, &mut steps);
    Ok(cells)
}

/// Cells to which rows were added.
fn rowed<L: Ledger>(alloc: Global, blank: Blank) -> Result<PairCells, Fail>
    requires name { blank.name ≡ L.name }
    requires parts { blank.parts ≡ L.parts }
    requires some { 0 < blank.parts }
    ensures { IfOk result (λ cells. length cells.cells ≡ 4) }
{
    let mut steps = Steps::<L>::new(blank);
    let mut cells = PairCells::open(alloc, 4)?;
    cells.add_row(1, &[3, 40], &mut steps);
    cells.add_row(0, &[70000, 6000, 500], &mut steps);
    Ok(cells)
}

/// A cell that passed 64 bits when a row was added.
fn carried<L: Ledger>(alloc: Global, blank: Blank) -> Result<PairCells, Fail>
    requires name { blank.name ≡ L.name }
    requires parts { blank.parts ≡ L.parts }
    requires some { 0 < blank.parts }
    ensures { IfOk result (λ cells. length cells.cells ≡ 1) }
{
    let mut steps = Steps::<L>::new(blank);
    let mut cells = PairCells::open(alloc, 1)?;
    cells.add(0, (1 << 64) - 1, &mut steps);
    cells.add_row(0, &[7], &mut steps);
    Ok(cells)
}

#[test]
fn a_row_carries(rt: HostRuntime) -> Result<(), Fail> {
    let cells = carried::<Brand>(rt.alloc(), Blank::new(1))?;
    holds(cells.get(0) == (1 << 64) + 6, "carried")
}

#[test]
fn pairs_are_added(rt: HostRuntime) -> Result<(), Fail> {
    let cells = filled::<Brand>(rt.alloc(), Blank::new(1))?;
    holds(
        [cells.get(0), cells.get(1), cells.get(2)] == [1 << 80, 0, 5],
        "pairs",
    )
}

#[test]
fn rows_are_added(rt: HostRuntime) -> Result<(), Fail> {
    let cells = rowed::<Brand>(rt.alloc(), Blank::new(1))?;
    let all = [cells.get(0), cells.get(1), cells.get(2), cells.get(3)];
    holds(all == [70000, 6003, 540, 0], "rows")
}

fn entry(index: u64, a: u64, b: u64) -> Entry {
    Entry { index, a, b }
}

#[test]
fn weights_are_taken_together(_rt: HostRuntime) -> Result<(), Fail> {
    let entries = [entry(7, 3, 0), entry(10, 2, 1), entry(103, 7, 2)];
    holds(total_weight(Side::First, &entries) == 12, "first")?;
    holds(total_weight(Side::Second, &entries) == 3, "second")?;
    let many = [entry(1, u64::MAX, 0), entry(2, 5, 0)];
    holds(total_weight(Side::First, &many) == u64::MAX, "many")
}

/// The products at the lags 1, 4, 10, 13 and 14 of two later entries with two earlier ones: summed for many
/// lags, and for few of them.
fn sums_of_two() -> [[u32; 5]; 2] {
    let mut window = [0; 128];
    let earlier = [
        Entry {
            index: 90,
            a: 2,
            b: 9,
        },
        Entry {
            index: 99,
            a: 1,
            b: 0,
        },
    ];
    put_side(&mut window, Side::First, 64, 100, &earlier);
    let later = [
        Entry {
            index: 100,
            a: 0,
            b: 1,
        },
        Entry {
            index: 103,
            a: 5,
            b: 2,
        },
    ];
    let spots = spots_of(Side::Second, 100, &later);
    let many = byte_lag_sums::<64>(&window, 3, 0, &spots);
    let few = byte_lag_sums::<16>(&window, 3, 48, &spots);
    [
        [many[63], many[60], many[54], many[51], many[50]],
        [few[15], few[12], few[6], few[3], few[2]],
    ]
}

#[test]
fn lags_are_summed_together(_rt: HostRuntime) -> Result<(), Fail> {
    holds(sums_of_two() == [[1, 2, 2, 4, 0]; 2], "sums")
}
