// Events in columns.
ghost use Rattle.std.specs.Prelude.{◌≡◌, ◌≤◌, ◌≢◌, ◌+◌, ◌*◌, ◌<◌, ◌++◌, ◌∷◌, ◌&&◌, [], length, take, drop, min, ℕ, nat_lt, slice_index, slice_index_or, if◌then◌else◌};
ghost use Rattle.tally_base.specs.Codes.{code_of, dtime_of, kind_of, joined, code_in, dtime_in, IsByte, InNoGroup};

use crate::event::{Event, EventKind, is_in};
use std::simd::prelude::*;

/// How many words a stream decodes at once.
pub const BLOCK_SIZE: usize = 64;

/// The most events of a block that tables count at once.
pub const TABLE_BLOCK: usize = 1024;

/// Up to `N` events in columns, each with its groups, so that a table reads only the columns that it needs.
#[derive(Clone, Copy)]
pub struct Block<const N: usize> {
    len: usize,
    places: [u64; N],
    times: [u64; N],
    // The input of a photon, or 256 and the bits of a marker, and its dtime in the upper half: one column, so
    // that an event takes a store less.
    marks: [u32; N],
    groups: [u64; N],
    // How many have their groups.
    sorted: usize,
    ghost few: { len ≤ N },
    ghost some: { sorted ≤ len },
    ghost markers: { InNoGroup sorted marks groups },
}

impl<const N: usize> Block<N> {
    ghost use Rattle.tally_base.specs.{Events.{is_photon, is_in}, Gates.side_of, Columns.{HasSorted, events_in, IsSorted, count, sorted, event_at, groups_at, mark_at, code_at, dtime_at, time_at}};
    ghost use Rattle.tally_base.specs.{Columns.{item, gathered, event_by, written, row, rows}, Tally.floor_after};

    /// No events.
    pub fn new() -> Block<N>
        ensures empty { gathered result ≡ [] }
        ensures unsorted { sorted result ≡ 0 }
    {
        Block {
            len: 0,
            places: [0; N],
            times: [0; N],
            marks: [0; N],
            groups: [0; N],
            sorted: 0,
        }
    }

    /// How many events there are.
    #[inline(always)]
    pub fn len(&self) -> usize
        ensures value { result ≡ length (gathered self.now) }
        ensures count { result ≡ count self.now }
        ensures few { result ≤ N }
    {
        self.len
    }

    /// The event at a place, from 0, with its groups.
    #[inline(always)]
    pub fn get(&self, at: usize) -> (Event, u64)
        requires { at < count self.now }
        ensures { result ≡ item self.now at }
    {
        (self.event(at), self.groups[at])
    }

    /// The event at a place, from 0.
    #[inline(always)]
    pub fn event(&self, at: usize) -> Event
        requires { at < count self.now }
        ensures { result ≡ event_at self.now at }
    {
        Event {
            place: self.places[at],
            kind: kind_of(code_in(self.marks[at]), dtime_in(self.marks[at])),
            time: self.times[at],
        }
    }

    /// The input of the photon at a place, from 0, or at least 256 for a marker.
    #[inline(always)]
    pub fn code(&self, at: usize) -> u16
        requires { at < count self.now }
        ensures { result ≡ code_at self.now at }
    {
        code_in(self.marks[at])
    }

    /// The dtime of the event at a place, from 0. That of a marker has no meaning.
    #[inline(always)]
    pub fn dtime(&self, at: usize) -> u16
        requires { at < count self.now }
        ensures { result ≡ dtime_at self.now at }
    {
        dtime_in(self.marks[at])
    }

    /// The time of the event at a place, from 0.
    #[inline(always)]
    pub fn time(&self, at: usize) -> u64
        requires { at < count self.now }
        ensures { result ≡ time_at self.now at }
    {
        self.times[at]
    }

    /// Whether the event at a place, from 0, is a photon of the group, 1 to 64. It takes no branch: a
    /// marker is in no group.
    #[inline(always)]
    pub fn has_photon(&self, at: usize, group: u8) -> bool
        requires inside { at < sorted self.now }
        requires group { (0 < group) × (group ≤ 64) }
        ensures { result ≡ (is_in (groups_at self.now at) group && nat_lt (code_at self.now at) 256) }
    {
        is_in(self.groups[at], group)
    }

    /// The marks of the eight events from a place on: what each of them is, as one number.
    #[inline(always)]
    pub fn marks_from(&self, at: usize) -> u32x8
        requires { at + 8 ≤ count self.now }
        ensures lanes { length result ≡ 8 }
        ensures marks { (i : ℕ) → i < 8 → slice_index result i ≡ mark_at self.now (at + i) }
    {
        let marks = &self.marks[..];
        u32x8::from_slice(&marks[at..])
    }

    /// The groups of the eight events from a place on. A marker has none.
    #[inline(always)]
    pub fn groups_from(&self, at: usize) -> u64x8
        requires { at + 8 ≤ sorted self.now }
        ensures lanes { length result ≡ 8 }
        ensures groups { (i : ℕ) → i < 8 → slice_index result i ≡ groups_at self.now (at + i) }
        ensures markers { (i : ℕ) → i < 8 → 256 ≤ code_at self.now (at + i) → slice_index result i ≡ 0 }
    {
        let groups = &self.groups[..];
        u64x8::from_slice(&groups[at..])
    }

    /// 1 where the event at a place, from 0, is a photon of the group, 1 to 64, else 0. It takes no branch.
    #[inline(always)]
    pub fn photons_in(&self, at: usize, group: u8) -> u64
        requires inside { at < sorted self.now }
        requires group { (0 < group) × (group ≤ 64) }
        ensures { result ≡ (if is_in (groups_at self.now at) group && nat_lt (code_at self.now at) 256 then 1 else 0) }
    {
        u64::from(self.has_photon(at, group))
    }

    /// The time of the last event that comes in order, or this one. In a strict order markers come too.
    pub fn floor_after(&self, strict: bool, floor: u64) -> u64
        ensures { result ≡ floor_after strict floor (gathered self.now) }
    {
        let mut at = self.len().min(N);
        'back: while at > 0 {
            at -= 1;
            let moves = strict | (code_in(self.marks[at]) < 256);
            if moves {
                return self.times[at];
            }
        }
        floor
    }

    /// Puts the first so many of eight events after the others. What is written after them is no event of the block.
    #[inline(always)]
    pub fn put_eight(&mut self, places: u64x8, marks: u32x8, times: u64x8, front: usize)
        requires lanes { (length places ≡ 8) × (length marks ≡ 8) × (length times ≡ 8) }
        requires front { front ≤ 8 }
        requires room { count self.old + 8 ≤ N }
        ensures more { gathered self.new ≡ gathered self.old ++ rows (row places times marks) front }
        ensures unsorted { sorted self.new ≡ sorted self.old }
    {
        let start = self.len();
        copy_front(&mut self.places, start, &places.to_array(), 8);
        copy_front(&mut self.times, start, &times.to_array(), 8);
        copy_front(&mut self.marks, start, &marks.to_array(), 8);
        self.len = start + front;
    }

    /// Puts an event after the others. There are fewer than `N`. Its groups are to be put.
    #[inline(always)]
    pub fn push(&mut self, e: &Event)
        requires { length (gathered self.old) < N }
        ensures more { gathered self.new ≡ gathered self.old ++ e.now ∷ [] }
        ensures unsorted { sorted self.new ≡ sorted self.old }
    {
        let at = self.len();
        self.places[at] = e.place;
        self.times[at] = e.time;
        self.marks[at] = joined(code_of(&e.kind), dtime_of(&e.kind));
        self.len = at + 1;
    }

    /// Puts the first so many events of another block after the others, each column at once. Their groups are
    /// to be put.
    #[inline(always)]
    pub fn push_front<const M: usize>(&mut self, other: &Block<M>, front: usize)
        requires inside { front ≤ count other.now }
        requires room { length (gathered self.old) + front ≤ N }
        ensures more { gathered self.new ≡ gathered self.old ++ written other.now front }
        ensures unsorted { sorted self.new ≡ sorted self.old }
    {
        let start = self.len();
        copy_front(&mut self.places, start, &other.places, front);
        copy_front(&mut self.times, start, &other.times, front);
        copy_front(&mut self.marks, start, &other.marks, front);
        self.len = start + front;
    }

    /// Gives the event at a place, from 0, another dtime. That of a marker has no meaning.
    #[inline(always)]
    pub fn set_dtime(&mut self, at: usize, dtime: u16)
        requires inside { at < count self.old }
        ensures there { event_at self.new at ≡ event_by (event_at self.old at).place
            (code_at self.old at) dtime (time_at self.old at) }
        ensures others { (i : ℕ) → i ≢ at → event_at self.new i ≡ event_at self.old i }
        ensures count { count self.new ≡ count self.old }
        ensures unsorted { sorted self.new ≡ sorted self.old }
    {
        self.marks[at] = joined(code_in(self.marks[at]), dtime);
    }

    /// Puts the groups of the event at a place, from 0, once those before it have theirs. A marker has none.
    #[inline(always)]
    pub fn put(&mut self, at: usize, groups: u64)
        requires inside { at < count self.old }
        requires next { at ≡ sorted self.old }
        requires marker { 256 ≤ code_at self.old at → groups ≡ 0 }
        ensures kept { HasSorted self.old self.new (at + 1) }
        ensures there { groups_at self.new at ≡ groups }
        ensures before { (i : ℕ) → i < at → groups_at self.new i ≡ groups_at self.old i }
    {
        self.groups[at] = groups;
        self.sorted = at + 1;
    }

    /// Puts the groups of all events, each at its place. A marker has none. What stands after the last event
    /// has no meaning.
    #[inline(always)]
    pub fn put_all(&mut self, groups: &[u64; N])
        requires { (i : ℕ) → i < count self.old → 256 ≤ code_at self.old i
            → slice_index groups.now i ≡ 0 }
        ensures kept { HasSorted self.old self.new (count self.old) }
        ensures there { (i : ℕ) → groups_at self.new i ≡ slice_index groups.now i }
    {
        self.groups = *groups;
        self.sorted = self.len;
    }

    /// Finds the groups of all events by a table, which has those of the photons of each input, and none after
    /// them, where markers are looked up.
    #[inline(always)]
    pub fn sort_by(&mut self, groups: &[u64; 257])
        requires { slice_index groups.now 256 ≡ 0 }
        ensures kept { HasSorted self.old self.new (count self.old) }
        ensures there { (i : ℕ) → i < count self.old
            → groups_at self.new i ≡ slice_index groups.now (min (code_at self.old i) 256) }
    {
        self.sorted = 0;
        let len = self.len.min(N);
        let eights = len / 8;
        look_up(&self.marks, groups, &mut self.groups, eights);
        for at in 8 * eights..len {
            let code = code_in(self.marks[at]) as usize;
            self.groups[at] = groups[code.min(256)];
        }
        self.sorted = self.len;
    }

    /// Finds the groups of all events by a gate, a range of dtimes from its first number on and below its second,
    /// and a table. It has those of the photons of each input, first of those whose dtimes aren't in the gate and
    /// then of those whose are, and none after them, where markers are looked up.
    #[inline(always)]
    pub fn sort_by_gate(&mut self, gate: (u16, u16), groups: &[[u64; 2]; 257])
        requires { slice_index_or groups.now 256 [] ≡ 0 ∷ 0 ∷ [] }
        ensures kept { HasSorted self.old self.new (count self.old) }
        ensures there { (i : ℕ) → i < count self.old → groups_at self.new i
            ≡ slice_index (slice_index_or groups.now (min (code_at self.old i) 256) [])
            (side_of gate (dtime_at self.old i)) }
    {
        self.sorted = 0;
        for at in 0..self.len.min(N) {
            let dtime = dtime_in(self.marks[at]);
            // No branch on the dtime, which is as good as random from photon to photon.
            let inside = (gate.0 <= dtime) & (dtime < gate.1);
            let code = code_in(self.marks[at]) as usize;
            self.groups[at] = groups[code.min(256)][inside as usize];
        }
        self.sorted = self.len;
    }

    /// Drops all events.
    #[inline(always)]
    pub fn clear(&mut self)
        ensures empty { gathered self.new ≡ [] }
        ensures unsorted { sorted self.new ≡ 0 }
    {
        self.len = 0;
        self.sorted = 0;
    }
}

impl Block<TABLE_BLOCK> {
    ghost use Rattle.tally_base.{specs.Events.is_photon, specs.Columns.{events_in, IsSorted, gathered}};

    /// This event alone, with its groups, or with none where it is a marker.
    pub fn of_one(e: &Event, groups: u64) -> Block<TABLE_BLOCK>
        ensures sorted { IsSorted result }
        ensures event { gathered result ≡ e.now ∷ [] }
        ensures events { events_in result ≡ (e.now, if is_photon e.now then groups else 0) ∷ [] }
    {
        let mut block = Block::new();
        block.push(e);
        block.put(0, if e.is_photon() { groups } else { 0 });
        block
    }
}

/// Copies the first so many numbers of a column into another one, from a place on.
#[inline(always)]
fn copy_front<T: Copy>(column: &mut [T], start: usize, other: &[T], front: usize)
    requires inside { (front ≤ length other.now) × (start + front ≤ length column.old) }
    ensures { column.new
        ≡ take start column.old ++ (take front other.now ++ drop (start + front) column.old) }
{
    column[start..start + front].copy_from_slice(&other[..front]);
}

/// Finds the groups of the first events of a block by their marks and a table, so many times eight.
#[inline(always)]
fn look_up(marks: &[u32], table: &[u64; 257], groups: &mut [u64], eights: usize)
    requires inside { (8 * eights ≤ length marks.now) × (8 * eights ≤ length groups.old) }
    ensures { (i : ℕ) → i < 8 * eights → slice_index groups.new i
        ≡ slice_index table.now (min (code_in (slice_index marks.now i)) 256) }
{
    for k in 0..eights {
        look_up_eight(marks, table, groups, 8 * k);
    }
}

/// Finds the groups of the eight events from a place on.
#[inline(always)]
fn look_up_eight(marks: &[u32], table: &[u64; 257], groups: &mut [u64], at: usize)
    requires inside { (at + 8 ≤ length marks.now) × (at + 8 ≤ length groups.old) }
    ensures there { (i : ℕ) → at ≤ i → i < at + 8 → slice_index groups.new i
        ≡ slice_index table.now (min (code_in (slice_index marks.now i)) 256) }
    ensures others { (i : ℕ) → i < at → slice_index groups.new i ≡ slice_index groups.old i }
{
    let codes = codes_from(marks, at);
    for j in 0..8usize {
        groups[at + j] = table[codes[j] as usize];
    }
}

/// The codes in eight marks from a place on, and 256 for each marker.
#[inline(always)]
fn codes_from(marks: &[u32], at: usize) -> [u32; 8]
    requires { at + 8 ≤ length marks.now }
    ensures { (j : ℕ) → j < 8 → slice_index result j ≡ min (code_in (slice_index marks.now (at + j))) 256 }
{
    let codes = u32x8::from_slice(&marks[at..]) & u32x8::splat(0xFFFF);
    codes.simd_min(u32x8::splat(256)).to_array()
}

#[inline(always)]
fn code_of(kind: &EventKind) -> u16
    ensures value { result ≡ code_of kind.now }
    ensures byte { IsByte kind.now }
{
    match *kind {
        EventKind::Photon { input, .. } => u16::from(input),
        EventKind::Marker { bits } => 256 + u16::from(bits),
    }
}

#[inline(always)]
fn dtime_of(kind: &EventKind) -> u16
    ensures { result ≡ dtime_of kind.now }
{
    match *kind {
        EventKind::Photon { dtime, .. } => dtime,
        EventKind::Marker { .. } => 0,
    }
}

#[inline(always)]
fn kind_of(code: u16, dtime: u16) -> EventKind
    ensures { result ≡ kind_of code dtime }
{
    if code < 256 {
        EventKind::Photon {
            input: code as u8,
            dtime,
        }
    } else {
        EventKind::Marker {
            bits: (code % 256) as u8,
        }
    }
}

/// What an event is as one number, its mark: the input of a photon, or 256 and the bits of a marker, and its dtime in the
/// upper half.
#[inline(always)]
pub fn joined(code: u16, dtime: u16) -> u32
    ensures { result ≡ joined code dtime }
{
    u32::from(code) + 0x1_0000 * u32::from(dtime)
}

/// The code in a mark.
#[inline(always)]
pub fn code_in(mark: u32) -> u16
    ensures { result ≡ code_in mark }
{
    (mark % 0x1_0000) as u16
}

/// The dtime in a mark.
#[inline(always)]
pub fn dtime_in(mark: u32) -> u16
    ensures { result ≡ dtime_in mark }
{
    (mark / 0x1_0000) as u16
}
