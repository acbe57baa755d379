// Cells that count in one byte each until one of them needs more.
ghost use Rattle.std.specs.{Prelude.{◌≡◌, ◌≢◌, ℕ, ◌+◌, ◌*◌, ◌/◌, ◌%◌, ◌^◌, ◌<◌, ◌≤◌, length, slice_index, vec_capacity, IfOk, replicate, slice_set}, Int.div_ceil};
ghost use Rattle.flim_cube.specs.Bytes.{byte_in};

use std::alloc::{AllocError, Global};

/// Counts of 64 bits, with room for eight bytes of each, which is taken at the start.
///
/// The lowest bytes of all counts stand together, after them the second bytes of all, and so on. Bytes that
/// no count has come to yet aren't there, and stand for 0. So as long as no count is above 255, counting
/// touches an eighth of the room alone.
///
/// The lists that it keeps: `bytes`.
#[derive(Drop)]
pub(crate) struct Cells {
    // The bytes one after the other, eight in an entry.
    bytes: Vec<[u8; 8]>,
    // How many counts there are.
    size: usize,
    // How many bytes of each are there.
    wide: usize,
    ghost few: { size < 2 ^ 32 },
    ghost some: { (1 ≤ wide) × (wide ≤ 8) },
    ghost there: { length bytes.items ≡ div_ceil (wide * size) 8 },
    ghost room: { size ≤ vec_capacity bytes },
    ghost zeros: { (place : ℕ) → wide * size ≤ place → byte_in bytes.items place ≡ 0 },
}

/// The byte at a place.
#[inline(always)]
#[tactic(auto, unfolding(crate::specs::Bytes::byte_in))]
fn byte(bytes: &[[u8; 8]], place: usize) -> u8
    requires inside { place < 8 * length bytes.now }
    ensures { result ≡ byte_in bytes.now place }
{
    bytes[place / 8][place % 8]
}

/// Puts a byte at a place.
#[inline(always)]
#[tactic(auto, using(crate::proofs::Bytes::put_own, crate::proofs::Bytes::put_other))]
fn put_byte(bytes: &mut [[u8; 8]], place: usize, byte: u8)
    requires inside { place < 8 * length bytes.old }
    ensures own { byte_in bytes.new place ≡ byte }
    ensures others { (other : ℕ) → other ≢ place → byte_in bytes.new other ≡ byte_in bytes.old other }
{
    bytes[place / 8][place % 8] = byte;
}

/// Puts as many bytes of a count as are there of each, where there are so many counts.
fn put_bytes(bytes: &mut [[u8; 8]], size: usize, wide: usize, at: usize, parts: [u8; 8])
    requires few { size < 2 ^ 32 }
    requires narrow { wide ≤ 8 }
    requires there { wide * size ≤ 8 * length bytes.old }
    requires inside { at < size }
    ensures own { (i : ℕ) → i < wide → byte_in bytes.new (i * size + at) ≡ slice_index parts i }
    ensures others { (place : ℕ) → place % size ≢ at → byte_in bytes.new place ≡ byte_in bytes.old place }
    ensures behind { (place : ℕ) → wide * size ≤ place → byte_in bytes.new place ≡ byte_in bytes.old place }
{
    for i in 0..wide {
        put_byte(bytes, i * size + at, parts[i]);
    }
}

/// How many bytes of a number there have to be, of its eight, the lowest first. The further ones are 0.
fn width_of(parts: [u8; 8]) -> usize
    ensures narrow { result ≤ 8 }
    ensures rest { (i : ℕ) → result ≤ i → i < 8 → slice_index parts i ≡ 0 }
{
    let mut wide = 0;
    for i in 0..8 {
        if parts[i] != 0 {
            wide = i + 1;
        }
    }
    wide
}

impl Cells {
    ghost use Rattle.flim_cube.specs.Cells.{counts_of, entries_of, part_of, width_of_each};

    /// So many cells, each 0, or `AllocError` where there is not enough memory for them. It takes all the memory that
    /// they ever need.
    pub(crate) fn open(alloc: Global, size: u32) -> Result<Cells, AllocError>
        ensures zeros { IfOk result (λ cells. counts_of cells ≡ replicate size 0) }
        ensures narrow { IfOk result (λ cells. entries_of cells ≡ div_ceil size 8) }
    {
        let size = size as usize;
        let mut bytes = Vec::with_capacity(alloc, size)?;
        bytes.resize(size.div_ceil(8), [0; 8])?;
        Ok(Cells {
            bytes,
            size,
            wide: 1,
        })
    }

    /// The count of a cell.
    #[inline(always)]
    pub(crate) fn get(&self, at: usize) -> u64
        requires inside { at < length (counts_of self.now) }
        ensures { result ≡ slice_index (counts_of self.now) at }
    {
        if self.wide == 1 {
            u64::from(byte(&self.bytes, at))
        } else {
            self.whole(at)
        }
    }

    /// The count of a cell by all its bytes.
    // Not inlined, so that a loop over cells of one byte has the registers for itself.
    #[inline(never)]
    fn whole(&self, at: usize) -> u64
        requires inside { at < length (counts_of self.now) }
        ensures { result ≡ slice_index (counts_of self.now) at }
    {
        if self.wide == 2 {
            return u64::from(u16::from_le_bytes([self.part(0, at), self.part(1, at)]));
        }
        u64::from_le_bytes([
            self.part(0, at),
            self.part(1, at),
            self.part(2, at),
            self.part(3, at),
            self.part(4, at),
            self.part(5, at),
            self.part(6, at),
            self.part(7, at),
        ])
    }

    /// A byte of the count of a cell, the lowest of which is byte 0.
    #[inline(always)]
    fn part(&self, i: usize, at: usize) -> u8
        requires low { i < 8 }
        requires inside { at < length (counts_of self.now) }
        ensures { result ≡ part_of self.now i at }
    {
        if i < self.wide {
            byte(&self.bytes, i * self.size + at)
        } else {
            0
        }
    }

    /// Adds to the count of a cell.
    #[inline(always)]
    pub(crate) fn add(&mut self, at: usize, more: u64)
        requires inside { at < length (counts_of self.old) }
        requires fits { slice_index (counts_of self.old) at + more < 2 ^ 64 }
        ensures { counts_of self.new ≡ slice_set (counts_of self.old) at (slice_index (counts_of self.old) at + more) }
    {
        let low = u64::from(byte(&self.bytes, at)) + more;
        if low < 256 {
            put_byte(&mut self.bytes, at, low as u8);
        } else {
            let count = self.whole(at) + more;
            self.put(at, count);
        }
    }

    /// Puts the count of a cell in all its bytes.
    // Not inlined, as it comes at most once in 256 photons of a cell.
    #[inline(never)]
    fn put(&mut self, at: usize, count: u64)
        requires { at < length (counts_of self.old) }
        ensures { counts_of self.new ≡ slice_set (counts_of self.old) at count }
    {
        let parts = count.to_le_bytes();
        self.widen(width_of(parts));
        put_bytes(&mut self.bytes, self.size, self.wide, at, parts);
    }

    /// Has at least so many bytes of each count there.
    fn widen(&mut self, wide: usize)
        requires { wide ≤ 8 }
        ensures counts { counts_of self.new ≡ counts_of self.old }
        ensures wide { wide ≤ width_of_each self.new }
    {
        if wide <= self.wide {
            return;
        }
        match self.bytes.resize((wide * self.size).div_ceil(8), [0; 8]) {
            Ok(()) => self.wide = wide,
            Err(_) => unreachable!(),
        }
    }
}
