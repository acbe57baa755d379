// The recent occupied bins.
ghost use Rattle.std.specs.{Prelude.{◌≡◌, ◌+◌, ◌<◌, ◌≤◌, [], ◌∷◌, ◌++◌, IfOk, filter, length, nat_le, slice_get, slice_set, Some, true}, List.AllByRecursion};
ghost use Rattle.{circular_buffer.specs.Buffer.buffer, lag_ring.specs.Ring.{IsRising, spare, ring, kept_or}};

use circular_buffer::HeapCircularBuffer;
use std::alloc::{AllocError, Global};
use std::marker::Model;
use std::slice;

/// A bin of time that has photons, with their numbers in two groups.
#[derive(Clone, Copy)]
pub struct Entry {
    /// The number of the bin.
    pub index: u64,
    /// How many of its photons are in the first group.
    pub a: u64,
    /// How many of its photons are in the second group.
    pub b: u64,
}

impl Entry {
    /// An entry of no photons.
    #[inline(always)]
    pub fn at(index: u64) -> Entry
        ensures { result ≡ record { index = index; a = 0; b = 0 } }
    {
        Entry { index, a: 0, b: 0 }
    }
}

impl Default for Entry {
    /// An entry of no photons.
    fn default() -> Entry {
        Entry::at(0)
    }
}

/// The last occupied bins, in the order of their rising indices. There are never more of them than its
/// reach.
///
/// Contracts see a list of entries, and the reach. A ring that began anew has its only entry beside
/// the buffer, which is empty until another comes.
///
/// The lists that it keeps: `kept`.
#[derive(Drop)]
pub struct LagRing {
    kept: HeapCircularBuffer<Entry>,
    /// The entry that was appended last.
    last: Entry,
    /// It is the only one, and the buffer is empty.
    alone: bool,
}

impl Model for LagRing {
    ghost use Rattle.std.{specs.Prelude.{◌≡◌, ◌<◌, ◌≤◌, ◌^◌, [], length, true}, specs.List.{AllByRecursion}};
    ghost use Rattle.lag_ring.specs.Ring.{Ring, ring, IsRising, kept_or, ring_code};

    ghost Value = { Ring };

    ghost coded = { ring_code };

    ghost view = { λ r. ring (kept_or r.alone r.last r.kept.items) r.kept.capacity };

    ghost invariant = { λ r. AllByRecursion (λ e. e.index ≤ r.last.index) (kept_or r.alone r.last r.kept.items)
        × IsRising (kept_or r.alone r.last r.kept.items) × (length (kept_or r.alone r.last r.kept.items) ≤ r.kept.capacity)
        × (0 < r.kept.capacity) × (r.kept.capacity < 2 ^ 32)
        × (r.alone ≡ true → r.kept.items ≡ []) };
}

/// Puts the only entry of a ring that began anew into the buffer, so that another can stand after it.
#[inline(always)]
fn lay_out(kept: &mut HeapCircularBuffer<Entry>, last: &Entry, alone: bool)
    requires room { length (kept_or alone last.now kept.old.items) ≤ kept.old.capacity }
    requires empty { alone ≡ true → kept.old.items ≡ [] }
    ensures { kept.new ≡ buffer (kept_or alone last.now kept.old.items) kept.old.capacity }
{
    if alone {
        kept.push_back(*last);
    }
}

/// Removes the entries with an index below `before`, and no others.
#[inline(always)]
fn drop_before(kept: &mut HeapCircularBuffer<Entry>, before: u64)
    requires rising { IsRising kept.old.items }
    ensures kept { kept.new.items ≡ filter (λ e. nat_le before e.index) kept.old.items }
    ensures same { kept.new.capacity ≡ kept.old.capacity }
    ensures rising { IsRising kept.new.items }
    ensures within { length kept.new.items ≤ length kept.old.items }
{
    while let Some(e) = kept.front() {
        if e.index >= before {
            break;
        }
        kept.pop_front();
    }
}

impl LagRing {
    ghost use Rattle.lag_ring.specs.declared.ring.Entry.{Entry};

    /// A ring of no entries, with room for `reach`, or `AllocError` where there is not enough memory for them.
    pub fn open(alloc: Global, reach: u32) -> Result<LagRing, AllocError>
        requires some { 0 < reach }
        ensures empty { IfOk result (λ r. r ≡ ring [] reach) }
    {
        Ok(LagRing {
            kept: HeapCircularBuffer::with_capacity(alloc, reach as usize)?,
            last: Entry::at(0),
            alone: false,
        })
    }

    /// How many entries there are.
    pub fn len(&self) -> u32
        ensures len { result ≡ length self.now.entries }
        ensures rising { IsRising self.now.entries }
        ensures within { length self.now.entries ≤ self.now.reach }
    {
        if self.alone {
            1
        } else {
            self.kept.len() as u32
        }
    }

    /// Removes the entries with an index below `before`, and no others.
    #[inline(always)]
    #[tactic(auto, using(crate::proofs::Lists::all_filter))]
    pub fn retire(&mut self, before: u64)
        ensures kept { self.new ≡ ring (filter (λ e. nat_le before e.index) self.old.entries) self.old.reach }
        ensures rising { IsRising self.new.entries }
        ensures within { length self.new.entries ≤ self.new.reach }
    {
        lay_out(&mut self.kept, &self.last, self.alone);
        self.alone = false;
        drop_before(&mut self.kept, before);
    }

    /// Appends an entry. Its index is above all that are kept, and a place is free.
    #[inline(always)]
    pub fn push(&mut self, index: u64, a: u64, b: u64)
        requires above { AllByRecursion (λ e. e.index < index) self.old.entries }
        requires room { 0 < spare self.old }
        ensures pushed { self.new ≡ ring (self.old.entries ++ record { index = index; a = a; b = b } ∷ []) self.old.reach }
        ensures within { length self.new.entries ≤ self.new.reach }
    {
        lay_out(&mut self.kept, &self.last, self.alone);
        self.alone = false;
        self.last = Entry { index, a, b };
        self.kept.push_back(self.last);
    }

    /// Appends entries, and removes those with an index below `before`, and no others. All are near: none is the reach
    /// or further above `before`, so that no more stay than there is room for.
    #[inline(always)]
    pub fn renew(&mut self, entries: &[Entry], before: u64)
        requires some { 0 < length entries.now }
        requires rising { IsRising (self.old.entries ++ entries.now) }
        requires near { AllByRecursion (λ e. e.index < before + self.old.reach) (self.old.entries ++ entries.now) }
        ensures kept { self.new ≡ ring (filter (λ e. nat_le before e.index) (self.old.entries ++ entries.now)) self.old.reach }
    {
        lay_out(&mut self.kept, &self.last, self.alone);
        self.alone = false;
        self.kept.extend_from_slice(entries);
        drop_before(&mut self.kept, before);
        self.last = entries[entries.len() - 1];
    }

    /// An index that no entry is above. A greater one than need be would cost time alone.
    #[inline(always)]
    pub fn newest(&self) -> u64
        ensures newest { AllByRecursion (λ e. e.index ≤ result) self.now.entries }
    {
        self.last.index
    }

    /// Removes all entries, and puts this one into their place.
    #[inline(always)]
    pub fn restart(&mut self, index: u64, a: u64, b: u64)
        ensures alone { self.new ≡ ring (record { index = index; a = a; b = b } ∷ []) self.old.reach }
    {
        if !self.alone {
            self.kept.clear();
        }
        self.last = Entry { index, a, b };
        self.alone = true;
    }

    /// Removes all entries, and puts these into their place.
    #[inline(always)]
    #[tactic(auto, using(crate::proofs::Rising::upto_end))]
    pub fn refill(&mut self, entries: &[Entry])
        requires rising { IsRising entries.now }
        requires room { length entries.now ≤ self.old.reach }
        ensures filled { self.new ≡ ring entries.now self.old.reach }
    {
        self.kept.clear();
        self.kept.extend_from_slice(entries);
        self.alone = false;
        if let Some(last) = entries.last() {
            self.last = *last;
        }
    }

    /// The entry at place `i` from the front, which is 0 for the first.
    #[inline(always)]
    pub fn visit(&self, i: u32) -> Entry
        requires inside { i < length self.now.entries }
        ensures entry { slice_get self.now.entries i ≡ Some result }
    {
        if self.alone {
            self.last
        } else {
            *self.kept.get(i as usize).unwrap()
        }
    }

    /// Replaces `b` of the entry at place `i` from the front, which is 0 for the first. Its index and its `a`
    /// stay, and so do all other entries.
    #[inline(always)]
    pub fn set_b(&mut self, i: u32, b: u64)
        requires inside { i < length self.old.entries }
        ensures set { (e : Entry) → slice_get self.old.entries i ≡ Some e
            → self.new ≡ ring
            (slice_set self.old.entries i (record { index = e.index; a = e.a; b = b }))
            self.old.reach }
    {
        lay_out(&mut self.kept, &self.last, self.alone);
        self.alone = false;
        if let Some(entry) = self.kept.get_mut(i as usize) {
            entry.b = b;
        }
    }

    /// The entries in two slices, which hold them one after the other.
    #[inline(always)]
    pub fn slices(&self) -> (&[Entry], &[Entry])
        ensures entries { result.0.now ++ result.1.now ≡ self.now.entries }
        ensures rising { IsRising self.now.entries }
    {
        if self.alone {
            (slice::from_ref(&self.last), &[])
        } else {
            self.kept.as_slices()
        }
    }
}
