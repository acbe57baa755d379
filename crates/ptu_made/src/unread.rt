// What is still to come of a made file.
ghost use Rattle.std.specs.{Prelude.{◌≡◌, ◌+◌, ◌<◌, ◌≤◌, ◌++◌, [], length, take, min, true, false}, Int.{to_le_bytes, w32}};
ghost use Rattle.{minimal_file.specs.ShortFiles.bytes_in, ptu_made.specs.{Photon.words_of_photon, Records.made_file, Generator.photon_limit}};

use crate::photon_words::PhotonWords;
use crate::photons::{Photons, WRAP};
use minimal_file::{HEADER_SIZE, short_header};
use tally_base::Mode;

/// The bytes of a made file that are still to come: some that are held, and those of the photons.
#[derive(Clone, Copy)]
pub(crate) struct Unread {
    photons: Photons,
    /// The bytes from `next` to `end` are held.
    held: [u8; HEADER_SIZE],
    next: usize,
    end: usize,
    ghost inside: { (next ≤ end) × (end ≤ 112) },
}

impl Unread {
    ghost use Rattle.ptu_made.specs.Unread.{HoldsMore, bytes_left};

    #[tactic(auto, unfolding(crate::specs::Records::made_file, minimal_file::specs::ShortFiles::minimal_file, minimal_file::specs::ShortFiles::short_header))]
    pub(crate) fn new(seed: u64, count: u64) -> Unread
        requires { count ≤ photon_limit }
        ensures { bytes_left result ≡ made_file seed count }
    {
        Unread {
            photons: Photons::new(seed, count),
            held: short_header(Mode::T2),
            next: 0,
            end: HEADER_SIZE,
        }
    }

    /// Holds the bytes of a word after those that are held.
    fn hold(&mut self, word: u32)
        requires { self.old.end + 4 ≤ 112 }
        ensures holds { HoldsMore self.old self.new (to_le_bytes w32 word) }
        ensures end { self.new.end ≡ self.old.end + 4 }
    {
        self.held[self.end..self.end + 4].copy_from_slice(&word.to_le_bytes());
        self.end += 4;
    }

    /// Holds the bytes of a photon after those that are held.
    fn hold_photon(&mut self, photon: PhotonWords)
        requires { self.old.end + 8 ≤ 112 }
        ensures { HoldsMore self.old self.new (bytes_in (words_of_photon photon)) }
    {
        if photon.wraps {
            self.hold(WRAP);
        }
        self.hold(photon.word);
    }

    /// Holds the bytes of the next photon where none are held, and says whether there is one.
    fn hold_next(&mut self) -> bool
        requires { self.old.next ≡ self.old.end }
        ensures same { bytes_left self.new ≡ bytes_left self.old }
        ensures end { result ≡ false → bytes_left self.old ≡ [] }
        ensures fewer { result ≡ true → self.new.photons.left < self.old.photons.left }
    {
        let Some(photon) = self.photons.next() else {
            return false;
        };
        self.next = 0;
        self.end = 0;
        self.hold_photon(photon);
        true
    }

    /// Copies as many of the held bytes as there is room for.
    fn copy_held(&mut self, into: &mut [u8]) -> usize
        ensures room { result ≤ length into.new }
        ensures bytes { bytes_left self.old ≡ take result into.new ++ bytes_left self.new }
        ensures all { result < length into.new → self.new.next ≡ self.new.end }
        ensures photons { self.new.photons ≡ self.old.photons }
    {
        let count = (self.end - self.next).min(into.len());
        into[..count].copy_from_slice(&self.held[self.next..self.next + count]);
        self.next += count;
        count
    }

    /// Gives as many of the bytes as there is room for.
    pub(crate) fn read(&mut self, into: &mut [u8]) -> usize
        ensures count { result ≡ min (length (bytes_left self.old)) (length into.new) }
        ensures bytes { bytes_left self.old ≡ take result into.new ++ bytes_left self.new }
    {
        let mut filled = 0;
        'photons: loop {
            filled += self.copy_held(&mut into[filled..]);
            if filled == into.len() || !self.hold_next() {
                return filled;
            }
        }
    }
}
