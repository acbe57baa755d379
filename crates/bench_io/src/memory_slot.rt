// One slot of inputs in memory.
ghost use Rattle.std.specs.{Prelude.{◌≡◌, ◌+◌, ◌^◌, ◌<◌, ◌⊎◌, Some, None, true, false, length, take, min, slice_get, IsSome, IfOk, IsOk, ◌↔◌, MatchOption, OnErr, OnOk}, Io.ReadsAtMost};
ghost use Rattle.bench_io.specs.{Given.ReadGives, MemoryParts.limited, Memory.{file_named, rest_of_file}, MemorySlots.{OpensFile, StaysOpen, was_opened, rest_in, given_in}};
ghost use Rattle.tally_base.specs.FaultCounts.{FailsOnce};

use crate::memory_file::MemoryFile;
use tally_base::Failed;

#[derive(Clone, Copy)]
pub(crate) enum FileState {
    Unasked,
    Refused,
    Open {
        file: usize,
        at: usize,
        /// a read has said the end
        ended: bool,
    },
}

#[derive(Drop)]
pub(crate) struct MemorySlot {
    reading: FileState,
    open_faults: u64,
    read_faults: u64,
}

/// The place of the first file of a name.
fn place_of(files: &[MemoryFile], name: &str) -> Option<usize>
    ensures { MatchOption result (file_named files.now name.now ≡ None)
        (λ i. file_named files.now name.now ≡ Some (rest_of_file (slice_get files.now i) 0)) }
{
    for (i, file) in files.iter().enumerate() {
        if file.name() == name {
            return Some(i);
        }
    }
    None
}

/// What is left of a file from a place on.
fn left(files: &[MemoryFile], file: usize, at: usize) -> &[u8]
    ensures fits { at + length result.now < 2 ^ 64 }
    ensures bytes { result.now ≡ rest_of_file (slice_get files.now file) at }
{
    match files.get(file) {
        Some(file) => {
            let bytes = file.bytes();
            if at < bytes.len() {
                bytes.split_at(at).1
            } else {
                &[]
            }
        }
        None => &[],
    }
}

/// How many of the wanted bytes a read gives under an entry.
fn limit(entry: Option<usize>, wanted: usize) -> usize
    ensures { result ≡ limited entry wanted }
{
    match entry {
        Some(entry) => entry.max(1).min(wanted),
        None => wanted,
    }
}

/// Copies as much from the front as there is, as there is room for and as the entry allows.
fn copy_front(from: &[u8], into: &mut [u8], entry: Option<usize>) -> usize
    ensures count { result ≡ limited entry (min (length from.now) (length into.old)) }
    ensures bytes { take result into.new ≡ take result from.now }
    ensures room { result ≡ length (take result into.new) }
{
    let count = limit(entry, from.len().min(into.len()));
    into[..count].copy_from_slice(&from[..count]);
    count
}

/// Whether the end was said, by this read or before: a read that gives bytes says none.
fn is_end(count: usize, into: &[u8], ended: bool) -> bool
    ensures { (result ≡ true) ↔ ((count ≡ 0) × ((ended ≡ true) ⊎ (0 < length into.now))) }
{
    count == 0 && (ended || !into.is_empty())
}

impl MemorySlot {
    pub(crate) fn new() -> MemorySlot
        ensures { result ≡ record { reading = FileState.Unasked; open_faults = 0; read_faults = 0 } }
    {
        MemorySlot {
            reading: FileState::Unasked,
            open_faults: 0,
            read_faults: 0,
        }
    }

    pub(crate) fn open(
        &mut self,
        files: &[MemoryFile],
        name: &str,
        fails: bool,
    ) -> Result<(), Failed>
        ensures opens { OpensFile files.now name.now self.new.reading result }
        ensures succeeds { IsOk result ↔ ((fails ≡ false) × IsSome (file_named files.now name.now)) }
        ensures cause { FailsOnce self.old.open_faults self.new.open_faults result }
        ensures read_faults { self.new.read_faults ≡ self.old.read_faults }
    {
        if !fails {
            if let Some(file) = place_of(files, name) {
                self.reading = FileState::Open {
                    file,
                    at: 0,
                    ended: false,
                };
                return Ok(());
            }
        }
        self.reading = FileState::Refused;
        self.open_faults = self.open_faults.saturating_add(1);
        Err(Failed)
    }

    pub(crate) fn read(
        &mut self,
        files: &[MemoryFile],
        into: &mut [u8],
        entry: Option<usize>,
        fails: bool,
    ) -> Result<usize, Failed>
        requires { was_opened self.old.reading ≡ true }
        ensures bound { ReadsAtMost result into.new }
        ensures gives { ReadGives (given_in files.now self.old.reading) (given_in files.now self.new.reading) result into.new }
        ensures stays { StaysOpen files.now self.old self.new }
        ensures succeeds { IsOk result ↔ (fails ≡ false) }
        ensures count { IfOk result (λ n. n ≡
            limited entry
            (min (length (rest_in files.now self.old.reading)) (length into.old))) }
        ensures cause { FailsOnce self.old.read_faults self.new.read_faults result }
    {
        let FileState::Open { file, at, ended } = self.reading else {
            unreachable!()
        };
        if fails {
            self.read_faults = self.read_faults.saturating_add(1);
            return Err(Failed);
        }
        let count = copy_front(left(files, file, at), into, entry);
        self.reading = FileState::Open {
            file,
            at: at + count,
            ended: is_end(count, into, ended),
        };
        Ok(count)
    }
}
