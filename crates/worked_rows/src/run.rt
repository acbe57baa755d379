// Runs of rows over files in memory.

use crate::rows::{Room, Row};
use bench_io::{Inputs, MemoryFile, MemoryInputs, MemorySink};
use ptu_cli::{FileInputs, ptu_main};
use std::alloc::{AllocError, Global};
use tally_base::{Failed, Slot};

/// Inputs that count their reads.
#[derive(Drop)]
struct Counted {
    inputs: MemoryInputs,
    reads: u64,
}

impl Inputs for Counted {
    ghost use Rattle.bench_io.specs.MemorySlots.{slots_asked_first, slots_agree};

    ghost state = { λ counted. ⟦<MemoryInputs as Inputs>⟧.state counted.inputs };

    ghost asked_first = { λ counted. slots_asked_first counted.inputs };

    ghost agrees = { λ counted. slots_agree counted.inputs };

    fn open(&mut self, slot: Slot, name: &str) -> Result<(), Failed> {
        self.inputs.open(slot, name)
    }

    fn read(&mut self, slot: Slot, into: &mut [u8]) -> Result<usize, Failed> {
        self.reads = self.reads.saturating_add(1);
        self.inputs.read(slot, into)
    }
}

/// What a run left.
#[derive(Drop)]
pub(crate) struct Left {
    pub(crate) pieces: Vec<usize>,
    pub(crate) room: usize,
    pub(crate) status: u8,
    pub(crate) out: Vec<u8>,
    pub(crate) err: Vec<u8>,
    pub(crate) reads: u64,
}

/// The plan `p` and the file `f` of a row.
fn files_of(alloc: Global, row: &Row) -> Result<Vec<MemoryFile>, AllocError> {
    let mut files = Vec::new(alloc);
    files.push(MemoryFile::new(
        String::from_str(alloc, "p")?,
        row.plan.as_slice().to_vec(alloc)?,
    ))?;
    files.push(MemoryFile::new(
        String::from_str(alloc, "f")?,
        row.file.as_slice().to_vec(alloc)?,
    ))?;
    Ok(files)
}

/// What the run of a row leaves, its bytes in such pieces and with such a room of standard output.
fn left_of(rt: &HostRuntime, row: &Row, pieces: &[usize], room: usize) -> Result<Left, AllocError> {
    let alloc = rt.alloc();
    let files = files_of(alloc, row)?;
    let failing = row.failing.as_slice().to_vec(alloc)?;
    let mut inputs = Counted {
        inputs: MemoryInputs::new(files, pieces.to_vec(alloc)?, failing),
        reads: 0,
    };
    let failing_writes = row.failing_writes.as_slice().to_vec(alloc)?;
    let mut out = MemorySink::new(alloc, room, failing_writes)?;
    let mut err = MemorySink::new(alloc, row.err_room, Vec::new(alloc))?;
    let words = row.words.as_slice();
    let status = if row.on_disk {
        ptu_main(alloc, words, &mut FileInputs::new(rt), &mut out, &mut err)
    } else {
        ptu_main(alloc, words, &mut inputs, &mut out, &mut err)
    };
    Ok(Left {
        pieces: pieces.to_vec(alloc)?,
        room,
        status,
        out: out.bytes().to_vec(alloc)?,
        err: err.bytes().to_vec(alloc)?,
        reads: inputs.reads,
    })
}

/// Whether a run left what its row tells, or in a room that is too small the first bytes of it.
fn is_right(row: &Row, left: &Left) -> bool {
    let reads = row.must.reads.is_none_or(|reads| reads == left.reads);
    let (out, err) = (left.out.as_slice(), left.err.as_slice());
    if let (Room::Each, Some(first)) = (row.room, row.must.out.get(..left.room))
        && first.len() < row.must.out.len()
    {
        return reads
            && left.status == 4
            && out == first
            && err == b"ptu: cannot write\n".as_slice();
    }
    reads
        && left.status == row.must.status
        && out == row.must.out.as_slice()
        && err == row.must.err.as_slice()
}

/// The first run of a row that left something else, if any. The runs are counted.
pub(crate) fn first_wrong(
    rt: &HostRuntime,
    row: &mut Row,
    runs: &mut u64,
) -> Result<Option<Left>, AllocError> {
    if row.alike
        && let Some(pieces) = row.cuttings.first()
    {
        let whole = left_of(rt, row, pieces.as_slice(), 65_536)?;
        row.must.out = whole.out;
    }
    let (least, most) = match row.room {
        Room::Of(room) => (room, room),
        Room::Each => (0, row.must.out.len()),
    };
    for pieces in row.cuttings.iter() {
        for room in least..=most {
            *runs = runs.saturating_add(1);
            let left = left_of(rt, row, pieces.as_slice(), room)?;
            if !is_right(row, &left) {
                return Ok(Some(left));
            }
        }
    }
    Ok(None)
}
