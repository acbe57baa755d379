// Inputs and sinks in memory: the tests of `bench_io`.
ghost use Rattle.std.specs.Prelude.{◌≡◌, true};

use crate::checks::holds;
use bench_io::{Inputs, MemoryFile, MemoryInputs, MemorySink, OutBuffer, Sink, write_all};
use std::alloc::Global;
use std::test::Fail;
use tally_base::Slot;

/// How much the next read of the data gives into eight bytes, where it doesn't fail.
fn next_read<I: Inputs>(inputs: &mut I) -> Option<usize>
    requires { (I.state inputs.old).opened Slot.Data ≡ true }
    ensures { (I.state inputs.new).opened Slot.Data ≡ true }
{
    inputs.read(Slot::Data, &mut [0; 8]).ok()
}

/// A file `f` of eleven bytes, and after it one of the same name.
fn two_files(alloc: Global) -> Result<Vec<MemoryFile>, Fail> {
    let mut files = Vec::new(alloc);
    for contents in [b"hello world".as_slice(), b"other".as_slice()] {
        let name = String::from_str(alloc, "f")?;
        files.push(MemoryFile::new(name, contents.to_vec(alloc)?))?;
    }
    Ok(files)
}

#[test]
fn reads_go_by_the_pieces(rt: HostRuntime) -> Result<(), Fail> {
    let alloc = rt.alloc();
    let pieces = vec![in alloc; 4usize, 0, 2]?;
    let failing = vec![in alloc; 3u64]?;
    let mut inputs = MemoryInputs::new(two_files(alloc)?, pieces, failing);
    let opened = inputs.open(Slot::Data, "f");
    if opened.is_err() {
        return Err(Fail::from("not opened"));
    }
    let read = [
        next_read(&mut inputs),
        next_read(&mut inputs),
        next_read(&mut inputs),
        next_read(&mut inputs),
        next_read(&mut inputs),
        next_read(&mut inputs),
    ];
    holds(
        read == [Some(4), None, Some(2), Some(4), Some(1), Some(0)],
        1,
    )?;
    Ok(())
}

#[test]
fn a_sink_takes_what_it_has_room_for(rt: HostRuntime) -> Result<(), Fail> {
    let alloc = rt.alloc();
    let mut sink = MemorySink::new(alloc, 7, vec![in alloc; 2u64]?)?;
    holds(
        write_all(&mut sink, b"abc").is_ok() && sink.write(b"d").is_err(),
        1,
    )?;
    let mut block = OutBuffer::new();
    holds(
        block.put(&mut sink, b"de").is_ok() && block.put(&mut sink, b"fgh").is_ok(),
        2,
    )?;
    holds(sink.bytes() == b"abc".as_slice(), 3)?;
    holds(
        block.flush(&mut sink).is_err() && sink.bytes() == b"abcdefg".as_slice(),
        4,
    )?;
    Ok(())
}
