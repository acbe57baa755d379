// The bytes of known seeds, in pieces of all kinds: the tests of `ptu_made`.
ghost use Rattle.std.specs.Prelude.{◌≡◌, ◌≤◌, [], true, false};
ghost use Rattle.ptu_made.specs.{Made.made_state, Generator.photon_limit};

use crate::checks::holds;
use bench_io::Inputs;
use ptu_made::Made;
use std::alloc::Global;
use std::test::Fail;
use tally_base::Slot;

const ROOM: usize = 8192;

const HEADER: &[u8] = b"PQTTTR\x00\x001.0.00\x00\x00\
    TTResultFormat_TTTRRecType\x00\x00\x00\x00\x00\x00\xff\xff\xff\xff\x08\x00\x00\x10\x04\x02\x01\x01\x00\x00\x00\x00\
    Header_End\x00\x00\x00\x00\x00\x00\x00\x00\x00\x00\x00\x00\x00\x00\x00\x00\x00\x00\x00\x00\x00\x00\xff\xff\xff\xff\x08\x00\xff\xff\x00\x00\x00\x00\x00\x00\x00\x00";

/// All bytes of a file of the inputs, read in pieces of this size.
fn whole<I: Inputs>(
    alloc: Global,
    inputs: &mut I,
    slot: Slot,
    piece: usize,
) -> Result<Vec<u8>, Fail>
    requires meant { (I.state inputs.old).meant slot [] ≡ true }
    requires first { (I.state inputs.old).asked slot ≡ false }
{
    let mut buffer = [0; ROOM];
    let mut bytes = Vec::new(alloc);
    if inputs.open(slot, "").is_err() {
        return Err(Fail::new("not opened"));
    }
    for _ in 0..1_000_000u32 {
        let Ok(len) = inputs.read(slot, &mut buffer[..piece.min(ROOM)]) else {
            return Err(Fail::new("not read"));
        };
        if len == 0 {
            return Ok(bytes);
        }
        bytes.extend_from_slice(&buffer[..len])?;
    }
    Err(Fail::new("no end"))
}

/// A checksum of bytes.
fn checksum(bytes: &[u8]) -> u64 {
    let mut sum = 0u64;
    for byte in bytes {
        sum = sum.wrapping_mul(31).wrapping_add(u64::from(*byte));
    }
    sum
}

/// A seed and a number of photons, and what the bytes of the file are.
#[derive(Clone, Copy)]
struct Row<'a> {
    seed: u64,
    count: u64,
    pieces: &'a [usize],
    size: usize,
    checksum: u64,
    end: &'a [u8],
    ghost few: { count ≤ photon_limit },
}

/// The bytes are those of the row, whatever the size of the pieces.
fn agrees(alloc: Global, row: &Row) -> Result<(), Fail> {
    for piece in row.pieces {
        let mut made = Made::new(row.seed, row.count);
        let bytes = whole(alloc, &mut made, Slot::Data, *piece)?;
        holds(bytes.len() == row.size, 1)?;
        holds(checksum(&bytes) == row.checksum, 2)?;
        holds(bytes.starts_with(HEADER) && bytes.ends_with(row.end), 3)?;
    }
    Ok(())
}

#[test]
fn each_seed_gives_its_file(rt: HostRuntime) -> Result<(), Fail> {
    for row in [
        // The header alone.
        Row {
            seed: 0,
            count: 0,
            pieces: &[8192, 50],
            size: 112,
            checksum: 13_949_877_705_206_031_266,
            end: HEADER,
        },
        Row {
            seed: 0,
            count: 1,
            pieces: &[8192, 113],
            size: 116,
            checksum: 1_861_295_639_162_952_004,
            end: &[0xBF, 1, 0, 0],
        },
        Row {
            seed: 1,
            count: 300,
            pieces: &[1, 3, 4, 7, 8, 64, 8192],
            size: 1312,
            checksum: 16_289_943_576_718_946_618,
            end: &[0x86, 0x1B, 1, 2, 0xC7, 0x1C, 1, 0],
        },
        Row {
            seed: u64::MAX,
            count: 5,
            pieces: &[8192],
            size: 132,
            checksum: 4_299_452_198_321_894_959,
            end: &[0xB6, 3, 0, 0, 0x36, 5, 0, 0],
        },
    ] {
        agrees(rt.alloc(), &row)?;
    }
    Ok(())
}

#[test]
fn a_wrap_comes_before_the_last_photon(rt: HostRuntime) -> Result<(), Fail> {
    let row = Row {
        seed: 7,
        count: 131_298,
        pieces: &[7, 8192],
        size: 525_308,
        checksum: 3_197_038_691_059_592_462,
        end: &[0xD5, 0xFF, 0xFF, 3, 1, 0, 0, 0xFE, 0x35, 1, 0, 2],
    };
    agrees(rt.alloc(), &row)
}

/// The next bytes of a slot, as many as there is room for.
fn next<const N: usize>(made: &mut Made, slot: Slot) -> Result<[u8; N], Fail>
    requires { (made_state made.old).opened slot ≡ true }
    ensures { (made_state made.new).opened ≡ (made_state made.old).opened }
{
    let mut bytes = [0; N];
    match made.read(slot, &mut bytes) {
        Ok(len) if len == N => Ok(bytes),
        _ => Err(Fail::new("too few bytes")),
    }
}

#[test]
fn each_slot_is_read_by_itself(_rt: HostRuntime) -> Result<(), Fail> {
    let mut made = Made::new(1, 3);
    holds(made.open(Slot::Plan, "plan").is_ok(), 1)?;
    holds(made.open(Slot::Data, "data").is_ok(), 2)?;
    let first: [u8; 116] = next(&mut made, Slot::Plan)?;
    holds(first.ends_with(&[0xD6, 1, 0, 2]), 3)?;
    holds(next(&mut made, Slot::Data)? == *b"PQTTTR", 4)?;
    holds(
        next(&mut made, Slot::Plan)? == [0x2F, 3, 0, 2, 0xFB, 3, 0, 0],
        5,
    )?;
    holds(next(&mut made, Slot::Data)? == [0, 0, b'1', b'.'], 6)?;
    Ok(())
}
