// What words mean, and how many there are of each kind: the tests of `record_layout`.
ghost use Rattle.std.specs.Prelude.{◌<◌};

use crate::checks::holds;
use arrayvec::ArrayVec;
use record_layout::{
    Counter, Fields, HydraT2, HydraT3, KindCounts, PicoT2, PicoT3, Raw, RecordLayout, decode,
};
use std::test::Fail;
use tally_base::{Fault, Mode, RecordType};

/// Whether a layout is of this mode and takes a word, and these fields of it, for this.
fn takes<R: RecordLayout>(mode: Mode, word: u32, fields: Fields, raw: Raw) -> bool {
    R::MODE == mode && R::decode(word) == raw && R::join(&fields) == raw
}

/// The fields of a word: its highest bits, its time after the sync, and its time.
fn fields(top: u8, dtime: u16, time: u32) -> Fields {
    Fields { top, dtime, time }
}

fn photon(input: u8, time: u32, dtime: u16) -> Raw {
    Raw::Photon { input, time, dtime }
}

fn wrap(amount: u64) -> Raw {
    Raw::Wrap { amount }
}

#[test]
fn layouts(_rt: HostRuntime) -> Result<(), Fail> {
    let found = decode(RecordType::PicoHarpT3, 0x1007_0003);
    holds(found == photon(1, 3, 7), 1)?;
    holds(
        takes::<PicoT2>(
            Mode::T2,
            0x1000_1002,
            fields(1, 0, 4098),
            photon(1, 4098, 0),
        ) && takes::<PicoT3>(Mode::T3, 0x1007_0003, fields(1, 7, 3), photon(1, 3, 7)),
        2,
    )?;
    holds(
        takes::<HydraT2<true>>(Mode::T2, 0xFE00_0005, fields(127, 0, 5), wrap(33_552_000))
            && takes::<HydraT2<false>>(Mode::T2, 0xFE00_0005, fields(127, 0, 5), wrap(167_772_160)),
        3,
    )?;
    holds(
        takes::<HydraT3<true>>(Mode::T3, 0xFE00_0005, fields(127, 0, 5), wrap(1024))
            && takes::<HydraT3<false>>(Mode::T3, 0x0001_9006, fields(0, 100, 6), photon(0, 6, 100)),
        4,
    )?;
    Ok(())
}

fn counted(record_type: RecordType, bytes: &[u8], size: usize) -> Result<KindCounts, Fault>
    requires { 0 < size }
{
    let mut counter = Counter::new(record_type);
    for piece in bytes.chunks(size) {
        counter.feed(piece)?;
    }
    counter.finish()
}

const PICO_T2: [u32; 5] = [0, 0x5000_0000, 0xF000_0000, 0xF000_0001, 0];

const PICO_T3: [u32; 5] = [0, 0xE000_0000, 0xF010_0000, 0xF011_0000, 0];

const HYDRA_T2: [u32; 5] = [0, 0x8000_0000, 0x8200_0000, 0xA000_0000, 0xFE00_0000];

const HYDRA_T3: [u32; 5] = [0, 0x8000_0000, 0x8200_0000, 0x9E00_0000, 0xFE00_0000];

/// A record type, five words, and how many photons, markers, wraps and reserved records they are.
const PIECES: [(RecordType, [u32; 5], [u64; 4]); 6] = [
    (RecordType::PicoHarpT2, PICO_T2, [2, 1, 1, 1]),
    (RecordType::PicoHarpT3, PICO_T3, [2, 1, 1, 1]),
    (RecordType::HydraHarpT2, HYDRA_T2, [2, 1, 1, 1]),
    (RecordType::MultiHarpT2, HYDRA_T2, [2, 1, 1, 1]),
    (RecordType::HydraHarpT3, HYDRA_T3, [1, 2, 1, 1]),
    (RecordType::MultiHarpT3, HYDRA_T3, [1, 2, 1, 1]),
];

/// The bytes of five words.
fn bytes_of(words: &[u32; 5]) -> ArrayVec<u8, 20> {
    let mut bytes = ArrayVec::new();
    for word in words {
        let _ = bytes.try_extend_from_slice(&word.to_le_bytes());
    }
    bytes
}

#[test]
fn pieces(_rt: HostRuntime) -> Result<(), Fail> {
    for (record_type, words, [photons, markers, wraps, reserved]) in PIECES {
        let mut bytes = bytes_of(&words);
        let counts = KindCounts {
            records: 5,
            photons,
            markers,
            wraps,
            reserved,
        };
        for size in [1usize, 3, 7, 20] {
            let found = counted(record_type, bytes.as_slice(), size);
            holds(found == Ok(counts), size)?;
        }
        let _ = bytes.pop();
        let cut = Err(Fault::TruncatedRecord { bytes: 3 });
        holds(counted(record_type, bytes.as_slice(), 3) == cut, 2)?;
    }
    Ok(())
}
