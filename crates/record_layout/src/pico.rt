// The layouts of PicoHarp.
ghost use Rattle.std.{specs.Prelude.◌≡◌, proofs.Common.rules};
ghost use Rattle.{tally_base.specs.declared.header.Mode.TheVariants.{T2, T3}, ptu_definitions.specs.Layouts.{pico_t2, pico_t3}, record_layout.specs.FewWraps.{pico_t2-few, pico_t3-few}};
ghost use Rattle.record_layout.specs.{Joins.{joined_pico_t2, joined_pico_t3}, Rowed.{pico_code, pico_wraps}, JoinLaws.{pico_t2-is_join, pico_t3-is_join}};

use crate::fields::Fields;
use crate::layout::RecordLayout;
use crate::row::Row;
use ptu_definitions::Raw;
use tally_base::Mode;

/// How many ticks later the times after a wrap of a T2 file are.
const T2_WRAP: u64 = 210_698_240;

/// How many sync periods later the times after a wrap of a T3 file are.
const T3_WRAP: u64 = 65_536;

/// T2 records of PicoHarp. The lowest four bits of a marker's time are the marker's own.
pub struct PicoT2;

impl RecordLayout for PicoT2 {
    const MODE: Mode = Mode::T2;

    const TOP_SHIFT: u32 = 28;

    const DTIME_SHIFT: u32 = 0;

    const DTIME_MASK: u32 = 0;

    const TIME_MASK: u32 = 0x0FFF_FFFF;

    const UNIT: u64 = T2_WRAP;

    ghost MODE = { T2 };

    ghost TOP_SHIFT = { 28 };

    ghost DTIME_SHIFT = { 0 };

    ghost DTIME_MASK = { 0 };

    ghost TIME_MASK = { 268435455 };

    ghost UNIT = { 210698240 };

    ghost meaning = { pico_t2 };

    ghost joined = { joined_pico_t2 };

    ghost top_shift_low = { Prim.search rules };

    ghost top_shift_high = { Prim.search rules };

    ghost dtime_shift_high = { Prim.search rules };

    ghost dtime_mask_high = { Prim.search rules };

    ghost unit_small = { Prim.search rules };

    ghost wraps_few = { pico_t2-few };

    ghost decode_is_join = { pico_t2-is_join };

    #[inline(always)]
    fn join(fields: &Fields) -> Raw {
        let time = fields.time;
        match fields.top {
            channel @ 0..=4 => Raw::Photon {
                input: channel,
                time,
                dtime: 0,
            },
            15 if time & 15 == 0 => Raw::Wrap { amount: T2_WRAP },
            15 => Raw::Marker {
                bits: (time & 15) as u8,
                time,
            },
            _ => Raw::Reserved,
        }
    }

    #[inline(always)]
    fn split(fields: &Fields) -> Row {
        let marker = (fields.time & 15) as u8;
        Row {
            code: code_of(fields.top, marker),
            time: fields.time,
            dtime: 0,
            wraps: wraps_by(fields.top, marker),
        }
    }
}

/// T3 records of PicoHarp.
pub struct PicoT3;

impl RecordLayout for PicoT3 {
    const MODE: Mode = Mode::T3;

    const TOP_SHIFT: u32 = 28;

    const DTIME_SHIFT: u32 = 16;

    const DTIME_MASK: u32 = 0x0FFF;

    const TIME_MASK: u32 = 0xFFFF;

    const UNIT: u64 = T3_WRAP;

    ghost MODE = { T3 };

    ghost TOP_SHIFT = { 28 };

    ghost DTIME_SHIFT = { 16 };

    ghost DTIME_MASK = { 4095 };

    ghost TIME_MASK = { 65535 };

    ghost UNIT = { 65536 };

    ghost meaning = { pico_t3 };

    ghost joined = { joined_pico_t3 };

    ghost top_shift_low = { Prim.search rules };

    ghost top_shift_high = { Prim.search rules };

    ghost dtime_shift_high = { Prim.search rules };

    ghost dtime_mask_high = { Prim.search rules };

    ghost unit_small = { Prim.search rules };

    ghost wraps_few = { pico_t3-few };

    ghost decode_is_join = { pico_t3-is_join };

    #[inline(always)]
    fn join(fields: &Fields) -> Raw {
        let time = fields.time;
        match fields.top {
            channel @ 0..=4 => Raw::Photon {
                input: channel,
                time,
                dtime: fields.dtime,
            },
            15 if fields.dtime & 15 == 0 => Raw::Wrap { amount: T3_WRAP },
            15 => Raw::Marker {
                bits: (fields.dtime & 15) as u8,
                time,
            },
            _ => Raw::Reserved,
        }
    }

    #[inline(always)]
    fn split(fields: &Fields) -> Row {
        let marker = (fields.dtime & 15) as u8;
        Row {
            code: code_of(fields.top, marker),
            time: fields.time,
            dtime: fields.dtime,
            wraps: wraps_by(fields.top, marker),
        }
    }
}

/// The code of a record, by its channel and the marker bits that channel 15 has.
#[inline(always)]
fn code_of(channel: u8, marker: u8) -> u16
    ensures { result ≡ pico_code channel marker }
{
    let special = if marker == 0 {
        512
    } else {
        256 + u32::from(marker)
    };
    let plain = if channel <= 4 {
        u32::from(channel)
    } else {
        513
    };
    (if channel == 15 { special } else { plain }) as u16
}

/// How many wraps a record stands for.
#[inline(always)]
fn wraps_by(channel: u8, marker: u8) -> u32
    ensures { result ≡ pico_wraps channel marker }
{
    let special = if marker == 0 { 1 } else { 0 };
    if channel == 15 { special } else { 0 }
}
