// The T2 layout of HydraHarp and later devices.
ghost use Rattle.std.{specs.Prelude.{◌≡◌, ◌<◌, ◌^◌}, proofs.Common.rules};
ghost use Rattle.{tally_base.specs.declared.header.Mode.TheVariants.T2, ptu_definitions.specs.Layouts.{hydra_t2, hydra_t2_wrap, wraps_in}, record_layout.specs.Joins.joined_hydra_t2};
ghost use Rattle.record_layout.specs.{Rowed.{hydra_t2_code, hydra_t2_unit, hydra_wraps}, FewWraps.hydra_t2-few, JoinLaws.{hydra_t2-is_join, hydra_t2-unit_small}};

use crate::fields::Fields;
use crate::layout::RecordLayout;
use crate::row::Row;
use ptu_definitions::Raw;
use tally_base::Mode;

/// T2 records of HydraHarp and later devices. `OLD` is the layout of the type code 0x00010204, where a
/// wrap record stands for one wrap of 33,552,000 ticks. Later a wrap has 33,554,432 ticks, and a record
/// stands for as many wraps as its time field says, where 0 means one.
pub struct HydraT2<const OLD: bool>;

impl<const OLD: bool> RecordLayout for HydraT2<OLD> {
    const MODE: Mode = Mode::T2;

    const TOP_SHIFT: u32 = 25;

    const DTIME_SHIFT: u32 = 0;

    const DTIME_MASK: u32 = 0;

    const TIME_MASK: u32 = 0x01FF_FFFF;

    const UNIT: u64 = if OLD { 33_552_000 } else { 33_554_432 };

    ghost MODE = { T2 };

    ghost TOP_SHIFT = { 25 };

    ghost DTIME_SHIFT = { 0 };

    ghost DTIME_MASK = { 0 };

    ghost TIME_MASK = { 33554431 };

    ghost UNIT = { hydra_t2_unit OLD };

    ghost meaning = { hydra_t2 OLD };

    ghost joined = { joined_hydra_t2 OLD };

    ghost top_shift_low = { Prim.search rules };

    ghost top_shift_high = { Prim.search rules };

    ghost dtime_shift_high = { Prim.search rules };

    ghost dtime_mask_high = { Prim.search rules };

    ghost unit_small = { hydra_t2-unit_small OLD };

    ghost wraps_few = { hydra_t2-few OLD };

    ghost decode_is_join = { hydra_t2-is_join OLD };

    #[inline(always)]
    fn join(fields: &Fields) -> Raw {
        let Fields { top, time, .. } = *fields;
        if top < 64 {
            return Raw::Photon {
                input: top + 1,
                time,
                dtime: 0,
            };
        }
        if top == 64 {
            return Raw::Photon {
                input: 0,
                time,
                dtime: 0,
            };
        }
        if top > 64 && top < 80 {
            return Raw::Marker {
                bits: top - 64,
                time,
            };
        }
        if top == 127 {
            return wrap::<OLD>(time);
        }
        Raw::Reserved
    }

    #[inline(always)]
    fn split(fields: &Fields) -> Row {
        Row {
            code: code_of(fields.top),
            time: fields.time,
            dtime: 0,
            wraps: wraps_by::<OLD>(fields.top, fields.time),
        }
    }
}

/// The code of a record, by the top seven bits of its word. Each choice stands alone, so that the
/// compiler makes no branch of it.
#[inline(always)]
fn code_of(top: u8) -> u16
    ensures { result ≡ hydra_t2_code top }
{
    let top = u32::from(top);
    let marker = if top < 80 { 192 + top } else { 513 };
    let special = if top == 127 { 512 } else { marker };
    let other = if top == 64 { 0 } else { special };
    (if top < 64 { top + 1 } else { other }) as u16
}

/// How many wraps a record stands for, by the top seven bits of its word and its time field.
#[inline(always)]
pub(crate) fn wraps_by<const OLD: bool>(top: u8, time: u32) -> u32
    ensures { result ≡ hydra_wraps OLD top time }
{
    let many = if time == 0 { 1 } else { time };
    let wraps = if OLD { 1 } else { many };
    if top == 127 { wraps } else { 0 }
}

/// What a wrap record says, by its time field.
#[inline(always)]
fn wrap<const OLD: bool>(time: u32) -> Raw
    ensures { result ≡ hydra_t2_wrap OLD time }
{
    let amount = if OLD {
        33_552_000
    } else {
        33_554_432 * wraps_in(time)
    };
    Raw::Wrap { amount }
}

/// How many wraps one record stands for, by its time field.
#[inline(always)]
pub(crate) fn wraps_in(time: u32) -> u64
    ensures value { result ≡ wraps_in time }
    ensures small { result < 2 ^ 32 }
{
    if time == 0 { 1 } else { time as u64 }
}
