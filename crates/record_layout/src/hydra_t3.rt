// The T3 layout of HydraHarp and later devices.
ghost use Rattle.std.{specs.Prelude.◌≡◌, proofs.Common.rules};
ghost use Rattle.{tally_base.specs.declared.header.Mode.TheVariants.T3, ptu_definitions.specs.Layouts.{hydra_t3, hydra_t3_wrap}, record_layout.specs.{Joins.joined_hydra_t3, Rowed.hydra_t3_code}};
ghost use Rattle.record_layout.specs.{FewWraps.hydra_t3-few, JoinLaws.hydra_t3-is_join};

use crate::fields::Fields;
use crate::hydra_t2::{wraps_by, wraps_in};
use crate::layout::RecordLayout;
use crate::row::Row;
use ptu_definitions::Raw;
use tally_base::Mode;

/// T3 records of HydraHarp and later devices. `OLD` is the layout of the type code 0x00010304, where a
/// wrap record stands for one wrap of 1,024 syncs. Later it stands for as many as its sync field says,
/// where 0 means one.
pub struct HydraT3<const OLD: bool>;

impl<const OLD: bool> RecordLayout for HydraT3<OLD> {
    const MODE: Mode = Mode::T3;

    const TOP_SHIFT: u32 = 25;

    const DTIME_SHIFT: u32 = 10;

    const DTIME_MASK: u32 = 0x7FFF;

    const TIME_MASK: u32 = 0x03FF;

    const UNIT: u64 = 1024;

    ghost MODE = { T3 };

    ghost TOP_SHIFT = { 25 };

    ghost DTIME_SHIFT = { 10 };

    ghost DTIME_MASK = { 32767 };

    ghost TIME_MASK = { 1023 };

    ghost UNIT = { 1024 };

    ghost meaning = { hydra_t3 OLD };

    ghost joined = { joined_hydra_t3 OLD };

    ghost top_shift_low = { Prim.search rules };

    ghost top_shift_high = { Prim.search rules };

    ghost dtime_shift_high = { Prim.search rules };

    ghost dtime_mask_high = { Prim.search rules };

    ghost unit_small = { Prim.search rules };

    ghost wraps_few = { hydra_t3-few OLD };

    ghost decode_is_join = { hydra_t3-is_join OLD };

    #[inline(always)]
    fn join(fields: &Fields) -> Raw {
        let Fields { top, dtime, time } = *fields;
        if top < 64 {
            return Raw::Photon {
                input: top,
                time,
                dtime,
            };
        }
        if top > 64 && top < 80 {
            return Raw::Marker {
                bits: top - 64,
                time,
            };
        }
        if top == 127 {
            return wrap::<OLD>(time);
        }
        Raw::Reserved
    }

    #[inline(always)]
    fn split(fields: &Fields) -> Row {
        Row {
            code: code_of(fields.top),
            time: fields.time,
            dtime: fields.dtime,
            wraps: wraps_by::<OLD>(fields.top, fields.time),
        }
    }
}

/// The code of a record, by the top seven bits of its word. Each choice stands alone, so that the
/// compiler makes no branch of it.
#[inline(always)]
fn code_of(top: u8) -> u16
    ensures { result ≡ hydra_t3_code top }
{
    let top = u32::from(top);
    let marker = if top < 80 { 192 + top } else { 513 };
    let special = if top == 127 { 512 } else { marker };
    let other = if top == 64 { 513 } else { special };
    (if top < 64 { top } else { other }) as u16
}

/// What a wrap record says, by its time field.
#[inline(always)]
fn wrap<const OLD: bool>(time: u32) -> Raw
    ensures { result ≡ hydra_t3_wrap OLD time }
{
    let amount = if OLD { 1024 } else { 1024 * wraps_in(time) };
    Raw::Wrap { amount }
}
