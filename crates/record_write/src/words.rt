// The words of photons, put into a block on the way to a sink.
ghost use Rattle.std.specs.Prelude.{◌≡◌, ◌-◌, ◌/◌, ◌<◌, ◌≤◌, ◌∷◌, ◌++◌, [], replicate, OnOk, OnErr};
ghost use Rattle.{tally_base.specs.declared.event.EventKind.TheVariants.Photon, ptu_definitions.specs.Layouts.KindFits, record_write.specs.Picked.{is_too_late, unit_of, wraps, photon_word}};
ghost use Rattle.record_write.specs.{Picked.wraps_between, Writing.{PutsWords, CutsWords}};

use bench_io::{OutBuffer, Sink};
use tally_base::{Failed, Mode, WRAP_LIMIT};

/// A wrap of no unit, to which the units are added.
const WRAP: u32 = 0xFE00_0000;

/// The word of a sync event at the beginning of a unit.
const SYNC: u32 = 0x8000_0000;

/// The first bit of the channel.
const CHANNEL: u32 = 0x0200_0000;

/// How many ticks one unit of a wrap has in T2.
const T2_UNIT: u64 = 33_554_432;

/// How many ticks one unit of a wrap has in T3.
const T3_UNIT: u64 = 1024;

/// Whether the wraps before a photon of this time add up to more than 2^62.
#[inline(always)]
pub(crate) fn is_too_late(mode: Mode, time: u64) -> bool
    ensures { result ≡ is_too_late mode time }
{
    match mode {
        Mode::T2 => time - time % T2_UNIT > WRAP_LIMIT,
        Mode::T3 => time - time % T3_UNIT > WRAP_LIMIT,
    }
}

/// How many units have begun from one time to another, after the greatest number of units of one wrap.
#[inline(always)]
fn units_between(mode: Mode, before: u64, time: u64) -> (u64, u64)
    requires { before ≤ time }
    ensures most { result.0 ≡ unit_of mode - 1 }
    ensures some { 0 < result.0 }
    ensures small { result.0 < 33554432 }
    ensures units { result.1 ≡ time / unit_of mode - before / unit_of mode }
{
    match mode {
        Mode::T2 => (T2_UNIT - 1, time / T2_UNIT - before / T2_UNIT),
        Mode::T3 => (T3_UNIT - 1, time / T3_UNIT - before / T3_UNIT),
    }
}

/// The word of a photon.
#[inline(always)]
pub(crate) fn photon_word(mode: Mode, input: u8, dtime: u16, time: u64) -> u32
    requires { KindFits mode (Photon input dtime) }
    ensures { result ≡ photon_word mode input dtime time }
{
    match mode {
        Mode::T2 => {
            let low = (time % T2_UNIT) as u32;
            if input == 0 {
                SYNC + low
            } else {
                (input as u32 - 1) * CHANNEL + low
            }
        }
        Mode::T3 => input as u32 * CHANNEL + dtime as u32 * 1024 + (time % T3_UNIT) as u32,
    }
}

#[inline(always)]
fn put_word<O: Sink>(word: u32, block: &mut OutBuffer, out: &mut O) -> Result<(), Failed>
    ensures all { OnOk result (PutsWords (O.state out.old) (O.state out.new) block.old block.new (word ∷ [])) }
    ensures cut { OnErr result (CutsWords (O.state out.old) (O.state out.new) block.old block.new (word ∷ [])) }
{
    block.put(out, &word.to_le_bytes())
}

/// Puts the same word so many times.
fn put_copies<O: Sink>(
    count: u64,
    word: u32,
    block: &mut OutBuffer,
    out: &mut O,
) -> Result<(), Failed>
    ensures all { OnOk result (PutsWords (O.state out.old) (O.state out.new) block.old block.new (replicate count word)) }
    ensures cut { OnErr result (CutsWords (O.state out.old) (O.state out.new) block.old block.new (replicate count word)) }
{
    for copy in 0..count {
        put_word(word, block, out)?;
    }
    Ok(())
}

/// Puts the wraps of so many units, each of at most `most` of them.
fn put_wraps<O: Sink>(
    most: u64,
    units: u64,
    block: &mut OutBuffer,
    out: &mut O,
) -> Result<(), Failed>
    requires some { 0 < most }
    requires small { most < 33554432 }
    ensures all { OnOk result (PutsWords (O.state out.old) (O.state out.new) block.old block.new (wraps most units)) }
    ensures cut { OnErr result (CutsWords (O.state out.old) (O.state out.new) block.old block.new (wraps most units)) }
{
    put_copies(units / most, WRAP + most as u32, block, out)?;
    let rest = units % most;
    if rest == 0 {
        return Ok(());
    }
    put_word(WRAP + rest as u32, block, out)
}

/// Puts the word of a photon, after the wraps from the time of the photon before it, or from 0 where there is none.
#[inline(always)]
pub(crate) fn put_photon<O: Sink>(
    mode: Mode,
    before: u64,
    time: u64,
    word: u32,
    block: &mut OutBuffer,
    out: &mut O,
) -> Result<(), Failed>
    requires in_order { before ≤ time }
    ensures all { OnOk result (PutsWords (O.state out.old) (O.state out.new)
        block.old block.new (wraps_between mode before time ++ word ∷ [])) }
    ensures cut { OnErr result (CutsWords (O.state out.old) (O.state out.new)
        block.old block.new (wraps_between mode before time ++ word ∷ [])) }
{
    let (most, units) = units_between(mode, before, time);
    put_wraps(most, units, block, out)?;
    put_word(word, block, out)
}
