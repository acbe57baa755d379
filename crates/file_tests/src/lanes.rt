// Blocks of words, decoded: the test of `lane_decode`.
ghost use Rattle.std.specs.Prelude.{◌≤◌};

use crate::checks::holds;
use lane_decode::decode_block;
use ptu_definitions::Raw;
use record_layout::{HydraT2, HydraT3, PicoT2, PicoT3, RecordLayout};
use std::test::Fail;

/// The words n * 2654435761 mod 2^32 for n from 1 to 130, little endian.
fn bytes() -> [u8; 520] {
    let mut bytes = [0; 520];
    for i in 0..130usize {
        let word = (i as u32 + 1).wrapping_mul(2_654_435_761);
        bytes[4 * i..4 * i + 4].copy_from_slice(&word.to_le_bytes());
    }
    bytes
}

/// What no layout answers.
const NOTHING: Raw = Raw::Wrap { amount: 1 };

/// Whether the first `N` words are decoded as each of them alone.
fn is_plain<R: RecordLayout, const N: usize>() -> bool
    requires { N ≤ 130 }
{
    let all = bytes();
    let words = &all[..4 * N];
    let mut out = [NOTHING; N];
    decode_block::<R, N>(words, &mut out);
    let (fours, _) = words.as_chunks::<4>();
    for i in 0..fours.len() {
        if out[i] != R::decode(u32::from_le_bytes(fours[i])) {
            return false;
        }
    }
    fours.len() == N
}

/// Whether all numbers of words are.
fn are_plain<R: RecordLayout>() -> bool {
    is_plain::<R, 0>()
        && is_plain::<R, 1>()
        && is_plain::<R, 7>()
        && is_plain::<R, 8>()
        && is_plain::<R, 9>()
        && is_plain::<R, 16>()
        && is_plain::<R, 17>()
        && is_plain::<R, 64>()
        && is_plain::<R, 65>()
        && is_plain::<R, 130>()
}

#[test]
fn blocks(_rt: HostRuntime) -> Result<(), Fail> {
    holds(are_plain::<PicoT2>() && are_plain::<PicoT3>(), 1)?;
    holds(
        are_plain::<HydraT2<true>>() && are_plain::<HydraT2<false>>(),
        2,
    )?;
    holds(
        are_plain::<HydraT3<true>>() && are_plain::<HydraT3<false>>(),
        3,
    )?;
    Ok(())
}
