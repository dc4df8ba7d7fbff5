//! What is read, and numbers and strings at the front of it.
ghost use Rattle.std.specs.Prelude.{◌≡◌};
ghost use Rattle.std.specs.Int.{w8, w16, w32, w64, cast_signed};
ghost use Rattle.state_codec.specs.Reading.{made, place, tag_at, number_at, string_at};
ghost use Rattle.state_codec.specs.Gives.{Gives};

use crate::DecodeFault;
use scalar_texts::StateFault;
use state_texts::Version;
use std::alloc::Global;
use value_types::{Bytes, Seq};

/// The text that is read: its version, and how many bytes it has.
#[derive(Clone, Copy)]
pub(crate) struct Source {
    pub(crate) alloc: Global,
    pub(crate) version: Version,
    pub(crate) whole: usize,
}

/// The place of what is left of so many bytes.
pub(crate) fn place_of(whole: usize, left: &[u8]) -> u64
    ensures { result ≡ place whole left.now }
{
    whole.saturating_sub(left.len()) as u64
}

#[inline(always)]
#[tactic(auto, unfolding(crate::specs::Reading::bytes_at), using(crate::proofs::Worths::worth_1))]
pub(crate) fn u8_at(bytes: &[u8]) -> Result<(u8, &[u8]), DecodeFault>
    ensures { Gives (λ x. (x.0, x.1.now)) result (number_at 1 bytes.now) }
{
    if bytes.len() < 1 {
        return Err(DecodeFault::Bad(StateFault::Short));
    }
    let (front, rest) = bytes.split_at(1);
    Ok((u8::from_be_bytes([front[0]]), rest))
}

#[inline(always)]
#[tactic(auto, unfolding(crate::specs::Reading::bytes_at), using(crate::proofs::Worths::worth_1))]
pub(crate) fn i8_at(bytes: &[u8]) -> Result<(i8, &[u8]), DecodeFault>
    ensures { Gives (λ x. (x.0, x.1.now)) result (made (cast_signed w8) (number_at 1 bytes.now)) }
{
    if bytes.len() < 1 {
        return Err(DecodeFault::Bad(StateFault::Short));
    }
    let (front, rest) = bytes.split_at(1);
    Ok((i8::from_be_bytes([front[0]]), rest))
}

#[inline(always)]
#[tactic(auto, unfolding(crate::specs::Reading::bytes_at), using(crate::proofs::Worths::worth_2))]
pub(crate) fn u16_at(bytes: &[u8]) -> Result<(u16, &[u8]), DecodeFault>
    ensures { Gives (λ x. (x.0, x.1.now)) result (number_at 2 bytes.now) }
{
    if bytes.len() < 2 {
        return Err(DecodeFault::Bad(StateFault::Short));
    }
    let (front, rest) = bytes.split_at(2);
    Ok((u16::from_be_bytes([front[0], front[1]]), rest))
}

#[inline(always)]
#[tactic(auto, unfolding(crate::specs::Reading::bytes_at), using(crate::proofs::Worths::worth_2))]
pub(crate) fn i16_at(bytes: &[u8]) -> Result<(i16, &[u8]), DecodeFault>
    ensures { Gives (λ x. (x.0, x.1.now)) result (made (cast_signed w16) (number_at 2 bytes.now)) }
{
    if bytes.len() < 2 {
        return Err(DecodeFault::Bad(StateFault::Short));
    }
    let (front, rest) = bytes.split_at(2);
    Ok((i16::from_be_bytes([front[0], front[1]]), rest))
}

#[inline(always)]
#[tactic(auto, unfolding(crate::specs::Reading::bytes_at), using(crate::proofs::Worths::worth_4))]
pub(crate) fn u32_at(bytes: &[u8]) -> Result<(u32, &[u8]), DecodeFault>
    ensures { Gives (λ x. (x.0, x.1.now)) result (number_at 4 bytes.now) }
{
    if bytes.len() < 4 {
        return Err(DecodeFault::Bad(StateFault::Short));
    }
    let (front, rest) = bytes.split_at(4);
    Ok((
        u32::from_be_bytes([front[0], front[1], front[2], front[3]]),
        rest,
    ))
}

#[inline(always)]
#[tactic(auto, unfolding(crate::specs::Reading::bytes_at), using(crate::proofs::Worths::worth_4))]
pub(crate) fn i32_at(bytes: &[u8]) -> Result<(i32, &[u8]), DecodeFault>
    ensures { Gives (λ x. (x.0, x.1.now)) result (made (cast_signed w32) (number_at 4 bytes.now)) }
{
    if bytes.len() < 4 {
        return Err(DecodeFault::Bad(StateFault::Short));
    }
    let (front, rest) = bytes.split_at(4);
    Ok((
        i32::from_be_bytes([front[0], front[1], front[2], front[3]]),
        rest,
    ))
}

#[inline(always)]
#[tactic(auto, unfolding(crate::specs::Reading::bytes_at), using(crate::proofs::Worths::worth_8))]
pub(crate) fn u64_at(bytes: &[u8]) -> Result<(u64, &[u8]), DecodeFault>
    ensures { Gives (λ x. (x.0, x.1.now)) result (number_at 8 bytes.now) }
{
    if bytes.len() < 8 {
        return Err(DecodeFault::Bad(StateFault::Short));
    }
    let (front, rest) = bytes.split_at(8);
    let number = u64::from_be_bytes([
        front[0], front[1], front[2], front[3], front[4], front[5], front[6], front[7],
    ]);
    Ok((number, rest))
}

#[inline(always)]
#[tactic(auto, unfolding(crate::specs::Reading::bytes_at), using(crate::proofs::Worths::worth_8))]
pub(crate) fn i64_at(bytes: &[u8]) -> Result<(i64, &[u8]), DecodeFault>
    ensures { Gives (λ x. (x.0, x.1.now)) result (made (cast_signed w64) (number_at 8 bytes.now)) }
{
    if bytes.len() < 8 {
        return Err(DecodeFault::Bad(StateFault::Short));
    }
    let (front, rest) = bytes.split_at(8);
    let number = i64::from_be_bytes([
        front[0], front[1], front[2], front[3], front[4], front[5], front[6], front[7],
    ]);
    Ok((number, rest))
}

/// A length and so many bytes. No memory is taken before they are seen to be there.
#[tactic(auto, unfolding(crate::specs::Reading::string_at, crate::specs::Reading::bytes_at))]
pub(crate) fn string_of(alloc: Global, bytes: &[u8]) -> Result<(Bytes, &[u8]), DecodeFault>
    ensures { Gives (λ x. (x.0, x.1.now)) result (string_at bytes.now) }
{
    let (count, rest) = u64_at(bytes)?;
    if (rest.len() as u64) < count {
        return Err(DecodeFault::Bad(StateFault::Short));
    }
    let (text, rest) = rest.split_at(count as usize);
    Ok((Seq::from_slice(alloc, text)?, rest))
}

/// Whether something is there: the byte 00 or 01.
#[inline(always)]
#[tactic(auto, unfolding(crate::specs::Reading::tag_at))]
pub(crate) fn tag_of(whole: usize, bytes: &[u8]) -> Result<(bool, &[u8]), DecodeFault>
    ensures { Gives (λ x. (x.0, x.1.now)) result (tag_at whole bytes.now) }
{
    match bytes {
        [] => Err(DecodeFault::Bad(StateFault::Short)),
        [0, rest @ ..] => Ok((false, rest)),
        [1, rest @ ..] => Ok((true, rest)),
        [_, ..] => Err(DecodeFault::Bad(StateFault::BadTag(place_of(whole, bytes)))),
    }
}
