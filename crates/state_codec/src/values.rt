//! Values at the front of the bytes. A list takes no memory beyond what the bytes that are there can fill.
ghost use Rattle.std.specs.Prelude.{◌≡◌, map, []};
ghost use Rattle.agg_terms.specs.Chains.{Arr, Nullable};
ghost use Rattle.value_types.specs.Folds.{ty_of, value_of};
ghost use Rattle.state_codec.specs.Reading.{flag_at, items_at, list_at, map_at, pair_at, value_at};
ghost use Rattle.state_codec.specs.Gives.{Gives};
ghost use Rattle.state_codec.specs.proving.Views.{pair_view};

use crate::DecodeFault;
use crate::source::{
    i8_at, i16_at, i32_at, i64_at, string_of, tag_of, u8_at, u16_at, u32_at, u64_at,
};
use scalar_texts::StateFault;
use std::alloc::Global;
use value_types::{Seq, Ty, Value};

/// How many items to make room for: no more than these bytes have, where an item has as many bytes or more. None where
/// an item has eight or more, since then the room that a list doubles is as small.
pub(crate) fn room(count: u128, bytes: &[u8], least: usize) -> usize {
    if least == 0 || least >= 8 {
        return 0;
    }
    let most = bytes.len() / least;
    if count < most as u128 {
        count as usize
    } else {
        most
    }
}

/// The empty list with room for so many items. Where there is no such room, each push asks for its own.
pub(crate) fn with_room<T: Drop>(alloc: Global, count: usize) -> Seq<T>
    ensures { result ≡ [] }
{
    let mut items = Seq::new(alloc);
    match items.reserve(count) {
        Ok(()) => {}
        Err(_) => {}
    }
    items
}

/// The fewest bytes that a value of the type has.
pub(crate) fn least_bytes(ty: &Ty) -> usize {
    match ty {
        Ty::U8 | Ty::I8 => 1,
        Ty::U16 | Ty::I16 => 2,
        Ty::U32 | Ty::I32 => 4,
        Ty::Nullable(_) => 1,
        _ => 8,
    }
}

/// The fewest bytes that an entry of a map's type has.
fn least_pair_bytes(ty: &Ty) -> usize {
    match ty {
        Ty::Map(key, item) => least_bytes(key.get()).saturating_add(least_bytes(item.get())),
        _ => 8,
    }
}

/// The value of a type at the front of the bytes; whole is the number of bytes of the text that they end.
#[cycle(value)]
#[tactic(auto, using(crate::proofs::ReadKinds::map_reads))]
pub(crate) fn value_at<'b>(
    ty: &Ty,
    alloc: Global,
    whole: usize,
    bytes: &'b [u8],
) -> Result<(Value, &'b [u8]), DecodeFault>
    ensures { Gives (λ x. (value_of x.0, x.1.now)) result (value_at whole (ty_of ty.now) bytes.now) }
{
    match ty {
        Ty::U8 => {
            let (number, rest) = u8_at(bytes)?;
            Ok((Value::Num(number as i128), rest))
        }
        Ty::U16 => {
            let (number, rest) = u16_at(bytes)?;
            Ok((Value::Num(number as i128), rest))
        }
        Ty::U32 => {
            let (number, rest) = u32_at(bytes)?;
            Ok((Value::Num(number as i128), rest))
        }
        Ty::U64 => {
            let (number, rest) = u64_at(bytes)?;
            Ok((Value::Num(number as i128), rest))
        }
        Ty::I8 => {
            let (number, rest) = i8_at(bytes)?;
            Ok((Value::Num(number as i128), rest))
        }
        Ty::I16 => {
            let (number, rest) = i16_at(bytes)?;
            Ok((Value::Num(number as i128), rest))
        }
        Ty::I32 => {
            let (number, rest) = i32_at(bytes)?;
            Ok((Value::Num(number as i128), rest))
        }
        Ty::I64 => {
            let (number, rest) = i64_at(bytes)?;
            Ok((Value::Num(number as i128), rest))
        }
        Ty::Str => {
            let (text, rest) = string_of(alloc, bytes)?;
            Ok((Value::Bytes(text), rest))
        }
        Ty::Arr(item) => array_at(item.get(), alloc, whole, bytes),
        Ty::Map(_, _) => pairs_at(ty, alloc, whole, bytes),
        Ty::Nullable(item) => nullable_at(item.get(), alloc, whole, bytes),
        // No value of a state's type stands in a body.
        Ty::State(_, _) => Err(DecodeFault::Bad(StateFault::Short)),
    }
}

#[cycle(value)]
#[tactic(auto, unfolding(crate::specs::Reading::flag_at))]
fn nullable_at<'b>(
    item: &Ty,
    alloc: Global,
    whole: usize,
    bytes: &'b [u8],
) -> Result<(Value, &'b [u8]), DecodeFault>
    ensures { Gives (λ x. (value_of x.0, x.1.now)) result (value_at whole (Nullable (ty_of item.now)) bytes.now) }
{
    let (is_some, rest) = tag_of(whole, bytes)?;
    if !is_some {
        return Ok((Value::Nil, rest));
    }
    let (value, rest) = value_at(item, alloc, whole, rest)?;
    Ok((value, rest))
}

#[cycle(value)]
#[tactic(auto, unfolding(crate::specs::Reading::list_at, crate::specs::Reading::kept_at))]
fn array_at<'b>(
    item: &Ty,
    alloc: Global,
    whole: usize,
    bytes: &'b [u8],
) -> Result<(Value, &'b [u8]), DecodeFault>
    ensures { Gives (λ x. (value_of x.0, x.1.now)) result (value_at whole (Arr (ty_of item.now)) bytes.now) }
{
    let (count, rest) = u64_at(bytes)?;
    let (items, rest) = values_at(item, alloc, whole, count, rest)?;
    Ok((Value::List(items), rest))
}

#[cycle(value)]
#[tactic(auto, unfolding(crate::specs::Reading::list_at, crate::specs::Reading::kept_at))]
fn pairs_at<'b>(
    ty: &Ty,
    alloc: Global,
    whole: usize,
    bytes: &'b [u8],
) -> Result<(Value, &'b [u8]), DecodeFault>
    ensures { Gives (λ x. (value_of x.0, x.1.now)) result (map_at whole (ty_of ty.now) bytes.now) }
{
    let (count, rest) = u64_at(bytes)?;
    let (pairs, rest) = all_pairs_at(ty, alloc, whole, count, rest)?;
    Ok((Value::Pairs(pairs), rest))
}

/// So many values of the type.
#[cycle(value)]
pub(crate) fn values_at<'b>(
    ty: &Ty,
    alloc: Global,
    whole: usize,
    count: u64,
    bytes: &'b [u8],
) -> Result<(Seq<Value>, &'b [u8]), DecodeFault>
    ensures { Gives (λ x. (map value_of x.0, x.1.now)) result (items_at (λ earlier. value_at whole (ty_of ty.now)) count [] bytes.now) }
{
    let mut items = with_room(alloc, room(u128::from(count), bytes, least_bytes(ty)));
    let mut rest = bytes;
    for _ in 0..count {
        let (value, after) = value_at(ty, alloc, whole, rest)?;
        items.push(value)?;
        rest = after;
    }
    Ok((items, rest))
}

/// So many entries of a map's type.
#[cycle(value)]
fn all_pairs_at<'b>(
    ty: &Ty,
    alloc: Global,
    whole: usize,
    count: u64,
    bytes: &'b [u8],
) -> Result<(Seq<(Value, Value)>, &'b [u8]), DecodeFault>
    ensures { Gives (λ x. (map pair_view x.0, x.1.now)) result
        (items_at (λ earlier. pair_at whole (ty_of ty.now)) count [] bytes.now) }
{
    let mut pairs = with_room(alloc, room(u128::from(count), bytes, least_pair_bytes(ty)));
    let mut rest = bytes;
    for _ in 0..count {
        let (pair, after) = pair_at(ty, alloc, whole, rest)?;
        pairs.push(pair)?;
        rest = after;
    }
    Ok((pairs, rest))
}

/// An entry of a map's type.
#[cycle(value)]
#[tactic(auto, unfolding(crate::specs::Reading::both_at))]
fn pair_at<'b>(
    ty: &Ty,
    alloc: Global,
    whole: usize,
    bytes: &'b [u8],
) -> Result<((Value, Value), &'b [u8]), DecodeFault>
    ensures { Gives (λ x. (pair_view x.0, x.1.now)) result (pair_at whole (ty_of ty.now) bytes.now) }
{
    match ty {
        Ty::Map(key, item) => {
            let (first, rest) = value_at(key.get(), alloc, whole, bytes)?;
            let (second, rest) = value_at(item.get(), alloc, whole, rest)?;
            Ok(((first, second), rest))
        }
        _ => Err(DecodeFault::Bad(StateFault::Short)),
    }
}
