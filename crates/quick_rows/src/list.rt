//! An array at the front of a text into the column of its elements.
ghost use Rattle.std.specs.Prelude.{◌≡◌, ◌∷◌, length};
ghost use Rattle.column_parts.specs.Cuts.{IsCut};
ghost use Rattle.quick_rows.specs.Taking.{TakesElements, TakesField, TakesFirst, lists_seen, numbers_seen, texts_seen};

use crate::field::Front;
use crate::number::front_number;
use crate::quoted::front_quoted;
use column_parts::{Numbers, Texts};
use typed_columns::{Column, Kind};
use value_types::OutOfMemory;

/// Takes a first field that is an array into the places and the elements of its column, or leaves them as they are.
#[inline(always)]
pub(crate) fn take_list<'a>(
    starts: &mut Vec<usize>,
    elements: &mut Column,
    text: &'a [u8],
) -> Result<Front<'a>, OutOfMemory>
    requires cut { IsCut starts.old.items (length elements.old.values) }
    ensures cut { IsCut starts.new.items (length elements.new.values) }
    ensures ty { elements.new.ty ≡ elements.old.ty }
    ensures taken { TakesFirst TakesField (lists_seen starts.old.items elements.old) text.now (lists_seen starts.new.items elements.new) result }
{
    starts.reserve(1)?;
    let before = elements.len();
    match take_elements(elements, text) {
        Ok(Front::Taken(left)) => {
            starts.push(elements.len())?;
            Ok(Front::Taken(left))
        }
        Ok(Front::Irregular) => {
            elements.truncate(before);
            Ok(Front::Irregular)
        }
        Err(error) => {
            elements.truncate(before);
            Err(error)
        }
    }
}

#[inline(always)]
fn take_elements<'a>(elements: &mut Column, text: &'a [u8]) -> Result<Front<'a>, OutOfMemory>
    ensures { TakesFirst TakesElements elements.old text.now elements.new result }
{
    match text {
        [b'[', b']', left @ ..] => Ok(Front::Taken(left)),
        [b'[', inside @ ..] => take_inside(elements, inside),
        _ => Ok(Front::Irregular),
    }
}

/// The same of one element or more, from behind the opening bracket on.
#[inline(always)]
fn take_inside<'a>(elements: &mut Column, inside: &'a [u8]) -> Result<Front<'a>, OutOfMemory>
    ensures { TakesFirst TakesElements elements.old (91 ∷ inside.now) elements.new result }
{
    match &mut elements.kind {
        Kind::Numbers(numbers) => return take_numbers(numbers, inside),
        Kind::Texts(texts) => return take_texts(texts, inside),
        Kind::Nullable(_, _) | Kind::Lists(_, _) => return Ok(Front::Irregular),
        Kind::Maps(_, _, _) | Kind::Cells(_, _, _) => return Ok(Front::Irregular),
    }
}

#[inline(always)]
fn take_numbers<'a>(numbers: &mut Numbers, inside: &'a [u8]) -> Result<Front<'a>, OutOfMemory>
    ensures { TakesFirst TakesElements (numbers_seen numbers.old) (91 ∷ inside.now) (numbers_seen numbers.new) result }
{
    let mut left = inside;
    while let Some((number, behind)) = front_number(left) {
        match numbers.take(number) {
            Ok(true) => {}
            Ok(false) => return Ok(Front::Irregular),
            Err(error) => return Err(error),
        }
        match behind {
            [b',', after @ ..] => left = after,
            [b']', after @ ..] => return Ok(Front::Taken(after)),
            _ => return Ok(Front::Irregular),
        }
    }
    Ok(Front::Irregular)
}

#[inline(always)]
fn take_texts<'a>(texts: &mut Texts, inside: &'a [u8]) -> Result<Front<'a>, OutOfMemory>
    ensures { TakesFirst TakesElements (texts_seen texts.old) (91 ∷ inside.now) (texts_seen texts.new) result }
{
    let mut left = inside;
    while let Some((text, behind)) = front_quoted(left) {
        match texts.push(text) {
            Ok(()) => {}
            Err(error) => return Err(error),
        }
        match behind {
            [b',', after @ ..] => left = after,
            [b']', after @ ..] => return Ok(Front::Taken(after)),
            _ => return Ok(Front::Irregular),
        }
    }
    Ok(Front::Irregular)
}
