//! The first field of a text into its column, in one pass.
ghost use Rattle.std.specs.Prelude.{◌≡◌, ◌==◌, false, length, slice_index};
ghost use Rattle.scalar_texts.specs.States.{AllStates};
ghost use Rattle.typed_columns.specs.Masks.{masked};
ghost use Rattle.value_types.specs.Folds.{ty_of};
ghost use Rattle.value_types.specs.declared.ty.Ty.TheVariants as ty;
ghost use Rattle.quick_rows.specs.Taking.{TakesField, TakesFilled, TakesFirst, TakesNumber, TakesText};
ghost use Rattle.quick_rows.specs.proving.Walking.{TakesBy};

use crate::list::take_list;
use crate::number::{front_number, front_size};
use crate::quoted::first_plain;
use crate::state::take_state;
use column_parts::{Numbers, Texts};
use scalar_texts::StateReader;
use std::alloc::Global;
use typed_columns::{Column, Kind};
use value_types::{OutOfMemory, Ty};

/// What became of a front of a text, which has no tab.
#[derive(Clone, Copy)]
pub(crate) enum Front<'a> {
    /// It isn't regular, and the column is as before.
    Irregular,
    /// It stands at the column's end, and this stands behind it. Where that is a tab or nothing, it is the first field.
    Taken(&'a [u8]),
}

// What takes a field is made part of its caller, so that a `Front` is never written to memory.

/// Takes the first field of a text into its column, or leaves the column as it is.
#[inline(always)]
pub(crate) fn take_first<'a>(
    column: &mut Column,
    alloc: Global,
    text: &'a [u8],
) -> Result<Front<'a>, OutOfMemory>
    ensures { TakesFirst TakesField column.old text.now column.new result }
{
    match &mut column.kind {
        Kind::Numbers(numbers) => return take_number(numbers, text),
        Kind::Texts(texts) => return take_text(texts, text),
        Kind::Lists(starts, elements) => return take_list(starts, elements, text),
        Kind::Nullable(_, _) | Kind::Maps(_, _, _) | Kind::Cells(_, _, _) => {}
    }
    take_nullable(column, alloc, text)
}

/// The same of a column of the type; a state is read too.
#[inline(always)]
pub(crate) fn keep_first<'a, R: StateReader>(
    column: &mut Column,
    alloc: Global,
    reader: &R,
    ty: &Ty,
    text: &'a [u8],
) -> Result<Front<'a>, OutOfMemory>
    requires readable { AllStates (R.takes reader.now) (ty_of ty.now) }
    requires ty { ty.now ≡ column.old.ty }
    ensures { TakesFirst (TakesBy (R.reads reader.now)) column.old text.now column.new result }
{
    if let Kind::Cells(_, _, trees) = &mut column.kind {
        return take_state(trees, alloc, reader, ty, text);
    }
    take_first(column, alloc, text)
}

/// The same of a column that may hold NULL. Any other is left as it is.
#[inline(always)]
fn take_nullable<'a>(
    column: &mut Column,
    alloc: Global,
    text: &'a [u8],
) -> Result<Front<'a>, OutOfMemory>
    ensures { TakesFirst TakesField column.old text.now column.new result }
{
    if begins_with_backslash(text) {
        take_null(column, alloc, text)
    } else {
        take_filled(column, text)
    }
}

#[inline]
fn begins_with_backslash(text: &[u8]) -> bool
    ensures { result ≡ (slice_index text.now 0 == 92) }
{
    matches!(text, [b'\\', ..])
}

/// The same of a field that is `\N`.
#[inline(always)]
fn take_null<'a>(
    column: &mut Column,
    alloc: Global,
    text: &'a [u8],
) -> Result<Front<'a>, OutOfMemory>
    ensures { TakesFirst TakesField column.old text.now column.new result }
{
    let [b'\\', b'N', left @ ..] = text else {
        return Ok(Front::Irregular);
    };
    if let Kind::Nullable(_, _) = &column.kind {
        column.push_null(alloc)?;
        return Ok(Front::Taken(left));
    }
    Ok(Front::Irregular)
}

/// The same of any other field.
#[inline(always)]
fn take_filled<'a>(column: &mut Column, text: &'a [u8]) -> Result<Front<'a>, OutOfMemory>
    ensures { TakesFirst TakesFilled column.old text.now column.new result }
{
    if let Kind::Nullable(mask, values) = &mut column.kind {
        return take_some(mask, values, text);
    }
    Ok(Front::Irregular)
}

#[inline(always)]
fn take_some<'a>(
    mask: &mut Vec<bool>,
    values: &mut Column,
    text: &'a [u8],
) -> Result<Front<'a>, OutOfMemory>
    requires alike { length mask.old.items ≡ length values.old.values }
    ensures alike { length mask.new.items ≡ length values.new.values }
    ensures ty { values.new.ty ≡ values.old.ty }
    ensures taken { TakesFirst TakesFilled (record { ty = ty.Nullable values.old.ty; values = masked mask.old.items values.old.values })
        text.now (record { ty = ty.Nullable values.new.ty; values = masked mask.new.items values.new.values }) result }
{
    mask.reserve(1)?;
    match take_value(values, text) {
        Ok(Front::Taken(left)) => {
            mask.push(false)?;
            Ok(Front::Taken(left))
        }
        other => other,
    }
}

/// Takes the value of a column that may hold NULL.
#[inline(always)]
fn take_value<'a>(values: &mut Column, text: &'a [u8]) -> Result<Front<'a>, OutOfMemory>
    ensures { TakesFirst TakesFilled values.old text.now values.new result }
{
    match &mut values.kind {
        Kind::Numbers(numbers) => return take_number(numbers, text),
        Kind::Texts(texts) => return take_text(texts, text),
        Kind::Nullable(_, _) | Kind::Lists(_, _) => return Ok(Front::Irregular),
        Kind::Maps(_, _, _) | Kind::Cells(_, _, _) => return Ok(Front::Irregular),
    }
}

#[inline(always)]
fn take_number<'a>(numbers: &mut Numbers, text: &'a [u8]) -> Result<Front<'a>, OutOfMemory>
    ensures { TakesFirst TakesNumber numbers.old text.now numbers.new result }
{
    let Some((size, left)) = front_size(text) else {
        return take_any_number(numbers, text);
    };
    match numbers.take(i128::from(size)) {
        Ok(true) => Ok(Front::Taken(left)),
        Ok(false) => Ok(Front::Irregular),
        Err(error) => Err(error),
    }
}

/// The same of a number with a sign or with many digits.
#[inline(never)]
fn take_any_number<'a>(numbers: &mut Numbers, text: &'a [u8]) -> Result<Front<'a>, OutOfMemory>
    ensures { TakesFirst TakesNumber numbers.old text.now numbers.new result }
{
    let Some((number, left)) = front_number(text) else {
        return Ok(Front::Irregular);
    };
    match numbers.take(number) {
        Ok(true) => Ok(Front::Taken(left)),
        Ok(false) => Ok(Front::Irregular),
        Err(error) => Err(error),
    }
}

#[inline(always)]
fn take_text<'a>(texts: &mut Texts, text: &'a [u8]) -> Result<Front<'a>, OutOfMemory>
    ensures { TakesFirst TakesText texts.old text.now texts.new result }
{
    let (field, left) = first_plain(text);
    match texts.push(field) {
        Ok(()) => Ok(Front::Taken(left)),
        Err(error) => Err(error),
    }
}
