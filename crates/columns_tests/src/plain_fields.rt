//! A number, a text and NULL that are pushed with no value around them.
use crate::samples::text;
use agg_values::fits;
use columns::{Column, Item};
use std::alloc::Global;
use std::test::Fail;
use value_types::{Boxed, OutOfMemory, Ty, Value};

/// Whether a column of the type lends this number behind one that was pushed before it.
fn is_kept_as_number(alloc: Global, ty: &Ty, number: i128) -> Result<bool, OutOfMemory> {
    let mut column = Column::new(alloc, ty)?;
    if !fits(&Value::Num(number), ty) {
        return Ok(false);
    }
    column.push_number(alloc, number)?;
    column.push_number(alloc, number)?;
    Ok(matches!(column.item(1), Item::Num(it) if it == number))
}

/// The same of a text.
fn is_kept_as_text(alloc: Global, ty: &Ty, bytes: &[u8]) -> Result<bool, OutOfMemory> {
    let mut column = Column::new(alloc, ty)?;
    if !fits(&text(alloc, bytes)?, ty) {
        return Ok(false);
    }
    column.push_text(bytes)?;
    column.push_text(bytes)?;
    Ok(matches!(column.item(1), Item::Bytes(it) if it == bytes))
}

/// Whether a column of the type lends NULL behind this number.
fn is_null_behind(alloc: Global, ty: &Ty, number: i128) -> Result<bool, OutOfMemory> {
    let mut column = Column::new(alloc, ty)?;
    if !fits(&Value::Num(number), ty) || !fits(&Value::Nil, ty) {
        return Ok(false);
    }
    column.push_number(alloc, number)?;
    column.push_null(alloc)?;
    let first = column.item(0);
    Ok(matches!(first, Item::Num(it) if it == number) && matches!(column.item(1), Item::Nil))
}

/// Whether a column of the type lends this text behind NULL.
fn is_text_behind_null(alloc: Global, ty: &Ty, bytes: &[u8]) -> Result<bool, OutOfMemory> {
    let mut column = Column::new(alloc, ty)?;
    if !fits(&text(alloc, bytes)?, ty) || !fits(&Value::Nil, ty) {
        return Ok(false);
    }
    column.push_null(alloc)?;
    column.push_text(bytes)?;
    let second = column.item(1);
    Ok(matches!(second, Item::Bytes(it) if it == bytes) && matches!(column.item(0), Item::Nil))
}

#[test]
fn plain_numbers_are_kept(rt: HostRuntime) -> Result<(), Fail> {
    let alloc = rt.alloc();
    let nullable = Ty::Nullable(Boxed::new(alloc, Ty::I64)?);
    assert!(rt; is_kept_as_number(alloc, &Ty::U8, 255)?);
    assert!(rt; is_kept_as_number(alloc, &nullable, -9223372036854775808)?);
    assert!(rt; is_null_behind(alloc, &nullable, -1)?);
    Ok(())
}

#[test]
fn plain_texts_are_kept(rt: HostRuntime) -> Result<(), Fail> {
    let alloc = rt.alloc();
    let nullable = Ty::Nullable(Boxed::new(alloc, Ty::Str)?);
    assert!(rt; is_kept_as_text(alloc, &Ty::Str, b"a\xff")?);
    assert!(rt; is_kept_as_text(alloc, &nullable, b"")?);
    assert!(rt; is_text_behind_null(alloc, &nullable, b"ab")?);
    Ok(())
}
