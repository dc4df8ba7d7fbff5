//! A value that is pushed is the value that is lent.
use crate::samples::{among_arrays, among_maps, in_arrays, in_maps, text};
use agg_values::{compare, fits};
use columns::Column;
use std::alloc::Global;
use std::test::Fail;
use value_types::{Boxed, Chain, Leaf, OutOfMemory, Seq, Tree, Ty, Value};

/// Whether a column of the type lends this value behind one that was pushed before it, where it comes from a
/// second column.
fn is_kept(alloc: Global, ty: &Ty, value: &Value) -> Result<bool, OutOfMemory> {
    let mut column = Column::new(alloc, ty)?;
    if !fits(value, ty) {
        return Ok(false);
    }
    column.push(alloc, value)?;
    let mut second = Column::new(alloc, ty)?;
    second.push(alloc, value)?;
    column.append(alloc, &second)?;
    column.shrink_to_fit();
    let item = column.item(1);
    let again = item.to_value(alloc)?;
    Ok(compare(&again, value).is_eq())
}

/// Whether the value is kept in maps and in arrays of its type.
fn is_kept_in_maps(alloc: Global, ty: Ty, value: Value) -> Result<bool, OutOfMemory> {
    let ty = in_maps(alloc, ty)?;
    let value = among_maps(alloc, value)?;
    is_kept(alloc, &ty, &value)
}

fn is_kept_in_arrays(alloc: Global, ty: Ty, value: Value) -> Result<bool, OutOfMemory> {
    let ty = in_arrays(alloc, ty)?;
    let value = among_arrays(alloc, value)?;
    is_kept(alloc, &ty, &value)
}

#[test]
fn unsigned_numbers_are_kept(rt: HostRuntime) -> Result<(), Fail> {
    let alloc = rt.alloc();
    assert!(rt; is_kept_in_maps(alloc, Ty::U8, Value::Num(255))?);
    assert!(rt; is_kept_in_maps(alloc, Ty::U16, Value::Num(65535))?);
    assert!(rt; is_kept_in_maps(alloc, Ty::U32, Value::Num(4294967295))?);
    assert!(rt; is_kept_in_maps(alloc, Ty::U64, Value::Num(18446744073709551615))?);
    Ok(())
}

#[test]
fn signed_numbers_are_kept(rt: HostRuntime) -> Result<(), Fail> {
    let alloc = rt.alloc();
    assert!(rt; is_kept_in_maps(alloc, Ty::I8, Value::Num(-128))?);
    assert!(rt; is_kept_in_maps(alloc, Ty::I16, Value::Num(-32768))?);
    assert!(rt; is_kept_in_maps(alloc, Ty::I32, Value::Num(-2147483648))?);
    assert!(rt; is_kept_in_maps(alloc, Ty::I64, Value::Num(-9223372036854775808))?);
    Ok(())
}

#[test]
fn texts_are_kept(rt: HostRuntime) -> Result<(), Fail> {
    let alloc = rt.alloc();
    assert!(rt; is_kept_in_maps(alloc, Ty::Str, text(alloc, b"a\xff")?)?);
    assert!(rt; is_kept_in_arrays(alloc, Ty::Str, text(alloc, b"")?)?);
    Ok(())
}

#[test]
fn null_is_kept_in_place_of_each_kind(rt: HostRuntime) -> Result<(), Fail> {
    let alloc = rt.alloc();
    assert!(rt; is_kept_in_maps(alloc, Ty::Str, Value::Nil)?);
    assert!(rt; is_kept_in_maps(alloc, in_arrays(alloc, Ty::U8)?, Value::Nil)?);
    assert!(rt; is_kept_in_maps(alloc, in_maps(alloc, Ty::U8)?, Value::Nil)?);
    Ok(())
}

#[test]
fn maps_in_maps_are_kept(rt: HostRuntime) -> Result<(), Fail> {
    let alloc = rt.alloc();
    let maps = among_maps(alloc, Value::Num(7))?;
    assert!(rt; is_kept_in_arrays(alloc, in_maps(alloc, Ty::U8)?, maps)?);
    Ok(())
}

fn counts(alloc: Global) -> Result<Ty, OutOfMemory> {
    let chain = Boxed::new(alloc, Chain::Leaf(Leaf::Count))?;
    Ok(Ty::State(chain, Seq::new(alloc)))
}

#[test]
fn states_are_kept(rt: HostRuntime) -> Result<(), Fail> {
    let alloc = rt.alloc();
    assert!(rt; is_kept_in_arrays(alloc, counts(alloc)?, Value::Cell(Tree::Word(3)))?);
    assert!(rt; is_kept_in_maps(alloc, counts(alloc)?, Value::Nil)?);
    Ok(())
}
