//! The small questions, on cases that a reader knows.
use std::test::Fail;
use value_types::{
    Boxed, Bytes, Ty, Value, bare, element, is_nil, is_nullable, is_signed, law_folds, map_item,
    map_key, number,
};

#[test]
fn null_and_numbers_are_told_apart(rt: HostRuntime) -> Result<(), Fail> {
    let minus_five = Value::Num(-5);
    let text = Value::Bytes(Bytes::from_slice(rt.alloc(), b"tea")?);
    assert!(rt; number(&minus_five) == Some(-5));
    assert!(rt; number(&text).is_none() && number(&Value::Nil).is_none());
    assert!(rt; !is_nil(&minus_five) && !is_nil(&text) && is_nil(&Value::Nil));
    law_folds();
    Ok(())
}

#[test]
fn only_nullable_is_taken_off(rt: HostRuntime) -> Result<(), Fail> {
    let alloc = rt.alloc();
    let number = Ty::Nullable(Boxed::new(alloc, Ty::I32)?);
    assert!(rt; is_nullable(&number) && is_signed(&number));
    assert!(rt; matches!(bare(&number), &Ty::I32));
    let list = Ty::Arr(Boxed::new(alloc, number)?);
    assert!(rt; !is_nullable(&list) && !is_signed(&list));
    assert!(rt; is_nullable(element(&list)) && !is_nullable(bare(element(&list))));
    assert!(rt; is_signed(&Ty::I8) && is_signed(&Ty::I16) && is_signed(&Ty::I64));
    assert!(rt; !is_signed(&Ty::U64) && !is_signed(&Ty::Str));
    Ok(())
}

#[test]
fn the_parts_of_a_map_are_its_own(rt: HostRuntime) -> Result<(), Fail> {
    let alloc = rt.alloc();
    let map = Ty::Map(Boxed::new(alloc, Ty::U16)?, Boxed::new(alloc, Ty::Str)?);
    assert!(rt; matches!(map_key(&map), &Ty::U16));
    assert!(rt; matches!(map_item(&map), &Ty::Str));
    assert!(rt; matches!(element(&map), &Ty::Map(_, _)));
    assert!(rt; matches!(map_key(&Ty::Str), &Ty::Str));
    Ok(())
}
