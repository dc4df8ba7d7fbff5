//! What no clause says: that the calls succeed with ample memory.
use column_parts::{NumberType, Numbers, Texts};
use std::alloc::Global;
use std::test::Fail;
use value_lists::OutOfMemory;

const KINDS: [NumberType; 8] = [
    NumberType::U8,
    NumberType::U16,
    NumberType::U32,
    NumberType::U64,
    NumberType::I8,
    NumberType::I16,
    NumberType::I32,
    NumberType::I64,
];

#[test]
fn numbers_of_each_width_are_kept(rt: HostRuntime) -> Result<(), Fail> {
    for kind in KINDS {
        let mut numbers = Numbers::new(rt.alloc(), kind);
        numbers.push(7)?;
        numbers.push(127)?;
        assert!(rt; numbers.at(1) == 127);
        numbers.truncate(1);
        assert!(rt; numbers.len() == 1);
    }
    Ok(())
}

#[test]
fn a_signed_number_is_lent_in_its_width(rt: HostRuntime) -> Result<(), Fail> {
    let mut numbers = Numbers::new(rt.alloc(), NumberType::I16);
    numbers.push(-32768)?;
    assert!(rt; numbers.i16s() == Some([-32768i16].as_slice()));
    assert!(rt; numbers.u16s().is_none());
    Ok(())
}

/// Numbers of a second list behind those of the first, and one that is taken.
fn are_joined(alloc: Global, kind: NumberType) -> Result<bool, OutOfMemory> {
    let mut first = Numbers::new(alloc, kind);
    first.push(7)?;
    let mut second = Numbers::new(alloc, kind);
    let taken = second.take(100)? && !second.take(i128::MAX)?;
    first.append(&second)?;
    first.shrink_to_fit();
    Ok(taken && first.len() == 2)
}

#[test]
fn numbers_of_each_width_are_joined(rt: HostRuntime) -> Result<(), Fail> {
    for kind in KINDS {
        assert!(rt; are_joined(rt.alloc(), kind)?);
    }
    Ok(())
}

#[test]
fn strings_of_a_second_list_stand_behind(rt: HostRuntime) -> Result<(), Fail> {
    let mut first = Texts::new(rt.alloc())?;
    first.push(b"ab")?;
    let mut second = Texts::new(rt.alloc())?;
    second.push(b"c")?;
    first.append(&second)?;
    first.shrink_to_fit();
    assert!(rt; first.at(1) == b"c".as_slice());
    Ok(())
}

#[test]
fn strings_stand_one_behind_another(rt: HostRuntime) -> Result<(), Fail> {
    let mut texts = Texts::new(rt.alloc())?;
    texts.push(b"ab")?;
    texts.push(b"")?;
    texts.push(b"c")?;
    assert!(rt; texts.at(2) == b"c".as_slice());
    texts.truncate(2);
    assert!(rt; texts.len() == 2);
    Ok(())
}
