//! Lists and boxes.
use std::collections::HashMap;
use std::test::Fail;
use value_types::{Boxed, Bytes, Seq};

#[test]
fn a_list_holds_what_is_pushed(rt: HostRuntime) -> Result<(), Fail> {
    let alloc = rt.alloc();
    let mut numbers = Seq::new(alloc);
    assert!(rt; numbers.is_empty());
    numbers.reserve(2)?;
    numbers.push(7u32)?;
    numbers.push(8)?;
    numbers.push(9)?;
    assert_eq!(rt; numbers.len(), 3);
    assert!(rt; !numbers.is_empty());
    assert!(rt; numbers.as_slice() == [7, 8, 9].as_slice());
    let again = Seq::from_vec(numbers.into_vec());
    assert!(rt; again == Seq::from_slice(alloc, &[7, 8, 9])?);
    Ok(())
}

#[test]
fn a_list_grows_and_shrinks_at_its_end(rt: HostRuntime) -> Result<(), Fail> {
    let mut text = Bytes::new(rt.alloc());
    text.extend_from_slice(b"teapots")?;
    text.extend_from_slice(b"")?;
    text.extend_from_slice(b"!?")?;
    assert!(rt; text.as_slice() == b"teapots!?".as_slice());
    assert!(rt; text.pop() == Some(b'?'));
    text.truncate(20);
    assert_eq!(rt; text.len(), 8);
    text.truncate(3);
    assert!(rt; text.as_slice() == b"tea".as_slice());
    text.truncate(0);
    assert!(rt; text.pop().is_none());
    Ok(())
}

// With memory at hand no push is refused; run with each allocation failing in turn, this one shows
// what a refused push leaves.
#[test]
fn a_refused_push_leaves_the_list(rt: HostRuntime) -> Result<(), Fail> {
    let mut numbers = Seq::new(rt.alloc());
    for n in 0..20u32 {
        let before = numbers.len();
        let is_pushed = numbers.push(n).is_ok();
        assert_eq!(rt; numbers.len() != before, is_pushed);
        assert_eq!(rt; numbers.as_slice().last() == Some(&n), is_pushed);
    }
    Ok(())
}

#[test]
fn a_box_hands_its_value_back(rt: HostRuntime) -> Result<(), Fail> {
    let alloc = rt.alloc();
    let boxed = Boxed::new(alloc, Bytes::from_slice(alloc, b"tea")?)?;
    assert_eq!(rt; boxed.get().len(), 3);
    assert_eq!(rt; boxed.len(), 3);
    assert!(rt; boxed.into_inner().as_slice() == b"tea".as_slice());
    Ok(())
}

#[test]
fn lists_stand_in_the_order_of_a_dictionary(rt: HostRuntime) -> Result<(), Fail> {
    let alloc = rt.alloc();
    let mut words = Vec::new(alloc);
    for text in [b"tea".as_slice(), b"", b"te", b"coffee", b"team"] {
        words.push(Bytes::from_slice(alloc, text)?)?;
    }
    words.sort()?;
    for (word, text) in words
        .iter()
        .zip([b"".as_slice(), b"coffee", b"te", b"tea", b"team"])
    {
        assert!(rt; word.as_slice() == text);
    }
    Ok(())
}

#[test]
fn a_list_is_found_by_an_equal_one(rt: HostRuntime) -> Result<(), Fail> {
    let alloc = rt.alloc();
    let mut counts = HashMap::new(alloc);
    counts.insert(Bytes::from_slice(alloc, b"tea")?, 3u32)?;
    counts.insert(Bytes::from_slice(alloc, b"te")?, 2)?;
    assert!(rt; counts.get(&Bytes::from_slice(alloc, b"tea")?) == Some(&3));
    assert!(rt; counts.get(&Bytes::from_slice(alloc, b"te")?) == Some(&2));
    assert!(rt; counts.get(&Bytes::from_slice(alloc, b"t")?).is_none());
    Ok(())
}
