//! What no clause says: that the calls succeed with ample memory.
use std::test::Fail;
use typed_columns::{Args, Item};
use value_types::{Tree, Value};

#[test]
fn arguments_are_read_in_their_order(rt: HostRuntime) -> Result<(), Fail> {
    let mut args = Args::new();
    args.push(Item::Num(-7));
    args.push(Item::Bytes(b"ab"));
    assert!(rt; args.len() == 2);
    assert!(rt; matches!(args.item(0), Item::Num(-7)));
    assert!(rt; matches!(args.item(1), Item::Bytes(b"ab")));
    args.clear();
    assert!(rt; args.len() == 0);
    args.push(Item::Nil);
    assert!(rt; matches!(args.as_slice(), [Item::Nil]));
    Ok(())
}

#[test]
fn plain_items_become_values(rt: HostRuntime) -> Result<(), Fail> {
    let number = Item::Num(5);
    let text = Item::Bytes(b"ab");
    let none = Item::Nil;
    assert!(rt; matches!(&number.to_value(rt.alloc())?, Value::Num(5)));
    assert!(rt; matches!(&none.to_value(rt.alloc())?, Value::Nil));
    let copied = text.to_value(rt.alloc())?;
    assert!(rt; matches!(&copied, Value::Bytes(bytes) if bytes.as_slice() == b"ab".as_slice()));
    Ok(())
}

#[test]
fn a_state_is_copied(rt: HostRuntime) -> Result<(), Fail> {
    let tree = Tree::Word(12);
    let cell = Item::Cell(&tree);
    assert!(rt; matches!(&cell.to_value(rt.alloc())?, Value::Cell(Tree::Word(12))));
    Ok(())
}
