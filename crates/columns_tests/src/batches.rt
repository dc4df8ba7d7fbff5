//! Rows that are pushed are the rows that are lent.
ghost use Rattle.std.specs.Prelude.{◌≡◌, IfOk};
ghost use Rattle.columns_tests.specs.TwoRows as specs;

use crate::samples::text;
use columns::{Batch, Item};
use std::alloc::Global;
use std::test::Fail;
use value_types::{OutOfMemory, Ty, Value};

/// The rows (7, a) and (8, b).
#[tactic(auto, using(value_types::proofs::FoldLaws::value_laws, value_types::proofs::FoldLaws::ty_laws))]
fn two_rows(alloc: Global) -> Result<Batch, OutOfMemory>
    ensures { IfOk result (λ batch. batch ≡ specs.two_rows) }
{
    let mut batch = Batch::new(alloc, &[Ty::U8, Ty::Str])?;
    batch.push_row(alloc, &[Value::Num(7), text(alloc, b"a")?])?;
    batch.push_row(alloc, &[Value::Num(8), text(alloc, b"b")?])?;
    Ok(batch)
}

fn is_number(item: &Item<'_>, number: i128) -> bool {
    matches!(item, Item::Num(it) if *it == number)
}

fn is_text(item: &Item<'_>, text: &[u8]) -> bool {
    matches!(item, Item::Bytes(it) if *it == text)
}

#[test]
fn a_row_is_lent_item_by_item(rt: HostRuntime) -> Result<(), Fail> {
    let batch = two_rows(rt.alloc())?;
    assert!(rt; batch.len() == 2);
    let row = batch.row(1);
    assert!(rt; is_number(&row.item(0), 8));
    assert!(rt; is_text(&row.item(1), b"b"));
    Ok(())
}

#[test]
fn an_item_of_a_row_is_copied(rt: HostRuntime) -> Result<(), Fail> {
    let batch = two_rows(rt.alloc())?;
    let word = batch.row(1).item(1).to_value(rt.alloc())?;
    assert!(rt; matches!(&word, Value::Bytes(bytes) if bytes.as_slice() == b"b".as_slice()));
    Ok(())
}

#[test]
fn a_slice_begins_at_its_first_row(rt: HostRuntime) -> Result<(), Fail> {
    let batch = two_rows(rt.alloc())?;
    let last = batch.slice(1, 2);
    assert!(rt; last.len() == 1);
    let row = last.row(0);
    assert!(rt; is_number(&row.item(0), 8));
    Ok(())
}

#[test]
fn a_column_has_the_values_of_all_rows(rt: HostRuntime) -> Result<(), Fail> {
    let batch = two_rows(rt.alloc())?;
    let column = batch.column(1);
    assert!(rt; column.len() == 2);
    assert!(rt; is_text(&column.item(0), b"a"));
    Ok(())
}

#[test]
fn rows_of_a_second_batch_stand_behind(rt: HostRuntime) -> Result<(), Fail> {
    let mut batch = two_rows(rt.alloc())?;
    let more = two_rows(rt.alloc())?;
    batch.append(rt.alloc(), &more)?;
    batch.shrink_to_fit();
    assert!(rt; batch.len() == 4);
    assert!(rt; is_number(&batch.row(3).item(0), 8));
    Ok(())
}

#[test]
fn rows_are_dropped_from_the_end(rt: HostRuntime) -> Result<(), Fail> {
    let mut batch = two_rows(rt.alloc())?;
    batch.truncate(1);
    assert!(rt; batch.len() == 1);
    assert!(rt; is_number(&batch.row(0).item(0), 7));
    batch.clear();
    assert!(rt; batch.len() == 0);
    Ok(())
}
