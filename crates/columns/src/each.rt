//! One value more, a second column's values more, or fewer values, in each column of a row.
ghost use Rattle.std.specs.Prelude.{◌≡◌, ◌≤◌, length, map, OnErr, OnOk};
ghost use Rattle.typed_columns.specs.Growth.{trim};
ghost use Rattle.columns.specs.Rows.{AreLong, RowFits, joined, pushed};

use std::alloc::Global;
use typed_columns::Column;
use value_types::{OutOfMemory, Value};

/// Adds a row to columns of this many values; where there is no room for one of its values, those before
/// it are taken back.
pub(crate) fn push_each(
    columns: &mut Vec<Column>,
    alloc: Global,
    row: &[Value],
    count: usize,
) -> Result<(), OutOfMemory>
    requires long { AreLong columns.old.items count }
    requires same { length row.now ≡ length columns.old.items }
    requires fit { RowFits (map (λ c. c.ty) columns.old.items) row.now }
    ensures ok { OnOk result (columns.new.items ≡ pushed columns.old.items row.now) }
    ensures err { OnErr result (columns.new.items ≡ columns.old.items) }
{
    for i in 0..columns.len() {
        if let Err(error) = columns[i].push(alloc, &row[i]) {
            trim_each(columns, count);
            return Err(error);
        }
    }
    Ok(())
}

/// Adds to columns of this many values those of the second column at each place; where there is no room,
/// what was added is taken back.
pub(crate) fn append_each(
    columns: &mut Vec<Column>,
    alloc: Global,
    more: &[Column],
    before: usize,
) -> Result<(), OutOfMemory>
    requires long { AreLong columns.old.items before }
    requires types { map (λ c. c.ty) columns.old.items ≡ map (λ c. c.ty) more.now }
    ensures ok { OnOk result (columns.new.items ≡ joined columns.old.items more.now) }
    ensures err { OnErr result (columns.new.items ≡ columns.old.items) }
{
    for i in 0..columns.len() {
        if let Err(error) = columns[i].append(alloc, &more[i]) {
            trim_each(columns, before);
            return Err(error);
        }
    }
    Ok(())
}

/// Gives back the room that no value stands in.
pub(crate) fn shrink_each(columns: &mut Vec<Column>)
    ensures { columns.new.items ≡ columns.old.items }
{
    for i in 0..columns.len() {
        columns[i].shrink_to_fit();
    }
}

/// Keeps the first `count` values of each column.
pub fn trim_each(columns: &mut Vec<Column>, count: usize)
    ensures { columns.new.items ≡ map (trim count) columns.old.items }
{
    for i in 0..columns.len() {
        trim_one(&mut columns[i], count);
    }
}

fn trim_one(column: &mut Column, count: usize)
    ensures { column.new ≡ trim count column.old }
{
    if count <= column.len() {
        column.truncate(count);
    }
}
