//! The table of the marked columns.
ghost use Rattle.std.specs.Prelude.{◌≡◌, [], ◌∷◌, ◌++◌, IfOk, OnOk, length};
ghost use Rattle.quick_rows.specs.Keeping.{kept};
ghost use Rattle.needed_columns.specs.Columns.{kept_schema};

use agg_defs::{Column, Schema};
use std::alloc::Global;
use value_types::{OutOfMemory, Seq};

// Adds a copy of a column where it is marked.
fn keep_column(
    alloc: Global,
    mark: bool,
    column: &Column,
    few: &mut Seq<Column>,
) -> Result<(), OutOfMemory>
    ensures { OnOk result (few.new ≡ few.old ++ kept (mark ∷ []) (column.now ∷ [])) }
{
    if mark {
        few.push(column.copy(alloc)?)?;
    }
    Ok(())
}

fn kept_columns(
    alloc: Global,
    marks: &[bool],
    columns: &[Column],
) -> Result<Seq<Column>, OutOfMemory>
    requires { length marks.now ≡ length columns.now }
    ensures { IfOk result (λ few. few ≡ kept marks.now columns.now) }
{
    let mut few = Seq::new(alloc);
    for i in 0..columns.len() {
        keep_column(alloc, marks[i], &columns[i], &mut few)?;
    }
    Ok(few)
}

/// The table with the marked columns alone.
pub(crate) fn kept_schema(
    alloc: Global,
    marks: &[bool],
    schema: &Schema,
) -> Result<Schema, OutOfMemory>
    requires { length marks.now ≡ length schema.now.columns }
    ensures { IfOk result (λ few. few ≡ kept_schema marks.now schema.now) }
{
    Ok(Schema {
        columns: kept_columns(alloc, marks, schema.columns.as_slice())?,
    })
}
