//! The types of a table's columns, as one list.
ghost use Rattle.std.specs.Prelude.{◌≡◌, map, IfOk};
ghost use Rattle.batch_reader.specs.Reading.{column_type, schema_types};

use agg_defs::{Column, Schema};
use std::alloc::Global;
use value_types::{OutOfMemory, Ty};

fn copy_types(alloc: Global, columns: &[Column]) -> Result<Vec<Ty>, OutOfMemory>
    ensures { IfOk result (λ types. types.items ≡ map column_type columns.now) }
{
    let mut types = Vec::new(alloc);
    for column in columns {
        types.push(column.ty.copy(alloc)?)?;
    }
    Ok(types)
}

/// Copies of the columns' types, in their order.
pub(crate) fn types_of(alloc: Global, schema: &Schema) -> Result<Vec<Ty>, OutOfMemory>
    ensures { IfOk result (λ types. types.items ≡ schema_types schema.now) }
{
    copy_types(alloc, schema.columns.as_slice())
}
