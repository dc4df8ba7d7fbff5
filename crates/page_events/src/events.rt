//! The columns of page events.
ghost use Rattle.std.specs.Prelude.{◌≡◌, ◌<◌, ◌^◌, IfOk, length};
ghost use Rattle.batch_reader.specs.Reading.{schema_types};
ghost use Rattle.row_texts.specs.Rows.{AreReadable};
ghost use Rattle.tsv_values.specs.Answer.{KeysArePlain};
ghost use Rattle.value_types.specs.Folds.{ty_of};

use agg_defs::{Column, Schema};
use std::alloc::Global;
use value_types::{Boxed, OutOfMemory, Seq, Ty};

fn type_at(alloc: Global, place: usize) -> Result<Ty, OutOfMemory>
    ensures { IfOk result (λ ty. KeysArePlain (ty_of ty)) }
{
    match place {
        0 => Ok(Ty::U16),
        1 => Ok(Ty::U64),
        2 => Ok(Ty::Str),
        3 => Ok(Ty::U32),
        4 => Ok(Ty::Arr(Boxed::new(alloc, Ty::Str)?)),
        _ => Ok(Ty::U8),
    }
}

/// The columns from one place on of `day UInt16, user UInt64, page String, ms UInt32, tags Array(String)` and three numbers `UInt8` behind
/// them, without names.
///
/// # Errors
///
/// [`OutOfMemory`] where there is no room for them.
pub fn table(alloc: Global, from: usize) -> Result<Schema, OutOfMemory>
    ensures few { IfOk result (λ schema. length schema.columns < 2 ^ 32) }
    ensures readable { IfOk result (λ schema. AreReadable (λ _. Unit {0}) (schema_types schema)) }
{
    let mut columns = Seq::new(alloc);
    for place in from..8 {
        let ty = type_at(alloc, place)?;
        columns.push(Column {
            name: Seq::new(alloc),
            ty,
        })?;
    }
    Ok(Schema { columns })
}
