//! The columns of a table.

ghost use Rattle.std.specs.Prelude.{◌∷◌, []};
ghost use Rattle.type_names.specs.declared.goal.Goal.TheVariants.{AnyType};
ghost use Rattle.request_lines.specs.proving.Judging.{a_name, in_type, columns};
ghost use Rattle.request_lines.specs.proving.Reads.{Reads, IsColumn, AreColumnsRead};

use crate::names::read_name;
use crate::rest::Rest;
use crate::types::skip_type;
use line_forms::{LineFault, WrittenColumn};
use std::alloc::Global;
use type_shapes::{Mark, read_front};
use value_lists::Seq;

/// The column that comes first.
fn read_column<'a>(alloc: Global, rest: Rest<'a>) -> Result<(WrittenColumn, Rest<'a>), LineFault>
    ensures { Reads (a_name ∷ in_type AnyType ∷ []) IsColumn rest.entry result }
{
    let (name, ty) = read_name(alloc, rest)?;
    let left = skip_type(alloc, ty)?;
    let shape = match read_front(alloc, ty.text)? {
        Some((shape, _)) => Some(shape),
        None => None,
    };
    Ok((WrittenColumn { name, shape }, left))
}

/// Columns, divided by commas.
pub fn read_columns<'a>(
    alloc: Global,
    rest: Rest<'a>,
) -> Result<(Seq<WrittenColumn>, Rest<'a>), LineFault>
    ensures { Reads (a_name ∷ in_type AnyType ∷ columns ∷ []) AreColumnsRead rest.entry result }
{
    let mut columns = Seq::new(alloc);
    let (first, mut left) = read_column(alloc, rest)?;
    columns.push(first)?;
    while let Some(behind) = left.behind(Mark::Dividing) {
        let (column, after) = read_column(alloc, behind)?;
        columns.push(column)?;
        left = after;
    }
    Ok((columns, left))
}
