//! The slow and exact judge of one line.
ghost use Rattle.std.specs.Prelude.{◌≡◌, ◌<◌, ◌^◌, length, IfOk, IsTrue};
ghost use Rattle.value_types.specs.Folds.{ty_of, value_of};
ghost use Rattle.tsv_text.specs.Lines.{fields_of};
ghost use Rattle.agg_terms.specs.Fitting.{fits_value};
ghost use Rattle.scalar_texts.specs.States.{AllStates};
ghost use Rattle.tsv_values.specs.Answer.{IsFieldAnswer, KeysArePlain};
ghost use Rattle.columns.specs.Rows.{RowFits};
ghost use Rattle.row_texts.specs.Rows.{AreReadable, IsRowAnswer, refusal_of};

use crate::LineRefusal;
use std::alloc::Global;
use tsv_text::{field_count, first_field};
use tsv_values::{FieldFault, StateReader, read_value};
use value_types::{Seq, Ty, Value};

fn refusal_of(column: u32, fault: FieldFault) -> LineRefusal
    ensures { result ≡ refusal_of column fault }
{
    match fault {
        FieldFault::OutOfMemory => LineRefusal::OutOfMemory,
        fault => LineRefusal::Field { column, fault },
    }
}

// The value of a field.
fn field_value<R: StateReader>(
    alloc: Global,
    reader: &R,
    ty: &Ty,
    field: &[u8],
) -> Result<Value, FieldFault>
    requires states { AllStates (R.takes reader.now) (ty_of ty.now) }
    requires keys { KeysArePlain (ty_of ty.now) }
    ensures read { IsFieldAnswer (R.reads reader.now) (ty_of ty.now) field.now result }
    ensures fits { IfOk result (λ value. IsTrue (fits_value (ty_of ty.now) (value_of value))) }
{
    read_value(alloc, reader, ty, field)
}

/// The fields of a line with as many fields as there are types, from left to right.
fn judge_fields<R: StateReader>(
    alloc: Global,
    reader: &R,
    types: &[Ty],
    line: &[u8],
) -> Result<Seq<Value>, LineRefusal>
    requires few { length types.now < 2 ^ 32 }
    requires readable { AreReadable (R.takes reader.now) types.now }
    requires count { length (fields_of line.now) ≡ length types.now }
    ensures row { IsRowAnswer (R.reads reader.now) types.now line.now result }
    ensures fits { IfOk result (RowFits types.now) }
{
    let mut row = Seq::new(alloc);
    let mut left = Some(line);
    while let Some(text) = left {
        let (field, after) = first_field(text);
        match field_value(alloc, reader, &types[row.len()], field) {
            Ok(value) => row.push(value)?,
            Err(fault) => return Err(refusal_of(row.len() as u32 + 1, fault)),
        }
        left = after;
    }
    Ok(row)
}

/// The row of these types that a line is.
///
/// # Errors
///
/// - [`LineRefusal::FieldCount`]: the line has fewer or more fields than there are types, whatever is in them.
/// - [`LineRefusal::Field`]: the first refused field from the left, its column from 1, and why it is refused.
/// - [`LineRefusal::OutOfMemory`]: there is no room for the row.
pub fn judge_line<R: StateReader>(
    alloc: Global,
    reader: &R,
    types: &[Ty],
    line: &[u8],
) -> Result<Seq<Value>, LineRefusal>
    requires few { length types.now < 2 ^ 32 }
    requires readable { AreReadable (R.takes reader.now) types.now }
    ensures row { IsRowAnswer (R.reads reader.now) types.now line.now result }
    ensures fits { IfOk result (RowFits types.now) }
{
    let have = field_count(line);
    if have != types.len() as u64 {
        let want = types.len() as u32;
        return Err(LineRefusal::FieldCount { want, have });
    }
    judge_fields(alloc, reader, types, line)
}
