//! A line into columns of some of its fields: the others are judged, and not kept.
ghost use Rattle.std.specs.Prelude.{◌≡◌, ◌<◌, All, get_or, length, map};
ghost use Rattle.columns.specs.Rows.{AreLong};
ghost use Rattle.scalar_texts.specs.States.{AllStates};
ghost use Rattle.typed_columns.specs.TypedValues.{TypedValues};
ghost use Rattle.value_types.specs.Folds.{ty_of};
ghost use Rattle.quick_rows.specs.Keeping.{AreSteps, IsState, TakesKept, kept};
ghost use Rattle.quick_rows.specs.declared.walk.Step.TheVariants.{Keep, State};
ghost use Rattle.quick_rows.specs.proving.Walking.{FillsKept, StepsFirst};

use crate::field::{Front, keep_first};
use crate::row::Taken;
use crate::state::walk_state;
use crate::walk::{Step, walk_first};
use columns::{Batch, trim_each};
use scalar_texts::StateReader;
use std::alloc::Global;
use typed_columns::Column;
use value_types::{OutOfMemory, Ty};

/// Takes the marked fields of a regular line as the last row of a batch, whose columns are those of the marked types; the other fields are
/// judged, by the steps that [`crate::step_of`] tells. As [`crate::take_row`] else, but a state in lower-case hexadecimal that the reader takes is
/// regular too.
///
/// # Errors
///
/// [`OutOfMemory`] where there is no room; the batch is as before.
pub fn take_kept<R: StateReader>(
    batch: &mut Batch,
    alloc: Global,
    reader: &R,
    types: &[Ty],
    keep: &[bool],
    steps: &[Step],
    line: &[u8],
) -> Result<Taken, OutOfMemory>
    requires readable { All (λ ty. AllStates (R.takes reader.now) (ty_of ty)) types.now }
    requires steps { AreSteps types.now keep.now steps.now }
    requires types { batch.old.types ≡ kept keep.now types.now }
    ensures { TakesKept (R.reads reader.now) types.now keep.now batch.old line.now batch.new result }
{
    let count = batch.count;
    if count == usize::MAX {
        return Err(OutOfMemory);
    }
    let columns = &mut batch.columns;
    match fill_kept(columns, alloc, reader, types, keep, steps, line, count) {
        Ok(true) => {
            batch.count = count + 1;
            Ok(Taken::Row)
        }
        Ok(false) => {
            trim_each(&mut batch.columns, count);
            Ok(Taken::Irregular)
        }
        Err(error) => {
            trim_each(&mut batch.columns, count);
            Err(error)
        }
    }
}

/// Takes a front of a text into the column at a place, or judges it, by the step of its column; tells what stands behind it.
#[inline(always)]
fn step_first<'a, R: StateReader>(
    columns: &mut Vec<Column>,
    alloc: Global,
    reader: &R,
    ty: &Ty,
    at: &mut usize,
    step: Step,
    text: &'a [u8],
) -> Result<Front<'a>, OutOfMemory>
    requires readable { AllStates (R.takes reader.now) (ty_of ty.now) }
    requires within { step ≡ Keep → at.old < length columns.old.items }
    requires ty { step ≡ Keep → (column : TypedValues) → column ≡ get_or columns.old.items at.old column → ty.now ≡ column.ty }
    requires state { step ≡ State → IsState ty.now }
    ensures { StepsFirst (R.reads reader.now) step ty.now columns.old.items at.old text.now columns.new.items at.new result }
{
    match step {
        Step::Keep => {
            let place = *at;
            *at = place + 1;
            keep_first(&mut columns[place], alloc, reader, ty, text)
        }
        Step::State => walk_state(alloc, reader, ty, text),
        step => Ok(walk_first(step, text)),
    }
}

/// Takes each marked field into the next column and judges the others, as long as they are regular. The columns have `count` values before.
#[inline(never)]
fn fill_kept<R: StateReader>(
    columns: &mut Vec<Column>,
    alloc: Global,
    reader: &R,
    types: &[Ty],
    keep: &[bool],
    steps: &[Step],
    line: &[u8],
    count: usize,
) -> Result<bool, OutOfMemory>
    requires readable { All (λ ty. AllStates (R.takes reader.now) (ty_of ty)) types.now }
    requires long { AreLong columns.old.items count }
    requires steps { AreSteps types.now keep.now steps.now }
    requires types { map (λ c. c.ty) columns.old.items ≡ kept keep.now types.now }
    ensures { FillsKept (R.reads reader.now) count types.now keep.now columns.old.items line.now columns.new.items result }
{
    let mut text = line;
    let mut at = 0;
    for i in 0..types.len() {
        let left = match step_first(columns, alloc, reader, &types[i], &mut at, steps[i], text) {
            Ok(Front::Taken(left)) => left,
            Ok(Front::Irregular) => return Ok(false),
            Err(error) => return Err(error),
        };
        match left {
            [b'\t', behind @ ..] => text = behind,
            [] => {
                if i + 1 == types.len() {
                    return Ok(true);
                }
                return Ok(false);
            }
            _ => return Ok(false),
        }
    }
    Ok(false)
}
