//! The rows of lines of which only some columns are kept: every field of every line is judged.
ghost use Rattle.std.specs.Prelude.{◌≡◌, ◌<◌, ◌^◌, ◌++◌, ◌∷◌, [], length, IfOk, OnErr, OnOk};
ghost use Rattle.std.specs.List.{list_all};
ghost use Rattle.tsv_text.specs.Lines.{lines_of};
ghost use Rattle.columns.specs.Rows.{RowFits, no_rows, with_row};
ghost use Rattle.row_texts.specs.Rows.{AreReadable};
ghost use Rattle.quick_rows.specs.Keeping.{AreSteps, kept};
ghost use Rattle.batch_reader.specs.proving.Keeping.{KeepsLine, KeepsLines};

use columns::Batch;
use quick_rows::{Step, Taken, first_line, take_kept};
use row_texts::{LineRefusal, judge_line};
use std::alloc::Global;
use tsv_values::StateReader;
use value_types::{OutOfMemory, Seq, Ty, Value};

// Adds a copy of a value where it is kept.
fn keep_value(
    alloc: Global,
    mark: bool,
    value: &Value,
    values: &mut Seq<Value>,
) -> Result<(), OutOfMemory>
    ensures { OnOk result (values.new ≡ values.old ++ kept (mark ∷ []) (value.now ∷ [])) }
{
    if mark {
        values.push(value.copy(alloc)?)?;
    }
    Ok(())
}

// Copies of the values that are kept of a row.
fn kept_values(alloc: Global, keep: &[bool], row: &[Value]) -> Result<Seq<Value>, OutOfMemory>
    requires { length keep.now ≡ length row.now }
    ensures { IfOk result (λ values. values ≡ kept keep.now row.now) }
{
    let mut values = Seq::new(alloc);
    for i in 0..row.len() {
        keep_value(alloc, keep[i], &row[i], &mut values)?;
    }
    Ok(values)
}

fn are_all_kept(keep: &[bool]) -> bool
    ensures { result ≡ list_all (λ mark. mark) keep.now }
{
    keep.iter().all(|mark| *mark)
}

// The kept values of a row.
#[tactic(auto, using(crate::proofs::Kept::kept_laws))]
fn push_kept(
    alloc: Global,
    types: &[Ty],
    keep: &[bool],
    row: &[Value],
    batch: &mut Batch,
) -> Result<(), OutOfMemory>
    requires marks { length keep.now ≡ length types.now }
    requires types { batch.old.types ≡ kept keep.now types.now }
    requires fits { RowFits types.now row.now }
    ensures ok { OnOk result (batch.new ≡ with_row batch.old (kept keep.now row.now)) }
    ensures err { OnErr result (batch.new ≡ batch.old) }
{
    if are_all_kept(keep) {
        return batch.push_row(alloc, row);
    }
    match kept_values(alloc, keep, row) {
        Ok(values) => batch.push_row(alloc, values.as_slice()),
        Err(error) => Err(error),
    }
}

// A line that isn't regular: the judge has it.
fn keep_judged<R: StateReader>(
    alloc: Global,
    reader: &R,
    types: &[Ty],
    keep: &[bool],
    steps: &[Step],
    line: &[u8],
    batch: &mut Batch,
) -> Result<(), LineRefusal>
    requires few { length types.now < 2 ^ 32 }
    requires readable { AreReadable (R.takes reader.now) types.now }
    requires steps { AreSteps types.now keep.now steps.now }
    requires marks { length keep.now ≡ length types.now }
    requires types { batch.old.types ≡ kept keep.now types.now }
    ensures { KeepsLine (R.reads reader.now) types.now keep.now batch.old line.now batch.new result }
{
    match judge_line(alloc, reader, types, line) {
        Ok(row) => match push_kept(alloc, types, keep, row.as_slice(), batch) {
            Ok(()) => Ok(()),
            Err(_) => Err(LineRefusal::OutOfMemory),
        },
        Err(refusal) => Err(refusal),
    }
}

// The kept values of a line, taken quickly where it is regular.
fn keep_line<R: StateReader>(
    alloc: Global,
    reader: &R,
    types: &[Ty],
    keep: &[bool],
    steps: &[Step],
    line: &[u8],
    batch: &mut Batch,
) -> Result<(), LineRefusal>
    requires few { length types.now < 2 ^ 32 }
    requires readable { AreReadable (R.takes reader.now) types.now }
    requires steps { AreSteps types.now keep.now steps.now }
    requires marks { length keep.now ≡ length types.now }
    requires types { batch.old.types ≡ kept keep.now types.now }
    ensures { KeepsLine (R.reads reader.now) types.now keep.now batch.old line.now batch.new result }
{
    match take_kept(batch, alloc, reader, types, keep, steps, line) {
        Ok(Taken::Row) => Ok(()),
        Ok(Taken::Irregular) => keep_judged(alloc, reader, types, keep, steps, line, batch),
        Err(_) => Err(LineRefusal::OutOfMemory),
    }
}

/// Puts the kept values of the lines of a text into an empty batch, up to the first line that is refused.
///
/// # Errors
///
/// Why the first refused line is no row; the kept values of those before it are in the batch.
pub(crate) fn keep_lines<R: StateReader>(
    alloc: Global,
    reader: &R,
    types: &[Ty],
    keep: &[bool],
    steps: &[Step],
    text: &[u8],
    batch: &mut Batch,
) -> Result<(), LineRefusal>
    requires few { length types.now < 2 ^ 32 }
    requires readable { AreReadable (R.takes reader.now) types.now }
    requires steps { AreSteps types.now keep.now steps.now }
    requires marks { length keep.now ≡ length types.now }
    requires empty { batch.old ≡ no_rows (kept keep.now types.now) }
    ensures { KeepsLines (R.reads reader.now) types.now keep.now (lines_of text.now) batch.new result }
{
    let mut left = text;
    while !left.is_empty() {
        let (line, rest) = first_line(left);
        match keep_line(alloc, reader, types, keep, steps, line, batch) {
            Ok(()) => {}
            Err(refusal) => return Err(refusal),
        }
        left = rest;
    }
    Ok(())
}
