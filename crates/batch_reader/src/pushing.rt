//! The rows of lines, pushed onto a batch.
ghost use Rattle.std.specs.Prelude.{◌≡◌, ◌<◌, ◌^◌, length};
ghost use Rattle.tsv_text.specs.Lines.{lines_of};
ghost use Rattle.row_texts.specs.Rows.{AreReadable};
ghost use Rattle.batch_reader.specs.proving.Pushing.{PushesLine, PushesLines};

use columns::Batch;
use quick_rows::{Taken, first_line, take_row};
use row_texts::{LineRefusal, judge_line};
use std::alloc::Global;
use tsv_values::StateReader;
use value_types::Ty;

// A line that isn't regular: the judge has it.
fn push_judged<R: StateReader>(
    alloc: Global,
    reader: &R,
    types: &[Ty],
    line: &[u8],
    batch: &mut Batch,
) -> Result<(), LineRefusal>
    requires few { length types.now < 2 ^ 32 }
    requires readable { AreReadable (R.takes reader.now) types.now }
    requires types { batch.old.types ≡ types.now }
    ensures { PushesLine (R.reads reader.now) batch.old line.now batch.new result }
{
    match judge_line(alloc, reader, types, line) {
        Ok(row) => match batch.push_row(alloc, row.as_slice()) {
            Ok(()) => Ok(()),
            Err(_) => Err(LineRefusal::OutOfMemory),
        },
        Err(refusal) => Err(refusal),
    }
}

// The row of a line, taken quickly where it is regular.
fn push_line<R: StateReader>(
    alloc: Global,
    reader: &R,
    types: &[Ty],
    line: &[u8],
    batch: &mut Batch,
) -> Result<(), LineRefusal>
    requires few { length types.now < 2 ^ 32 }
    requires readable { AreReadable (R.takes reader.now) types.now }
    requires types { batch.old.types ≡ types.now }
    ensures { PushesLine (R.reads reader.now) batch.old line.now batch.new result }
{
    match take_row(batch, alloc, line) {
        Ok(Taken::Row) => Ok(()),
        Ok(Taken::Irregular) => push_judged(alloc, reader, types, line, batch),
        Err(_) => Err(LineRefusal::OutOfMemory),
    }
}

/// Adds the rows of the lines of a text to a batch, up to the first that is refused.
///
/// # Errors
///
/// Why the first refused line is none; the rows of those before it are in the batch.
pub(crate) fn push_lines<R: StateReader>(
    alloc: Global,
    reader: &R,
    types: &[Ty],
    text: &[u8],
    batch: &mut Batch,
) -> Result<(), LineRefusal>
    requires few { length types.now < 2 ^ 32 }
    requires readable { AreReadable (R.takes reader.now) types.now }
    requires types { batch.old.types ≡ types.now }
    ensures { PushesLines (R.reads reader.now) batch.old (lines_of text.now) batch.new result }
{
    let mut left = text;
    while !left.is_empty() {
        let (line, rest) = first_line(left);
        match push_line(alloc, reader, types, line, batch) {
            Ok(()) => {}
            Err(refusal) => return Err(refusal),
        }
        left = rest;
    }
    Ok(())
}
