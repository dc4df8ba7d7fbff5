//! A line into the columns of a batch.
ghost use Rattle.columns.specs.Rows.{AreLong};
ghost use Rattle.quick_rows.specs.Taking.{FillsColumns, TakesRow};

use crate::field::{Front, take_first};
use columns::{Batch, trim_each};
use std::alloc::Global;
use typed_columns::Column;
use value_types::OutOfMemory;

/// What became of a line.
#[derive(Clone, Copy, Debug, PartialEq, Eq)]
pub enum Taken {
    /// It is the last row of the batch now.
    Row,
    /// It isn't in the batch, and has to be judged byte by byte.
    Irregular,
}

/// Takes a regular line, without its newline, as the last row of a batch, with no memory but that of the columns
/// (manual: "TabSeparated"; what counts as regular is this project's own choice). A line is regular where it has one
/// field for each type, and each field is a number in range, a string without a backslash, `\N` where it may be, or an
/// array of numbers, or of quoted strings with no backslash, quote or comma in them, without spaces. Which lines it leaves
/// is not promised: what it takes is the line's row, and what it leaves has to be judged.
///
/// # Errors
///
/// [`OutOfMemory`] where there is no room; the batch is as before.
pub fn take_row(batch: &mut Batch, alloc: Global, line: &[u8]) -> Result<Taken, OutOfMemory>
    ensures { TakesRow batch.old line.now batch.new result }
{
    let count = batch.count;
    if count == usize::MAX {
        return Err(OutOfMemory);
    }
    match fill(&mut batch.columns, alloc, line, count) {
        Ok(true) => {
            batch.count = count + 1;
            Ok(Taken::Row)
        }
        Ok(false) => {
            trim_each(&mut batch.columns, count);
            Ok(Taken::Irregular)
        }
        Err(error) => {
            trim_each(&mut batch.columns, count);
            Err(error)
        }
    }
}

/// Takes each field into its column, as long as they are regular. The columns have `count` values before.
fn fill(
    columns: &mut Vec<Column>,
    alloc: Global,
    line: &[u8],
    count: usize,
) -> Result<bool, OutOfMemory>
    requires long { AreLong columns.old.items count }
    ensures { FillsColumns count columns.old.items line.now columns.new.items result }
{
    let mut text = line;
    for i in 0..columns.len() {
        let left = match take_first(&mut columns[i], alloc, text) {
            Ok(Front::Taken(left)) => left,
            Ok(Front::Irregular) => return Ok(false),
            Err(error) => return Err(error),
        };
        match left {
            [b'\t', behind @ ..] => text = behind,
            [] => {
                if i + 1 == columns.len() {
                    return Ok(true);
                }
                return Ok(false);
            }
            _ => return Ok(false),
        }
    }
    Ok(false)
}
