//! The one line that a run writes in place of an answer.
ghost use Rattle.refusals.specs.Words as words;
ghost use Rattle.std.specs.Prelude.{◌≡◌, ◌++◌, OnErr, OnOk};
ghost use Rattle.value_lists.specs.Fronts.{HoldsFront};

use crate::field_words::{put_field_why, put_state_why};
use crate::line_words::put_line_why;
use crate::pieces::put_with_number;
use crate::status::{RowWhy, Size, StateWhy, Status};
use crate::why::Why;
use scalar_texts::FieldFault;
use value_lists::{Bytes, OutOfMemory};

fn put_line(text: &mut Bytes, line: u64, why: Why) -> Result<(), OutOfMemory>
    ensures ok { OnOk result (text.new ≡ text.old ++ words.refused_line line why) }
    ensures err { OnErr result (HoldsFront text.old (words.refused_line line why) text.new) }
{
    put_with_number(text, b"line ", line)?;
    text.extend_from_slice(b": ")?;
    put_line_why(text, line, why)
}

fn put_place(text: &mut Bytes, row: u64, column: u32) -> Result<(), OutOfMemory>
    ensures ok { OnOk result (text.new ≡ text.old ++ words.field_place row column) }
    ensures err { OnErr result (HoldsFront text.old (words.field_place row column) text.new) }
{
    put_with_number(text, b"row ", row)?;
    put_with_number(text, b" column ", column as u64)?;
    text.extend_from_slice(b": ")
}

fn put_field(text: &mut Bytes, row: u64, column: u32, fault: &FieldFault) -> Result<(), OutOfMemory>
    ensures ok { OnOk result (text.new ≡ text.old ++ words.refused_field row column fault.now) }
    ensures err { OnErr result (HoldsFront text.old (words.refused_field row column fault.now) text.new) }
{
    put_place(text, row, column)?;
    put_field_why(text, fault)
}

fn put_state(text: &mut Bytes, row: u64, column: u32, why: StateWhy) -> Result<(), OutOfMemory>
    ensures ok { OnOk result (text.new ≡ text.old ++ words.refused_state row column why) }
    ensures err { OnErr result (HoldsFront text.old (words.refused_state row column why) text.new) }
{
    put_place(text, row, column)?;
    put_state_why(text, why)
}

/// Adds the words of a row that has another number of fields than the table has columns.
///
/// # Errors
///
/// [`OutOfMemory`] where there is no room; behind the old text stands a front of the words then.
pub fn put_field_count(text: &mut Bytes, row: u64, want: u32, have: u64) -> Result<(), OutOfMemory>
    ensures ok { OnOk result (text.new ≡ text.old ++ words.refused_count row want have) }
    ensures err { OnErr result (HoldsFront text.old (words.refused_count row want have) text.new) }
{
    put_with_number(text, b"row ", row)?;
    put_with_number(text, b" has ", have)?;
    put_with_number(text, b" fields, want ", want as u64)
}

fn put_row(text: &mut Bytes, row: u64, why: &RowWhy) -> Result<(), OutOfMemory>
    ensures ok { OnOk result (text.new ≡ text.old ++ words.refused_row row why.now) }
    ensures err { OnErr result (HoldsFront text.old (words.refused_row row why.now) text.new) }
{
    match why {
        RowWhy::Field { column, fault } => put_field(text, row, *column, fault),
        RowWhy::Count { want, have } => put_field_count(text, row, *want, *have),
    }
}

fn size_words(size: Size) -> &'static [u8]
    ensures { result.now ≡ words.size_words size }
{
    match size {
        Size::Line => b"too large: line",
        Size::Input => b"too large: input",
        Size::Script => b"too large: script",
    }
}

/// What stands behind `error: `.
fn put_status(text: &mut Bytes, status: &Status) -> Result<(), OutOfMemory>
    ensures ok { OnOk result (text.new ≡ text.old ++ words.status_words status.now) }
    ensures err { OnErr result (HoldsFront text.old (words.status_words status.now) text.new) }
{
    match status {
        Status::Done | Status::WriteFault => Ok(()),
        Status::Usage => text.extend_from_slice(b"usage"),
        Status::BadRequest { line, why } => put_line(text, *line, *why),
        Status::BadRow { row, why } => put_row(text, *row, why),
        Status::BadState { row, column, why } => put_state(text, *row, *column, *why),
        Status::ReadFault => text.extend_from_slice(b"read failed"),
        Status::TooLarge(size) => text.extend_from_slice(size_words(*size)),
        Status::OutOfMemory => text.extend_from_slice(b"out of memory"),
    }
}

/// Adds the line that tells a status, with the newline that ends it. A run that ended well, or whose sink failed, has
/// none: call it for the others.
///
/// # Errors
///
/// [`OutOfMemory`] where there is no room; behind the old text stands a front of the line then.
pub fn put_error_line(text: &mut Bytes, status: &Status) -> Result<(), OutOfMemory>
    ensures ok { OnOk result (text.new ≡ text.old ++ words.error_line status.now) }
    ensures err { OnErr result (HoldsFront text.old (words.error_line status.now) text.new) }
{
    text.extend_from_slice(b"error: ")?;
    put_status(text, status)?;
    text.extend_from_slice(b"\n")
}
