//! How a run ends.

use crate::why::Why;
use scalar_texts::{FieldFault, StateFault};

/// Why a row is refused.
#[derive(Debug, Drop)]
pub enum RowWhy {
    /// The field of a column, counted from 1; never its `OutOfMemory`.
    Field { column: u32, fault: FieldFault },
    /// How many fields the table has, and how many the row has.
    Count { want: u32, have: u64 },
}

/// Why the field of a state is refused. A place counts bytes of the field from 0, or of the state in a `Fault`.
#[derive(Clone, Copy, Debug, PartialEq, Eq)]
pub enum StateWhy {
    /// The first byte that isn't 0 to 9 or a to f, or the length where it is odd.
    NotHex { at: u64 },
    Fault(StateFault),
}

/// What is too large.
#[derive(Clone, Copy, Debug, PartialEq, Eq)]
pub enum Size {
    Line,
    Input,
    Script,
}

/// How a run ends. Lines, rows and columns count from 1.
#[derive(Debug, Drop)]
pub enum Status {
    Done,
    /// The words are not the program's.
    Usage,
    /// The first line that is refused.
    BadRequest {
        line: u64,
        why: Why,
    },
    /// The first row that is refused.
    BadRow {
        row: u64,
        why: RowWhy,
    },
    /// The first row that is refused, for the field of a state.
    BadState {
        row: u64,
        column: u32,
        why: StateWhy,
    },
    ReadFault,
    WriteFault,
    TooLarge(Size),
    OutOfMemory,
}
