//! Faults as statuses.
ghost use Rattle.std.specs.Prelude.{◌≡◌};
ghost use Rattle.query_run.specs.Outcome.{refused_field, status_of};

use batch_reader::RowFault;
use refusals::{RowWhy, Size, StateWhy, Status};
use tsv_values::FieldFault;

fn refused_field(row: u64, column: u32, fault: FieldFault) -> Status
    ensures { result ≡ refused_field row column fault }
{
    match fault {
        FieldFault::NotHex(at) => Status::BadState {
            row,
            column,
            why: StateWhy::NotHex { at },
        },
        FieldFault::BadState(fault) => Status::BadState {
            row,
            column,
            why: StateWhy::Fault(fault),
        },
        fault => Status::BadRow {
            row,
            why: RowWhy::Field { column, fault },
        },
    }
}

/// How a run ends whose rows have this fault.
pub(crate) fn status_of(fault: RowFault) -> Status
    ensures { result ≡ status_of fault }
{
    match fault {
        RowFault::Row { row, column, fault } => refused_field(row, column, fault),
        RowFault::FieldCount { row, want, have } => Status::BadRow {
            row,
            why: RowWhy::Count { want, have },
        },
        RowFault::TooLong { row: _ } => Status::TooLarge(Size::Line),
        RowFault::TooLarge => Status::TooLarge(Size::Input),
        RowFault::Read => Status::ReadFault,
        RowFault::OutOfMemory => Status::OutOfMemory,
    }
}
