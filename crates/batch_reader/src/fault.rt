//! Why an input is no batch of rows.
ghost use Rattle.std.specs.Prelude.{◌≡◌};
ghost use Rattle.batch_reader.specs.declared.fault.RowFault.TheVariants.{OutOfMemory};
ghost use Rattle.batch_reader.specs.proving.Faults.{fault_of};

use row_texts::LineRefusal;
use tsv_values::FieldFault;

/// Why an input is no batch of rows. Rows and columns count from 1.
#[derive(Debug, Drop)]
pub enum RowFault {
    /// The first refused row, its first refused column, and why; never a fault `OutOfMemory`.
    Row {
        row: u64,
        column: u32,
        fault: FieldFault,
    },
    /// The first refused row has so many fields, and there are so many columns.
    FieldCount {
        row: u64,
        want: u32,
        have: u64,
    },
    /// This row has more bytes than a line may have.
    TooLong {
        row: u64,
    },
    /// The input has more bytes than it may have.
    TooLarge,
    /// The source failed.
    Read,
    OutOfMemory,
}

impl From<value_types::OutOfMemory> for RowFault {
    ghost from_gives = { λ _ fault. fault ≡ OutOfMemory };

    fn from(_error: value_types::OutOfMemory) -> RowFault {
        RowFault::OutOfMemory
    }
}

/// A refused line, as the row of this number.
pub(crate) fn fault_of(row: u64, refusal: LineRefusal) -> RowFault
    ensures { result ≡ fault_of row refusal }
{
    match refusal {
        LineRefusal::FieldCount { want, have } => RowFault::FieldCount { row, want, have },
        LineRefusal::Field { column, fault } => RowFault::Row { row, column, fault },
        LineRefusal::OutOfMemory => RowFault::OutOfMemory,
    }
}
