//! Why a line is no row.
ghost use Rattle.std.specs.Prelude.{◌≡◌};
ghost use Rattle.row_texts.specs.declared.refusal.LineRefusal.TheVariants.{OutOfMemory};

use tsv_values::FieldFault;

/// Why a line is no row of given types.
#[derive(Debug, Drop)]
pub enum LineRefusal {
    /// It has so many fields, and there are so many types.
    FieldCount { want: u32, have: u64 },
    /// The first refused field from the left: its column, from 1, and its fault, which is never `OutOfMemory`.
    Field { column: u32, fault: FieldFault },
    OutOfMemory,
}

impl From<value_types::OutOfMemory> for LineRefusal {
    ghost from_gives = { λ _ refusal. refusal ≡ OutOfMemory };

    fn from(_error: value_types::OutOfMemory) -> LineRefusal {
        LineRefusal::OutOfMemory
    }
}
