//! Why a field is refused.
ghost use Rattle.std.specs.Prelude.{◌≡◌};
ghost use Rattle.scalar_texts.specs.declared.fault.FieldFault.TheVariants.{OutOfMemory};

use std::alloc::AllocError;
use tsv_text::TextFault;

/// Why the bytes of a state are refused. A place counts bytes from 0. The bytes of states are this project's own choice.
#[derive(Clone, Copy, Debug, PartialEq, Eq)]
pub enum StateFault {
    /// The first byte, where it is no version that is read.
    Version(u8),
    /// The bytes end too early.
    Short,
    /// The state ends here, and more bytes follow.
    Long(u64),
    /// What was read here breaks its rule.
    NotCanonical(u64),
    /// A byte that has to be 00 or 01 is another.
    BadTag(u64),
}

/// Why a reader of states has no tree.
#[derive(Clone, Copy, Debug, PartialEq, Eq)]
pub enum StateReadFault {
    Bad(StateFault),
    OutOfMemory,
}

/// Why a field is refused. A place counts bytes from 0.
#[derive(Debug, Drop)]
pub enum FieldFault {
    /// No sign and digits.
    NotNumber,
    /// A number outside the type's range.
    OutOfRange,
    /// An escape of a string; never its `OutOfMemory`.
    Text(TextFault),
    /// How long the longest front is that begins an array's text.
    BadArray(u64),
    /// The same of a map's text.
    BadMap(u64),
    /// `\N` in a field that isn't Nullable.
    NotNullable,
    /// The first byte that isn't 0 to 9 or a to f, or the length where it is odd.
    NotHex(u64),
    BadState(StateFault),
    OutOfMemory,
}

impl From<value_lists::OutOfMemory> for FieldFault {
    ghost from_gives = { λ _ fault. fault ≡ OutOfMemory };

    fn from(_error: value_lists::OutOfMemory) -> FieldFault {
        FieldFault::OutOfMemory
    }
}

impl From<AllocError> for FieldFault {
    ghost from_gives = { λ _ fault. fault ≡ OutOfMemory };

    fn from(_error: AllocError) -> FieldFault {
        FieldFault::OutOfMemory
    }
}
