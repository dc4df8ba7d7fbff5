//! Why there is no next line.
ghost use Rattle.std.specs.Prelude.{◌≡◌};
ghost use Rattle.line_reader.specs.declared.fault.LineFault.TheVariants.{OutOfMemory};

/// Why there is no next line.
#[derive(Clone, Copy, Debug, PartialEq, Eq)]
pub enum LineFault {
    /// The source failed.
    Read,
    /// The line has more bytes than a line may have.
    TooLong,
    /// The input has more bytes than it may have, and the line isn't complete before that.
    TooLarge,
    OutOfMemory,
}

impl From<value_lists::OutOfMemory> for LineFault {
    ghost from_gives = { λ _ fault. fault ≡ OutOfMemory };

    fn from(_error: value_lists::OutOfMemory) -> LineFault {
        LineFault::OutOfMemory
    }
}
