//! Exit statuses.
ghost use Rattle.std.specs.Prelude.{◌≡◌};
ghost use Rattle.agg_program.specs.Exits.{exit_number};

use refusals::Status;

/// The number with which the process ends.
pub fn status_number(status: &Status) -> u8
    ensures { result ≡ exit_number status.now }
{
    match status {
        Status::Done => 0,
        Status::Usage => 2,
        Status::BadRequest { .. } => 3,
        Status::BadRow { .. } => 4,
        Status::BadState { .. } => 5,
        Status::ReadFault => 6,
        Status::WriteFault => 7,
        Status::TooLarge(_) => 8,
        Status::OutOfMemory => 9,
    }
}
