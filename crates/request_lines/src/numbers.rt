//! The counts of INSERT and LOAD.

ghost use Rattle.std.specs.Prelude.{◌∷◌, []};
ghost use Rattle.request_lines.specs.proving.Judging.{a_count};
ghost use Rattle.request_lines.specs.proving.Reads.{Reads, IsCount};

use crate::rest::Rest;
use line_forms::LineFault;
use type_shapes::{has_minus, integer};

/// The number without a minus that comes first.
pub fn read_count(rest: Rest<'_>) -> Result<(u128, Rest<'_>), LineFault>
    ensures { Reads (a_count ∷ []) IsCount rest.entry result }
{
    let Some(first) = rest.integer() else {
        return Err(rest.fault());
    };
    if has_minus(first.digits) {
        return Err(rest.fault());
    }
    Ok((integer(first.digits) as u128, first.behind))
}
