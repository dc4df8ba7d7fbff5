//! The parameters of a call.

ghost use Rattle.std.specs.Prelude.{◌∷◌, []};
ghost use Rattle.request_lines.specs.proving.Judging.{a_literal, literals};
ghost use Rattle.request_lines.specs.proving.Reads.{Reads, IsLiteralRead, AreLiteralsRead};

use crate::rest::Rest;
use line_forms::LineFault;
use std::alloc::Global;
use type_shapes::{Mark, read_literal};
use value_lists::Seq;
use value_types::Literal;

/// The literal that comes first.
fn read_one<'a>(alloc: Global, rest: Rest<'a>) -> Result<(Literal, Rest<'a>), LineFault>
    ensures { Reads (a_literal ∷ []) IsLiteralRead rest.entry result }
{
    let Some(first) = rest.first() else {
        return Err(rest.fault());
    };
    let Some(literal) = read_literal(alloc, first.token)? else {
        return Err(rest.fault());
    };
    Ok((literal, first.behind))
}

/// Literals, divided by commas.
pub fn read_literals<'a>(
    alloc: Global,
    rest: Rest<'a>,
) -> Result<(Seq<Literal>, Rest<'a>), LineFault>
    ensures { Reads (a_literal ∷ literals ∷ []) AreLiteralsRead rest.entry result }
{
    let mut literals = Seq::new(alloc);
    let (first, mut left) = read_one(alloc, rest)?;
    literals.push(first)?;
    while let Some(behind) = left.behind(Mark::Dividing) {
        let (literal, after) = read_one(alloc, behind)?;
        literals.push(literal)?;
        left = after;
    }
    Ok((literals, left))
}
