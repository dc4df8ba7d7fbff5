//! Names of columns and views.

ghost use Rattle.std.specs.Prelude.{◌∷◌, []};
ghost use Rattle.request_lines.specs.proving.Judging.{a_name, names};
ghost use Rattle.request_lines.specs.proving.Reads.{Reads, IsName, AreNames};

use crate::rest::Rest;
use line_forms::{LineFault, WrittenName};
use std::alloc::Global;
use type_shapes::Mark;
use value_lists::{Bytes, Seq};

/// The name that comes first.
pub fn read_name<'a>(alloc: Global, rest: Rest<'a>) -> Result<(WrittenName, Rest<'a>), LineFault>
    ensures { Reads (a_name ∷ []) IsName rest.entry result }
{
    let Some(first) = rest.word() else {
        return Err(rest.fault());
    };
    let name = Bytes::from_slice(alloc, first.word)?;
    Ok((WrittenName { at: first.at, name }, first.behind))
}

/// Names, divided by commas.
pub fn read_names<'a>(
    alloc: Global,
    rest: Rest<'a>,
) -> Result<(Seq<WrittenName>, Rest<'a>), LineFault>
    ensures { Reads (a_name ∷ names ∷ []) AreNames rest.entry result }
{
    let mut names = Seq::new(alloc);
    let (first, mut left) = read_name(alloc, rest)?;
    names.push(first)?;
    while let Some(behind) = left.behind(Mark::Dividing) {
        let (name, after) = read_name(alloc, behind)?;
        names.push(name)?;
        left = after;
    }
    Ok((names, left))
}
