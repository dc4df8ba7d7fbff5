//! A request: its calls and its keys.

ghost use Rattle.std.specs.Prelude.{◌∷◌, []};
ghost use Rattle.request_lines.specs.proving.Judging.{group, select_goals};
ghost use Rattle.request_lines.specs.proving.Reads.{Reads, AreKeys, IsRequest};

use crate::calls::read_calls;
use crate::marks::{is, skip_keyword};
use crate::names::read_names;
use crate::rest::Rest;
use line_forms::{LineFault, WrittenName, WrittenSelect};
use std::alloc::Global;
use value_lists::Seq;

/// The names behind `GROUP BY`, if it comes.
fn read_keys<'a>(alloc: Global, rest: Rest<'a>) -> Result<(Seq<WrittenName>, Rest<'a>), LineFault>
    ensures { Reads (group ∷ []) AreKeys rest.entry result }
{
    match rest.word() {
        Some(first) if is(first.word, b"GROUP") => {
            let keys = skip_keyword(first.behind, b"BY")?;
            read_names(alloc, keys)
        }
        _ => Ok((Seq::new(alloc), rest)),
    }
}

/// The request that comes first.
pub fn read_request<'a>(
    alloc: Global,
    rest: Rest<'a>,
) -> Result<(WrittenSelect, Rest<'a>), LineFault>
    ensures { Reads select_goals IsRequest rest.entry result }
{
    let first = skip_keyword(rest, b"SELECT")?;
    let (calls, behind) = read_calls(alloc, first)?;
    let (keys, left) = read_keys(alloc, behind)?;
    Ok((WrittenSelect { calls, keys }, left))
}
