//! The calls of a request.

ghost use Rattle.std.specs.Prelude.{◌∷◌, []};
ghost use Rattle.request_lines.specs.proving.Judging.{a_name, names, opening, closing, a_literal, literals, call, calls, in_call, maybe_arguments, in_names};
ghost use Rattle.request_lines.specs.proving.Reads.{Reads, AreArguments, AreParamsRead, IsInside, IsEmptyInside, IsCall, AreCallsRead};

use crate::literals::read_literals;
use crate::marks::{skip_closing, skip_opening};
use crate::names::read_names;
use crate::rest::Rest;
use line_forms::{LineFault, WrittenCall, WrittenName};
use std::alloc::Global;
use type_shapes::Mark;
use value_lists::{Bytes, Seq};
use value_types::Literal;

/// What stands in the brackets of a call.
#[derive(Debug, Drop)]
struct Inside {
    params: Seq<Literal>,
    arguments: Seq<WrittenName>,
}

/// Names, one or more, and the closing bracket.
fn read_closed_names<'a>(
    alloc: Global,
    rest: Rest<'a>,
) -> Result<(Seq<WrittenName>, Rest<'a>), LineFault>
    ensures { Reads (a_name ∷ names ∷ closing ∷ []) AreArguments rest.entry result }
{
    let (names, left) = read_names(alloc, rest)?;
    let closed = skip_closing(left)?;
    Ok((names, closed))
}

/// Names, or none, and the closing bracket.
fn read_arguments<'a>(
    alloc: Global,
    rest: Rest<'a>,
) -> Result<(Seq<WrittenName>, Rest<'a>), LineFault>
    ensures { Reads (in_names ∷ []) AreArguments rest.entry result }
{
    match rest.behind(Mark::Closing) {
        Some(closed) => Ok((Seq::new(alloc), closed)),
        None => read_closed_names(alloc, rest),
    }
}

/// Literals, the bracket that closes them and the one that opens the arguments.
fn read_params<'a>(alloc: Global, rest: Rest<'a>) -> Result<(Seq<Literal>, Rest<'a>), LineFault>
    ensures { Reads (a_literal ∷ literals ∷ closing ∷ opening ∷ []) AreParamsRead rest.entry result }
{
    let (params, left) = read_literals(alloc, rest)?;
    let closed = skip_closing(left)?;
    let opened = skip_opening(closed)?;
    Ok((params, opened))
}

/// Parameters, and then arguments in brackets of their own.
fn read_with_params<'a>(alloc: Global, rest: Rest<'a>) -> Result<(Inside, Rest<'a>), LineFault>
    ensures { Reads (a_literal ∷ literals ∷ closing ∷ opening ∷ in_names ∷ []) IsInside rest.entry result }
{
    let (params, opened) = read_params(alloc, rest)?;
    let (arguments, left) = read_arguments(alloc, opened)?;
    Ok((Inside { params, arguments }, left))
}

/// Arguments, where no parameters come.
fn read_without_params<'a>(alloc: Global, rest: Rest<'a>) -> Result<(Inside, Rest<'a>), LineFault>
    ensures { Reads (in_names ∷ []) IsInside rest.entry result }
{
    let (arguments, left) = read_arguments(alloc, rest)?;
    let params = Seq::new(alloc);
    Ok((Inside { params, arguments }, left))
}

/// Behind empty brackets: arguments in brackets of their own, if they come.
fn read_optional<'a>(alloc: Global, rest: Rest<'a>) -> Result<(Inside, Rest<'a>), LineFault>
    ensures { Reads (maybe_arguments ∷ []) IsEmptyInside rest.entry result }
{
    let Some(opened) = rest.behind(Mark::Opening) else {
        let params = Seq::new(alloc);
        let arguments = Seq::new(alloc);
        return Ok((Inside { params, arguments }, rest));
    };
    let (arguments, left) = read_arguments(alloc, opened)?;
    let params = Seq::new(alloc);
    Ok((Inside { params, arguments }, left))
}

/// What stands behind the first bracket of a call.
fn read_inside<'a>(alloc: Global, rest: Rest<'a>) -> Result<(Inside, Rest<'a>), LineFault>
    ensures { Reads (in_call ∷ []) IsInside rest.entry result }
{
    if let Some(closed) = rest.behind(Mark::Closing) {
        return read_optional(alloc, closed);
    }
    match rest.word() {
        Some(_) => read_without_params(alloc, rest),
        None => read_with_params(alloc, rest),
    }
}

/// The call that comes first.
fn read_call<'a>(alloc: Global, rest: Rest<'a>) -> Result<(WrittenCall, Rest<'a>), LineFault>
    ensures { Reads (call ∷ []) IsCall rest.entry result }
{
    let Some(first) = rest.word() else {
        return Err(rest.fault());
    };
    let opened = skip_opening(first.behind)?;
    let (inside, left) = read_inside(alloc, opened)?;
    let name = Bytes::from_slice(alloc, first.word)?;
    let Inside { params, arguments } = inside;
    let call = WrittenCall {
        name,
        params,
        arguments,
    };
    Ok((call, left))
}

/// Calls, divided by commas.
pub fn read_calls<'a>(
    alloc: Global,
    rest: Rest<'a>,
) -> Result<(Seq<WrittenCall>, Rest<'a>), LineFault>
    ensures { Reads (call ∷ calls ∷ []) AreCallsRead rest.entry result }
{
    let mut calls = Seq::new(alloc);
    let (first, mut left) = read_call(alloc, rest)?;
    calls.push(first)?;
    while let Some(behind) = left.behind(Mark::Dividing) {
        let (call, after) = read_call(alloc, behind)?;
        calls.push(call)?;
        left = after;
    }
    Ok((calls, left))
}
