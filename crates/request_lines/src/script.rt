//! Lines of a script, each read by what its first word says.

ghost use Rattle.std.specs.Prelude.{◌≡◌, ◌∷◌, ◌++◌, [], codes};
ghost use Rattle.request_lines.specs.proving.Judging.{line_kind, a_name, a_number, a_count, a_line, select_goals};
ghost use Rattle.request_lines.specs.proving.Reads.{ReadsAll, IsBehindKeyword, IsLineRead};

use crate::marks::{end, is};
use crate::names::read_name;
use crate::numbers::read_count;
use crate::request::read_request;
use crate::rest::Rest;
use line_forms::{LineFault, WrittenLine};
use std::alloc::Global;
use type_shapes::integer;

/// What the first word of a line says.
#[derive(Clone, Copy, Debug, PartialEq, Eq)]
pub enum LineKind {
    View,
    Session,
    Insert,
    Load,
    Read,
    States,
    Other,
}

fn line_kind(word: &[u8]) -> LineKind
    ensures { result ≡ line_kind word.now }
{
    if is(word, b"VIEW") {
        LineKind::View
    } else if is(word, b"SESSION") {
        LineKind::Session
    } else if is(word, b"INSERT") {
        LineKind::Insert
    } else if is(word, b"LOAD") {
        LineKind::Load
    } else if is(word, b"READ") {
        LineKind::Read
    } else if is(word, b"STATES") {
        LineKind::States
    } else {
        LineKind::Other
    }
}

fn view_in(alloc: Global, rest: Rest<'_>) -> Result<WrittenLine, LineFault>
    ensures { ReadsAll (a_name ∷ select_goals) (IsBehindKeyword (codes "VIEW")) rest.entry result }
{
    let (name, behind) = read_name(alloc, rest)?;
    let (select, left) = read_request(alloc, behind)?;
    end(left)?;
    Ok(WrittenLine::View { name, select })
}

fn session_in(rest: Rest<'_>) -> Result<WrittenLine, LineFault>
    ensures { ReadsAll (a_number ∷ []) (IsBehindKeyword (codes "SESSION")) rest.entry result }
{
    let Some(first) = rest.integer() else {
        return Err(rest.fault());
    };
    end(first.behind)?;
    Ok(WrittenLine::Session {
        at: first.at,
        number: integer(first.digits),
    })
}

fn insert_in(rest: Rest<'_>) -> Result<WrittenLine, LineFault>
    ensures { ReadsAll (a_count ∷ []) (IsBehindKeyword (codes "INSERT")) rest.entry result }
{
    let (count, left) = read_count(rest)?;
    end(left)?;
    Ok(WrittenLine::Insert { count })
}

fn load_in(alloc: Global, rest: Rest<'_>) -> Result<WrittenLine, LineFault>
    ensures { ReadsAll (a_name ∷ a_count ∷ []) (IsBehindKeyword (codes "LOAD")) rest.entry result }
{
    let (view, behind) = read_name(alloc, rest)?;
    let (count, left) = read_count(behind)?;
    end(left)?;
    Ok(WrittenLine::Load { view, count })
}

fn read_in(alloc: Global, rest: Rest<'_>) -> Result<WrittenLine, LineFault>
    ensures { ReadsAll (a_name ∷ []) (IsBehindKeyword (codes "READ")) rest.entry result }
{
    let (view, left) = read_name(alloc, rest)?;
    end(left)?;
    Ok(WrittenLine::Read { view })
}

fn states_in(alloc: Global, rest: Rest<'_>) -> Result<WrittenLine, LineFault>
    ensures { ReadsAll (a_name ∷ []) (IsBehindKeyword (codes "STATES")) rest.entry result }
{
    let (view, left) = read_name(alloc, rest)?;
    end(left)?;
    Ok(WrittenLine::States { view })
}

/// The line that is left.
pub fn line_in(alloc: Global, rest: Rest<'_>) -> Result<WrittenLine, LineFault>
    ensures { ReadsAll (a_line ∷ []) IsLineRead rest.entry result }
{
    let Some(first) = rest.word() else {
        return Err(rest.fault());
    };
    match line_kind(first.word) {
        LineKind::View => view_in(alloc, first.behind),
        LineKind::Session => session_in(first.behind),
        LineKind::Insert => insert_in(first.behind),
        LineKind::Load => load_in(alloc, first.behind),
        LineKind::Read => read_in(alloc, first.behind),
        LineKind::States => states_in(alloc, first.behind),
        LineKind::Other => Err(rest.fault()),
    }
}
