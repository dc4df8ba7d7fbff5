//! Whole lines, read.

ghost use Rattle.line_forms.specs.Answers.{IsTableAnswer, IsSelectAnswer, IsLineAnswer};
ghost use Rattle.request_lines.specs.proving.Judging.{table_goals, select_goals};
ghost use Rattle.request_lines.specs.proving.Reads.{ReadsAll, IsTableOf, IsSelectRead};

use crate::columns::read_columns;
use crate::marks::{end, skip_keyword};
use crate::request::read_request;
use crate::rest::Rest;
use crate::script::line_in;
use line_forms::{LineFault, WrittenLine, WrittenSelect, WrittenTable};
use std::alloc::Global;

fn table_in(alloc: Global, rest: Rest<'_>) -> Result<WrittenTable, LineFault>
    ensures { ReadsAll table_goals IsTableOf rest.entry result }
{
    let columns = skip_keyword(rest, b"TABLE")?;
    let (columns, left) = read_columns(alloc, columns)?;
    end(left)?;
    Ok(WrittenTable { columns })
}

/// Reads the line that names the columns of a table: `TABLE` and columns, each a name and a type, divided by commas
/// (this project's own choice; types as in the manual: "Data types").
///
/// # Errors
/// `Syntax` is the place of the first token that no such line goes on with, or the line's length where it ends too
/// early.
pub fn read_table(alloc: Global, line: &[u8]) -> Result<WrittenTable, LineFault>
    ensures { IsTableAnswer line.now result }
{
    table_in(alloc, Rest::of(line))
}

fn select_in(alloc: Global, rest: Rest<'_>) -> Result<WrittenSelect, LineFault>
    ensures { ReadsAll select_goals IsSelectRead rest.entry result }
{
    let (select, left) = read_request(alloc, rest)?;
    end(left)?;
    Ok(select)
}

/// Reads the line of a request: `SELECT` and calls, divided by commas, and `GROUP BY` and names, if it has keys (manual:
/// "SELECT", "GROUP BY", "Parametric aggregate functions"; what else may stand there is this project's own choice).
///
/// # Errors
/// `Syntax` is the place of the first token that no such line goes on with, or the line's length where it ends too
/// early.
pub fn read_select(alloc: Global, line: &[u8]) -> Result<WrittenSelect, LineFault>
    ensures { IsSelectAnswer line.now result }
{
    select_in(alloc, Rest::of(line))
}

/// Reads a line of a script behind its table, apart from lines of rows: `VIEW` with a name and a request, `SESSION` with a
/// number, `INSERT` with a count, `LOAD` with a view and a count, `READ` or `STATES` with a view (this project's own
/// choice).
///
/// # Errors
/// `Syntax` is the place of the first token that no such line goes on with, or the line's length where it ends too
/// early.
pub fn read_script_line(alloc: Global, line: &[u8]) -> Result<WrittenLine, LineFault>
    ensures { IsLineAnswer line.now result }
{
    line_in(alloc, Rest::of(line))
}
