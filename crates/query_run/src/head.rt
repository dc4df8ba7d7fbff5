//! The two lines before the rows: the table, judged before the request is read, and the request.
ghost use Rattle.std.specs.Prelude.{◌≡◌, ◌≤◌, ◌<◌, ◌^◌, length, Ok, IfOk, IfErr};
ghost use Rattle.agg_defs.specs.Plans.{PlanFits};
ghost use Rattle.line_reader.specs.Ahead.{new_ahead};
ghost use Rattle.request_rules.specs.Tables.{AreLegal};
ghost use Rattle.request_rules.specs.Views.{schema_of};
ghost use Rattle.request_text.specs.Queries.{IsQueryAnswer};
ghost use Rattle.query_run.specs.Outcome.{most_input, most_line};
ghost use Rattle.query_run.specs.Runs.{IsRefusal};
ghost use Rattle.query_run.specs.proving.Heads.{HeadsTo, IsTableLine, ReadsLine, RefusesQuery, RefusesTable, StatusCause, line_status, refused};

use agg_ports::Source;
use line_reader::{LineFault, Lookahead};
use refusals::{RequestFault, Size, Status};
use request_text::{Query, law_one_query, on_line, read_query, schema_in};
use std::alloc::Global;
use value_types::{Bytes, Seq};

fn line_status(fault: LineFault) -> Status
    ensures { result ≡ line_status fault }
{
    match fault {
        LineFault::Read => Status::ReadFault,
        LineFault::TooLong => Status::TooLarge(Size::Line),
        LineFault::TooLarge => Status::TooLarge(Size::Input),
        LineFault::OutOfMemory => Status::OutOfMemory,
    }
}

fn refused(fault: RequestFault) -> Status
    ensures { result ≡ refused fault }
{
    match fault {
        RequestFault::Bad { line, why } => Status::BadRequest { line, why },
        RequestFault::OutOfMemory => Status::OutOfMemory,
    }
}

// The next line; where the input ends, the empty one.
fn head_line<S: Source>(
    alloc: Global,
    ahead: &mut Lookahead,
    source: &mut S,
) -> Result<Bytes, Status>
    ensures line { ReadsLine (S.left source.old) (S.left source.new) ahead.old ahead.new result }
    ensures short { IfOk result (λ line. length line ≤ ahead.old.most_line) }
    ensures same { IfOk result (λ _. ahead.new.most_line ≡ ahead.old.most_line) }
    ensures refusal { IfErr result IsRefusal }
    ensures cause { StatusCause (S.faults source.old) (S.faults source.new) result }
{
    match ahead.next_line(alloc, source) {
        Ok(Some(line)) => Ok(line),
        Ok(None) => Ok(Seq::new(alloc)),
        Err(fault) => Err(line_status(fault)),
    }
}

// Whether a line is the line of a table.
fn check_table(alloc: Global, line: &[u8]) -> Result<(), Status>
    requires { length line.now < 2 ^ 32 }
    ensures table { IfOk result (λ _. IsTableLine line.now) }
    ensures refused { IfErr result (RefusesTable line.now) }
    ensures refusal { IfErr result IsRefusal }
{
    match schema_in(alloc, line) {
        Ok(_) => Ok(()),
        Err(refusal) => Err(refused(on_line(1, refusal))),
    }
}

// The query of a table's line and of one more.
fn query_of(alloc: Global, table: &[u8], request: &[u8]) -> Result<Query, Status>
    requires table { length table.now < 2 ^ 32 }
    requires request { length request.now < 2 ^ 32 }
    requires judged { IsTableLine table.now }
    ensures query { IfOk result (λ query. IsQueryAnswer table.now request.now (Ok query)) }
    ensures fits { IfOk result (λ query. PlanFits query.schema query.plan) }
    ensures few { IfOk result (λ query. length query.schema.columns ≤ 64) }
    ensures legal { IfOk result (λ query. AreLegal (schema_of query.schema)) }
    ensures refused { IfErr result (RefusesQuery table.now request.now) }
    ensures refusal { IfErr result IsRefusal }
{
    law_one_query();
    match read_query(alloc, table, request) {
        Ok(query) => Ok(query),
        Err(fault) => Err(refused(fault)),
    }
}

/// The query of the next two lines.
///
/// # Errors
///
/// How the run ends where a line is refused or can't be read. A refused table ends it before more is read.
pub(crate) fn read_head<S: Source>(
    alloc: Global,
    ahead: &mut Lookahead,
    source: &mut S,
) -> Result<Query, Status>
    requires { ahead.old ≡ new_ahead most_line most_input }
    ensures head { HeadsTo S.left source.old source.new ahead.new result }
    ensures limit { IfOk result (λ _. ahead.new.most_line ≡ most_line) }
    ensures fits { IfOk result (λ query. PlanFits query.schema query.plan) }
    ensures few { IfOk result (λ query. length query.schema.columns ≤ 64) }
    ensures legal { IfOk result (λ query. AreLegal (schema_of query.schema)) }
    ensures refusal { IfErr result IsRefusal }
    ensures cause { StatusCause (S.faults source.old) (S.faults source.new) result }
{
    let table = match head_line(alloc, ahead, source) {
        Ok(table) => table,
        Err(status) => return Err(status),
    };
    match check_table(alloc, table.as_slice()) {
        Ok(()) => {}
        Err(status) => return Err(status),
    }
    match head_line(alloc, ahead, source) {
        Ok(request) => query_of(alloc, table.as_slice(), request.as_slice()),
        Err(status) => Err(status),
    }
}
