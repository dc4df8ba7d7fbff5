//! The meaning of one line.
ghost use Rattle.agg_defs.specs.Plans.{PlanFits};
ghost use Rattle.request_rules.specs.Tables.{AreLegal};
ghost use Rattle.request_rules.specs.Views.{plan_of, schema_of};
ghost use Rattle.request_text.specs.Lines.{IsSelectJudged, IsTableJudged, Tells, no_form};
ghost use Rattle.std.specs.Prelude.{◌≡◌, ◌≤◌, ◌<◌, ◌^◌, length, IfOk};

use agg_defs::{GroupPlan, Schema};
use agg_typing::law_typing;
use line_forms::LineFault;
use refusals::Why;
use request_lines::{read_select, read_table};
use request_rules::{Refusal, judge_select, judge_table};
use std::alloc::Global;

/// Why a line that is none of its form is refused.
pub fn no_form(fault: LineFault) -> Refusal
    ensures { result ≡ no_form fault }
{
    match fault {
        LineFault::Syntax(at) => Refusal::Broken(Why::Syntax(at)),
        LineFault::OutOfMemory => Refusal::OutOfMemory,
    }
}

/// The columns of the table that a line of fewer than 2^32 bytes spells, as `TABLE day UInt16, page String`.
///
/// # Errors
///
/// The place at which the line first fails to be one, or the first rule that the table breaks, by
/// [`judge_table`](request_rules::judge_table); [`Refusal::OutOfMemory`] where there is no room for the table.
pub fn schema_in(alloc: Global, line: &[u8]) -> Result<Schema, Refusal>
    requires { length line.now < 2 ^ 32 }
    ensures judged { Tells (IsTableJudged line.now) schema_of result }
    ensures few { IfOk result (λ schema. length schema.columns ≤ 64) }
    ensures legal { IfOk result (λ schema. AreLegal (schema_of schema)) }
{
    law_typing();
    match read_table(alloc, line) {
        Ok(table) => judge_table(alloc, &table),
        Err(fault) => Err(no_form(fault)),
    }
}

/// What the request that a line spells asks of a table.
pub(crate) fn plan_in(alloc: Global, schema: &Schema, line: &[u8]) -> Result<GroupPlan, Refusal>
    requires line { length line.now < 2 ^ 32 }
    requires few { length schema.now.columns ≤ 64 }
    requires legal { AreLegal (schema_of schema.now) }
    ensures judged { Tells (IsSelectJudged (schema_of schema.now) line.now) plan_of result }
    ensures fits { IfOk result (PlanFits schema.now) }
{
    match read_select(alloc, line) {
        Ok(select) => judge_select(alloc, schema, &select),
        Err(fault) => Err(no_form(fault)),
    }
}
