//! What a query asks.
ghost use Rattle.agg_defs.specs.Plans.{PlanFits};
ghost use Rattle.request_text.specs.Queries.{IsQueryAnswer, on_line};
ghost use Rattle.std.specs.Prelude.{◌≡◌, ◌<◌, ◌^◌, length, IfOk};

use crate::lines::{plan_in, schema_in};
use agg_defs::{GroupPlan, Schema};
use refusals::RequestFault;
use request_rules::Refusal;
use std::alloc::Global;

/// A table, and what is asked of its rows.
#[derive(Drop)]
pub struct Query {
    pub schema: Schema,
    pub plan: GroupPlan,
}

/// The fault of a line, counted from 1.
pub fn on_line(line: u64, refusal: Refusal) -> RequestFault
    ensures { result ≡ on_line line refusal }
{
    match refusal {
        Refusal::Broken(why) => RequestFault::Bad { line, why },
        Refusal::OutOfMemory => RequestFault::OutOfMemory,
    }
}

/// The query that two lines ask: a table, as `TABLE day UInt16, page String`, and a request over its columns, as
/// `SELECT count(), sum(day) GROUP BY page` (manual: "SELECT", "GROUP BY", "Aggregate functions"; what is left out of the
/// language, the limits and the order of refusals are this project's own choice). Each line has fewer than 2^32 bytes. What is
/// asked agrees with the table: it is a legal view over the table's columns (`law_plans` of agg_defs).
///
/// # Errors
///
/// [`RequestFault::Bad`] with the first line that is refused, 1 or 2, and why: where it is no such line, the place at
/// which it first fails to be one; otherwise the first rule that it breaks, by [`judge_table`](request_rules::judge_table)
/// and [`judge_select`](request_rules::judge_select). [`RequestFault::OutOfMemory`] where there is no room for the query.
pub fn read_query(alloc: Global, line1: &[u8], line2: &[u8]) -> Result<Query, RequestFault>
    requires table { length line1.now < 2 ^ 32 }
    requires select { length line2.now < 2 ^ 32 }
    ensures query { IsQueryAnswer line1.now line2.now result }
    ensures agrees { IfOk result (λ query. PlanFits query.schema query.plan) }
{
    let schema = match schema_in(alloc, line1) {
        Ok(schema) => schema,
        Err(refusal) => return Err(on_line(1, refusal)),
    };
    match plan_in(alloc, &schema, line2) {
        Ok(plan) => Ok(Query { schema, plan }),
        Err(refusal) => Err(on_line(2, refusal)),
    }
}
