//! The rules on a request over a table.
ghost use Rattle.agg_defs.specs.Plans.{PlanFits};
ghost use Rattle.line_forms.specs.Views.{call_of, select_of};
ghost use Rattle.request_rules.specs.Answers.{Says};
ghost use Rattle.request_rules.specs.Selects as rules;
ghost use Rattle.request_rules.specs.Tables.{AreLegal};
ghost use Rattle.request_rules.specs.Views as views;
ghost use Rattle.std.specs.Prelude.{◌≡◌, ◌≤◌, length, map, IfOk};

use crate::calls::judge_calls;
use crate::keys::judge_keys;
use crate::refusal::Refusal;
use agg_defs::{GroupPlan, Schema};
use agg_typing::law_typing;
use line_forms::WrittenSelect;
use refusals::{LimitName, Why};
use std::alloc::Global;

/// How many calls and how many keys a request may have (this project's own choice).
const MOST_CALLS: usize = 64;

const MOST_KEYS: usize = 8;

/// The limits of a request: at most 64 calls, and then at most 8 keys (this project's own choice).
///
/// # Errors
///
/// The first limit that is broken.
pub fn check_limits(select: &WrittenSelect) -> Result<(), Refusal>
    ensures { Says (λ u. u) result (rules.within_limits (select_of select.now)) }
{
    if select.calls.len() > MOST_CALLS {
        return Err(Refusal::Broken(Why::Limit(LimitName::Calls)));
    }
    if select.keys.len() > MOST_KEYS {
        return Err(Refusal::Broken(Why::Limit(LimitName::Keys)));
    }
    Ok(())
}

/// The rules in their order.
fn judge_plan(alloc: Global, schema: &Schema, select: &WrittenSelect) -> Result<GroupPlan, Refusal>
    requires few { rules.AreFewCalls (select_of select.now).calls }
    requires columns { length schema.now.columns ≤ 64 }
    requires legal { AreLegal (views.schema_of schema.now) }
    ensures { Says views.plan_of result (rules.judged_select (views.schema_of schema.now) (select_of select.now)) }
{
    check_limits(select)?;
    let columns = schema.columns.as_slice();
    Ok(GroupPlan {
        calls: judge_calls(alloc, columns, select.calls.as_slice())?,
        keys: judge_keys(alloc, columns, select.keys.as_slice())?,
    })
}

/// What a request asks of the rows of a table, by its rules in their order: at most 64 calls, at most 8 keys; then for
/// each call from left to right, columns for its arguments, and what `resolve` asks of a call; then for each key from
/// left to right, a column, one that none to its left is, and of a number type, String or Nullable of one. The order is
/// this project's own choice. The plan agrees with the table.
///
/// # Errors
///
/// The first rule that is broken, or [`Refusal::OutOfMemory`] where there is no room for the plan.
pub fn judge_select(
    alloc: Global,
    schema: &Schema,
    select: &WrittenSelect,
) -> Result<GroupPlan, Refusal>
    requires few { rules.AreFewCalls (select_of select.now).calls }
    requires columns { length schema.now.columns ≤ 64 }
    requires legal { AreLegal (views.schema_of schema.now) }
    ensures judged { Says views.plan_of result (rules.judged_select (views.schema_of schema.now) (select_of select.now)) }
    ensures fits { IfOk result (PlanFits schema.now) }
{
    law_typing();
    judge_plan(alloc, schema, select)
}
