//! Which columns a plan names.
ghost use Rattle.std.specs.Prelude.{◌≡◌, ◌<◌, ◌^◌, IfOk, map};
ghost use Rattle.std.specs.List.{list_any};
ghost use Rattle.agg_defs.specs.Plans.{call_in, view_in};
ghost use Rattle.needed_columns.specs.Columns.{is_argument, is_named, marks_of};

use agg_defs::{Call, GroupPlan};
use std::alloc::Global;
use value_types::OutOfMemory;

#[tactic(auto, using(crate::proofs::Named::mark_laws))]
fn is_argument(calls: &[Call], column: u32) -> bool
    ensures { result ≡ list_any (is_argument column) (map call_in calls.now) }
{
    for call in calls {
        if call.columns.as_slice().contains(&column) {
            return true;
        }
    }
    false
}

fn is_named(plan: &GroupPlan, column: u32) -> bool
    ensures { result ≡ is_named (view_in plan.now) column }
{
    plan.keys.as_slice().contains(&column) || is_argument(plan.calls.as_slice(), column)
}

/// A mark for each of so many columns: whether the plan names it, as a key or as an argument.
#[tactic(auto, using(crate::proofs::Named::mark_laws))]
pub(crate) fn marks_of(
    alloc: Global,
    columns: usize,
    plan: &GroupPlan,
) -> Result<Vec<bool>, OutOfMemory>
    requires { columns < 2 ^ 32 }
    ensures { IfOk result (λ marks. marks.items ≡ marks_of columns (view_in plan.now)) }
{
    let mut marks = Vec::new(alloc);
    for column in 0..columns as u32 {
        marks.push(is_named(plan, column))?;
    }
    Ok(marks)
}
