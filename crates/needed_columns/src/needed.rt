//! What a plan needs of a table.
ghost use Rattle.std.specs.Prelude.{◌≡◌, ◌<◌, ◌^◌, IfOk, length};
ghost use Rattle.agg_defs.specs.Plans.{PlanFits, view_in};
ghost use Rattle.needed_columns.specs.Columns.{kept_schema, marks_of, narrowed};
ghost use Rattle.needed_columns.specs.Sameness.{AreSame};

use crate::marks::marks_of;
use crate::places::narrowed_plan;
use crate::schema::kept_schema;
use agg_defs::{GroupPlan, Schema};
use std::alloc::Global;
use value_types::OutOfMemory;

/// The columns that a plan names, and what it asks of them alone.
#[derive(Drop)]
pub struct Needed {
    /// A mark for each column of the table: whether the plan names it.
    pub keep: Vec<bool>,
    /// The table of the marked columns.
    pub schema: Schema,
    /// The plan, with its columns counted among the marked ones.
    pub plan: GroupPlan,
}

/// The columns of a table that a plan names, as keys or as arguments. Rows with the fields of these columns alone bring the
/// same answer and the same tables as the whole rows.
///
/// # Errors
///
/// [`OutOfMemory`] where there is no room for the marks, the table and the plan.
#[tactic(auto, using(crate::proofs::Rows::needed_laws))]
pub fn needed_columns(
    alloc: Global,
    schema: &Schema,
    plan: &GroupPlan,
) -> Result<Needed, OutOfMemory>
    requires few { length schema.now.columns < 2 ^ 32 }
    requires fits { PlanFits schema.now plan.now }
    ensures marks { IfOk result (λ needed. needed.keep.items ≡ marks_of (length schema.now.columns) (view_in plan.now)) }
    ensures schema { IfOk result (λ needed. needed.schema ≡ kept_schema needed.keep.items schema.now) }
    ensures plan { IfOk result (λ needed. view_in needed.plan ≡ narrowed needed.keep.items (view_in plan.now)) }
    ensures fits { IfOk result (λ needed. PlanFits needed.schema needed.plan) }
    ensures same { IfOk result (λ needed. AreSame (length schema.now.columns) needed.keep.items (view_in plan.now) (view_in needed.plan)) }
{
    let keep = marks_of(alloc, schema.columns.len(), plan)?;
    let few = kept_schema(alloc, &keep, schema)?;
    let narrow = narrowed_plan(alloc, &keep, plan)?;
    Ok(Needed {
        keep,
        schema: few,
        plan: narrow,
    })
}
