//! A plan with its columns counted among the marked ones.
ghost use Rattle.std.specs.Prelude.{◌≡◌, ◌<◌, IfOk, length, map};
ghost use Rattle.agg_defs.specs.Plans.{call_in, view_in};
ghost use Rattle.agg_terms.specs.Lists.{Each};
ghost use Rattle.needed_columns.specs.Columns.{narrowed, narrowed_call, place_in};

use agg_defs::{Call, GroupPlan};
use std::alloc::Global;
use value_types::{OutOfMemory, Seq};

fn place_in(marks: &[bool], column: u32) -> u32
    requires { column < length marks.now }
    ensures { result ≡ place_in marks.now column }
{
    let mut place = 0u32;
    for marked in &marks[..column as usize] {
        place += u32::from(*marked);
    }
    place
}

#[tactic(auto, using(crate::proofs::Plans::plan_laws))]
fn places_of(alloc: Global, marks: &[bool], columns: &[u32]) -> Result<Seq<u32>, OutOfMemory>
    requires { Each (λ i. i < length marks.now) columns.now }
    ensures { IfOk result (λ places. places ≡ map (place_in marks.now) columns.now) }
{
    let mut places = Seq::new(alloc);
    for column in columns {
        places.push(place_in(marks, *column))?;
    }
    Ok(places)
}

#[tactic(auto, using(crate::proofs::Plans::plan_laws))]
fn narrowed_call(alloc: Global, marks: &[bool], call: &Call) -> Result<Call, OutOfMemory>
    requires { Each (λ i. i < length marks.now) call.now.columns }
    ensures { IfOk result (λ narrow. call_in narrow ≡ narrowed_call marks.now (call_in call.now)) }
{
    Ok(Call {
        legal: call.legal.copy(alloc)?,
        columns: places_of(alloc, marks, call.columns.as_slice())?,
    })
}

#[tactic(auto, using(crate::proofs::Plans::plan_laws))]
fn narrowed_calls(alloc: Global, marks: &[bool], calls: &[Call]) -> Result<Seq<Call>, OutOfMemory>
    requires { Each (λ (c : Call). Each (λ i. i < length marks.now) c.columns) calls.now }
    ensures { IfOk result (λ narrow. map call_in narrow ≡ map (narrowed_call marks.now) (map call_in calls.now)) }
{
    let mut narrow = Seq::new(alloc);
    for call in calls {
        narrow.push(narrowed_call(alloc, marks, call)?)?;
    }
    Ok(narrow)
}

/// The plan over the marked columns.
#[tactic(auto, using(crate::proofs::Plans::plan_laws))]
pub(crate) fn narrowed_plan(
    alloc: Global,
    marks: &[bool],
    plan: &GroupPlan,
) -> Result<GroupPlan, OutOfMemory>
    requires calls { Each (λ (c : Call). Each (λ i. i < length marks.now) c.columns) plan.now.calls }
    requires keys { Each (λ i. i < length marks.now) plan.now.keys }
    ensures { IfOk result (λ narrow. view_in narrow ≡ narrowed marks.now (view_in plan.now)) }
{
    Ok(GroupPlan {
        calls: narrowed_calls(alloc, marks, plan.calls.as_slice())?,
        keys: places_of(alloc, marks, plan.keys.as_slice())?,
    })
}
