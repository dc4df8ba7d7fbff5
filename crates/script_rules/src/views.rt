//! The rules on views.
ghost use Rattle.agg_defs.specs.Plans.{PlanFits};
ghost use Rattle.line_forms.specs.Views.{name_of, select_of};
ghost use Rattle.request_rules.specs.Answers.{Says};
ghost use Rattle.request_rules.specs.Selects.{AreFewCalls};
ghost use Rattle.request_rules.specs.Tables.{AreLegal};
ghost use Rattle.request_rules.specs.Views.{schema_of};
ghost use Rattle.script_rules.specs.Folds.{view_of, views_of};
ghost use Rattle.script_rules.specs.Views as rules;
ghost use Rattle.std.specs.List.{position};
ghost use Rattle.std.specs.Prelude.{◌≡◌, ◌<◌, ◌≤◌, length, IfOk, IfSome};
ghost use Rattle.std.specs.Str.{bytes_eq};

use agg_defs::{Schema, View};
use line_forms::{WrittenName, WrittenSelect};
use refusals::{LimitName, Why};
use request_rules::{Refusal, check_limits, judge_select};
use std::alloc::Global;
use value_types::Seq;

/// How many views a script may have (this project's own choice).
const MOST_VIEWS: usize = 16;

fn first_with_name(views: &[View], name: &[u8]) -> Option<usize>
    ensures { result ≡ position (λ view. bytes_eq view.name name.now) views.now }
{
    views.iter().position(|view| view.name.as_slice() == name)
}

/// The place of the first view of a name.
#[tactic(auto, using(crate::proofs::Images::placed))]
fn place_of(views: &[View], name: &[u8]) -> Option<usize>
    ensures place { result ≡ rules.place_of (views_of views.now) name.now }
    ensures in_range { IfSome result (λ place. place < length views.now) }
{
    first_with_name(views, name)
}

/// One more view is not too many.
fn check_count(before: &[View]) -> Result<(), Refusal>
    ensures judged { Says (λ u. u) result (rules.has_few_views (views_of before.now)) }
    ensures few { IfOk result (λ _. length before.now < 16) }
{
    if before.len() >= MOST_VIEWS {
        return Err(Refusal::Broken(Why::Limit(LimitName::Views)));
    }
    Ok(())
}

/// No view before has the name.
fn check_name(before: &[View], name: &WrittenName) -> Result<(), Refusal>
    ensures { Says (λ u. u) result (rules.is_new_view (views_of before.now) (name_of name.now)) }
{
    match place_of(before, name.name.as_slice()) {
        Some(_) => Err(Refusal::Broken(Why::Repeated(name.at))),
        None => Ok(()),
    }
}

/// The view of a name over a table, behind the views that stand before it, by its rules in their order: a request with at
/// most 64 calls and at most 8 keys, at most 16 views, a name that no view before it has, and then what
/// [`judge_select`] asks of the request. The order is this project's own choice. The view's plan agrees with the table.
///
/// # Errors
///
/// The first rule that is broken, or [`Refusal::OutOfMemory`] where there is no room for the view.
pub fn judge_view(
    alloc: Global,
    schema: &Schema,
    before: &[View],
    name: &WrittenName,
    select: &WrittenSelect,
) -> Result<View, Refusal>
    requires few { AreFewCalls (select_of select.now).calls }
    requires columns { length schema.now.columns ≤ 64 }
    requires legal { AreLegal (schema_of schema.now) }
    ensures judged { Says view_of result (rules.judged_view (schema_of schema.now) (views_of before.now) (name_of name.now) (select_of select.now)) }
    ensures few { IfOk result (λ _. length before.now < 16) }
    ensures fits { IfOk result (λ view. PlanFits schema.now view.plan) }
{
    check_limits(select)?;
    check_count(before)?;
    check_name(before, name)?;
    let plan = judge_select(alloc, schema, select)?;
    Ok(View {
        name: Seq::from_slice(alloc, name.name.as_slice())?,
        plan,
    })
}

/// The place of the view that a name of a statement stands for, counted from 0.
///
/// # Errors
///
/// [`Why::UnknownView`] at the name where no view has it.
pub fn find_view(views: &[View], name: &WrittenName) -> Result<u32, Refusal>
    requires { length views.now ≤ 16 }
    ensures known { Says (λ place. place) result (rules.known_view (views_of views.now) (name_of name.now)) }
    ensures in_range { IfOk result (λ place. place < length views.now) }
{
    match place_of(views, name.name.as_slice()) {
        Some(place) => Ok(place as u32),
        None => Err(Refusal::Broken(Why::UnknownView(name.at))),
    }
}
