//! The rules on calls.
ghost use Rattle.agg_typing.specs.Legal.{are_legal_types};
ghost use Rattle.chain_types.specs.Calls.{call_seen};
ghost use Rattle.line_forms.specs.Views.{call_of, name_of};
ghost use Rattle.request_rules.specs.Answers.{Says};
ghost use Rattle.request_rules.specs.Selects as rules;
ghost use Rattle.request_rules.specs.Tables.{AreLegal};
ghost use Rattle.request_rules.specs.Turns.{in_turn};
ghost use Rattle.request_rules.specs.Views as views;
ghost use Rattle.std.specs.Prelude.{◌≡◌, ◌≤◌, ◌<◌, ◌^◌, true, [], length, map, All, IfOk};
ghost use Rattle.value_types.specs.Folds.{ty_of};

use crate::known::{Named, all_known, places_of, types_of};
use crate::refusal::{Refusal, part_refusal};
use agg_defs::{Call, Column, Legal};
use chain_types::resolve;
use line_forms::WrittenCall;
use std::alloc::Global;
use value_types::Seq;

/// What a call over columns stands for by the rules on chains, the call of a number, counted from 1.
fn resolve_call(
    alloc: Global,
    number: u32,
    call: &WrittenCall,
    found: &[Named<'_>],
) -> Result<Legal, Refusal>
    requires few { rules.IsFewCall (call_of call.now) }
    requires many { length found.now < 2 ^ 32 }
    requires legal { are_legal_types (rules.named_types (map views.named_of found.now)) ≡ true }
    ensures { Says call_seen result (rules.resolved_call number (call_of call.now) (map views.named_of found.now)) }
{
    let types = types_of(alloc, found)?;
    let name = call.name.as_slice();
    match resolve(alloc, name, call.params.as_slice(), types.as_slice()) {
        Ok(legal) => Ok(legal),
        Err(fault) => Err(part_refusal(number, fault)),
    }
}

/// The call of a number, counted from 1.
fn judge_call(
    alloc: Global,
    columns: &[Column],
    number: u32,
    call: &WrittenCall,
) -> Result<Call, Refusal>
    requires few { rules.IsFewCall (call_of call.now) }
    requires columns { length columns.now ≤ 64 }
    requires legal { AreLegal (map views.column_of columns.now) }
    ensures { Says views.call_of result (rules.call_numbered number (map views.column_of columns.now) (call_of call.now)) }
{
    let found = all_known(alloc, columns, call.arguments.as_slice())?;
    let legal = resolve_call(alloc, number, call, &found)?;
    Ok(Call {
        legal,
        columns: places_of(alloc, &found)?,
    })
}

/// The calls of a request, from left to right.
pub(crate) fn judge_calls(
    alloc: Global,
    columns: &[Column],
    calls: &[WrittenCall],
) -> Result<Seq<Call>, Refusal>
    requires few { rules.AreFewCalls (map call_of calls.now) }
    requires calls { length calls.now ≤ 64 }
    requires columns { length columns.now ≤ 64 }
    requires legal { AreLegal (map views.column_of columns.now) }
    ensures { Says (map views.call_of) result (rules.judged_calls (map views.column_of columns.now) (map call_of calls.now)) }
{
    let mut judged = Seq::new(alloc);
    for written in calls {
        let call = judge_call(alloc, columns, judged.len() as u32 + 1, written)?;
        judged.push(call)?;
    }
    Ok(judged)
}
