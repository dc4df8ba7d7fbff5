//! Types within a line.

ghost use Rattle.std.specs.Prelude.{◌∷◌, []};
ghost use Rattle.type_names.specs.declared.goal.Goal.TheVariants.{AnyType};
ghost use Rattle.request_lines.specs.proving.Judging.{in_type};
ghost use Rattle.request_lines.specs.proving.Reads.{Skips, IsType};

use crate::rest::Rest;
use line_forms::LineFault;
use std::alloc::Global;
use type_names::{Goal, goals_for};
use value_lists::Seq;

/// What stands behind the type that comes first. Its goals stand with the next one last.
pub fn skip_type<'a>(alloc: Global, rest: Rest<'a>) -> Result<Rest<'a>, LineFault>
    ensures { Skips (in_type AnyType ∷ []) IsType rest.entry result }
{
    let mut goals = Seq::new(alloc);
    goals.push(Goal::AnyType)?;
    let mut left = rest;
    while let Some(goal) = goals.pop() {
        let Some(first) = left.first() else {
            return Err(left.fault());
        };
        let Some(more) = goals_for(goal, first.token) else {
            return Err(left.fault());
        };
        goals.extend_from_slice(more)?;
        left = first.behind;
    }
    Ok(left)
}
