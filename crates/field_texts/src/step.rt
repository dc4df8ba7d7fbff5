//! One byte at the goals that are left. Each call answers whether the text may go on so.
ghost use Rattle.std.specs.Prelude.{◌≡◌, IfOk, OnOk, true, ◌∷◌};
ghost use Rattle.value_types.specs.Folds.{ty_of};
ghost use Rattle.field_texts.specs.Syntax.{form_of};
ghost use Rattle.field_texts.specs.proving.Goals.{stack_of, goes_to};
ghost use Rattle.field_texts.specs.Machine as machine;

use crate::goal::{Goal, open, push};
use crate::mark::Mark;
use value_lists::OutOfMemory;
use value_types::Ty;

fn step_value<'t>(goals: &mut Vec<Goal<'t>>, ty: &'t Ty, mark: Mark) -> Result<bool, OutOfMemory>
    ensures { IfOk result (λ goes. machine.step_on (machine.value (form_of (ty_of ty.now)) ∷ stack_of goals.old.items) mark ≡ goes_to goes goals.new.items) }
{
    match mark {
        Mark::Space => push(goals, Goal::Value(ty)),
        _ => open(goals, ty, mark),
    }
}

fn step_first<'t>(goals: &mut Vec<Goal<'t>>, ty: &'t Ty, mark: Mark) -> Result<bool, OutOfMemory>
    ensures { IfOk result (λ goes. machine.step_on (machine.first (form_of (ty_of ty.now)) ∷ stack_of goals.old.items) mark ≡ goes_to goes goals.new.items) }
{
    match mark {
        Mark::Space => push(goals, Goal::First(ty)),
        Mark::CloseBracket => Ok(true),
        _ => {
            push(goals, Goal::More(ty))?;
            open(goals, ty, mark)
        }
    }
}

fn step_more<'t>(goals: &mut Vec<Goal<'t>>, ty: &'t Ty, mark: Mark) -> Result<bool, OutOfMemory>
    ensures { IfOk result (λ goes. machine.step_on (machine.more (form_of (ty_of ty.now)) ∷ stack_of goals.old.items) mark ≡ goes_to goes goals.new.items) }
{
    match mark {
        Mark::Space => push(goals, Goal::More(ty)),
        Mark::CloseBracket => Ok(true),
        Mark::Comma => {
            push(goals, Goal::More(ty))?;
            push(goals, Goal::Value(ty))
        }
        _ => Ok(false),
    }
}

/// What is to come behind the key of an entry.
fn push_entry<'t>(goals: &mut Vec<Goal<'t>>, key: &'t Ty, ty: &'t Ty) -> Result<bool, OutOfMemory>
    ensures goes { IfOk result (λ goes. goes ≡ true) }
    ensures pushed { OnOk result (stack_of goals.new.items ≡ machine.between ∷ machine.value (form_of (ty_of ty.now)) ∷ machine.more_pair (form_of (ty_of key.now)) (form_of (ty_of ty.now)) ∷ stack_of goals.old.items) }
{
    push(goals, Goal::MorePair(key, ty))?;
    push(goals, Goal::Value(ty))?;
    push(goals, Goal::Between)
}

fn step_first_pair<'t>(
    goals: &mut Vec<Goal<'t>>,
    key: &'t Ty,
    ty: &'t Ty,
    mark: Mark,
) -> Result<bool, OutOfMemory>
    ensures { IfOk result (λ goes. machine.step_on (machine.first_pair (form_of (ty_of key.now)) (form_of (ty_of ty.now)) ∷ stack_of goals.old.items) mark ≡ goes_to goes goals.new.items) }
{
    match mark {
        Mark::Space => push(goals, Goal::FirstPair(key, ty)),
        Mark::CloseBrace => Ok(true),
        _ => {
            push_entry(goals, key, ty)?;
            open(goals, key, mark)
        }
    }
}

fn step_more_pair<'t>(
    goals: &mut Vec<Goal<'t>>,
    key: &'t Ty,
    ty: &'t Ty,
    mark: Mark,
) -> Result<bool, OutOfMemory>
    ensures { IfOk result (λ goes. machine.step_on (machine.more_pair (form_of (ty_of key.now)) (form_of (ty_of ty.now)) ∷ stack_of goals.old.items) mark ≡ goes_to goes goals.new.items) }
{
    match mark {
        Mark::Space => push(goals, Goal::MorePair(key, ty)),
        Mark::CloseBrace => Ok(true),
        Mark::Comma => {
            push_entry(goals, key, ty)?;
            push(goals, Goal::Value(key))
        }
        _ => Ok(false),
    }
}

fn step_between(goals: &mut Vec<Goal<'_>>, mark: Mark) -> Result<bool, OutOfMemory>
    ensures { IfOk result (λ goes. machine.step_on (machine.between ∷ stack_of goals.old.items) mark ≡ goes_to goes goals.new.items) }
{
    match mark {
        Mark::Space => push(goals, Goal::Between),
        Mark::Colon => Ok(true),
        _ => Ok(false),
    }
}

fn step_digits(goals: &mut Vec<Goal<'_>>, mark: Mark) -> Result<bool, OutOfMemory>
    ensures { IfOk result (λ goes. machine.step_on (machine.digits ∷ stack_of goals.old.items) mark ≡ goes_to goes goals.new.items) }
{
    match mark {
        Mark::Digit => push(goals, Goal::MoreDigits),
        _ => Ok(false),
    }
}

fn step_quoted(goals: &mut Vec<Goal<'_>>, mark: Mark) -> Result<bool, OutOfMemory>
    ensures { IfOk result (λ goes. machine.step_on (machine.quoted ∷ stack_of goals.old.items) mark ≡ goes_to goes goals.new.items) }
{
    match mark {
        Mark::Quote => Ok(true),
        Mark::Backslash => push(goals, Goal::Escaped),
        _ => push(goals, Goal::Quoted),
    }
}

fn step_escaped(goals: &mut Vec<Goal<'_>>, mark: Mark) -> Result<bool, OutOfMemory>
    ensures { IfOk result (λ goes. machine.step_on (machine.escaped ∷ stack_of goals.old.items) mark ≡ goes_to goes goals.new.items) }
{
    match mark {
        Mark::LetterX => {
            push(goals, Goal::Quoted)?;
            push(goals, Goal::Hexed)?;
            push(goals, Goal::Hexed)
        }
        _ => push(goals, Goal::Quoted),
    }
}

/// One byte at all goals that are left.
#[tactic(auto, using(crate::proofs::Stacks::stack_push))]
pub(crate) fn step(goals: &mut Vec<Goal<'_>>, mark: Mark) -> Result<bool, OutOfMemory>
    ensures { IfOk result (λ goes. machine.step_on (stack_of goals.old.items) mark ≡ goes_to goes goals.new.items) }
{
    match goals.pop() {
        None => Ok(matches!(mark, Mark::Space)),
        Some(Goal::Value(ty)) => step_value(goals, ty, mark),
        Some(Goal::First(ty)) => step_first(goals, ty, mark),
        Some(Goal::More(ty)) => step_more(goals, ty, mark),
        Some(Goal::FirstPair(key, ty)) => step_first_pair(goals, key, ty, mark),
        Some(Goal::MorePair(key, ty)) => step_more_pair(goals, key, ty, mark),
        Some(Goal::Between) => step_between(goals, mark),
        Some(Goal::Digits) => step_digits(goals, mark),
        Some(Goal::MoreDigits) => match mark {
            Mark::Digit => push(goals, Goal::MoreDigits),
            _ => step(goals, mark),
        },
        Some(Goal::Quoted) => step_quoted(goals, mark),
        Some(Goal::Escaped) => step_escaped(goals, mark),
        Some(Goal::Hexed) => Ok(matches!(mark, Mark::Digit | Mark::HexLetter)),
        Some(Goal::LetterU) => Ok(matches!(mark, Mark::LetterU)),
        Some(Goal::LetterL) => Ok(matches!(mark, Mark::LetterL)),
    }
}
