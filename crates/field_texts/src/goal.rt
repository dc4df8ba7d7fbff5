//! What is still to come in a field, and what a byte does with it. The goals stand with the next one last.
ghost use Rattle.std.specs.Prelude.{◌≡◌, IfOk, OnOk, true, ◌∷◌};
ghost use Rattle.agg_terms.specs.Types.{bare};
ghost use Rattle.value_types.specs.Folds.{ty_of};
ghost use Rattle.field_texts.specs.Syntax.{form_of, number};
ghost use Rattle.field_texts.specs.proving.Goals.{goal_seen, is_letter_n, look_shape, stack_of, goes_to};
ghost use Rattle.field_texts.specs.Machine as machine;

use crate::mark::Mark;
use value_lists::OutOfMemory;
use value_types::{Ty, is_nullable};

/// What is still to come.
#[derive(Clone, Copy)]
pub(crate) enum Goal<'t> {
    Value(&'t Ty),
    /// The first element of an array, or its end.
    First(&'t Ty),
    /// A comma and an element, or the end of the array.
    More(&'t Ty),
    /// The same of the entries of a map: the types of its keys and of its values.
    FirstPair(&'t Ty, &'t Ty),
    MorePair(&'t Ty, &'t Ty),
    /// The colon behind a key.
    Between,
    /// A digit, and more of them.
    Digits,
    /// More digits, or none.
    MoreDigits,
    /// The rest of a text in quotes.
    Quoted,
    /// The same, behind a backslash.
    Escaped,
    /// A hexadecimal digit.
    Hexed,
    LetterU,
    LetterL,
}

/// A type without Nullable, as far as its texts go.
#[derive(Clone, Copy)]
pub(crate) enum Look<'t> {
    Number,
    Text,
    Array(&'t Ty),
    Map(&'t Ty, &'t Ty),
}

#[tactic(auto, using(value_types::proofs::FoldLaws::ty_laws))]
fn look_of(ty: &Ty) -> Look<'_>
    ensures { look_shape result ≡ form_of (bare (ty_of ty.now)) }
{
    match ty {
        Ty::U8 | Ty::U16 | Ty::U32 | Ty::U64 => Look::Number,
        Ty::I8 | Ty::I16 | Ty::I32 | Ty::I64 => Look::Number,
        Ty::Str | Ty::State(_, _) => Look::Text,
        Ty::Arr(item) => Look::Array(item.get()),
        Ty::Map(key, item) => Look::Map(key.get(), item.get()),
        Ty::Nullable(of) => look_of(of.get()),
    }
}

/// Adds a goal.
#[tactic(auto, using(crate::proofs::Stacks::stack_push))]
pub(crate) fn push<'t>(goals: &mut Vec<Goal<'t>>, goal: Goal<'t>) -> Result<bool, OutOfMemory>
    ensures goes { IfOk result (λ goes. goes ≡ true) }
    ensures pushed { OnOk result (stack_of goals.new.items ≡ goal_seen goal.entry ∷ stack_of goals.old.items) }
{
    goals.push(goal)?;
    Ok(true)
}

/// The first byte of a number.
fn open_number(goals: &mut Vec<Goal<'_>>, mark: Mark) -> Result<bool, OutOfMemory>
    ensures { IfOk result (λ goes. machine.before (stack_of goals.old.items) (machine.opened number mark) ≡ goes_to goes goals.new.items) }
{
    match mark {
        Mark::Plus | Mark::Minus => push(goals, Goal::Digits),
        Mark::Digit => push(goals, Goal::MoreDigits),
        _ => Ok(false),
    }
}

/// The first byte of a value that isn't NULL.
fn open_look<'t>(goals: &mut Vec<Goal<'t>>, look: Look<'t>, mark: Mark) -> Result<bool, OutOfMemory>
    ensures { IfOk result (λ goes. machine.before (stack_of goals.old.items) (machine.opened (look_shape look.entry) mark) ≡ goes_to goes goals.new.items) }
{
    match (look, mark) {
        (Look::Number, _) => open_number(goals, mark),
        (Look::Text, Mark::Quote) => push(goals, Goal::Quoted),
        (Look::Array(item), Mark::OpenBracket) => push(goals, Goal::First(item)),
        (Look::Map(key, item), Mark::OpenBrace) => push(goals, Goal::FirstPair(key, item)),
        _ => Ok(false),
    }
}

fn is_letter_n(mark: Mark) -> bool
    ensures { result ≡ is_letter_n mark }
{
    matches!(mark, Mark::LetterN)
}

/// The rest of `NULL`.
fn push_null(goals: &mut Vec<Goal<'_>>) -> Result<bool, OutOfMemory>
    ensures goes { IfOk result (λ goes. goes ≡ true) }
    ensures pushed { OnOk result (stack_of goals.new.items ≡ machine.letter_u ∷ machine.letter_l ∷ machine.letter_l ∷ stack_of goals.old.items) }
{
    push(goals, Goal::LetterL)?;
    push(goals, Goal::LetterL)?;
    push(goals, Goal::LetterU)
}

/// The first byte of a value. Answers whether it may stand there.
#[tactic(auto, using(crate::proofs::Stacks::opened_laws))]
pub(crate) fn open<'t>(
    goals: &mut Vec<Goal<'t>>,
    ty: &'t Ty,
    mark: Mark,
) -> Result<bool, OutOfMemory>
    ensures { IfOk result (λ goes. machine.before (stack_of goals.old.items) (machine.opened (form_of (ty_of ty.now)) mark) ≡ goes_to goes goals.new.items) }
{
    if is_letter_n(mark) && is_nullable(ty) {
        push_null(goals)
    } else {
        open_look(goals, look_of(ty), mark)
    }
}
