//! The judge of type texts: token by token, with the goals that are still to be met.

ghost use Rattle.std.specs.Prelude.{◌≡◌, ◌∷◌, [], List, length, IfOk};
ghost use Rattle.line_tokens.specs.Tokens.{Token, tokens_of};
ghost use Rattle.type_names.specs.TypeTexts.{WrittenType, IsType};
ghost use Rattle.type_names.specs.Judging.{first_fault};
ghost use Rattle.type_names.specs.Syntax.{IsTypeFault};
ghost use Rattle.type_names.specs.declared.goal.Goal.TheVariants.{AnyType};

use crate::goal::{Goal, goals_for};
use line_tokens::next_token;
use std::alloc::Global;
use value_lists::OutOfMemory;

// The goals stand with the next one last.
fn first_fault(alloc: Global, text: &[u8]) -> Result<Option<u64>, OutOfMemory>
    ensures { IfOk result (λ fault. fault ≡ first_fault (length text.now) (AnyType ∷ []) (tokens_of text.now)) }
{
    let mut goals = Vec::new(alloc);
    goals.push(Goal::AnyType)?;
    let mut rest = text;
    while let Some(placed) = next_token(rest) {
        let at = (text.len() - placed.left) as u64;
        let Some(goal) = goals.pop() else {
            return Ok(Some(at));
        };
        let Some(more) = goals_for(goal, placed.token) else {
            return Ok(Some(at));
        };
        goals.extend_from_slice(more)?;
        rest = placed.rest;
    }
    if goals.is_empty() {
        Ok(None)
    } else {
        Ok(Some(text.len() as u64))
    }
}

/// Where a text is no text of a type: the first token that no type goes on with, or the text's length where it ends too
/// early. `None` where the text spells a type.
///
/// # Errors
/// `OutOfMemory` where there is no room for what is still to come.
pub fn type_fault(alloc: Global, text: &[u8]) -> Result<Option<u64>, OutOfMemory>
    ensures { IfOk result (IsTypeFault text.now) }
{
    first_fault(alloc, text)
}

/// A text spells one type at most.
pub fn law_one_type()
    ensures { (tokens : List Token) (one other : WrittenType) → IsType tokens one → IsType tokens other → one ≡ other }
{}
