//! The judge of a field's text: byte by byte, with the goals that are still to be met. It alone tells where a fault is.
ghost use Rattle.std.specs.Prelude.{◌≡◌, ℕ, List, IfOk, if◌then◌else◌, Some, None};
ghost use Rattle.first_fault.specs.FirstFault.{IsReading};
ghost use Rattle.value_types.specs.Folds.{ty_of};
ghost use Rattle.field_texts.specs.Syntax.{FieldForm, IsField, form_of};
ghost use Rattle.field_texts.specs.proving.Goals.{stack_of};
ghost use Rattle.field_texts.specs.Faults.{IsFieldFault};
ghost use Rattle.field_texts.specs.Machine as machine;

use crate::goal::Goal;
use crate::mark::mark_of;
use crate::step::step;
use std::alloc::Global;
use value_lists::OutOfMemory;
use value_types::Ty;

/// Whether the text may end here: nothing is left but digits that needn't come.
#[tactic(auto, using(crate::proofs::Stacks::stack_push))]
fn may_end(goals: &mut Vec<Goal<'_>>) -> bool
    ensures { machine.done (stack_of goals.old.items) ≡ (if result then Some tt else None) }
{
    match goals.pop() {
        None => true,
        Some(Goal::MoreDigits) => may_end(goals),
        Some(_) => false,
    }
}

/// Where the text isn't one of the type: the length in bytes of its longest front that begins one. `None` where it is one.
/// Numbers may be of any size here, and the text of a state any text in quotes.
///
/// # Errors
///
/// [`OutOfMemory`] where there is no room for what is still to come.
pub fn syntax_fault(alloc: Global, ty: &Ty, field: &[u8]) -> Result<Option<u64>, OutOfMemory>
    ensures { IfOk result (IsFieldFault (form_of (ty_of ty.now)) field.now) }
{
    let mut goals = Vec::new(alloc);
    goals.push(Goal::Value(ty))?;
    let mut at = 0u64;
    for byte in field {
        match step(&mut goals, mark_of(*byte)) {
            Ok(true) => {}
            Ok(false) => return Ok(Some(at)),
            Err(fault) => return Err(fault),
        }
        at += 1;
    }
    if may_end(&mut goals) {
        Ok(None)
    } else {
        Ok(Some(at))
    }
}

/// The judge of shapes accepts exactly the texts of a shape, and gives the length of the longest front that begins one.
pub fn law_fields()
    ensures { (shape : FieldForm) (text : List ℕ) → IsReading (IsField shape) text (machine.judge shape text) }
{}
