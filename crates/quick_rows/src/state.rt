//! A state at the front of a text, in hexadecimal: a whole field of a type of states.
ghost use Rattle.std.specs.Prelude.{◌≡◌, ◌∷◌, ◌++◌, [], IfOk, IfSome, Ok, OnErr, OnOk};
ghost use Rattle.scalar_texts.specs.Answer.{Agrees, state_answer};
ghost use Rattle.typed_columns.specs.Growth.{Fits};
ghost use Rattle.value_types.specs.Folds.{ty_of};
ghost use Rattle.value_types.specs.declared.value.Value.TheVariants as value;
ghost use Rattle.quick_rows.specs.Keeping.{IsState};
ghost use Rattle.quick_rows.specs.Taking.{TakesFirst};
ghost use Rattle.quick_rows.specs.proving.Walking.{IsStateAt, TakesBy, WalksBy, states_seen};

use crate::field::Front;
use crate::hexadecimal::{FEW, front_hex};
use crate::quoted::first_plain;
use scalar_texts::{FieldFault, StateReadFault, StateReader, read_state};
use std::alloc::Global;
use value_types::{OutOfMemory, Tree, Ty, Value};

/// The state that a field writes. `None` says nothing of the field.
fn state_of<R: StateReader>(
    alloc: Global,
    reader: &R,
    ty: &Ty,
    field: &[u8],
) -> Result<Option<Tree>, OutOfMemory>
    requires { R.takes reader.now (ty_of ty.now) }
    ensures said { IfOk result (λ found. IfSome found (λ tree. Agrees (state_answer (R.reads reader.now) (ty_of ty.now) field.now) (Ok (value.Cell tree)))) }
    ensures fits { IfOk result (λ found. IfSome found (λ tree. Fits ty.now (value.Cell tree))) }
{
    match read_state(alloc, reader, ty, field) {
        Ok(Value::Cell(tree)) => Ok(Some(tree)),
        Err(FieldFault::OutOfMemory) => Err(OutOfMemory),
        _ => Ok(None),
    }
}

/// The state at the front of a text, however long. `None` says nothing of the text.
#[inline(never)]
fn front_long<'a, R: StateReader>(
    alloc: Global,
    reader: &R,
    ty: &Ty,
    text: &'a [u8],
) -> Result<Option<(Tree, &'a [u8])>, OutOfMemory>
    requires state { IsState ty.now }
    requires readable { R.takes reader.now (ty_of ty.now) }
    ensures { IfOk result (λ found. IfSome found (λ front. IsStateAt (R.reads reader.now) ty.now text.now front.0 front.1.now)) }
{
    let (field, left) = first_plain(text);
    match state_of(alloc, reader, ty, field) {
        Ok(Some(tree)) => Ok(Some((tree, left))),
        Ok(None) => Ok(None),
        Err(error) => Err(error),
    }
}

/// The state at the front of a text, and what stands behind it; one of few bytes takes no memory for them.
#[inline(always)]
fn front_state<'a, R: StateReader>(
    alloc: Global,
    reader: &R,
    ty: &Ty,
    text: &'a [u8],
) -> Result<Option<(Tree, &'a [u8])>, OutOfMemory>
    requires state { IsState ty.now }
    requires readable { R.takes reader.now (ty_of ty.now) }
    ensures { IfOk result (λ found. IfSome found (λ front. IsStateAt (R.reads reader.now) ty.now text.now front.0 front.1.now)) }
{
    let mut bytes = [0u8; FEW];
    let (count, left) = front_hex(text, &mut bytes);
    if count == FEW {
        return front_long(alloc, reader, ty, text);
    }
    match reader.read(alloc, ty, &bytes[..count]) {
        Ok(tree) => Ok(Some((tree, left))),
        Err(StateReadFault::Bad(_)) => Ok(None),
        Err(StateReadFault::OutOfMemory) => Err(OutOfMemory),
    }
}

fn push_state(trees: &mut Vec<Tree>, tree: Tree) -> Result<(), OutOfMemory>
    ensures ok { OnOk result (trees.new.items ≡ trees.old.items ++ tree ∷ []) }
    ensures err { OnErr result (trees.new.items ≡ trees.old.items) }
{
    trees.push(tree)?;
    Ok(())
}

/// Takes the state at the front of a text behind others of its type, or leaves them as they are.
#[inline(never)]
pub(crate) fn take_state<'a, R: StateReader>(
    trees: &mut Vec<Tree>,
    alloc: Global,
    reader: &R,
    ty: &Ty,
    text: &'a [u8],
) -> Result<Front<'a>, OutOfMemory>
    requires state { IsState ty.now }
    requires readable { R.takes reader.now (ty_of ty.now) }
    ensures { TakesFirst (TakesBy (R.reads reader.now)) (states_seen ty.now trees.old.items) text.now (states_seen ty.now trees.new.items) result }
{
    match front_state(alloc, reader, ty, text) {
        Ok(Some((tree, left))) => match push_state(trees, tree) {
            Ok(()) => Ok(Front::Taken(left)),
            Err(error) => Err(error),
        },
        Ok(None) => Ok(Front::Irregular),
        Err(error) => Err(error),
    }
}

/// Judges the state at the front of a text, and tells what stands behind it.
#[inline(never)]
pub(crate) fn walk_state<'a, R: StateReader>(
    alloc: Global,
    reader: &R,
    ty: &Ty,
    text: &'a [u8],
) -> Result<Front<'a>, OutOfMemory>
    requires state { IsState ty.now }
    requires readable { R.takes reader.now (ty_of ty.now) }
    ensures { WalksBy (R.reads reader.now) ty.now text.now result }
{
    match front_state(alloc, reader, ty, text) {
        Ok(Some((_, left))) => Ok(Front::Taken(left)),
        Ok(None) => Ok(Front::Irregular),
        Err(error) => Err(error),
    }
}
