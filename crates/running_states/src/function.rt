//! The states of functions: one word in place, or behind a pointer.
ghost use Rattle.std.specs.Prelude.{◌≡◌, IfOk, OnOk, map, true};
ghost use Rattle.agg_terms.specs.Chains.{Of};
ghost use Rattle.agg_meaning.specs.Results.{blank};
ghost use Rattle.value_types.specs.Folds.{leaf_of, tree_of, ty_of};
ghost use Rattle.row_parts.specs.Rows.{arguments};
ghost use Rattle.running_states.specs.Served.{is_served};
ghost use Rattle.running_states.specs.Shapes.{IsState};
ghost use Rattle.running_states.specs.Trees.{tree_in};
ghost use Rattle.running_states.specs.Words.{Feeds, HasTree, JoinsAll};

use crate::running::Running;
use boxed_leaves::BoxedState;
use int_leaves::IntState;
use row_parts::has_null;
use std::alloc::Global;
use typed_columns::Item;
use value_types::{Leaf, OutOfMemory, Tree, Ty};

/// The state of no rows of a function.
#[tactic(auto, using(crate::proofs::Functions::fresh_laws))]
pub fn fresh_leaf(alloc: Global, leaf: &Leaf, types: &[Ty]) -> Result<Running, OutOfMemory>
    requires { is_served (leaf_of leaf.now) (map ty_of types.now) ≡ true }
    ensures shape { IfOk result (λ s. IsState (Of (leaf_of leaf.now)) (map ty_of types.now) s) }
    ensures fresh { IfOk result (λ s. tree_in s ≡ blank (Of (leaf_of leaf.now))) }
{
    if int_leaves::serves(leaf, types) {
        Ok(Running::Int(IntState::fresh(leaf, types)))
    } else {
        Ok(Running::Boxed(BoxedState::fresh(alloc, leaf, types)?))
    }
}

/// Adds a row to the state of a function, where no argument is NULL.
#[inline]
#[tactic(auto, using(crate::proofs::Functions::feed_laws))]
pub fn feed_leaf(
    leaf: &Leaf,
    alloc: Global,
    types: &[Ty],
    state: &mut Running,
    row: &[Item<'_>],
) -> Result<(), OutOfMemory>
    requires { IsState (Of (leaf_of leaf.now)) (map ty_of types.now) state.old }
    ensures shape { OnOk result (IsState (Of (leaf_of leaf.now)) (map ty_of types.now) state.new) }
    ensures row { OnOk result (Feeds (Of (leaf_of leaf.now)) (map ty_of types.now) (arguments row.now) state.old state.new) }
{
    if has_null(row) {
        return Ok(());
    }
    match state {
        Running::Int(of) => {
            of.feed_items(row);
            Ok(())
        }
        Running::Boxed(of) => of.feed_items(alloc, row),
        _ => unreachable!(),
    }
}

/// Joins the rows of a later state of a function behind.
#[tactic(auto, using(crate::proofs::Functions::merge_laws))]
pub fn merge_leaf(
    leaf: &Leaf,
    alloc: Global,
    types: &[Ty],
    state: &mut Running,
    later: &Running,
) -> Result<(), OutOfMemory>
    requires first { IsState (Of (leaf_of leaf.now)) (map ty_of types.now) state.old }
    requires later { IsState (Of (leaf_of leaf.now)) (map ty_of types.now) later.now }
    ensures shape { OnOk result (IsState (Of (leaf_of leaf.now)) (map ty_of types.now) state.new) }
    ensures rows { OnOk result (JoinsAll (Of (leaf_of leaf.now)) (map ty_of types.now) state.old later.now state.new) }
{
    match state {
        Running::Int(of) => match later {
            Running::Int(rows) => {
                of.merge(rows);
                Ok(())
            }
            _ => unreachable!(),
        },
        Running::Boxed(of) => match later {
            Running::Boxed(rows) => of.merge(alloc, rows),
            _ => unreachable!(),
        },
        _ => unreachable!(),
    }
}

/// An equal state of a function.
#[tactic(auto, using(crate::proofs::Functions::copy_laws))]
pub fn copy_leaf(
    leaf: &Leaf,
    alloc: Global,
    types: &[Ty],
    state: &Running,
) -> Result<Running, OutOfMemory>
    requires { IsState (Of (leaf_of leaf.now)) (map ty_of types.now) state.now }
    ensures shape { IfOk result (λ s. IsState (Of (leaf_of leaf.now)) (map ty_of types.now) s) }
    ensures tree { IfOk result (λ s. tree_in s ≡ tree_in state.now) }
{
    match state {
        Running::Int(of) => Ok(Running::Int(of.copy(alloc)?)),
        Running::Boxed(of) => Ok(Running::Boxed(of.copy(alloc)?)),
        _ => unreachable!(),
    }
}

/// A function's state with this tree.
#[tactic(auto, using(crate::proofs::Functions::tree_laws))]
pub fn leaf_from_tree(
    leaf: &Leaf,
    alloc: Global,
    types: &[Ty],
    tree: &Tree,
) -> Result<Running, OutOfMemory>
    requires { is_served (leaf_of leaf.now) (map ty_of types.now) ≡ true }
    ensures shape { IfOk result (λ s. IsState (Of (leaf_of leaf.now)) (map ty_of types.now) s) }
    ensures tree { IfOk result (λ s. HasTree (Of (leaf_of leaf.now)) (map ty_of types.now) (tree_of tree.now) s) }
{
    if int_leaves::serves(leaf, types) {
        Ok(Running::Int(IntState::from_tree(alloc, leaf, types, tree)?))
    } else {
        Ok(Running::Boxed(BoxedState::from_tree(alloc, leaf, types, tree)?))
    }
}
