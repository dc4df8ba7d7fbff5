//! Later states joined behind those of all calls.
ghost use Rattle.std.specs.Prelude.{◌≡◌, ◌<◌, ◌≤◌, ◌∷◌, [], All, length, map, OnOk};
ghost use Rattle.agg_terms.specs.Trees.{IsTree};
ghost use Rattle.chain_states.specs.Calls.{chain_in, types_in};
ghost use Rattle.state_columns.specs.Trees.{IsColumnOf, trees_in};
ghost use Rattle.value_types.specs.Folds.{tree_of};
ghost use Rattle.group_tables.specs.Calls.{calls_of};
ghost use Rattle.group_tables.specs.Merging.{AreTreesOf};
ghost use Rattle.group_tables.specs.Tables.{AreColumns};
ghost use Rattle.group_tables.specs.proving.Joined.{AreJoined, IsJoined};

use crate::grouping::GroupCall;
use state_columns::StateColumn;
use std::alloc::Global;
use value_types::{OutOfMemory, Tree};

/// Makes room for the states of so many groups, and joins each later state behind the one at its place.
fn join_column(
    alloc: Global,
    call: &GroupCall,
    states: &mut StateColumn,
    count: usize,
    later: &StateColumn,
    places: &[u32],
) -> Result<(), OutOfMemory>
    requires shape { IsColumnOf call.now.ready states.old }
    requires later { IsColumnOf call.now.ready later.now }
    requires room { length (trees_in states.old) ≤ count }
    requires places { All (λ p. p < count) places.now }
    requires many { length places.now ≡ length (trees_in later.now) }
    ensures shape { OnOk result (IsColumnOf call.now.ready states.new) }
    ensures rows { OnOk result (IsJoined call.now count places.now (trees_in later.now) (trees_in states.old) (trees_in states.new)) }
{
    let more = count - states.len();
    states.widen(alloc, &call.ready, more)?;
    states.merge(alloc, &call.ready, later, places)
}

/// Joins the later states of each call behind those at their places.
pub(crate) fn join_columns(
    alloc: Global,
    calls: &[GroupCall],
    states: &mut Vec<StateColumn>,
    count: usize,
    later: &[StateColumn],
    places: &[u32],
) -> Result<(), OutOfMemory>
    requires shape { AreColumns calls.now states.old.items }
    requires later { AreColumns calls.now later.now }
    requires room { All (λ s. length (trees_in s) ≤ count) states.old.items }
    requires places { All (λ p. p < count) places.now }
    requires many { All (λ s. length places.now ≡ length (trees_in s)) later.now }
    ensures shape { OnOk result (AreColumns calls.now states.new.items) }
    ensures rows { OnOk result (AreJoined calls.now count places.now (map trees_in later.now) (map trees_in states.old.items) (map trees_in states.new.items)) }
{
    for i in 0..calls.len() {
        let column = &mut states[i];
        join_column(alloc, &calls[i], column, count, &later[i], places)?;
    }
    Ok(())
}

/// Makes room for the states of so many groups, and joins the state with this tree behind the one at a place.
fn join_tree(
    alloc: Global,
    call: &GroupCall,
    states: &mut StateColumn,
    count: usize,
    place: u32,
    tree: &Tree,
) -> Result<(), OutOfMemory>
    requires shape { IsColumnOf call.now.ready states.old }
    requires room { length (trees_in states.old) ≤ count }
    requires place { place < count }
    requires tree { IsTree (chain_in call.now.ready) (types_in call.now.ready) (tree_of tree.now) }
    ensures shape { OnOk result (IsColumnOf call.now.ready states.new) }
    ensures rows { OnOk result (IsJoined call.now count (place ∷ []) (tree_of tree.now ∷ []) (trees_in states.old) (trees_in states.new)) }
{
    let more = count - states.len();
    states.widen(alloc, &call.ready, more)?;
    states.add_tree(alloc, &call.ready, place, tree)
}

/// Joins for each call the state with its tree behind the one at a place.
pub(crate) fn join_trees(
    alloc: Global,
    calls: &[GroupCall],
    states: &mut Vec<StateColumn>,
    count: usize,
    place: u32,
    trees: &[Tree],
) -> Result<(), OutOfMemory>
    requires shape { AreColumns calls.now states.old.items }
    requires room { All (λ s. length (trees_in s) ≤ count) states.old.items }
    requires place { place < count }
    requires trees { AreTreesOf (calls_of calls.now) (map tree_of trees.now) }
    ensures shape { OnOk result (AreColumns calls.now states.new.items) }
    ensures rows { OnOk result (AreJoined calls.now count (place ∷ []) (map (λ t. tree_of t ∷ []) trees.now) (map trees_in states.old.items) (map trees_in states.new.items)) }
{
    for i in 0..calls.len() {
        let column = &mut states[i];
        join_tree(alloc, &calls[i], column, count, place, &trees[i])?;
    }
    Ok(())
}
