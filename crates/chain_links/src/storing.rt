//! A state from the tree that was stored.
ghost use Rattle.std.specs.Prelude.{◌≡◌, map, true, IfOk};
ghost use Rattle.agg_terms.specs.Chains.{ForEach, MapOf, Resample};
ghost use Rattle.agg_terms.specs.Values.{keyed_of, slots_of};
ghost use Rattle.agg_meaning.specs.Lawful.{IsSound};
ghost use Rattle.agg_typing.specs.Legal.{function_of};
ghost use Rattle.value_types.specs.Folds.{chain_of, entry_of, tree_of, ty_of};
ghost use Rattle.running_states.specs.Served.{is_served};
ghost use Rattle.running_states.specs.Shapes.{IsState};
ghost use Rattle.running_states.specs.Words.{HasTree};

use crate::starting::fresh;
use row_parts::count_intervals;
use running_states::{Running, first_from_tree, leaf_from_tree, place_of_value};
use std::alloc::Global;
use value_types::{Chain, KeyedTree, OutOfMemory, Tree, Ty, Value};

/// The state with this tree, where it is a tree of the chain.
///
/// # Errors
///
/// [`OutOfMemory`] where there is no room for it.
#[cycle(from_tree)]
#[tactic(auto, using(value_types::proofs::FoldLaws::chain_laws, crate::proofs::Plain::tree_laws))]
pub fn from_tree(
    chain: &Chain,
    alloc: Global,
    types: &[Ty],
    tree: &Tree,
) -> Result<Running, OutOfMemory>
    requires sound { IsSound (chain_of chain.now) }
    requires served { is_served (function_of (chain_of chain.now)) (map ty_of types.now) ≡ true }
    ensures shape { IfOk result (λ s. IsState (chain_of chain.now) (map ty_of types.now) s) }
    ensures tree { IfOk result (λ s. HasTree (chain_of chain.now) (map ty_of types.now) (tree_of tree.now) s) }
{
    match chain {
        Chain::Leaf(leaf) => leaf_from_tree(leaf, alloc, types, tree),
        Chain::If(of) => from_tree(of.get(), alloc, types, tree),
        Chain::Array(of) => from_tree(of.get(), alloc, types, tree),
        Chain::MapOf(of) => keys_from(of.get(), alloc, types, tree),
        Chain::ForEach(of) => slots_from(of.get(), alloc, types, tree),
        Chain::OrNull(of) => from_tree(of.get(), alloc, types, tree),
        Chain::OrDefault(of) => from_tree(of.get(), alloc, types, tree),
        Chain::Distinct(_) => first_from_tree(alloc, tree),
        Chain::Resample(start, end, step, of) => {
            parts_from(*start, *end, *step, of.get(), alloc, types, tree)
        }
        Chain::State(of) => from_tree(of.get(), alloc, types, tree),
        Chain::Merge(of) => from_tree(of.get(), alloc, types, tree),
    }
}

/// The slots of a tree.
#[tactic(auto, using(value_types::proofs::FoldLaws::tree_laws, agg_terms::proofs::Lists::trees_back))]
fn slots_in_tree(tree: &Tree) -> &[Tree]
    ensures { map tree_of result.now ≡ slots_of (tree_of tree.now) }
{
    match tree {
        Tree::Slots(trees) => trees.as_slice(),
        _ => &[],
    }
}

/// The state of -ForEach with the slots of a tree.
#[cycle(from_tree)]
#[tactic(auto, using(running_states::proofs::Layers::slot_laws, crate::proofs::FromTrees::slots_laws))]
fn slots_from(of: &Chain, alloc: Global, types: &[Ty], tree: &Tree) -> Result<Running, OutOfMemory>
    requires sound { IsSound (chain_of of.now) }
    requires served { is_served (function_of (chain_of of.now)) (map ty_of types.now) ≡ true }
    ensures shape { IfOk result (λ s. IsState (ForEach (chain_of of.now)) (map ty_of types.now) s) }
    ensures tree { IfOk result (λ s. HasTree (ForEach (chain_of of.now)) (map ty_of types.now) (tree_of tree.now) s) }
{
    let trees = slots_in_tree(tree);
    let mut all = Vec::new(alloc);
    for i in 0..trees.len() {
        all.push(from_tree(of, alloc, types, &trees[i])?)?;
    }
    Ok(Running::Slots(all))
}

/// The state of -Resample with the slots of a tree, one for each interval; past the last slot one of no rows.
#[cycle(from_tree)]
#[tactic(auto, using(running_states::proofs::Layers::slot_laws, crate::proofs::FromTrees::parts_laws))]
fn parts_from(
    start: i64,
    end: i64,
    step: u64,
    of: &Chain,
    alloc: Global,
    types: &[Ty],
    tree: &Tree,
) -> Result<Running, OutOfMemory>
    requires sound { IsSound (Resample start end step (chain_of of.now)) }
    requires served { is_served (function_of (chain_of of.now)) (map ty_of types.now) ≡ true }
    ensures shape { IfOk result (λ s. IsState (Resample start end step (chain_of of.now)) (map ty_of types.now) s) }
    ensures tree { IfOk result (λ s. HasTree (Resample start end step (chain_of of.now)) (map ty_of types.now) (tree_of tree.now) s) }
{
    let count = count_intervals(start, end, step);
    let trees = slots_in_tree(tree);
    let mut all = Vec::new(alloc);
    for i in 0..count {
        if i >= trees.len() {
            all.push(fresh(of, alloc, types)?)?;
            continue;
        }
        all.push(from_tree(of, alloc, types, &trees[i])?)?;
    }
    Ok(Running::Slots(all))
}

/// The entries of a tree.
#[tactic(auto, using(value_types::proofs::FoldLaws::tree_laws, agg_terms::proofs::Lists::keyed_back))]
fn entries_in_tree(tree: &Tree) -> &[KeyedTree]
    ensures { map entry_of result.now ≡ keyed_of (tree_of tree.now) }
{
    match tree {
        Tree::Keyed(entries) => entries.as_slice(),
        _ => &[],
    }
}

/// The state of -Map with the entries of a tree, each at its key; of two at one key the first.
#[cycle(from_tree)]
#[tactic(auto, using(running_states::proofs::Layers::key_laws, crate::proofs::FromTrees::keys_laws))]
fn keys_from(of: &Chain, alloc: Global, types: &[Ty], tree: &Tree) -> Result<Running, OutOfMemory>
    requires sound { IsSound (chain_of of.now) }
    requires served { is_served (function_of (chain_of of.now)) (map ty_of types.now) ≡ true }
    ensures shape { IfOk result (λ s. IsState (MapOf (chain_of of.now)) (map ty_of types.now) s) }
    ensures tree { IfOk result (λ s. HasTree (MapOf (chain_of of.now)) (map ty_of types.now) (tree_of tree.now) s) }
{
    let stored = entries_in_tree(tree);
    let mut all = Vec::new(alloc);
    for i in 0..stored.len() {
        let Err(place) = place_of_value(all.as_slice(), &stored[i].key) else {
            continue;
        };
        let key = stored[i].key.copy(alloc)?;
        all.insert(place, (key, from_tree(of, alloc, types, &stored[i].tree)?))?;
    }
    Ok(Running::Keyed(all))
}
