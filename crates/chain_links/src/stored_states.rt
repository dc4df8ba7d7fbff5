//! -Merge: the last argument is a state of the chain inside, which is joined behind. ClickHouse manual: "Aggregate function
//! combinators", -Merge.
ghost use Rattle.std.specs.Prelude.{◌≡◌, map, true, OnOk};
ghost use Rattle.agg_terms.specs.Chains.{Merge};
ghost use Rattle.agg_meaning.specs.Lawful.{IsSound};
ghost use Rattle.agg_typing.specs.Legal.{function_of};
ghost use Rattle.value_types.specs.Folds.{chain_of, tree_of, ty_of};
ghost use Rattle.row_parts.specs.Rows.{arguments};
ghost use Rattle.running_states.specs.Served.{is_served};
ghost use Rattle.running_states.specs.Shapes.{IsState};
ghost use Rattle.running_states.specs.Words.{Feeds};
ghost use Rattle.chain_links.specs.proving.Words.{FeedsTree};

use crate::merging::merge;
use crate::storing::from_tree;
use row_parts::last_state;
use running_states::Running;
use std::alloc::Global;
use typed_columns::Item;
use value_types::{Chain, OutOfMemory, Tree, Ty};

/// Joins the state of a row behind.
#[tactic(auto, using(value_types::proofs::FoldLaws::tree_laws, crate::proofs::FedRows::merge_laws))]
pub fn feed_stored(
    of: &Chain,
    alloc: Global,
    types: &[Ty],
    state: &mut Running,
    row: &[Item<'_>],
) -> Result<(), OutOfMemory>
    requires sound { IsSound (chain_of of.now) }
    requires served { is_served (function_of (chain_of of.now)) (map ty_of types.now) ≡ true }
    requires shape { IsState (chain_of of.now) (map ty_of types.now) state.old }
    ensures shape { OnOk result (IsState (chain_of of.now) (map ty_of types.now) state.new) }
    ensures row { OnOk result (Feeds (Merge (chain_of of.now)) (map ty_of types.now) (arguments row.now) state.old state.new) }
{
    match last_state(row) {
        Some(tree) => feed_tree(of, alloc, types, state, tree),
        None => feed_tree(of, alloc, types, state, &Tree::Empty),
    }
}

/// Joins the state of a tree behind.
fn feed_tree(
    of: &Chain,
    alloc: Global,
    types: &[Ty],
    state: &mut Running,
    tree: &Tree,
) -> Result<(), OutOfMemory>
    requires sound { IsSound (chain_of of.now) }
    requires served { is_served (function_of (chain_of of.now)) (map ty_of types.now) ≡ true }
    requires shape { IsState (chain_of of.now) (map ty_of types.now) state.old }
    ensures shape { OnOk result (IsState (chain_of of.now) (map ty_of types.now) state.new) }
    ensures tree { OnOk result (FeedsTree (chain_of of.now) (map ty_of types.now) (tree_of tree.now) state.old state.new) }
{
    let later = from_tree(of, alloc, types, tree)?;
    merge(of, alloc, types, state, &later)
}
