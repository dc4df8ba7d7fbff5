//! The tree of a state.
ghost use Rattle.std.specs.Prelude.{◌≡◌, map, IfOk};
ghost use Rattle.value_types.specs.Folds.{entry_of, tree_of};
ghost use Rattle.running_states.specs.Trees.{tree_in};
ghost use Rattle.running_states.specs.Entries.{entries_in};

use running_states::Running;
use std::alloc::Global;
use value_types::{KeyedTree, OutOfMemory, Seq, Tree, Value};

/// The state's tree.
///
/// # Errors
///
/// [`OutOfMemory`] where there is no room for it.
#[cycle(tree)]
#[tactic(auto, using(value_types::proofs::FoldLaws::tree_laws, running_states::proofs::Layers::tree_laws))]
pub fn tree(alloc: Global, state: &Running) -> Result<Tree, OutOfMemory>
    ensures { IfOk result (λ tree. tree_of tree ≡ tree_in state.now) }
{
    match state {
        Running::Int(of) => of.tree(alloc),
        Running::Boxed(of) => of.tree(alloc),
        Running::Slots(slots) => Ok(Tree::Slots(all_trees(alloc, slots.as_slice())?)),
        Running::Keyed(entries) => Ok(Tree::Keyed(keyed_trees(alloc, entries.as_slice())?)),
        Running::Rows(rows) => Ok(Tree::Rows(rows.rows(alloc)?)),
    }
}

#[cycle(tree)]
fn all_trees(alloc: Global, slots: &[Running]) -> Result<Seq<Tree>, OutOfMemory>
    ensures { IfOk result (λ all. map tree_of all ≡ map tree_in slots.now) }
{
    let mut all = Seq::new(alloc);
    all.reserve(slots.len())?;
    for slot in slots {
        all.push(tree(alloc, slot)?)?;
    }
    Ok(all)
}

#[cycle(tree)]
fn keyed_trees(alloc: Global, entries: &[(Value, Running)]) -> Result<Seq<KeyedTree>, OutOfMemory>
    ensures { IfOk result (λ all. map entry_of all ≡ entries_in entries.now) }
{
    let mut all = Seq::new(alloc);
    all.reserve(entries.len())?;
    for entry in entries {
        all.push(KeyedTree {
            key: entry.0.copy(alloc)?,
            tree: tree(alloc, &entry.1)?,
        })?;
    }
    Ok(all)
}
