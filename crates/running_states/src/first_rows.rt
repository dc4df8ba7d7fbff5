//! -Distinct: the first row of each kind alone; a row in which an argument is NULL is none. A state of the chain inside is
//! fed only when the value is asked for. ClickHouse manual: "Aggregate function combinators", -Distinct.
ghost use Rattle.std.specs.Prelude.{◌≡◌, [], IfOk, OnOk, map};
ghost use Rattle.agg_terms.specs.Chains.{Distinct};
ghost use Rattle.agg_terms.specs.Values.{rows_of, rows_tree};
ghost use Rattle.agg_terms.specs.Order.{compare_rows, firsts};
ghost use Rattle.value_types.specs.Folds.{chain_of, tree_of, ty_of, value_of};
ghost use Rattle.row_parts.specs.Rows.{arguments};
ghost use Rattle.running_states.specs.Shapes.{AreRows, IsState};
ghost use Rattle.running_states.specs.Trees.{tree_in};
ghost use Rattle.running_states.specs.Words.{Feeds, JoinsAll};
ghost use Rattle.running_states.specs.declared.running.Running.TheViews.{out-Running};

use crate::running::Running;
use distinct_rows::DistinctRows;
use row_parts::has_null;
use std::alloc::Global;
use typed_columns::Item;
use value_types::{Chain, OutOfMemory, Seq, Tree, Ty, Value};

/// No rows.
#[tactic(auto, using(crate::proofs::Layers::row_laws))]
pub fn fresh_first(alloc: Global) -> Result<Running, OutOfMemory>
    ensures shape { IfOk result (λ s. AreRows (out-Running s)) }
    ensures fresh { IfOk result (λ s. tree_in s ≡ rows_tree []) }
{
    Ok(Running::Rows(Box::new(alloc, DistinctRows::new(alloc))?))
}

/// Adds a row, if it isn't there.
#[tactic(auto, using(crate::proofs::Layers::row_laws))]
pub fn feed_first(
    of: &Chain,
    alloc: Global,
    types: &[Ty],
    state: &mut Running,
    row: &[Item<'_>],
) -> Result<(), OutOfMemory>
    requires { IsState (Distinct (chain_of of.now)) (map ty_of types.now) state.old }
    ensures shape { OnOk result (IsState (Distinct (chain_of of.now)) (map ty_of types.now) state.new) }
    ensures row { OnOk result (Feeds (Distinct (chain_of of.now)) (map ty_of types.now) (arguments row.now) state.old state.new) }
{
    if has_null(row) {
        return Ok(());
    }
    match state {
        Running::Rows(rows) => rows.insert_items(alloc, row),
        _ => unreachable!(),
    }
}

/// Adds the later rows that aren't there.
#[tactic(auto, using(crate::proofs::Layers::row_laws))]
pub fn merge_first(
    of: &Chain,
    alloc: Global,
    types: &[Ty],
    state: &mut Running,
    later: &Running,
) -> Result<(), OutOfMemory>
    requires first { IsState (Distinct (chain_of of.now)) (map ty_of types.now) state.old }
    requires later { IsState (Distinct (chain_of of.now)) (map ty_of types.now) later.now }
    ensures shape { OnOk result (IsState (Distinct (chain_of of.now)) (map ty_of types.now) state.new) }
    ensures rows { OnOk result (JoinsAll (Distinct (chain_of of.now)) (map ty_of types.now) state.old later.now state.new) }
{
    match state {
        Running::Rows(rows) => match later {
            Running::Rows(more) => rows.merge(alloc, more),
            _ => unreachable!(),
        },
        _ => unreachable!(),
    }
}

/// The rows again.
#[tactic(auto, using(crate::proofs::Layers::row_laws))]
pub fn copy_first(alloc: Global, state: &Running) -> Result<Running, OutOfMemory>
    requires { AreRows (out-Running state.now) }
    ensures shape { IfOk result (λ s. AreRows (out-Running s)) }
    ensures tree { IfOk result (λ s. tree_in s ≡ tree_in state.now) }
{
    match state {
        Running::Rows(rows) => Ok(Running::Rows(Box::new(alloc, rows.copy(alloc)?)?)),
        _ => unreachable!(),
    }
}

/// The rows of a tree.
#[tactic(auto, using(value_types::proofs::FoldLaws::tree_laws, agg_terms::proofs::Lists::table_back))]
fn rows_in_tree(tree: &Tree) -> &[Seq<Value>]
    ensures { map (map value_of) result.now ≡ rows_of (tree_of tree.now) }
{
    match tree {
        Tree::Rows(rows) => rows.as_slice(),
        _ => &[],
    }
}

/// The first rows of a tree.
#[tactic(auto, using(crate::proofs::Layers::row_laws))]
pub fn first_from_tree(alloc: Global, tree: &Tree) -> Result<Running, OutOfMemory>
    ensures shape { IfOk result (λ s. AreRows (out-Running s)) }
    ensures tree { IfOk result (λ s. tree_in s ≡ rows_tree (firsts compare_rows (rows_of (tree_of tree.now)))) }
{
    let mut rows = DistinctRows::new(alloc);
    rows.insert_all(alloc, rows_in_tree(tree))?;
    Ok(Running::Rows(Box::new(alloc, rows)?))
}
