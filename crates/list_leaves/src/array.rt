//! The state of groupArray: the values of its rows in order, as many as are asked for.
ghost use Rattle.std.specs.Prelude.{◌≡◌, [], IfOk, OnErr, OnOk, map, true};
ghost use Rattle.agg_terms.specs.Chains as terms;
ghost use Rattle.agg_terms.specs.Chains.{Of};
ghost use Rattle.agg_terms.specs.Trees.{IsTree};
ghost use Rattle.agg_terms.specs.Values.{values_of as tree_values};
ghost use Rattle.agg_meaning.specs.Results.{leaf_result};
ghost use Rattle.agg_meaning.specs.States.{IsFedBy, Means, Stands, TakesRow, TakesState, made_for};
ghost use Rattle.value_types.specs.Folds.{leaf_of, tree_of, ty_of, value_of};
ghost use Rattle.list_leaves.specs.Arrays.{held};
ghost use Rattle.list_leaves.specs.Rows.{argument};
ghost use Rattle.list_leaves.specs.Served.{is_array_served};

use crate::kept::Kept;
use crate::limit::{Limit, limit_in};
use crate::row::first_item;
use std::alloc::Global;
use typed_columns::{Args, Item};
use value_types::{Leaf, OutOfMemory, Tree, Ty, Value};

/// The running state of groupArray: the values of its rows, the first ones where there is a limit. Values beyond it
/// are neither copied nor kept.
///
/// A state keeps no type, and does the same whatever the type of its result is: its clauses hold at each type `t`.
/// ClickHouse manual: "Aggregate functions reference", groupArray.
#[derive(Drop)]
pub struct ArrayState {
    limit: Limit,
    values: Kept,
}

impl ArrayState {
    /// The state of no rows. Takes no memory.
    pub fn fresh(alloc: Global, leaf: &Leaf, args: &[Ty]) -> ArrayState
        requires { is_array_served (leaf_of leaf.now) (map ty_of args.now) ≡ true }
        ensures { Stands (leaf_of leaf.now) (map ty_of args.now) [] (held (leaf_result (leaf_of leaf.now) (map ty_of args.now)) result) }
    {
        ArrayState {
            limit: limit_in(leaf),
            values: Kept::new(alloc),
        }
    }

    /// Adds one live row: a row without NULL among its arguments, which have the types of the state.
    ///
    /// # Errors
    ///
    /// [`OutOfMemory`] where there is no room for its value; the state is as before.
    #[inline]
    pub fn feed(&mut self, alloc: Global, row: &Args<'_>) -> Result<(), OutOfMemory>
        ensures row { OnOk result ((t : terms.Ty) → TakesRow (held t self.old) (map value_of row.now) (held t self.new)) }
        ensures made { (t : terms.Ty) → (held t self.new).made ≡ (held t self.old).made }
        ensures err { OnErr result (self.new ≡ self.old) }
    {
        self.feed_items(alloc, row.as_slice())
    }

    /// Adds one live row, given as its items: [`feed`](ArrayState::feed) over a slice.
    ///
    /// # Errors
    ///
    /// [`OutOfMemory`] where there is no room for its value; the state is as before.
    #[inline]
    pub fn feed_items(&mut self, alloc: Global, row: &[Item<'_>]) -> Result<(), OutOfMemory>
        ensures row { OnOk result ((t : terms.Ty) → TakesRow (held t self.old) (map argument row.now) (held t self.new)) }
        ensures made { (t : terms.Ty) → (held t self.new).made ≡ (held t self.old).made }
        ensures err { OnErr result (self.new ≡ self.old) }
    {
        if self.limit.is_full(self.values.len()) {
            return Ok(());
        }
        self.values.push(alloc, &first_item(row))
    }

    /// Joins the rows of a later state behind.
    ///
    /// # Errors
    ///
    /// [`OutOfMemory`] where there is no room for its values; the state is as before.
    pub fn merge(&mut self, alloc: Global, later: &ArrayState) -> Result<(), OutOfMemory>
        ensures rows { OnOk result ((t : terms.Ty) → TakesState (held t self.old) (held t later.now) (held t self.new)) }
        ensures made { (t : terms.Ty) → (held t self.new).made ≡ (held t self.old).made }
        ensures err { OnErr result (self.new ≡ self.old) }
    {
        let room = self.limit.room(self.values.len(), later.values.len());
        self.values.extend(alloc, &later.values, room)
    }

    /// The array of the values.
    ///
    /// # Errors
    ///
    /// [`OutOfMemory`] where there is no room for it.
    pub fn finish(&self, alloc: Global) -> Result<Value, OutOfMemory>
        ensures { IfOk result (λ v. (t : terms.Ty) → Means (held t self.now) (value_of v)) }
    {
        Ok(Value::List(self.values.to_values(alloc)?))
    }

    /// Whether a row reached the function.
    pub fn is_fed(&self) -> bool
        ensures { (t : terms.Ty) → IsFedBy (held t self.now) result }
    {
        self.values.len() > 0
    }

    /// The state's tree.
    ///
    /// # Errors
    ///
    /// [`OutOfMemory`] where there is no room for it.
    pub fn tree(&self, alloc: Global) -> Result<Tree, OutOfMemory>
        ensures { IfOk result (λ tree. (t : terms.Ty) → tree_of tree ≡ (held t self.now).tree) }
    {
        Ok(Tree::Values(self.values.to_values(alloc)?))
    }

    /// An equal state.
    ///
    /// # Errors
    ///
    /// [`OutOfMemory`] where there is no room for it.
    pub fn copy(&self, alloc: Global) -> Result<ArrayState, OutOfMemory>
        ensures { IfOk result (λ copied. copied ≡ self.now) }
    {
        Ok(ArrayState {
            limit: self.limit,
            values: self.values.copy(alloc)?,
        })
    }

    /// The state with this tree, where it is a tree of the function over these types.
    ///
    /// # Errors
    ///
    /// [`OutOfMemory`] where there is no room for it.
    pub fn from_tree(
        alloc: Global,
        leaf: &Leaf,
        args: &[Ty],
        tree: &Tree,
    ) -> Result<ArrayState, OutOfMemory>
        requires { is_array_served (leaf_of leaf.now) (map ty_of args.now) ≡ true }
        ensures made { IfOk result (λ state. (held (leaf_result (leaf_of leaf.now) (map ty_of args.now)) state).made ≡ made_for (leaf_of leaf.now) (map ty_of args.now)) }
        ensures tree { IfOk result (λ state. (t : terms.Ty) → IsTree (Of (leaf_of leaf.now)) (map ty_of args.now) (tree_of tree.now) → (held t state).tree ≡ tree_of tree.now) }
    {
        Ok(ArrayState {
            limit: limit_in(leaf),
            values: Kept::from_values(alloc, values_in(tree))?,
        })
    }
}

/// The values of a tree.
#[tactic(auto, using(value_types::proofs::FoldLaws::tree_laws))]
pub fn values_in(tree: &Tree) -> &[Value]
    ensures { map value_of result.now ≡ tree_values (tree_of tree.now) }
{
    match tree {
        Tree::Values(values) => values.as_slice(),
        _ => &[],
    }
}
