//! The state of uniqExact: its different rows.
ghost use Rattle.std.specs.Prelude.{◌≡◌, [], IfOk, IsOk, OnErr, OnOk, map, pos, true};
ghost use Rattle.agg_terms.specs.Chains.{Of};
ghost use Rattle.agg_terms.specs.Trees.{IsTree};
ghost use Rattle.agg_terms.specs.Values.{Num, rows_of};
ghost use Rattle.agg_meaning.specs.States.{IsFedBy, Means, Stands, TakesRow, TakesState, made_for};
ghost use Rattle.value_types.specs.Folds.{leaf_of, tree_of, ty_of, value_of};
ghost use Rattle.set_leaves.specs.Rows.{rows_in};
ghost use Rattle.set_leaves.specs.Served.{is_served};
ghost use Rattle.set_leaves.specs.Sets.{held};
ghost use Rattle.set_leaves.specs.Tuples.{SameSet, argument};

use crate::rows::Rows;
use std::alloc::Global;
use typed_columns::{Args, Item};
use value_types::{Leaf, OutOfMemory, Seq, Tree, Ty, Value};

/// The running state of uniqExact, over 1 to 32 arguments of any types.
///
/// The count is exact. ClickHouse manual: "Aggregate functions reference", uniqExact.
#[derive(Drop)]
pub struct SetState {
    arguments: u32,
    rows: Rows,
}

/// The rows of a tree.
#[tactic(auto, using(value_types::proofs::FoldLaws::tree_laws, agg_terms::proofs::Lists::table_back))]
fn stored_rows(tree: &Tree) -> &[Seq<Value>]
    ensures { map (map value_of) result.now ≡ rows_of (tree_of tree.now) }
{
    match tree {
        Tree::Rows(rows) => rows.as_slice(),
        _ => &[],
    }
}

/// A count, as a value.
#[tactic(auto, using(value_types::proofs::FoldLaws::value_laws))]
fn counted(count: usize) -> Value
    ensures { value_of result ≡ Num (pos count) }
{
    Value::Num(i128::from(count as u64))
}

/// The different ones of some rows.
fn rows_from(alloc: Global, args: &[Ty], stored: &[Seq<Value>]) -> Result<Rows, OutOfMemory>
    ensures { IfOk result (λ rows. SameSet (rows_in rows) (map (map value_of) stored.now)) }
{
    let mut rows = Rows::new(alloc, args);
    for row in stored {
        rows.insert(alloc, row.as_slice())?;
    }
    Ok(rows)
}

impl SetState {
    /// The state of no rows. Takes no memory.
    #[tactic(auto, using(crate::proofs::Serving::served, crate::proofs::States::fresh_stands))]
    pub fn fresh(alloc: Global, leaf: &Leaf, args: &[Ty]) -> SetState
        requires { is_served (leaf_of leaf.now) (map ty_of args.now) ≡ true }
        ensures { Stands (leaf_of leaf.now) (map ty_of args.now) [] (held result) }
    {
        SetState {
            arguments: args.len() as u32,
            rows: Rows::new(alloc, args),
        }
    }

    /// Adds one live row: a row without NULL among its arguments, which have the types of the state.
    ///
    /// # Errors
    ///
    /// [`OutOfMemory`] where there is no room for it; the state is as before.
    #[inline]
    pub fn feed(&mut self, alloc: Global, row: &Args<'_>) -> Result<(), OutOfMemory>
        ensures row { OnOk result (TakesRow (held self.old) (map value_of row.now) (held self.new)) }
        ensures made { (held self.new).made ≡ (held self.old).made }
        ensures err { OnErr result (self.new ≡ self.old) }
    {
        self.feed_items(alloc, row.as_slice())
    }

    /// Adds one live row, given as its items: [`feed`](SetState::feed) over a slice.
    ///
    /// # Errors
    ///
    /// [`OutOfMemory`] where there is no room for it; the state is as before.
    #[inline]
    pub fn feed_items(&mut self, alloc: Global, row: &[Item<'_>]) -> Result<(), OutOfMemory>
        ensures row { OnOk result (TakesRow (held self.old) (map argument row.now) (held self.new)) }
        ensures made { (held self.new).made ≡ (held self.old).made }
        ensures err { OnErr result (self.new ≡ self.old) }
    {
        self.rows.insert(alloc, row)
    }

    /// Joins the rows of a later state, one of the same function and types, behind.
    ///
    /// # Errors
    ///
    /// [`OutOfMemory`] where there is no room for them; the state is as before.
    pub fn merge(&mut self, alloc: Global, later: &SetState) -> Result<(), OutOfMemory>
        requires same { (held self.old).made ≡ (held later.now).made }
        ensures rows { OnOk result (TakesState (held self.old) (held later.now) (held self.new)) }
        ensures made { (held self.new).made ≡ (held self.old).made }
        ensures err { OnErr result (self.new ≡ self.old) }
    {
        self.rows.merge(alloc, &later.rows)
    }

    /// How many different rows there are.
    ///
    /// # Errors
    ///
    /// None here: a number takes no room.
    pub fn finish(&self, _alloc: Global) -> Result<Value, OutOfMemory>
        ensures always { IsOk result }
        ensures means { IfOk result (λ v. Means (held self.now) (value_of v)) }
    {
        Ok(counted(self.rows.len()))
    }

    /// Whether a row reached the function.
    pub fn is_fed(&self) -> bool
        ensures { IsFedBy (held self.now) result }
    {
        self.rows.len() > 0
    }

    /// The state's tree: its different rows, in order.
    ///
    /// # Errors
    ///
    /// [`OutOfMemory`] where there is no room for it.
    #[tactic(auto, using(value_types::proofs::FoldLaws::tree_laws))]
    pub fn tree(&self, alloc: Global) -> Result<Tree, OutOfMemory>
        ensures { IfOk result (λ tree. tree_of tree ≡ (held self.now).tree) }
    {
        Ok(Tree::Rows(self.rows.rows(alloc)?))
    }

    /// A state with the same tree.
    ///
    /// # Errors
    ///
    /// [`OutOfMemory`] where there is no room for it.
    pub fn copy(&self, alloc: Global) -> Result<SetState, OutOfMemory>
        ensures { IfOk result (λ copied. held copied ≡ held self.now) }
    {
        Ok(SetState {
            arguments: self.arguments,
            rows: self.rows.copy(alloc)?,
        })
    }

    /// The state with this tree, where it is a tree of the function over these types.
    ///
    /// # Errors
    ///
    /// [`OutOfMemory`] where there is no room for it.
    #[tactic(auto, using(crate::proofs::Serving::served))]
    pub fn from_tree(
        alloc: Global,
        leaf: &Leaf,
        args: &[Ty],
        tree: &Tree,
    ) -> Result<SetState, OutOfMemory>
        requires { is_served (leaf_of leaf.now) (map ty_of args.now) ≡ true }
        ensures made { IfOk result (λ state. (held state).made ≡ made_for (leaf_of leaf.now) (map ty_of args.now)) }
        ensures tree { IfOk result (λ state. IsTree (Of (leaf_of leaf.now)) (map ty_of args.now) (tree_of tree.now) → (held state).tree ≡ tree_of tree.now) }
    {
        Ok(SetState {
            arguments: args.len() as u32,
            rows: rows_from(alloc, args, stored_rows(tree))?,
        })
    }
}
