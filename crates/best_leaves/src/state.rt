//! The state of a function that keeps its best row.
ghost use Rattle.std.specs.Prelude.{◌≡◌, [], IfOk, OnErr, OnOk, map, true};
ghost use Rattle.agg_terms.specs.Chains.{Of};
ghost use Rattle.agg_terms.specs.Trees.{IsTree};
ghost use Rattle.agg_meaning.specs.States.{IsFedBy, Means, Stands, TakesRow, TakesState, made_for};
ghost use Rattle.value_types.specs.Folds.{leaf_of, tree_of, ty_of, value_of};
ghost use Rattle.best_leaves.specs.Rows.{argument};
ghost use Rattle.best_leaves.specs.Served.{is_served};
ghost use Rattle.best_leaves.specs.States.{held};

use crate::best::{Best, beats, compared_in, kept_in, later_beats};
use crate::made::Made;
use crate::stored::{kept_from, tree_with, value_with};
use std::alloc::Global;
use typed_columns::{Args, Item};
use value_types::{Leaf, OutOfMemory, Tree, Ty, Value};

/// The running state of argMin or argMax, or of min or max of Strings.
///
/// The first row wins a tie (this project's own choice). ClickHouse manual: "Aggregate functions reference", a page
/// for each of them.
#[derive(Drop)]
pub struct BestState {
    made: Made,
    best: Option<Best>,
}

impl BestState {
    /// The state of no rows. Takes no memory.
    #[tactic(auto, using(crate::proofs::States::fresh_stands))]
    pub fn fresh(leaf: &Leaf, args: &[Ty]) -> BestState
        requires { is_served (leaf_of leaf.now) (map ty_of args.now) ≡ true }
        ensures { Stands (leaf_of leaf.now) (map ty_of args.now) [] (held result) }
    {
        BestState {
            made: Made::new(leaf, args),
            best: None,
        }
    }

    /// Adds one live row: a row without NULL among its arguments, which have the types of the state.
    ///
    /// # Errors
    ///
    /// [`OutOfMemory`] where there is no room for a row that beats the kept one; the state is as before.
    #[inline]
    pub fn feed(&mut self, alloc: Global, row: &Args<'_>) -> Result<(), OutOfMemory>
        ensures row { OnOk result (TakesRow (held self.old) (map value_of row.now) (held self.new)) }
        ensures made { (held self.new).made ≡ (held self.old).made }
        ensures err { OnErr result (self.new ≡ self.old) }
    {
        self.feed_items(alloc, row.as_slice())
    }

    /// Adds one live row, given as its items: [`feed`](BestState::feed) over a slice.
    ///
    /// # Errors
    ///
    /// [`OutOfMemory`] where there is no room for a row that beats the kept one; the state is as before.
    pub fn feed_items(&mut self, alloc: Global, row: &[Item<'_>]) -> Result<(), OutOfMemory>
        ensures row { OnOk result (TakesRow (held self.old) (map argument row.now) (held self.new)) }
        ensures made { (held self.new).made ≡ (held self.old).made }
        ensures err { OnErr result (self.new ≡ self.old) }
    {
        let function = self.made.function;
        if !beats(alloc, function, &compared_in(function, row), &self.best)? {
            return Ok(());
        }
        self.best = Some(kept_in(alloc, function, row)?);
        Ok(())
    }

    /// Joins the rows of a later state, one of the same function and types, behind.
    ///
    /// # Errors
    ///
    /// [`OutOfMemory`] where there is no room for a copy of its row; the state is as before.
    pub fn merge(&mut self, alloc: Global, later: &BestState) -> Result<(), OutOfMemory>
        ensures rows { OnOk result (TakesState (held self.old) (held later.now) (held self.new)) }
        ensures made { (held self.new).made ≡ (held self.old).made }
        ensures err { OnErr result (self.new ≡ self.old) }
    {
        match &later.best {
            None => Ok(()),
            Some(best) => {
                if !later_beats(self.made.function, best, &self.best) {
                    return Ok(());
                }
                self.best = Some(best.copy(alloc)?);
                Ok(())
            }
        }
    }

    /// The function's value: over no rows NULL where an argument is Nullable, else 0 or the empty string.
    ///
    /// # Errors
    ///
    /// [`OutOfMemory`] where there is no room for it.
    pub fn finish(&self, alloc: Global) -> Result<Value, OutOfMemory>
        ensures { IfOk result (λ v. Means (held self.now) (value_of v)) }
    {
        value_with(alloc, self.made, &self.best)
    }

    /// Whether a row reached the function.
    pub fn is_fed(&self) -> bool
        ensures { IsFedBy (held self.now) result }
    {
        self.best.is_some()
    }

    /// The state's tree.
    ///
    /// # Errors
    ///
    /// [`OutOfMemory`] where there is no room for it.
    pub fn tree(&self, alloc: Global) -> Result<Tree, OutOfMemory>
        ensures { IfOk result (λ tree. tree_of tree ≡ (held self.now).tree) }
    {
        tree_with(alloc, self.made.function, &self.best)
    }

    /// An equal state.
    ///
    /// # Errors
    ///
    /// [`OutOfMemory`] where there is no room for it.
    pub fn copy(&self, alloc: Global) -> Result<BestState, OutOfMemory>
        ensures { IfOk result (λ copied. copied ≡ self.now) }
    {
        let made = self.made;
        match &self.best {
            None => Ok(BestState { made, best: None }),
            Some(best) => {
                let best = Some(best.copy(alloc)?);
                Ok(BestState { made, best })
            }
        }
    }

    /// The state with this tree, where it is a tree of the function over these types.
    ///
    /// # Errors
    ///
    /// [`OutOfMemory`] where there is no room for it.
    pub fn from_tree(
        alloc: Global,
        leaf: &Leaf,
        args: &[Ty],
        tree: &Tree,
    ) -> Result<BestState, OutOfMemory>
        requires { is_served (leaf_of leaf.now) (map ty_of args.now) ≡ true }
        ensures made { IfOk result (λ state. (held state).made ≡ made_for (leaf_of leaf.now) (map ty_of args.now)) }
        ensures tree { IfOk result (λ state. IsTree (Of (leaf_of leaf.now)) (map ty_of args.now) (tree_of tree.now) → (held state).tree ≡ tree_of tree.now) }
    {
        let made = Made::new(leaf, args);
        let best = kept_from(alloc, made.function, tree)?;
        Ok(BestState { made, best })
    }
}
