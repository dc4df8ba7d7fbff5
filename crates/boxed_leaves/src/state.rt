//! The states behind pointers: each call goes to the state's own.
ghost use Rattle.std.specs.Prelude.{◌≡◌, [], IfOk, OnOk, map, true};
ghost use Rattle.agg_terms.specs.Chains as terms;
ghost use Rattle.agg_terms.specs.Chains.{Of};
ghost use Rattle.agg_terms.specs.Trees.{IsTree};
ghost use Rattle.agg_meaning.specs.Results.{leaf_result};
ghost use Rattle.agg_meaning.specs.States.{IsFedBy, Means, Stands, TakesRow, TakesState, made_for};
ghost use Rattle.value_types.specs.Folds.{leaf_of, tree_of, ty_of, value_of};
ghost use Rattle.int_leaves.specs.Rows.{argument};
ghost use Rattle.boxed_leaves.specs.Boxed.{held};
ghost use Rattle.boxed_leaves.specs.Served.{is_served};

use best_leaves::BestState;
use event_leaves::{FunnelState, MatchState};
use list_leaves::{ArrayState, QuantileState};
use set_leaves::SetState;
use std::alloc::Global;
use typed_columns::Item;
use value_types::{Leaf, OutOfMemory, Tree, Ty, Value};

/// The running state of a function that keeps more than a word, 16 bytes: the state stands behind a pointer.
///
/// The clauses hold at each type `t` of a result, since a state of groupArray keeps none.
#[derive(Drop)]
pub enum BoxedState {
    /// argMin and argMax, and min and max of Strings.
    Best(Box<BestState>),
    /// groupArray.
    Array(Box<ArrayState>),
    /// quantileExact.
    Quantile(Box<QuantileState>),
    /// uniqExact.
    Set(Box<SetState>),
    /// windowFunnel.
    Funnel(Box<FunnelState>),
    /// sequenceMatch.
    Match(Box<MatchState>),
}

impl BoxedState {
    /// The state of no rows.
    ///
    /// # Errors
    ///
    /// [`OutOfMemory`] where there is no room for it.
    pub fn fresh(alloc: Global, leaf: &Leaf, args: &[Ty]) -> Result<BoxedState, OutOfMemory>
        requires { is_served (leaf_of leaf.now) (map ty_of args.now) ≡ true }
        ensures { IfOk result (λ state. Stands (leaf_of leaf.now) (map ty_of args.now) [] (held (leaf_result (leaf_of leaf.now) (map ty_of args.now)) state)) }
    {
        if best_leaves::serves(leaf, args) {
            let state = BestState::fresh(leaf, args);
            Ok(BoxedState::Best(Box::new(alloc, state)?))
        } else if list_leaves::serves_array(leaf, args) {
            let state = ArrayState::fresh(alloc, leaf, args);
            Ok(BoxedState::Array(Box::new(alloc, state)?))
        } else if list_leaves::serves_quantile(leaf, args) {
            let state = QuantileState::fresh(alloc, leaf, args);
            Ok(BoxedState::Quantile(Box::new(alloc, state)?))
        } else if set_leaves::serves(leaf, args) {
            let state = SetState::fresh(alloc, leaf, args);
            Ok(BoxedState::Set(Box::new(alloc, state)?))
        } else if event_leaves::serves_funnel(leaf, args) {
            let state = FunnelState::fresh(alloc, leaf, args);
            Ok(BoxedState::Funnel(Box::new(alloc, state)?))
        } else {
            let state = MatchState::fresh(alloc, leaf, args)?;
            Ok(BoxedState::Match(Box::new(alloc, state)?))
        }
    }

    /// Adds one live row, given as its items: a row without NULL among its arguments, which have the types of the state.
    ///
    /// # Errors
    ///
    /// [`OutOfMemory`] where there is no room for it.
    pub fn feed_items(&mut self, alloc: Global, row: &[Item<'_>]) -> Result<(), OutOfMemory>
        ensures row { OnOk result ((t : terms.Ty) → TakesRow (held t self.old) (map argument row.now) (held t self.new)) }
        ensures made { (t : terms.Ty) → (held t self.new).made ≡ (held t self.old).made }
    {
        match self {
            BoxedState::Best(of) => of.feed_items(alloc, row),
            BoxedState::Array(of) => of.feed_items(alloc, row),
            BoxedState::Quantile(of) => of.feed_items(row),
            BoxedState::Set(of) => of.feed_items(alloc, row),
            BoxedState::Funnel(of) => of.feed_items(row),
            BoxedState::Match(of) => of.feed_items(row),
        }
    }

    /// Joins the rows of a later state, one of the same function and types, behind.
    ///
    /// # Errors
    ///
    /// [`OutOfMemory`] where there is no room for them.
    pub fn merge(&mut self, alloc: Global, later: &BoxedState) -> Result<(), OutOfMemory>
        requires same { (t : terms.Ty) → (held t self.old).made ≡ (held t later.now).made }
        ensures rows { OnOk result ((t : terms.Ty) → TakesState (held t self.old) (held t later.now) (held t self.new)) }
        ensures made { (t : terms.Ty) → (held t self.new).made ≡ (held t self.old).made }
    {
        match self {
            BoxedState::Best(of) => match later {
                BoxedState::Best(rows) => of.merge(alloc, rows),
                _ => unreachable!(),
            },
            BoxedState::Array(of) => match later {
                BoxedState::Array(rows) => of.merge(alloc, rows),
                _ => unreachable!(),
            },
            BoxedState::Quantile(of) => match later {
                BoxedState::Quantile(rows) => of.merge(rows),
                _ => unreachable!(),
            },
            BoxedState::Set(of) => match later {
                BoxedState::Set(rows) => of.merge(alloc, rows),
                _ => unreachable!(),
            },
            BoxedState::Funnel(of) => match later {
                BoxedState::Funnel(rows) => of.merge(alloc, rows),
                _ => unreachable!(),
            },
            BoxedState::Match(of) => match later {
                BoxedState::Match(rows) => of.merge(alloc, rows),
                _ => unreachable!(),
            },
        }
    }

    /// The function's value.
    ///
    /// # Errors
    ///
    /// [`OutOfMemory`] where there is no room for it.
    pub fn finish(&self, alloc: Global) -> Result<Value, OutOfMemory>
        ensures { IfOk result (λ v. (t : terms.Ty) → Means (held t self.now) (value_of v)) }
    {
        match self {
            BoxedState::Best(of) => of.finish(alloc),
            BoxedState::Array(of) => of.finish(alloc),
            BoxedState::Quantile(of) => of.finish(alloc),
            BoxedState::Set(of) => of.finish(alloc),
            BoxedState::Funnel(of) => of.finish(alloc),
            BoxedState::Match(of) => of.finish(alloc),
        }
    }

    /// Whether a row reached the function.
    pub fn is_fed(&self) -> bool
        ensures { (t : terms.Ty) → IsFedBy (held t self.now) result }
    {
        match self {
            BoxedState::Best(of) => of.is_fed(),
            BoxedState::Array(of) => of.is_fed(),
            BoxedState::Quantile(of) => of.is_fed(),
            BoxedState::Set(of) => of.is_fed(),
            BoxedState::Funnel(of) => of.is_fed(),
            BoxedState::Match(of) => of.is_fed(),
        }
    }

    /// The state's tree.
    ///
    /// # Errors
    ///
    /// [`OutOfMemory`] where there is no room for it.
    pub fn tree(&self, alloc: Global) -> Result<Tree, OutOfMemory>
        ensures { IfOk result (λ tree. (t : terms.Ty) → tree_of tree ≡ (held t self.now).tree) }
    {
        match self {
            BoxedState::Best(of) => of.tree(alloc),
            BoxedState::Array(of) => of.tree(alloc),
            BoxedState::Quantile(of) => of.tree(alloc),
            BoxedState::Set(of) => of.tree(alloc),
            BoxedState::Funnel(of) => of.tree(alloc),
            BoxedState::Match(of) => of.tree(alloc),
        }
    }

    /// A state of the same rows.
    ///
    /// # Errors
    ///
    /// [`OutOfMemory`] where there is no room for it.
    pub fn copy(&self, alloc: Global) -> Result<BoxedState, OutOfMemory>
        ensures { IfOk result (λ copied. (t : terms.Ty) → held t copied ≡ held t self.now) }
    {
        match self {
            BoxedState::Best(of) => Ok(BoxedState::Best(Box::new(alloc, of.copy(alloc)?)?)),
            BoxedState::Array(of) => Ok(BoxedState::Array(Box::new(alloc, of.copy(alloc)?)?)),
            BoxedState::Quantile(of) => {
                Ok(BoxedState::Quantile(Box::new(alloc, of.copy(alloc)?)?))
            }
            BoxedState::Set(of) => Ok(BoxedState::Set(Box::new(alloc, of.copy(alloc)?)?)),
            BoxedState::Funnel(of) => Ok(BoxedState::Funnel(Box::new(alloc, of.copy(alloc)?)?)),
            BoxedState::Match(of) => Ok(BoxedState::Match(Box::new(alloc, of.copy(alloc)?)?)),
        }
    }

    /// The state with this tree, where it is a tree of the function over these types.
    ///
    /// # Errors
    ///
    /// [`OutOfMemory`] where there is no room for it.
    pub fn from_tree(
        alloc: Global,
        leaf: &Leaf,
        args: &[Ty],
        tree: &Tree,
    ) -> Result<BoxedState, OutOfMemory>
        requires { is_served (leaf_of leaf.now) (map ty_of args.now) ≡ true }
        ensures made { IfOk result (λ state. (held (leaf_result (leaf_of leaf.now) (map ty_of args.now)) state).made ≡ made_for (leaf_of leaf.now) (map ty_of args.now)) }
        ensures tree { IfOk result (λ state. (t : terms.Ty) → IsTree (Of (leaf_of leaf.now)) (map ty_of args.now) (tree_of tree.now) → (held t state).tree ≡ tree_of tree.now) }
    {
        if best_leaves::serves(leaf, args) {
            let state = BestState::from_tree(alloc, leaf, args, tree)?;
            Ok(BoxedState::Best(Box::new(alloc, state)?))
        } else if list_leaves::serves_array(leaf, args) {
            let state = ArrayState::from_tree(alloc, leaf, args, tree)?;
            Ok(BoxedState::Array(Box::new(alloc, state)?))
        } else if list_leaves::serves_quantile(leaf, args) {
            let state = QuantileState::from_tree(alloc, leaf, args, tree)?;
            Ok(BoxedState::Quantile(Box::new(alloc, state)?))
        } else if set_leaves::serves(leaf, args) {
            let state = SetState::from_tree(alloc, leaf, args, tree)?;
            Ok(BoxedState::Set(Box::new(alloc, state)?))
        } else if event_leaves::serves_funnel(leaf, args) {
            let state = FunnelState::from_tree(alloc, leaf, args, tree)?;
            Ok(BoxedState::Funnel(Box::new(alloc, state)?))
        } else {
            let state = MatchState::from_tree(alloc, leaf, args, tree)?;
            Ok(BoxedState::Match(Box::new(alloc, state)?))
        }
    }
}
