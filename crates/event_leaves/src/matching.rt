//! The state of sequenceMatch: a pattern, and the events of its rows, by time.
ghost use Rattle.std.specs.Prelude.{◌≡◌, ◌+◌, ◌≤◌, [], length, map, true, IfOk, IsOk, OnErr, OnOk};
ghost use Rattle.agg_terms.specs.Chains.{Of, SequenceMatch};
ghost use Rattle.agg_terms.specs.Trees.{IsTree};
ghost use Rattle.agg_meaning.specs.States.{IsFedBy, Means, Stands, TakesRow, TakesState, made_for};
ghost use Rattle.value_types.specs.Folds.{leaf_of, pattern_of, tree_of, ty_of, value_of};
ghost use Rattle.event_leaves.specs.Matches.{held};
ghost use Rattle.event_leaves.specs.Rows.{argument};
ghost use Rattle.event_leaves.specs.Served.{IsMatch, is_match_served};

use crate::event_rows::EventRows;
use crate::kept_pattern::KeptPattern;
use sequence_pattern::matches;
use std::alloc::Global;
use typed_columns::{Args, Item};
use value_types::{Leaf, OutOfMemory, Tree, Ty, Value};

/// The running state of sequenceMatch, over a time and 1 to 32 conditions.
///
/// Events of one time are in the order of their rows, and a row that meets no condition is no event (this project's
/// own choice). ClickHouse manual: "Parametric aggregate functions", sequenceMatch.
#[derive(Drop)]
pub struct MatchState {
    pattern: KeptPattern,
    rows: EventRows,
}

/// An own copy of the pattern of sequenceMatch.
#[tactic(auto, using(crate::proofs::Serving::searched))]
fn kept_pattern(alloc: Global, leaf: &Leaf) -> Result<KeptPattern, OutOfMemory>
    requires { IsMatch (leaf_of leaf.now) }
    ensures { IfOk result (λ pattern. SequenceMatch (pattern_of pattern) ≡ leaf_of leaf.now) }
{
    match leaf {
        Leaf::SequenceMatch(pattern) => KeptPattern::of(alloc, pattern),
        _ => unreachable!(),
    }
}

impl MatchState {
    /// The state of no rows.
    ///
    /// # Errors
    ///
    /// [`OutOfMemory`] where there is no room for a copy of the pattern.
    #[tactic(auto, using(crate::proofs::Serving::match_served, crate::proofs::Matches::fresh_stands))]
    pub fn fresh(alloc: Global, leaf: &Leaf, args: &[Ty]) -> Result<MatchState, OutOfMemory>
        requires { is_match_served (leaf_of leaf.now) (map ty_of args.now) ≡ true }
        ensures { IfOk result (λ state. Stands (leaf_of leaf.now) (map ty_of args.now) [] (held state)) }
    {
        Ok(MatchState {
            pattern: kept_pattern(alloc, leaf)?,
            rows: EventRows::new(alloc, args.len() as u32 - 1),
        })
    }

    /// Adds one live row: a row without NULL among its arguments, which have the types of the state.
    ///
    /// # Errors
    ///
    /// [`OutOfMemory`] where there is no room for its event; the state is as before.
    #[inline]
    pub fn feed(&mut self, row: &Args<'_>) -> Result<(), OutOfMemory>
        ensures row { OnOk result (TakesRow (held self.old) (map value_of row.now) (held self.new)) }
        ensures made { (held self.new).made ≡ (held self.old).made }
        ensures err { OnErr result (self.new ≡ self.old) }
    {
        self.feed_items(row.as_slice())
    }

    /// Adds one live row, given as its items: [`feed`](MatchState::feed) over a slice.
    ///
    /// # Errors
    ///
    /// [`OutOfMemory`] where there is no room for its event; the state is as before.
    #[inline]
    pub fn feed_items(&mut self, row: &[Item<'_>]) -> Result<(), OutOfMemory>
        ensures row { OnOk result (TakesRow (held self.old) (map argument row.now) (held self.new)) }
        ensures made { (held self.new).made ≡ (held self.old).made }
        ensures err { OnErr result (self.new ≡ self.old) }
    {
        self.rows.feed(row)
    }

    /// Joins the rows of a later state, one of the same function and types, behind.
    ///
    /// # Errors
    ///
    /// [`OutOfMemory`] where there is no room for its events; the state is as before.
    pub fn merge(&mut self, alloc: Global, later: &MatchState) -> Result<(), OutOfMemory>
        requires same { (held self.old).made ≡ (held later.now).made }
        ensures rows { OnOk result (TakesState (held self.old) (held later.now) (held self.new)) }
        ensures made { (held self.new).made ≡ (held self.old).made }
        ensures err { OnErr result (self.new ≡ self.old) }
    {
        self.rows.merge(alloc, &later.rows)
    }

    /// 1 where the events match the pattern, else 0.
    ///
    /// # Errors
    ///
    /// None here: a number takes no room.
    #[tactic(auto, using(value_types::proofs::FoldLaws::value_laws))]
    pub fn finish(&self, _alloc: Global) -> Result<Value, OutOfMemory>
        ensures always { IsOk result }
        ensures means { IfOk result (λ v. Means (held self.now) (value_of v)) }
    {
        let is_match = matches(self.pattern.pattern(), self.rows.events());
        Ok(Value::Num(if is_match { 1 } else { 0 }))
    }

    /// Whether a row reached the function.
    pub fn is_fed(&self) -> bool
        ensures { IsFedBy (held self.now) result }
    {
        self.rows.is_fed()
    }

    /// The state's tree.
    ///
    /// # Errors
    ///
    /// [`OutOfMemory`] where there is no room for it.
    pub fn tree(&self, alloc: Global) -> Result<Tree, OutOfMemory>
        ensures { IfOk result (λ tree. tree_of tree ≡ (held self.now).tree) }
    {
        self.rows.tree(alloc)
    }

    /// An equal state.
    ///
    /// # Errors
    ///
    /// [`OutOfMemory`] where there is no room for it.
    pub fn copy(&self, alloc: Global) -> Result<MatchState, OutOfMemory>
        ensures { IfOk result (λ copied. copied ≡ self.now) }
    {
        Ok(MatchState {
            pattern: KeptPattern::of(alloc, self.pattern.pattern())?,
            rows: self.rows.copy(alloc)?,
        })
    }

    /// The state with this tree, where it is a tree of the function over these types.
    ///
    /// # Errors
    ///
    /// [`OutOfMemory`] where there is no room for it.
    #[tactic(auto, using(crate::proofs::Serving::match_served, crate::proofs::Matches::tree_back))]
    pub fn from_tree(
        alloc: Global,
        leaf: &Leaf,
        args: &[Ty],
        tree: &Tree,
    ) -> Result<MatchState, OutOfMemory>
        requires { is_match_served (leaf_of leaf.now) (map ty_of args.now) ≡ true }
        ensures made { IfOk result (λ state. (held state).made ≡ made_for (leaf_of leaf.now) (map ty_of args.now)) }
        ensures tree { IfOk result (λ state. IsTree (Of (leaf_of leaf.now)) (map ty_of args.now) (tree_of tree.now) → (held state).tree ≡ tree_of tree.now) }
    {
        Ok(MatchState {
            pattern: kept_pattern(alloc, leaf)?,
            rows: EventRows::from_tree(alloc, args.len() as u32 - 1, tree)?,
        })
    }
}
