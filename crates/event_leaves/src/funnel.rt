//! The state of windowFunnel: the events of its rows, by time.
ghost use Rattle.std.specs.Prelude.{◌≡◌, ◌+◌, ◌≤◌, [], length, map, pos, true, IfOk, IsOk, OnErr, OnOk};
ghost use Rattle.agg_terms.specs.Chains.{Of, WindowFunnel};
ghost use Rattle.agg_terms.specs.Trees.{IsTree};
ghost use Rattle.agg_terms.specs.Values.{Num};
ghost use Rattle.agg_meaning.specs.States.{IsFedBy, Means, Stands, TakesRow, TakesState, made_for};
ghost use Rattle.value_types.specs.Folds.{leaf_of, tree_of, ty_of, value_of};
ghost use Rattle.event_leaves.specs.Funnels.{held};
ghost use Rattle.event_leaves.specs.Rows.{argument};
ghost use Rattle.event_leaves.specs.Served.{IsFunnel, is_funnel_served};

use crate::event_rows::EventRows;
use std::alloc::Global;
use typed_columns::{Args, Item};
use value_types::{Leaf, OutOfMemory, Tree, Ty, Value};
use window_funnel::level;

/// The running state of windowFunnel, over a time and 1 to 32 conditions.
///
/// Events of one time are in the order of their rows, and a row that meets no condition is no event (this project's
/// own choice). ClickHouse manual: "Parametric aggregate functions", windowFunnel.
#[derive(Drop)]
pub struct FunnelState {
    window: u64,
    is_strict: bool,
    rows: EventRows,
}

/// The window of the function, in the unit of its times, and whether times must rise.
#[derive(Clone, Copy)]
struct Funnel {
    window: u64,
    is_strict: bool,
}

/// The window and the mode of windowFunnel.
fn funnel_of(leaf: &Leaf) -> Funnel
    requires { IsFunnel (leaf_of leaf.now) }
    ensures { WindowFunnel result.window result.is_strict ≡ leaf_of leaf.now }
{
    match leaf {
        Leaf::WindowFunnel(window, is_strict) => Funnel {
            window: *window,
            is_strict: *is_strict,
        },
        _ => Funnel {
            window: 0,
            is_strict: false,
        },
    }
}

/// A level, as a value.
#[tactic(auto, using(value_types::proofs::FoldLaws::value_laws))]
fn as_value(level: u32) -> Value
    ensures { value_of result ≡ Num (pos level) }
{
    Value::Num(i128::from(level))
}

impl FunnelState {
    /// The state of no rows. Takes no memory.
    #[tactic(auto, using(crate::proofs::Serving::served, crate::proofs::Funnels::fresh_stands))]
    pub fn fresh(alloc: Global, leaf: &Leaf, args: &[Ty]) -> FunnelState
        requires { is_funnel_served (leaf_of leaf.now) (map ty_of args.now) ≡ true }
        ensures { Stands (leaf_of leaf.now) (map ty_of args.now) [] (held result) }
    {
        let funnel = funnel_of(leaf);
        FunnelState {
            window: funnel.window,
            is_strict: funnel.is_strict,
            rows: EventRows::new(alloc, args.len() as u32 - 1),
        }
    }

    /// Adds one live row: a row without NULL among its arguments, which have the types of the state.
    ///
    /// # Errors
    ///
    /// [`OutOfMemory`] where there is no room for its event; the state is as before.
    #[inline]
    pub fn feed(&mut self, row: &Args<'_>) -> Result<(), OutOfMemory>
        ensures row { OnOk result (TakesRow (held self.old) (map value_of row.now) (held self.new)) }
        ensures made { (held self.new).made ≡ (held self.old).made }
        ensures err { OnErr result (self.new ≡ self.old) }
    {
        self.feed_items(row.as_slice())
    }

    /// Adds one live row, given as its items: [`feed`](FunnelState::feed) over a slice.
    ///
    /// # Errors
    ///
    /// [`OutOfMemory`] where there is no room for its event; the state is as before.
    #[inline]
    pub fn feed_items(&mut self, row: &[Item<'_>]) -> Result<(), OutOfMemory>
        ensures row { OnOk result (TakesRow (held self.old) (map argument row.now) (held self.new)) }
        ensures made { (held self.new).made ≡ (held self.old).made }
        ensures err { OnErr result (self.new ≡ self.old) }
    {
        self.rows.feed(row)
    }

    /// Joins the rows of a later state, one of the same function and types, behind.
    ///
    /// # Errors
    ///
    /// [`OutOfMemory`] where there is no room for its events; the state is as before.
    pub fn merge(&mut self, alloc: Global, later: &FunnelState) -> Result<(), OutOfMemory>
        requires same { (held self.old).made ≡ (held later.now).made }
        ensures rows { OnOk result (TakesState (held self.old) (held later.now) (held self.new)) }
        ensures made { (held self.new).made ≡ (held self.old).made }
        ensures err { OnErr result (self.new ≡ self.old) }
    {
        self.rows.merge(alloc, &later.rows)
    }

    /// The level: how many conditions, from the first on, are met in turn within the window.
    ///
    /// # Errors
    ///
    /// None here: a number takes no room.
    pub fn finish(&self, _alloc: Global) -> Result<Value, OutOfMemory>
        ensures always { IsOk result }
        ensures means { IfOk result (λ v. Means (held self.now) (value_of v)) }
    {
        let conditions = self.rows.conditions();
        let level = level(self.window, self.is_strict, conditions, self.rows.events());
        Ok(as_value(level))
    }

    /// Whether a row reached the function.
    pub fn is_fed(&self) -> bool
        ensures { IsFedBy (held self.now) result }
    {
        self.rows.is_fed()
    }

    /// The state's tree.
    ///
    /// # Errors
    ///
    /// [`OutOfMemory`] where there is no room for it.
    pub fn tree(&self, alloc: Global) -> Result<Tree, OutOfMemory>
        ensures { IfOk result (λ tree. tree_of tree ≡ (held self.now).tree) }
    {
        self.rows.tree(alloc)
    }

    /// An equal state.
    ///
    /// # Errors
    ///
    /// [`OutOfMemory`] where there is no room for it.
    pub fn copy(&self, alloc: Global) -> Result<FunnelState, OutOfMemory>
        ensures { IfOk result (λ copied. copied ≡ self.now) }
    {
        Ok(FunnelState {
            window: self.window,
            is_strict: self.is_strict,
            rows: self.rows.copy(alloc)?,
        })
    }

    /// The state with this tree, where it is a tree of the function over these types.
    ///
    /// # Errors
    ///
    /// [`OutOfMemory`] where there is no room for it.
    #[tactic(auto, using(crate::proofs::Serving::served, crate::proofs::Funnels::tree_back))]
    pub fn from_tree(
        alloc: Global,
        leaf: &Leaf,
        args: &[Ty],
        tree: &Tree,
    ) -> Result<FunnelState, OutOfMemory>
        requires { is_funnel_served (leaf_of leaf.now) (map ty_of args.now) ≡ true }
        ensures made { IfOk result (λ state. (held state).made ≡ made_for (leaf_of leaf.now) (map ty_of args.now)) }
        ensures tree { IfOk result (λ state. IsTree (Of (leaf_of leaf.now)) (map ty_of args.now) (tree_of tree.now) → (held state).tree ≡ tree_of tree.now) }
    {
        let funnel = funnel_of(leaf);
        Ok(FunnelState {
            window: funnel.window,
            is_strict: funnel.is_strict,
            rows: EventRows::from_tree(alloc, args.len() as u32 - 1, tree)?,
        })
    }
}
