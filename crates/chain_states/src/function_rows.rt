//! Rows of a function with at most one argument, each fed by its number: nothing is lent that the function doesn't ask for.
ghost use Rattle.std.specs.Prelude.{◌≡◌, ◌<◌, ℕ, [], List, drop, length, map, take, OnOk};
ghost use Rattle.agg_terms.specs.Chains.{Of};
ghost use Rattle.agg_terms.specs.Values.{Num, Value};
ghost use Rattle.value_types.specs.Folds.{leaf_of, ty_of, value_of};
ghost use Rattle.running_states.specs.Shapes.{IsState};
ghost use Rattle.running_states.specs.Words.{Feeds};

use crate::numbers::Wide;
use running_states::{Running, feed_leaf};
use std::alloc::Global;
use typed_columns::{Column, Item};
use value_types::{Leaf, OutOfMemory, Ty};

/// Rows of arguments of a function.
pub(crate) trait Rows {
    ghost has: { Self → ℕ → Type 0 };

    ghost row_at: { Self → ℕ → List Value };

    /// Feeds the row with this number to a state of the function.
    fn feed(
        &self,
        leaf: &Leaf,
        alloc: Global,
        types: &[Ty],
        state: &mut Running,
        number: usize,
    ) -> Result<(), OutOfMemory>
        requires has { has self.now number }
        requires shape { IsState (Of (leaf_of leaf.now)) (map ty_of types.now) state.old }
        ensures shape { OnOk result (IsState (Of (leaf_of leaf.now)) (map ty_of types.now) state.new) }
        ensures row { OnOk result (Feeds (Of (leaf_of leaf.now)) (map ty_of types.now) (row_at self.now number) state.old state.new) };
}

/// Rows of no argument.
#[derive(Drop)]
pub(crate) struct NoArguments {}

impl Rows for NoArguments {
    ghost has = { λ rows n. Unit {0} };

    ghost row_at = { λ rows n. [] };

    #[inline]
    fn feed(
        &self,
        leaf: &Leaf,
        alloc: Global,
        types: &[Ty],
        state: &mut Running,
        _number: usize,
    ) -> Result<(), OutOfMemory> {
        feed_leaf(leaf, alloc, types, state, &[])
    }
}

/// Rows of one number.
#[derive(Drop)]
pub(crate) struct Numbers<'a, N> {
    pub(crate) all: &'a [N],
}

impl<'a, N: Wide> Rows for Numbers<'a, N> {
    ghost has = { λ rows n. n < length rows.all.now };

    ghost row_at = { λ rows n. map (λ z. Num (N.number z)) (take 1 (drop n rows.all.now)) };

    #[inline]
    #[tactic(auto, using(crate::proofs::OneArgument::row_laws))]
    fn feed(
        &self,
        leaf: &Leaf,
        alloc: Global,
        types: &[Ty],
        state: &mut Running,
        number: usize,
    ) -> Result<(), OutOfMemory> {
        let item = Item::Num(self.all[number].wide());
        feed_leaf(leaf, alloc, types, state, &[item])
    }
}

/// Rows of one value of any type.
#[derive(Drop)]
pub(crate) struct Values<'a> {
    pub(crate) column: &'a Column,
}

impl<'a> Rows for Values<'a> {
    ghost has = { λ rows n. n < length rows.column.now.values };

    ghost row_at = { λ rows n. map value_of (take 1 (drop n rows.column.now.values)) };

    #[inline]
    #[tactic(auto, using(crate::proofs::OneArgument::row_laws))]
    fn feed(
        &self,
        leaf: &Leaf,
        alloc: Global,
        types: &[Ty],
        state: &mut Running,
        number: usize,
    ) -> Result<(), OutOfMemory> {
        let item = self.column.item(number);
        feed_leaf(leaf, alloc, types, state, &[item])
    }
}
