//! The state of quantileExact: the numbers of its rows, put in order when they are asked for.
ghost use Rattle.std.specs.Ordering.{int_cmp};
ghost use Rattle.agg_terms.specs.Order as order;
ghost use Rattle.std.specs.Prelude.{◌≡◌, [], IfOk, OnErr, OnOk, map, true};
ghost use Rattle.agg_terms.specs.Chains.{Of};
ghost use Rattle.agg_terms.specs.Trees.{IsTree};
ghost use Rattle.agg_terms.specs.Values.{Num};
ghost use Rattle.agg_meaning.specs.Functions as terms;
ghost use Rattle.agg_meaning.specs.Results.{default, nullable_if};
ghost use Rattle.agg_meaning.specs.States.{IsFedBy, Means, Stands, TakesRow, TakesState, made_for};
ghost use Rattle.value_types.specs.Folds.{leaf_of, tree_of, ty_of, value_of};
ghost use Rattle.list_leaves.specs.Quantiles.{held, number_ty};
ghost use Rattle.list_leaves.specs.Rows.{argument};
ghost use Rattle.list_leaves.specs.Served.{is_quantile_served};

use crate::array::values_in;
use crate::made::Made;
use crate::number_values::{numbers_in, values_of};
use crate::row::{first_item, number_in};
use crate::sorted::{ascending, number_at, quantile_place};
use std::alloc::Global;
use typed_columns::{Args, Item};
use value_types::{Leaf, OutOfMemory, Seq, Tree, Ty, Value};

/// The running state of quantileExact: the numbers of its rows in any order.
///
/// ClickHouse manual: "Aggregate functions reference", quantileExact.
#[derive(Drop)]
pub struct QuantileState {
    made: Made,
    numbers: Seq<i128>,
}

impl QuantileState {
    /// The state of no rows. Takes no memory.
    pub fn fresh(alloc: Global, leaf: &Leaf, args: &[Ty]) -> QuantileState
        requires { is_quantile_served (leaf_of leaf.now) (map ty_of args.now) ≡ true }
        ensures { Stands (leaf_of leaf.now) (map ty_of args.now) [] (held result) }
    {
        QuantileState {
            made: Made::new(leaf, args),
            numbers: Seq::new(alloc),
        }
    }

    /// Adds one live row: a row without NULL among its arguments, which have the types of the state.
    ///
    /// # Errors
    ///
    /// [`OutOfMemory`] where there is no room for its number; the state is as before.
    #[inline]
    pub fn feed(&mut self, row: &Args<'_>) -> Result<(), OutOfMemory>
        ensures row { OnOk result (TakesRow (held self.old) (map value_of row.now) (held self.new)) }
        ensures made { (held self.new).made ≡ (held self.old).made }
        ensures err { OnErr result (self.new ≡ self.old) }
    {
        self.feed_items(row.as_slice())
    }

    /// Adds one live row, given as its items: [`feed`](QuantileState::feed) over a slice.
    ///
    /// # Errors
    ///
    /// [`OutOfMemory`] where there is no room for its number; the state is as before.
    #[inline]
    pub fn feed_items(&mut self, row: &[Item<'_>]) -> Result<(), OutOfMemory>
        ensures row { OnOk result (TakesRow (held self.old) (map argument row.now) (held self.new)) }
        ensures made { (held self.new).made ≡ (held self.old).made }
        ensures err { OnErr result (self.new ≡ self.old) }
    {
        let number = number_in(&first_item(row));
        self.numbers.push(number)
    }

    /// Joins the rows of a later state behind.
    ///
    /// # Errors
    ///
    /// [`OutOfMemory`] where there is no room for its numbers; the state is as before.
    pub fn merge(&mut self, later: &QuantileState) -> Result<(), OutOfMemory>
        ensures rows { OnOk result (TakesState (held self.old) (held later.now) (held self.new)) }
        ensures made { (held self.new).made ≡ (held self.old).made }
        ensures err { OnErr result (self.new ≡ self.old) }
    {
        self.numbers.extend_from_slice(later.numbers.as_slice())
    }

    /// The quantile: over no rows NULL where the argument is Nullable, else 0.
    ///
    /// # Errors
    ///
    /// [`OutOfMemory`] where there is no room to look for it.
    pub fn finish(&self, alloc: Global) -> Result<Value, OutOfMemory>
        ensures { IfOk result (λ v. Means (held self.now) (value_of v)) }
    {
        if self.numbers.is_empty() {
            return Ok(value_of_none(self.made));
        }
        let place = quantile_place(self.made.level, self.numbers.len());
        value_at(alloc, self.numbers.as_slice(), place)
    }

    /// Whether a row reached the function.
    pub fn is_fed(&self) -> bool
        ensures { IsFedBy (held self.now) result }
    {
        !self.numbers.is_empty()
    }

    /// The state's tree: its numbers, ascending.
    ///
    /// # Errors
    ///
    /// [`OutOfMemory`] where there is no room for it.
    pub fn tree(&self, alloc: Global) -> Result<Tree, OutOfMemory>
        ensures { IfOk result (λ tree. tree_of tree ≡ (held self.now).tree) }
    {
        let all = ascending(alloc, self.numbers.as_slice())?;
        Ok(Tree::Values(values_of(alloc, all.as_slice())?))
    }

    /// An equal state.
    ///
    /// # Errors
    ///
    /// [`OutOfMemory`] where there is no room for it.
    pub fn copy(&self, alloc: Global) -> Result<QuantileState, OutOfMemory>
        ensures { IfOk result (λ copied. copied ≡ self.now) }
    {
        Ok(QuantileState {
            made: self.made,
            numbers: Seq::from_slice(alloc, self.numbers.as_slice())?,
        })
    }

    /// The state with this tree, where it is a tree of the function over this type.
    ///
    /// # Errors
    ///
    /// [`OutOfMemory`] where there is no room for it.
    pub fn from_tree(
        alloc: Global,
        leaf: &Leaf,
        args: &[Ty],
        tree: &Tree,
    ) -> Result<QuantileState, OutOfMemory>
        requires { is_quantile_served (leaf_of leaf.now) (map ty_of args.now) ≡ true }
        ensures made { IfOk result (λ state. (held state).made ≡ made_for (leaf_of leaf.now) (map ty_of args.now)) }
        ensures tree { IfOk result (λ state. IsTree (Of (leaf_of leaf.now)) (map ty_of args.now) (tree_of tree.now) → (held state).tree ≡ tree_of tree.now) }
    {
        Ok(QuantileState {
            made: Made::new(leaf, args),
            numbers: numbers_in(alloc, values_in(tree))?,
        })
    }
}

/// The value over no rows. (ClickHouse manual: "Aggregate functions reference". What stands for no rows is this
/// project's own choice.)
#[tactic(auto, using(value_types::proofs::FoldLaws::value_laws, crate::proofs::Quantiles::values_of_none))]
fn value_of_none(made: Made) -> Value
    ensures { value_of result ≡ default (nullable_if made.nullable (number_ty made.number)) }
{
    if made.nullable {
        Value::Nil
    } else {
        Value::Num(0)
    }
}

/// The number at a place of the numbers put in order, NULL past the last one.
///
/// # Errors
///
/// [`OutOfMemory`] where there is no room to look for it.
fn value_at(alloc: Global, numbers: &[i128], place: u128) -> Result<Value, OutOfMemory>
    ensures { IfOk result (λ v. value_of v ≡ terms.arg place (map Num (order.ascending int_cmp numbers.now))) }
{
    if place >= numbers.len() as u128 {
        return Ok(Value::Nil);
    }
    let number = number_at(alloc, numbers, place as usize)?;
    Ok(Value::Num(number))
}
