//! Rows of a function fed to its states by their places: one loop for each width of numbers.
ghost use Rattle.std.specs.Prelude.{◌≡◌, ◌<◌, ◌≤◌, ◌-◌, ℕ, false, All, drop, length, map, take, IfOk, IfSome, IsTrue, OnOk};
ghost use Rattle.agg_terms.specs.Chains.{Of};
ghost use Rattle.value_types.specs.Folds.{leaf_of, ty_of, value_of};
ghost use Rattle.chain_states.specs.proving.Places.{AreStates, FeedsAt, row_of, rows_from, with_condition, with_if};

use crate::conditions::is_left;
use crate::function_rows::{NoArguments, Numbers, Rows, Values};
use crate::state::State;
use std::alloc::Global;
use typed_columns::Column;
use value_types::{Leaf, OutOfMemory, Ty};

/// Feeds rows to states of a function, but for those left out.
fn feed_each<R: Rows>(
    rows: &R,
    leaf: &Leaf,
    alloc: Global,
    types: &[Ty],
    states: &mut Vec<State>,
    places: &[u32],
    conditions: Option<&[u8]>,
    from: usize,
    to: usize,
) -> Result<(), OutOfMemory>
    requires shape { AreStates (Of (leaf_of leaf.now)) (map ty_of types.now) states.old.items }
    requires places { All (λ p. p < length states.old.items) places.now }
    requires order { from ≤ to }
    requires count { length places.now ≡ to - from }
    requires rows { (n : ℕ) → n < to → R.has rows.now n }
    requires conditions { IfSome conditions (λ all. to ≤ length all.now) }
    ensures shape { OnOk result (AreStates (Of (leaf_of leaf.now)) (map ty_of types.now) states.new.items) }
    ensures rows { OnOk result (FeedsAt (with_if conditions.entry (Of (leaf_of leaf.now))) (map ty_of types.now) places.now (rows_from (with_condition (λ all. all.now) conditions.entry (R.row_at rows.now)) from (to - from)) states.old.items states.new.items) }
{
    for i in 0..places.len() {
        if is_left(conditions, from + i) {
            continue;
        }
        let state = &mut states[places[i] as usize].running;
        rows.feed(leaf, alloc, types, state, from + i)?;
    }
    Ok(())
}

/// Feeds the values of a column to states of a function of one argument.
#[tactic(auto, using(crate::proofs::Columned::column_laws))]
fn feed_signed(
    column: &Column,
    leaf: &Leaf,
    alloc: Global,
    types: &[Ty],
    states: &mut Vec<State>,
    places: &[u32],
    conditions: Option<&[u8]>,
    from: usize,
    to: usize,
) -> Result<(), OutOfMemory>
    requires shape { AreStates (Of (leaf_of leaf.now)) (map ty_of types.now) states.old.items }
    requires places { All (λ p. p < length states.old.items) places.now }
    requires order { from ≤ to }
    requires count { length places.now ≡ to - from }
    requires within { to ≤ length column.now.values }
    requires conditions { IfSome conditions (λ all. to ≤ length all.now) }
    ensures shape { OnOk result (AreStates (Of (leaf_of leaf.now)) (map ty_of types.now) states.new.items) }
    ensures rows { OnOk result (FeedsAt (with_if conditions.entry (Of (leaf_of leaf.now))) (map ty_of types.now) places.now (rows_from (with_condition (λ all. all.now) conditions.entry (λ n. map value_of (take 1 (drop n column.now.values)))) from (to - from)) states.old.items states.new.items) }
{
    if let Some(all) = column.numbers_i8() {
        let rows = Numbers { all };
        return feed_each(
            &rows, leaf, alloc, types, states, places, conditions, from, to,
        );
    }
    if let Some(all) = column.numbers_i16() {
        let rows = Numbers { all };
        return feed_each(
            &rows, leaf, alloc, types, states, places, conditions, from, to,
        );
    }
    if let Some(all) = column.numbers_i32() {
        let rows = Numbers { all };
        return feed_each(
            &rows, leaf, alloc, types, states, places, conditions, from, to,
        );
    }
    if let Some(all) = column.numbers_i64() {
        let rows = Numbers { all };
        return feed_each(
            &rows, leaf, alloc, types, states, places, conditions, from, to,
        );
    }
    feed_each(
        &Values { column },
        leaf,
        alloc,
        types,
        states,
        places,
        conditions,
        from,
        to,
    )
}

/// Feeds the values of a column to states of a function of one argument.
#[tactic(auto, using(crate::proofs::Columned::column_laws))]
fn feed_column(
    column: &Column,
    leaf: &Leaf,
    alloc: Global,
    types: &[Ty],
    states: &mut Vec<State>,
    places: &[u32],
    conditions: Option<&[u8]>,
    from: usize,
    to: usize,
) -> Result<(), OutOfMemory>
    requires shape { AreStates (Of (leaf_of leaf.now)) (map ty_of types.now) states.old.items }
    requires places { All (λ p. p < length states.old.items) places.now }
    requires order { from ≤ to }
    requires count { length places.now ≡ to - from }
    requires within { to ≤ length column.now.values }
    requires conditions { IfSome conditions (λ all. to ≤ length all.now) }
    ensures shape { OnOk result (AreStates (Of (leaf_of leaf.now)) (map ty_of types.now) states.new.items) }
    ensures rows { OnOk result (FeedsAt (with_if conditions.entry (Of (leaf_of leaf.now))) (map ty_of types.now) places.now (rows_from (with_condition (λ all. all.now) conditions.entry (λ n. map value_of (take 1 (drop n column.now.values)))) from (to - from)) states.old.items states.new.items) }
{
    if let Some(all) = column.numbers_u8() {
        let rows = Numbers { all };
        return feed_each(
            &rows, leaf, alloc, types, states, places, conditions, from, to,
        );
    }
    if let Some(all) = column.numbers_u16() {
        let rows = Numbers { all };
        return feed_each(
            &rows, leaf, alloc, types, states, places, conditions, from, to,
        );
    }
    if let Some(all) = column.numbers_u32() {
        let rows = Numbers { all };
        return feed_each(
            &rows, leaf, alloc, types, states, places, conditions, from, to,
        );
    }
    if let Some(all) = column.numbers_u64() {
        let rows = Numbers { all };
        return feed_each(
            &rows, leaf, alloc, types, states, places, conditions, from, to,
        );
    }
    feed_signed(
        column, leaf, alloc, types, states, places, conditions, from, to,
    )
}

/// Feeds rows to states of a function of at most one argument; false where there are more.
#[tactic(auto, using(crate::proofs::Columned::few_laws))]
pub(crate) fn feed_few(
    leaf: &Leaf,
    alloc: Global,
    types: &[Ty],
    states: &mut Vec<State>,
    places: &[u32],
    columns: &[Column],
    arguments: &[u32],
    conditions: Option<&[u8]>,
    from: usize,
    to: usize,
) -> Result<bool, OutOfMemory>
    requires shape { AreStates (Of (leaf_of leaf.now)) (map ty_of types.now) states.old.items }
    requires places { All (λ p. p < length states.old.items) places.now }
    requires order { from ≤ to }
    requires count { length places.now ≡ to - from }
    requires columns { All (λ a. a < length columns.now) arguments.now }
    requires within { All (λ c. to ≤ length c.values) columns.now }
    requires conditions { IfSome conditions (λ all. to ≤ length all.now) }
    ensures shape { OnOk result (AreStates (Of (leaf_of leaf.now)) (map ty_of types.now) states.new.items) }
    ensures rows { IfOk result (λ done. IsTrue done → FeedsAt (with_if conditions.entry (Of (leaf_of leaf.now))) (map ty_of types.now) places.now (rows_from (with_condition (λ all. all.now) conditions.entry (row_of columns.now arguments.now)) from (to - from)) states.old.items states.new.items) }
    ensures none { IfOk result (λ done. done ≡ false → states.new ≡ states.old) }
{
    match arguments {
        [] => {
            feed_each(
                &NoArguments {},
                leaf,
                alloc,
                types,
                states,
                places,
                conditions,
                from,
                to,
            )?;
            Ok(true)
        }
        [only] => {
            let column = &columns[*only as usize];
            feed_column(
                column, leaf, alloc, types, states, places, conditions, from, to,
            )?;
            Ok(true)
        }
        _ => Ok(false),
    }
}
