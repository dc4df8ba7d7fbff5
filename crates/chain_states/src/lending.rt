//! Rows of arguments lent from columns, and fed to states of any chain.
ghost use Rattle.std.specs.Prelude.{◌≡◌, ◌<◌, ◌≤◌, ◌-◌, true, All, length, map, IfSome, OnOk};
ghost use Rattle.agg_meaning.specs.Lawful.{IsSound};
ghost use Rattle.agg_meaning.specs.Functions.{arg};
ghost use Rattle.agg_meaning.specs.Views.{items_at};
ghost use Rattle.agg_typing.specs.Legal.{function_of};
ghost use Rattle.typed_columns.specs.Items.{item_value};
ghost use Rattle.value_types.specs.Folds.{chain_of, ty_of, value_of};
ghost use Rattle.running_states.specs.Served.{is_served};
ghost use Rattle.running_states.specs.Shapes.{IsState};
ghost use Rattle.running_states.specs.Words.{Feeds};
ghost use Rattle.chain_states.specs.Calls.{batch_row};
ghost use Rattle.chain_states.specs.proving.Places.{AreStates, FeedsAt, row_of, rows_from, with_condition, with_if};

use crate::conditions::is_left;
use crate::state::State;
use chain_links::feed;
use running_states::Running;
use std::alloc::Global;
use typed_columns::{Args, Column, Item};
use value_types::{Chain, OutOfMemory, Ty};

/// Lends the argument that columns have at a number.
#[inline]
#[tactic(auto, using(crate::proofs::Lent::item_laws))]
fn lend_item<'a>(columns: &'a [Column], argument: u32, number: usize) -> Item<'a>
    requires column { argument < length columns.now }
    requires within { All (λ c. number < length c.values) columns.now }
    ensures { value_of (item_value result) ≡ arg argument (batch_row columns.now number) }
{
    columns[argument as usize].item(number)
}

/// Lends the row of arguments that columns have at a number.
#[inline]
#[tactic(auto, using(crate::proofs::Lent::lent_laws))]
fn lend_row<'a>(columns: &'a [Column], arguments: &[u32], number: usize, row: &mut Args<'a>)
    requires few { length arguments.now ≤ 64 }
    requires columns { All (λ a. a < length columns.now) arguments.now }
    requires within { All (λ c. number < length c.values) columns.now }
    ensures { map value_of row.new ≡ items_at arguments.now (batch_row columns.now number) }
{
    row.clear();
    for i in 0..arguments.len() {
        row.push(lend_item(columns, arguments[i], number));
    }
}

/// Feeds the row of arguments that columns have at a number. One argument alone is lent with no list.
#[inline]
#[tactic(auto, using(crate::proofs::Lent::row_laws))]
fn feed_row<'a>(
    chain: &Chain,
    alloc: Global,
    types: &[Ty],
    state: &mut Running,
    columns: &'a [Column],
    arguments: &[u32],
    number: usize,
    row: &mut Args<'a>,
) -> Result<(), OutOfMemory>
    requires sound { IsSound (chain_of chain.now) }
    requires served { is_served (function_of (chain_of chain.now)) (map ty_of types.now) ≡ true }
    requires shape { IsState (chain_of chain.now) (map ty_of types.now) state.old }
    requires few { length arguments.now ≤ 64 }
    requires columns { All (λ a. a < length columns.now) arguments.now }
    requires within { All (λ c. number < length c.values) columns.now }
    ensures shape { OnOk result (IsState (chain_of chain.now) (map ty_of types.now) state.new) }
    ensures row { OnOk result (Feeds (chain_of chain.now) (map ty_of types.now) (items_at arguments.now (batch_row columns.now number)) state.old state.new) }
{
    match arguments {
        [only] => {
            let item = lend_item(columns, *only, number);
            feed(chain, alloc, types, state, &[item])
        }
        _ => {
            lend_row(columns, arguments, number, row);
            let _count = row.len();
            feed(chain, alloc, types, state, row.as_slice())
        }
    }
}

/// Feeds rows to states of any chain, but for those left out.
pub(crate) fn feed_lent(
    chain: &Chain,
    alloc: Global,
    types: &[Ty],
    states: &mut Vec<State>,
    places: &[u32],
    columns: &[Column],
    arguments: &[u32],
    conditions: Option<&[u8]>,
    from: usize,
    to: usize,
) -> Result<(), OutOfMemory>
    requires sound { IsSound (chain_of chain.now) }
    requires served { is_served (function_of (chain_of chain.now)) (map ty_of types.now) ≡ true }
    requires shape { AreStates (chain_of chain.now) (map ty_of types.now) states.old.items }
    requires places { All (λ p. p < length states.old.items) places.now }
    requires order { from ≤ to }
    requires count { length places.now ≡ to - from }
    requires few { length arguments.now ≤ 64 }
    requires columns { All (λ a. a < length columns.now) arguments.now }
    requires within { All (λ c. to ≤ length c.values) columns.now }
    requires conditions { IfSome conditions (λ all. to ≤ length all.now) }
    ensures shape { OnOk result (AreStates (chain_of chain.now) (map ty_of types.now) states.new.items) }
    ensures rows { OnOk result (FeedsAt (with_if conditions.entry (chain_of chain.now)) (map ty_of types.now) places.now (rows_from (with_condition (λ all. all.now) conditions.entry (row_of columns.now arguments.now)) from (to - from)) states.old.items states.new.items) }
{
    let mut row = Args::new();
    for i in 0..places.len() {
        if is_left(conditions, from + i) {
            continue;
        }
        let state = &mut states[places[i] as usize].running;
        feed_row(
            chain,
            alloc,
            types,
            state,
            columns,
            arguments,
            from + i,
            &mut row,
        )?;
    }
    Ok(())
}
