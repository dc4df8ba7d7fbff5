//! -Array: the rows of elements at equal places of the arrays, one after another; the places past the shortest array are
//! left out (this project's own choice). ClickHouse manual: "Aggregate function combinators", -Array.
ghost use Rattle.std.specs.Prelude.{◌≡◌, ◌≤◌, length, map, true, OnOk};
ghost use Rattle.agg_terms.specs.Chains.{Array};
ghost use Rattle.agg_meaning.specs.Lawful.{IsSound};
ghost use Rattle.agg_typing.specs.Legal.{function_of};
ghost use Rattle.agg_meaning.specs.Feeds.{tuples};
ghost use Rattle.typed_columns.specs.Items.{span_values};
ghost use Rattle.value_types.specs.Folds.{chain_of, ty_of};
ghost use Rattle.row_parts.specs.Rows.{arguments, element_rows};
ghost use Rattle.running_states.specs.Served.{is_served};
ghost use Rattle.running_states.specs.Shapes.{IsState};
ghost use Rattle.running_states.specs.Words.{Feeds};
ghost use Rattle.chain_links.specs.proving.Words.{FeedsAll};

use crate::feeding::feed;
use row_parts::{count_tuples, lend_tuple, lone_list};
use running_states::Running;
use std::alloc::Global;
use typed_columns::{Args, Item, Span};
use value_types::{Chain, OutOfMemory, Ty};

/// Adds the rows of elements of a row of arrays.
#[cycle(feed)]
#[tactic(auto, using(crate::proofs::FedRows::array_laws))]
pub fn feed_elements(
    of: &Chain,
    alloc: Global,
    types: &[Ty],
    state: &mut Running,
    row: &[Item<'_>],
) -> Result<(), OutOfMemory>
    requires sound { IsSound (chain_of of.now) }
    requires served { is_served (function_of (chain_of of.now)) (map ty_of types.now) ≡ true }
    requires shape { IsState (chain_of of.now) (map ty_of types.now) state.old }
    requires few { length row.now ≤ 64 }
    ensures shape { OnOk result (IsState (chain_of of.now) (map ty_of types.now) state.new) }
    ensures row { OnOk result (Feeds (Array (chain_of of.now)) (map ty_of types.now) (arguments row.now) state.old state.new) }
{
    match lone_list(row) {
        Some(elements) => feed_span(of, alloc, types, state, &elements),
        None => feed_tuples(of, alloc, types, state, row),
    }
}

/// Adds each element of one array.
#[cycle(feed)]
fn feed_span(
    of: &Chain,
    alloc: Global,
    types: &[Ty],
    state: &mut Running,
    elements: &Span<'_>,
) -> Result<(), OutOfMemory>
    requires sound { IsSound (chain_of of.now) }
    requires served { is_served (function_of (chain_of of.now)) (map ty_of types.now) ≡ true }
    requires shape { IsState (chain_of of.now) (map ty_of types.now) state.old }
    ensures shape { OnOk result (IsState (chain_of of.now) (map ty_of types.now) state.new) }
    ensures rows { OnOk result (FeedsAll (chain_of of.now) (map ty_of types.now) (element_rows (span_values elements.now)) state.old state.new) }
{
    for i in 0..elements.len() {
        feed(of, alloc, types, state, &[elements.at(i)])?;
    }
    Ok(())
}

/// Adds the row of elements at each place of several arrays.
#[cycle(feed)]
fn feed_tuples(
    of: &Chain,
    alloc: Global,
    types: &[Ty],
    state: &mut Running,
    row: &[Item<'_>],
) -> Result<(), OutOfMemory>
    requires sound { IsSound (chain_of of.now) }
    requires served { is_served (function_of (chain_of of.now)) (map ty_of types.now) ≡ true }
    requires shape { IsState (chain_of of.now) (map ty_of types.now) state.old }
    requires few { length row.now ≤ 64 }
    ensures shape { OnOk result (IsState (chain_of of.now) (map ty_of types.now) state.new) }
    ensures rows { OnOk result (FeedsAll (chain_of of.now) (map ty_of types.now) (tuples (arguments row.now)) state.old state.new) }
{
    let count = count_tuples(row);
    let mut tuple = Args::new();
    for i in 0..count {
        lend_tuple(row, i, &mut tuple);
        feed(of, alloc, types, state, tuple.as_slice())?;
    }
    Ok(())
}
