//! -ForEach: a state for each place of the arrays. ClickHouse manual: "Aggregate function combinators", -ForEach.
ghost use Rattle.std.specs.Prelude.{◌≡◌, ◌≤◌, length, map, true, OnOk};
ghost use Rattle.agg_terms.specs.Chains.{ForEach};
ghost use Rattle.agg_terms.specs.Lists.{Each};
ghost use Rattle.agg_meaning.specs.Lawful.{IsSound};
ghost use Rattle.agg_typing.specs.Legal.{function_of};
ghost use Rattle.agg_meaning.specs.Feeds.{tuples};
ghost use Rattle.typed_columns.specs.Items.{span_values};
ghost use Rattle.value_types.specs.Folds.{chain_of, ty_of};
ghost use Rattle.row_parts.specs.Rows.{arguments, element_rows};
ghost use Rattle.running_states.specs.Served.{is_served};
ghost use Rattle.running_states.specs.Shapes.{IsState};
ghost use Rattle.running_states.specs.Words.{Feeds, JoinsAll};
ghost use Rattle.chain_links.specs.proving.Words.{FeedsPlaces, HasRoom, JoinsPlaces};

use crate::feeding::feed;
use crate::merging::merge;
use crate::starting::fresh;
use row_parts::{count_tuples, lend_tuple, lone_list};
use running_states::Running;
use std::alloc::Global;
use typed_columns::{Args, Item, Span};
use value_types::{Chain, OutOfMemory, Ty};

/// Adds a state of no rows where the place is the first without one.
#[tactic(auto, using(crate::proofs::Rooms::room_laws))]
pub fn make_room(
    of: &Chain,
    alloc: Global,
    types: &[Ty],
    slots: &mut Vec<Running>,
    place: usize,
) -> Result<(), OutOfMemory>
    requires sound { IsSound (chain_of of.now) }
    requires served { is_served (function_of (chain_of of.now)) (map ty_of types.now) ≡ true }
    requires next { place ≤ length slots.old.items }
    ensures { OnOk result (HasRoom (chain_of of.now) (map ty_of types.now) slots.old.items place slots.new.items) }
{
    if place >= slots.len() {
        slots.push(fresh(of, alloc, types)?)?;
    }
    Ok(())
}

/// Adds the row of elements at each place to the state there.
#[cycle(feed)]
#[tactic(auto, using(running_states::proofs::Layers::slot_laws))]
pub fn feed_places(
    of: &Chain,
    alloc: Global,
    types: &[Ty],
    state: &mut Running,
    row: &[Item<'_>],
) -> Result<(), OutOfMemory>
    requires sound { IsSound (chain_of of.now) }
    requires served { is_served (function_of (chain_of of.now)) (map ty_of types.now) ≡ true }
    requires shape { IsState (ForEach (chain_of of.now)) (map ty_of types.now) state.old }
    requires few { length row.now ≤ 64 }
    ensures shape { OnOk result (IsState (ForEach (chain_of of.now)) (map ty_of types.now) state.new) }
    ensures row { OnOk result (Feeds (ForEach (chain_of of.now)) (map ty_of types.now) (arguments row.now) state.old state.new) }
{
    match state {
        Running::Slots(slots) => match lone_list(row) {
            Some(elements) => feed_span(of, alloc, types, slots, &elements),
            None => feed_tuples(of, alloc, types, slots, row),
        },
        _ => unreachable!(),
    }
}

/// Adds each element of one array at its place.
#[cycle(feed)]
fn feed_span(
    of: &Chain,
    alloc: Global,
    types: &[Ty],
    slots: &mut Vec<Running>,
    elements: &Span<'_>,
) -> Result<(), OutOfMemory>
    requires sound { IsSound (chain_of of.now) }
    requires served { is_served (function_of (chain_of of.now)) (map ty_of types.now) ≡ true }
    requires shape { Each (IsState (chain_of of.now) (map ty_of types.now)) slots.old.items }
    ensures shape { OnOk result (Each (IsState (chain_of of.now) (map ty_of types.now)) slots.new.items) }
    ensures rows { OnOk result (FeedsPlaces (chain_of of.now) (map ty_of types.now) (element_rows (span_values elements.now)) (length (span_values elements.now)) slots.old.items slots.new.items) }
{
    for i in 0..elements.len() {
        make_room(of, alloc, types, slots, i)?;
        feed(of, alloc, types, &mut slots[i], &[elements.at(i)])?;
    }
    Ok(())
}

/// Adds the row of elements of several arrays at each place.
#[cycle(feed)]
fn feed_tuples(
    of: &Chain,
    alloc: Global,
    types: &[Ty],
    slots: &mut Vec<Running>,
    row: &[Item<'_>],
) -> Result<(), OutOfMemory>
    requires sound { IsSound (chain_of of.now) }
    requires served { is_served (function_of (chain_of of.now)) (map ty_of types.now) ≡ true }
    requires shape { Each (IsState (chain_of of.now) (map ty_of types.now)) slots.old.items }
    requires few { length row.now ≤ 64 }
    ensures shape { OnOk result (Each (IsState (chain_of of.now) (map ty_of types.now)) slots.new.items) }
    ensures rows { OnOk result (FeedsPlaces (chain_of of.now) (map ty_of types.now) (tuples (arguments row.now)) (length (tuples (arguments row.now))) slots.old.items slots.new.items) }
{
    let count = count_tuples(row);
    let mut tuple = Args::new();
    for i in 0..count {
        make_room(of, alloc, types, slots, i)?;
        lend_tuple(row, i, &mut tuple);
        feed(of, alloc, types, &mut slots[i], tuple.as_slice())?;
    }
    Ok(())
}

/// Joins the rows of each place behind.
#[cycle(merge)]
#[tactic(auto, using(running_states::proofs::Layers::slot_laws))]
pub fn merge_places(
    of: &Chain,
    alloc: Global,
    types: &[Ty],
    state: &mut Running,
    later: &Running,
) -> Result<(), OutOfMemory>
    requires sound { IsSound (chain_of of.now) }
    requires served { is_served (function_of (chain_of of.now)) (map ty_of types.now) ≡ true }
    requires first { IsState (ForEach (chain_of of.now)) (map ty_of types.now) state.old }
    requires later { IsState (ForEach (chain_of of.now)) (map ty_of types.now) later.now }
    ensures shape { OnOk result (IsState (ForEach (chain_of of.now)) (map ty_of types.now) state.new) }
    ensures rows { OnOk result (JoinsAll (ForEach (chain_of of.now)) (map ty_of types.now) state.old later.now state.new) }
{
    match state {
        Running::Slots(slots) => match later {
            Running::Slots(rows) => merge_slots(of, alloc, types, slots, rows.as_slice()),
            _ => unreachable!(),
        },
        _ => unreachable!(),
    }
}

/// Joins each later slot to the one at its place.
#[cycle(merge)]
pub fn merge_slots(
    of: &Chain,
    alloc: Global,
    types: &[Ty],
    slots: &mut Vec<Running>,
    later: &[Running],
) -> Result<(), OutOfMemory>
    requires sound { IsSound (chain_of of.now) }
    requires served { is_served (function_of (chain_of of.now)) (map ty_of types.now) ≡ true }
    requires first { Each (IsState (chain_of of.now) (map ty_of types.now)) slots.old.items }
    requires later { Each (IsState (chain_of of.now) (map ty_of types.now)) later.now }
    ensures shape { OnOk result (Each (IsState (chain_of of.now) (map ty_of types.now)) slots.new.items) }
    ensures rows { OnOk result (JoinsPlaces (chain_of of.now) (map ty_of types.now) slots.old.items later.now (length later.now) slots.new.items) }
{
    for i in 0..later.len() {
        make_room(of, alloc, types, slots, i)?;
        merge(of, alloc, types, &mut slots[i], &later[i])?;
    }
    Ok(())
}
