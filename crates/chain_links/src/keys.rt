//! -Map: a state for each key of the maps; a key that stands twice in one map is fed twice. The entries are kept by rising
//! keys. ClickHouse manual: "Aggregate function combinators", -Map.
ghost use Rattle.std.specs.Prelude.{◌≡◌, length, map, true, IfOk, OnOk};
ghost use Rattle.agg_terms.specs.Chains.{MapOf};
ghost use Rattle.agg_meaning.specs.Lawful.{IsSound};
ghost use Rattle.agg_typing.specs.Legal.{function_of};
ghost use Rattle.int_leaves.specs.Rows.{argument};
ghost use Rattle.typed_columns.specs.Items.{pair_span_values};
ghost use Rattle.value_types.specs.Folds.{chain_of, ty_of, value_of};
ghost use Rattle.row_parts.specs.Rows.{arguments, pair_rows, pair_value};
ghost use Rattle.running_states.specs.Served.{is_served};
ghost use Rattle.running_states.specs.Shapes.{AreEntries, IsState};
ghost use Rattle.running_states.specs.Words.{Feeds, JoinsAll};
ghost use Rattle.running_states.specs.Entries.{IsPlaceOf, keys_in};
ghost use Rattle.chain_links.specs.proving.Words.{FeedsKeys, HasEntry, JoinsKeys};

use crate::feeding::feed;
use crate::merging::merge;
use crate::starting::fresh;
use row_parts::last_pairs;
use running_states::{Running, place_of_text, place_of_value};
use std::alloc::Global;
use typed_columns::{Item, PairSpan};
use value_types::{Chain, OutOfMemory, Ty, Value};

/// The place of a key, with a state of no rows where there was none.
#[tactic(auto, using(crate::proofs::Rooms::entry_laws))]
fn place_for(
    of: &Chain,
    alloc: Global,
    types: &[Ty],
    entries: &mut Vec<(Value, Running)>,
    key: &Value,
    found: Result<usize, usize>,
) -> Result<usize, OutOfMemory>
    requires sound { IsSound (chain_of of.now) }
    requires served { is_served (function_of (chain_of of.now)) (map ty_of types.now) ≡ true }
    requires shape { AreEntries (IsState (chain_of of.now) (map ty_of types.now)) entries.old.items }
    requires found { IsPlaceOf (value_of key.now) (keys_in entries.old.items) found }
    ensures { IfOk result (λ place. HasEntry (chain_of of.now) (map ty_of types.now) (value_of key.now) entries.old.items place entries.new.items) }
{
    match found {
        Ok(place) => Ok(place),
        Err(place) => {
            let entry = (key.copy(alloc)?, fresh(of, alloc, types)?);
            entries.insert(place, entry)?;
            Ok(place)
        }
    }
}

/// The place of the key that an item is. Only a new key takes memory for its text.
fn place_for_item(
    of: &Chain,
    alloc: Global,
    types: &[Ty],
    entries: &mut Vec<(Value, Running)>,
    key: &Item<'_>,
) -> Result<usize, OutOfMemory>
    requires sound { IsSound (chain_of of.now) }
    requires served { is_served (function_of (chain_of of.now)) (map ty_of types.now) ≡ true }
    requires shape { AreEntries (IsState (chain_of of.now) (map ty_of types.now)) entries.old.items }
    ensures { IfOk result (λ place. HasEntry (chain_of of.now) (map ty_of types.now) (argument key.now) entries.old.items place entries.new.items) }
{
    if let Item::Bytes(text) = key {
        if let Ok(place) = place_of_text(entries.as_slice(), text) {
            return Ok(place);
        }
    }
    let owned = key.to_value(alloc)?;
    let found = place_of_value(entries.as_slice(), &owned);
    place_for(of, alloc, types, entries, &owned, found)
}

/// Adds the value of each entry of a map to the state of its key.
#[cycle(feed)]
#[tactic(auto, using(running_states::proofs::Layers::key_laws))]
pub fn feed_keys(
    of: &Chain,
    alloc: Global,
    types: &[Ty],
    state: &mut Running,
    row: &[Item<'_>],
) -> Result<(), OutOfMemory>
    requires sound { IsSound (chain_of of.now) }
    requires served { is_served (function_of (chain_of of.now)) (map ty_of types.now) ≡ true }
    requires shape { IsState (MapOf (chain_of of.now)) (map ty_of types.now) state.old }
    ensures shape { OnOk result (IsState (MapOf (chain_of of.now)) (map ty_of types.now) state.new) }
    ensures row { OnOk result (Feeds (MapOf (chain_of of.now)) (map ty_of types.now) (arguments row.now) state.old state.new) }
{
    match last_pairs(row) {
        Some(pairs) => match state {
            Running::Keyed(entries) => feed_pairs(of, alloc, types, entries, &pairs),
            _ => unreachable!(),
        },
        None => Ok(()),
    }
}

/// Adds each value of a map to the state of its key.
#[cycle(feed)]
fn feed_pairs(
    of: &Chain,
    alloc: Global,
    types: &[Ty],
    entries: &mut Vec<(Value, Running)>,
    pairs: &PairSpan<'_>,
) -> Result<(), OutOfMemory>
    requires sound { IsSound (chain_of of.now) }
    requires served { is_served (function_of (chain_of of.now)) (map ty_of types.now) ≡ true }
    requires shape { AreEntries (IsState (chain_of of.now) (map ty_of types.now)) entries.old.items }
    ensures shape { OnOk result (AreEntries (IsState (chain_of of.now) (map ty_of types.now)) entries.new.items) }
    ensures rows { OnOk result (FeedsKeys (chain_of of.now) (map ty_of types.now) (pair_rows (map pair_value (pair_span_values pairs.now))) entries.old.items entries.new.items) }
{
    for i in 0..pairs.len() {
        let place = place_for_item(of, alloc, types, entries, &pairs.key(i))?;
        feed(of, alloc, types, &mut entries[place].1, &[pairs.value(i)])?;
    }
    Ok(())
}

/// Joins the rows of each later key behind.
#[cycle(merge)]
#[tactic(auto, using(running_states::proofs::Layers::key_laws))]
pub fn merge_keys(
    of: &Chain,
    alloc: Global,
    types: &[Ty],
    state: &mut Running,
    later: &Running,
) -> Result<(), OutOfMemory>
    requires sound { IsSound (chain_of of.now) }
    requires served { is_served (function_of (chain_of of.now)) (map ty_of types.now) ≡ true }
    requires first { IsState (MapOf (chain_of of.now)) (map ty_of types.now) state.old }
    requires later { IsState (MapOf (chain_of of.now)) (map ty_of types.now) later.now }
    ensures shape { OnOk result (IsState (MapOf (chain_of of.now)) (map ty_of types.now) state.new) }
    ensures rows { OnOk result (JoinsAll (MapOf (chain_of of.now)) (map ty_of types.now) state.old later.now state.new) }
{
    match state {
        Running::Keyed(entries) => match later {
            Running::Keyed(more) => merge_entries(of, alloc, types, entries, more.as_slice()),
            _ => unreachable!(),
        },
        _ => unreachable!(),
    }
}

/// Joins each later entry to the one at its key.
#[cycle(merge)]
fn merge_entries(
    of: &Chain,
    alloc: Global,
    types: &[Ty],
    entries: &mut Vec<(Value, Running)>,
    later: &[(Value, Running)],
) -> Result<(), OutOfMemory>
    requires sound { IsSound (chain_of of.now) }
    requires served { is_served (function_of (chain_of of.now)) (map ty_of types.now) ≡ true }
    requires first { AreEntries (IsState (chain_of of.now) (map ty_of types.now)) entries.old.items }
    requires later { AreEntries (IsState (chain_of of.now) (map ty_of types.now)) later.now }
    ensures shape { OnOk result (AreEntries (IsState (chain_of of.now) (map ty_of types.now)) entries.new.items) }
    ensures rows { OnOk result (JoinsKeys (chain_of of.now) (map ty_of types.now) entries.old.items later.now (length later.now) entries.new.items) }
{
    for i in 0..later.len() {
        let found = place_of_value(entries.as_slice(), &later[i].0);
        let place = place_for(of, alloc, types, entries, &later[i].0, found)?;
        merge(of, alloc, types, &mut entries[place].1, &later[i].1)?;
    }
    Ok(())
}
