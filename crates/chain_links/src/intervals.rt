//! -Resample: a state for each interval of keys; the last argument is the key. ClickHouse manual: "Aggregate function
//! combinators", -Resample.
ghost use Rattle.std.specs.Prelude.{◌≡◌, ◌<◌, ◌<ℤ◌, ◌≤◌, ℕ, false, length, map, replicate, true, IfNone, IfOk, IfSome, OnOk};
ghost use Rattle.agg_terms.specs.Chains.{Resample};
ghost use Rattle.agg_terms.specs.Lists.{Each};
ghost use Rattle.agg_terms.specs.Types.{intervals};
ghost use Rattle.agg_terms.specs.Values.{slots_tree};
ghost use Rattle.agg_meaning.specs.Lawful.{IsSound};
ghost use Rattle.agg_typing.specs.Legal.{function_of};
ghost use Rattle.agg_meaning.specs.Picks.{is_inside};
ghost use Rattle.agg_meaning.specs.Results.{blank};
ghost use Rattle.value_types.specs.Folds.{chain_of, tree_of, ty_of};
ghost use Rattle.row_parts.specs.Rows.{arguments};
ghost use Rattle.running_states.specs.Served.{is_served};
ghost use Rattle.running_states.specs.Shapes.{AreParts, IsState};
ghost use Rattle.running_states.specs.declared.running.Running.TheViews.{out-Running};
ghost use Rattle.running_states.specs.Trees.{tree_in};
ghost use Rattle.running_states.specs.Words.{Feeds, JoinsAll};
ghost use Rattle.chain_links.specs.proving.Words.{FeedsPart};

use crate::feeding::feed;
use crate::places::merge_slots;
use crate::starting::fresh;
use row_parts::{front, interval_of, last_key};
use running_states::Running;
use std::alloc::Global;
use typed_columns::Item;
use value_types::{Chain, OutOfMemory, Tree, Ty};

/// A state of no rows for each interval.
#[cycle(fresh)]
pub fn fresh_parts(
    of: &Chain,
    alloc: Global,
    types: &[Ty],
    count: usize,
) -> Result<Running, OutOfMemory>
    requires sound { IsSound (chain_of of.now) }
    requires served { is_served (function_of (chain_of of.now)) (map ty_of types.now) ≡ true }
    ensures shape { IfOk result (λ s. AreParts count (IsState (chain_of of.now) (map ty_of types.now)) (out-Running s)) }
    ensures fresh { IfOk result (λ s. tree_in s ≡ slots_tree (replicate count (blank (chain_of of.now)))) }
{
    let mut parts = Vec::with_capacity(alloc, count)?;
    for _i in 0..count {
        parts.push(fresh(of, alloc, types)?)?;
    }
    Ok(Running::Slots(parts))
}

/// Adds a row, without its key, to the state of the key's interval.
#[cycle(feed)]
#[tactic(auto, using(running_states::proofs::Layers::slot_laws))]
pub fn feed_interval(
    start: i64,
    end: i64,
    step: u64,
    of: &Chain,
    alloc: Global,
    types: &[Ty],
    state: &mut Running,
    row: &[Item<'_>],
) -> Result<(), OutOfMemory>
    requires sound { IsSound (Resample start end step (chain_of of.now)) }
    requires served { is_served (function_of (chain_of of.now)) (map ty_of types.now) ≡ true }
    requires shape { IsState (Resample start end step (chain_of of.now)) (map ty_of types.now) state.old }
    requires few { length row.now ≤ 64 }
    ensures shape { OnOk result (IsState (Resample start end step (chain_of of.now)) (map ty_of types.now) state.new) }
    ensures row { OnOk result (Feeds (Resample start end step (chain_of of.now)) (map ty_of types.now) (arguments row.now) state.old state.new) }
{
    match last_key(row) {
        Some(key) => match interval_of(start, end, step, key) {
            Some(place) => match state {
                Running::Slots(parts) => feed_part(of, alloc, types, parts, place, front(row)),
                _ => unreachable!(),
            },
            None => Ok(()),
        },
        None => Ok(()),
    }
}

/// Adds a row to the state of an interval.
#[cycle(feed)]
fn feed_part(
    of: &Chain,
    alloc: Global,
    types: &[Ty],
    parts: &mut Vec<Running>,
    place: usize,
    row: &[Item<'_>],
) -> Result<(), OutOfMemory>
    requires sound { IsSound (chain_of of.now) }
    requires served { is_served (function_of (chain_of of.now)) (map ty_of types.now) ≡ true }
    requires shape { Each (IsState (chain_of of.now) (map ty_of types.now)) parts.old.items }
    requires within { place < length parts.old.items }
    requires few { length row.now ≤ 64 }
    ensures shape { OnOk result (Each (IsState (chain_of of.now) (map ty_of types.now)) parts.new.items × (length parts.new.items ≡ length parts.old.items)) }
    ensures row { OnOk result (FeedsPart (chain_of of.now) (map ty_of types.now) (arguments row.now) place parts.old.items parts.new.items) }
{
    feed(of, alloc, types, &mut parts[place], row)
}

/// Joins the rows of each interval behind.
#[cycle(merge)]
#[tactic(auto, using(running_states::proofs::Layers::slot_laws))]
pub fn merge_intervals(
    start: i64,
    end: i64,
    step: u64,
    of: &Chain,
    alloc: Global,
    types: &[Ty],
    state: &mut Running,
    later: &Running,
) -> Result<(), OutOfMemory>
    requires sound { IsSound (Resample start end step (chain_of of.now)) }
    requires served { is_served (function_of (chain_of of.now)) (map ty_of types.now) ≡ true }
    requires first { IsState (Resample start end step (chain_of of.now)) (map ty_of types.now) state.old }
    requires later { IsState (Resample start end step (chain_of of.now)) (map ty_of types.now) later.now }
    ensures shape { OnOk result (IsState (Resample start end step (chain_of of.now)) (map ty_of types.now) state.new) }
    ensures rows { OnOk result (JoinsAll (Resample start end step (chain_of of.now)) (map ty_of types.now) state.old later.now state.new) }
{
    match state {
        Running::Slots(parts) => match later {
            Running::Slots(rows) => merge_slots(of, alloc, types, parts, rows.as_slice()),
            _ => unreachable!(),
        },
        _ => unreachable!(),
    }
}
