//! -If: only rows whose last argument, a condition, is met. ClickHouse manual: "Aggregate function combinators", -If.
ghost use Rattle.std.specs.Prelude.{◌≡◌, ◌≤◌, length, map, true, OnOk};
ghost use Rattle.agg_terms.specs.Chains.{If};
ghost use Rattle.agg_meaning.specs.Lawful.{IsSound};
ghost use Rattle.agg_typing.specs.Legal.{function_of};
ghost use Rattle.value_types.specs.Folds.{chain_of, ty_of};
ghost use Rattle.row_parts.specs.Rows.{arguments};
ghost use Rattle.running_states.specs.Served.{is_served};
ghost use Rattle.running_states.specs.Shapes.{IsState};
ghost use Rattle.running_states.specs.Words.{Feeds};

use crate::feeding::feed;
use row_parts::{front, last_is_met};
use running_states::Running;
use std::alloc::Global;
use typed_columns::Item;
use value_types::{Chain, OutOfMemory, Ty};

/// Adds a row, without its condition, where that is met.
#[cycle(feed)]
#[tactic(auto, using(crate::proofs::FedRows::if_laws))]
pub fn feed_met(
    of: &Chain,
    alloc: Global,
    types: &[Ty],
    state: &mut Running,
    row: &[Item<'_>],
) -> Result<(), OutOfMemory>
    requires sound { IsSound (chain_of of.now) }
    requires served { is_served (function_of (chain_of of.now)) (map ty_of types.now) ≡ true }
    requires shape { IsState (chain_of of.now) (map ty_of types.now) state.old }
    requires few { length row.now ≤ 64 }
    ensures shape { OnOk result (IsState (chain_of of.now) (map ty_of types.now) state.new) }
    ensures row { OnOk result (Feeds (If (chain_of of.now)) (map ty_of types.now) (arguments row.now) state.old state.new) }
{
    if last_is_met(row) {
        feed(of, alloc, types, state, front(row))
    } else {
        Ok(())
    }
}
