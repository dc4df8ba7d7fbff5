//! The first rows of -Distinct as rows of columns, from which they are lent to the chain inside.
ghost use Rattle.std.specs.Prelude.{◌≡◌, ◌≤◌, length, map, true, IfOk, IsTrue, OnOk};
ghost use Rattle.agg_meaning.specs.Lawful.{IsSound};
ghost use Rattle.agg_typing.specs.Legal.{function_of};
ghost use Rattle.distinct_rows.specs.Rows.{rows_in};
ghost use Rattle.value_types.specs.Folds.{chain_of, ty_of, value_of};
ghost use Rattle.running_states.specs.Served.{is_served};
ghost use Rattle.running_states.specs.Shapes.{IsState};
ghost use Rattle.chain_links.specs.proving.Words.{FeedsAll};
ghost use Rattle.chain_values.specs.proving.Fitting.{HasRows, IsRefed, are_values, rows_of};

use agg_values::fits;
use chain_links::{feed, fresh};
use columns::{Batch, RowView};
use distinct_rows::DistinctRows;
use running_states::Running;
use std::alloc::Global;
use typed_columns::Args;
use value_types::{Chain, OutOfMemory, Ty, Value};

/// Whether a row has a value of each type.
fn row_fits(types: &[Ty], row: &[Value]) -> bool
    ensures { result ≡ are_values (map ty_of types.now) (map value_of row.now) }
{
    match types {
        [] => row.is_empty(),
        [ty, types @ ..] => match row {
            [] => false,
            [value, row @ ..] => fits(value, ty) && row_fits(types, row),
        },
    }
}

/// The rows, where each has a value of each type.
#[tactic(auto, using(crate::proofs::Fitted::batch_laws))]
fn batch_of(alloc: Global, types: &[Ty], rows: &DistinctRows) -> Result<Batch, OutOfMemory>
    ensures types { IfOk result (λ batch. batch.types ≡ types.now) }
    ensures rows { IfOk result (λ batch. HasRows (map ty_of types.now) (rows_in rows.now) batch) }
{
    let mut batch = Batch::new(alloc, types)?;
    for i in 0..rows.len() {
        let row = rows.row(i);
        if !row_fits(types, row) {
            continue;
        }
        batch.push_row(alloc, row)?;
    }
    Ok(batch)
}

/// Lends the values of a row.
fn lend<'a>(view: &RowView<'a>, count: usize, row: &mut Args<'a>)
    requires count { count ≡ length view.now }
    requires few { count ≤ 64 }
    ensures { row.new ≡ view.now }
{
    row.clear();
    for i in 0..count {
        row.push(view.item(i));
    }
}

/// Feeds the rows of a batch to a state.
#[tactic(auto, using(crate::proofs::Fitted::feed_laws))]
fn feed_batch(
    chain: &Chain,
    alloc: Global,
    function: &[Ty],
    count: usize,
    state: &mut Running,
    batch: &Batch,
) -> Result<(), OutOfMemory>
    requires sound { IsSound (chain_of chain.now) }
    requires served { is_served (function_of (chain_of chain.now)) (map ty_of function.now) ≡ true }
    requires shape { IsState (chain_of chain.now) (map ty_of function.now) state.old }
    requires count { count ≡ length batch.now.types }
    requires few { count ≤ 64 }
    ensures shape { OnOk result (IsState (chain_of chain.now) (map ty_of function.now) state.new) }
    ensures rows { OnOk result (FeedsAll (chain_of chain.now) (map ty_of function.now) (rows_of batch.now) state.old state.new) }
{
    let mut row = Args::new();
    for i in 0..batch.len() {
        lend(&batch.row(i), count, &mut row);
        let _count = row.len();
        feed(chain, alloc, function, state, row.as_slice())?;
    }
    Ok(())
}

/// The state of the chain inside that has taken the first rows.
#[tactic(auto, using(crate::proofs::Fitted::refed_laws))]
pub fn refed(
    chain: &Chain,
    alloc: Global,
    types: &[Ty],
    function: &[Ty],
    rows: &DistinctRows,
) -> Result<Running, OutOfMemory>
    requires sound { IsSound (chain_of chain.now) }
    requires served { is_served (function_of (chain_of chain.now)) (map ty_of function.now) ≡ true }
    requires few { length types.now ≤ 64 }
    ensures shape { IfOk result (λ s. IsState (chain_of chain.now) (map ty_of function.now) s) }
    ensures rows { IfOk result (λ s. IsRefed (chain_of chain.now) (map ty_of function.now) (map ty_of types.now) (rows_in rows.now) s) }
{
    let mut state = fresh(chain, alloc, function)?;
    let batch = batch_of(alloc, types, rows)?;
    feed_batch(chain, alloc, function, types.len(), &mut state, &batch)?;
    Ok(state)
}
