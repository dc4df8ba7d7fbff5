//! The recursion over a chain.
ghost use Rattle.std.specs.Prelude.{◌≡◌, cond, IfOk, map};
ghost use Rattle.agg_terms.specs.Chains as terms;
ghost use Rattle.agg_terms.specs.Values.{Nil};
ghost use Rattle.agg_meaning.specs.Results as results;
ghost use Rattle.value_types.specs.Folds.{chain_of, leaf_of, ty_of, value_of};
ghost use Rattle.plain_rows.specs.Rows.{rows_of};
ghost use Rattle.plain_meaning.specs.proving.Answers.{Answers};
ghost use Rattle.plain_meaning.specs.Inward.{IsEvaluated};

use crate::answer::{Answer, Gathered, Keyed};
use crate::keyed::{row_keys, rows_at_key};
use crate::passed::{element_rows, element_types, first_live, front_types, item_types, met_rows};
use crate::placed::{place_count, rows_at, rows_inside};
use crate::typed::{result_default, result_takes_null};
use agg_values::{Chain, Leaf, OutOfMemory, Seq, Tree, Ty, Value};
use plain_functions::{function_meaning, function_state, is_fed};
use plain_rows::intervals;
use std::alloc::Global;

/// What a function answers.
fn of_function(
    alloc: Global,
    leaf: &Leaf,
    types: &[Ty],
    rows: &[Seq<Value>],
) -> Result<Answer, OutOfMemory>
    requires { IsEvaluated (terms.Of (leaf_of leaf.now)) (map ty_of types.now) (rows_of rows.now) }
    ensures { IfOk result (λ answer. Answers (terms.Of (leaf_of leaf.now)) (map ty_of types.now) (rows_of rows.now) answer) }
{
    let value = function_meaning(alloc, leaf, types, rows)?;
    let state = function_state(alloc, leaf, types, rows)?;
    Ok(Answer {
        value,
        is_fed: is_fed(rows),
        state,
    })
}

/// What stands for the value of an unfed chain under -OrNull: NULL, where its result can be NULL.
fn value_or_null(
    alloc: Global,
    chain: &Chain,
    types: &[Ty],
    is_fed: bool,
    value: Value,
) -> Result<Value, OutOfMemory>
    ensures { IfOk result (λ after. value_of after ≡ cond is_fed (value_of value) (cond (results.can_be_null (results.result (chain_of chain.now) (map ty_of types.now))) Nil (value_of value))) }
{
    if !is_fed && result_takes_null(alloc, chain, types)? {
        return Ok(Value::Nil);
    }
    Ok(value)
}

/// What stands for the value of an unfed chain under -OrDefault: the default of its result's type.
fn value_or_default(
    alloc: Global,
    chain: &Chain,
    types: &[Ty],
    is_fed: bool,
    value: Value,
) -> Result<Value, OutOfMemory>
    ensures { IfOk result (λ after. value_of after ≡ cond is_fed (value_of value) (results.default (results.result (chain_of chain.now) (map ty_of types.now)))) }
{
    if is_fed {
        return Ok(value);
    }
    result_default(alloc, chain, types)
}

/// What a chain answers over rows.
pub fn evaluated(
    alloc: Global,
    chain: &Chain,
    types: &[Ty],
    rows: &[Seq<Value>],
) -> Result<Answer, OutOfMemory>
    requires { IsEvaluated (chain_of chain.now) (map ty_of types.now) (rows_of rows.now) }
    ensures { IfOk result (λ answer. Answers (chain_of chain.now) (map ty_of types.now) (rows_of rows.now) answer) }
{
    match chain {
        Chain::Leaf(leaf) => of_function(alloc, leaf, types, rows),
        Chain::If(of) => {
            let met = met_rows(alloc, rows)?;
            evaluated(alloc, of.get(), front_types(types), met.as_slice())
        }
        Chain::Array(of) => {
            let inner = element_types(alloc, types)?;
            let elements = element_rows(alloc, rows)?;
            evaluated(alloc, of.get(), inner.as_slice(), elements.as_slice())
        }
        Chain::OrNull(of) => {
            let answer = evaluated(alloc, of.get(), types, rows)?;
            let Answer {
                value,
                is_fed,
                state,
            } = answer;
            let or_null = value_or_null(alloc, of.get(), types, is_fed, value)?;
            Ok(Answer {
                value: or_null,
                is_fed,
                state,
            })
        }
        Chain::OrDefault(of) => {
            let answer = evaluated(alloc, of.get(), types, rows)?;
            let Answer {
                value,
                is_fed,
                state,
            } = answer;
            let or_default = value_or_default(alloc, of.get(), types, is_fed, value)?;
            Ok(Answer {
                value: or_default,
                is_fed,
                state,
            })
        }
        Chain::Distinct(of) => {
            let first = first_live(alloc, rows)?;
            let answer = evaluated(alloc, of.get(), types, first.as_slice())?;
            Ok(Answer {
                value: answer.value,
                is_fed: answer.is_fed,
                state: Tree::Rows(first),
            })
        }
        Chain::State(of) => {
            let answer = evaluated(alloc, of.get(), types, rows)?;
            let cell = answer.state.copy(alloc)?;
            Ok(Answer {
                value: Value::Cell(cell),
                is_fed: answer.is_fed,
                state: answer.state,
            })
        }
        Chain::ForEach(of) => {
            let elements = element_types(alloc, types)?;
            let inner = elements.as_slice();
            let count = place_count(alloc, rows)?;
            let mut gathered = Gathered::new(alloc);
            for place in 0..count {
                let part = rows_at(alloc, place, rows)?;
                let answer = evaluated(alloc, of.get(), inner, part.as_slice())?;
                gathered = gathered.add(answer)?;
            }
            Ok(gathered.listed())
        }
        Chain::MapOf(of) => {
            let items = item_types(alloc, types)?;
            let inner = items.as_slice();
            let different = row_keys(alloc, rows)?;
            let keys = different.as_slice();
            let mut gathered = Keyed::new(alloc);
            for key in keys {
                let part = rows_at_key(alloc, key, rows)?;
                let answer = evaluated(alloc, of.get(), inner, part.as_slice())?;
                gathered = gathered.add(alloc, key, answer)?;
            }
            Ok(gathered.mapped())
        }
        Chain::Resample(start, end, step, of) => {
            let inner = front_types(types);
            let count = intervals(*start, *end, *step);
            let mut gathered = Gathered::new(alloc);
            for interval in 0..count {
                let part = rows_inside(alloc, *start, *end, *step, interval, rows)?;
                let answer = evaluated(alloc, of.get(), inner, part.as_slice())?;
                gathered = gathered.add(answer)?;
            }
            Ok(gathered.listed())
        }
        Chain::Merge(_) => unreachable!(),
    }
}
