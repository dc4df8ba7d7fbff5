//! What is kept of the best row, and whether a later one beats it.
ghost use Rattle.std.specs.Prelude.{◌≡◌, IfOk, map};
ghost use Rattle.agg_terms.specs.Order as terms;
ghost use Rattle.agg_meaning.specs.Functions.{arg};
ghost use Rattle.value_types.specs.Folds.{value_of};
ghost use Rattle.best_leaves.specs.Best.{beats_kept, compared_place, kept_beside, kept_of, pair_of, pairs};
ghost use Rattle.best_leaves.specs.Rows.{argument};

use crate::function::{Function, place_compared, wins};
use agg_values::compare;
use std::alloc::Global;
use std::cmp::Ordering;
use typed_columns::Item;
use value_types::{OutOfMemory, Value};

/// Two values of a row: the first argument of argMin and argMax, NULL of min and max, and the value that is compared.
#[derive(Drop)]
pub struct Best {
    pub beside: Value,
    pub compared: Value,
}

impl Best {
    /// Equal values.
    ///
    /// # Errors
    ///
    /// [`OutOfMemory`] where there is no room for them.
    pub fn copy(&self, alloc: Global) -> Result<Best, OutOfMemory>
        ensures { IfOk result (λ best. best ≡ self.now) }
    {
        let beside = self.beside.copy(alloc)?;
        let compared = self.compared.copy(alloc)?;
        Ok(Best { beside, compared })
    }
}

/// The item at a place of a row, NULL where there is none.
#[inline]
#[tactic(auto, using(value_types::proofs::FoldLaws::value_laws))]
fn item_at<'a>(row: &[Item<'a>], place: usize) -> Item<'a>
    ensures { argument result ≡ arg place (map argument row.now) }
{
    match row.get(place) {
        Some(item) => *item,
        None => Item::Nil,
    }
}

/// The item of a row that is compared.
#[inline]
pub fn compared_in<'a>(function: Function, row: &[Item<'a>]) -> Item<'a>
    ensures { argument result ≡ arg (compared_place function) (map argument row.now) }
{
    item_at(row, place_compared(function))
}

/// The item of a row that is kept beside it.
#[tactic(auto, using(value_types::proofs::FoldLaws::value_laws))]
fn beside_in<'a>(function: Function, row: &[Item<'a>]) -> Item<'a>
    ensures { argument result ≡ kept_beside function (map argument row.now) }
{
    match function {
        Function::Min | Function::Max => Item::Nil,
        Function::ArgMin | Function::ArgMax => item_at(row, 0),
    }
}

/// What is kept of a row.
///
/// # Errors
///
/// [`OutOfMemory`] where there is no room for it.
pub fn kept_in(alloc: Global, function: Function, row: &[Item<'_>]) -> Result<Best, OutOfMemory>
    ensures { IfOk result (λ best. pair_of best ≡ kept_of function (map argument row.now)) }
{
    let beside = beside_in(function, row).to_value(alloc)?;
    let compared = compared_in(function, row).to_value(alloc)?;
    Ok(Best { beside, compared })
}

/// How an item stands to a value. A number or a text beside its like takes no memory.
#[tactic(auto, using(agg_values::proofs::Compared::value_kinds))]
fn compare_item(alloc: Global, item: &Item<'_>, value: &Value) -> Result<Ordering, OutOfMemory>
    ensures { IfOk result (λ order. order ≡ terms.compare (argument item.now) (value_of value.now)) }
{
    match item {
        Item::Num(x) => {
            if let Value::Num(y) = value {
                return Ok(x.cmp(y));
            }
        }
        Item::Bytes(x) => {
            if let Value::Bytes(y) = value {
                return Ok(x.cmp(&y.as_slice()));
            }
        }
        _ => {}
    }
    let own = item.to_value(alloc)?;
    Ok(compare(&own, value))
}

/// Whether an item beats what is kept, if anything is.
///
/// # Errors
///
/// [`OutOfMemory`] where there is no room to compare items other than numbers and texts.
#[inline]
pub fn beats(
    alloc: Global,
    function: Function,
    item: &Item<'_>,
    kept: &Option<Best>,
) -> Result<bool, OutOfMemory>
    ensures { IfOk result (λ beaten. beaten ≡ beats_kept function (argument item.now) (pairs kept.now)) }
{
    match kept {
        None => Ok(true),
        Some(best) => {
            let order = compare_item(alloc, item, &best.compared)?;
            Ok(wins(function, order))
        }
    }
}

/// Whether what is kept of later rows beats what is kept, if anything is.
pub fn later_beats(function: Function, later: &Best, kept: &Option<Best>) -> bool
    ensures { result ≡ beats_kept function (value_of later.now.compared) (pairs kept.now) }
{
    match kept {
        None => true,
        Some(best) => wins(function, compare(&later.compared, &best.compared)),
    }
}
