//! The public call: a legal chain over rows.
ghost use Rattle.std.specs.Prelude.{◌≡◌, IfOk, map, true};
ghost use Rattle.agg_terms.specs.Lists.{Each};
ghost use Rattle.agg_meaning.specs.Feeds.{AreValues};
ghost use Rattle.value_types.specs.Folds.{chain_of, ty_of, value_of};
ghost use Rattle.plain_rows.specs.Rows.{rows_of};
ghost use Rattle.plain_meaning.specs.Chains.{has_no_merge};
ghost use Rattle.plain_meaning.specs.Inward.{meaning_of};

use crate::answer::Answer;
use crate::evaluator::evaluated;
use agg_defs::Legal;
use agg_values::{OutOfMemory, Seq, Value};
use std::alloc::Global;

/// What a legal chain means over rows of values of its argument types, for a chain without `Merge`: the definition
/// over the whole list, computed as it is written, so slowly. Faster evaluations are compared with it.
/// (ClickHouse manual: "Aggregate function combinators".)
///
/// # Errors
///
/// [`OutOfMemory`] where there is no room for what is made on the way.
pub fn plain_meaning(
    alloc: Global,
    legal: &Legal,
    rows: &[Seq<Value>],
) -> Result<Value, OutOfMemory>
    requires mergeless { has_no_merge (chain_of legal.now.chain) ≡ true }
    requires rows { Each (AreValues (map ty_of legal.now.args)) (rows_of rows.now) }
    ensures { IfOk result (λ value. value_of value ≡ meaning_of (chain_of legal.now.chain) (map ty_of legal.now.args) (rows_of rows.now)) }
{
    let Answer {
        value,
        is_fed: _,
        state: _,
    } = evaluated(alloc, legal.chain(), legal.args(), rows)?;
    Ok(value)
}
