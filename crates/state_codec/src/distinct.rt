//! The state under Distinct: tuples none of which stands twice. A hash of a tuple's values tells whether it was read before.
ghost use Rattle.std.specs.Prelude.{◌≡◌, ◌++◌, ◌∷◌, [], map, true, IfOk};
ghost use Rattle.agg_terms.specs.Order as order;
ghost use Rattle.agg_terms.specs.Values.{rows_tree};
ghost use Rattle.agg_values.specs.Peels.{peeled_types};
ghost use Rattle.value_types.specs.Folds.{tree_of, value_of};
ghost use Rattle.state_codec.specs.Reading.{any_length, is_new, items_at, kept_at, list_at, made, row_at};
ghost use Rattle.state_codec.specs.Gives.{Gives};
ghost use Rattle.state_codec.specs.proving.Views.{behind, kept_rows};

use crate::DecodeFault;
use crate::rows::{least_row_bytes, tuple_at};
use crate::source::{place_of, u64_at};
use crate::values::room;
use agg_values::Peels;
use indexmap::IndexSet;
use scalar_texts::StateFault;
use set_leaves::Tuple;
use std::alloc::Global;
use value_types::{OutOfMemory, Seq, Tree, Ty, Value};

/// No tuples, with room for so many. Where there is no such room, each new tuple asks for its own.
fn none_with_room(alloc: Global, count: usize) -> IndexSet<Tuple>
    ensures { result.keys ≡ [] }
{
    match IndexSet::with_capacity(alloc, count) {
        Ok(seen) => seen,
        Err(_) => IndexSet::new(alloc),
    }
}

/// Puts a tuple behind those that were read before, and tells whether it is none of them.
fn put_behind(seen: &mut IndexSet<Tuple>, values: Seq<Value>) -> Result<bool, OutOfMemory>
    ensures fresh { IfOk result (λ fresh. fresh ≡ is_new order.compare_rows (behind (kept_rows seen.old.keys)) (map value_of values)) }
    ensures behind { IfOk result (λ fresh. fresh ≡ true → kept_rows seen.new.keys ≡ kept_rows seen.old.keys ++ map value_of values ∷ []) }
{
    Ok(seen.insert(Tuple { values })?)
}

/// A tuple that is none of those before it, put behind them.
#[tactic(auto, unfolding(crate::specs::Reading::kept_at))]
fn other_at<'b>(
    types: &[Ty],
    peels: &Peels<'_>,
    alloc: Global,
    seen: &mut IndexSet<Tuple>,
    whole: usize,
    bytes: &'b [u8],
) -> Result<&'b [u8], DecodeFault>
    ensures { Gives (λ rest. (kept_rows seen.new.keys, rest.now)) result
        (made (λ row. kept_rows seen.old.keys ++ row ∷ []) (kept_at whole (is_new order.compare_rows (behind (kept_rows seen.old.keys))) (row_at whole (peeled_types peels.now types.now)) bytes.now)) }
{
    let (row, rest) = tuple_at(types, peels, alloc, whole, bytes)?;
    if !put_behind(seen, row)? {
        return Err(DecodeFault::Bad(StateFault::NotCanonical(place_of(whole, bytes))));
    }
    Ok(rest)
}

/// The tuples, in their order.
fn rows_of(alloc: Global, seen: IndexSet<Tuple>) -> Result<Seq<Seq<Value>>, OutOfMemory>
    ensures { IfOk result (λ rows. map (map value_of) rows ≡ kept_rows seen.keys) }
{
    let mut rows = Seq::new(alloc);
    rows.reserve(seen.len())?;
    for tuple in seen {
        let Tuple { values } = tuple;
        rows.push(values)?;
    }
    Ok(rows)
}

/// So many tuples, none of which stands twice.
fn apart_at<'b>(
    types: &[Ty],
    peels: &Peels<'_>,
    alloc: Global,
    whole: usize,
    count: u64,
    bytes: &'b [u8],
) -> Result<(Seq<Seq<Value>>, &'b [u8]), DecodeFault>
    ensures { Gives (λ x. (map (map value_of) x.0, x.1.now)) result
        (items_at (λ earlier. kept_at whole (is_new order.compare_rows earlier) (row_at whole (peeled_types peels.now types.now))) count [] bytes.now) }
{
    let most = room(u128::from(count), bytes, least_row_bytes(types, peels));
    let mut seen = none_with_room(alloc, most);
    let mut rest = bytes;
    for _ in 0..count {
        rest = other_at(types, peels, alloc, &mut seen, whole, rest)?;
    }
    Ok((rows_of(alloc, seen)?, rest))
}

/// The state under Distinct.
#[tactic(auto, unfolding(crate::specs::Reading::list_at, crate::specs::Reading::kept_at))]
pub(crate) fn distinct_at<'b>(
    types: &[Ty],
    peels: &Peels<'_>,
    alloc: Global,
    whole: usize,
    bytes: &'b [u8],
) -> Result<(Tree, &'b [u8]), DecodeFault>
    ensures { Gives (λ x. (tree_of x.0, x.1.now)) result
        (made rows_tree (list_at whole any_length (λ earlier. kept_at whole (is_new order.compare_rows earlier) (row_at whole (peeled_types peels.now types.now))) bytes.now)) }
{
    let (count, rest) = u64_at(bytes)?;
    let (rows, rest) = apart_at(types, peels, alloc, whole, count, rest)?;
    Ok((Tree::Rows(rows), rest))
}
