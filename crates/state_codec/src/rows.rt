//! Tuples at the front of the bytes, in view of those that were read before.
ghost use Rattle.std.specs.Prelude.{◌≡◌, map, []};
ghost use Rattle.agg_terms.specs.Order as order;
ghost use Rattle.agg_terms.specs.Values.{rows_tree};
ghost use Rattle.agg_values.specs.Peels.{peeled_types};
ghost use Rattle.value_types.specs.Folds.{tree_of, value_of};
ghost use Rattle.state_codec.specs.Reading.{any_length, items_at, kept_at, list_at, made, rises, row_at};
ghost use Rattle.state_codec.specs.Gives.{Gives};
ghost use Rattle.state_codec.specs.proving.Views.{behind, with_front};

use crate::DecodeFault;
use crate::source::{place_of, u64_at};
use crate::values::{least_bytes, room, value_at, with_room};
use agg_values::{Peels, compare_rows, peel};
use scalar_texts::StateFault;
use std::alloc::Global;
use value_types::{Seq, Tree, Ty, Value, bare};

/// Adds the values of these types, taken without Nullable, to a tuple.
#[tactic(auto, unfolding(crate::specs::Reading::both_at), using(crate::proofs::RowSteps::row_laws))]
fn fill_row<'b>(
    types: &[Ty],
    peels: &Peels<'_>,
    alloc: Global,
    whole: usize,
    bytes: &'b [u8],
    row: &mut Seq<Value>,
) -> Result<&'b [u8], DecodeFault>
    ensures { Gives (λ rest. (map value_of row.new, rest.now)) result
        (with_front (map value_of row.old) (row_at whole (peeled_types peels.now types.now) bytes.now)) }
{
    match types {
        [] => Ok(bytes),
        [ty, others @ ..] => {
            let (value, rest) = value_at(bare(peel(peels, ty)), alloc, whole, bytes)?;
            row.push(value)?;
            fill_row(others, peels, alloc, whole, rest, row)
        }
    }
}

/// The tuple of values of these types.
pub(crate) fn tuple_at<'b>(
    types: &[Ty],
    peels: &Peels<'_>,
    alloc: Global,
    whole: usize,
    bytes: &'b [u8],
) -> Result<(Seq<Value>, &'b [u8]), DecodeFault>
    ensures { Gives (λ x. (map value_of x.0, x.1.now)) result (row_at whole (peeled_types peels.now types.now) bytes.now) }
{
    let mut row = with_room(alloc, types.len());
    let rest = fill_row(types, peels, alloc, whole, bytes, &mut row)?;
    Ok((row, rest))
}

/// Whether the tuple is above the last of those before it.
#[tactic(auto, using(crate::proofs::Last::last_laws))]
fn is_above(earlier: &[Seq<Value>], row: &[Value]) -> bool
    ensures { result ≡ rises order.compare_rows (behind (map (map value_of) earlier.now)) (map value_of row.now) }
{
    match earlier.split_last() {
        Some((last, _)) => compare_rows(last.as_slice(), row).is_lt(),
        None => true,
    }
}

/// A tuple that is above the last of those before it.
#[tactic(auto, unfolding(crate::specs::Reading::kept_at))]
fn higher_at<'b>(
    types: &[Ty],
    peels: &Peels<'_>,
    alloc: Global,
    earlier: &Seq<Seq<Value>>,
    whole: usize,
    bytes: &'b [u8],
) -> Result<(Seq<Value>, &'b [u8]), DecodeFault>
    ensures { Gives (λ x. (map value_of x.0, x.1.now)) result
        (kept_at whole (rises order.compare_rows (behind (map (map value_of) earlier.now))) (row_at whole (peeled_types peels.now types.now)) bytes.now) }
{
    let (row, rest) = tuple_at(types, peels, alloc, whole, bytes)?;
    if !is_above(earlier.as_slice(), row.as_slice()) {
        return Err(DecodeFault::Bad(StateFault::NotCanonical(place_of(whole, bytes))));
    }
    Ok((row, rest))
}

/// The fewest bytes that a tuple has.
pub(crate) fn least_row_bytes(types: &[Ty], peels: &Peels<'_>) -> usize {
    let mut least = 0usize;
    for ty in types {
        least = least.saturating_add(least_bytes(bare(peel(peels, ty))));
    }
    least
}

/// So many tuples, each above the one before it.
fn rising_at<'b>(
    types: &[Ty],
    peels: &Peels<'_>,
    alloc: Global,
    whole: usize,
    count: u64,
    bytes: &'b [u8],
) -> Result<(Seq<Seq<Value>>, &'b [u8]), DecodeFault>
    ensures { Gives (λ x. (map (map value_of) x.0, x.1.now)) result
        (items_at (λ earlier. kept_at whole (rises order.compare_rows earlier) (row_at whole (peeled_types peels.now types.now))) count [] bytes.now) }
{
    let mut rows = with_room(
        alloc,
        room(u128::from(count), bytes, least_row_bytes(types, peels)),
    );
    let mut rest = bytes;
    for _ in 0..count {
        let (row, after) = higher_at(types, peels, alloc, &rows, whole, rest)?;
        rows.push(row)?;
        rest = after;
    }
    Ok((rows, rest))
}

/// The state of uniqExact.
#[tactic(auto, unfolding(crate::specs::Reading::list_at, crate::specs::Reading::kept_at))]
pub(crate) fn set_at<'b>(
    types: &[Ty],
    peels: &Peels<'_>,
    alloc: Global,
    whole: usize,
    bytes: &'b [u8],
) -> Result<(Tree, &'b [u8]), DecodeFault>
    ensures { Gives (λ x. (tree_of x.0, x.1.now)) result
        (made rows_tree (list_at whole any_length (λ earlier. kept_at whole (rises order.compare_rows earlier) (row_at whole (peeled_types peels.now types.now))) bytes.now)) }
{
    let (count, rest) = u64_at(bytes)?;
    let (rows, rest) = rising_at(types, peels, alloc, whole, count, rest)?;
    Ok((Tree::Rows(rows), rest))
}
