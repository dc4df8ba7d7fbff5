//! What is asked of a row of items.
ghost use Rattle.std.specs.Prelude.{◌≡◌, ◌<◌, ◌≤◌, [], get_or, length, map, not, IfNone, IfSome};
ghost use Rattle.agg_terms.specs.Lists as lists;
ghost use Rattle.agg_terms.specs.Values.{Empty, Nil};
ghost use Rattle.agg_meaning.specs.Feeds.{as_condition, as_key, as_tree, entries_of, items_of, last, no_null, tuples};
ghost use Rattle.int_leaves.specs.Rows.{argument};
ghost use Rattle.typed_columns.specs.Items.{pair_span_values, span_values};
ghost use Rattle.value_types.specs.Folds.{tree_of, value_of};
ghost use Rattle.row_parts.specs.Rows.{arguments, element_rows, is_met as met, pair_value};

use typed_columns::{Args, Item, PairSpan, Span};
use value_types::Tree;

/// Whether an argument is NULL.
#[inline]
#[tactic(auto, using(value_types::proofs::FoldLaws::value_laws))]
pub fn has_null(row: &[Item<'_>]) -> bool
    ensures { result ≡ not (no_null (arguments row.now)) }
{
    match row {
        [] => false,
        [first, rest @ ..] => match first {
            Item::Nil => true,
            _ => has_null(rest),
        },
    }
}

/// All but the last argument.
#[inline]
#[tactic(auto, using(crate::proofs::Tuples::front_laws))]
pub fn front<'b, 'a>(row: &'b [Item<'a>]) -> &'b [Item<'a>]
    ensures front { arguments result.now ≡ lists.front (arguments row.now) }
    ensures few { length result.now ≤ length row.now }
{
    match row {
        [rest @ .., _] => rest,
        [] => row,
    }
}

/// Whether the last argument is a condition that is met.
#[inline]
pub fn last_is_met(row: &[Item<'_>]) -> bool
    ensures { result ≡ met (as_condition (last Nil (arguments row.now))) }
{
    match row {
        [.., condition] => is_met(condition),
        [] => false,
    }
}

/// Whether a condition is met.
#[inline]
#[tactic(auto, using(value_types::proofs::FoldLaws::value_laws))]
fn is_met(condition: &Item<'_>) -> bool
    ensures { result ≡ met (as_condition (argument condition.now)) }
{
    match condition {
        Item::Num(number) => *number > 0,
        _ => false,
    }
}

/// The last argument where it is a number: a key.
#[inline]
pub fn last_key(row: &[Item<'_>]) -> Option<i128>
    ensures { result ≡ as_key (last Nil (arguments row.now)) }
{
    match row {
        [.., key] => key_of(key),
        [] => None,
    }
}

#[inline]
#[tactic(auto, using(value_types::proofs::FoldLaws::value_laws))]
fn key_of(key: &Item<'_>) -> Option<i128>
    ensures { result ≡ as_key (argument key.now) }
{
    match key {
        Item::Num(number) => Some(*number),
        _ => None,
    }
}

/// The last argument where it is a state.
#[inline]
pub fn last_state<'a>(row: &[Item<'a>]) -> Option<&'a Tree>
    ensures some { IfSome result (λ tree. as_tree (last Nil (arguments row.now)) ≡ tree_of tree.now) }
    ensures none { IfNone result (as_tree (last Nil (arguments row.now)) ≡ Empty) }
{
    match row {
        [.., state] => state_of(state),
        [] => None,
    }
}

#[inline]
#[tactic(auto, using(value_types::proofs::FoldLaws::value_laws))]
fn state_of<'a>(state: &Item<'a>) -> Option<&'a Tree>
    ensures some { IfSome result (λ tree. as_tree (argument state.now) ≡ tree_of tree.now) }
    ensures none { IfNone result (as_tree (argument state.now) ≡ Empty) }
{
    match state {
        Item::Cell(tree) => Some(tree),
        _ => None,
    }
}

/// The entries of the last argument where it is a map.
#[inline]
pub fn last_pairs<'a>(row: &[Item<'a>]) -> Option<PairSpan<'a>>
    ensures some { IfSome result (λ pairs. entries_of (last Nil (arguments row.now)) ≡ map pair_value (pair_span_values pairs)) }
    ensures none { IfNone result (entries_of (last Nil (arguments row.now)) ≡ []) }
{
    match row {
        [.., pairs] => pairs_of(pairs),
        [] => None,
    }
}

#[inline]
#[tactic(auto, using(value_types::proofs::FoldLaws::value_laws, crate::proofs::Tuples::pair_laws))]
fn pairs_of<'a>(pairs: &Item<'a>) -> Option<PairSpan<'a>>
    ensures some { IfSome result (λ pairs_in. entries_of (argument pairs.now) ≡ map pair_value (pair_span_values pairs_in)) }
    ensures none { IfNone result (entries_of (argument pairs.now) ≡ []) }
{
    match pairs {
        Item::Pairs(entries) => Some(*entries),
        _ => None,
    }
}

/// The elements of a row of one array.
#[inline]
pub fn lone_list<'a>(row: &[Item<'a>]) -> Option<Span<'a>>
    ensures { IfSome result (λ elements. tuples (arguments row.now) ≡ element_rows (span_values elements)) }
{
    match row {
        [list] => elements_of(list),
        _ => None,
    }
}

#[inline]
#[tactic(auto, using(crate::proofs::Tuples::element_laws))]
fn elements_of<'a>(list: &Item<'a>) -> Option<Span<'a>>
    ensures { IfSome result (λ elements. items_of (argument list.now) ≡ map value_of (span_values elements)) }
{
    match list {
        Item::List(elements) => Some(*elements),
        _ => None,
    }
}

/// How many elements an array has; none where it is no array.
#[inline]
#[tactic(auto, using(crate::proofs::Tuples::element_laws))]
fn count_elements(list: &Item<'_>) -> usize
    ensures { result ≡ length (items_of (argument list.now)) }
{
    match list {
        Item::List(elements) => elements.len(),
        _ => 0,
    }
}

/// How many rows of elements arrays open to: the length of the shortest.
#[tactic(auto, using(crate::proofs::Tuples::tuple_laws))]
pub fn count_tuples(row: &[Item<'_>]) -> usize
    ensures { result ≡ length (tuples (arguments row.now)) }
{
    match row {
        [] => 0,
        [list, rest @ ..] => {
            if rest.is_empty() {
                return count_elements(list);
            }
            count_elements(list).min(count_tuples(rest))
        }
    }
}

/// Lends the element of an array at a place.
#[inline]
#[tactic(auto, using(crate::proofs::Tuples::element_laws))]
fn element<'a>(list: &Item<'a>, place: usize) -> Item<'a>
    requires { place < length (items_of (argument list.now)) }
    ensures { argument result ≡ get_or (items_of (argument list.now)) place Nil }
{
    match list {
        Item::List(elements) => elements.at(place),
        _ => unreachable!(),
    }
}

/// Lends the row of elements at a place.
pub fn lend_tuple<'a>(row: &[Item<'a>], place: usize, tuple: &mut Args<'a>)
    requires within { place < length (tuples (arguments row.now)) }
    requires few { length row.now ≤ 64 }
    ensures { map value_of tuple.new ≡ get_or (tuples (arguments row.now)) place [] }
{
    tuple.clear();
    for i in 0..row.len() {
        tuple.push(element(&row[i], place));
    }
}
