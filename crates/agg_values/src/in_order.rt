//! Whether the lists of a state stand as they must: sets strictly ascending, values not falling.
ghost use Rattle.std.specs.Prelude.{◌≡◌, map, not};
ghost use Rattle.std.specs.List.{list_all};
ghost use Rattle.std.specs.Ordering.{is_eq, is_le, is_lt};
ghost use Rattle.agg_terms.specs.Fitting as spec;
ghost use Rattle.agg_terms.specs.Order as terms;
ghost use Rattle.agg_terms.specs.Trees.{by_time};
ghost use Rattle.value_types.specs.Folds.{entry_of, event_of, value_of};

use crate::order::{compare, compare_rows};
use value_types::{Event, KeyedTree, Seq, Value};

/// Whether no value is below the one before it.
pub(crate) fn values_do_not_fall(items: &[Value]) -> bool
    ensures { result ≡ spec.neighbours (λ x y. is_le (terms.compare (value_of x) (value_of y))) items.now }
{
    for i in 1..items.len() {
        if !compare(&items[i - 1], &items[i]).is_le() {
            return false;
        }
    }
    true
}

/// Whether each tuple is above the one before it.
pub(crate) fn rows_rise(rows: &[Seq<Value>]) -> bool
    ensures { result ≡ spec.neighbours (λ x y. is_lt (terms.compare_rows (map value_of x) (map value_of y))) rows.now }
{
    for i in 1..rows.len() {
        if !compare_rows(rows[i - 1].as_slice(), rows[i].as_slice()).is_lt() {
            return false;
        }
    }
    true
}

/// Whether each key is above the one before it.
pub(crate) fn keys_rise(entries: &[KeyedTree]) -> bool
    ensures { result ≡ spec.neighbours (λ x y. is_lt (terms.compare (entry_of x).0 (entry_of y).0)) entries.now }
{
    for i in 1..entries.len() {
        if !compare(&entries[i - 1].key, &entries[i].key).is_lt() {
            return false;
        }
    }
    true
}

fn stand_by_time(earlier: &Event, later: &Event) -> bool
    ensures { result ≡ is_le (by_time (event_of earlier.now) (event_of later.now)) }
{
    earlier.time.cmp(&later.time).is_le()
}

/// Whether no event is earlier than the one before it.
pub(crate) fn events_stand_by_time(events: &[Event]) -> bool
    ensures { result ≡ spec.neighbours (λ x y. is_le (by_time (event_of x) (event_of y))) events.now }
{
    for i in 1..events.len() {
        if !stand_by_time(&events[i - 1], &events[i]) {
            return false;
        }
    }
    true
}

/// Whether a tuple is equal to none of the others.
fn row_is_apart(row: &[Value], others: &[Seq<Value>]) -> bool
    ensures { result ≡ list_all (λ y. not (is_eq (terms.compare_rows (map value_of row.now) (map value_of y)))) others.now }
{
    for i in 0..others.len() {
        if compare_rows(row, others[i].as_slice()).is_eq() {
            return false;
        }
    }
    true
}

/// Whether no tuple stands twice.
pub(crate) fn rows_are_apart(rows: &[Seq<Value>]) -> bool
    ensures { result ≡ spec.are_apart (λ x y. terms.compare_rows (map value_of x) (map value_of y)) rows.now }
{
    for i in 0..rows.len() {
        if !row_is_apart(rows[i].as_slice(), &rows[i + 1..]) {
            return false;
        }
    }
    true
}
