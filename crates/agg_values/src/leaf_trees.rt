//! Which state trees an aggregate function has, over arguments of given types.
ghost use Rattle.std.specs.Prelude.{◌≡◌, ◌^◌, ◌&&◌, min, map, length, true};
ghost use Rattle.std.specs.List.{list_all};
ghost use Rattle.agg_terms.specs.Fitting as spec;
ghost use Rattle.agg_terms.specs.Values.{Num};
ghost use Rattle.agg_terms.specs.Order.{compare, compare_rows};
ghost use Rattle.agg_terms.specs.Trees.{by_time};
ghost use Rattle.agg_values.specs.Peels.{peeled_types};
ghost use Rattle.value_types.specs.Folds.{event_of, leaf_of, tree_of, ty_of, value_of};

use crate::in_order::{events_stand_by_time, rows_are_apart, rows_rise, values_do_not_fall};
use crate::links::{Peels, first_type};
use crate::plain_fits::{all_fit, plain_fits};
use crate::row_fits::{row_fits, rows_fit};
use value_types::{Event, Leaf, Seq, Tree, Ty, Value, bare, is_signed};

fn is_none(tree: &Tree) -> bool
    ensures { result ≡ spec.is_none (tree_of tree.now) }
{
    matches!(tree, Tree::Empty)
}

fn is_word(tree: &Tree, low: i128, high: i128) -> bool
    ensures { result ≡ spec.has_word (spec.is_between low high) (tree_of tree.now) }
{
    match tree {
        Tree::Word(word) => low <= *word && *word <= high,
        _ => false,
    }
}

/// A sum is a number of Int64 where the argument is signed, and of UInt64 where it is not.
fn is_sum(signed: bool, tree: &Tree) -> bool
    ensures { result ≡ spec.has_word (spec.is_word signed) (tree_of tree.now) }
{
    if signed {
        is_word(tree, -9223372036854775808, 9223372036854775807)
    } else {
        is_word(tree, 0, 18446744073709551615)
    }
}

/// Two to this power, or to 127 where the power is higher.
fn power_of_two(exponent: usize) -> u128
    ensures { result ≡ 2 ^ min exponent 127 }
{
    2u128.pow(exponent.min(127) as u32)
}

/// Whether a number is one of this many bits.
fn has_bits(word: i128, bits: usize) -> bool
    ensures { result ≡ spec.fits_bits bits word }
{
    0 <= word && word.unsigned_abs() < power_of_two(bits)
}

/// Whether the tree is a number of this many bits.
fn is_of_bits(tree: &Tree, bits: usize) -> bool
    ensures { result ≡ spec.has_word (spec.fits_bits bits) (tree_of tree.now) }
{
    match tree {
        Tree::Word(word) => has_bits(*word, bits),
        _ => false,
    }
}

/// Whether the tree is a number of the type.
fn is_number_of(ty: &Ty, tree: &Tree) -> bool
    ensures { result ≡ spec.has_word (λ z. spec.fits_plain (ty_of ty.now) (Num z)) (tree_of tree.now) }
{
    match tree {
        Tree::Word(word) => plain_fits(ty, &Value::Num(*word)),
        _ => false,
    }
}

/// Whether a tuple is of one value of the type, which is no number.
fn is_lone(ty: &Ty, tuple: &[Value]) -> bool
    ensures { result ≡ spec.is_lone (spec.fits_plain (ty_of ty.now)) (map value_of tuple.now) }
{
    match tuple {
        [value] => !is_any_number(value) && plain_fits(ty, value),
        _ => false,
    }
}

fn is_any_number(value: &Value) -> bool
    ensures { result ≡ spec.has_number (λ z. true) (value_of value.now) }
{
    matches!(value, Value::Num(_))
}

/// The state of min and max: no value, or one of the type.
fn is_best(ty: &Ty, tree: &Tree) -> bool
    ensures { result ≡ spec.is_best (ty_of ty.now) (tree_of tree.now) }
{
    match tree {
        Tree::Empty => true,
        Tree::Word(word) => plain_fits(ty, &Value::Num(*word)),
        Tree::Tuple(values) => is_lone(ty, values.as_slice()),
        _ => false,
    }
}

/// The state of argMin and argMax: no values, or one of each of the two arguments.
fn is_best_pair(types: &[Ty], peels: &Peels<'_>, tree: &Tree) -> bool
    ensures { result ≡ spec.is_best_pair (peeled_types peels.now types.now) (tree_of tree.now) }
{
    match tree {
        Tree::Empty => true,
        Tree::Tuple(values) => are_pair(types, peels, values.as_slice()),
        _ => false,
    }
}

fn are_pair(types: &[Ty], peels: &Peels<'_>, tuple: &[Value]) -> bool
    ensures { result ≡ spec.are_two (map value_of tuple.now) && spec.fits_row (peeled_types peels.now types.now) (map value_of tuple.now) }
{
    tuple.len() == 2 && row_fits(types, peels, tuple)
}

fn is_up_to(most: &Option<u32>, count: usize) -> bool
    ensures { result ≡ spec.is_up_to most.now count }
{
    match most {
        None => true,
        Some(most) => count as u64 <= u64::from(*most),
    }
}

#[tactic(auto, using(crate::proofs::Images::image_laws))]
fn are_group(ty: &Ty, most: &Option<u32>, values: &[Value]) -> bool
    ensures { result ≡ list_all (spec.fits_plain (ty_of ty.now)) (map value_of values.now) && spec.is_up_to most.now (length (map value_of values.now)) }
{
    all_fit(ty, values) && is_up_to(most, values.len())
}

/// The state of groupArray: values of the type, no more than the limit.
fn is_group(ty: &Ty, most: &Option<u32>, tree: &Tree) -> bool
    ensures { result ≡ spec.has_values (λ vs. list_all (spec.fits_plain (ty_of ty.now)) vs && spec.is_up_to most.now (length vs)) (tree_of tree.now) }
{
    match tree {
        Tree::Values(values) => are_group(ty, most, values.as_slice()),
        _ => false,
    }
}

#[tactic(auto, using(crate::proofs::Images::image_laws))]
fn are_in_order(ty: &Ty, values: &[Value]) -> bool
    ensures { result ≡ list_all (spec.fits_plain (ty_of ty.now)) (map value_of values.now) && spec.is_not_falling compare (map value_of values.now) }
{
    all_fit(ty, values) && values_do_not_fall(values)
}

/// The state of quantileExact: values of the type, none below the one before it.
fn is_in_order(ty: &Ty, tree: &Tree) -> bool
    ensures { result ≡ spec.has_values (λ vs. list_all (spec.fits_plain (ty_of ty.now)) vs && spec.is_not_falling compare vs) (tree_of tree.now) }
{
    match tree {
        Tree::Values(values) => are_in_order(ty, values.as_slice()),
        _ => false,
    }
}

#[tactic(auto, using(crate::proofs::Images::image_laws))]
fn are_set(types: &[Ty], peels: &Peels<'_>, rows: &[Seq<Value>]) -> bool
    ensures { result ≡ list_all (spec.fits_row (peeled_types peels.now types.now)) (map (map value_of) rows.now) && spec.is_rising compare_rows (map (map value_of) rows.now) }
{
    rows_fit(types, peels, rows) && rows_rise(rows)
}

/// The state of uniqExact: tuples of the types, each above the one before it.
fn is_set(types: &[Ty], peels: &Peels<'_>, tree: &Tree) -> bool
    ensures { result ≡ spec.has_rows (λ rs. list_all (spec.fits_row (peeled_types peels.now types.now)) rs && spec.is_rising compare_rows rs) (tree_of tree.now) }
{
    match tree {
        Tree::Rows(rows) => are_set(types, peels, rows.as_slice()),
        _ => false,
    }
}

#[tactic(auto, using(crate::proofs::Images::image_laws))]
fn are_different(types: &[Ty], peels: &Peels<'_>, rows: &[Seq<Value>]) -> bool
    ensures { result ≡ list_all (spec.fits_row (peeled_types peels.now types.now)) (map (map value_of) rows.now) && spec.are_apart compare_rows (map (map value_of) rows.now) }
{
    rows_fit(types, peels, rows) && rows_are_apart(rows)
}

/// The state under Distinct: tuples of the types, of which none stands twice.
pub(crate) fn is_distinct(types: &[Ty], peels: &Peels<'_>, tree: &Tree) -> bool
    ensures { result ≡ spec.has_rows (λ rs. list_all (spec.fits_row (peeled_types peels.now types.now)) rs && spec.are_apart compare_rows rs) (tree_of tree.now) }
{
    match tree {
        Tree::Rows(rows) => are_different(types, peels, rows.as_slice()),
        _ => false,
    }
}

/// Whether an event meets some of the conditions and no others. Its time fits by its type.
fn event_fits(conditions: usize, event: &Event) -> bool
    ensures { result ≡ spec.is_event conditions (event_of event.now) }
{
    let _time = event.time;
    0 < event.mask && u128::from(event.mask) < power_of_two(conditions)
}

fn all_events_fit(conditions: usize, events: &[Event]) -> bool
    ensures { result ≡ list_all (λ e. spec.is_event conditions (event_of e)) events.now }
{
    for i in 0..events.len() {
        if !event_fits(conditions, &events[i]) {
            return false;
        }
    }
    true
}

#[tactic(auto, using(crate::proofs::Images::image_laws))]
fn are_by_time(conditions: usize, events: &[Event]) -> bool
    ensures { result ≡ list_all (spec.is_event conditions) (map event_of events.now) && spec.is_not_falling by_time (map event_of events.now) }
{
    all_events_fit(conditions, events) && events_stand_by_time(events)
}

/// The state of the functions over events: none, or events by time that meet some of the conditions.
fn are_events(conditions: usize, tree: &Tree) -> bool
    ensures { result ≡ spec.are_events conditions (tree_of tree.now) }
{
    match tree {
        Tree::Empty => true,
        Tree::Events(events) => are_by_time(conditions, events.as_slice()),
        _ => false,
    }
}

/// Whether the tree is one of the function.
pub(crate) fn leaf_tree_fits(leaf: &Leaf, types: &[Ty], peels: &Peels<'_>, tree: &Tree) -> bool
    ensures { result ≡ spec.is_leaf_tree (leaf_of leaf.now) (peeled_types peels.now types.now) (tree_of tree.now) }
{
    let text = Ty::Str;
    let first = first_type(types, peels, &text);
    match leaf {
        Leaf::Count => is_none(tree) || is_word(tree, 0, 18446744073709551615),
        Leaf::Sum => is_none(tree) || is_sum(is_signed(first), tree),
        Leaf::Min | Leaf::Max => is_best(bare(first), tree),
        Leaf::ArgMin | Leaf::ArgMax => is_best_pair(types, peels, tree),
        Leaf::BitAnd | Leaf::BitOr | Leaf::BitXor => {
            is_none(tree) || is_number_of(bare(first), tree)
        }
        Leaf::GroupArray(most) => is_group(bare(first), most, tree),
        Leaf::UniqExact => is_set(types, peels, tree),
        Leaf::QuantileExact(_) => is_in_order(bare(first), tree),
        Leaf::WindowFunnel(_, _) | Leaf::SequenceMatch(_) => {
            are_events(types.len().saturating_sub(1), tree)
        }
        Leaf::Retention => is_none(tree) || is_of_bits(tree, types.len()),
    }
}
