//! The order of state trees. No answer that a user sees turns on it; it makes the order of values total.
ghost use Rattle.std.specs.Prelude.{◌≡◌, map};
ghost use Rattle.std.specs.Ordering.{nat_cmp};
ghost use Rattle.std.specs.Cmp.Lexicographic.{slice_cmp};
ghost use Rattle.agg_terms.specs.Order as terms;
ghost use Rattle.value_types.specs.Folds.{event_of, tree_of};
ghost use Rattle.agg_values.specs.proving.Comparing.{keyed_cmp, tree_cmp, value_cmp};

use crate::order::{compare, compare_values};
use std::cmp::Ordering;
use value_types::{Event, KeyedTree, Seq, Tree, Value};

/// The place of a tree's kind among the kinds.
fn tree_rank(tree: &Tree) -> u8
    ensures { result ≡ terms.tree_rank (tree_of tree.now) }
{
    match tree {
        Tree::Empty => 0,
        Tree::Word(_) => 1,
        Tree::Tuple(_) => 2,
        Tree::Values(_) => 3,
        Tree::Rows(_) => 4,
        Tree::Events(_) => 5,
        Tree::Slots(_) => 6,
        Tree::Keyed(_) => 7,
    }
}

fn by_kind(a: &Tree, b: &Tree) -> Ordering
    ensures { result ≡ nat_cmp (terms.tree_rank (tree_of a.now)) (terms.tree_rank (tree_of b.now)) }
{
    tree_rank(a).cmp(&tree_rank(b))
}

/// How two trees stand to one another.
#[cycle(compare)]
#[tactic(auto, using(crate::proofs::Compared::tree_kinds))]
pub(crate) fn compare_trees(a: &Tree, b: &Tree) -> Ordering
    ensures { result ≡ terms.compare_trees (tree_of a.now) (tree_of b.now) }
{
    match a {
        Tree::Empty => by_kind(a, b),
        Tree::Word(x) => match b {
            Tree::Word(y) => x.cmp(y),
            _ => by_kind(a, b),
        },
        Tree::Tuple(x) => match b {
            Tree::Tuple(y) => compare_values(x.as_slice(), y.as_slice()),
            _ => by_kind(a, b),
        },
        Tree::Values(x) => match b {
            Tree::Values(y) => compare_values(x.as_slice(), y.as_slice()),
            _ => by_kind(a, b),
        },
        Tree::Rows(x) => match b {
            Tree::Rows(y) => compare_tables(x.as_slice(), y.as_slice()),
            _ => by_kind(a, b),
        },
        Tree::Events(x) => match b {
            Tree::Events(y) => compare_events(x.as_slice(), y.as_slice()),
            _ => by_kind(a, b),
        },
        Tree::Slots(x) => match b {
            Tree::Slots(y) => compare_slots(x.as_slice(), y.as_slice()),
            _ => by_kind(a, b),
        },
        Tree::Keyed(x) => match b {
            Tree::Keyed(y) => compare_keyed(x.as_slice(), y.as_slice()),
            _ => by_kind(a, b),
        },
    }
}

// A loop in a loop, since the proof that the calls end counts the sizes of values and not of rows.
#[cycle(compare)]
fn compare_tables(a: &[Seq<Value>], b: &[Seq<Value>]) -> Ordering
    ensures { result ≡ slice_cmp (slice_cmp value_cmp) a.now b.now }
{
    for i in 0..a.len().min(b.len()) {
        let (left, right) = (a[i].as_slice(), b[i].as_slice());
        for j in 0..left.len().min(right.len()) {
            match compare(&left[j], &right[j]) {
                Ordering::Equal => {}
                other => return other,
            }
        }
        match left.len().cmp(&right.len()) {
            Ordering::Equal => {}
            other => return other,
        }
    }
    a.len().cmp(&b.len())
}

fn compare_events(a: &[Event], b: &[Event]) -> Ordering
    ensures { result ≡ slice_cmp (λ x y. terms.event_cmp (event_of x) (event_of y)) a.now b.now }
{
    for i in 0..a.len().min(b.len()) {
        match a[i].time.cmp(&b[i].time) {
            Ordering::Equal => {}
            other => return other,
        }
        match a[i].mask.cmp(&b[i].mask) {
            Ordering::Equal => {}
            other => return other,
        }
    }
    a.len().cmp(&b.len())
}

#[cycle(compare)]
fn compare_slots(a: &[Tree], b: &[Tree]) -> Ordering
    ensures { result ≡ slice_cmp tree_cmp a.now b.now }
{
    for i in 0..a.len().min(b.len()) {
        match compare_trees(&a[i], &b[i]) {
            Ordering::Equal => {}
            other => return other,
        }
    }
    a.len().cmp(&b.len())
}

#[cycle(compare)]
fn compare_keyed(a: &[KeyedTree], b: &[KeyedTree]) -> Ordering
    ensures { result ≡ slice_cmp keyed_cmp a.now b.now }
{
    for i in 0..a.len().min(b.len()) {
        match compare(&a[i].key, &b[i].key) {
            Ordering::Equal => {}
            other => return other,
        }
        match compare_trees(&a[i].tree, &b[i].tree) {
            Ordering::Equal => {}
            other => return other,
        }
    }
    a.len().cmp(&b.len())
}
