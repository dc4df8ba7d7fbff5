//! Which state trees a function with suffixes has, found without memory.
ghost use Rattle.std.specs.Prelude.{◌≡◌, ◌&&◌, map, length, nat_eq};
ghost use Rattle.std.specs.List.{list_all};
ghost use Rattle.agg_terms.specs.Fitting as spec;
ghost use Rattle.agg_terms.specs.Order.{compare};
ghost use Rattle.agg_terms.specs.Types as terms;
ghost use Rattle.agg_values.specs.Peels.{peeled_types};
ghost use Rattle.value_types.specs.Folds.{chain_of, entry_of, tree_of, ty_of, value_of};

use crate::in_order::keys_rise;
use crate::leaf_trees::{is_distinct, leaf_tree_fits};
use crate::links::{Peels, first_type, front, intervals, state_args};
use crate::plain_fits::plain_fits;
use value_types::{Chain, KeyedTree, Tree, Ty, map_key};

fn all_keys_fit(ty: &Ty, entries: &[KeyedTree]) -> bool
    ensures { result ≡ list_all (λ e. spec.fits_plain (ty_of ty.now) (entry_of e).0) entries.now }
{
    for i in 0..entries.len() {
        if !plain_fits(ty, &entries[i].key) {
            return false;
        }
    }
    true
}

#[tactic(auto, using(crate::proofs::Images::image_laws))]
fn are_keys(ty: &Ty, entries: &[KeyedTree]) -> bool
    ensures { result ≡ list_all (λ e. spec.fits_plain (ty_of ty.now) e.0) (map entry_of entries.now)
        && spec.is_rising compare (map (λ e. e.0) (map entry_of entries.now)) }
{
    all_keys_fit(ty, entries) && keys_rise(entries)
}

/// Whether the tree has keys of the type, each above the one before it.
fn has_keys(ty: &Ty, tree: &Tree) -> bool
    ensures { result ≡ spec.has_keyed (λ es. list_all (λ e. spec.fits_plain (ty_of ty.now) e.0) es
        && spec.is_rising compare (map (λ e. e.0) es)) (tree_of tree.now) }
{
    match tree {
        Tree::Keyed(entries) => are_keys(ty, entries.as_slice()),
        _ => false,
    }
}

/// Whether the tree has keys of the type that the keys of the first argument have.
fn has_keys_of(types: &[Ty], peels: &Peels<'_>, tree: &Tree) -> bool
    ensures { result ≡ spec.has_keyed (λ es. list_all (λ e. spec.fits_plain (terms.key_type (terms.first_type (peeled_types peels.now types.now))) e.0) es
        && spec.is_rising compare (map (λ e. e.0) es)) (tree_of tree.now) }
{
    let text = Ty::Str;
    has_keys(map_key(first_type(types, peels, &text)), tree)
}

/// Whether the tree has this many places.
fn has_places(count: u128, tree: &Tree) -> bool
    ensures { result ≡ spec.has_slots (λ slots. nat_eq (length slots) count) (tree_of tree.now) }
{
    match tree {
        Tree::Slots(slots) => slots.len() as u128 == count,
        _ => false,
    }
}

/// Whether the tree is one of the chain, at a link where the types of the call are seen through the peels.
#[cycle(trees)]
#[tactic(auto, using(crate::proofs::TreeLinks::link_laws))]
pub(crate) fn tree_fits(chain: &Chain, types: &[Ty], peels: &Peels<'_>, tree: &Tree) -> bool
    ensures { result ≡ spec.is_tree (chain_of chain.now) (peeled_types peels.now types.now) (tree_of tree.now) }
{
    match chain {
        Chain::Leaf(leaf) => leaf_tree_fits(leaf, types, peels, tree),
        Chain::If(of) => tree_fits(of.get(), front(types), peels, tree),
        Chain::Array(of) => tree_fits(of.get(), types, &Peels::Element(&*peels), tree),
        Chain::MapOf(of) => {
            has_keys_of(types, peels, tree)
                && trees_at_keys_fit(of.get(), types, &Peels::Item(&*peels), tree)
        }
        Chain::ForEach(of) => slots_fit(of.get(), types, &Peels::Element(&*peels), tree),
        Chain::OrNull(of) => tree_fits(of.get(), types, peels, tree),
        Chain::OrDefault(of) => tree_fits(of.get(), types, peels, tree),
        Chain::Distinct(_) => is_distinct(types, peels, tree),
        Chain::Resample(start, end, step, of) => {
            has_places(intervals(*start, *end, *step), tree)
                && slots_fit(of.get(), front(types), peels, tree)
        }
        Chain::State(of) => tree_fits(of.get(), types, peels, tree),
        Chain::Merge(of) => tree_fits(of.get(), state_args(types, peels), &Peels::Whole, tree),
    }
}

#[cycle(trees)]
fn slots_fit(of: &Chain, types: &[Ty], peels: &Peels<'_>, tree: &Tree) -> bool
    ensures { result ≡ spec.has_slots (list_all (spec.is_tree (chain_of of.now) (peeled_types peels.now types.now))) (tree_of tree.now) }
{
    match tree {
        Tree::Slots(slots) => all_slots_fit(of, types, peels, slots.as_slice()),
        _ => false,
    }
}

#[cycle(trees)]
fn all_slots_fit(of: &Chain, types: &[Ty], peels: &Peels<'_>, slots: &[Tree]) -> bool
    ensures { result ≡ list_all (λ t. spec.is_tree (chain_of of.now) (peeled_types peels.now types.now) (tree_of t)) slots.now }
{
    for i in 0..slots.len() {
        if !tree_fits(of, types, peels, &slots[i]) {
            return false;
        }
    }
    true
}

#[cycle(trees)]
fn trees_at_keys_fit(of: &Chain, types: &[Ty], peels: &Peels<'_>, tree: &Tree) -> bool
    ensures { result ≡ spec.has_keyed (list_all (λ e. spec.is_tree (chain_of of.now) (peeled_types peels.now types.now) e.1)) (tree_of tree.now) }
{
    match tree {
        Tree::Keyed(entries) => all_entries_fit(of, types, peels, entries.as_slice()),
        _ => false,
    }
}

#[cycle(trees)]
fn all_entries_fit(of: &Chain, types: &[Ty], peels: &Peels<'_>, entries: &[KeyedTree]) -> bool
    ensures { result ≡ list_all (λ e. spec.is_tree (chain_of of.now) (peeled_types peels.now types.now) (entry_of e).1) entries.now }
{
    for i in 0..entries.len() {
        if !tree_fits(of, types, peels, &entries[i].tree) {
            return false;
        }
    }
    true
}
