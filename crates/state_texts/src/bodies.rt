//! The states of functions with suffixes as bytes.
ghost use Rattle.std.specs.Prelude.{◌≡◌, ◌++◌, flat_map, map, IfOk, OnOk};
ghost use Rattle.agg_terms.specs.Values as family;
ghost use Rattle.agg_values.specs.Peels.{peeled_types};
ghost use Rattle.value_types.specs.Folds.{chain_of, entry_of, tree_of, ty_of};
ghost use Rattle.state_texts.specs.Texts.{body, text};
ghost use Rattle.state_texts.specs.proving.Writing.{entry_text};

use crate::Version;
use crate::leaves::{put_leaf, rows_in};
use crate::numbers::put_count;
use crate::values::{put_rows, put_value};
use agg_values::{Peels, first_type, front, state_args};
use std::alloc::Global;
use value_types::{Bytes, Chain, KeyedTree, OutOfMemory, Tree, Ty, map_key};

#[tactic(auto, using(crate::proofs::Written::tree_kinds))]
fn slots_in(tree: &Tree) -> &[Tree]
    ensures { map tree_of result.now ≡ family.slots_of (tree_of tree.now) }
{
    match tree {
        Tree::Slots(slots) => slots.as_slice(),
        _ => &[],
    }
}

#[tactic(auto, using(crate::proofs::Written::tree_kinds))]
fn keyed_in(tree: &Tree) -> &[KeyedTree]
    ensures { map entry_of result.now ≡ family.keyed_of (tree_of tree.now) }
{
    match tree {
        Tree::Keyed(entries) => entries.as_slice(),
        _ => &[],
    }
}

/// The state of a chain, at a link where the types of the call are seen through the peels.
#[cycle(write)]
#[tactic(auto, using(crate::proofs::WrittenLinks::link_laws))]
fn put_body(
    chain: &Chain,
    types: &[Ty],
    peels: &Peels<'_>,
    version: Version,
    tree: &Tree,
    out: &mut Vec<u8>,
) -> Result<(), OutOfMemory>
    ensures { OnOk result (out.new.items ≡ out.old.items ++ body version (chain_of chain.now) (peeled_types peels.now types.now) (tree_of tree.now)) }
{
    match chain {
        Chain::Leaf(leaf) => put_leaf(leaf, types, peels, version, tree, out),
        Chain::If(of) => put_body(of.get(), front(types), peels, version, tree, out),
        Chain::Array(of) => put_body(
            of.get(),
            types,
            &Peels::Element(&*peels),
            version,
            tree,
            out,
        ),
        Chain::MapOf(of) => {
            let text = Ty::Str;
            let key = map_key(first_type(types, peels, &text));
            let entries = keyed_in(tree);
            put_count(entries.len() as u64, out)?;
            put_entries(
                of.get(),
                key,
                types,
                &Peels::Item(&*peels),
                version,
                entries,
                out,
            )
        }
        Chain::ForEach(of) => {
            let slots = slots_in(tree);
            put_count(slots.len() as u64, out)?;
            put_slots(
                of.get(),
                types,
                &Peels::Element(&*peels),
                version,
                slots,
                out,
            )
        }
        Chain::OrNull(of) => put_body(of.get(), types, peels, version, tree, out),
        Chain::OrDefault(of) => put_body(of.get(), types, peels, version, tree, out),
        Chain::Distinct(_) => put_rows(types, peels, rows_in(tree), out),
        Chain::Resample(_, _, _, of) => {
            put_slots(of.get(), front(types), peels, version, slots_in(tree), out)
        }
        Chain::State(of) => put_body(of.get(), types, peels, version, tree, out),
        Chain::Merge(of) => put_body(
            of.get(),
            state_args(types, peels),
            &Peels::Whole,
            version,
            tree,
            out,
        ),
    }
}

/// A state for each place.
#[cycle(write)]
fn put_slots(
    chain: &Chain,
    types: &[Ty],
    peels: &Peels<'_>,
    version: Version,
    slots: &[Tree],
    out: &mut Vec<u8>,
) -> Result<(), OutOfMemory>
    ensures { OnOk result (out.new.items ≡ out.old.items ++ flat_map (body version (chain_of chain.now) (peeled_types peels.now types.now)) (map tree_of slots.now)) }
{
    for slot in slots {
        put_body(chain, types, peels, version, slot, out)?;
    }
    Ok(())
}

/// Keys with their states.
#[cycle(write)]
fn put_entries(
    chain: &Chain,
    key: &Ty,
    types: &[Ty],
    peels: &Peels<'_>,
    version: Version,
    entries: &[KeyedTree],
    out: &mut Vec<u8>,
) -> Result<(), OutOfMemory>
    ensures { OnOk result (out.new.items ≡ out.old.items ++ flat_map (entry_text (ty_of key.now) (body version (chain_of chain.now) (peeled_types peels.now types.now))) (map entry_of entries.now)) }
{
    for entry in entries {
        put_entry(chain, key, types, peels, version, entry, out)?;
    }
    Ok(())
}

/// A key and the state at it.
#[cycle(write)]
fn put_entry(
    chain: &Chain,
    key: &Ty,
    types: &[Ty],
    peels: &Peels<'_>,
    version: Version,
    entry: &KeyedTree,
    out: &mut Vec<u8>,
) -> Result<(), OutOfMemory>
    ensures { OnOk result (out.new.items ≡ out.old.items ++ entry_text (ty_of key.now) (body version (chain_of chain.now) (peeled_types peels.now types.now)) (entry_of entry.now)) }
{
    put_value(key, &entry.key, out)?;
    put_body(chain, types, peels, version, &entry.tree, out)
}

/// The text of a tree of the chain over arguments of these types.
///
/// # Errors
///
/// [`OutOfMemory`] where there is no room for it.
pub fn write_text(
    alloc: Global,
    version: Version,
    chain: &Chain,
    types: &[Ty],
    tree: &Tree,
) -> Result<Bytes, OutOfMemory>
    ensures { IfOk result (λ bytes. bytes ≡ text version (chain_of chain.now) (map ty_of types.now) (tree_of tree.now)) }
{
    let mut out = Vec::with_capacity(alloc, 32)?;
    out.push(version.byte())?;
    put_body(chain, types, &Peels::Whole, version, tree, &mut out)?;
    Ok(Bytes::from_vec(out))
}
