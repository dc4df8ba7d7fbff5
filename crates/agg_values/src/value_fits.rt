//! Whether a value is one of a type. Under a state the tree is asked; everything else goes as for a type
//! without one. Nothing here takes memory.
ghost use Rattle.std.specs.Prelude.{◌≡◌, ◌↔◌, true, map};
ghost use Rattle.std.specs.List.{list_all};
ghost use Rattle.agg_terms.specs.Fitting as spec;
ghost use Rattle.agg_terms.specs.Trees.{IsValue};
ghost use Rattle.value_types.specs.Folds.{chain_of, ty_of, value_of};

use crate::links::Peels;
use crate::plain_fits::{is_null, keys_fit, plain_fits};
use crate::trees::tree_fits;
use value_types::{Chain, Ty, Value};

/// Whether the value is one of the type: a number within its width, a string, a list or a map of values of
/// the type, NULL under Nullable, or a cell that holds a state tree of the chain. True exactly where it is.
pub fn fits(value: &Value, ty: &Ty) -> bool
    ensures test { result ≡ spec.fits_value (ty_of ty.now) (value_of value.now) }
    ensures exact { (result ≡ true) ↔ IsValue (ty_of ty.now) (value_of value.now) }
{
    type_fits(ty, value)
}

#[cycle(fits)]
#[tactic(auto, using(crate::proofs::FitsKinds::fits_laws))]
fn type_fits(ty: &Ty, value: &Value) -> bool
    ensures { result ≡ spec.fits_value (ty_of ty.now) (value_of value.now) }
{
    match ty {
        Ty::U8 | Ty::U16 | Ty::U32 | Ty::U64 => plain_fits(ty, value),
        Ty::I8 | Ty::I16 | Ty::I32 | Ty::I64 => plain_fits(ty, value),
        Ty::Str => plain_fits(ty, value),
        Ty::Arr(item) => items_fit(item.get(), value),
        Ty::Map(key, item) => keys_fit(key.get(), value) && entries_fit(item.get(), value),
        Ty::Nullable(of) => is_null(value) || type_fits(of.get(), value),
        Ty::State(chain, args) => cell_fits(chain.get(), args.as_slice(), value),
    }
}

/// Whether the value is a cell that holds a tree of the chain over arguments of these types.
fn cell_fits(chain: &Chain, args: &[Ty], value: &Value) -> bool
    ensures { result ≡ spec.has_cell (spec.is_tree (chain_of chain.now) (map ty_of args.now)) (value_of value.now) }
{
    match value {
        Value::Cell(tree) => tree_fits(chain, args, &Peels::Whole, tree),
        _ => false,
    }
}

#[cycle(fits)]
fn items_fit(item: &Ty, value: &Value) -> bool
    ensures { result ≡ spec.has_items (list_all (spec.fits_value (ty_of item.now))) (value_of value.now) }
{
    match value {
        Value::List(items) => all_fit(item, items.as_slice()),
        _ => false,
    }
}

#[cycle(fits)]
fn entries_fit(item: &Ty, value: &Value) -> bool
    ensures { result ≡ spec.has_entries (list_all (λ e. spec.fits_value (ty_of item.now) e.1)) (value_of value.now) }
{
    match value {
        Value::Pairs(pairs) => all_entries_fit(item, pairs.as_slice()),
        _ => false,
    }
}

#[cycle(fits)]
fn all_fit(ty: &Ty, items: &[Value]) -> bool
    ensures { result ≡ list_all (λ v. spec.fits_value (ty_of ty.now) (value_of v)) items.now }
{
    for i in 0..items.len() {
        if !type_fits(ty, &items[i]) {
            return false;
        }
    }
    true
}

#[cycle(fits)]
fn all_entries_fit(ty: &Ty, pairs: &[(Value, Value)]) -> bool
    ensures { result ≡ list_all (λ e. spec.fits_value (ty_of ty.now) (value_of e.1)) pairs.now }
{
    for i in 0..pairs.len() {
        if !type_fits(ty, &pairs[i].1) {
            return false;
        }
    }
    true
}
