//! The types of the arguments at a link of a chain, found without memory: the types of the call are lent, and
//! the steps that lead inward from them stand in a list on the stack.
ghost use Rattle.std.specs.Prelude.{◌≡◌, get_or, map};
ghost use Rattle.agg_terms.specs.Lists as lists;
ghost use Rattle.agg_terms.specs.Types as spec;
ghost use Rattle.agg_values.specs.Peels.{peeled, peeled_types};
ghost use Rattle.value_types.specs.Folds.{ty_of};

use value_types::{Ty, element, map_item};

/// How the types at a link come from those of the call. The steps further out lie behind the reference.
#[derive(Clone, Copy)]
pub enum Peels<'a> {
    /// The types as they are.
    Whole,
    /// The types of the elements of arrays.
    Element(&'a Peels<'a>),
    /// The types of the values of maps.
    Item(&'a Peels<'a>),
}

/// The type of an argument at a link.
pub fn peel<'t>(peels: &Peels<'_>, ty: &'t Ty) -> &'t Ty
    ensures { ty_of result.now ≡ peeled peels.now (ty_of ty.now) }
{
    match peels {
        Peels::Whole => ty,
        Peels::Element(outer) => element(peel(outer, ty)),
        Peels::Item(outer) => map_item(peel(outer, ty)),
    }
}

/// The type of the first argument, or the other type where there is none.
pub fn first_type<'t>(types: &'t [Ty], peels: &Peels<'_>, other: &'t Ty) -> &'t Ty
    ensures { ty_of result.now ≡ get_or (peeled_types peels.now types.now) 0 (ty_of other.now) }
{
    match types {
        [ty, ..] => peel(peels, ty),
        [] => other,
    }
}

/// All types but the last.
pub fn front(types: &[Ty]) -> &[Ty]
    ensures { result.now ≡ lists.front types.now }
{
    match types.split_last() {
        Some((_, front)) => front,
        None => types,
    }
}

/// The types that a state was made over; none where the type is not one of states.
fn made_over(ty: &Ty) -> &[Ty]
    ensures { map ty_of result.now ≡ spec.state_args (ty_of ty.now) }
{
    match ty {
        Ty::State(_, args) => args.as_slice(),
        _ => &[],
    }
}

/// The types that the state was made over, where the first argument is one.
pub fn state_args<'t>(types: &'t [Ty], peels: &Peels<'_>) -> &'t [Ty]
    ensures { map ty_of result.now ≡ spec.state_args (spec.first_type (peeled_types peels.now types.now)) }
{
    match types {
        [ty, ..] => made_over(peel(peels, ty)),
        [] => types,
    }
}

/// How many places Resample has.
pub fn intervals(start: i64, end: i64, step: u64) -> u128
    ensures { result ≡ spec.intervals start end step }
{
    if step == 0 {
        return 0;
    }
    (u128::from(end.abs_diff(start)) + u128::from(step - 1)) / u128::from(step)
}
