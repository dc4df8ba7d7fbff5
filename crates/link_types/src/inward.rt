//! The types that a link hands inward.
ghost use Rattle.std.specs.Prelude.{◌≡◌, IfOk, map};
ghost use Rattle.agg_terms.specs.Lists as lists;
ghost use Rattle.agg_terms.specs.Types as types_in;
ghost use Rattle.value_types.specs.Folds.{chain_of, ty_of};
ghost use Rattle.link_types.specs.Links.{inner_types};

use std::alloc::Global;
use value_types::{Chain, OutOfMemory, Seq, Ty, copy_types, element, map_item};

/// All types but the last.
#[tactic(auto, using(crate::proofs::Fronts::front_laws))]
pub fn front_types(types: &[Ty]) -> &[Ty]
    ensures { map ty_of result.now ≡ lists.front (map ty_of types.now) }
{
    match types {
        [] => types,
        [inner @ .., _] => inner,
    }
}

/// The types of the arrays' elements.
pub fn element_types(alloc: Global, types: &[Ty]) -> Result<Seq<Ty>, OutOfMemory>
    ensures { IfOk result (λ inner. map ty_of inner ≡ map types_in.element (map ty_of types.now)) }
{
    let mut inner = Seq::new(alloc);
    for ty in types {
        inner.push(element(ty).copy(alloc)?)?;
    }
    Ok(inner)
}

/// The types of the maps' values.
pub fn item_types(alloc: Global, types: &[Ty]) -> Result<Seq<Ty>, OutOfMemory>
    ensures { IfOk result (λ inner. map ty_of inner ≡ map types_in.map_part (map ty_of types.now)) }
{
    let mut inner = Seq::new(alloc);
    for ty in types {
        inner.push(map_item(ty).copy(alloc)?)?;
    }
    Ok(inner)
}

/// The types that a state was made over; none where the type is not one of states.
#[tactic(auto, using(crate::proofs::Fronts::state_laws))]
fn made_over(ty: &Ty) -> &[Ty]
    ensures { map ty_of result.now ≡ types_in.state_args (ty_of ty.now) }
{
    match ty {
        Ty::State(_, args) => args.as_slice(),
        _ => &[],
    }
}

/// The types that the state was made over, where the first argument is one.
pub fn state_types(types: &[Ty]) -> &[Ty]
    ensures { map ty_of result.now ≡ types_in.state_args (types_in.first_type (map ty_of types.now)) }
{
    match types {
        [] => types,
        [first, ..] => made_over(first),
    }
}

/// The types at the next link inward.
///
/// # Errors
///
/// [`OutOfMemory`] where there is no room for them.
#[tactic(auto, using(value_types::proofs::FoldLaws::chain_laws))]
pub fn inward_types(alloc: Global, chain: &Chain, types: &[Ty]) -> Result<Seq<Ty>, OutOfMemory>
    ensures { IfOk result (λ inner. map ty_of inner ≡ types_in.inward (chain_of chain.now) (map ty_of types.now)) }
{
    match chain {
        Chain::If(_) => copy_types(alloc, front_types(types)),
        Chain::Resample(_, _, _, _) => copy_types(alloc, front_types(types)),
        Chain::Array(_) => element_types(alloc, types),
        Chain::ForEach(_) => element_types(alloc, types),
        Chain::MapOf(_) => item_types(alloc, types),
        Chain::Merge(_) => copy_types(alloc, state_types(types)),
        Chain::Leaf(_) => copy_types(alloc, types),
        Chain::OrNull(_) => copy_types(alloc, types),
        Chain::OrDefault(_) => copy_types(alloc, types),
        Chain::Distinct(_) => copy_types(alloc, types),
        Chain::State(_) => copy_types(alloc, types),
    }
}

/// The argument types of a chain's function.
///
/// # Errors
///
/// [`OutOfMemory`] where there is no room for them.
#[tactic(auto, using(value_types::proofs::FoldLaws::chain_laws))]
pub fn function_types(alloc: Global, chain: &Chain, types: &[Ty]) -> Result<Seq<Ty>, OutOfMemory>
    ensures { IfOk result (λ inner. map ty_of inner ≡ inner_types (chain_of chain.now) (map ty_of types.now)) }
{
    match chain {
        Chain::Leaf(_) => copy_types(alloc, types),
        Chain::If(of) => function_types(alloc, of.get(), front_types(types)),
        Chain::Resample(_, _, _, of) => function_types(alloc, of.get(), front_types(types)),
        Chain::Array(of) => {
            let inner = element_types(alloc, types)?;
            function_types(alloc, of.get(), inner.as_slice())
        }
        Chain::ForEach(of) => {
            let inner = element_types(alloc, types)?;
            function_types(alloc, of.get(), inner.as_slice())
        }
        Chain::MapOf(of) => {
            let inner = item_types(alloc, types)?;
            function_types(alloc, of.get(), inner.as_slice())
        }
        Chain::OrNull(of) => function_types(alloc, of.get(), types),
        Chain::OrDefault(of) => function_types(alloc, of.get(), types),
        Chain::Distinct(of) => function_types(alloc, of.get(), types),
        Chain::State(of) => function_types(alloc, of.get(), types),
        Chain::Merge(of) => function_types(alloc, of.get(), state_types(types)),
    }
}
