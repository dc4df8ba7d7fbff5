//! The types that reach a link of a chain, lent from the call's own.
ghost use Rattle.std.specs.Prelude.{◌≡◌, map, IfOk};
ghost use Rattle.agg_terms.specs.Lists as lists;
ghost use Rattle.agg_terms.specs.Types as types;
ghost use Rattle.agg_defs.specs.proving.Reached.{reached_types, part_of};
ghost use Rattle.value_types.specs.Folds.{ty_of};

use std::alloc::Global;
use value_types::{OutOfMemory, Ty, element, map_item};

/// A type that reaches a link.
#[derive(Clone, Copy)]
pub struct Reached<'a> {
    pub ty: &'a Ty,
}

/// What of an argument's type a suffix passes inward.
#[derive(Clone, Copy)]
pub enum Passed {
    Element,
    MapValue,
}

impl Passed {
    fn of<'a>(self, ty: &'a Ty) -> &'a Ty
        ensures { ty_of result.now ≡ part_of self (ty_of ty.now) }
    {
        match self {
            Passed::Element => element(ty),
            Passed::MapValue => map_item(ty),
        }
    }
}

/// All of these types.
pub fn all_reached<'a>(alloc: Global, types: &'a [Ty]) -> Result<Vec<Reached<'a>>, OutOfMemory>
    ensures { IfOk result (λ all. reached_types all.items ≡ map ty_of types.now) }
{
    let mut all = Vec::new(alloc);
    for ty in types {
        all.push(Reached { ty })?;
    }
    Ok(all)
}

/// All but the last.
pub fn front<'b, 'a>(args: &'b [Reached<'a>]) -> &'b [Reached<'a>]
    ensures { reached_types result.now ≡ lists.front (reached_types args.now) }
{
    match args {
        [] => args,
        [inner @ .., _] => inner,
    }
}

/// The part of each that a suffix passes inward.
pub fn within<'a>(
    alloc: Global,
    passed: Passed,
    args: &[Reached<'a>],
) -> Result<Vec<Reached<'a>>, OutOfMemory>
    ensures { IfOk result (λ all. reached_types all.items ≡ map (part_of passed) (reached_types args.now)) }
{
    let mut all = Vec::new(alloc);
    for arg in args {
        all.push(Reached {
            ty: passed.of(arg.ty),
        })?;
    }
    Ok(all)
}
