//! A type from its shape, by the shape.
ghost use Rattle.chain_params.specs.Faults.{Gives};
ghost use Rattle.shape_types.specs.Countable.{IsCountable, AreCountable};
ghost use Rattle.shape_types.specs.Types.{type_of_shape, types_of_shapes};
ghost use Rattle.std.specs.Prelude.{map};
ghost use Rattle.type_shapes.specs.Folds.{shape_of};
ghost use Rattle.type_shapes.specs.Shapes.{shapes};
ghost use Rattle.value_types.specs.Folds.{ty_of};

use chain_types::{ChainFault, resolve_state};
use std::alloc::Global;
use type_shapes::TypeShape;
use value_types::{Boxed, Seq, Ty};

/// The type that a written shape stands for (manual: "Data types", "AggregateFunction"). Each state type in it has fewer
/// than 2^32 literals and types.
///
/// # Errors
///
/// The refusal of the state type whose closing bracket stands first among those that are refused, as [`resolve_state`]
/// gives it (the order is this project's own choice). [`ChainFault::OutOfMemory`] where there is no room for the type.
#[cycle(type_of)]
pub fn type_of(alloc: Global, shape: &TypeShape) -> Result<Ty, ChainFault>
    requires { IsCountable (shape_of shape.now) }
    ensures { Gives ty_of result (type_of_shape (shape_of shape.now)) }
{
    match shape {
        TypeShape::U8 => Ok(Ty::U8),
        TypeShape::U16 => Ok(Ty::U16),
        TypeShape::U32 => Ok(Ty::U32),
        TypeShape::U64 => Ok(Ty::U64),
        TypeShape::I8 => Ok(Ty::I8),
        TypeShape::I16 => Ok(Ty::I16),
        TypeShape::I32 => Ok(Ty::I32),
        TypeShape::I64 => Ok(Ty::I64),
        TypeShape::Str => Ok(Ty::Str),
        TypeShape::Arr(item) => Ok(Ty::Arr(Boxed::new(alloc, type_of(alloc, item.get())?)?)),
        TypeShape::Map(key, item) => {
            let key = type_of(alloc, key.get())?;
            let item = type_of(alloc, item.get())?;
            let key = Boxed::new(alloc, key)?;
            Ok(Ty::Map(key, Boxed::new(alloc, item)?))
        }
        TypeShape::Nullable(of) => {
            Ok(Ty::Nullable(Boxed::new(alloc, type_of(alloc, of.get())?)?))
        }
        TypeShape::State(name, literals, types) => {
            let types = types_of(alloc, types.as_slice())?;
            resolve_state(alloc, name.as_slice(), literals.as_slice(), types)
        }
    }
}

/// The types, from left to right.
#[cycle(type_of)]
fn types_of(alloc: Global, written: &[TypeShape]) -> Result<Seq<Ty>, ChainFault>
    requires { AreCountable (shapes (map shape_of written.now)) }
    ensures { Gives (map ty_of) result (types_of_shapes (shapes (map shape_of written.now))) }
{
    let mut types = Seq::new(alloc);
    for shape in written {
        types.push(type_of(alloc, shape)?)?;
    }
    Ok(types)
}
