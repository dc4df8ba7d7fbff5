//! Types as they are written.

ghost use Rattle.std.specs.Prelude.{◌≡◌};

use thiserror::Error;
use value_lists::{Boxed, Bytes, Seq};
use value_types::Literal;

/// A type as it is written: a state type has the name, the literals and the types that stand in its brackets.
#[derive(Debug, Drop)]
pub enum TypeShape {
    U8,
    U16,
    U32,
    U64,
    I8,
    I16,
    I32,
    I64,
    Str,
    Arr(Boxed<TypeShape>),
    /// The type of the keys and that of the values.
    Map(Boxed<TypeShape>, Boxed<TypeShape>),
    Nullable(Boxed<TypeShape>),
    State(Bytes, Seq<Literal>, Seq<TypeShape>),
}

/// Why a text is that of no type.
#[derive(Debug, Drop, Error)]
pub enum ShapeFault {
    /// The place of the first token that no type goes on with, in bytes from 0, or the text's length where it ends too
    /// early.
    #[error("syntax at {0}")]
    Syntax(u64),
    /// The types stand in one another more than sixteen deep.
    #[error("limit depth")]
    Depth,
    #[error("out of memory")]
    OutOfMemory,
}

impl From<value_lists::OutOfMemory> for ShapeFault {
    ghost use Rattle.type_shapes.specs.declared.shape.ShapeFault.{ShapeFault};

    ghost from_gives = { λ _ fault. fault ≡ ShapeFault.OutOfMemory };

    fn from(_error: value_lists::OutOfMemory) -> Self {
        ShapeFault::OutOfMemory
    }
}
