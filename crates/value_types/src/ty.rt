//! The types of columns, arguments and results.
use crate::Chain;
use value_lists::{Boxed, Seq};

/// A type.
#[derive(Debug, Drop)]
pub enum Ty {
    U8,
    U16,
    U32,
    U64,
    I8,
    I16,
    I32,
    I64,
    Str,
    Arr(Boxed<Ty>),
    /// The type of the keys and that of the values.
    Map(Boxed<Ty>, Boxed<Ty>),
    Nullable(Boxed<Ty>),
    /// The states of a chain over arguments of these types.
    State(Boxed<Chain>, Seq<Ty>),
}
