//! The kinds of fields that are read.
ghost use Rattle.scalar_texts.specs.States.{AllStates};
ghost use Rattle.std.specs.Prelude.{IfOk};
ghost use Rattle.value_types.specs.Folds.{ty_of};

use std::alloc::Global;
use value_types::{Boxed, OutOfMemory, Ty};

#[derive(Clone, Copy, Debug, PartialEq, Eq)]
pub enum Kind {
    /// Of 1 to 20 digits.
    UInt64,
    Int8,
    /// 16 letters.
    Plain,
    /// The same, with a line feed in place of every fourth.
    Escaped,
    /// An `Array(UInt32)` of 100 elements.
    Array,
}

impl Kind {
    pub const ALL: [Kind; 5] = [
        Kind::UInt64,
        Kind::Int8,
        Kind::Plain,
        Kind::Escaped,
        Kind::Array,
    ];

    pub fn name(&self) -> &'static str {
        match self {
            Kind::UInt64 => "UInt64",
            Kind::Int8 => "Int8",
            Kind::Plain => "String",
            Kind::Escaped => "escapes",
            Kind::Array => "Array",
        }
    }

    /// How often each field is read.
    pub fn turns(&self) -> u32 {
        match self {
            Kind::Array => 100,
            _ => 5000,
        }
    }

    #[tactic(auto, using(value_types::proofs::FoldLaws::ty_laws))]
    pub fn ty(&self, alloc: Global) -> Result<Ty, OutOfMemory>
        ensures { IfOk result (λ ty. AllStates (λ _. Unit {0}) (ty_of ty)) }
    {
        match self {
            Kind::UInt64 => Ok(Ty::U64),
            Kind::Int8 => Ok(Ty::I8),
            Kind::Plain | Kind::Escaped => Ok(Ty::Str),
            Kind::Array => Ok(Ty::Arr(Boxed::new(alloc, Ty::U32)?)),
        }
    }
}
