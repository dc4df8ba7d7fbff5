//! The types that results have: numbers and String.
ghost use Rattle.std.specs.Prelude.{◌≡◌};
ghost use Rattle.agg_terms.specs.Types.{bare};
ghost use Rattle.agg_meaning.specs.Results.{default};
ghost use Rattle.value_types.specs.Folds.{ty_of, value_of};
ghost use Rattle.best_leaves.specs.Made.{kind_ty};
ghost use Rattle.best_leaves.specs.Served.{IsSingle};

use std::alloc::Global;
use value_types::{Seq, Ty, Value};

/// A type of numbers, or String.
#[derive(Clone, Copy)]
pub enum Kind {
    U8,
    U16,
    U32,
    U64,
    I8,
    I16,
    I32,
    I64,
    Text,
}

/// The kind that a type is, taken without Nullable.
pub fn kind_of(ty: &Ty) -> Kind
    requires { IsSingle (bare (ty_of ty.now)) }
    ensures { kind_ty result ≡ bare (ty_of ty.now) }
{
    match value_types::bare(ty) {
        Ty::U8 => Kind::U8,
        Ty::U16 => Kind::U16,
        Ty::U32 => Kind::U32,
        Ty::U64 => Kind::U64,
        Ty::I8 => Kind::I8,
        Ty::I16 => Kind::I16,
        Ty::I32 => Kind::I32,
        Ty::I64 => Kind::I64,
        _ => Kind::Text,
    }
}

/// The default of the kind: 0, or the empty string. Takes no memory.
#[tactic(auto, using(value_types::proofs::FoldLaws::value_laws))]
pub fn default_of(alloc: Global, kind: Kind) -> Value
    ensures { value_of result ≡ default (kind_ty kind) }
{
    match kind {
        Kind::Text => Value::Bytes(Seq::new(alloc)),
        _ => Value::Num(0),
    }
}
