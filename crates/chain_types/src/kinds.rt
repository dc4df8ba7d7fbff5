//! Kinds of types that a function or a suffix asks for.
ghost use Rattle.agg_typing.specs.Kinds as rules;
ghost use Rattle.chain_types.specs.proving.Args.{has};
ghost use Rattle.std.specs.Prelude.{◌≡◌, ◌&&◌};
ghost use Rattle.value_types.specs.Folds.{ty_of};

use value_types::Ty;

/// A kind of types. The first four have Nullable of their types too.
#[derive(Clone, Copy, Debug, PartialEq, Eq)]
pub enum Kind {
    /// UInt8 to UInt64 and Int8 to Int64.
    Number,
    NumberOrText,
    /// UInt8 to UInt64.
    Time,
    /// UInt8.
    Condition,
    Array,
    Map,
    /// No state at any depth.
    Stateless,
}

fn is_number(ty: &Ty) -> bool
    ensures { result ≡ rules.is_number (ty_of ty.now) }
{
    match ty {
        Ty::U8 | Ty::U16 | Ty::U32 | Ty::U64 | Ty::I8 | Ty::I16 | Ty::I32 | Ty::I64 => true,
        Ty::Nullable(of) => is_number(of.get()),
        _ => false,
    }
}

fn is_number_or_text(ty: &Ty) -> bool
    ensures { result ≡ rules.is_number_or_text (ty_of ty.now) }
{
    match ty {
        Ty::U8 | Ty::U16 | Ty::U32 | Ty::U64 | Ty::I8 | Ty::I16 | Ty::I32 | Ty::I64 | Ty::Str => {
            true
        }
        Ty::Nullable(of) => is_number_or_text(of.get()),
        _ => false,
    }
}

fn is_time(ty: &Ty) -> bool
    ensures { result ≡ rules.is_time (ty_of ty.now) }
{
    match ty {
        Ty::U8 | Ty::U16 | Ty::U32 | Ty::U64 => true,
        Ty::Nullable(of) => is_time(of.get()),
        _ => false,
    }
}

fn is_condition(ty: &Ty) -> bool
    ensures { result ≡ rules.is_condition (ty_of ty.now) }
{
    match ty {
        Ty::U8 => true,
        Ty::Nullable(of) => is_condition(of.get()),
        _ => false,
    }
}

fn holds_no_state(ty: &Ty) -> bool
    ensures { result ≡ rules.holds_no_state (ty_of ty.now) }
{
    match ty {
        Ty::Arr(of) | Ty::Nullable(of) => holds_no_state(of.get()),
        Ty::Map(key, of) => holds_no_state(key.get()) && holds_no_state(of.get()),
        Ty::State(_, _) => false,
        _ => true,
    }
}

impl Kind {
    /// Whether a type is of this kind.
    pub fn has(self, ty: &Ty) -> bool
        ensures { result ≡ has self (ty_of ty.now) }
    {
        match self {
            Kind::Number => is_number(ty),
            Kind::NumberOrText => is_number_or_text(ty),
            Kind::Time => is_time(ty),
            Kind::Condition => is_condition(ty),
            Kind::Array => matches!(ty, Ty::Arr(_)),
            Kind::Map => matches!(ty, Ty::Map(_, _)),
            Kind::Stateless => holds_no_state(ty),
        }
    }
}
