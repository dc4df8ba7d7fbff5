//! Which numbers of key columns are negative.
ghost use Rattle.std.specs.Prelude.{◌≡◌, ◌≤◌, ◌^◌, map};
ghost use Rattle.std.specs.List.{list_all};
ghost use Rattle.group_keys.specs.proving.Placed.{first_half, half_of, is_unsigned};
ghost use Rattle.value_types.specs.Folds.{ty_of};

use value_types::Ty;

/// How many numbers of the type are negative.
#[tactic(auto, using(value_types::proofs::FoldLaws::ty_laws))]
fn half_of(ty: &Ty) -> u64
    ensures value { result ≡ half_of (ty_of ty.now) }
    ensures bound { result ≤ 2 ^ 63 }
{
    match ty {
        Ty::I8 => 1 << 7,
        Ty::I16 => 1 << 15,
        Ty::I32 => 1 << 31,
        Ty::I64 => 1 << 63,
        _ => 0,
    }
}

/// The same of the first type.
pub(crate) fn first_half(types: &[Ty]) -> u64
    ensures value { result ≡ first_half (map ty_of types.now) }
    ensures bound { result ≤ 2 ^ 63 }
{
    match types {
        [] => 0,
        [first, ..] => half_of(first),
    }
}

#[tactic(auto, using(value_types::proofs::FoldLaws::ty_laws))]
fn is_unsigned(ty: &Ty) -> bool
    ensures { result ≡ is_unsigned (ty_of ty.now) }
{
    match ty {
        Ty::U8 | Ty::U16 | Ty::U32 | Ty::U64 => true,
        _ => false,
    }
}

/// Whether all are types of unsigned numbers.
pub(crate) fn are_unsigned(types: &[Ty]) -> bool
    ensures { result ≡ list_all is_unsigned (map ty_of types.now) }
{
    for ty in types {
        if !is_unsigned(ty) {
            return false;
        }
    }
    true
}
