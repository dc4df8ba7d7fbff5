//! What a state of quantileExact has to know of its function and its argument type.
ghost use Rattle.std.specs.Prelude.{◌≡◌, true, map};
ghost use Rattle.agg_terms.specs.Chains.{QuantileExact};
ghost use Rattle.agg_terms.specs.Types.{any_null, bare, first_type};
ghost use Rattle.agg_meaning.specs.States.{made_for};
ghost use Rattle.value_types.specs.Folds.{leaf_of, ty_of};
ghost use Rattle.list_leaves.specs.Quantiles.{made_of, number_ty};
ghost use Rattle.list_leaves.specs.Served.{IsNumberType, IsOne, IsQuantile, is_quantile_served};

use column_parts::NumberType;
use value_types::{Leaf, Ty, is_nullable};

/// The level in billionths, the type of the numbers, and whether the result is Nullable.
#[derive(Clone, Copy)]
pub struct Made {
    pub level: u32,
    pub number: NumberType,
    pub nullable: bool,
}

impl Made {
    /// What a state of this function over an argument of this type is made for.
    #[tactic(auto, using(crate::proofs::Serving::quantile_served))]
    pub fn new(leaf: &Leaf, args: &[Ty]) -> Made
        requires { is_quantile_served (leaf_of leaf.now) (map ty_of args.now) ≡ true }
        ensures { made_of result ≡ made_for (leaf_of leaf.now) (map ty_of args.now) }
    {
        Made {
            level: level_in(leaf),
            number: first_number_type(args),
            nullable: any_nullable(args),
        }
    }
}

/// The level of quantileExact.
fn level_in(leaf: &Leaf) -> u32
    requires { IsQuantile (leaf_of leaf.now) }
    ensures { QuantileExact result ≡ leaf_of leaf.now }
{
    match leaf {
        Leaf::QuantileExact(level) => *level,
        _ => unreachable!(),
    }
}

/// The type of numbers that a type is, taken without Nullable.
fn number_type(ty: &Ty) -> NumberType
    requires { IsNumberType (bare (ty_of ty.now)) }
    ensures { number_ty result ≡ bare (ty_of ty.now) }
{
    match value_types::bare(ty) {
        Ty::U8 => NumberType::U8,
        Ty::U16 => NumberType::U16,
        Ty::U32 => NumberType::U32,
        Ty::U64 => NumberType::U64,
        Ty::I8 => NumberType::I8,
        Ty::I16 => NumberType::I16,
        Ty::I32 => NumberType::I32,
        _ => NumberType::I64,
    }
}

/// That of the one argument.
fn first_number_type(args: &[Ty]) -> NumberType
    requires one { IsOne (map ty_of args.now) }
    requires number { IsNumberType (bare (first_type (map ty_of args.now))) }
    ensures { number_ty result ≡ bare (first_type (map ty_of args.now)) }
{
    match args {
        [first, ..] => number_type(first),
        [] => unreachable!(),
    }
}

/// Whether the one argument may be NULL.
fn any_nullable(args: &[Ty]) -> bool
    requires { IsOne (map ty_of args.now) }
    ensures { result ≡ any_null (map ty_of args.now) }
{
    match args {
        [first] => is_nullable(first),
        _ => false,
    }
}
