//! What a state has to know of its function and its argument types.
ghost use Rattle.std.specs.Prelude.{◌≡◌, ◌≤◌, true, map};
ghost use Rattle.agg_terms.specs.Types.{any_null, bare};
ghost use Rattle.agg_meaning.specs.Results.{leaf_result};
ghost use Rattle.agg_meaning.specs.States.{made_for};
ghost use Rattle.value_types.specs.Folds.{leaf_of, ty_of};
ghost use Rattle.int_leaves.specs.Parts.{function_leaf, made_of, number_ty};
ghost use Rattle.int_leaves.specs.Served.{IfOfNumbers, IsServed, is_served};
ghost use Rattle.int_leaves.specs.Words.{KeepsWord};

use crate::function::{Function, function_of};
use crate::number::{Number, number_of};
use value_types::{Leaf, Ty, is_nullable, is_signed};

/// The function, the type of its numbers, whether its result is Nullable, and how many arguments it has.
#[derive(Clone, Copy)]
pub struct Made {
    pub function: Function,
    pub number: Number,
    pub nullable: bool,
    pub arguments: u32,
}

impl Made {
    /// What a state of this function over arguments of these types is made for.
    #[tactic(auto, using(crate::proofs::Serving::served, crate::proofs::Parts::made_is, crate::proofs::Parts::keeps_made))]
    pub fn new(leaf: &Leaf, args: &[Ty]) -> Made
        requires { is_served (leaf_of leaf.now) (map ty_of args.now) ≡ true }
        ensures made { made_of result ≡ made_for (leaf_of leaf.now) (map ty_of args.now) }
        ensures keeps { KeepsWord (function_leaf result.function) (number_ty result.number) }
        ensures few { result.arguments ≤ 32 }
    {
        Made {
            function: function_of(leaf),
            number: numbers_of(leaf, args),
            nullable: any_nullable(args),
            arguments: args.len() as u32,
        }
    }
}

/// Whether some argument may be NULL.
fn any_nullable(args: &[Ty]) -> bool
    ensures { result ≡ any_null (map ty_of args.now) }
{
    match args {
        [] => false,
        [first, rest @ ..] => {
            if is_nullable(first) {
                true
            } else {
                any_nullable(rest)
            }
        }
    }
}

/// The type of the function's numbers: that of its result, taken without Nullable.
fn numbers_of(leaf: &Leaf, args: &[Ty]) -> Number
    requires { IsServed (leaf_of leaf.now) (map ty_of args.now) }
    ensures { IfOfNumbers (leaf_of leaf.now) (bare (leaf_result (leaf_of leaf.now) (map ty_of args.now)) ≡ number_ty result) }
{
    match (leaf, args) {
        (Leaf::Count, _) | (Leaf::Retention, _) => Number::U64,
        (Leaf::Sum, [first, ..]) => {
            if is_signed(first) {
                Number::I64
            } else {
                Number::U64
            }
        }
        (_, [first, ..]) => number_of(first),
        (_, []) => Number::U64,
    }
}
