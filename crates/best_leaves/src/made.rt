//! What a state has to know of its function and its argument types.
ghost use Rattle.std.specs.Prelude.{◌≡◌, true, map};
ghost use Rattle.agg_terms.specs.Types.{any_null, bare, first_type};
ghost use Rattle.agg_meaning.specs.States.{made_for};
ghost use Rattle.value_types.specs.Folds.{leaf_of, ty_of};
ghost use Rattle.best_leaves.specs.Made.{kind_ty, made_of};
ghost use Rattle.best_leaves.specs.Served.{AreFew, IsSingle, is_served};

use crate::function::{Function, function_of};
use crate::kind::{Kind, kind_of};
use value_types::{Leaf, Ty, is_nullable};

/// The function, the type of its result, and whether that is Nullable.
#[derive(Clone, Copy)]
pub struct Made {
    pub function: Function,
    pub kind: Kind,
    pub nullable: bool,
}

impl Made {
    /// What a state of this function over arguments of these types is made for.
    #[tactic(auto, using(crate::proofs::Serving::served, crate::proofs::Making::made_is))]
    pub fn new(leaf: &Leaf, args: &[Ty]) -> Made
        requires { is_served (leaf_of leaf.now) (map ty_of args.now) ≡ true }
        ensures { made_of result ≡ made_for (leaf_of leaf.now) (map ty_of args.now) }
    {
        Made {
            function: function_of(leaf),
            kind: first_kind(args),
            nullable: any_nullable(args),
        }
    }
}

/// The kind of the first argument.
fn first_kind(args: &[Ty]) -> Kind
    requires { IsSingle (bare (first_type (map ty_of args.now))) }
    ensures { kind_ty result ≡ bare (first_type (map ty_of args.now)) }
{
    match args {
        [first, ..] => kind_of(first),
        [] => Kind::Text,
    }
}

/// Whether one of one or two arguments may be NULL.
fn any_nullable(args: &[Ty]) -> bool
    requires { AreFew (map ty_of args.now) }
    ensures { result ≡ any_null (map ty_of args.now) }
{
    match args {
        [first] => is_nullable(first),
        [first, second] => is_nullable(first) || is_nullable(second),
        _ => false,
    }
}
