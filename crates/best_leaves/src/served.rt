//! Which functions and argument types have these states.
ghost use Rattle.std.specs.Prelude.{◌≡◌, map};
ghost use Rattle.value_types.specs.Folds.{leaf_of, ty_of};
ghost use Rattle.best_leaves.specs.Served.{are_two_single as are_two, is_one_text as is_one, is_served, is_single as is_single_type, is_text as is_text_type};

use value_types::{Leaf, Ty, bare};

fn is_text(ty: &Ty) -> bool
    ensures { result ≡ is_text_type (ty_of ty.now) }
{
    match ty {
        Ty::Str => true,
        _ => false,
    }
}

fn is_single(ty: &Ty) -> bool
    ensures { result ≡ is_single_type (ty_of ty.now) }
{
    match ty {
        Ty::U8 | Ty::U16 | Ty::U32 | Ty::U64 | Ty::I8 | Ty::I16 | Ty::I32 | Ty::I64 | Ty::Str => {
            true
        }
        _ => false,
    }
}

fn is_one_text(args: &[Ty]) -> bool
    ensures { result ≡ is_one (map ty_of args.now) }
{
    match args {
        [arg] => is_text(bare(arg)),
        _ => false,
    }
}

fn are_two_single(args: &[Ty]) -> bool
    ensures { result ≡ are_two (map ty_of args.now) }
{
    match args {
        [first, second] => is_single(bare(first)) && is_single(bare(second)),
        _ => false,
    }
}

/// Whether the function over arguments of these types has a [`BestState`](crate::BestState): min and max over one
/// String, argMin and argMax over two arguments, each a number or a String. Takes no memory.
pub fn serves(leaf: &Leaf, args: &[Ty]) -> bool
    ensures { result ≡ is_served (leaf_of leaf.now) (map ty_of args.now) }
{
    match leaf {
        Leaf::Min | Leaf::Max => is_one_text(args),
        Leaf::ArgMin | Leaf::ArgMax => are_two_single(args),
        _ => false,
    }
}
