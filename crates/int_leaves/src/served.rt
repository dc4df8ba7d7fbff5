//! Which functions and argument types have these states.
ghost use Rattle.std.specs.Prelude.{◌≡◌, map};
ghost use Rattle.value_types.specs.Folds.{leaf_of, ty_of};
ghost use Rattle.agg_terms.specs.Types.{is_number_type, is_one_number as are_one_number};
ghost use Rattle.int_leaves.specs.Served.{is_served};

use value_types::{Leaf, Ty, bare};

const MOST_ARGUMENTS: usize = 32;

fn is_number(ty: &Ty) -> bool
    ensures { result ≡ is_number_type (ty_of ty.now) }
{
    match ty {
        Ty::U8 | Ty::U16 | Ty::U32 | Ty::U64 | Ty::I8 | Ty::I16 | Ty::I32 | Ty::I64 => true,
        _ => false,
    }
}

fn is_one_number(args: &[Ty]) -> bool
    ensures { result ≡ are_one_number (map ty_of args.now) }
{
    match args {
        [arg] => is_number(bare(arg)),
        _ => false,
    }
}

/// Whether the function over arguments of these types has an [`IntState`](crate::IntState): count and retention
/// over at most 32 arguments, sum, min, max and the three groupBit functions over one number. Takes no memory.
pub fn serves(leaf: &Leaf, args: &[Ty]) -> bool
    ensures { result ≡ is_served (leaf_of leaf.now) (map ty_of args.now) }
{
    match leaf {
        Leaf::Count | Leaf::Retention => args.len() <= MOST_ARGUMENTS,
        Leaf::Sum | Leaf::Min | Leaf::Max => is_one_number(args),
        Leaf::BitAnd | Leaf::BitOr | Leaf::BitXor => is_one_number(args),
        _ => false,
    }
}
