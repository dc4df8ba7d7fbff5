//! Which functions and argument types have these states.
ghost use Rattle.std.specs.Prelude.{◌≡◌, map};
ghost use Rattle.agg_typing.specs.Kinds as rules;
ghost use Rattle.value_types.specs.Folds.{leaf_of, ty_of};
ghost use Rattle.agg_terms.specs.Types.{is_number_type};
ghost use Rattle.list_leaves.specs.Served.{is_array_served, is_quantile_served};

use value_types::{Leaf, Ty, bare};

/// Whether a type holds no state at any depth.
fn holds_no_state(ty: &Ty) -> bool
    ensures { result ≡ rules.holds_no_state (ty_of ty.now) }
{
    match ty {
        Ty::Arr(of) | Ty::Nullable(of) => holds_no_state(of.get()),
        Ty::Map(key, of) => holds_no_state(key.get()) && holds_no_state(of.get()),
        Ty::State(_, _) => false,
        _ => true,
    }
}

fn is_number(ty: &Ty) -> bool
    ensures { result ≡ is_number_type (ty_of ty.now) }
{
    match ty {
        Ty::U8 | Ty::U16 | Ty::U32 | Ty::U64 | Ty::I8 | Ty::I16 | Ty::I32 | Ty::I64 => true,
        _ => false,
    }
}

/// Whether the function is groupArray, of one value or more, over one argument of a type without a state, so that it
/// has an [`ArrayState`](crate::ArrayState). Takes no memory.
pub fn serves_array(leaf: &Leaf, args: &[Ty]) -> bool
    ensures { result ≡ is_array_served (leaf_of leaf.now) (map ty_of args.now) }
{
    match leaf {
        Leaf::GroupArray(Some(0)) => false,
        Leaf::GroupArray(_) => match args {
            [arg] => holds_no_state(arg),
            _ => false,
        },
        _ => false,
    }
}

/// Whether the function is quantileExact over one number, so that it has a
/// [`QuantileState`](crate::QuantileState). Takes no memory.
pub fn serves_quantile(leaf: &Leaf, args: &[Ty]) -> bool
    ensures { result ≡ is_quantile_served (leaf_of leaf.now) (map ty_of args.now) }
{
    match leaf {
        Leaf::QuantileExact(_) => match args {
            [arg] => is_number(bare(arg)),
            _ => false,
        },
        _ => false,
    }
}
