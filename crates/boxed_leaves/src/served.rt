//! Which functions and argument types have these states.
ghost use Rattle.std.specs.Prelude.{◌≡◌, map};
ghost use Rattle.value_types.specs.Folds.{leaf_of, ty_of};
ghost use Rattle.boxed_leaves.specs.Served.{is_served};

use value_types::{Leaf, Ty};

/// Whether the function over arguments of these types has a [`BoxedState`](crate::BoxedState). Takes no memory.
pub fn serves(leaf: &Leaf, args: &[Ty]) -> bool
    ensures { result ≡ is_served (leaf_of leaf.now) (map ty_of args.now) }
{
    best_leaves::serves(leaf, args)
        || list_leaves::serves_array(leaf, args)
        || list_leaves::serves_quantile(leaf, args)
        || set_leaves::serves(leaf, args)
        || event_leaves::serves_funnel(leaf, args)
        || event_leaves::serves_match(leaf, args)
}
