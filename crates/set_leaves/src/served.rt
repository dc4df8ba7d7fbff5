//! Which argument types the state of different rows serves.
ghost use Rattle.std.specs.Prelude.{◌≡◌, map};
ghost use Rattle.value_types.specs.Folds.{leaf_of, ty_of};
ghost use Rattle.set_leaves.specs.Served.{is_served};

use value_types::{Leaf, Ty};

const MOST_ARGUMENTS: usize = 32;

/// Whether the function is uniqExact over 1 to 32 arguments, so that it has a [`SetState`](crate::SetState). Takes no
/// memory.
pub fn serves(leaf: &Leaf, args: &[Ty]) -> bool
    ensures { result ≡ is_served (leaf_of leaf.now) (map ty_of args.now) }
{
    match leaf {
        Leaf::UniqExact => 1 <= args.len() && args.len() <= MOST_ARGUMENTS,
        _ => false,
    }
}
