//! Which argument types the states over events serve.
ghost use Rattle.std.specs.Prelude.{◌≡◌, map};
ghost use Rattle.value_types.specs.Folds.{leaf_of, pattern_of, ty_of};
ghost use Rattle.event_leaves.specs.Served.{is_funnel_served, is_match_served, is_searched as is_searched_pattern};

use value_types::{Leaf, Pattern, Ty};

const MOST_ARGUMENTS: usize = 33;

const MOST_ITEMS: usize = 64;

/// Whether the function is windowFunnel over a time and 1 to 32 conditions, so that it has a
/// [`FunnelState`](crate::FunnelState). Takes no memory.
pub fn serves_funnel(leaf: &Leaf, args: &[Ty]) -> bool
    ensures { result ≡ is_funnel_served (leaf_of leaf.now) (map ty_of args.now) }
{
    match leaf {
        Leaf::WindowFunnel(_, _) => 2 <= args.len() && args.len() <= MOST_ARGUMENTS,
        _ => false,
    }
}

/// Whether a pattern has 1 to 64 items, and a link between each two.
fn is_searched(pattern: &Pattern) -> bool
    ensures { result ≡ is_searched_pattern (pattern_of pattern.now) }
{
    let items = pattern.items.len();
    1 <= items && items <= MOST_ITEMS && pattern.links.len() == items - 1
}

/// Whether the function is sequenceMatch, with a pattern of 1 to 64 items, over a time and 1 to 32 conditions, so
/// that it has a [`MatchState`](crate::MatchState). Takes no memory.
pub fn serves_match(leaf: &Leaf, args: &[Ty]) -> bool
    ensures { result ≡ is_match_served (leaf_of leaf.now) (map ty_of args.now) }
{
    match leaf {
        Leaf::SequenceMatch(pattern) => {
            2 <= args.len() && args.len() <= MOST_ARGUMENTS && is_searched(pattern)
        }
        _ => false,
    }
}
