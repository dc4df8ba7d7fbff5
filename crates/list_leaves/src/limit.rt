//! How many values groupArray keeps.
ghost use Rattle.std.specs.Prelude.{◌≡◌, ◌≤◌};
ghost use Rattle.agg_terms.specs.Chains.{GroupArray};
ghost use Rattle.value_types.specs.Folds.{leaf_of};
ghost use Rattle.list_leaves.specs.Limits.{is_full as is_full_at, limit_of, room_for};
ghost use Rattle.list_leaves.specs.Served.{IsArrayFunction};

use value_types::Leaf;

/// All values, or one and at most so many beyond it: no limit is 0.
#[derive(Clone, Copy)]
pub struct Limit {
    pub beyond_first: Option<u32>,
}

/// The limit of groupArray.
pub fn limit_in(leaf: &Leaf) -> Limit
    requires { IsArrayFunction (leaf_of leaf.now) }
    ensures { GroupArray (limit_of result.beyond_first) ≡ leaf_of leaf.now }
{
    match leaf {
        Leaf::GroupArray(Some(most)) => Limit {
            beyond_first: Some(*most - 1),
        },
        _ => Limit { beyond_first: None },
    }
}

impl Limit {
    /// Whether so many values are all that are kept.
    #[inline]
    pub fn is_full(self, count: usize) -> bool
        ensures { result ≡ is_full_at self.beyond_first count }
    {
        match self.beyond_first {
            None => false,
            Some(beyond) => count > beyond as usize,
        }
    }

    /// How many of `more` values are kept behind `count` of them.
    pub fn room(self, count: usize, more: usize) -> usize
        ensures room { result ≡ room_for self.beyond_first count more }
        ensures most { result ≤ more }
    {
        match self.beyond_first {
            None => more,
            Some(beyond) => more.min((beyond as usize + 1).saturating_sub(count)),
        }
    }
}
