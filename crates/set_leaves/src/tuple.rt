//! The values of a tuple as a key: equal where they are the same values, ordered as tuples are.
ghost use Rattle.std.specs.Prelude.{Some};
ghost use Rattle.std.specs.Cmp.{on_equiv, on_per, on_po, on_total};
ghost use Rattle.std.specs.Ordering.{eq_by_cmp};
ghost use Rattle.std.proofs.Common.{ap, refl};
ghost use Rattle.agg_terms.specs.Values as family;
ghost use Rattle.set_leaves.specs.proving.Hashes.{all_writes};
ghost use Rattle.set_leaves.specs.Tuples.{values_cmp, values_tuple};
ghost use Rattle.set_leaves.specs.proving.Orders.{values_alike, values_equal, values_ordered, values_same, values_total};

use crate::hash::hash_values;
use crate::key::Key;
use agg_values::compare_rows;
use std::alloc::Global;
use std::cmp::Ordering;
use std::hash::{Hash, Hasher};
use value_types::{OutOfMemory, Seq, Value, copy_values};

/// The values of a tuple.
#[derive(Drop)]
pub struct Tuple {
    pub values: Seq<Value>,
}

impl PartialEq for Tuple {
    ghost eq = { λ a b. eq_by_cmp values_cmp a.values b.values };

    ghost laws = { on_per (λ t. t.values) values_alike };

    fn eq(&self, other: &Tuple) -> bool {
        compare_rows(self.values.as_slice(), other.values.as_slice()).is_eq()
    }
}

impl Eq for Tuple {
    ghost laws = { on_equiv (λ t. t.values) values_equal };
}

impl PartialOrd for Tuple {
    ghost partial_cmp = { λ a b. Some (values_cmp a.values b.values) };

    ghost laws = { on_po (λ t. t.values) values_ordered };

    fn partial_cmp(&self, other: &Tuple) -> Option<Ordering> {
        Some(self.cmp(other))
    }
}

impl Ord for Tuple {
    ghost cmp = { λ a b. values_cmp a.values b.values };

    ghost total = { on_total (λ t. t.values) values_total };

    ghost matches_partial_cmp = { λ a b. refl };

    ghost matches_eq = { λ a b. refl };

    fn cmp(&self, other: &Tuple) -> Ordering {
        compare_rows(self.values.as_slice(), other.values.as_slice())
    }
}

impl Hash for Tuple {
    ghost hash_input = { λ t. all_writes (family.values (values_tuple t.values)) };

    ghost respects_eq = { λ a b e. ap (λ vs. all_writes (family.values vs)) (values_same a.values b.values e) };

    fn hash<H: Hasher>(&self, state: &mut H) {
        hash_values(self.values.as_slice(), state);
    }
}

impl Key for Tuple {
    ghost tuple = { λ t. values_tuple t.values };

    ghost ranks = { λ a b. refl };

    fn copy(&self, alloc: Global) -> Result<Tuple, OutOfMemory> {
        Ok(Tuple {
            values: copy_values(alloc, self.values.as_slice())?,
        })
    }

    fn values(&self, alloc: Global) -> Result<Seq<Value>, OutOfMemory> {
        copy_values(alloc, self.values.as_slice())
    }
}
