//! The keys of a set in the order of an answer.
ghost use Rattle.std.specs.Prelude.{IfOk};
ghost use Rattle.group_keys.specs.Orders.{AreInOrder};
ghost use Rattle.group_keys.specs.Sets.{IsSetOf};
ghost use Rattle.key_methods.specs.Kinds.{AreKeyTypes};

use crate::key_set::KeySet;
use crate::number_order::{number_places, word_places};
use crate::places::all_at_first;
use crate::signs::{are_unsigned, first_half};
use crate::tuple_order::tuple_places;
use std::alloc::Global;
use value_types::{OutOfMemory, Ty};

impl KeySet {
    /// The places of the keys in ascending order of their tuples, NULL first. Keys of one number, and of
    /// unsigned numbers alone, are compared as they are packed; all others as their tuples.
    ///
    /// # Errors
    ///
    /// [`OutOfMemory`] where there is no room, or the places have no room in 32 bits.
    pub fn places_in_order(&self, alloc: Global, types: &[Ty]) -> Result<Vec<u32>, OutOfMemory>
        requires types { AreKeyTypes types.now }
        requires set { IsSetOf types.now self.now }
        ensures { IfOk result (λ places. AreInOrder types.now self.now places.items) }
    {
        match self {
            KeySet::One => all_at_first(alloc, 1),
            KeySet::Words(set) => word_places(alloc, first_half(types), set.as_slice()),
            KeySet::Wide(set) => {
                if are_unsigned(types) {
                    number_places(alloc, set.as_slice())
                } else {
                    tuple_places(alloc, self, types)
                }
            }
            KeySet::Texts(_) => tuple_places(alloc, self, types),
        }
    }
}
