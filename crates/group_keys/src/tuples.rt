//! The tuples of a set's keys.
ghost use Rattle.std.specs.Prelude.{◌≡◌, ◌<◌, map, true, IfOk};
ghost use Rattle.group_keys.specs.Sets.{IsSetOf, count_in};
ghost use Rattle.group_keys.specs.Tuples.{IsTupleAt};
ghost use Rattle.key_methods.specs.Kinds.{AreKeyTypes, fit_in, total_width};
ghost use Rattle.value_types.specs.Folds.{ty_of, value_of};

use crate::key_set::KeySet;
use key_methods::{Key, KeyKind, number_width, unpack};
use std::alloc::Global;
use value_types::{OutOfMemory, Seq, Ty, Value};

/// How many bytes numbers of these types have side by side.
fn width_of(types: &[Ty]) -> u8
    requires { fit_in 16 (map ty_of types.now) ≡ true }
    ensures { result ≡ total_width (map ty_of types.now) }
{
    let mut width: u8 = 0;
    for ty in types {
        width += number_width(ty) as u8;
    }
    width
}

impl KeySet {
    /// The tuple of the key at a place.
    ///
    /// # Errors
    ///
    /// [`OutOfMemory`] where there is no room for its values.
    pub fn tuple(
        &self,
        alloc: Global,
        types: &[Ty],
        place: usize,
    ) -> Result<Seq<Value>, OutOfMemory>
        requires types { AreKeyTypes types.now }
        requires set { IsSetOf types.now self.now }
        requires place { place < count_in self.now }
        ensures { IfOk result (λ values. IsTupleAt types.now self.now place (map value_of values)) }
    {
        let kind = KeyKind::of(types);
        match self {
            KeySet::One => Ok(Seq::new(alloc)),
            KeySet::Words(set) => {
                let words = set.as_slice();
                let width = width_of(types);
                let key = Key::Small {
                    word: words[place],
                    width,
                };
                unpack(alloc, kind, types, &key)
            }
            KeySet::Wide(set) => {
                let words = set.as_slice();
                let width = width_of(types);
                let key = Key::Wide {
                    word: words[place],
                    width,
                };
                unpack(alloc, kind, types, &key)
            }
            KeySet::Texts(set) => {
                let texts = set.as_slice();
                let bytes = Seq::from_slice(alloc, texts[place].as_slice())?;
                let key = Key::Long(bytes);
                unpack(alloc, kind, types, &key)
            }
        }
    }
}
