//! Places of the keys of another set, and of the key of one tuple.
ghost use Rattle.std.specs.Prelude.{◌≡◌, ◌∷◌, [], map, IfOk};
ghost use Rattle.agg_meaning.specs.Feeds.{AreValues};
ghost use Rattle.group_keys.specs.Sets.{IsSetOf, Places, PlacesKeysOf};
ghost use Rattle.group_keys.specs.proving.Packed as packed;
ghost use Rattle.key_methods.specs.Kinds.{AreKeyTypes};
ghost use Rattle.value_types.specs.Folds.{ty_of, value_of};

use crate::key_set::KeySet;
use crate::places::{all_at_first, place_copies, place_number, place_numbers, place_text};
use key_methods::{Key, KeyKind, pack};
use std::alloc::Global;
use value_types::{OutOfMemory, Ty, Value};

impl KeySet {
    /// The place of each key of a later set of the same types, in their order; a new key goes last. Keys go over as they
    /// are packed.
    ///
    /// # Errors
    ///
    /// [`OutOfMemory`] where there is no room, or the places have no room in 32 bits; some keys may have been added.
    pub fn place_keys(
        &mut self,
        alloc: Global,
        types: &[Ty],
        later: &KeySet,
    ) -> Result<Vec<u32>, OutOfMemory>
        requires types { AreKeyTypes types.now }
        requires set { IsSetOf types.now self.old }
        requires later { IsSetOf types.now later.now }
        ensures { IfOk result (λ places. PlacesKeysOf types.now self.old self.new later.now places.items) }
    {
        match self {
            KeySet::One => all_at_first(alloc, 1),
            KeySet::Words(set) => place_numbers(alloc, set, later.words()),
            KeySet::Wide(set) => place_numbers(alloc, set, later.wide_words()),
            KeySet::Texts(set) => place_copies(alloc, set, later.texts()),
        }
    }

    /// The place of the key of one tuple; a new one goes last.
    ///
    /// # Errors
    ///
    /// [`OutOfMemory`] where there is no room, or the place has no room in 32 bits; the key may have been added.
    pub fn place_tuple(
        &mut self,
        alloc: Global,
        types: &[Ty],
        values: &[Value],
    ) -> Result<u32, OutOfMemory>
        requires types { AreKeyTypes types.now }
        requires set { IsSetOf types.now self.old }
        requires values { AreValues (map ty_of types.now) (map value_of values.now) }
        ensures { IfOk result (λ place. Places types.now self.old self.new (map value_of values.now ∷ []) (place ∷ [])) }
    {
        let key = pack(alloc, KeyKind::of(types), types, values)?;
        self.place_key(alloc, &key)
    }

    /// The place of a packed key; a new one goes last.
    fn place_key(&mut self, alloc: Global, key: &Key) -> Result<u32, OutOfMemory>
        ensures { IfOk result (λ place. packed.PlacesKey self.old self.new key.now place) }
    {
        match self {
            KeySet::One => Ok(0),
            KeySet::Words(set) => place_number(set, small_word(key)),
            KeySet::Wide(set) => place_number(set, wide_word(key)),
            KeySet::Texts(set) => place_text(alloc, set, long_bytes(key)),
        }
    }

    /// Its words; none where its keys are of another kind.
    fn words(&self) -> &[u64]
        ensures { result.now ≡ packed.words_of self.now }
    {
        match self {
            KeySet::One => &[],
            KeySet::Words(set) => set.as_slice(),
            KeySet::Wide(_) => &[],
            KeySet::Texts(_) => &[],
        }
    }

    /// Its wide words; none where its keys are of another kind.
    fn wide_words(&self) -> &[u128]
        ensures { result.now ≡ packed.wide_words_of self.now }
    {
        match self {
            KeySet::One => &[],
            KeySet::Words(_) => &[],
            KeySet::Wide(set) => set.as_slice(),
            KeySet::Texts(_) => &[],
        }
    }

    /// Its texts; none where its keys are of another kind.
    fn texts(&self) -> &[Vec<u8>]
        ensures { result.now ≡ packed.texts_of self.now }
    {
        match self {
            KeySet::One => &[],
            KeySet::Words(_) => &[],
            KeySet::Wide(_) => &[],
            KeySet::Texts(set) => set.as_slice(),
        }
    }
}

/// The word of a key of one number; 0 where it is another key.
fn small_word(key: &Key) -> u64
    ensures { result ≡ packed.small_word_of key.now }
{
    match key {
        Key::Small { word, .. } => *word,
        Key::Wide { .. } => 0,
        Key::Long(_) => 0,
    }
}

/// The word of a key of two numbers or more; 0 where it is another key.
fn wide_word(key: &Key) -> u128
    ensures { result ≡ packed.wide_word_of key.now }
{
    match key {
        Key::Small { .. } => 0,
        Key::Wide { word, .. } => *word,
        Key::Long(_) => 0,
    }
}

/// The bytes of a key of bytes; none where it is another key.
fn long_bytes(key: &Key) -> &[u8]
    ensures { result.now ≡ packed.long_bytes_of key.now }
{
    match key {
        Key::Small { .. } => &[],
        Key::Wide { .. } => &[],
        Key::Long(bytes) => bytes.as_slice(),
    }
}
