//! A set of keys.
ghost use Rattle.std.specs.Prelude.{◌≡◌, ◌<◌, ◌≤◌, ◌-◌, All, length, IfOk};
ghost use Rattle.group_keys.specs.Sets.{Holds, IsSetOf, Places, count_in, first_keys};
ghost use Rattle.key_columns.specs.Words.{AreKeyColumns, key_tuples};
ghost use Rattle.key_methods.specs.Kinds.{AreKeyTypes};

use crate::places::{all_at_first, place_numbers};
use crate::texts::place_texts;
use indexmap::IndexSet;
use key_columns::{key_words, packed_words};
use key_methods::KeyKind;
use std::alloc::Global;
use std::collections::hash_map::RandomState;
use typed_columns::Column;
use value_types::{OutOfMemory, Ty};

/// The keys of a table's groups, by the kind of key, which is chosen once.
#[derive(Drop)]
pub enum KeySet {
    /// The empty tuple alone: there is no key column.
    One,
    /// Keys of one number.
    Words(IndexSet<u64, RandomState>),
    /// Keys of two numbers or more, packed.
    Wide(IndexSet<u128, RandomState>),
    /// One String, or bytes that stand for values of other types.
    Texts(IndexSet<Vec<u8>, RandomState>),
}

impl KeySet {
    /// No keys, of key columns of these types; where there is no key column, the empty tuple. It takes no memory.
    /// `hasher` has a seed of the process.
    pub fn new(alloc: Global, types: &[Ty], hasher: RandomState) -> KeySet
        ensures { Holds types.now result (first_keys types.now) }
    {
        match KeyKind::of(types) {
            KeyKind::NoKey => KeySet::One,
            KeyKind::Key8 => KeySet::Words(IndexSet::with_hasher(alloc, hasher)),
            KeyKind::Key16 => KeySet::Words(IndexSet::with_hasher(alloc, hasher)),
            KeyKind::Key32 => KeySet::Words(IndexSet::with_hasher(alloc, hasher)),
            KeyKind::Key64 => KeySet::Words(IndexSet::with_hasher(alloc, hasher)),
            KeyKind::KeyString => KeySet::Texts(IndexSet::with_hasher(alloc, hasher)),
            KeyKind::Packed128 => KeySet::Wide(IndexSet::with_hasher(alloc, hasher)),
            KeyKind::Serialized => KeySet::Texts(IndexSet::with_hasher(alloc, hasher)),
        }
    }

    /// How many keys there are.
    pub fn len(&self) -> usize
        ensures { result ≡ count_in self.now }
    {
        match self {
            KeySet::One => 1,
            KeySet::Words(set) => set.len(),
            KeySet::Wide(set) => set.len(),
            KeySet::Texts(set) => set.len(),
        }
    }

    /// The place of the key of each row from `from` on and below `to`; a new key goes last. `keys` are the numbers of the
    /// key columns among these, and `types` their types.
    ///
    /// # Errors
    ///
    /// [`OutOfMemory`] where there is no room, or the places have no room in 32 bits; some keys may have been added.
    pub fn place_rows(
        &mut self,
        alloc: Global,
        types: &[Ty],
        columns: &[Column],
        keys: &[u32],
        from: usize,
        to: usize,
    ) -> Result<Vec<u32>, OutOfMemory>
        requires set { IsSetOf types.now self.old }
        requires types { AreKeyTypes types.now }
        requires order { from ≤ to }
        requires keys { All (λ k. k < length columns.now) keys.now }
        requires within { All (λ c. to ≤ length c.values) columns.now }
        requires columns { AreKeyColumns types.now columns.now keys.now from to }
        ensures { IfOk result (λ places. Places types.now self.old self.new (key_tuples columns.now keys.now from (to - from)) places.items) }
    {
        match self {
            KeySet::One => all_at_first(alloc, to - from),
            KeySet::Words(set) => {
                let words = key_words(alloc, types, columns, keys, from, to)?;
                place_numbers(alloc, set, &words)
            }
            KeySet::Wide(set) => {
                let words = packed_words(alloc, types, columns, keys, from, to)?;
                place_numbers(alloc, set, &words)
            }
            KeySet::Texts(set) => place_texts(alloc, set, types, columns, keys, from, to),
        }
    }
}
