//! Sets of tuples of one kind: the different ones, in the order of their first rows. They are put in order only when
//! their rows are asked for.
ghost use Rattle.std.specs.Prelude.{◌≡◌, ◌<◌, ◌^◌, [], ◌∷◌, ◌++◌, length, map, take, IfOk, OnErr, OnOk};
ghost use Rattle.agg_terms.specs.Order.{compare_rows, different};
ghost use Rattle.value_types.specs.Folds.{value_of};
ghost use Rattle.set_leaves.specs.Tuples.{SameSet, text_tuple};

use crate::key::Key;
use indexmap::IndexSet;
use std::alloc::Global;
use std::marker::Model;
use value_types::{OutOfMemory, Seq, Value};

/// Different tuples, seen as the list of what is kept of them.
#[derive(Drop)]
pub struct Different<K: Key> {
    keys: IndexSet<K>,
}

impl<K: Key> Model for Different<K> {
    ghost use Rattle.std.specs.Prelude.{List};
    ghost use Rattle.std.specs.Coded.{coded_list};

    ghost Value = { List K };

    ghost coded = { coded_list K.code };

    ghost view = { λ d. d.keys.keys };
}

impl<K: Key> Different<K> {
    /// No tuples. Takes no memory.
    pub fn new(alloc: Global) -> Different<K>
        ensures { result ≡ [] }
    {
        Different {
            keys: IndexSet::new(alloc),
        }
    }

    /// How many different tuples there are.
    pub fn len(&self) -> usize
        ensures count { result ≡ length (different compare_rows (map K.tuple self.now)) }
        ensures few { result < 2 ^ 63 }
    {
        self.keys.len()
    }

    /// Lends what is kept of the tuples.
    pub fn as_slice(&self) -> &[K]
        ensures { result.now ≡ self.now }
    {
        self.keys.as_slice()
    }

    /// Adds a tuple, if it isn't there.
    ///
    /// # Errors
    ///
    /// [`OutOfMemory`] where there is no room; nothing is changed.
    #[inline]
    pub fn insert(&mut self, key: K) -> Result<(), OutOfMemory>
        ensures ok { OnOk result (SameSet (map K.tuple self.new) (map K.tuple self.old ++ K.tuple key ∷ [])) }
        ensures front { take (length self.old) self.new ≡ self.old }
        ensures err { OnErr result (self.new ≡ self.old) }
    {
        self.keys.insert(key)?;
        Ok(())
    }

    /// Adds a copy of a tuple, if it isn't there.
    fn add(&mut self, alloc: Global, key: &K) -> Result<(), OutOfMemory>
        ensures ok { OnOk result (SameSet (map K.tuple self.new) (map K.tuple self.old ++ K.tuple key.now ∷ [])) }
        ensures front { take (length self.old) self.new ≡ self.old }
    {
        if self.keys.contains(key) {
            return Ok(());
        }
        self.insert(key.copy(alloc)?)
    }

    /// Adds copies of tuples, those that aren't there. Where there is no room, some of them have been added.
    fn add_all(&mut self, alloc: Global, keys: &[K]) -> Result<(), OutOfMemory>
        ensures ok { OnOk result (SameSet (map K.tuple self.new) (map K.tuple self.old ++ map K.tuple keys.now)) }
        ensures front { take (length self.old) self.new ≡ self.old }
    {
        for key in keys {
            self.add(alloc, key)?;
        }
        Ok(())
    }

    /// Adds the tuples of another set.
    ///
    /// # Errors
    ///
    /// [`OutOfMemory`] where there is no room; nothing is changed.
    pub fn merge(&mut self, alloc: Global, later: &Different<K>) -> Result<(), OutOfMemory>
        ensures ok { OnOk result (SameSet (map K.tuple self.new) (map K.tuple self.old ++ map K.tuple later.now)) }
        ensures err { OnErr result (self.new ≡ self.old) }
    {
        let before = self.keys.len();
        match self.add_all(alloc, later.as_slice()) {
            Ok(()) => Ok(()),
            Err(error) => {
                self.keys.truncate(before);
                Err(error)
            }
        }
    }

    /// The same tuples again.
    ///
    /// # Errors
    ///
    /// [`OutOfMemory`] where there is no room for them.
    pub fn copy(&self, alloc: Global) -> Result<Different<K>, OutOfMemory>
        ensures { IfOk result (λ copied. SameSet (map K.tuple copied) (map K.tuple self.now)) }
    {
        let mut copied = Different::new(alloc);
        copied.merge(alloc, self)?;
        Ok(copied)
    }

    /// Puts the tuples in order.
    fn sort(&mut self) -> Result<(), OutOfMemory>
        ensures { OnOk result (map K.tuple self.new ≡ different compare_rows (map K.tuple self.old)) }
    {
        self.keys.sort_unstable()?;
        Ok(())
    }

    /// The rows of the tuples, in order.
    ///
    /// # Errors
    ///
    /// [`OutOfMemory`] where there is no room for them.
    pub fn rows(&self, alloc: Global) -> Result<Seq<Seq<Value>>, OutOfMemory>
        ensures { IfOk result (λ rows. map (map value_of) rows ≡ different compare_rows (map K.tuple self.now)) }
    {
        let mut sorted = self.copy(alloc)?;
        sorted.sort()?;
        let mut rows = Seq::new(alloc);
        rows.reserve(sorted.keys.len())?;
        for key in sorted.as_slice() {
            rows.push(key.values(alloc)?)?;
        }
        Ok(rows)
    }
}

impl Different<Vec<u8>> {
    /// Adds a text, if it isn't there. Only a new text takes memory.
    ///
    /// # Errors
    ///
    /// [`OutOfMemory`] where there is no room; nothing is changed.
    #[inline]
    pub fn insert_text(&mut self, alloc: Global, bytes: &[u8]) -> Result<(), OutOfMemory>
        ensures ok { OnOk result (SameSet (map (λ text. text_tuple text.items) self.new) (map (λ text. text_tuple text.items) self.old ++ text_tuple bytes.now ∷ [])) }
        ensures err { OnErr result (self.new ≡ self.old) }
    {
        if self.keys.contains(bytes) {
            return Ok(());
        }
        self.insert(Vec::from_slice(alloc, bytes)?)
    }
}
