//! Lists.
ghost use Rattle.std.specs.Prelude.{◌≡◌, [], ◌∷◌, ◌++◌, length, take, ◌+◌, ◌≤◌, IfOk, IsTrue, ◌↔◌, MatchOption, OnErr, OnOk, vec_capacity};

use crate::OutOfMemory;
use std::alloc::Global;
use std::marker::Model;

/// A `Vec` that contracts see as the list of its items.
#[derive(Debug, Drop)]
pub struct Seq<T> {
    items: Vec<T>,
}

impl<T> Model for Seq<T> {
    ghost use Rattle.std.specs.Prelude.{List};
    ghost use Rattle.std.specs.Coded.{coded_list};

    ghost Value = { List T };

    ghost coded = { coded_list T.code };

    ghost view = { λ seq. seq.items.items };
}

impl<T> Seq<T> {
    /// The empty list, which takes no memory.
    pub fn new(alloc: Global) -> Seq<T>
        ensures { result ≡ [] }
    {
        Seq {
            items: Vec::new(alloc),
        }
    }

    /// A list of these items, in their order.
    pub fn from_vec(items: Vec<T>) -> Seq<T>
        ensures { result ≡ items.items }
    {
        Seq { items }
    }

    /// The items, in their order.
    pub fn into_vec(self) -> Vec<T>
        ensures { result.items ≡ self }
    {
        let Seq { items } = self;
        items
    }

    /// How many items there are.
    pub fn len(&self) -> usize
        ensures { result ≡ length self.now }
    {
        self.items.len()
    }

    /// Whether there is no item.
    pub fn is_empty(&self) -> bool
        ensures { IsTrue result ↔ (self.now ≡ []) }
    {
        self.items.is_empty()
    }

    /// Lends the items.
    pub fn as_slice(&self) -> &[T]
        ensures { result.now ≡ self.now }
    {
        self.items.as_slice()
    }

    /// Takes the last item off, if there is one.
    pub fn pop(&mut self) -> Option<T>
        ensures { MatchOption result ((self.old ≡ []) × (self.new ≡ [])) (λ last. self.old ≡ self.new ++ last ∷ []) }
    {
        self.items.pop()
    }
}

impl<T: Drop> Seq<T> {
    ghost use Rattle.std.specs.Borrow.{sem};
    ghost use Rattle.value_lists.specs.Room.{LendsItems};

    /// Adds an item at the end.
    ///
    /// # Errors
    ///
    /// [`OutOfMemory`] where there is no room; the item is dropped, and the list is as before.
    pub fn push(&mut self, item: T) -> Result<(), OutOfMemory>
        ensures ok { OnOk result (self.new ≡ self.old ++ item ∷ []) }
        ensures err { OnErr result (self.new ≡ self.old) }
    {
        self.items.push(item)?;
        Ok(())
    }

    /// Drops all items from place `len` on.
    pub fn truncate(&mut self, len: usize)
        ensures { self.new ≡ take len self.old }
    {
        self.items.truncate(len);
    }

    /// Asks for room for `more` items at once, so that pushes ask less often. That none of them fails
    /// only [`Seq::with_room`] promises.
    ///
    /// # Errors
    ///
    /// [`OutOfMemory`] where there is no room. The list is as before either way.
    pub fn reserve(&mut self, more: usize) -> Result<(), OutOfMemory>
        ensures { self.new ≡ self.old }
    {
        self.with_room(more)?;
        Ok(())
    }

    /// Lends the items with room for `more` behind them: as many calls of `push_reserved` can't fail
    /// and take no memory. The list ends with what stands in the loan then.
    ///
    /// # Errors
    ///
    /// [`OutOfMemory`] where there is no room; the list is as before.
    pub fn with_room(&mut self, more: usize) -> Result<&mut Vec<T>, OutOfMemory>
        ensures* writes_back { sem 𝓛 (LendsItems T.row self.entry result) }
        ensures items { IfOk result (λ items. items.now.items ≡ self.old) }
        ensures room { IfOk result (λ items. length self.old + more ≤ vec_capacity items.now) }
    {
        self.items.reserve(more)?;
        Ok(&mut self.items)
    }
}

impl<T: Copy> Seq<T> {
    /// Adds copies of these items at the end.
    ///
    /// # Errors
    ///
    /// [`OutOfMemory`] where there is no room; the list is as before.
    pub fn extend_from_slice(&mut self, items: &[T]) -> Result<(), OutOfMemory>
        ensures ok { OnOk result (self.new ≡ self.old ++ items.now) }
        ensures err { OnErr result (self.new ≡ self.old) }
    {
        self.items.extend_from_slice(items)?;
        Ok(())
    }

    /// A list of copies of these items.
    ///
    /// # Errors
    ///
    /// [`OutOfMemory`] where there is no room.
    pub fn from_slice(alloc: Global, items: &[T]) -> Result<Seq<T>, OutOfMemory>
        ensures { IfOk result (λ seq. seq ≡ items.now) }
    {
        let items = Vec::from_slice(alloc, items)?;
        Ok(Seq { items })
    }
}
