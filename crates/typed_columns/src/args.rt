//! The arguments of one feed.
//!
//! They are made once and cleared for each row, since filling 64 places costs more than most feeds.
ghost use Rattle.std.specs.Prelude.{◌≡◌, ◌<◌, ◌≤◌, ◌++◌, [], ◌∷◌, length, map, Some};
ghost use Rattle.std.specs.List.{slice_get};
ghost use Rattle.typed_columns.specs.Items.{item_value};

use crate::Item;
use std::marker::Model;

/// At most 64 items, kept inline and seen as the list of their values. No call takes memory.
#[derive(Drop)]
pub struct Args<'a> {
    items: [Item<'a>; 64],
    count: usize,
}

impl<'a> Model for Args<'a> {
    ghost use Rattle.std.specs.Prelude.{◌≡◌, ◌≤◌, length, List, map, take};
    ghost use Rattle.std.specs.Coded.{codes};
    ghost use Rattle.value_types.specs.contracts.value.Value as of_value;
    ghost use Rattle.value_types.specs.declared.value.Value.{Value as Valued};
    ghost use Rattle.typed_columns.specs.Items.{item_value};

    ghost Value = { List Valued };

    ghost coded = { Prim.hlevel (codes, of_value.the_row.coded) };

    ghost view = { λ a. map item_value (take a.count a.items) };

    ghost invariant = { λ a. (a.count ≤ 64) × (length a.items ≡ 64) };
}

impl<'a> Args<'a> {
    /// No items.
    pub fn new() -> Args<'a>
        ensures { result ≡ [] }
    {
        Args {
            items: [Item::Nil; 64],
            count: 0,
        }
    }

    /// Adds an item at the end.
    #[inline]
    #[tactic(auto, using(crate::proofs::Arguments::argument_laws))]
    pub fn push(&mut self, item: Item<'a>)
        requires room { length self.old < 64 }
        ensures { self.new ≡ self.old ++ item_value item.entry ∷ [] }
    {
        let count = self.count;
        let items = &mut self.items[..];
        items[count] = item;
        self.count = count + 1;
    }

    /// How many items there are.
    #[inline]
    #[tactic(auto, using(crate::proofs::Arguments::argument_laws))]
    pub fn len(&self) -> usize
        ensures count { result ≡ length self.now }
        ensures most { result ≤ 64 }
    {
        self.count
    }

    /// Lends the item at a place.
    #[inline]
    #[tactic(auto, using(crate::proofs::Arguments::argument_laws))]
    pub fn item(&self, place: usize) -> &Item<'a>
        requires { place < length self.now }
        ensures { slice_get self.now place ≡ Some (item_value result.now) }
    {
        &self.as_slice()[place]
    }

    /// Takes all items out, so that the next row can use the same place.
    #[inline]
    pub fn clear(&mut self)
        ensures { self.new ≡ [] }
    {
        self.count = 0;
    }

    /// Lends the items.
    #[inline]
    pub fn as_slice(&self) -> &[Item<'a>]
        ensures { map item_value result.now ≡ self.now }
    {
        &self.items[..self.count]
    }
}
