//! A column: a type and the list of its values, in flat stores of its parts.
//!
//! The elements of all arrays stand in one column, one array behind another, and so do the keys and the
//! values of all maps: a row takes no list of its own. A column is seen as { ty, values } and its parts
//! likewise, so each clause speaks of one level.
ghost use Rattle.std.specs.Prelude.{◌≡◌, ◌<◌, length, Some};
ghost use Rattle.std.specs.List.{slice_get};
ghost use Rattle.typed_columns.specs.Items.{item_value};

use crate::{Item, PairSpan, Span};
use column_parts::{Numbers, Texts, part};
use std::marker::Model;
use value_types::{Boxed, Chain, Seq, Tree, Ty};

/// Values of one type, seen as that type with the list of them.
///
/// The store stands open to crates that fill it field by field. What they leave in it is proved to be well
/// formed (`specs/Views.antt`), as here.
#[cycle(column)]
#[derive(Drop)]
pub struct Column {
    pub kind: Kind,
}

/// What a column of each kind of type keeps.
#[cycle(column)]
#[derive(Drop)]
pub enum Kind {
    Numbers(Numbers),
    Texts(Texts),
    /// Which values are NULL, and the values; where one is NULL, a blank stands in its place (manual:
    /// "Nullable(T)", storage features).
    Nullable(Vec<bool>, Box<Column>),
    /// Where each array begins and the last ends, and all elements, one array behind another.
    Lists(Vec<usize>, Box<Column>),
    /// Where each map begins and the last ends, and all keys and all values.
    Maps(Vec<usize>, Box<Column>, Box<Column>),
    /// States of a chain over arguments of these types.
    Cells(Boxed<Chain>, Seq<Ty>, Vec<Tree>),
}

impl Model for Column {
    ghost use Rattle.typed_columns.specs.TypedValues.{TypedValues};
    ghost use Rattle.value_types.specs.contracts.ty.Ty as of_ty;
    ghost use Rattle.value_types.specs.contracts.value.Value as of_value;
    ghost use Rattle.std.specs.Coded.{codes};

    ghost Value = { TypedValues };

    ghost coded = { Prim.hlevel (codes, of_ty.the_row.coded, of_value.the_row.coded) };

    ghost use Rattle.typed_columns.specs.Views.{view_of, IsFormed, size_of};

    ghost view = { λ c. view_of c.kind };

    ghost invariant = { λ c. IsFormed c.kind };

    ghost size = { size_of };

    ghost use Rattle.typed_columns.specs.Falls.{size_falls};

    ghost size_decreases = { size_falls };
}

impl Column {
    /// How many values there are.
    #[tactic(auto, using(column_parts::proofs::Cuts::cut_laws, crate::proofs::Masks::mask_laws, crate::proofs::Entries::entry_laws))]
    pub fn len(&self) -> usize
        ensures { result ≡ length self.now.values }
    {
        match &self.kind {
            Kind::Numbers(numbers) => numbers.len(),
            Kind::Texts(texts) => texts.len(),
            Kind::Nullable(mask, _) => mask.len(),
            Kind::Lists(starts, _) => starts.len() - 1,
            Kind::Maps(starts, _, _) => starts.len() - 1,
            Kind::Cells(_, _, trees) => trees.len(),
        }
    }

    /// Lends the value at a place, as it stands there.
    #[inline]
    pub fn item(&self, place: usize) -> Item<'_>
        requires { place < length self.now.values }
        ensures { slice_get self.now.values place ≡ Some (item_value result) }
    {
        // a number is lent in place: the walk below calls itself, so it is no part of its callers
        if let Kind::Numbers(numbers) = &self.kind {
            return Item::Num(numbers.at(place));
        }
        self.item_of_any(place)
    }

    #[cycle(item)]
    #[tactic(auto, using(column_parts::proofs::Cuts::cut_laws, crate::proofs::Masks::mask_laws, crate::proofs::Entries::entry_laws))]
    fn item_of_any(&self, place: usize) -> Item<'_>
        requires { place < length self.now.values }
        ensures { slice_get self.now.values place ≡ Some (item_value result) }
    {
        match &self.kind {
            Kind::Numbers(numbers) => Item::Num(numbers.at(place)),
            Kind::Texts(texts) => Item::Bytes(texts.at(place)),
            Kind::Nullable(mask, values) => {
                if mask[place] {
                    return Item::Nil;
                }
                return values.item_of_any(place);
            }
            Kind::Lists(starts, elements) => {
                let (from, to) = part(starts, elements.len(), place);
                Item::List(Span::of(elements, from, to))
            }
            Kind::Maps(starts, keys, values) => {
                let (from, to) = part(starts, keys.len(), place);
                Item::Pairs(PairSpan::of(keys, values, from, to))
            }
            Kind::Cells(_, _, trees) => Item::Cell(&trees[place]),
        }
    }
}
