//! What a column lends: a value in place.
//!
//! An item is small and copied freely: a number, or a loan of bytes, of neighbours in a column, or of a
//! state. That a column lends its values so is this project's own choice.
ghost use Rattle.std.specs.Prelude.{◌≡◌, ◌<◌, ◌+◌, ◌≤◌, length, map, Some};
ghost use Rattle.std.specs.List.{slice_get, slice_range, zip};

use crate::Column;
use value_types::Tree;

/// A value that stands in a column.
#[derive(Clone, Copy)]
pub enum Item<'a> {
    /// A number of any width.
    Num(i128),
    /// A string (manual: "String").
    Bytes(&'a [u8]),
    /// NULL (manual: "Nullable(T)").
    Nil,
    /// An array (manual: "Array(T)").
    List(Span<'a>),
    /// A map (manual: "Map(K, V)").
    Pairs(PairSpan<'a>),
    /// A state (manual: "AggregateFunction").
    Cell(&'a Tree),
}

/// The elements of an array: neighbours in a column, seen as the list of their values.
#[derive(Clone, Copy)]
pub struct Span<'a> {
    column: &'a Column,
    from: usize,
    to: usize,
    ghost order: { from ≤ to },
    ghost within: { to ≤ length column.now.values },
}

impl<'a> Span<'a> {
    ghost use Rattle.typed_columns.specs.Items.{item_value, span_values};

    pub(crate) fn of(column: &'a Column, from: usize, to: usize) -> Span<'a>
        requires order { from ≤ to }
        requires within { to ≤ length column.now.values }
        ensures { span_values result ≡ slice_range column.now.values from to }
    {
        Span { column, from, to }
    }

    /// How many elements there are.
    #[inline]
    #[tactic(auto, using(column_parts::proofs::Cuts::cut_laws))]
    pub fn len(&self) -> usize
        ensures { result ≡ length (span_values self.now) }
    {
        self.to - self.from
    }

    /// The element at a place.
    #[inline]
    #[tactic(auto, using(column_parts::proofs::Cuts::cut_laws))]
    pub fn at(&self, place: usize) -> Item<'a>
        requires { place < length (span_values self.now) }
        ensures { slice_get (span_values self.now) place ≡ Some (item_value result) }
    {
        self.column.item(self.from + place)
    }
}

/// The entries of a map: neighbours in the column of its keys and in that of its values, seen as the
/// list of the pairs.
#[derive(Clone, Copy)]
pub struct PairSpan<'a> {
    keys: &'a Column,
    values: &'a Column,
    from: usize,
    to: usize,
    ghost order: { from ≤ to },
    ghost within: { to ≤ length keys.now.values },
    ghost alike: { length keys.now.values ≡ length values.now.values },
}

impl<'a> PairSpan<'a> {
    ghost use Rattle.typed_columns.specs.Items.{item_value, pair_span_values};

    pub(crate) fn of(keys: &'a Column, values: &'a Column, from: usize, to: usize) -> PairSpan<'a>
        requires order { from ≤ to }
        requires within { to ≤ length keys.now.values }
        requires alike { length keys.now.values ≡ length values.now.values }
        ensures { pair_span_values result ≡ slice_range (zip keys.now.values values.now.values) from to }
    {
        PairSpan {
            keys,
            values,
            from,
            to,
        }
    }

    /// How many entries there are.
    #[inline]
    #[tactic(auto, using(column_parts::proofs::Cuts::cut_laws, crate::proofs::Entries::entry_laws))]
    pub fn len(&self) -> usize
        ensures { result ≡ length (pair_span_values self.now) }
    {
        self.to - self.from
    }

    /// The key of the entry at a place.
    #[inline]
    #[tactic(auto, using(column_parts::proofs::Cuts::cut_laws, crate::proofs::Entries::entry_laws))]
    pub fn key(&self, place: usize) -> Item<'a>
        requires { place < length (pair_span_values self.now) }
        ensures { slice_get (map (λ entry. entry.0) (pair_span_values self.now)) place ≡ Some (item_value result) }
    {
        self.keys.item(self.from + place)
    }

    /// The value of the entry at a place.
    #[inline]
    #[tactic(auto, using(column_parts::proofs::Cuts::cut_laws, crate::proofs::Entries::entry_laws))]
    pub fn value(&self, place: usize) -> Item<'a>
        requires { place < length (pair_span_values self.now) }
        ensures { slice_get (map (λ entry. entry.1) (pair_span_values self.now)) place ≡ Some (item_value result) }
    {
        self.values.item(self.from + place)
    }
}
