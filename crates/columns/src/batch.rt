//! Columns of one length, seen as a list of rows.
ghost use Rattle.std.specs.Prelude.{◌≡◌, ◌<◌, ◌≤◌, [], length, map, get_or, All, IfOk, OnErr, OnOk, Some};
ghost use Rattle.std.specs.List.{slice_get, slice_range};
ghost use Rattle.typed_columns.specs.Growth.{AllFit};
ghost use Rattle.typed_columns.specs.Items.{item_value};
ghost use Rattle.columns.specs.Rows.{RowFits, column_at, no_rows, rows_upto, with_row, with_rows};
ghost use Rattle.columns.specs.Rows as specs;

use crate::each::{append_each, push_each, shrink_each, trim_each};
use crate::{BatchView, RowView};
use std::alloc::Global;
use std::marker::Model;
use typed_columns::{Column, Item};
use value_types::{OutOfMemory, Ty, Value};

/// Rows whose values are of the same types.
///
/// The columns stand open to crates that fill them field by field: what they leave is proved to be columns
/// of `count` values, each of its column's type, as here.
#[derive(Drop)]
pub struct Batch {
    pub columns: Vec<Column>,
    pub count: usize,
}

impl Model for Batch {
    ghost use Rattle.columns.specs.Rows.{Rows, rows_of, AreLong, AreTyped};
    ghost use Rattle.value_types.specs.contracts.ty.Ty as of_ty;
    ghost use Rattle.value_types.specs.contracts.value.Value as of_value;
    ghost use Rattle.std.specs.Coded.{codes};

    ghost Value = { Rows };

    ghost coded = { Prim.hlevel (codes, of_ty.the_row.coded, of_value.the_row.coded) };

    ghost view = { λ b. rows_of b.columns.items b.count };

    ghost invariant = { λ b. AreLong b.columns.items b.count × AreTyped b.columns.items };
}

impl Batch {
    /// No rows, of values of these types.
    ///
    /// # Errors
    ///
    /// [`OutOfMemory`] where there is no room for the columns.
    pub fn new(alloc: Global, types: &[Ty]) -> Result<Batch, OutOfMemory>
        ensures { IfOk result (λ batch. batch ≡ no_rows types.now) }
    {
        let mut columns = Vec::new(alloc);
        columns.reserve(types.len())?;
        for ty in types {
            columns.push(Column::new(alloc, ty)?)?;
        }
        Ok(Batch { columns, count: 0 })
    }

    /// How many rows there are. Each is one of the types.
    #[inline]
    #[tactic(auto, using(crate::proofs::Rows::row_laws))]
    pub fn len(&self) -> usize
        ensures count { result ≡ length self.now.rows }
        ensures fit { All (RowFits self.now.types) self.now.rows }
    {
        self.count
    }

    /// Adds a row whose values are of the types, all of it or nothing.
    ///
    /// # Errors
    ///
    /// [`OutOfMemory`] where there is no room; the rows are as before.
    pub fn push_row(&mut self, alloc: Global, row: &[Value]) -> Result<(), OutOfMemory>
        requires { RowFits self.old.types row.now }
        ensures ok { OnOk result (self.new ≡ with_row self.old row.now) }
        ensures err { OnErr result (self.new ≡ self.old) }
    {
        if self.count == usize::MAX {
            return Err(OutOfMemory);
        }
        push_each(&mut self.columns, alloc, row, self.count)?;
        self.count += 1;
        Ok(())
    }

    /// Adds the rows of a batch of the same types, all or none.
    ///
    /// # Errors
    ///
    /// [`OutOfMemory`] where there is no room; the rows are as before.
    pub fn append(&mut self, alloc: Global, other: &Batch) -> Result<(), OutOfMemory>
        requires { self.old.types ≡ other.now.types }
        ensures ok { OnOk result (self.new ≡ with_rows self.old other.now.rows) }
        ensures err { OnErr result (self.new ≡ self.old) }
    {
        if other.count > usize::MAX - self.count {
            return Err(OutOfMemory);
        }
        append_each(&mut self.columns, alloc, &other.columns, self.count)?;
        self.count += other.count;
        Ok(())
    }

    /// The row at a place.
    #[inline]
    #[tactic(auto, using(crate::proofs::Rows::row_laws))]
    pub fn row(&self, place: usize) -> RowView<'_>
        requires { place < length self.now.rows }
        ensures at { slice_get self.now.rows place ≡ Some result }
        ensures fits { RowFits self.now.types result }
    {
        let _columns = &self.columns;
        RowView::of(self, place)
    }

    /// The rows from one place up to another, that one excluded.
    #[inline]
    pub fn slice(&self, from: usize, to: usize) -> BatchView<'_>
        requires order { from ≤ to }
        requires within { to ≤ length self.now.rows }
        ensures { result ≡ slice_range self.now.rows from to }
    {
        BatchView::of(self, from, to)
    }

    /// The values at one place of all rows, in the order of the rows.
    #[inline]
    pub fn column(&self, place: usize) -> &Column
        requires { place < length self.now.types }
        ensures ty { slice_get self.now.types place ≡ Some result.now.ty }
        ensures values { result.now.values ≡ column_at place self.now.rows }
        ensures fit { AllFit result.now.ty result.now.values }
    {
        &self.columns[place]
    }

    /// Drops all rows from place `count` on.
    pub fn truncate(&mut self, count: usize)
        requires { count ≤ length self.old.rows }
        ensures { self.new ≡ specs.first_rows count self.old }
    {
        trim_each(&mut self.columns, count);
        self.count = count;
    }

    /// Drops all rows.
    pub fn clear(&mut self)
        ensures { self.new ≡ no_rows self.old.types }
    {
        self.truncate(0);
    }

    /// Gives back the room that no value stands in.
    pub fn shrink_to_fit(&mut self)
        ensures { self.new ≡ self.old }
    {
        shrink_each(&mut self.columns);
    }

    #[inline]
    pub(crate) fn item(&self, place: usize, column: usize) -> Item<'_>
        requires row { place < length self.now.rows }
        requires column { column < length (get_or self.now.rows place []) }
        ensures { slice_get (get_or self.now.rows place []) column ≡ Some (item_value result) }
    {
        self.columns[column].item(place)
    }
}
