//! A row in place.
ghost use Rattle.std.specs.Prelude.{◌≡◌, ◌<◌, [], get_or, length, Some};
ghost use Rattle.std.specs.List.{slice_get};
ghost use Rattle.typed_columns.specs.Items.{item_value};

use crate::Batch;
use std::marker::Model;
use typed_columns::Item;

/// A row of a batch, seen as the list of its values.
#[derive(Drop)]
pub struct RowView<'a> {
    batch: &'a Batch,
    place: usize,
}

impl<'a> Model for RowView<'a> {
    ghost use Rattle.std.specs.Prelude.{List, ◌<◌, length, [], get_or};
    ghost use Rattle.value_types.specs.contracts.value.Value as of_value;
    ghost use Rattle.value_types.specs.declared.value.Value.{Value as Valued};
    ghost use Rattle.std.specs.Coded.{codes};

    ghost Value = { List Valued };

    ghost coded = { Prim.hlevel (codes, of_value.the_row.coded) };

    ghost view = { λ r. get_or r.batch.now.rows r.place [] };

    ghost invariant = { λ r. r.place < length r.batch.now.rows };
}

impl<'a> RowView<'a> {
    #[inline]
    #[tactic(auto, using(crate::proofs::Rows::row_laws))]
    pub(crate) fn of(batch: &'a Batch, place: usize) -> RowView<'a>
        requires { place < length batch.now.rows }
        ensures { slice_get batch.now.rows place ≡ Some result }
    {
        RowView { batch, place }
    }

    /// Lends the value in a column.
    #[inline]
    pub fn item(&self, column: usize) -> Item<'a>
        requires { column < length self.now }
        ensures { slice_get self.now column ≡ Some (item_value result) }
    {
        let batch = self.batch;
        batch.item(self.place, column)
    }
}
