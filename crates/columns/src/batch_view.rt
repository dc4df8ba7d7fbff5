//! A run of rows in place.
ghost use Rattle.std.specs.Prelude.{◌≡◌, ◌<◌, ◌≤◌, length, Some};
ghost use Rattle.std.specs.List.{slice_get, slice_range};

use crate::{Batch, RowView};
use std::marker::Model;

/// Neighbouring rows of a batch, seen as the list of them.
#[derive(Drop)]
pub struct BatchView<'a> {
    batch: &'a Batch,
    from: usize,
    to: usize,
}

impl<'a> Model for BatchView<'a> {
    ghost use Rattle.std.specs.Prelude.{List, ◌≤◌, length};
    ghost use Rattle.std.specs.List.{slice_range};
    ghost use Rattle.value_types.specs.contracts.value.Value as of_value;
    ghost use Rattle.value_types.specs.declared.value.Value.{Value as Valued};
    ghost use Rattle.std.specs.Coded.{codes};

    ghost Value = { List (List Valued) };

    ghost coded = { Prim.hlevel (codes, of_value.the_row.coded) };

    ghost view = { λ v. slice_range v.batch.now.rows v.from v.to };

    ghost invariant = { λ v. (v.from ≤ v.to) × (v.to ≤ length v.batch.now.rows) };
}

impl<'a> BatchView<'a> {
    #[inline]
    pub(crate) fn of(batch: &'a Batch, from: usize, to: usize) -> BatchView<'a>
        requires order { from ≤ to }
        requires within { to ≤ length batch.now.rows }
        ensures { result ≡ slice_range batch.now.rows from to }
    {
        BatchView { batch, from, to }
    }

    /// How many rows there are.
    #[inline]
    #[tactic(auto, using(column_parts::proofs::Cuts::cut_laws))]
    pub fn len(&self) -> usize
        ensures { result ≡ length self.now }
    {
        self.to - self.from
    }

    /// The row at a place.
    #[inline]
    #[tactic(auto, using(column_parts::proofs::Cuts::cut_laws))]
    pub fn row(&self, place: usize) -> RowView<'a>
        requires { place < length self.now }
        ensures { slice_get self.now place ≡ Some result }
    {
        let (batch, from, _to) = (self.batch, self.from, self.to);
        RowView::of(batch, from + place)
    }
}
