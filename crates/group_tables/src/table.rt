//! A table of groups in one level.
ghost use Rattle.std.specs.Prelude.{◌≡◌, ◌≤◌, ◌-◌, [], All, length, map, IfOk, OnOk};
ghost use Rattle.std.specs.List.{slice_range};

use crate::calls::{feed_calls, fresh_columns};
use crate::grouping::Grouping;
use agg_typing::law_typing;
use columns::Batch;
use group_keys::KeySet;
use state_columns::StateColumn;
use std::alloc::Global;
use typed_columns::Column;
use value_types::{OutOfMemory, law_types};

/// The groups of the rows so far.
#[derive(Drop)]
pub struct GroupTable {
    pub(crate) keys: KeySet,
    pub(crate) columns: Vec<StateColumn>,
}

impl GroupTable {
    ghost use Rattle.columns.specs.Rows.{AreTyped};
    ghost use Rattle.group_keys.specs.Sets.{count_in};
    ghost use Rattle.group_tables.specs.Groupings.{IsReady};
    ghost use Rattle.group_tables.specs.proving.Rows.{rows_between};
    ghost use Rattle.group_tables.specs.Tables.{AreTables, IsTableOf, TakesRowsOf};

    /// The table of no rows. Without GROUP BY it has the group of the empty tuple.
    ///
    /// # Errors
    ///
    /// [`OutOfMemory`] where there is no room for it.
    pub fn new(alloc: Global, grouping: &Grouping) -> Result<GroupTable, OutOfMemory>
        requires { IsReady grouping.now }
        ensures { IfOk result (λ t. AreTables grouping.now t []) }
    {
        let types = grouping.key_types.as_slice();
        let calls = grouping.calls.as_slice();
        let keys = KeySet::new(alloc, types, grouping.hasher);
        let count = keys.len();
        let columns = fresh_columns(alloc, calls, count)?;
        Ok(GroupTable { keys, columns })
    }

    /// How many groups there are.
    pub fn len(&self) -> usize
        ensures { result ≡ count_in self.now.keys }
    {
        self.keys.len()
    }

    /// Adds the rows of a batch from `from` on and below `to`.
    ///
    /// # Errors
    ///
    /// [`OutOfMemory`] where there is no room, or the groups are more than 2^32; the table is then of unknown content.
    pub fn feed_batch(
        &mut self,
        alloc: Global,
        grouping: &Grouping,
        batch: &Batch,
        from: usize,
        to: usize,
    ) -> Result<(), OutOfMemory>
        requires ready { IsReady grouping.now }
        requires table { IsTableOf grouping.now self.old }
        requires types { batch.now.types ≡ grouping.now.types }
        requires order { from ≤ to }
        requires within { to ≤ length batch.now.rows }
        ensures { OnOk result (TakesRowsOf grouping.now (slice_range batch.now.rows from to) self.old self.new) }
    {
        let columns = batch.columns.as_slice();
        self.feed_columns(alloc, grouping, columns, from, to)
    }

    /// Adds the rows that columns have from `from` on and below `to`.
    fn feed_columns(
        &mut self,
        alloc: Global,
        grouping: &Grouping,
        columns: &[Column],
        from: usize,
        to: usize,
    ) -> Result<(), OutOfMemory>
        requires ready { IsReady grouping.now }
        requires table { IsTableOf grouping.now self.old }
        requires types { map (λ c. c.ty) columns.now ≡ grouping.now.types }
        requires typed { AreTyped columns.now }
        requires order { from ≤ to }
        requires within { All (λ c. to ≤ length c.values) columns.now }
        ensures { OnOk result (TakesRowsOf grouping.now (rows_between columns.now from (to - from)) self.old self.new) }
    {
        law_typing();
        law_types();
        let types = grouping.key_types.as_slice();
        let keys = grouping.keys.as_slice();
        let places = self.keys.place_rows(alloc, types, columns, keys, from, to)?;
        let calls = grouping.calls.as_slice();
        let count = self.keys.len();
        feed_calls(
            alloc,
            calls,
            &mut self.columns,
            count,
            &places,
            columns,
            from,
            to,
        )
    }
}
