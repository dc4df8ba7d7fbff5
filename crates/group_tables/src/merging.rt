//! Merging: the groups of a later table, and lines of stored states, behind what a table has.
ghost use Rattle.std.specs.Prelude.{map, OnOk};
ghost use Rattle.value_types.specs.Folds.{tree_of, value_of};

use crate::grouping::Grouping;
use crate::joining::{join_columns, join_trees};
use crate::table::GroupTable;
use agg_meaning::law_states;
use agg_typing::law_typing;
use std::alloc::Global;
use value_types::{OutOfMemory, Tree, Value};

impl GroupTable {
    ghost use Rattle.group_tables.specs.Groupings.{IsReady};
    ghost use Rattle.group_tables.specs.Merging.{IsStoredLine, TakesLine, TakesTable};
    ghost use Rattle.group_tables.specs.Tables.{IsTableOf};

    /// Adds the groups of a later table behind those that there are; where a key is in both, the later state is joined
    /// behind the earlier one.
    ///
    /// # Errors
    ///
    /// [`OutOfMemory`] where there is no room, or the groups are more than 2^32; the table is then of unknown content.
    pub fn merge(
        &mut self,
        alloc: Global,
        grouping: &Grouping,
        later: &GroupTable,
    ) -> Result<(), OutOfMemory>
        requires ready { IsReady grouping.now }
        requires table { IsTableOf grouping.now self.old }
        requires later { IsTableOf grouping.now later.now }
        ensures { OnOk result (TakesTable grouping.now later.now self.old self.new) }
    {
        let types = grouping.key_types.as_slice();
        let calls = grouping.calls.as_slice();
        let columns = later.columns.as_slice();
        let places = self.keys.place_keys(alloc, types, &later.keys)?;
        let count = self.keys.len();
        join_columns(alloc, calls, &mut self.columns, count, columns, &places)
    }

    /// Adds a line of stored states: its key where it is new, and for each call the state with its tree behind what the
    /// key has.
    ///
    /// # Errors
    ///
    /// [`OutOfMemory`] where there is no room, or the groups are more than 2^32; the table is then of unknown content.
    pub fn add_line(
        &mut self,
        alloc: Global,
        grouping: &Grouping,
        key: &[Value],
        trees: &[Tree],
    ) -> Result<(), OutOfMemory>
        requires ready { IsReady grouping.now }
        requires table { IsTableOf grouping.now self.old }
        requires line { IsStoredLine grouping.now (map value_of key.now) (map tree_of trees.now) }
        ensures { OnOk result (TakesLine grouping.now (map value_of key.now) (map tree_of trees.now) self.old self.new) }
    {
        law_typing();
        law_states();
        let types = grouping.key_types.as_slice();
        let calls = grouping.calls.as_slice();
        let place = self.keys.place_tuple(alloc, types, key)?;
        let count = self.keys.len();
        join_trees(alloc, calls, &mut self.columns, count, place, trees)
    }
}
