//! Reading a table: its groups in the order of the answer, and the line of each.
ghost use Rattle.std.specs.Prelude.{◌≡◌, map, IfOk};

use crate::grouping::Grouping;
use crate::lines::{add_results, add_values};
use crate::table::GroupTable;
use agg_typing::law_typing;
use std::alloc::Global;
use value_types::{OutOfMemory, Seq, Ty, Value, copy_types};

impl Grouping {
    ghost use Rattle.group_tables.specs.Groupings.{IsReady, answer_types, view_of};
    ghost use Rattle.value_types.specs.Folds.{ty_of};

    /// The types of the fields of an answer's line: the keys', and then the results'.
    ///
    /// # Errors
    ///
    /// [`OutOfMemory`] where there is no room for them.
    pub fn answer_types(&self, alloc: Global) -> Result<Seq<Ty>, OutOfMemory>
        requires { IsReady self.now }
        ensures { IfOk result (λ types. map ty_of types ≡ answer_types (map ty_of self.now.types) (view_of self.now)) }
    {
        let calls = self.calls.as_slice();
        let mut types = copy_types(alloc, self.key_types.as_slice())?;
        types.reserve(calls.len())?;
        add_results(alloc, calls, &mut types)?;
        Ok(types)
    }
}

impl GroupTable {
    ghost use Rattle.group_tables.specs.Groupings.{IsReady};
    ghost use Rattle.group_tables.specs.Reading.{AreInOrder, IsLineOf, IsPlaced};
    ghost use Rattle.group_tables.specs.Tables.{IsTableOf};
    ghost use Rattle.value_types.specs.Folds.{value_of};

    /// The places of the groups in the order of the answer: ascending keys, NULL first.
    ///
    /// # Errors
    ///
    /// [`OutOfMemory`] where there is no room, or the places have no room in 32 bits.
    pub fn groups_in_order(
        &self,
        alloc: Global,
        grouping: &Grouping,
    ) -> Result<Vec<u32>, OutOfMemory>
        requires ready { IsReady grouping.now }
        requires table { IsTableOf grouping.now self.now }
        ensures { IfOk result (λ places. AreInOrder grouping.now self.now places.items) }
    {
        let types = grouping.key_types.as_slice();
        self.keys.places_in_order(alloc, types)
    }

    /// The line of the group at a place: the values of its key, and then what each call means in it.
    ///
    /// # Errors
    ///
    /// [`OutOfMemory`] where there is no room for the values.
    pub fn line(
        &self,
        alloc: Global,
        grouping: &Grouping,
        place: u32,
    ) -> Result<Seq<Value>, OutOfMemory>
        requires ready { IsReady grouping.now }
        requires table { IsTableOf grouping.now self.now }
        requires place { IsPlaced grouping.now self.now place }
        ensures { IfOk result (λ values. IsLineOf grouping.now self.now place (map value_of values)) }
    {
        law_typing();
        let types = grouping.key_types.as_slice();
        let calls = grouping.calls.as_slice();
        let columns = self.columns.as_slice();
        let mut values = self.keys.tuple(alloc, types, place as usize)?;
        values.reserve(calls.len())?;
        add_values(alloc, calls, columns, place as usize, &mut values)?;
        Ok(values)
    }
}
