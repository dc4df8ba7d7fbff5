//! Rows in a set that keeps the order in which they came. ClickHouse manual: "Aggregate function combinators", -Distinct.
ghost use Rattle.std.specs.Prelude.{◌≡◌, ◌<◌, ◌++◌, ◌∷◌, [], get_or, length, map, IfOk, OnOk};
ghost use Rattle.agg_terms.specs.Order.{compare_rows, firsts};
ghost use Rattle.int_leaves.specs.Rows.{argument};
ghost use Rattle.value_types.specs.Folds.{value_of};
ghost use Rattle.distinct_rows.specs.Rows.{AreFirsts, rows_in};

use indexmap::IndexSet;
use set_leaves::Tuple;
use std::alloc::Global;
use typed_columns::Item;
use value_types::{OutOfMemory, Seq, Value, copy_values};

/// Different rows, in the order in which they first came.
#[derive(Drop)]
pub struct DistinctRows {
    rows: IndexSet<Tuple>,
}

/// The values of a row, of its own.
#[tactic(auto, using(crate::proofs::Inserted::owned))]
fn own_row(alloc: Global, row: &[Item<'_>]) -> Result<Seq<Value>, OutOfMemory>
    ensures { IfOk result (λ values. map value_of values ≡ map argument row.now) }
{
    let mut values = Seq::new(alloc);
    values.reserve(row.len())?;
    for i in 0..row.len() {
        values.push(row[i].to_value(alloc)?)?;
    }
    Ok(values)
}

impl DistinctRows {
    /// No rows. Takes no memory.
    pub fn new(alloc: Global) -> DistinctRows
        ensures { rows_in result ≡ [] }
    {
        DistinctRows {
            rows: IndexSet::new(alloc),
        }
    }

    /// How many rows there are.
    pub fn len(&self) -> usize
        ensures { result ≡ length (rows_in self.now) }
    {
        self.rows.len()
    }

    /// Lends the values of the row at a place.
    pub fn row(&self, place: usize) -> &[Value]
        requires { place < length (rows_in self.now) }
        ensures { map value_of result.now ≡ get_or (rows_in self.now) place [] }
    {
        let rows = self.rows.as_slice();
        rows[place].values.as_slice()
    }

    /// Adds a row, if it isn't there.
    fn insert(&mut self, values: Seq<Value>) -> Result<(), OutOfMemory>
        requires { AreFirsts (rows_in self.old) }
        ensures { OnOk result (rows_in self.new ≡ firsts compare_rows (rows_in self.old ++ map value_of values ∷ [])) }
    {
        self.rows.insert(Tuple { values })?;
        Ok(())
    }

    /// Adds a row, if it isn't there.
    ///
    /// # Errors
    ///
    /// [`OutOfMemory`] where there is no room for it.
    pub fn insert_items(&mut self, alloc: Global, row: &[Item<'_>]) -> Result<(), OutOfMemory>
        requires { AreFirsts (rows_in self.old) }
        ensures { OnOk result (rows_in self.new ≡ firsts compare_rows (rows_in self.old ++ map argument row.now ∷ [])) }
    {
        self.insert(own_row(alloc, row)?)
    }

    /// Adds copies of rows, those that aren't there.
    ///
    /// # Errors
    ///
    /// [`OutOfMemory`] where there is no room for them; some may have been added.
    pub fn insert_all(&mut self, alloc: Global, rows: &[Seq<Value>]) -> Result<(), OutOfMemory>
        requires { AreFirsts (rows_in self.old) }
        ensures { OnOk result (rows_in self.new ≡ firsts compare_rows (rows_in self.old ++ map (map value_of) rows.now)) }
    {
        for i in 0..rows.len() {
            self.insert(copy_values(alloc, rows[i].as_slice())?)?;
        }
        Ok(())
    }

    /// Adds the rows of a later set that aren't there.
    ///
    /// # Errors
    ///
    /// [`OutOfMemory`] where there is no room for them; some may have been added.
    pub fn merge(&mut self, alloc: Global, later: &DistinctRows) -> Result<(), OutOfMemory>
        requires { AreFirsts (rows_in self.old) }
        ensures { OnOk result (rows_in self.new ≡ firsts compare_rows (rows_in self.old ++ rows_in later.now)) }
    {
        let rows = later.rows.as_slice();
        for i in 0..rows.len() {
            self.insert(copy_values(alloc, rows[i].values.as_slice())?)?;
        }
        Ok(())
    }

    /// The same rows again.
    ///
    /// # Errors
    ///
    /// [`OutOfMemory`] where there is no room for them.
    pub fn copy(&self, alloc: Global) -> Result<DistinctRows, OutOfMemory>
        requires { AreFirsts (rows_in self.now) }
        ensures { IfOk result (λ copied. rows_in copied ≡ rows_in self.now) }
    {
        let mut copied = DistinctRows::new(alloc);
        copied.merge(alloc, self)?;
        Ok(copied)
    }

    /// The values of all rows.
    ///
    /// # Errors
    ///
    /// [`OutOfMemory`] where there is no room for them.
    pub fn rows(&self, alloc: Global) -> Result<Seq<Seq<Value>>, OutOfMemory>
        ensures { IfOk result (λ rows. map (map value_of) rows ≡ rows_in self.now) }
    {
        let kept = self.rows.as_slice();
        let mut rows = Seq::new(alloc);
        rows.reserve(kept.len())?;
        for i in 0..kept.len() {
            rows.push(copy_values(alloc, kept[i].values.as_slice())?)?;
        }
        Ok(rows)
    }
}
