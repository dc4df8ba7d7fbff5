//! The columns of a table.
ghost use Rattle.std.specs.Prelude.{◌≡◌, IfOk};

use std::alloc::Global;
use value_types::{Bytes, OutOfMemory, Seq, Ty};

/// A column: its name in the request and the type of its fields.
#[derive(Drop)]
pub struct Column {
    pub name: Bytes,
    pub ty: Ty,
}

/// The columns of a table, in the order of a row's fields.
#[derive(Drop)]
pub struct Schema {
    pub columns: Seq<Column>,
}

impl Column {
    /// An equal column.
    ///
    /// # Errors
    ///
    /// [`OutOfMemory`] where there is no room for it.
    pub fn copy(&self, alloc: Global) -> Result<Column, OutOfMemory>
        ensures { IfOk result (λ column. column ≡ self.now) }
    {
        Ok(Column {
            name: Seq::from_slice(alloc, self.name.as_slice())?,
            ty: self.ty.copy(alloc)?,
        })
    }
}

impl Schema {
    /// An equal schema.
    ///
    /// # Errors
    ///
    /// [`OutOfMemory`] where there is no room for it.
    pub fn copy(&self, alloc: Global) -> Result<Schema, OutOfMemory>
        ensures { IfOk result (λ schema. schema ≡ self.now) }
    {
        Ok(Schema {
            columns: copy_columns(alloc, self.columns.as_slice())?,
        })
    }
}

fn copy_columns(alloc: Global, columns: &[Column]) -> Result<Seq<Column>, OutOfMemory>
    ensures { IfOk result (λ copied. copied ≡ columns.now) }
{
    let mut copied = Seq::new(alloc);
    for column in columns {
        copied.push(column.copy(alloc)?)?;
    }
    Ok(copied)
}
