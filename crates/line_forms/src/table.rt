//! The line that names the columns of a table.

use crate::name::WrittenName;
use type_shapes::TypeShape;
use value_lists::Seq;

/// A column: its name and the shape of its type, `None` where types stand in one another more than sixteen deep.
#[derive(Debug, Drop)]
pub struct WrittenColumn {
    pub name: WrittenName,
    pub shape: Option<TypeShape>,
}

/// The columns of a table, one or more.
#[derive(Debug, Drop)]
pub struct WrittenTable {
    pub columns: Seq<WrittenColumn>,
}
