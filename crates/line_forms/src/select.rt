//! The line that asks for calls over groups.

use crate::name::WrittenName;
use value_lists::{Bytes, Seq};
use value_types::Literal;

/// A call: the name of its chain, its parameters and the columns that it is called on. Empty brackets of parameters
/// count as none.
#[derive(Debug, Drop)]
pub struct WrittenCall {
    pub name: Bytes,
    pub params: Seq<Literal>,
    pub arguments: Seq<WrittenName>,
}

/// The calls, one or more, and the keys of the groups.
#[derive(Debug, Drop)]
pub struct WrittenSelect {
    pub calls: Seq<WrittenCall>,
    pub keys: Seq<WrittenName>,
}
