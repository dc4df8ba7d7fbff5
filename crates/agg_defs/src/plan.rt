//! The calls and keys of a grouping.
ghost use Rattle.std.specs.Prelude.{◌≡◌, IfOk};

use crate::Legal;
use std::alloc::Global;
use value_types::{OutOfMemory, Seq};

/// A call of a SELECT: its chain with types, and the columns that are its arguments. Columns count from 0.
#[derive(Drop)]
pub struct Call {
    pub legal: Legal,
    pub columns: Seq<u32>,
}

/// What is asked of the rows: the calls, and the columns by which rows are grouped.
#[derive(Drop)]
pub struct GroupPlan {
    pub calls: Seq<Call>,
    pub keys: Seq<u32>,
}

impl Call {
    /// An equal call.
    ///
    /// # Errors
    ///
    /// [`OutOfMemory`] where there is no room for it.
    pub fn copy(&self, alloc: Global) -> Result<Call, OutOfMemory>
        ensures { IfOk result (λ call. call ≡ self.now) }
    {
        Ok(Call {
            legal: self.legal.copy(alloc)?,
            columns: Seq::from_slice(alloc, self.columns.as_slice())?,
        })
    }
}

impl GroupPlan {
    /// An equal plan.
    ///
    /// # Errors
    ///
    /// [`OutOfMemory`] where there is no room for it.
    pub fn copy(&self, alloc: Global) -> Result<GroupPlan, OutOfMemory>
        ensures { IfOk result (λ plan. plan ≡ self.now) }
    {
        Ok(GroupPlan {
            calls: copy_calls(alloc, self.calls.as_slice())?,
            keys: Seq::from_slice(alloc, self.keys.as_slice())?,
        })
    }
}

fn copy_calls(alloc: Global, calls: &[Call]) -> Result<Seq<Call>, OutOfMemory>
    ensures { IfOk result (λ copied. copied ≡ calls.now) }
{
    let mut copied = Seq::new(alloc);
    for call in calls {
        copied.push(call.copy(alloc)?)?;
    }
    Ok(copied)
}
