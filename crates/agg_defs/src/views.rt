//! The views of a script.
ghost use Rattle.std.specs.Prelude.{◌≡◌, IfOk};

use crate::{GroupPlan, Schema};
use std::alloc::Global;
use value_types::{Bytes, OutOfMemory, Seq};

/// A view: its name, and what it asks of the rows.
#[derive(Drop)]
pub struct View {
    pub name: Bytes,
    pub plan: GroupPlan,
}

/// The views of a script, in their order, and the one table that they all see.
#[derive(Drop)]
pub struct Views {
    pub schema: Schema,
    pub list: Seq<View>,
}

impl View {
    /// An equal view.
    ///
    /// # Errors
    ///
    /// [`OutOfMemory`] where there is no room for it.
    pub fn copy(&self, alloc: Global) -> Result<View, OutOfMemory>
        ensures { IfOk result (λ view. view ≡ self.now) }
    {
        Ok(View {
            name: Seq::from_slice(alloc, self.name.as_slice())?,
            plan: self.plan.copy(alloc)?,
        })
    }
}

impl Views {
    /// Equal views.
    ///
    /// # Errors
    ///
    /// [`OutOfMemory`] where there is no room for them.
    pub fn copy(&self, alloc: Global) -> Result<Views, OutOfMemory>
        ensures { IfOk result (λ views. views ≡ self.now) }
    {
        Ok(Views {
            schema: self.schema.copy(alloc)?,
            list: copy_views(alloc, self.list.as_slice())?,
        })
    }
}

fn copy_views(alloc: Global, views: &[View]) -> Result<Seq<View>, OutOfMemory>
    ensures { IfOk result (λ copied. copied ≡ views.now) }
{
    let mut copied = Seq::new(alloc);
    for view in views {
        copied.push(view.copy(alloc)?)?;
    }
    Ok(copied)
}
