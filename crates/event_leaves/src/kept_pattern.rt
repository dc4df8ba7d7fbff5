//! An own copy of a pattern.
ghost use Rattle.std.specs.Prelude.{◌≡◌, IfOk};
ghost use Rattle.event_leaves.specs.proving.Patterns.{IsSearched};

use std::alloc::Global;
use std::marker::Model;
use value_types::{OutOfMemory, Pattern};

/// A pattern of 1 to 64 items, with a link between each two.
#[derive(Drop)]
pub struct KeptPattern {
    pattern: Pattern,
}

impl Model for KeptPattern {
    ghost use Rattle.value_types.specs.declared.pattern.Pattern.{Pattern as Patterned};
    ghost use Rattle.event_leaves.specs.proving.Patterns.{IsSearched};

    ghost Value = { Patterned };

    ghost view = { λ a. a.pattern };

    ghost invariant = { λ a. IsSearched a.pattern };
}

impl KeptPattern {
    /// A copy of a pattern.
    ///
    /// # Errors
    ///
    /// [`OutOfMemory`] where there is no room for it.
    pub fn of(alloc: Global, pattern: &Pattern) -> Result<KeptPattern, OutOfMemory>
        requires { IsSearched pattern.now }
        ensures { IfOk result (λ kept. kept ≡ pattern.now) }
    {
        Ok(KeptPattern {
            pattern: pattern.copy(alloc)?,
        })
    }

    /// The pattern.
    pub fn pattern(&self) -> &Pattern
        ensures pattern { result.now ≡ self.now }
        ensures sound { IsSearched self.now }
    {
        &self.pattern
    }
}
