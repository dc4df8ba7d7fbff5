//! A reader of states for tables that have none.
ghost use Rattle.std.specs.Prelude.{◌≡◌, Err};
ghost use Rattle.scalar_texts.specs.declared.fault.StateFault.TheVariants.{Short};

use std::alloc::Global;
use tsv_values::{StateFault, StateReadFault, StateReader};
use value_types::{Tree, Ty};

/// Reads no state.
pub struct NoStates;

impl StateReader for NoStates {
    ghost takes = { λ _ _. Unit {0} };

    ghost reads = { λ _ _ _. Err Short };

    fn read(&self, _alloc: Global, _ty: &Ty, _bytes: &[u8]) -> Result<Tree, StateReadFault> {
        Err(StateReadFault::Bad(StateFault::Short))
    }
}
