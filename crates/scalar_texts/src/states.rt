//! What reads and writes the bytes of states.
ghost use Rattle.std.specs.Prelude.{◌≡◌, ℕ, List, Result, IfOk, IsTrue};
ghost use Rattle.agg_terms.specs.Fitting.{fits_value};
ghost use Rattle.agg_terms.specs.Chains as terms;
ghost use Rattle.agg_terms.specs.Values as family;
ghost use Rattle.value_types.specs.Folds.{tree_of, ty_of};
ghost use Rattle.scalar_texts.specs.States.{IsStateRead};
ghost use Rattle.scalar_texts.specs.declared.fault.StateFault.{StateFault};

use crate::fault::StateReadFault;
use std::alloc::Global;
use value_types::{Bytes, OutOfMemory, Tree, Ty};

/// What reads the bytes of states.
pub trait StateReader {
    /// The state types that it reads.
    ghost takes: { Self → terms.Ty → Type 0 };

    /// The tree that bytes stand for in a state type, or their first fault.
    ghost reads: { Self → terms.Ty → List ℕ → Result family.Tree StateFault };

    /// The tree that the bytes stand for, which is one of the type.
    ///
    /// # Errors
    ///
    /// [`StateReadFault::Bad`] with the first fault of other bytes, [`StateReadFault::OutOfMemory`] where there is no room.
    fn read(&self, alloc: Global, ty: &Ty, bytes: &[u8]) -> Result<Tree, StateReadFault>
        requires { takes self.now (ty_of ty.now) }
        ensures read { IsStateRead (reads self.now (ty_of ty.now) bytes.now) result }
        ensures fits { IfOk result (λ tree. IsTrue (fits_value (ty_of ty.now) (family.Cell (tree_of tree)))) };
}

/// What writes the bytes of states.
pub trait StateWriter {
    /// The state types that it writes.
    ghost takes: { Self → terms.Ty → Type 0 };

    /// The bytes of a tree of a state type.
    ghost writes: { Self → terms.Ty → family.Tree → List ℕ };

    /// The bytes of a tree of the type.
    ///
    /// # Errors
    ///
    /// [`OutOfMemory`] where there is no room for them.
    fn write(&self, alloc: Global, ty: &Ty, tree: &Tree) -> Result<Bytes, OutOfMemory>
        requires ty { takes self.now (ty_of ty.now) }
        requires fits { IsTrue (fits_value (ty_of ty.now) (family.Cell (tree_of tree.now))) }
        ensures { IfOk result (λ bytes. bytes ≡ writes self.now (ty_of ty.now) (tree_of tree.now)) };
}
