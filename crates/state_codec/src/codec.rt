//! What reads and writes the states in fields.
ghost use Rattle.std.specs.Prelude.{◌≡◌, IfOk, IsTrue, Result};
ghost use Rattle.agg_terms.specs.Fitting.{fits_value};
ghost use Rattle.agg_terms.specs.Values as family;
ghost use Rattle.scalar_texts.specs.States.{IsStateRead};
ghost use Rattle.scalar_texts.specs.declared.fault.StateFault.{StateFault as Fault};
ghost use Rattle.value_types.specs.Folds.{tree_of, ty_of};
ghost use Rattle.state_codec.specs.Codec.{IsLegalState, LegalTypesHaveStates, state_reading, state_text};
ghost use Rattle.state_codec.specs.Gives.{Gives};

use crate::DecodeFault;
use crate::decoding::read_text;
use scalar_texts::{StateFault, StateReadFault, StateReader, StateWriter};
use state_texts::{Version, write_text};
use std::alloc::Global;
use value_types::{Bytes, OutOfMemory, Seq, Tree, Ty};

/// The reader and writer of the states of every legal state type.
#[derive(Clone, Copy, Debug)]
pub struct Codec;

/// The state types inside a legal type are legal: what takes a [`Codec`] with such a type asks for no more.
pub fn law_legal_types_have_states()
    ensures { LegalTypesHaveStates }
{}

fn state_answer(read: Result<Tree, DecodeFault>) -> Result<Tree, StateReadFault>
    ensures { (told : Result family.Tree Fault) → Gives tree_of read told → IsStateRead told result }
{
    match read {
        Ok(tree) => Ok(tree),
        Err(DecodeFault::Bad(fault)) => Err(StateReadFault::Bad(fault)),
        Err(DecodeFault::OutOfMemory) => Err(StateReadFault::OutOfMemory),
    }
}

fn read_state(alloc: Global, ty: &Ty, bytes: &[u8]) -> Result<Tree, StateReadFault>
    requires { IsLegalState (ty_of ty.now) }
    ensures read { IsStateRead (state_reading (ty_of ty.now) bytes.now) result }
    ensures fits { IfOk result (λ tree. IsTrue (fits_value (ty_of ty.now) (family.Cell (tree_of tree)))) }
{
    match ty {
        Ty::State(chain, args) => {
            state_answer(read_text(alloc, chain.get(), args.as_slice(), bytes))
        }
        // No value of another type is a state.
        _ => Err(StateReadFault::Bad(StateFault::Short)),
    }
}

fn write_state(alloc: Global, ty: &Ty, tree: &Tree) -> Result<Bytes, OutOfMemory>
    ensures { IfOk result (λ bytes. bytes ≡ state_text (ty_of ty.now) (tree_of tree.now)) }
{
    match ty {
        Ty::State(chain, args) => {
            write_text(alloc, Version::One, chain.get(), args.as_slice(), tree)
        }
        _ => Ok(Seq::new(alloc)),
    }
}

impl StateReader for Codec {
    ghost takes = { λ _ ty. IsLegalState ty };

    ghost reads = { λ _ ty bytes. state_reading ty bytes };

    fn read(&self, alloc: Global, ty: &Ty, bytes: &[u8]) -> Result<Tree, StateReadFault> {
        read_state(alloc, ty, bytes)
    }
}

impl StateWriter for Codec {
    ghost takes = { λ _ ty. IsLegalState ty };

    ghost writes = { λ _ ty tree. state_text ty tree };

    fn write(&self, alloc: Global, ty: &Ty, tree: &Tree) -> Result<Bytes, OutOfMemory> {
        write_state(alloc, ty, tree)
    }
}
