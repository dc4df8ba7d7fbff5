//! Fields of a kind, read over and over.
ghost use Rattle.scalar_texts.specs.States.{AllStates};
ghost use Rattle.value_types.specs.Folds.{ty_of};

use crate::fault::BenchFault;
use crate::fields::fields;
use crate::kinds::Kind;
use crate::no_states::NoStates;
use std::alloc::Global;
use std::rt::Clock;
use std::time::Instant;
use tsv_values::read_value;
use value_types::{Bytes, Ty};

/// Reads each field once, and says how many were values of the type.
fn read_all(alloc: Global, ty: &Ty, fields: &[Bytes]) -> u64
    requires { AllStates (λ _. Unit {0}) (ty_of ty.now) }
{
    let mut values = 0u64;
    for field in fields {
        if read_value(alloc, &NoStates, ty, field.as_slice()).is_ok() {
            values = values.wrapping_add(1);
        }
    }
    values
}

/// Prints how many fields of the kind were read, and how many that is in a second.
pub fn report<R: Print + Clock>(rt: &R, alloc: Global, kind: Kind) -> Result<(), BenchFault> {
    let fields = fields(alloc, kind)?;
    let ty = kind.ty(alloc)?;
    let mut values = 0u64;
    let start = Instant::now(rt)?;
    for _turn in 0..kind.turns() {
        values = values.wrapping_add(read_all(alloc, &ty, fields.as_slice()));
    }
    let micros = start.elapsed(rt)?.as_micros().max(1);
    let rate = u128::from(values) * 1_000_000 / micros;
    println!(rt; "{} {values} {rate}", kind.name())?;
    Ok(())
}
