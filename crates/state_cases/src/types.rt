//! The type that a case names.
ghost use Rattle.std.specs.Prelude.{◌<◌, ◌^◌, length, IfOk, IfSome};
ghost use Rattle.state_codec.specs.Codec.{IsLegalState};
ghost use Rattle.value_types.specs.Folds.{ty_of};

use chain_types::ChainFault;
use shape_types::{law_read_types_are_legal, law_short_texts_are_countable, type_of};
use std::alloc::Global;
use type_shapes::{ShapeFault, read_type_shape};
use value_types::{OutOfMemory, Ty};

/// The type that a text spells; none where it spells none that is legal.
pub(crate) fn named_type(alloc: Global, text: &[u8]) -> Result<Option<Ty>, OutOfMemory>
    requires { length text.now < 2 ^ 32 }
    ensures { IfOk result (λ found. IfSome found (λ ty. IsLegalState (ty_of ty))) }
{
    law_read_types_are_legal();
    law_short_texts_are_countable();
    match read_type_shape(alloc, text) {
        Ok(shape) => match type_of(alloc, &shape) {
            Ok(ty) => Ok(Some(ty)),
            Err(ChainFault::OutOfMemory) => Err(OutOfMemory),
            Err(_) => Ok(None),
        },
        Err(ShapeFault::OutOfMemory) => Err(OutOfMemory),
        Err(_) => Ok(None),
    }
}
