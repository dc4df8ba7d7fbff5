//! The name of a chain: a function, and behind it its suffixes from the inside out.

ghost use Rattle.std.specs.Prelude.{◌≡◌};
ghost use Rattle.agg_typing.specs.Names.{read_name};
ghost use Rattle.type_names.specs.Reads.{IsReadAs};

use crate::words::{read_function, read_suffix};
use agg_terms::{LeafName, Suffix};
use std::alloc::Global;
use thiserror::Error;
use value_lists::{OutOfMemory, Seq};

/// The most suffixes that a chain may have.
const MOST_SUFFIXES: usize = 8;

/// A function and its suffixes, these from the inside out.
#[derive(Debug, Drop)]
pub struct NameShape {
    pub leaf: LeafName,
    pub suffixes: Seq<Suffix>,
}

/// Why a name is that of no chain.
#[derive(Debug, Drop, Error)]
pub enum NameFault {
    /// The place from which no function or suffix can be read, in bytes from 0.
    #[error("unknown name at {0}")]
    Unknown(u64),
    #[error("too many suffixes")]
    TooManySuffixes,
    #[error("out of memory")]
    OutOfMemory,
}

impl From<OutOfMemory> for NameFault {
    ghost use Rattle.type_names.specs.declared.chain_name.NameFault.{NameFault};

    ghost from_gives = { λ _ fault. fault ≡ NameFault.OutOfMemory };

    fn from(_error: OutOfMemory) -> Self {
        NameFault::OutOfMemory
    }
}

/// Reads the name of a chain from the left (manual: "Aggregate function combinators").
///
/// # Errors
/// `Unknown` is the place from which no function or suffix can be read. `TooManySuffixes` comes where all is read and
/// there are more than eight suffixes.
pub fn read_chain_name(alloc: Global, name: &[u8]) -> Result<NameShape, NameFault>
    ensures { IsReadAs (read_name name.now) result }
{
    let Some((leaf, text)) = read_function(name) else {
        return Err(NameFault::Unknown(0));
    };
    let mut suffixes = Seq::new(alloc);
    let mut rest = text;
    while !rest.is_empty() {
        match read_suffix(rest) {
            None => return Err(NameFault::Unknown((name.len() - rest.len()) as u64)),
            Some((suffix, after)) => {
                suffixes.push(suffix)?;
                rest = after;
            }
        }
    }
    if suffixes.len() > MOST_SUFFIXES {
        return Err(NameFault::TooManySuffixes);
    }
    Ok(NameShape { leaf, suffixes })
}
