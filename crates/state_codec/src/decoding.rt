//! A tree from its text, and its text again.
ghost use Rattle.std.specs.Prelude.{◌≡◌, ◌<◌, ◌^◌, length, map, IfOk};
ghost use Rattle.agg_terms.specs.Trees.{IsTree};
ghost use Rattle.agg_terms.specs.Values.{Tree as Family};
ghost use Rattle.value_types.specs.Folds.{chain_of, tree_of, ty_of};
ghost use Rattle.state_texts.specs.Texts.{text};
ghost use Rattle.state_texts.specs.Versions.{version_byte, written};
ghost use Rattle.state_codec.specs.Gives.{Gives, IsFound, IsOnly, IsReadBack, IsWrittenBack};
ghost use Rattle.state_codec.specs.Reading.{reading};

use crate::DecodeFault;
use crate::bodies::body_at;
use crate::source::{Source, place_of};
use agg_defs::Legal;
use agg_values::Peels;
use scalar_texts::StateFault;
use state_texts::{Version, write_text};
use std::alloc::Global;
use value_types::{Bytes, Chain, OutOfMemory, Tree, Ty};

/// The tree of a chain over these types whose text the bytes are.
#[tactic(auto, unfolding(crate::specs::Reading::reading))]
pub(crate) fn read_text(
    alloc: Global,
    chain: &Chain,
    types: &[Ty],
    bytes: &[u8],
) -> Result<Tree, DecodeFault>
    ensures { Gives tree_of result (reading (chain_of chain.now) (map ty_of types.now) bytes.now) }
{
    match bytes {
        [] => Err(DecodeFault::Bad(StateFault::Short)),
        [byte, body @ ..] => {
            let whole = bytes.len();
            let version = match Version::of_byte(*byte) {
                Some(version) => version,
                None => return Err(DecodeFault::Bad(StateFault::Version(*byte))),
            };
            let from = Source {
                alloc,
                version,
                whole,
            };
            let (tree, rest) = body_at(chain, types, &Peels::Whole, from, body)?;
            if !rest.is_empty() {
                return Err(DecodeFault::Bad(StateFault::Long(place_of(whole, rest))));
            }
            Ok(tree)
        }
    }
}

/// The state tree of the chain whose text the bytes are, in any version.
///
/// A hostile length takes no memory before its bytes are there: the memory that is taken grows with the number of bytes alone.
/// A hash of its values tells whether a tuple of a Distinct was read before, so the time grows with the number of bytes too, unless
/// many hashes are the same.
///
/// # Errors
///
/// - [`DecodeFault::Bad`]: the bytes are no state text, with the first fault from the left. Its place counts the bytes before it.
/// - [`DecodeFault::OutOfMemory`]: there is no room for the tree.
pub fn decode(alloc: Global, legal: &Legal, bytes: &[u8]) -> Result<Tree, DecodeFault>
    // What is read is spelled so.
    ensures found { IsFound (chain_of legal.now.chain) (map ty_of legal.now.args) bytes.now result }
    // What is spelled so is read, unless memory runs out.
    ensures only { IsOnly (chain_of legal.now.chain) (map ty_of legal.now.args) bytes.now result }
    // Which fault it is.
    ensures exact { Gives tree_of result (reading (chain_of legal.now.chain) (map ty_of legal.now.args) bytes.now) }
    // Written again, it is the same bytes.
    ensures again { IsWrittenBack (chain_of legal.now.chain) (map ty_of legal.now.args) bytes.now result }
{
    // A slice has fewer than 2^64 bytes.
    let _whole = bytes.len();
    read_text(alloc, legal.chain(), legal.args(), bytes)
}

/// The text of a tree of a chain over these types. A list has fewer than 2^64 bytes.
fn short_text(alloc: Global, chain: &Chain, types: &[Ty], tree: &Tree) -> Result<Bytes, OutOfMemory>
    ensures text { IfOk result (λ bytes. bytes ≡ text written (chain_of chain.now) (map ty_of types.now) (tree_of tree.now)) }
    ensures short { IfOk result (λ bytes. length bytes < 2 ^ 64) }
{
    let bytes = write_text(alloc, Version::One, chain, types, tree)?;
    let _whole = bytes.len();
    Ok(bytes)
}

/// The text of a tree of the chain, in the version that is written.
///
/// # Errors
///
/// [`OutOfMemory`] where there is no room for it.
pub fn encode(alloc: Global, legal: &Legal, tree: &Tree) -> Result<Bytes, OutOfMemory>
    ensures text { IfOk result (λ bytes. bytes ≡ text written (chain_of legal.now.chain) (map ty_of legal.now.args) (tree_of tree.now)) }
    // A state tree is read back.
    ensures back { IsReadBack (chain_of legal.now.chain) (map ty_of legal.now.args) (tree_of tree.now) result }
{
    short_text(alloc, legal.chain(), legal.args(), tree)
}
