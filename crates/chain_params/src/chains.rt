//! A chain with its parameters, from its outermost link inward.
ghost use Rattle.agg_typing.specs.Parameters as parameters;
ghost use Rattle.agg_typing.specs.Suffixes.{arguments_reaching};
ghost use Rattle.chain_params.specs.Faults.{Gives};
ghost use Rattle.chain_params.specs.Literals.{literal_of};
ghost use Rattle.pattern_texts.specs.Machine.{pattern_reader};
ghost use Rattle.std.specs.Prelude.{◌≡◌, ◌<◌, ◌≤◌, ◌^◌, ◌≢◌, length, map, reverse};
ghost use Rattle.value_types.specs.Folds.{chain_of};

use crate::ChainFault;
use crate::leaves::read_leaf;
use crate::ranges::read_range;
use crate::suffixes::pattern_conditions;
use std::alloc::Global;
use value_types::{Boxed, Chain, LeafName, Literal, Suffix};

/// A suffix other than `Resample` round a chain.
fn under(suffix: Suffix, of: Boxed<Chain>) -> Chain
    requires { suffix ≢ Suffix.Resample }
    ensures { chain_of result ≡ parameters.under suffix (chain_of of) }
{
    match suffix {
        Suffix::If => Chain::If(of),
        Suffix::Array => Chain::Array(of),
        Suffix::MapOf => Chain::MapOf(of),
        Suffix::ForEach => Chain::ForEach(of),
        Suffix::OrNull => Chain::OrNull(of),
        Suffix::OrDefault => Chain::OrDefault(of),
        Suffix::Distinct => Chain::Distinct(of),
        Suffix::State => Chain::State(of),
        Suffix::Merge => Chain::Merge(of),
        Suffix::Resample => unreachable!(),
    }
}

/// The chain of a function under suffixes, where the `Resample`s further out have so many intervals.
fn read_links(
    alloc: Global,
    leaf: LeafName,
    conditions: u32,
    further_out: u64,
    suffixes: &[Suffix],
    params: &[Literal],
) -> Result<Chain, ChainFault>
    requires low { 1 ≤ conditions }
    requires high { conditions ≤ 32 }
    requires further_out { further_out ≤ 65536 }
    requires params { length params.now < 2 ^ 32 }
    ensures { Gives chain_of result (parameters.read_chain pattern_reader conditions leaf further_out (reverse suffixes.now) (map literal_of params.now)) }
{
    match suffixes {
        [] => Ok(Chain::Leaf(read_leaf(alloc, leaf, params, conditions)?)),
        [inner @ .., suffix] => match suffix {
            Suffix::Resample => {
                let before = params.len().saturating_sub(3);
                let (own, last) = params.split_at(before);
                let range = read_range(further_out, before as u32, last)?;
                let of = read_links(alloc, leaf, conditions, range.intervals, inner, own)?;
                let of = Boxed::new(alloc, of)?;
                Ok(Chain::Resample(range.start, range.end, range.step, of))
            }
            other => {
                let of = read_links(alloc, leaf, conditions, further_out, inner, params)?;
                Ok(under(*other, Boxed::new(alloc, of)?))
            }
        },
    }
}

/// The chain of a function under suffixes, these from the inside out, with its parameters. The outermost `Resample`
/// takes the last three of them, and the function those that are left. `arguments` is how many arguments the call has.
///
/// # Errors
///
/// The first from the outermost link inward: [`ChainFault::BadParam`], and then [`ChainFault::BadPattern`]. Where the
/// number of parameters isn't one that the chain takes, [`ChainFault::ParamCount`] may come before them.
/// [`ChainFault::OutOfMemory`] where there is no room for the chain.
pub fn read_chain(
    alloc: Global,
    leaf: LeafName,
    suffixes: &[Suffix],
    params: &[Literal],
    arguments: usize,
) -> Result<Chain, ChainFault>
    requires { length params.now < 2 ^ 32 }
    ensures { Gives chain_of result (parameters.read_chain pattern_reader (parameters.pattern_conditions (arguments_reaching (reverse suffixes.now) arguments)) leaf 1 (reverse suffixes.now) (map literal_of params.now)) }
{
    let conditions = pattern_conditions(suffixes, arguments);
    read_links(alloc, leaf, conditions, 1, suffixes, params)
}
