//! A function with its own parameters.
ghost use Rattle.agg_typing.specs.Parameters as parameters;
ghost use Rattle.chain_params.specs.Faults.{Gives};
ghost use Rattle.chain_params.specs.Literals.{literal_of};
ghost use Rattle.pattern_texts.specs.Machine.{pattern_reader};
ghost use Rattle.std.specs.Prelude.{◌≤◌, map};
ghost use Rattle.value_types.specs.Folds.{leaf_of};

use crate::ChainFault;
use crate::literals::{is_strict_increase, level, max_size, window};
use pattern_texts::{PatternFault, read_pattern};
use std::alloc::Global;
use value_types::{Leaf, LeafName, Literal};

/// The level of `quantileExact` without a parameter, in billionths: one half.
const MEDIAN: u32 = 500000000;

/// `windowFunnel` with its window, and with its mode where there is a second parameter.
fn read_funnel(params: &[Literal]) -> Result<Leaf, ChainFault>
    ensures { Gives leaf_of result (parameters.read_leaf pattern_reader 1 LeafName.WindowFunnel (map literal_of params.now)) }
{
    match params {
        [] => Err(ChainFault::ParamCount),
        [length] => match window(length) {
            Some(window) => Ok(Leaf::WindowFunnel(window, false)),
            None => Err(ChainFault::BadParam(1)),
        },
        [length, mode, ..] => match window(length) {
            Some(window) => {
                if is_strict_increase(mode) {
                    Ok(Leaf::WindowFunnel(window, true))
                } else {
                    Err(ChainFault::BadParam(2))
                }
            }
            None => Err(ChainFault::BadParam(1)),
        },
    }
}

/// A function with its parameters; a pattern is read with so many conditions.
pub fn read_leaf(
    alloc: Global,
    leaf: LeafName,
    params: &[Literal],
    conditions: u32,
) -> Result<Leaf, ChainFault>
    requires low { 1 ≤ conditions }
    requires high { conditions ≤ 32 }
    ensures { Gives leaf_of result (parameters.read_leaf pattern_reader conditions leaf (map literal_of params.now)) }
{
    match leaf {
        LeafName::Count => Ok(Leaf::Count),
        LeafName::Sum => Ok(Leaf::Sum),
        LeafName::Min => Ok(Leaf::Min),
        LeafName::Max => Ok(Leaf::Max),
        LeafName::ArgMin => Ok(Leaf::ArgMin),
        LeafName::ArgMax => Ok(Leaf::ArgMax),
        LeafName::BitAnd => Ok(Leaf::BitAnd),
        LeafName::BitOr => Ok(Leaf::BitOr),
        LeafName::BitXor => Ok(Leaf::BitXor),
        LeafName::UniqExact => Ok(Leaf::UniqExact),
        LeafName::Retention => Ok(Leaf::Retention),
        LeafName::GroupArray => match params {
            [] => Ok(Leaf::GroupArray(None)),
            [most, ..] => match max_size(most) {
                Some(most) => Ok(Leaf::GroupArray(Some(most))),
                None => Err(ChainFault::BadParam(1)),
            },
        },
        LeafName::QuantileExact => match params {
            [] => Ok(Leaf::QuantileExact(MEDIAN)),
            [at, ..] => match level(at) {
                Some(at) => Ok(Leaf::QuantileExact(at)),
                None => Err(ChainFault::BadParam(1)),
            },
        },
        LeafName::WindowFunnel => read_funnel(params),
        LeafName::SequenceMatch => match params {
            [] => Err(ChainFault::ParamCount),
            [Literal::Text(text), ..] => match read_pattern(alloc, text.as_slice(), conditions) {
                Ok(pattern) => Ok(Leaf::SequenceMatch(pattern)),
                Err(PatternFault::At(at)) => Err(ChainFault::BadPattern(at)),
                Err(PatternFault::OutOfMemory) => Err(ChainFault::OutOfMemory),
            },
            [_, ..] => Err(ChainFault::BadParam(1)),
        },
    }
}
