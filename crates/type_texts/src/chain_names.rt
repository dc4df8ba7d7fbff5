//! The name of a chain: its function's, and behind it those of its suffixes from the inside out.

ghost use Rattle.std.specs.Prelude.{◌≡◌, ◌++◌, IfOk, OnOk};
ghost use Rattle.value_types.specs.Folds.{leaf_of, chain_of};
ghost use Rattle.type_texts.specs.ChainNames.{leaf_name, chain_name};
ghost use Rattle.type_texts.specs.ReadsBack.{NameReadsBack};

use agg_terms::{LeafName, Suffix};
use std::alloc::Global;
use type_names::{function_name, suffix_name};
use value_lists::{Bytes, OutOfMemory, Seq};
use value_types::{Chain, Leaf};

/// The function's name, without its parameters.
fn leaf_name(leaf: &Leaf) -> LeafName
    ensures { result ≡ leaf_name (leaf_of leaf.now) }
{
    match leaf {
        Leaf::Count => LeafName::Count,
        Leaf::Sum => LeafName::Sum,
        Leaf::Min => LeafName::Min,
        Leaf::Max => LeafName::Max,
        Leaf::ArgMin => LeafName::ArgMin,
        Leaf::ArgMax => LeafName::ArgMax,
        Leaf::BitAnd => LeafName::BitAnd,
        Leaf::BitOr => LeafName::BitOr,
        Leaf::BitXor => LeafName::BitXor,
        Leaf::GroupArray(_) => LeafName::GroupArray,
        Leaf::UniqExact => LeafName::UniqExact,
        Leaf::QuantileExact(_) => LeafName::QuantileExact,
        Leaf::WindowFunnel(_, _) => LeafName::WindowFunnel,
        Leaf::SequenceMatch(_) => LeafName::SequenceMatch,
        Leaf::Retention => LeafName::Retention,
    }
}

/// Writes the name of a chain behind a text.
pub fn write_chain(chain: &Chain, text: &mut Bytes) -> Result<(), OutOfMemory>
    ensures { OnOk result (text.new ≡ text.old ++ chain_name (chain_of chain.now)) }
{
    let (inner, suffix) = match chain {
        Chain::Leaf(leaf) => return text.extend_from_slice(function_name(leaf_name(leaf))),
        Chain::If(inner) => (inner, Suffix::If),
        Chain::Array(inner) => (inner, Suffix::Array),
        Chain::MapOf(inner) => (inner, Suffix::MapOf),
        Chain::ForEach(inner) => (inner, Suffix::ForEach),
        Chain::OrNull(inner) => (inner, Suffix::OrNull),
        Chain::OrDefault(inner) => (inner, Suffix::OrDefault),
        Chain::Distinct(inner) => (inner, Suffix::Distinct),
        Chain::Resample(_, _, _, inner) => (inner, Suffix::Resample),
        Chain::State(inner) => (inner, Suffix::State),
        Chain::Merge(inner) => (inner, Suffix::Merge),
    };
    write_chain(inner.get(), text)?;
    text.extend_from_slice(suffix_name(suffix))
}

/// The name of a chain, as `sumArrayIf` (manual: "Aggregate function combinators").
///
/// # Errors
/// [`OutOfMemory`] where there is no room for it.
pub fn print_chain(alloc: Global, chain: &Chain) -> Result<Bytes, OutOfMemory>
    ensures { IfOk result (λ text. text ≡ chain_name (chain_of chain.now)) }
{
    let mut text = Seq::new(alloc);
    write_chain(chain, &mut text)?;
    Ok(text)
}

/// The name of a chain of at most eight suffixes is read back as its function and its suffixes.
pub fn law_name_reads_back()
    ensures { NameReadsBack }
{}
