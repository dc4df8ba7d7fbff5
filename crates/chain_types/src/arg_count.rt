//! How many arguments a chain takes.
ghost use Rattle.agg_typing.specs.Counts as rules;
ghost use Rattle.agg_typing.specs.Faults.{no_breach};
ghost use Rattle.agg_typing.specs.Legal.{suffixes_of};
ghost use Rattle.chain_params.specs.Faults.{Gives};
ghost use Rattle.std.specs.Prelude.{◌≡◌, ◌≤◌, ◌+◌, length};
ghost use Rattle.value_types.specs.Folds.{chain_of, leaf_of};

use chain_params::ChainFault;
use value_types::{Chain, Leaf};

/// How few arguments a function takes (manual: the page of each function).
fn leaf_least(leaf: &Leaf) -> u64
    ensures value { result ≡ rules.leaf_least (leaf_of leaf.now) }
    ensures bound { result ≤ 33 }
{
    match leaf {
        Leaf::Count => 0,
        Leaf::ArgMin | Leaf::ArgMax | Leaf::WindowFunnel(_, _) | Leaf::SequenceMatch(_) => 2,
        _ => 1,
    }
}

/// How many arguments a function takes at most (manual: the page of each function).
fn leaf_greatest(leaf: &Leaf) -> u64
    ensures value { result ≡ rules.leaf_greatest (leaf_of leaf.now) }
    ensures bound { result ≤ 33 }
{
    match leaf {
        Leaf::ArgMin | Leaf::ArgMax => 2,
        Leaf::UniqExact | Leaf::Retention => 32,
        Leaf::WindowFunnel(_, _) | Leaf::SequenceMatch(_) => 33,
        _ => 1,
    }
}

fn least(chain: &Chain) -> u64
    requires { length (suffixes_of (chain_of chain.now)) ≤ 8 }
    ensures value { result ≡ rules.least (chain_of chain.now) }
    ensures bound { result ≤ 33 + length (suffixes_of (chain_of chain.now)) }
{
    match chain {
        Chain::Leaf(leaf) => leaf_least(leaf),
        Chain::If(of) | Chain::Resample(_, _, _, of) => least(of.get()) + 1,
        Chain::Array(of) | Chain::ForEach(of) | Chain::Distinct(of) => least(of.get()).max(1),
        Chain::OrNull(of) | Chain::OrDefault(of) | Chain::State(of) => least(of.get()),
        Chain::MapOf(_) | Chain::Merge(_) => 1,
    }
}

fn greatest(chain: &Chain) -> u64
    requires { length (suffixes_of (chain_of chain.now)) ≤ 8 }
    ensures value { result ≡ rules.greatest (chain_of chain.now) }
    ensures bound { result ≤ 33 + length (suffixes_of (chain_of chain.now)) }
{
    match chain {
        Chain::Leaf(leaf) => leaf_greatest(leaf),
        Chain::If(of) | Chain::Resample(_, _, _, of) => greatest(of.get()) + 1,
        Chain::Array(of) | Chain::ForEach(of) | Chain::Distinct(of) => greatest(of.get()),
        Chain::OrNull(of) | Chain::OrDefault(of) | Chain::State(of) => greatest(of.get()),
        Chain::MapOf(_) | Chain::Merge(_) => 1,
    }
}

/// Whether the chain takes so many arguments, with the bound that is broken.
fn takes_count(chain: &Chain, count: u32) -> Result<(), ChainFault>
    requires { length (suffixes_of (chain_of chain.now)) ≤ 8 }
    ensures { Gives (λ x. x) result (no_breach (rules.takes_count (chain_of chain.now) count)) }
{
    let low = least(chain);
    let high = greatest(chain);
    if (count as u64) < low {
        return Err(ChainFault::ArgCount {
            want: low as u32,
            have: count,
        });
    }
    if high < count as u64 {
        return Err(ChainFault::ArgCount {
            want: high as u32,
            have: count,
        });
    }
    Ok(())
}

/// Whether the chain inside each `Map` takes one argument.
fn inside_maps(chain: &Chain) -> Result<(), ChainFault>
    requires { length (suffixes_of (chain_of chain.now)) ≤ 8 }
    ensures { Gives (λ x. x) result (no_breach (rules.inside_maps (chain_of chain.now))) }
{
    match chain {
        Chain::Leaf(_) | Chain::Merge(_) => Ok(()),
        Chain::MapOf(of) => {
            takes_count(of.get(), 1)?;
            inside_maps(of.get())
        }
        Chain::If(of) => inside_maps(of.get()),
        Chain::Resample(_, _, _, of) => inside_maps(of.get()),
        Chain::Array(of) => inside_maps(of.get()),
        Chain::ForEach(of) => inside_maps(of.get()),
        Chain::Distinct(of) => inside_maps(of.get()),
        Chain::OrNull(of) => inside_maps(of.get()),
        Chain::OrDefault(of) => inside_maps(of.get()),
        Chain::State(of) => inside_maps(of.get()),
    }
}

/// First whether the whole chain takes so many arguments, then whether what is inside each `Map` takes one.
pub fn arg_count(chain: &Chain, count: u32) -> Result<(), ChainFault>
    requires { length (suffixes_of (chain_of chain.now)) ≤ 8 }
    ensures { Gives (λ x. x) result (no_breach (rules.arg_count (chain_of chain.now) count)) }
{
    takes_count(chain, count)?;
    inside_maps(chain)
}
