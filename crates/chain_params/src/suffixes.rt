//! What the suffixes of a name alone say. They stand from the inside out, as in the name.
ghost use Rattle.agg_typing.specs.Parameters as parameters;
ghost use Rattle.agg_typing.specs.Suffixes as rules;
ghost use Rattle.std.specs.Prelude.{◌≡◌, ◌≤◌, length, reverse};

use value_types::{LeafName, Suffix};

/// Whether an `Array` stands further out than an `If`
/// (manual: "Aggregate function combinators", -Array).
pub fn has_array_outside_if(suffixes: &[Suffix]) -> bool
    ensures { result ≡ rules.has_array_outside_if (reverse suffixes.now) }
{
    let mut over_if = false;
    let mut outside = false;
    for suffix in suffixes {
        match suffix {
            Suffix::Array => outside = outside || over_if,
            Suffix::If => over_if = true,
            _ => {}
        }
    }
    outside
}

/// How many parameters the `Resample`s take.
fn resample_params(suffixes: &[Suffix]) -> usize
    requires { length suffixes.now ≤ 8 }
    ensures value { result ≡ rules.resample_params (reverse suffixes.now) }
    ensures bound { result ≤ 24 }
{
    let mut all = 0;
    for suffix in suffixes {
        if let Suffix::Resample = suffix {
            all += 3;
        }
    }
    all
}

fn fewest_params(leaf: LeafName) -> usize
    ensures value { result ≡ rules.fewest_params leaf }
    ensures bound { result ≤ 2 }
{
    match leaf {
        LeafName::WindowFunnel | LeafName::SequenceMatch => 1,
        _ => 0,
    }
}

fn most_params(leaf: LeafName) -> usize
    ensures value { result ≡ rules.most_params leaf }
    ensures bound { result ≤ 2 }
{
    match leaf {
        LeafName::GroupArray | LeafName::QuantileExact | LeafName::SequenceMatch => 1,
        LeafName::WindowFunnel => 2,
        _ => 0,
    }
}

/// Whether a function under suffixes takes so many parameters: three for each `Resample`, and the function's own
/// (manual: "Parametric aggregate functions").
pub fn takes_param_count(leaf: LeafName, suffixes: &[Suffix], params: usize) -> bool
    requires { length suffixes.now ≤ 8 }
    ensures { result ≡ rules.takes_param_count leaf (reverse suffixes.now) params }
{
    let resamples = resample_params(suffixes);
    resamples + fewest_params(leaf) <= params && params <= resamples + most_params(leaf)
}

/// How many of the arguments reach the function; none inside a `Merge`.
fn arguments_reaching(suffixes: &[Suffix], arguments: usize) -> Option<usize>
    ensures { result ≡ rules.arguments_reaching (reverse suffixes.now) arguments }
{
    match suffixes {
        [] => Some(arguments),
        [inner @ .., suffix] => match suffix {
            Suffix::If | Suffix::Resample => arguments_reaching(inner, arguments.saturating_sub(1)),
            Suffix::MapOf => arguments_reaching(inner, 1),
            Suffix::Merge => None,
            _ => arguments_reaching(inner, arguments),
        },
    }
}

/// How many conditions a pattern has under these suffixes: the arguments that reach it, but for the time, and 32 where
/// those aren't 1 to 32 (this project's own choice).
pub fn pattern_conditions(suffixes: &[Suffix], arguments: usize) -> u32
    ensures value { result ≡ parameters.pattern_conditions (rules.arguments_reaching (reverse suffixes.now) arguments) }
    ensures low { 1 ≤ result }
    ensures high { result ≤ 32 }
{
    match arguments_reaching(suffixes, arguments) {
        None => 32,
        Some(reaching) => {
            let conditions = reaching.saturating_sub(1);
            if 1 <= conditions && conditions <= 32 {
                conditions as u32
            } else {
                32
            }
        }
    }
}
