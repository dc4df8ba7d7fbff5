//! The words that a name is made of: each function and each suffix has one text.

ghost use Rattle.std.specs.Prelude.{◌≡◌, ◌++◌, MatchOption, None};
ghost use Rattle.agg_typing.specs.Names.{function_text, suffix_text, all_functions, all_suffixes, word_of};

use agg_terms::{LeafName, Suffix};

const FUNCTIONS: [LeafName; 15] = [
    LeafName::Count,
    LeafName::Sum,
    LeafName::Min,
    LeafName::Max,
    LeafName::ArgMin,
    LeafName::ArgMax,
    LeafName::BitAnd,
    LeafName::BitOr,
    LeafName::BitXor,
    LeafName::GroupArray,
    LeafName::UniqExact,
    LeafName::QuantileExact,
    LeafName::WindowFunnel,
    LeafName::SequenceMatch,
    LeafName::Retention,
];

const SUFFIXES: [Suffix; 10] = [
    Suffix::If,
    Suffix::Array,
    Suffix::MapOf,
    Suffix::ForEach,
    Suffix::OrNull,
    Suffix::OrDefault,
    Suffix::Distinct,
    Suffix::Resample,
    Suffix::State,
    Suffix::Merge,
];

/// The text of a function in a name.
pub fn function_name(leaf: LeafName) -> &'static [u8]
    ensures { result.now ≡ function_text leaf }
{
    match leaf {
        LeafName::Count => b"count",
        LeafName::Sum => b"sum",
        LeafName::Min => b"min",
        LeafName::Max => b"max",
        LeafName::ArgMin => b"argMin",
        LeafName::ArgMax => b"argMax",
        LeafName::BitAnd => b"groupBitAnd",
        LeafName::BitOr => b"groupBitOr",
        LeafName::BitXor => b"groupBitXor",
        LeafName::GroupArray => b"groupArray",
        LeafName::UniqExact => b"uniqExact",
        LeafName::QuantileExact => b"quantileExact",
        LeafName::WindowFunnel => b"windowFunnel",
        LeafName::SequenceMatch => b"sequenceMatch",
        LeafName::Retention => b"retention",
    }
}

/// The text of a suffix in a name.
pub fn suffix_name(suffix: Suffix) -> &'static [u8]
    ensures { result.now ≡ suffix_text suffix }
{
    match suffix {
        Suffix::If => b"If",
        Suffix::Array => b"Array",
        Suffix::MapOf => b"Map",
        Suffix::ForEach => b"ForEach",
        Suffix::OrNull => b"OrNull",
        Suffix::OrDefault => b"OrDefault",
        Suffix::Distinct => b"Distinct",
        Suffix::Resample => b"Resample",
        Suffix::State => b"State",
        Suffix::Merge => b"Merge",
    }
}

// The first of some functions whose text begins a text, and what follows it there.
fn function_in<'a>(words: &[LeafName], text: &'a [u8]) -> Option<(LeafName, &'a [u8])>
    ensures { MatchOption result (word_of function_text words.now text.now ≡ None) (λ found. text.now ≡ function_text found.0 ++ found.1.now) }
{
    for leaf in words {
        let name = function_name(*leaf);
        if text.starts_with(name) {
            return Some((*leaf, text.split_at(name.len()).1));
        }
    }
    None
}

/// The function that begins a text, and what follows it there.
pub fn read_function(text: &[u8]) -> Option<(LeafName, &[u8])>
    ensures { MatchOption result (word_of function_text all_functions text.now ≡ None) (λ found. text.now ≡ function_text found.0 ++ found.1.now) }
{
    function_in(&FUNCTIONS, text)
}

// The first of some suffixes whose text begins a text, and what follows it there.
fn suffix_in<'a>(words: &[Suffix], text: &'a [u8]) -> Option<(Suffix, &'a [u8])>
    ensures { MatchOption result (word_of suffix_text words.now text.now ≡ None) (λ found. text.now ≡ suffix_text found.0 ++ found.1.now) }
{
    for suffix in words {
        let name = suffix_name(*suffix);
        if text.starts_with(name) {
            return Some((*suffix, text.split_at(name.len()).1));
        }
    }
    None
}

/// The suffix that begins a text, and what follows it there.
pub fn read_suffix(text: &[u8]) -> Option<(Suffix, &[u8])>
    ensures { MatchOption result (word_of suffix_text all_suffixes text.now ≡ None) (λ found. text.now ≡ suffix_text found.0 ++ found.1.now) }
{
    suffix_in(&SUFFIXES, text)
}
