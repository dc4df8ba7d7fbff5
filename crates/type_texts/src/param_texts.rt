//! The parameters of a chain as they are printed.

ghost use Rattle.std.specs.Prelude.{◌≡◌, ◌++◌, ◌∷◌, [], ◌<◌, IfOk, OnOk, decimal};
ghost use Rattle.std.specs.Fmt.{signed_decimal};
ghost use Rattle.value_types.specs.Folds.{leaf_of, chain_of, pattern_of};
ghost use Rattle.type_texts.specs.ParamTexts.{places_of, fraction_text, level_text, quoted_text, mode_texts, leaf_params, params_of};
ghost use Rattle.type_texts.specs.PatternTexts.{pattern_text};

use crate::pattern_texts::{print_pattern, write_number};
use itoa::Buffer;
use std::alloc::Global;
use tsv_text::escape;
use value_lists::{Bytes, OutOfMemory, Seq};
use value_types::{Chain, Leaf, Pattern};

/// One whole in billionths.
const WHOLE: u64 = 1_000_000_000;

fn write_places(places: u32, part: u64, text: &mut Bytes) -> Result<(), OutOfMemory>
    requires { part < 1000000000 }
    ensures { OnOk result (text.new ≡ text.old ++ places_of places part) }
{
    if places == 0 || part == 0 {
        return Ok(());
    }
    text.push(b'0' + (part * 10 / WHOLE) as u8)?;
    write_places(places - 1, part * 10 % WHOLE, text)
}

fn write_fraction(part: u64, text: &mut Bytes) -> Result<(), OutOfMemory>
    requires { part < 1000000000 }
    ensures { OnOk result (text.new ≡ text.old ++ fraction_text part) }
{
    if part == 0 {
        return Ok(());
    }
    text.extend_from_slice(b".")?;
    write_places(9, part, text)
}

fn level_text(alloc: Global, level: u32) -> Result<Bytes, OutOfMemory>
    ensures { IfOk result (λ text. text ≡ level_text level) }
{
    let level = u64::from(level);
    let mut text = Seq::new(alloc);
    write_number(level / WHOLE, &mut text)?;
    write_fraction(level % WHOLE, &mut text)?;
    Ok(text)
}

fn number_text(alloc: Global, number: u64) -> Result<Bytes, OutOfMemory>
    ensures { IfOk result (λ text. text ≡ decimal number) }
{
    let mut buffer = Buffer::new();
    Seq::from_slice(alloc, buffer.format(number).as_bytes())
}

fn signed_text(alloc: Global, number: i64) -> Result<Bytes, OutOfMemory>
    ensures { IfOk result (λ text. text ≡ signed_decimal number) }
{
    let mut buffer = Buffer::new();
    Seq::from_slice(alloc, buffer.format(number).as_bytes())
}

fn quoted_text(alloc: Global, bytes: &[u8]) -> Result<Bytes, OutOfMemory>
    ensures { IfOk result (λ text. text ≡ quoted_text bytes.now) }
{
    let inside = escape(alloc, bytes)?;
    let mut text = Seq::from_slice(alloc, b"'")?;
    text.extend_from_slice(inside.as_slice())?;
    text.extend_from_slice(b"'")?;
    Ok(text)
}

fn pattern_text(alloc: Global, pattern: &Pattern) -> Result<Bytes, OutOfMemory>
    ensures { IfOk result (λ text. text ≡ quoted_text (pattern_text (pattern_of pattern.now))) }
{
    let inside = print_pattern(alloc, pattern)?;
    quoted_text(alloc, inside.as_slice())
}

fn add_leaf_params(alloc: Global, leaf: &Leaf, params: &mut Seq<Bytes>) -> Result<(), OutOfMemory>
    ensures { OnOk result (params.new ≡ params.old ++ leaf_params (leaf_of leaf.now)) }
{
    match leaf {
        Leaf::GroupArray(Some(most)) => params.push(number_text(alloc, u64::from(*most))?),
        Leaf::QuantileExact(level) => params.push(level_text(alloc, *level)?),
        Leaf::WindowFunnel(window, strict) => add_window(alloc, *window, *strict, params),
        Leaf::SequenceMatch(pattern) => params.push(pattern_text(alloc, pattern)?),
        _ => Ok(()),
    }
}

fn add_mode(alloc: Global, strict: bool, params: &mut Seq<Bytes>) -> Result<(), OutOfMemory>
    ensures { OnOk result (params.new ≡ params.old ++ mode_texts strict) }
{
    if strict {
        params.push(quoted_text(alloc, b"strict_increase")?)
    } else {
        Ok(())
    }
}

fn add_window(
    alloc: Global,
    window: u64,
    strict: bool,
    params: &mut Seq<Bytes>,
) -> Result<(), OutOfMemory>
    ensures { OnOk result (params.new ≡ params.old ++ (decimal window ∷ mode_texts strict)) }
{
    params.push(number_text(alloc, window)?)?;
    add_mode(alloc, strict, params)
}

fn add_range(
    alloc: Global,
    start: i64,
    end: i64,
    step: u64,
    params: &mut Seq<Bytes>,
) -> Result<(), OutOfMemory>
    ensures { OnOk result (params.new ≡ params.old ++ (signed_decimal start ∷ signed_decimal end ∷ decimal step ∷ [])) }
{
    params.push(signed_text(alloc, start)?)?;
    params.push(signed_text(alloc, end)?)?;
    params.push(number_text(alloc, step)?)
}

/// Adds the texts of a chain's parameters, those of the outermost Resample last.
pub fn add_params(alloc: Global, chain: &Chain, params: &mut Seq<Bytes>) -> Result<(), OutOfMemory>
    ensures { OnOk result (params.new ≡ params.old ++ params_of (chain_of chain.now)) }
{
    match chain {
        Chain::Leaf(leaf) => add_leaf_params(alloc, leaf, params),
        Chain::Resample(start, end, step, inner) => {
            add_params(alloc, inner.get(), params)?;
            add_range(alloc, *start, *end, *step, params)
        }
        Chain::If(inner)
        | Chain::Array(inner)
        | Chain::MapOf(inner)
        | Chain::ForEach(inner)
        | Chain::OrNull(inner)
        | Chain::OrDefault(inner)
        | Chain::Distinct(inner)
        | Chain::State(inner)
        | Chain::Merge(inner) => add_params(alloc, inner.get(), params),
    }
}
