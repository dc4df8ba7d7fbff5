ghost use Rattle.std.specs.Prelude.{◌≡◌, ◌==◌, ◌<◌, ◌∷◌, ◌^◌, [], length, position, count_by, MatchOption, IfOk};
ghost use Rattle.std.specs.List.{slice_split};
ghost use Rattle.tsv_text.specs.Lines.{is_newline, is_tab, lines_of, fields_of, places_from};

use std::alloc::Global;
use value_lists::{OutOfMemory, Seq};

fn newline(text: &[u8]) -> Option<usize>
    ensures { result ≡ position is_newline text.now }
{
    text.iter().position(|b| *b == b'\n')
}

/// The first line of a text, without its newline, and what follows it.
pub fn first_line(text: &[u8]) -> (&[u8], &[u8])
    requires { 0 < length text.now }
    ensures lines { lines_of text.now ≡ result.0.now ∷ lines_of result.1.now }
    ensures shorter { length result.1.now < length text.now }
{
    match newline(text) {
        Some(at) => (&text[..at], text.split_at(at + 1).1),
        None => (text, &text[..0]),
    }
}

fn tab(line: &[u8]) -> Option<usize>
    ensures { result ≡ position is_tab line.now }
{
    line.iter().position(|b| *b == b'\t')
}

/// The first field of a line, and what follows its tab, if it has one.
#[tactic(auto, unfolding(crate::specs::Lines::fields_of))]
pub fn first_field(line: &[u8]) -> (&[u8], Option<&[u8]>)
    ensures fields { MatchOption result.1 (fields_of line.now ≡ result.0.now ∷ [])
        (λ after. fields_of line.now ≡ result.0.now ∷ fields_of after.now) }
    ensures shorter { MatchOption result.1 (Unit {0}) (λ after. length after.now < length line.now) }
{
    match tab(line) {
        Some(at) => (&line[..at], Some(line.split_at(at + 1).1)),
        None => (line, None),
    }
}

/// Where the fields of a line stand: each one's start and end, in bytes from 0.
pub fn split_fields(alloc: Global, line: &[u8]) -> Result<Seq<(usize, usize)>, OutOfMemory>
    ensures { IfOk result (λ places. places ≡ places_from 0 (fields_of line.now)) }
{
    let mut places = Vec::new(alloc);
    let mut rest = Some(line);
    while let Some(text) = rest {
        let start = line.len() - text.len();
        let (field, after) = first_field(text);
        places.push((start, start + field.len()))?;
        rest = after;
    }
    Ok(Seq::from_vec(places))
}

fn tab_count(line: &[u8]) -> usize
    ensures { result ≡ count_by is_tab line.now }
{
    line.iter().filter(|b| **b == b'\t').count()
}

/// How many fields a line has.
#[tactic(auto, unfolding(crate::specs::Lines::fields_of))]
pub fn field_count(line: &[u8]) -> u64
    ensures { result ≡ length (fields_of line.now) }
{
    tab_count(line) as u64 + 1
}

fn place_of(text: &[u8], separator: u8) -> Option<usize>
    ensures { result ≡ position (λ b. b == separator) text.now }
{
    text.iter().position(|b| *b == separator)
}

/// The first part of a text that a separator divides, and what follows the separator, if there is one.
pub fn first_part(text: &[u8], separator: u8) -> (&[u8], Option<&[u8]>)
    ensures parts { MatchOption result.1 (slice_split (λ b. b == separator) text.now ≡ result.0.now ∷ [])
        (λ after. slice_split (λ b. b == separator) text.now ≡ result.0.now ∷ slice_split (λ b. b == separator) after.now) }
    ensures shorter { MatchOption result.1 (Unit {0}) (λ after. length after.now < length text.now) }
{
    match place_of(text, separator) {
        Some(at) => (&text[..at], Some(text.split_at(at + 1).1)),
        None => (text, None),
    }
}
