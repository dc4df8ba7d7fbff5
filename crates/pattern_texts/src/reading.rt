//! A pattern is read byte by byte: what stands before the next item, and how far the item or the time was read.

ghost use Rattle.agg_terms.specs.Chains.{Any, Pattern as Spelled};
ghost use Rattle.agg_terms.specs.Chains as terms;
ghost use Rattle.agg_typing.specs.Promises.{GivesPatterns};
ghost use Rattle.first_fault.specs.Machine.{at_end, shifted};
ghost use Rattle.pattern_texts.specs.Answer.{Gives, IsAnswer, ReadsPatterns};
ghost use Rattle.pattern_texts.specs.Machine.{mark_of, state_of, IsTimePhase, State, has_room, is_star, step_at, step_dot, step_by, done_by, link_before, behind_gap, reads, pattern_reader};
ghost use Rattle.pattern_texts.specs.Texts.{Spells};
ghost use Rattle.std.specs.Option.{option_map};
ghost use Rattle.std.specs.Prelude.{◌≡◌, ◌≤◌, ◌+◌, ◌*◌, ◌++◌, [], ◌∷◌, ℕ, List, OnOk, IfOk, map, Some, None, cond, nat_le, Ok};
ghost use Rattle.value_types.specs.Folds.{item_of, link_of};

use crate::fault::PatternFault;
use crate::phase::{Before, Mark, Phase};
use std::alloc::Global;
use value_lists::{OutOfMemory, Seq};
use value_types::{Op, PatItem, PatLink, Pattern};

const MOST_ITEMS: usize = 64;

fn mark_of(byte: u8) -> Mark
    ensures { result ≡ mark_of byte }
{
    match byte {
        b'(' => Mark::Open,
        b')' => Mark::Close,
        b'?' => Mark::Question,
        b't' => Mark::LetterT,
        b'.' => Mark::Dot,
        b'*' => Mark::Star,
        b'<' => Mark::Less,
        b'>' => Mark::Greater,
        b'=' => Mark::Equal,
        b'0'..=b'9' => Mark::Digit(u32::from(byte - b'0')),
        _ => Mark::Other,
    }
}

fn has_room(pattern: &Pattern) -> bool
    ensures { result ≡ has_room (map item_of pattern.now.items) }
{
    pattern.items.len() < MOST_ITEMS
}

/// A byte between two parts.
fn step_at(before: Before, mark: Mark, pattern: &Pattern) -> Option<Phase>
    ensures { option_map (state_of pattern.now) result ≡ step_at before mark (map item_of pattern.now.items) (map link_of pattern.now.links) }
{
    match (before, mark) {
        (Before::Time(_, _), Mark::Dot) => None,
        (_, Mark::Dot) => Some(Phase::Dot(before)),
        (_, Mark::Open) if has_room(pattern) => Some(Phase::Open(before)),
        _ => None,
    }
}

/// What stands before the next item, behind `.*`.
fn behind_gap(before: Before) -> Before
    ensures { result ≡ behind_gap before }
{
    match before {
        Before::Start => Before::Start,
        _ => Before::Gap,
    }
}

/// Adds an item, with the link before it.
fn add(pattern: &mut Pattern, before: Before, item: PatItem) -> Result<(), OutOfMemory>
    ensures items { OnOk result (map item_of pattern.new.items ≡ map item_of pattern.old.items ++ item_of item ∷ []) }
    ensures links { OnOk result (map link_of pattern.new.links ≡ map link_of pattern.old.links ++ link_before before) }
{
    pattern.items.push(item)?;
    match before {
        Before::Start => {}
        Before::Item(_) => pattern.links.push(PatLink::Next)?,
        Before::Gap => pattern.links.push(PatLink::Gap)?,
        Before::Time(op, amount) => pattern.links.push(PatLink::Time(op, amount))?,
    }
    Ok(())
}

/// A number with one digit more, if it is at most the limit.
fn digit_more(number: u64, digit: u32, limit: u64) -> Option<u64>
    ensures { result ≡ cond (nat_le (number * 10 + digit) limit) (Some (number * 10 + digit)) None }
{
    let more = u128::from(number) * 10 + u128::from(digit);
    if more <= u128::from(limit) {
        Some(more as u64)
    } else {
        None
    }
}

/// A byte within `(?t..)`.
fn step_time(phase: Phase, mark: Mark) -> Option<Phase>
    requires { IsTimePhase phase }
    ensures { (conditions : ℕ) (items : List terms.PatItem) (links : List terms.PatLink) → option_map (λ p. record { phase = p; items = items; links = links }) result ≡ step_by conditions phase mark items links }
{
    match (phase, mark) {
        (Phase::Timed, Mark::Less) => Some(Phase::Sign(false)),
        (Phase::Timed, Mark::Greater) => Some(Phase::Sign(true)),
        (Phase::Timed, Mark::Equal) => Some(Phase::HalfEqual),
        (Phase::HalfEqual, Mark::Equal) => Some(Phase::Compared(Op::Equal)),
        (Phase::Sign(false), Mark::Equal) => Some(Phase::Compared(Op::LessEq)),
        (Phase::Sign(true), Mark::Equal) => Some(Phase::Compared(Op::GreaterEq)),
        (Phase::Sign(false), Mark::Digit(digit)) => Some(Phase::Amount(Op::Less, u64::from(digit))),
        (Phase::Sign(true), Mark::Digit(digit)) => {
            Some(Phase::Amount(Op::Greater, u64::from(digit)))
        }
        (Phase::Compared(op), Mark::Digit(digit)) => Some(Phase::Amount(op, u64::from(digit))),
        (Phase::Amount(op, amount), Mark::Digit(digit)) if amount > 0 => {
            match digit_more(amount, digit, u64::MAX) {
                Some(more) => Some(Phase::Amount(op, more)),
                None => None,
            }
        }
        (Phase::Amount(op, amount), Mark::Close) => Some(Phase::At(Before::Time(op, amount))),
        _ => None,
    }
}

fn is_star(mark: Mark) -> bool
    ensures { result ≡ is_star mark }
{
    matches!(mark, Mark::Star)
}

/// A byte behind a `.`: a star makes it a gap, and else it was an item.
fn step_dot(before: Before, mark: Mark, pattern: &mut Pattern) -> Result<Option<Phase>, OutOfMemory>
    ensures { IfOk result (λ next. option_map (state_of pattern.new) next ≡ step_dot before mark (map item_of pattern.old.items) (map link_of pattern.old.links)) }
{
    if is_star(mark) {
        return Ok(Some(Phase::At(behind_gap(before))));
    }
    if !has_room(pattern) {
        return Ok(None);
    }
    add(pattern, before, PatItem::Any)?;
    Ok(step_at(Before::Item(false), mark, pattern))
}

/// One byte.
fn step(
    conditions: u32,
    phase: Phase,
    mark: Mark,
    pattern: &mut Pattern,
) -> Result<Option<Phase>, OutOfMemory>
    ensures { IfOk result (λ next. option_map (state_of pattern.new) next ≡ step_by conditions phase mark (map item_of pattern.old.items) (map link_of pattern.old.links)) }
{
    match (phase, mark) {
        (Phase::At(before), _) => Ok(step_at(before, mark, pattern)),
        (Phase::Dot(before), _) => step_dot(before, mark, pattern),
        (Phase::Open(before), Mark::Question) => Ok(Some(Phase::Asked(before))),
        (Phase::Asked(before), Mark::Digit(digit)) if digit > 0 && digit <= conditions => {
            Ok(Some(Phase::Number(before, digit)))
        }
        (Phase::Asked(Before::Item(true)), Mark::LetterT) => Ok(Some(Phase::Timed)),
        (Phase::Number(before, number), Mark::Digit(digit)) => {
            match digit_more(u64::from(number), digit, u64::from(conditions)) {
                Some(more) => Ok(Some(Phase::Number(before, more as u32))),
                None => Ok(None),
            }
        }
        (Phase::Number(before, number), Mark::Close) => {
            add(pattern, before, PatItem::Cond(number))?;
            Ok(Some(Phase::At(Before::Item(true))))
        }
        (Phase::Open(_), _) | (Phase::Asked(_), _) | (Phase::Number(_, _), _) => Ok(None),
        _ => Ok(step_time(phase, mark)),
    }
}

/// What the end of the text says, at this place.
fn finish(phase: Phase, mut pattern: Pattern, at: u64) -> Result<Pattern, PatternFault>
    ensures { Gives result (shifted at (at_end (done_by phase (map item_of pattern.items) (map link_of pattern.links)))) }
{
    match phase {
        Phase::At(Before::Item(_)) | Phase::At(Before::Gap) => Ok(pattern),
        Phase::Dot(before) if has_room(&pattern) => {
            add(&mut pattern, before, PatItem::Any)?;
            Ok(pattern)
        }
        _ => Err(PatternFault::At(at)),
    }
}

fn read(alloc: Global, text: &[u8], conditions: u32) -> Result<Pattern, PatternFault>
    ensures { Gives result (reads conditions text.now) }
{
    let mut phase = Phase::At(Before::Start);
    let mut pattern = Pattern {
        items: Seq::new(alloc),
        links: Seq::new(alloc),
    };
    let mut at = 0u64;
    for byte in text {
        match step(conditions, phase, mark_of(*byte), &mut pattern)? {
            Some(next) => phase = next,
            None => return Err(PatternFault::At(at)),
        }
        at += 1;
    }
    finish(phase, pattern, at)
}

/// The pattern that the text spells, over the conditions 1 to `conditions`
/// (manual: "sequenceMatch", pattern syntax).
///
/// # Errors
///
/// [`PatternFault::At`] where the text spells no pattern: how many bytes its longest front has that begins one.
/// [`PatternFault::OutOfMemory`] where there is no room for the items.
pub fn read_pattern(alloc: Global, text: &[u8], conditions: u32) -> Result<Pattern, PatternFault>
    requires { (1 ≤ conditions) × (conditions ≤ 32) }
    // A pattern that the text spells, or the first fault.
    ensures exact { IsAnswer conditions text.now result }
    // No other pattern is spelled so, and what is spelled so is read unless memory runs out.
    ensures only { (pattern : terms.Pattern) → Spells conditions text.now pattern → Gives result (Ok pattern) }
    // Typing takes this reader.
    ensures reader { Gives result (pattern_reader text.now conditions) }
{
    read(alloc, text, conditions)
}

/// The reader of patterns that typing takes gives patterns, and the first fault of any other text.
pub fn law_pattern_reader()
    ensures gives { GivesPatterns pattern_reader }
    ensures reads { ReadsPatterns pattern_reader }
{}
