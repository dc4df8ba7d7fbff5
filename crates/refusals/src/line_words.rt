//! Why a line is refused, in words.
ghost use Rattle.refusals.specs.Words as words;
ghost use Rattle.std.specs.Prelude.{◌≡◌, ◌++◌, OnErr, OnOk};
ghost use Rattle.value_lists.specs.Fronts.{HoldsFront};

use crate::chain_words::put_chain_fault;
use crate::pieces::{put_at, put_with_number};
use crate::why::{LimitName, Why};
use chain_params::ChainFault;
use value_lists::{Bytes, OutOfMemory};

fn limit_words(limit: LimitName) -> &'static [u8]
    ensures { result.now ≡ words.limit_words limit }
{
    match limit {
        LimitName::Columns => b"limit columns",
        LimitName::Calls => b"limit calls",
        LimitName::Keys => b"limit keys",
        LimitName::Views => b"limit views",
        LimitName::Sessions => b"limit sessions",
        LimitName::Depth => b"limit depth",
    }
}

/// What the parts of a line are.
fn part_words(line: u64) -> &'static [u8]
    ensures { result.now ≡ words.part_words line }
{
    if line == 1 { b"column " } else { b"call " }
}

fn put_part_fault(
    text: &mut Bytes,
    line: u64,
    part: u32,
    fault: ChainFault,
) -> Result<(), OutOfMemory>
    ensures ok { OnOk result (text.new ≡ text.old ++ words.part_fault_words line part fault) }
    ensures err { OnErr result (HoldsFront text.old (words.part_fault_words line part fault) text.new) }
{
    put_with_number(text, part_words(line), part as u64)?;
    text.extend_from_slice(b": ")?;
    put_chain_fault(text, fault)
}

/// Adds why a line is refused (the words are this project's own choice). The line's number tells what its parts are: line
/// 1 of a request and of a script is its table, whose parts are columns; the parts of every other line are calls.
///
/// # Errors
///
/// [`OutOfMemory`] where there is no room; behind the old text stands a front of the words then.
pub fn put_line_why(text: &mut Bytes, line: u64, why: Why) -> Result<(), OutOfMemory>
    ensures ok { OnOk result (text.new ≡ text.old ++ words.line_words line why) }
    ensures err { OnErr result (HoldsFront text.old (words.line_words line why) text.new) }
{
    match why {
        Why::Syntax(place) => put_at(text, b"syntax", place),
        Why::Limit(limit) => text.extend_from_slice(limit_words(limit)),
        Why::UnknownColumn(place) => put_at(text, b"unknown column", place),
        Why::UnknownView(place) => put_at(text, b"unknown view", place),
        Why::Repeated(place) => put_at(text, b"repeated name", place),
        Why::Chain { part, fault } => put_part_fault(text, line, part, fault),
        Why::KeyType(place) => put_at(text, b"bad key type", place),
        Why::Lines => text.extend_from_slice(b"too few lines"),
        Why::SessionOrder(place) => put_at(text, b"session number", place),
    }
}
