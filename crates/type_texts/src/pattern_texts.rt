//! Patterns as they are printed.

ghost use Rattle.std.specs.Prelude.{◌≡◌, ◌++◌, IfOk, OnOk, decimal, map};
ghost use Rattle.value_types.specs.Folds.{op_of, item_of, link_of, pattern_of};
ghost use Rattle.type_texts.specs.PatternTexts.{link_text, items_text, pattern_text};
ghost use Rattle.agg_typing.specs.PatternWords.{op_text, item_text};

use itoa::Buffer;
use std::alloc::Global;
use value_lists::{Bytes, OutOfMemory, Seq};
use value_types::{Op, PatItem, PatLink, Pattern};

fn op_text(op: Op) -> &'static [u8]
    ensures { result.now ≡ op_text (op_of op) }
{
    match op {
        Op::Less => b"<",
        Op::LessEq => b"<=",
        Op::Equal => b"==",
        Op::GreaterEq => b">=",
        Op::Greater => b">",
    }
}

/// Writes a whole number behind a text.
pub fn write_number(number: u64, text: &mut Bytes) -> Result<(), OutOfMemory>
    ensures { OnOk result (text.new ≡ text.old ++ decimal number) }
{
    let mut buffer = Buffer::new();
    text.extend_from_slice(buffer.format(number).as_bytes())
}

fn write_item(item: PatItem, text: &mut Bytes) -> Result<(), OutOfMemory>
    ensures { OnOk result (text.new ≡ text.old ++ item_text (item_of item)) }
{
    match item {
        PatItem::Cond(number) => {
            text.extend_from_slice(b"(?")?;
            write_number(u64::from(number), text)?;
            text.extend_from_slice(b")")
        }
        PatItem::Any => text.extend_from_slice(b"."),
    }
}

fn write_time(op: Op, time: u64, text: &mut Bytes) -> Result<(), OutOfMemory>
    ensures { OnOk result (text.new ≡ text.old ++ link_text (link_of (PatLink.Time op time))) }
{
    text.extend_from_slice(b"(?t")?;
    text.extend_from_slice(op_text(op))?;
    write_number(time, text)?;
    text.extend_from_slice(b")")
}

fn write_link(link: PatLink, text: &mut Bytes) -> Result<(), OutOfMemory>
    ensures { OnOk result (text.new ≡ text.old ++ link_text (link_of link)) }
{
    match link {
        PatLink::Next => Ok(()),
        PatLink::Gap => text.extend_from_slice(b".*"),
        PatLink::Time(op, time) => write_time(op, time, text),
    }
}

fn write_items(items: &[PatItem], links: &[PatLink], text: &mut Bytes) -> Result<(), OutOfMemory>
    ensures { OnOk result (text.new ≡ text.old ++ items_text (map item_of items.now) (map link_of links.now)) }
{
    let [item, items @ ..] = items else {
        return Ok(());
    };
    write_item(*item, text)?;
    let [link, links @ ..] = links else {
        return write_items(items, links, text);
    };
    write_link(*link, text)?;
    write_items(items, links, text)
}

/// Writes a pattern behind a text.
fn write_pattern(pattern: &Pattern, text: &mut Bytes) -> Result<(), OutOfMemory>
    ensures { OnOk result (text.new ≡ text.old ++ pattern_text (pattern_of pattern.now)) }
{
    write_items(pattern.items.as_slice(), pattern.links.as_slice(), text)
}

/// The text of a pattern: a gap stands once, and none at either end (manual: "sequenceMatch", pattern syntax).
///
/// # Errors
/// [`OutOfMemory`] where there is no room for it.
pub fn print_pattern(alloc: Global, pattern: &Pattern) -> Result<Bytes, OutOfMemory>
    ensures { IfOk result (λ text. text ≡ pattern_text (pattern_of pattern.now)) }
{
    let mut text = Seq::new(alloc);
    write_pattern(pattern, &mut text)?;
    Ok(text)
}
