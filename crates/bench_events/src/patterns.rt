//! Patterns of 64 items, with the same link between each two.
ghost use Rattle.std.specs.Prelude.{◌≡◌, length, IfOk};

use std::alloc::Global;
use value_types::{Op, OutOfMemory, PatItem, PatLink, Pattern, Seq};

const ITEMS: u32 = 64;

/// How many conditions the events before the last one meet.
const CONDITIONS: u32 = 31;

#[derive(Clone, Copy, Debug, PartialEq, Eq)]
pub enum Links {
    Adjacent,
    Gap,
    SameTime,
    NextTime,
    AtMost,
    AtLeast,
}

impl Links {
    pub const ALL: [Links; 6] = [
        Links::Adjacent,
        Links::Gap,
        Links::SameTime,
        Links::NextTime,
        Links::AtMost,
        Links::AtLeast,
    ];

    pub fn name(&self) -> &'static str {
        match self {
            Links::Adjacent => "adjacent",
            Links::Gap => ".*",
            Links::SameTime => "==0",
            Links::NextTime => "==1",
            Links::AtMost => "<=1",
            Links::AtLeast => ">=0",
        }
    }

    fn link(&self) -> PatLink {
        match self {
            Links::Adjacent => PatLink::Next,
            Links::Gap => PatLink::Gap,
            Links::SameTime => PatLink::Time(Op::Equal, 0),
            Links::NextTime => PatLink::Time(Op::Equal, 1),
            Links::AtMost => PatLink::Time(Op::LessEq, 1),
            Links::AtLeast => PatLink::Time(Op::GreaterEq, 0),
        }
    }
}

/// Conditions 1 to 31, over and over, and at the end one that only a last event can meet.
fn item(place: u32) -> PatItem {
    if place < ITEMS - 1 {
        PatItem::Cond(place % CONDITIONS + 1)
    } else {
        PatItem::Cond(CONDITIONS + 1)
    }
}

/// 64 items with these links.
pub fn pattern(alloc: Global, links: Links) -> Result<Pattern, OutOfMemory>
    ensures items { IfOk result (λ pattern. length pattern.items ≡ 64) }
    ensures links { IfOk result (λ pattern. length pattern.links ≡ 63) }
{
    let mut items = Seq::new(alloc);
    let mut between = Seq::new(alloc);
    items.push(item(0))?;
    for place in 1..ITEMS {
        between.push(links.link())?;
        items.push(item(place))?;
    }
    Ok(Pattern {
        items,
        links: between,
    })
}
