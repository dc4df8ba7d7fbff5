//! Texts of patterns, both ways.
ghost use Rattle.std.specs.Prelude.{◌≤◌};

use pattern_texts::read_pattern;
use std::alloc::Global;
use std::process::Abort;
use std::test::Fail;
use type_texts::print_pattern;
use value_types::{Op, PatItem, PatLink, Pattern, Seq};

/// The text spells a pattern over so many conditions, which prints so.
fn prints_as(rt: &impl Abort, alloc: Global, text: &[u8], conditions: u32, printed: &[u8])
    requires { (1 ≤ conditions) × (conditions ≤ 32) }
{
    let Ok(pattern) = read_pattern(alloc, text, conditions) else {
        return assert!(rt; false);
    };
    match print_pattern(alloc, &pattern) {
        Ok(words) => assert!(rt; words.as_slice() == printed),
        Err(_) => assert!(rt; false),
    }
}

/// The text spells a pattern over so many conditions, which prints as it is written.
fn stands(rt: &impl Abort, alloc: Global, text: &[u8], conditions: u32)
    requires { (1 ≤ conditions) × (conditions ≤ 32) }
{
    prints_as(rt, alloc, text, conditions, text);
}

#[test]
fn each_item_and_link_prints_as_it_is_written(rt: HostRuntime) {
    stands(&rt, rt.alloc(), b".", 1);
    stands(&rt, rt.alloc(), b"(?1)(?t>=0)(?2)", 2);
    stands(&rt, rt.alloc(), b"(?32).(?4).*(?10)", 32);
    stands(&rt, rt.alloc(), b"(?1)(?t<1)(?1)(?t<=2)(?1)", 1);
    stands(
        &rt,
        rt.alloc(),
        b"(?1)(?t==3)(?1)(?t>18446744073709551615)(?1)",
        1,
    );
}

#[test]
fn a_gap_prints_once_and_none_at_the_ends(rt: HostRuntime) {
    prints_as(&rt, rt.alloc(), b".*.*(?1).*.*.*(?2).*", 2, b"(?1).*(?2)");
    prints_as(&rt, rt.alloc(), b".*.*.", 1, b".");
}

#[test]
fn a_dot_before_a_gap_is_an_item(rt: HostRuntime) {
    stands(&rt, rt.alloc(), b"..*.", 1);
    stands(&rt, rt.alloc(), b"...*..", 1);
    prints_as(&rt, rt.alloc(), b"..*", 1, b".");
}

#[test]
fn sixty_four_items_print_as_they_are_written(rt: HostRuntime) {
    stands(&rt, rt.alloc(), &[b'.'; 64], 1);
}

#[test]
fn a_pattern_prints_its_items_and_links_in_their_order(rt: HostRuntime) -> Result<(), Fail> {
    let items = [
        PatItem::Cond(12),
        PatItem::Any,
        PatItem::Any,
        PatItem::Cond(1),
        PatItem::Cond(2),
    ];
    let links = [
        PatLink::Next,
        PatLink::Gap,
        PatLink::Next,
        PatLink::Time(Op::Greater, 7),
    ];
    let pattern = Pattern {
        items: Seq::from_slice(rt.alloc(), &items)?,
        links: Seq::from_slice(rt.alloc(), &links)?,
    };
    let text = print_pattern(rt.alloc(), &pattern)?;
    assert!(rt; text.as_slice() == b"(?12)..*.(?1)(?t>7)(?2)".as_slice());
    Ok(())
}
