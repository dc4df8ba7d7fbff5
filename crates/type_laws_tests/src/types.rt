//! Types of states with parameters: printed, read and judged.
ghost use Rattle.std.specs.Prelude.{◌<◌, ◌^◌, length};

use chain_types::ChainFault;
use shape_types::{law_short_texts_are_countable, type_of};
use std::alloc::Global;
use std::process::Abort;
use std::test::Fail;
use type_shapes::read_type_shape;
use type_texts::print_type;
use value_types::{Boxed, Chain, Leaf, Op, OutOfMemory, PatItem, PatLink, Pattern, Seq, Ty};

/// The states of a chain over a UInt64 and so many UInt8.
fn state(alloc: Global, chain: Chain, conditions: u32) -> Result<Ty, OutOfMemory> {
    let mut types = Seq::new(alloc);
    types.push(Ty::U64)?;
    for _condition in 0..conditions {
        types.push(Ty::U8)?;
    }
    Ok(Ty::State(Boxed::new(alloc, chain)?, types))
}

fn leaf_state(alloc: Global, leaf: Leaf, conditions: u32) -> Result<Ty, OutOfMemory> {
    state(alloc, Chain::Leaf(leaf), conditions)
}

/// `(?1)(?t>=0)(?2)`, a gap and any event.
fn pattern(alloc: Global) -> Result<Pattern, OutOfMemory> {
    let items = [PatItem::Cond(1), PatItem::Cond(2), PatItem::Any];
    let links = [PatLink::Time(Op::GreaterEq, 0), PatLink::Gap];
    Ok(Pattern {
        items: Seq::from_slice(alloc, &items)?,
        links: Seq::from_slice(alloc, &links)?,
    })
}

/// A chain under a Resample.
fn resampled(
    alloc: Global,
    chain: Chain,
    start: i64,
    end: i64,
    step: u64,
) -> Result<Chain, OutOfMemory> {
    Ok(Chain::Resample(start, end, step, Boxed::new(alloc, chain)?))
}

/// What the text's shape stands for; none where the text is that of no type.
fn judged(alloc: Global, text: &[u8]) -> Option<Result<Ty, ChainFault>>
    requires { length text.now < 2 ^ 32 }
{
    law_short_texts_are_countable();
    match read_type_shape(alloc, text) {
        Ok(shape) => Some(type_of(alloc, &shape)),
        Err(_) => None,
    }
}

fn prints_as(rt: &impl Abort, alloc: Global, ty: &Ty, text: &[u8]) {
    match print_type(alloc, ty) {
        Ok(printed) => assert!(rt; printed.as_slice() == text),
        Err(_) => assert!(rt; false),
    }
}

/// The type prints so, and what stands there is read as a type that prints so too.
fn is_read_back(rt: &impl Abort, alloc: Global, ty: Result<Ty, OutOfMemory>, text: &[u8])
    requires { length text.now < 2 ^ 32 }
{
    let Ok(ty) = ty else {
        return assert!(rt; false);
    };
    prints_as(rt, alloc, &ty, text);
    match judged(alloc, text) {
        Some(Ok(read)) => prints_as(rt, alloc, &read, text),
        _ => assert!(rt; false),
    }
}

#[test]
fn array_limits_and_levels_are_read_back(rt: HostRuntime) {
    let alloc = rt.alloc();
    let all = leaf_state(alloc, Leaf::GroupArray(None), 0);
    is_read_back(&rt, alloc, all, b"AggregateFunction(groupArray, UInt64)");
    let few = leaf_state(alloc, Leaf::GroupArray(Some(4294967295)), 0);
    is_read_back(
        &rt,
        alloc,
        few,
        b"AggregateFunction(groupArray(4294967295), UInt64)",
    );
    let least = leaf_state(alloc, Leaf::QuantileExact(0), 0);
    is_read_back(
        &rt,
        alloc,
        least,
        b"AggregateFunction(quantileExact(0), UInt64)",
    );
    let most = leaf_state(alloc, Leaf::QuantileExact(1_000_000_000), 0);
    is_read_back(
        &rt,
        alloc,
        most,
        b"AggregateFunction(quantileExact(1), UInt64)",
    );
    let median = leaf_state(alloc, Leaf::QuantileExact(500_000_000), 0);
    is_read_back(
        &rt,
        alloc,
        median,
        b"AggregateFunction(quantileExact(0.5), UInt64)",
    );
    let tiny = leaf_state(alloc, Leaf::QuantileExact(10_000_001), 0);
    is_read_back(
        &rt,
        alloc,
        tiny,
        b"AggregateFunction(quantileExact(0.010000001), UInt64)",
    );
}

#[test]
fn windows_and_patterns_are_read_back(rt: HostRuntime) -> Result<(), Fail> {
    let alloc = rt.alloc();
    let funnel = leaf_state(alloc, Leaf::WindowFunnel(10, false), 2);
    is_read_back(
        &rt,
        alloc,
        funnel,
        b"AggregateFunction(windowFunnel(10), UInt64, UInt8, UInt8)",
    );
    let strict = leaf_state(alloc, Leaf::WindowFunnel(u64::MAX, true), 1);
    is_read_back(
        &rt,
        alloc,
        strict,
        b"AggregateFunction(windowFunnel(18446744073709551615, \'strict_increase\'), UInt64, UInt8)",
    );
    let matches = leaf_state(alloc, Leaf::SequenceMatch(pattern(alloc)?), 2);
    is_read_back(
        &rt,
        alloc,
        matches,
        b"AggregateFunction(sequenceMatch(\'(?1)(?t>=0)(?2).*.\'), UInt64, UInt8, UInt8)",
    );
    Ok(())
}

#[test]
fn the_outermost_range_stands_last(rt: HostRuntime) -> Result<(), Fail> {
    let alloc = rt.alloc();
    let wide = resampled(
        alloc,
        Chain::Leaf(Leaf::Sum),
        i64::MIN,
        i64::MAX,
        i64::MAX as u64,
    )?;
    is_read_back(
        &rt,
        alloc,
        state(alloc, wide, 1),
        b"AggregateFunction(sumResample(-9223372036854775808, 9223372036854775807, 9223372036854775807), UInt64, UInt8)",
    );
    let inner = resampled(
        alloc,
        Chain::Leaf(Leaf::QuantileExact(250_000_000)),
        0,
        4,
        2,
    )?;
    let outer = resampled(alloc, Chain::OrNull(Boxed::new(alloc, inner)?), -1, 1, 1)?;
    is_read_back(
        &rt,
        alloc,
        state(alloc, outer, 2),
        b"AggregateFunction(quantileExactResampleOrNullResample(0.25, 0, 4, 2, -1, 1, 1), UInt64, UInt8, UInt8)",
    );
    Ok(())
}
