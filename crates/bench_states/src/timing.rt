//! How long the feeds of a column take.
ghost use Rattle.std.specs.Prelude.{◌≡◌, ◌+◌, ◌<◌, length};

use crate::columns::Values;
use crate::fault::BenchFault;
use crate::functions::Function;
use crate::running::{Lent, Running};
use best_leaves::BestState;
use int_leaves::IntState;
use list_leaves::{ArrayState, QuantileState, serves_array, serves_quantile};
use set_leaves::SetState;
use std::alloc::Global;
use std::io;
use std::rt::Clock;
use std::time::Instant;
use typed_columns::{Args, Column, Item};
use value_types::{Leaf, OutOfMemory, Ty};

/// What is fed to which function.
#[derive(Clone, Copy, Debug)]
pub struct Case {
    pub function: Function,
    pub values: Values,
}

/// Lends the value at a place to the arguments. A number goes by itself: copied within an item, it would wait for its own bytes.
#[inline]
fn lend<'a>(args: &mut Args<'a>, column: &'a Column, place: usize)
    requires value { place < length column.now.values }
    requires room { length args.old < 64 }
    ensures { length args.new ≡ length args.old + 1 }
{
    match column.item(place) {
        Item::Num(number) => args.push(Item::Num(number)),
        other => args.push(other),
    }
}

/// Feeds each value of the column, once or twice a row.
#[inline(never)]
fn feed_all<'a, S: Running>(
    alloc: Global,
    state: &mut S,
    column: &'a Column,
    twice: bool,
) -> Result<(), OutOfMemory> {
    let mut args: Args<'a> = Args::new();
    for place in 0..column.len() {
        args.clear();
        lend(&mut args, column, place);
        if twice {
            lend(&mut args, column, place);
        }
        state.feed(alloc, &args)?;
    }
    Ok(())
}

/// Feeds a state, and prints what was fed to what, the answer, the rows and the microseconds.
fn time<R: Print + Clock, S: Running>(
    rt: &R,
    alloc: Global,
    case: &Case,
    column: &Column,
    state: &mut S,
) -> Result<(), BenchFault> {
    let start = Instant::now(rt)?;
    feed_all(alloc, state, column, case.function.takes_two())?;
    let micros = start.elapsed(rt)?.as_micros();
    let answer = state.answer(alloc)?;
    print(rt, case, answer, column.len(), micros)?;
    Ok(())
}

fn print<R: Print>(rt: &R, case: &Case, answer: i128, rows: usize, micros: u128) -> io::Result<()> {
    let function = case.function.name();
    let values = case.values.name();
    println!(rt; "{function} {values} {answer} {rows} {micros}")
}

/// Times the function over the column, where it takes one.
fn time_leaf<R: Print + Clock>(
    rt: &R,
    alloc: Global,
    case: &Case,
    column: &Column,
    leaf: &Leaf,
    args: &[Ty],
) -> Result<(), BenchFault> {
    if int_leaves::serves(leaf, args) {
        return time(rt, alloc, case, column, &mut IntState::fresh(leaf, args));
    }
    if best_leaves::serves(leaf, args) {
        return time(rt, alloc, case, column, &mut BestState::fresh(leaf, args));
    }
    time_kept(rt, alloc, case, column, leaf, args)
}

/// The same of functions that keep all values, or all different ones.
fn time_kept<R: Print + Clock>(
    rt: &R,
    alloc: Global,
    case: &Case,
    column: &Column,
    leaf: &Leaf,
    args: &[Ty],
) -> Result<(), BenchFault> {
    if serves_array(leaf, args) {
        let mut state = ArrayState::fresh(alloc, leaf, args);
        return time(rt, alloc, case, column, &mut state);
    }
    if serves_quantile(leaf, args) {
        let mut state = QuantileState::fresh(alloc, leaf, args);
        return time(rt, alloc, case, column, &mut state);
    }
    if set_leaves::serves(leaf, args) {
        let mut state = SetState::fresh(alloc, leaf, args);
        return time(rt, alloc, case, column, &mut state);
    }
    Ok(())
}

/// Makes the column, and times the function over it.
pub fn report<R: Print + Clock>(rt: &R, alloc: Global, case: &Case) -> Result<(), BenchFault> {
    let column = case.values.column(alloc)?;
    match case.function.leaf() {
        Some(leaf) => {
            let types = [case.values.ty(), case.values.ty()];
            let count = if case.function.takes_two() { 2 } else { 1 };
            time_leaf(rt, alloc, case, &column, &leaf, &types[..count])
        }
        None => time_none(rt, alloc, case, &column),
    }
}

/// Times the lending of the items alone, or nothing.
fn time_none<R: Print + Clock>(
    rt: &R,
    alloc: Global,
    case: &Case,
    column: &Column,
) -> Result<(), BenchFault> {
    match case.function {
        Function::Lent => time(rt, alloc, case, column, &mut Lent { arguments: 0 }),
        _ => {
            print(rt, case, 0, column.len(), 0)?;
            Ok(())
        }
    }
}
