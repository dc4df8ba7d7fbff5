//! How fast lines become rows of a batch, and rows become arguments: `bench_rows run`. How fast all rows of a source are read, each block cut
//! into so many pieces: `bench_rows read PIECES`.
//!
//! The table is `day UInt16, user UInt64, page String, ms UInt32, tags Array(String), c1 UInt8, c2 UInt8, c3 UInt8`.
#![tactic(auto)]

ghost use Rattle.std.specs.Prelude.{◌≡◌, ◌+◌, ◌<◌, length};

mod draws;
mod reading;

use agg_ports::WholeSource;
use columns::{Args, Batch, Column, Item};
use draws::text_of;
use quick_rows::{Taken, first_line, take_row};
use reading::rows_of;
use std::alloc::Global;
use std::time::Instant;
use std::{env, io};
use value_types::{Boxed, OutOfMemory, Ty};

const ROWS: u64 = 1_000_000;

fn table(alloc: Global) -> Result<Batch, OutOfMemory> {
    let tags = Ty::Arr(Boxed::new(alloc, Ty::Str)?);
    let types = [
        Ty::U16,
        Ty::U64,
        Ty::Str,
        Ty::U32,
        tags,
        Ty::U8,
        Ty::U8,
        Ty::U8,
    ];
    Batch::new(alloc, &types)
}

/// Reads the lines of a text, and tells how many weren't regular.
#[inline(never)]
fn read(alloc: Global, batch: &mut Batch, text: &[u8]) -> Result<u64, OutOfMemory> {
    let mut irregular = 0u64;
    let mut left = text;
    while !left.is_empty() {
        let (line, after) = first_line(left);
        match take_row(batch, alloc, line)? {
            Taken::Row => {}
            Taken::Irregular => irregular = irregular.wrapping_add(1),
        }
        left = after;
    }
    Ok(irregular)
}

/// What a feed of two numbers does, as far as it costs nothing.
#[inline(never)]
fn feed(row: &Args<'_>) -> i128 {
    if row.len() < 2 {
        return 0;
    }
    number_in(row.item(0)).wrapping_add(number_in(row.item(1)))
}

#[inline]
fn number_in(item: &Item<'_>) -> i128 {
    match item {
        Item::Num(number) => *number,
        _ => 0,
    }
}

/// Feeds two numbers of each row, item by item.
fn feed_rows(batch: &Batch) -> i128 {
    if batch.columns.len() < 4 {
        return 0;
    }
    feed_columns(batch.column(0), batch.column(3))
}

/// Lends the value at a place to the arguments. A number goes by itself: copied within an item, it would wait for its own bytes.
#[inline]
fn lend<'a>(args: &mut Args<'a>, column: &'a Column, place: usize)
    requires value { place < length column.now.values }
    requires room { length args.old < 64 }
    ensures { length args.new ≡ length args.old + 1 }
{
    match column.item(place) {
        Item::Num(number) => args.push(Item::Num(number)),
        other => args.push(other),
    }
}

#[inline(never)]
fn feed_columns<'a>(first: &'a Column, second: &'a Column) -> i128 {
    let mut sum = 0i128;
    let mut args: Args<'a> = Args::new();
    for place in 0..first.len().min(second.len()) {
        args.clear();
        lend(&mut args, first, place);
        lend(&mut args, second, place);
        sum = sum.wrapping_add(feed(&args));
    }
    sum
}

/// Feeds the same two numbers so often.
#[inline(never)]
fn feed_same(rows: usize) -> i128 {
    let mut sum = 0i128;
    let mut args: Args<'_> = Args::new();
    args.push(Item::Num(1));
    args.push(Item::Num(2));
    for _ in 0..rows {
        sum = sum.wrapping_add(feed(&args));
    }
    sum
}

fn measure(rt: &HostRuntime, text: &[u8]) -> io::Result<()> {
    let alloc = rt.alloc();
    let Ok(mut batch) = table(alloc) else {
        return Ok(());
    };
    let start = Instant::now(rt)?;
    let Ok(irregular) = read(alloc, &mut batch, text) else {
        return Ok(());
    };
    let reading = start.elapsed(rt)?.as_micros();
    let (bytes, rows) = (text.len(), batch.len());
    println!(rt; "{rows} rows of {bytes} bytes, {irregular} irregular, in {reading} us")?;
    let start = Instant::now(rt)?;
    let fed = feed_rows(&batch);
    let feeding = start.elapsed(rt)?.as_micros();
    let start = Instant::now(rt)?;
    let same = feed_same(rows);
    let alone = start.elapsed(rt)?.as_micros();
    println!(rt;
        "two arguments a row in {feeding} us, the feed alone in {alone} us ({fed}, {same})"
    )
}

fn main(rt: HostRuntime) -> io::Result<()> {
    let mut words = env::args(&rt)?.skip(1);
    let Some(_) = words.next() else {
        return Ok(());
    };
    let asked = match words.next() {
        Some(word) => word.parse::<usize>().ok(),
        None => None,
    };
    let Ok(text) = text_of(rt.alloc(), ROWS) else {
        return Ok(());
    };
    for _ in 0..5u8 {
        let Some(pieces) = asked else {
            measure(&rt, &text)?;
            continue;
        };
        let Ok(bytes) = text.as_slice().to_vec(rt.alloc()) else {
            return Ok(());
        };
        let mut source = WholeSource::new(bytes);
        let start = Instant::now(&rt)?;
        let read = rows_of(&rt, rt.alloc(), &mut source, pieces);
        let reading = start.elapsed(&rt)?.as_micros();
        let rows = match &read {
            Some(batch) => batch.len(),
            None => 0,
        };
        println!(&rt; "{rows} rows of a source in {reading} us")?;
    }
    Ok(())
}
