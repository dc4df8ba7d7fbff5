//! Work at the items of a slice, side by side. The caller only starts the threads, one after another, and waits for them: a system may put
//! a new thread behind the one that made it, and so two of them onto one processor while another has nothing to do.
ghost use Rattle.std.specs.Prelude.{◌+◌, ◌^◌, ◌<◌, length};
ghost use Rattle.std.specs.Fork.{AcceptsAt, AcceptsEach, ChangesAt, ChangesEach};
ghost use Rattle.std.specs.Thread.{IsSend, IsSync};
ghost use Rattle.batch_reader.specs.proving.Apart.{AcceptsFrom, ChangesFrom};

use std::thread::{Threads, join_mut};

// However many pieces there are, there are no more threads than these.
const MOST_THREADS: usize = 32;

/// How many threads so many pieces are worth.
pub(crate) fn threads_for(pieces: usize) -> usize
    ensures { 0 < result }
{
    pieces.clamp(1, MOST_THREADS)
}

fn call_at<T, F: Fn(usize, &mut T)>(f: &F, place: usize, item: &mut T)
    requires { AcceptsAt F.Fn f.now place item.old }
    ensures { ChangesAt F.Fn f.now place item.old item.new }
{
    f(place, item);
}

// Calls `f` at each item, one after another. The first one's place is `base`.
fn in_turn<T, F: Fn(usize, &mut T)>(f: &F, base: usize, items: &mut [T])
    requires room { base + length items.old < 2 ^ 64 }
    requires accepts { AcceptsFrom F.Fn f.now base items.old }
    ensures { ChangesFrom F.Fn f.now base items.old items.new }
{
    for k in 0..items.len() {
        call_at(f, base + k, &mut items[k]);
    }
}

// Calls `f` at each item, from a thread for each `size` of them, and `meanwhile` from this one.
#[cycle(apart)]
fn from_place<R: Threads + Sync, T: Send, F: Fn(usize, &mut T) + Sync, G: FnMut() -> B, B>(
    rt: &R,
    f: &F,
    size: usize,
    base: usize,
    meanwhile: &mut G,
    items: &mut [T],
) -> B
    requires size { 0 < size }
    requires room { base + length items.old < 2 ^ 64 }
    requires accepts { AcceptsFrom F.Fn f.now base items.old }
    requires meanwhile { G.pre meanwhile.old }
    ensures items { ChangesFrom F.Fn f.now base items.old items.new }
    ensures meanwhile { G.step meanwhile.old result meanwhile.new }
{
    if items.is_empty() {
        return meanwhile();
    }
    let len = size.min(items.len());
    let (first, rest) = items.split_at_mut(len);
    first_and_rest(rt, f, size, base, first, base + len, meanwhile, rest)
}

#[cycle(apart)]
fn first_and_rest<R: Threads + Sync, T: Send, F: Fn(usize, &mut T) + Sync, G: FnMut() -> B, B>(
    rt: &R,
    f: &F,
    size: usize,
    base: usize,
    first: &mut [T],
    up: usize,
    meanwhile: &mut G,
    rest: &mut [T],
) -> B
    requires size { 0 < size }
    requires some { 0 < length first.old }
    requires first_room { base + length first.old < 2 ^ 64 }
    requires rest_room { up + length rest.old < 2 ^ 64 }
    requires first { AcceptsFrom F.Fn f.now base first.old }
    requires rest { AcceptsFrom F.Fn f.now up rest.old }
    requires meanwhile { G.pre meanwhile.old }
    ensures first { ChangesFrom F.Fn f.now base first.old first.new }
    ensures rest { ChangesFrom F.Fn f.now up rest.old rest.new }
    ensures meanwhile { G.step meanwhile.old result meanwhile.new }
{
    let mut here = ||
        requires { (base + length first.now < 2 ^ 64) × AcceptsFrom F.Fn f.now base first.now }
        ensures { ChangesFrom F.Fn f.entry.now base first.entry.now first.exit.now }
    { in_turn(f, base, first) };
    let mut behind = || -> B
        requires { IsSync R.row × IsSync F.row × IsSend T.row × (0 < size) × (up + length rest.now < 2 ^ 64) × AcceptsFrom F.Fn f.now up rest.now × G.pre meanwhile.now }
        ensures rest { ChangesFrom F.Fn f.entry.now up rest.entry.now rest.exit.now }
        ensures meanwhile { G.step meanwhile.entry.now result meanwhile.exit.now }
    { from_place(rt, f, size, up, meanwhile, rest) };
    let (_, result) = join_mut(rt, &mut here, &mut behind);
    result
}

/// Calls `f` at each item of a slice, with its place, from at most so many threads, and `meanwhile` from this one.
pub(crate) fn for_each_apart<
    R: Threads + Sync,
    T: Send,
    F: Fn(usize, &mut T) + Sync,
    G: FnMut() -> B,
    B,
>(rt: &R, threads: usize, f: &F, meanwhile: &mut G, items: &mut [T]) -> B
    requires threads { 0 < threads }
    requires accepts { AcceptsEach F.Fn f.now items.old }
    requires meanwhile { G.pre meanwhile.old }
    ensures items { ChangesEach F.Fn f.now items.old items.new }
    ensures meanwhile { G.step meanwhile.old result meanwhile.new }
{
    if items.is_empty() {
        return meanwhile();
    }
    from_place(rt, f, items.len().div_ceil(threads), 0, meanwhile, items)
}
