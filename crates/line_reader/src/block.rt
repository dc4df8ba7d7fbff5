//! Bytes that were taken from a source and stand one behind the other.
ghost use Rattle.std.specs.Prelude.{◌≡◌, ◌↔◌, ◌+◌, ◌-◌, ◌^◌, ◌<◌, ◌≤◌, [], ◌++◌, length, take, drop, vec_len, IfOk, IsTrue, OnErr, OnOk};
ghost use Rattle.std.specs.List.{slice_range};
ghost use Rattle.agg_ports.specs.Ports.{TakeCause, Takes};
ghost use Rattle.line_reader.specs.Taking.{TakesBehind};

use agg_ports::{Source, Taken};
use std::alloc::Global;
use std::marker::Model;
use value_lists::OutOfMemory;

/// A run of bytes, seen as the list of them. Its memory is kept when bytes leave it.
#[derive(Drop)]
pub struct Block {
    bytes: Vec<u8>,
    from: usize,
    to: usize,
}

impl Model for Block {
    ghost use Rattle.std.specs.Prelude.{List, ℕ, ◌≤◌, vec_len};
    ghost use Rattle.std.specs.List.{slice_range};

    ghost Value = { List ℕ };

    ghost view = { λ b. slice_range b.bytes.items b.from b.to };

    ghost invariant = { λ b. (b.from ≤ b.to) × (b.to ≤ vec_len b.bytes) };
}

#[tactic(auto, using(crate::proofs::Ranges::run_laws))]
impl Block {
    /// No bytes. Takes no memory.
    pub fn new(alloc: Global) -> Block
        ensures { result ≡ [] }
    {
        Block {
            bytes: Vec::new(alloc),
            from: 0,
            to: 0,
        }
    }

    /// How many bytes there are.
    pub fn len(&self) -> usize
        ensures { result ≡ length self.now }
    {
        self.to - self.from
    }

    /// Whether there is no byte.
    pub fn is_empty(&self) -> bool
        ensures { IsTrue result ↔ (self.now ≡ []) }
    {
        self.from == self.to
    }

    /// Lends the bytes.
    pub fn as_slice(&self) -> &[u8]
        ensures { result.now ≡ self.now }
    {
        &self.bytes[self.from..self.to]
    }

    /// Drops all bytes.
    pub fn clear(&mut self)
        ensures { self.new ≡ [] }
    {
        self.from = 0;
        self.to = 0;
    }

    /// Drops the bytes from place `count` on.
    pub fn truncate(&mut self, count: usize)
        requires { count ≤ length self.old }
        ensures { self.new ≡ take count self.old }
    {
        self.to = self.from + count;
    }

    /// Drops the first bytes.
    pub fn drop_front(&mut self, count: usize)
        requires { count ≤ length self.old }
        ensures { self.new ≡ drop count self.old }
    {
        self.from += count;
    }

    // Moves the bytes to the front of the memory.
    fn settle(&mut self)
        ensures { self.new ≡ self.old }
    {
        if self.from > 0 {
            move_front(&mut self.bytes, self.from, self.to);
            self.to -= self.from;
            self.from = 0;
        }
    }

    /// Takes a piece of at most `most` bytes behind these.
    ///
    /// # Errors
    ///
    /// [`OutOfMemory`] where there is no room for the piece; nothing is taken then.
    pub fn take_from<S: Source>(
        &mut self,
        source: &mut S,
        most: usize,
    ) -> Result<Taken, OutOfMemory>
        requires some { 0 < most }
        requires few { most ≤ 1048576 }
        ensures bytes { IfOk result (TakesBehind (S.left source.old) (S.left source.new) most self.old self.new) }
        ensures cause { IfOk result (TakeCause (S.faults source.old) (S.faults source.new)) }
        ensures err { OnErr result ((self.new ≡ self.old) × (source.new ≡ source.old)) }
    {
        self.settle();
        make_room(&mut self.bytes, self.to, most)?;
        match take_into(source, &mut self.bytes, self.to, most) {
            Taken::Bytes(count) => {
                self.to += count;
                Ok(Taken::Bytes(count))
            }
            Taken::End => Ok(Taken::End),
            Taken::Failed => Ok(Taken::Failed),
        }
    }

    /// Adds copies of these bytes at the end.
    ///
    /// # Errors
    ///
    /// [`OutOfMemory`] where there is no room for them; the bytes are as before.
    pub fn append(&mut self, more: &[u8]) -> Result<(), OutOfMemory>
        ensures ok { OnOk result (self.new ≡ self.old ++ more.now) }
        ensures err { OnErr result (self.new ≡ self.old) }
    {
        if more.len() > usize::MAX - self.to {
            return Err(OutOfMemory);
        }
        make_room(&mut self.bytes, self.to, more.len())?;
        copy_into(&mut self.bytes, self.to, more);
        self.to += more.len();
        Ok(())
    }
}

// Moves a part of the bytes to their front.
fn move_front(bytes: &mut Vec<u8>, from: usize, to: usize)
    requires order { from ≤ to }
    requires within { to ≤ vec_len bytes.old }
    ensures front { take (to - from) bytes.new.items ≡ slice_range bytes.old.items from to }
    ensures len { vec_len bytes.new ≡ vec_len bytes.old }
{
    bytes.copy_within(from..to, 0);
}

// Makes room for so many bytes behind a place.
fn make_room(bytes: &mut Vec<u8>, at: usize, more: usize) -> Result<(), OutOfMemory>
    requires within { at ≤ vec_len bytes.old }
    requires fits { at + more < 2 ^ 64 }
    ensures front { take at bytes.new.items ≡ take at bytes.old.items }
    ensures grows { vec_len bytes.old ≤ vec_len bytes.new }
    ensures room { OnOk result (at + more ≤ vec_len bytes.new) }
{
    if bytes.len() < at + more {
        bytes.resize(at + more, 0)?;
    }
    Ok(())
}

// Takes bytes into the room behind a place.
fn take_into<S: Source>(source: &mut S, bytes: &mut Vec<u8>, at: usize, most: usize) -> Taken
    requires some { 0 < most }
    requires room { at + most ≤ vec_len bytes.old }
    ensures bytes { Takes (S.left source.old) (S.left source.new) (take most (drop at bytes.new.items)) result }
    ensures cause { TakeCause (S.faults source.old) (S.faults source.new) result }
    ensures front { take at bytes.new.items ≡ take at bytes.old.items }
    ensures len { vec_len bytes.new ≡ vec_len bytes.old }
{
    source.take(&mut bytes[at..at + most])
}

// Writes bytes into the room behind a place.
fn copy_into(bytes: &mut Vec<u8>, at: usize, more: &[u8])
    requires room { at + length more.now ≤ vec_len bytes.old }
    ensures front { take at bytes.new.items ≡ take at bytes.old.items }
    ensures copied { take (length more.now) (drop at bytes.new.items) ≡ more.now }
    ensures len { vec_len bytes.new ≡ vec_len bytes.old }
{
    bytes[at..at + more.len()].copy_from_slice(more);
}
