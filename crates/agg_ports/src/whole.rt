// A source that never fails, for input that stands in memory.
ghost use Rattle.std.specs.Prelude.{◌≡◌, ◌≢◌, ◌<◌, Some, length};
ghost use Rattle.agg_ports.specs.Ports.{Takes, TakeCause};
ghost use Rattle.agg_ports.specs.Memory.{TakesMost};

use crate::memory::copy_part;
use crate::{Source, Taken};
use std::marker::Model;

/// A source that gives the bytes it was made from, all that fit a call. Contracts see it as the
/// bytes that are left.
#[derive(Drop)]
pub struct WholeSource {
    bytes: Vec<u8>,
    at: usize,
}

impl Model for WholeSource {
    ghost use Rattle.std.specs.Prelude.{◌≤◌, List, ℕ, drop, vec_len};

    ghost Value = { List ℕ };

    ghost view = { λ s. drop s.at s.bytes.items };

    ghost invariant = { λ s. s.at ≤ vec_len s.bytes };
}

impl WholeSource {
    /// A source of `bytes`.
    pub fn new(bytes: Vec<u8>) -> Self
        ensures { result ≡ bytes.items }
    {
        WholeSource { bytes, at: 0 }
    }
}

impl Source for WholeSource {
    ghost left = { λ left. Some left };

    ghost faults = { λ _. 0 };

    /// Takes as many bytes as the buffer has room for and as are left.
    fn take(&mut self, into: &mut [u8]) -> Taken
        requires { 0 < length into.old }
        ensures bytes { Takes (Some self.old) (Some self.new) into.new result }
        ensures cause { TakeCause 0 0 result }
        ensures most { TakesMost (length into.new) self.old into.new result }
        ensures never_fails { result ≢ Taken.Failed }
    {
        let count = into.len().min(self.bytes.len() - self.at);
        if count == 0 {
            return Taken::End;
        }
        copy_part(&self.bytes, self.at, into, count);
        self.at += count;
        Taken::Bytes(count)
    }
}
