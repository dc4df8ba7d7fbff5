//! The numbers themselves, in their width, for loops over one type.
ghost use Rattle.std.specs.Prelude.{◌≡◌, map, pos, IfSome, IsSome, ◌↔◌};
ghost use Rattle.column_parts.specs.declared.number_type.NumberType.TheVariants as kind;

use crate::Numbers;
use crate::numbers::Store;

impl Numbers {
    pub fn u8s(&self) -> Option<&[u8]>
        ensures is { IsSome result ↔ (self.now.kind ≡ kind.U8) }
        ensures all { IfSome result (λ all. self.now.numbers ≡ map pos all.now) }
    {
        match &self.store {
            Store::U8(items) => Some(items),
            _ => None,
        }
    }

    pub fn u16s(&self) -> Option<&[u16]>
        ensures is { IsSome result ↔ (self.now.kind ≡ kind.U16) }
        ensures all { IfSome result (λ all. self.now.numbers ≡ map pos all.now) }
    {
        match &self.store {
            Store::U16(items) => Some(items),
            _ => None,
        }
    }

    pub fn u32s(&self) -> Option<&[u32]>
        ensures is { IsSome result ↔ (self.now.kind ≡ kind.U32) }
        ensures all { IfSome result (λ all. self.now.numbers ≡ map pos all.now) }
    {
        match &self.store {
            Store::U32(items) => Some(items),
            _ => None,
        }
    }

    pub fn u64s(&self) -> Option<&[u64]>
        ensures is { IsSome result ↔ (self.now.kind ≡ kind.U64) }
        ensures all { IfSome result (λ all. self.now.numbers ≡ map pos all.now) }
    {
        match &self.store {
            Store::U64(items) => Some(items),
            _ => None,
        }
    }

    pub fn i8s(&self) -> Option<&[i8]>
        ensures is { IsSome result ↔ (self.now.kind ≡ kind.I8) }
        ensures all { IfSome result (λ all. self.now.numbers ≡ all.now) }
    {
        match &self.store {
            Store::I8(items) => Some(items),
            _ => None,
        }
    }

    pub fn i16s(&self) -> Option<&[i16]>
        ensures is { IsSome result ↔ (self.now.kind ≡ kind.I16) }
        ensures all { IfSome result (λ all. self.now.numbers ≡ all.now) }
    {
        match &self.store {
            Store::I16(items) => Some(items),
            _ => None,
        }
    }

    pub fn i32s(&self) -> Option<&[i32]>
        ensures is { IsSome result ↔ (self.now.kind ≡ kind.I32) }
        ensures all { IfSome result (λ all. self.now.numbers ≡ all.now) }
    {
        match &self.store {
            Store::I32(items) => Some(items),
            _ => None,
        }
    }

    pub fn i64s(&self) -> Option<&[i64]>
        ensures is { IsSome result ↔ (self.now.kind ≡ kind.I64) }
        ensures all { IfSome result (λ all. self.now.numbers ≡ all.now) }
    {
        match &self.store {
            Store::I64(items) => Some(items),
            _ => None,
        }
    }
}
