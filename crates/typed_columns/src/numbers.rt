//! Columns of numbers, lent as slices of their width: a loop over one runs at the speed of a loop over a `Vec`.
ghost use Rattle.std.specs.Prelude.{◌≡◌, ◌↔◌, map, pos, IfNone, IfSome, IsSome, None};
ghost use Rattle.value_types.specs.declared.ty.Ty.TheVariants as ty;
ghost use Rattle.value_types.specs.declared.value.Value.TheVariants.{Num};
ghost use Rattle.typed_columns.specs.proving.NumberTypes.{number_of};
ghost use Rattle.typed_columns.specs.Views.{number_ty};

use crate::Column;
use crate::column::Kind;
use column_parts::Numbers;

/// The numbers themselves, for loops over one type.
impl Column {
    /// The numbers of a column of UInt8; None where it is of another type.
    #[tactic(auto, using(crate::proofs::NumberLaws::number_laws))]
    pub fn numbers_u8(&self) -> Option<&[u8]>
        ensures is { IsSome result ↔ (self.now.ty ≡ ty.U8) }
        ensures all { IfSome result (λ all. self.now.values ≡ map (λ n. Num (pos n)) all.now) }
    {
        match self.numbers() {
            Some(numbers) => numbers.u8s(),
            None => None,
        }
    }

    /// The numbers of a column of UInt16; None where it is of another type.
    #[tactic(auto, using(crate::proofs::NumberLaws::number_laws))]
    pub fn numbers_u16(&self) -> Option<&[u16]>
        ensures is { IsSome result ↔ (self.now.ty ≡ ty.U16) }
        ensures all { IfSome result (λ all. self.now.values ≡ map (λ n. Num (pos n)) all.now) }
    {
        match self.numbers() {
            Some(numbers) => numbers.u16s(),
            None => None,
        }
    }

    /// The numbers of a column of UInt32; None where it is of another type.
    #[tactic(auto, using(crate::proofs::NumberLaws::number_laws))]
    pub fn numbers_u32(&self) -> Option<&[u32]>
        ensures is { IsSome result ↔ (self.now.ty ≡ ty.U32) }
        ensures all { IfSome result (λ all. self.now.values ≡ map (λ n. Num (pos n)) all.now) }
    {
        match self.numbers() {
            Some(numbers) => numbers.u32s(),
            None => None,
        }
    }

    /// The numbers of a column of UInt64; None where it is of another type.
    #[tactic(auto, using(crate::proofs::NumberLaws::number_laws))]
    pub fn numbers_u64(&self) -> Option<&[u64]>
        ensures is { IsSome result ↔ (self.now.ty ≡ ty.U64) }
        ensures all { IfSome result (λ all. self.now.values ≡ map (λ n. Num (pos n)) all.now) }
    {
        match self.numbers() {
            Some(numbers) => numbers.u64s(),
            None => None,
        }
    }

    /// The numbers of a column of Int8; None where it is of another type.
    #[tactic(auto, using(crate::proofs::NumberLaws::number_laws))]
    pub fn numbers_i8(&self) -> Option<&[i8]>
        ensures is { IsSome result ↔ (self.now.ty ≡ ty.I8) }
        ensures all { IfSome result (λ all. self.now.values ≡ map Num all.now) }
    {
        match self.numbers() {
            Some(numbers) => numbers.i8s(),
            None => None,
        }
    }

    /// The numbers of a column of Int16; None where it is of another type.
    #[tactic(auto, using(crate::proofs::NumberLaws::number_laws))]
    pub fn numbers_i16(&self) -> Option<&[i16]>
        ensures is { IsSome result ↔ (self.now.ty ≡ ty.I16) }
        ensures all { IfSome result (λ all. self.now.values ≡ map Num all.now) }
    {
        match self.numbers() {
            Some(numbers) => numbers.i16s(),
            None => None,
        }
    }

    /// The numbers of a column of Int32; None where it is of another type.
    #[tactic(auto, using(crate::proofs::NumberLaws::number_laws))]
    pub fn numbers_i32(&self) -> Option<&[i32]>
        ensures is { IsSome result ↔ (self.now.ty ≡ ty.I32) }
        ensures all { IfSome result (λ all. self.now.values ≡ map Num all.now) }
    {
        match self.numbers() {
            Some(numbers) => numbers.i32s(),
            None => None,
        }
    }

    /// The numbers of a column of Int64; None where it is of another type.
    #[tactic(auto, using(crate::proofs::NumberLaws::number_laws))]
    pub fn numbers_i64(&self) -> Option<&[i64]>
        ensures is { IsSome result ↔ (self.now.ty ≡ ty.I64) }
        ensures all { IfSome result (λ all. self.now.values ≡ map Num all.now) }
    {
        match self.numbers() {
            Some(numbers) => numbers.i64s(),
            None => None,
        }
    }

    /// The store of a column of numbers; None where it is of another type.
    #[tactic(auto, using(crate::proofs::NumberLaws::number_laws))]
    fn numbers(&self) -> Option<&Numbers>
        ensures some { IfSome result (λ numbers. self.now ≡ record { ty = number_ty numbers.now.kind; values = map Num numbers.now.numbers }) }
        ensures none { IfNone result (number_of self.now.ty ≡ None) }
    {
        match &self.kind {
            Kind::Numbers(numbers) => Some(numbers),
            _ => None,
        }
    }
}
