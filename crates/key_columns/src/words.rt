//! Columns of numbers as words: the number that each number's bytes spell.
ghost use Rattle.std.specs.Prelude.{◌≡◌, ◌≤◌, ℕ, length, map, true, IfOk};
ghost use Rattle.key_columns.specs.Words.{words_in};
ghost use Rattle.key_methods.specs.Kinds.{is_plain_number};
ghost use Rattle.value_types.specs.Folds.{ty_of};

use std::alloc::Global;
use typed_columns::Column;
use value_types::{OutOfMemory, Ty};

/// A number with the number that its bytes spell.
trait Spelled: Copy {
    ghost word: { Self → ℕ };

    fn word(self) -> u64
        ensures { result ≡ word self };
}

impl Spelled for u8 {
    ghost word = { λ n. n };

    fn word(self) -> u64 {
        u64::from(self)
    }
}

impl Spelled for u16 {
    ghost word = { λ n. n };

    fn word(self) -> u64 {
        u64::from(self)
    }
}

impl Spelled for u32 {
    ghost word = { λ n. n };

    fn word(self) -> u64 {
        u64::from(self)
    }
}

impl Spelled for u64 {
    ghost word = { λ n. n };

    fn word(self) -> u64 {
        self
    }
}

impl Spelled for i8 {
    ghost use Rattle.std.specs.Int.{cast_unsigned, w8};

    ghost word = { cast_unsigned w8 };

    fn word(self) -> u64 {
        u64::from(self.cast_unsigned())
    }
}

impl Spelled for i16 {
    ghost use Rattle.std.specs.Int.{cast_unsigned, w16};

    ghost word = { cast_unsigned w16 };

    fn word(self) -> u64 {
        u64::from(self.cast_unsigned())
    }
}

impl Spelled for i32 {
    ghost use Rattle.std.specs.Int.{cast_unsigned, w32};

    ghost word = { cast_unsigned w32 };

    fn word(self) -> u64 {
        u64::from(self.cast_unsigned())
    }
}

impl Spelled for i64 {
    ghost use Rattle.std.specs.Int.{cast_unsigned, w64};

    ghost word = { cast_unsigned w64 };

    fn word(self) -> u64 {
        self.cast_unsigned()
    }
}

fn words_of<N: Spelled>(alloc: Global, numbers: &[N]) -> Result<Vec<u64>, OutOfMemory>
    ensures { IfOk result (λ words. words.items ≡ map N.word numbers.now) }
{
    let mut words = Vec::with_capacity(alloc, numbers.len())?;
    for number in numbers {
        words.push(number.word())?;
    }
    Ok(words)
}

/// The words of a column of plain numbers, from row `from` on and below row `to`.
///
/// # Errors
///
/// [`OutOfMemory`] where there is no room for them.
#[tactic(auto, using(crate::proofs::Columns::column_laws))]
pub(crate) fn column_words(
    alloc: Global,
    ty: &Ty,
    column: &Column,
    from: usize,
    to: usize,
) -> Result<Vec<u64>, OutOfMemory>
    requires ty { column.now.ty ≡ ty.now }
    requires plain { is_plain_number (ty_of ty.now) ≡ true }
    requires order { from ≤ to }
    requires within { to ≤ length column.now.values }
    ensures { IfOk result (λ words. words.items ≡ words_in column.now from to) }
{
    match ty {
        Ty::U8 => match column.numbers_u8() {
            Some(numbers) => words_of(alloc, &numbers[from..to]),
            None => unreachable!(),
        },
        Ty::U16 => match column.numbers_u16() {
            Some(numbers) => words_of(alloc, &numbers[from..to]),
            None => unreachable!(),
        },
        Ty::U32 => match column.numbers_u32() {
            Some(numbers) => words_of(alloc, &numbers[from..to]),
            None => unreachable!(),
        },
        Ty::U64 => match column.numbers_u64() {
            Some(numbers) => words_of(alloc, &numbers[from..to]),
            None => unreachable!(),
        },
        Ty::I8 => match column.numbers_i8() {
            Some(numbers) => words_of(alloc, &numbers[from..to]),
            None => unreachable!(),
        },
        Ty::I16 => match column.numbers_i16() {
            Some(numbers) => words_of(alloc, &numbers[from..to]),
            None => unreachable!(),
        },
        Ty::I32 => match column.numbers_i32() {
            Some(numbers) => words_of(alloc, &numbers[from..to]),
            None => unreachable!(),
        },
        Ty::I64 => match column.numbers_i64() {
            Some(numbers) => words_of(alloc, &numbers[from..to]),
            None => unreachable!(),
        },
        _ => unreachable!(),
    }
}
