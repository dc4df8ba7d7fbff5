//! The columns that are fed: a million different values in no order, always the same ones.
use column_parts::{NumberType, Numbers, Texts};
use std::alloc::Global;
use typed_columns::{Column, Kind};
use value_types::{OutOfMemory, Ty};

/// How many values a column has.
const ROWS: u32 = 1_000_000;

/// The number at a place. No two places have the same one, since the factor is odd.
fn number_at(place: u32) -> u32 {
    place.wrapping_mul(2_654_435_761)
}

/// Eight letters, others for each number.
fn letters(number: u32) -> [u8; 8] {
    let mut letters = [b'a'; 8];
    let mut rest = number;
    for letter in letters.iter_mut() {
        *letter = b'a' + (rest % 16) as u8;
        rest /= 16;
    }
    letters
}

/// A column of UInt32.
fn numbers(alloc: Global) -> Result<Column, OutOfMemory> {
    let mut numbers = Numbers::new(alloc, NumberType::U32);
    for place in 0..ROWS {
        numbers.take(i128::from(number_at(place)))?;
    }
    let kind = Kind::Numbers(numbers);
    Ok(Column { kind })
}

/// A column of String.
fn texts(alloc: Global) -> Result<Column, OutOfMemory> {
    let mut texts = Texts::new(alloc)?;
    for place in 0..ROWS {
        texts.push(&letters(number_at(place)))?;
    }
    let kind = Kind::Texts(texts);
    Ok(Column { kind })
}

/// Which column is fed.
#[derive(Clone, Copy, Debug, PartialEq, Eq)]
pub enum Values {
    UInt32,
    String,
}

impl Values {
    pub const ALL: [Values; 2] = [Values::UInt32, Values::String];

    pub fn name(&self) -> &'static str {
        match self {
            Values::UInt32 => "UInt32",
            Values::String => "String",
        }
    }

    pub fn ty(&self) -> Ty {
        match self {
            Values::UInt32 => Ty::U32,
            Values::String => Ty::Str,
        }
    }

    pub fn column(&self, alloc: Global) -> Result<Column, OutOfMemory> {
        match self {
            Values::UInt32 => numbers(alloc),
            Values::String => texts(alloc),
        }
    }
}
