//! Numbers in a `Vec` of their width.
ghost use Rattle.std.specs.Prelude.{◌≡◌, ◌<◌, ◌≤◌, [], ◌∷◌, ◌++◌, length, map, pos, take, Some, OnOk, OnErr};
ghost use Rattle.std.specs.List.{slice_get};
ghost use Rattle.column_parts.specs.NumberLists.{IsOf, Took, with_number, with_numbers};
ghost use Rattle.column_parts.specs.declared.number_type.NumberType.TheVariants as kind;

use crate::NumberType;
use std::alloc::Global;
use std::marker::Model;
use value_lists::OutOfMemory;

/// Numbers of one type, seen as that type with the list of them.
#[derive(Drop)]
pub struct Numbers {
    pub(crate) store: Store,
}

#[derive(Drop)]
pub(crate) enum Store {
    U8(Vec<u8>),
    U16(Vec<u16>),
    U32(Vec<u32>),
    U64(Vec<u64>),
    I8(Vec<i8>),
    I16(Vec<i16>),
    I32(Vec<i32>),
    I64(Vec<i64>),
}

impl Model for Numbers {
    ghost use Rattle.column_parts.specs.NumberLists.{NumberList};

    ghost Value = { NumberList };

    ghost use Rattle.column_parts.specs.Stores.{stored};

    ghost view = { λ n. stored n.store };
}

impl Numbers {
    /// No numbers of this type, which takes no memory.
    pub fn new(alloc: Global, kind: NumberType) -> Numbers
        ensures { result ≡ record { kind = kind; numbers = [] } }
    {
        match kind {
            NumberType::U8 => Numbers {
                store: Store::U8(Vec::new(alloc)),
            },
            NumberType::U16 => Numbers {
                store: Store::U16(Vec::new(alloc)),
            },
            NumberType::U32 => Numbers {
                store: Store::U32(Vec::new(alloc)),
            },
            NumberType::U64 => Numbers {
                store: Store::U64(Vec::new(alloc)),
            },
            NumberType::I8 => Numbers {
                store: Store::I8(Vec::new(alloc)),
            },
            NumberType::I16 => Numbers {
                store: Store::I16(Vec::new(alloc)),
            },
            NumberType::I32 => Numbers {
                store: Store::I32(Vec::new(alloc)),
            },
            NumberType::I64 => Numbers {
                store: Store::I64(Vec::new(alloc)),
            },
        }
    }

    /// How many numbers there are.
    pub fn len(&self) -> usize
        ensures { result ≡ length self.now.numbers }
    {
        match &self.store {
            Store::U8(items) => items.len(),
            Store::U16(items) => items.len(),
            Store::U32(items) => items.len(),
            Store::U64(items) => items.len(),
            Store::I8(items) => items.len(),
            Store::I16(items) => items.len(),
            Store::I32(items) => items.len(),
            Store::I64(items) => items.len(),
        }
    }

    /// The number at a place.
    #[inline]
    pub fn at(&self, place: usize) -> i128
        requires { place < length self.now.numbers }
        ensures { slice_get self.now.numbers place ≡ Some result }
    {
        match &self.store {
            Store::U8(items) => items[place] as i128,
            Store::U16(items) => items[place] as i128,
            Store::U32(items) => items[place] as i128,
            Store::U64(items) => items[place] as i128,
            Store::I8(items) => items[place] as i128,
            Store::I16(items) => items[place] as i128,
            Store::I32(items) => items[place] as i128,
            Store::I64(items) => items[place] as i128,
        }
    }

    /// Adds a number of the type.
    ///
    /// # Errors
    ///
    /// [`OutOfMemory`] where there is no room; the numbers are as before.
    pub fn push(&mut self, number: i128) -> Result<(), OutOfMemory>
        requires { IsOf self.old.kind number }
        ensures ok { OnOk result (self.new ≡ with_number self.old number) }
        ensures err { OnErr result (self.new ≡ self.old) }
    {
        match &mut self.store {
            Store::U8(items) => {
                items.push(number as u8)?;
                return Ok(());
            }
            Store::U16(items) => {
                items.push(number as u16)?;
                return Ok(());
            }
            Store::U32(items) => {
                items.push(number as u32)?;
                return Ok(());
            }
            Store::U64(items) => {
                items.push(number as u64)?;
                return Ok(());
            }
            Store::I8(items) => {
                items.push(number as i8)?;
                return Ok(());
            }
            Store::I16(items) => {
                items.push(number as i16)?;
                return Ok(());
            }
            Store::I32(items) => {
                items.push(number as i32)?;
                return Ok(());
            }
            Store::I64(items) => {
                items.push(number as i64)?;
                return Ok(());
            }
        }
    }

    /// Adds a number if it is of the type, and tells whether it was.
    ///
    /// # Errors
    ///
    /// [`OutOfMemory`] where there is no room; the numbers are as before.
    #[inline]
    pub fn take(&mut self, number: i128) -> Result<bool, OutOfMemory>
        ensures { Took self.old number self.new result }
    {
        match &mut self.store {
            Store::U8(items) => {
                if number < 0 || 255 < number {
                    return Ok(false);
                }
                items.push(number as u8)?;
                return Ok(true);
            }
            Store::U16(items) => {
                if number < 0 || 65_535 < number {
                    return Ok(false);
                }
                items.push(number as u16)?;
                return Ok(true);
            }
            Store::U32(items) => {
                if number < 0 || 4_294_967_295 < number {
                    return Ok(false);
                }
                items.push(number as u32)?;
                return Ok(true);
            }
            Store::U64(items) => {
                if number < 0 || 18_446_744_073_709_551_615 < number {
                    return Ok(false);
                }
                items.push(number as u64)?;
                return Ok(true);
            }
            Store::I8(items) => {
                if number < -128 || 127 < number {
                    return Ok(false);
                }
                items.push(number as i8)?;
                return Ok(true);
            }
            Store::I16(items) => {
                if number < -32_768 || 32_767 < number {
                    return Ok(false);
                }
                items.push(number as i16)?;
                return Ok(true);
            }
            Store::I32(items) => {
                if number < -2_147_483_648 || 2_147_483_647 < number {
                    return Ok(false);
                }
                items.push(number as i32)?;
                return Ok(true);
            }
            Store::I64(items) => {
                if number < -9_223_372_036_854_775_808 || 9_223_372_036_854_775_807 < number {
                    return Ok(false);
                }
                items.push(number as i64)?;
                return Ok(true);
            }
        }
    }

    /// Adds copies of these numbers, all or none.
    ///
    /// # Errors
    ///
    /// [`OutOfMemory`] where there is no room; the numbers are as before.
    #[tactic(auto, using(crate::proofs::Cuts::cut_laws))]
    pub fn append(&mut self, other: &Numbers) -> Result<(), OutOfMemory>
        requires { self.old.kind ≡ other.now.kind }
        ensures ok { OnOk result (self.new ≡ with_numbers self.old other.now.numbers) }
        ensures err { OnErr result (self.new ≡ self.old) }
    {
        match &mut self.store {
            Store::U8(items) => match other.u8s() {
                Some(more) => {
                    items.extend_from_slice(more)?;
                    return Ok(());
                }
                None => unreachable!(),
            },
            Store::U16(items) => match other.u16s() {
                Some(more) => {
                    items.extend_from_slice(more)?;
                    return Ok(());
                }
                None => unreachable!(),
            },
            Store::U32(items) => match other.u32s() {
                Some(more) => {
                    items.extend_from_slice(more)?;
                    return Ok(());
                }
                None => unreachable!(),
            },
            Store::U64(items) => match other.u64s() {
                Some(more) => {
                    items.extend_from_slice(more)?;
                    return Ok(());
                }
                None => unreachable!(),
            },
            Store::I8(items) => match other.i8s() {
                Some(more) => {
                    items.extend_from_slice(more)?;
                    return Ok(());
                }
                None => unreachable!(),
            },
            Store::I16(items) => match other.i16s() {
                Some(more) => {
                    items.extend_from_slice(more)?;
                    return Ok(());
                }
                None => unreachable!(),
            },
            Store::I32(items) => match other.i32s() {
                Some(more) => {
                    items.extend_from_slice(more)?;
                    return Ok(());
                }
                None => unreachable!(),
            },
            Store::I64(items) => match other.i64s() {
                Some(more) => {
                    items.extend_from_slice(more)?;
                    return Ok(());
                }
                None => unreachable!(),
            },
        }
    }

    /// Gives back the room that no number stands in.
    pub fn shrink_to_fit(&mut self)
        ensures { self.new ≡ self.old }
    {
        match &mut self.store {
            Store::U8(items) => {
                items.shrink_to_fit();
                return;
            }
            Store::U16(items) => {
                items.shrink_to_fit();
                return;
            }
            Store::U32(items) => {
                items.shrink_to_fit();
                return;
            }
            Store::U64(items) => {
                items.shrink_to_fit();
                return;
            }
            Store::I8(items) => {
                items.shrink_to_fit();
                return;
            }
            Store::I16(items) => {
                items.shrink_to_fit();
                return;
            }
            Store::I32(items) => {
                items.shrink_to_fit();
                return;
            }
            Store::I64(items) => {
                items.shrink_to_fit();
                return;
            }
        }
    }

    /// Drops all numbers from place `count` on.
    #[tactic(auto, using(crate::proofs::Cuts::cut_laws))]
    pub fn truncate(&mut self, count: usize)
        ensures { self.new ≡ record { kind = self.old.kind; numbers = take count self.old.numbers } }
    {
        match &mut self.store {
            Store::U8(items) => {
                items.truncate(count);
                return;
            }
            Store::U16(items) => {
                items.truncate(count);
                return;
            }
            Store::U32(items) => {
                items.truncate(count);
                return;
            }
            Store::U64(items) => {
                items.truncate(count);
                return;
            }
            Store::I8(items) => {
                items.truncate(count);
                return;
            }
            Store::I16(items) => {
                items.truncate(count);
                return;
            }
            Store::I32(items) => {
                items.truncate(count);
                return;
            }
            Store::I64(items) => {
                items.truncate(count);
                return;
            }
        }
    }
}
