//! Sets of rows: numbers alone, texts alone, or tuples of any values. A set of numbers or of texts becomes one of tuples
//! once a row of another kind comes, which no row of its argument type is.
ghost use Rattle.std.specs.Prelude.{◌≡◌, ◌<◌, ◌^◌, [], ◌∷◌, ◌++◌, length, map, IfOk, IfSome, OnErr, OnOk};
ghost use Rattle.agg_terms.specs.Order.{compare_rows, different};
ghost use Rattle.agg_terms.specs.Values.{Bytes, Num};
ghost use Rattle.value_types.specs.Folds.{value_of};
ghost use Rattle.set_leaves.specs.Rows.{rows_in};
ghost use Rattle.set_leaves.specs.Tuples.{SameSet};

use crate::different::Different;
use crate::key::Key;
use crate::part::Part;
use crate::tuple::Tuple;
use std::alloc::Global;
use value_types::{OutOfMemory, Seq, Ty, Value, bare};

/// Different rows.
#[derive(Drop)]
pub enum Rows {
    Numbers(Different<i128>),
    Texts(Different<Vec<u8>>),
    Tuples(Different<Tuple>),
}

/// The number of a row of one number.
#[inline]
fn lone_number<P: Part>(row: &[P]) -> Option<i128>
    ensures { IfSome result (λ n. map P.part row.now ≡ Num n ∷ []) }
{
    match row {
        [part] => part.number(),
        _ => None,
    }
}

/// The bytes of a row of one text.
#[inline]
fn lone_text<P: Part>(row: &[P]) -> Option<&[u8]>
    ensures { IfSome result (λ bytes. map P.part row.now ≡ Bytes bytes.now ∷ []) }
{
    match row {
        [part] => part.text(),
        _ => None,
    }
}

/// The values of a row, as a tuple.
fn tuple_of<P: Part>(alloc: Global, row: &[P]) -> Result<Tuple, OutOfMemory>
    ensures { IfOk result (λ tuple. map value_of tuple.values ≡ map P.part row.now) }
{
    let mut values = Seq::new(alloc);
    values.reserve(row.len())?;
    for part in row {
        values.push(part.own(alloc)?)?;
    }
    Ok(Tuple { values })
}

/// The same rows as tuples.
fn as_tuples<K: Key>(alloc: Global, keys: &Different<K>) -> Result<Different<Tuple>, OutOfMemory>
    ensures { IfOk result (λ tuples. SameSet (rows_in (Rows.Tuples tuples)) (map K.tuple keys.now)) }
{
    let mut tuples = Different::new(alloc);
    for key in keys.as_slice() {
        let values = key.values(alloc)?;
        tuples.insert(Tuple { values })?;
    }
    Ok(tuples)
}

impl Rows {
    /// No rows of these types. Takes no memory.
    pub fn new(alloc: Global, args: &[Ty]) -> Rows
        ensures { rows_in result ≡ [] }
    {
        match args {
            [arg] => match bare(arg) {
                Ty::Str => Rows::Texts(Different::new(alloc)),
                Ty::U8 | Ty::U16 | Ty::U32 | Ty::U64 => Rows::Numbers(Different::new(alloc)),
                Ty::I8 | Ty::I16 | Ty::I32 | Ty::I64 => Rows::Numbers(Different::new(alloc)),
                _ => Rows::Tuples(Different::new(alloc)),
            },
            _ => Rows::Tuples(Different::new(alloc)),
        }
    }

    /// How many different rows there are.
    pub fn len(&self) -> usize
        ensures count { result ≡ length (different compare_rows (rows_in self.now)) }
        ensures few { result < 2 ^ 63 }
    {
        match self {
            Rows::Numbers(numbers) => numbers.len(),
            Rows::Texts(texts) => texts.len(),
            Rows::Tuples(tuples) => tuples.len(),
        }
    }

    /// Adds a row, if it isn't there.
    ///
    /// # Errors
    ///
    /// [`OutOfMemory`] where there is no room; nothing is changed.
    #[inline]
    pub fn insert<P: Part>(&mut self, alloc: Global, row: &[P]) -> Result<(), OutOfMemory>
        ensures ok { OnOk result (SameSet (rows_in self.new) (rows_in self.old ++ map P.part row.now ∷ [])) }
        ensures err { OnErr result (self.new ≡ self.old) }
    {
        match self {
            Rows::Numbers(numbers) => match lone_number(row) {
                Some(number) => numbers.insert(number),
                None => self.insert_other(alloc, row),
            },
            Rows::Texts(texts) => match lone_text(row) {
                Some(bytes) => texts.insert_text(alloc, bytes),
                None => self.insert_other(alloc, row),
            },
            Rows::Tuples(tuples) => tuples.insert(tuple_of(alloc, row)?),
        }
    }

    /// Adds a row of another kind: all rows are kept as tuples from here on.
    #[cold]
    fn insert_other<P: Part>(&mut self, alloc: Global, row: &[P]) -> Result<(), OutOfMemory>
        ensures ok { OnOk result (SameSet (rows_in self.new) (rows_in self.old ++ map P.part row.now ∷ [])) }
        ensures err { OnErr result (self.new ≡ self.old) }
    {
        let mut tuples = self.to_tuples(alloc)?;
        tuples.insert(tuple_of(alloc, row)?)?;
        *self = Rows::Tuples(tuples);
        Ok(())
    }

    /// The same rows, as tuples.
    fn to_tuples(&self, alloc: Global) -> Result<Different<Tuple>, OutOfMemory>
        ensures { IfOk result (λ tuples. SameSet (rows_in (Rows.Tuples tuples)) (rows_in self.now)) }
    {
        match self {
            Rows::Numbers(numbers) => as_tuples(alloc, numbers),
            Rows::Texts(texts) => as_tuples(alloc, texts),
            Rows::Tuples(tuples) => tuples.copy(alloc),
        }
    }

    /// Adds the rows of another set.
    ///
    /// # Errors
    ///
    /// [`OutOfMemory`] where there is no room; nothing is changed.
    pub fn merge(&mut self, alloc: Global, later: &Rows) -> Result<(), OutOfMemory>
        ensures ok { OnOk result (SameSet (rows_in self.new) (rows_in self.old ++ rows_in later.now)) }
        ensures err { OnErr result (self.new ≡ self.old) }
    {
        match self {
            Rows::Numbers(numbers) => match later {
                Rows::Numbers(more) => numbers.merge(alloc, more),
                _ => self.merge_others(alloc, later),
            },
            Rows::Texts(texts) => match later {
                Rows::Texts(more) => texts.merge(alloc, more),
                _ => self.merge_others(alloc, later),
            },
            Rows::Tuples(tuples) => match later {
                Rows::Tuples(more) => tuples.merge(alloc, more),
                _ => self.merge_others(alloc, later),
            },
        }
    }

    /// Adds rows of another kind: all rows are kept as tuples from here on.
    #[cold]
    fn merge_others(&mut self, alloc: Global, later: &Rows) -> Result<(), OutOfMemory>
        ensures ok { OnOk result (SameSet (rows_in self.new) (rows_in self.old ++ rows_in later.now)) }
        ensures err { OnErr result (self.new ≡ self.old) }
    {
        let mut tuples = self.to_tuples(alloc)?;
        let more = later.to_tuples(alloc)?;
        tuples.merge(alloc, &more)?;
        *self = Rows::Tuples(tuples);
        Ok(())
    }

    /// The same rows again.
    ///
    /// # Errors
    ///
    /// [`OutOfMemory`] where there is no room for them.
    pub fn copy(&self, alloc: Global) -> Result<Rows, OutOfMemory>
        ensures { IfOk result (λ copied. SameSet (rows_in copied) (rows_in self.now)) }
    {
        match self {
            Rows::Numbers(numbers) => Ok(Rows::Numbers(numbers.copy(alloc)?)),
            Rows::Texts(texts) => Ok(Rows::Texts(texts.copy(alloc)?)),
            Rows::Tuples(tuples) => Ok(Rows::Tuples(tuples.copy(alloc)?)),
        }
    }

    /// The rows, in order.
    ///
    /// # Errors
    ///
    /// [`OutOfMemory`] where there is no room for them.
    pub fn rows(&self, alloc: Global) -> Result<Seq<Seq<Value>>, OutOfMemory>
        ensures { IfOk result (λ rows. map (map value_of) rows ≡ different compare_rows (rows_in self.now)) }
    {
        match self {
            Rows::Numbers(numbers) => numbers.rows(alloc),
            Rows::Texts(texts) => texts.rows(alloc),
            Rows::Tuples(tuples) => tuples.rows(alloc),
        }
    }
}
