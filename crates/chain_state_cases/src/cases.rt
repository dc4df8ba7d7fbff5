//! A case as text.
use crate::fault::RunFault;
use std::alloc::Global;

/// A call over rows of a table, and what is wanted of it.
#[derive(Drop)]
pub(crate) struct Case {
    pub(crate) name: Vec<u8>,
    pub(crate) table: Vec<u8>,
    pub(crate) select: Vec<u8>,
    pub(crate) rows: Vec<Vec<u8>>,
    pub(crate) value: Vec<u8>,
    pub(crate) is_fed: bool,
    pub(crate) state: Vec<u8>,
}

impl Case {
    /// A case of nothing.
    pub(crate) fn new(alloc: Global) -> Case {
        Case {
            name: Vec::new(alloc),
            table: Vec::new(alloc),
            select: Vec::new(alloc),
            rows: Vec::new(alloc),
            value: Vec::new(alloc),
            is_fed: false,
            state: Vec::new(alloc),
        }
    }

    /// Begins a case of this name, without rows.
    fn begin(&mut self, alloc: Global, name: &[u8]) -> Result<(), RunFault> {
        self.name = Vec::from_slice(alloc, name)?;
        self.rows.clear();
        Ok(())
    }

    fn add_row(&mut self, alloc: Global, row: &[u8]) -> Result<(), RunFault> {
        self.rows.push(Vec::from_slice(alloc, row)?)?;
        Ok(())
    }

    /// Takes the next line of the text. A case is whole with its line `state`.
    pub(crate) fn take_line(&mut self, alloc: Global, line: &[u8]) -> Result<bool, RunFault> {
        match line {
            [b'<', b' ', row @ ..] => self.add_row(alloc, row)?,
            [b'c', b'a', b's', b'e', b' ', name @ ..] => self.begin(alloc, name)?,
            [b'T', b'A', b'B', b'L', b'E', b' ', ..] => self.table = Vec::from_slice(alloc, line)?,
            [b'S', b'E', b'L', b'E', b'C', b'T', b' ', ..] => {
                self.select = Vec::from_slice(alloc, line)?
            }
            [b'v', b'a', b'l', b'u', b'e', b' ', text @ ..] => {
                self.value = Vec::from_slice(alloc, text)?
            }
            [b'f', b'e', b'd', b' ', word @ ..] => self.is_fed = word == b"yes".as_slice(),
            [b's', b't', b'a', b't', b'e', b' ', digits @ ..] => {
                self.state = Vec::from_slice(alloc, digits)?;
                return Ok(true);
            }
            _ => {}
        }
        Ok(false)
    }
}
