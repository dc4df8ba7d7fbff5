//! A case as text.
use crate::fault::RunFault;
use std::alloc::Global;

/// What a run is given, and what is wanted of it.
#[derive(Drop)]
pub(crate) struct Case {
    pub(crate) name: Vec<u8>,
    pub(crate) words: Vec<String>,
    pub(crate) input: Vec<u8>,
    pub(crate) output: Vec<u8>,
    pub(crate) status: u8,
}

/// The words that stand with a blank between them.
fn words_in(alloc: Global, text: &[u8]) -> Result<Vec<String>, RunFault> {
    let mut words = Vec::new(alloc);
    for word in text.split(|byte| *byte == b' ') {
        if !word.is_empty() {
            words.push(String::from_utf8_lossy(alloc, word)?)?;
        }
    }
    Ok(words)
}

/// The number that digits write, modulo 256.
fn number_in(digits: &[u8]) -> u8 {
    let mut number = 0u8;
    for digit in digits {
        number = number
            .wrapping_mul(10)
            .wrapping_add(digit.wrapping_sub(b'0'));
    }
    number
}

/// Adds a line and the newline behind it.
fn put_line(text: &mut Vec<u8>, line: &[u8]) -> Result<(), RunFault> {
    text.extend_from_slice(line)?;
    text.push(b'\n')?;
    Ok(())
}

impl Case {
    /// A case of nothing.
    pub(crate) fn new(alloc: Global) -> Case {
        Case {
            name: Vec::new(alloc),
            words: Vec::new(alloc),
            input: Vec::new(alloc),
            output: Vec::new(alloc),
            status: 0,
        }
    }

    /// Begins a case of this name, which runs `query` where it says nothing else.
    fn begin(&mut self, alloc: Global, name: &[u8]) -> Result<(), RunFault> {
        self.name = Vec::from_slice(alloc, name)?;
        self.words = words_in(alloc, b"query")?;
        self.input.clear();
        self.output.clear();
        Ok(())
    }

    /// Takes the next line of the text. A case is whole with its line `status`.
    pub(crate) fn take_line(&mut self, alloc: Global, line: &[u8]) -> Result<bool, RunFault> {
        match line {
            [b'<', b' ', text @ ..] => put_line(&mut self.input, text)?,
            [b'<', b'-', b' ', text @ ..] => self.input.extend_from_slice(text)?,
            [b'>', b' ', text @ ..] => put_line(&mut self.output, text)?,
            [b'c', b'a', b's', b'e', b' ', name @ ..] => self.begin(alloc, name)?,
            [b'w', b'o', b'r', b'd', b's', text @ ..] => self.words = words_in(alloc, text)?,
            [b's', b't', b'a', b't', b'u', b's', b' ', digits @ ..] => {
                self.status = number_in(digits);
                return Ok(true);
            }
            _ => {}
        }
        Ok(false)
    }
}
