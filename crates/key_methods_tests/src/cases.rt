//! Cases as they are written.
use crate::fault::TestFault;
use std::alloc::Global;
use value_types::{Boxed, Seq, Ty, Value};

/// The types of the key columns and the tuple.
#[derive(Drop)]
pub struct Case {
    pub types: Seq<Ty>,
    pub values: Seq<Value>,
}

pub fn read_case(alloc: Global, line: &str) -> Result<Case, TestFault> {
    let mut types = Seq::new(alloc);
    let mut values = Seq::new(alloc);
    let mut is_type = true;
    for word in line.split_whitespace() {
        if is_type {
            types.push(read_type(alloc, word)?)?;
        } else {
            values.push(read_value(alloc, word)?)?;
        }
        is_type = !is_type;
    }
    Ok(Case { types, values })
}

fn read_type(alloc: Global, word: &str) -> Result<Ty, TestFault> {
    match word.strip_prefix('?') {
        Some(of) => Ok(Ty::Nullable(Boxed::new(alloc, plain_type(of)?)?)),
        None => plain_type(word),
    }
}

fn plain_type(word: &str) -> Result<Ty, TestFault> {
    match word {
        "U8" => Ok(Ty::U8),
        "U16" => Ok(Ty::U16),
        "U32" => Ok(Ty::U32),
        "U64" => Ok(Ty::U64),
        "I8" => Ok(Ty::I8),
        "I16" => Ok(Ty::I16),
        "I32" => Ok(Ty::I32),
        "I64" => Ok(Ty::I64),
        "Str" => Ok(Ty::Str),
        _ => Err(TestFault::NoCase),
    }
}

fn read_value(alloc: Global, word: &str) -> Result<Value, TestFault> {
    if word == "NULL" {
        return Ok(Value::Nil);
    }
    match word.strip_prefix('=') {
        Some(text) => Ok(Value::Bytes(Seq::from_slice(alloc, text.as_bytes())?)),
        None => match word.parse::<i128>() {
            Ok(number) => Ok(Value::Num(number)),
            Err(_) => Err(TestFault::NoCase),
        },
    }
}
