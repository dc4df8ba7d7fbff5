//! Keys and tuples in words.
use crate::fault::TestFault;
use key_methods::{Key, KeyKind};
use std::alloc::Global;
use value_types::Value;

pub fn kind_name(kind: KeyKind) -> &'static str {
    match kind {
        KeyKind::NoKey => "NoKey",
        KeyKind::Key8 => "Key8",
        KeyKind::Key16 => "Key16",
        KeyKind::Key32 => "Key32",
        KeyKind::Key64 => "Key64",
        KeyKind::KeyString => "KeyString",
        KeyKind::Packed128 => "Packed128",
        KeyKind::Serialized => "Serialized",
    }
}

/// A word with its width, or the bytes in decimal.
pub fn key_text(alloc: Global, key: &Key) -> Result<String, TestFault> {
    match key {
        Key::Small { word, width } => Ok(format!(in alloc; "Small {word} {width}")?),
        Key::Wide { word, width } => Ok(format!(in alloc; "Wide {word} {width}")?),
        Key::Long(bytes) => {
            let list = bytes_text(alloc, bytes.as_slice())?;
            Ok(format!(in alloc; "Long{list}")?)
        }
    }
}

fn bytes_text(alloc: Global, bytes: &[u8]) -> Result<String, TestFault> {
    let mut text = String::new(alloc);
    for byte in bytes {
        let one = format!(in alloc; " {byte}")?;
        text.push_str(one.as_str())?;
    }
    Ok(text)
}

/// Each value behind a space, written as in a case.
pub fn tuple_text(alloc: Global, values: &[Value]) -> Result<String, TestFault> {
    let mut text = String::new(alloc);
    for value in values {
        let one = value_text(alloc, value)?;
        text.push_str(one.as_str())?;
    }
    Ok(text)
}

fn value_text(alloc: Global, value: &Value) -> Result<String, TestFault> {
    match value {
        Value::Num(number) => Ok(format!(in alloc; " {number}")?),
        Value::Bytes(bytes) => {
            let list = bytes_text(alloc, bytes.as_slice())?;
            Ok(format!(in alloc; " ={list}")?)
        }
        Value::Nil => Ok(format!(in alloc; " NULL")?),
        _ => Ok(format!(in alloc; " ?")?),
    }
}
