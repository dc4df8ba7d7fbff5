//! Keys as text, for cases that stand as data: each line of the input has a type and a value for each key column, as
//! `U16 1 U16 256`, `Str =a` or `?I8 NULL`; the answer has the kind of key, the key, its bucket and what it is unpacked to.
#![tactic(auto)]

mod cases;
mod checks;
mod fault;
mod shown;

use cases::read_case;
use checks::{are_key_types, are_values};
use fault::TestFault;
use key_methods::{Key, KeyKind, bucket, pack, unpack};
use shown::{key_text, kind_name, tuple_text};
use std::alloc::Global;
use value_types::{Ty, Value};

/// What a line says of its key.
fn told(alloc: Global, line: &str) -> Result<String, TestFault> {
    let case = read_case(alloc, line)?;
    key_told(alloc, case.types.as_slice(), case.values.as_slice())
}

fn key_told(alloc: Global, types: &[Ty], values: &[Value]) -> Result<String, TestFault> {
    if !are_key_types(types) || !are_values(types, values) {
        return Err(TestFault::NoCase);
    }
    let kind = KeyKind::of(types);
    let key = pack(alloc, kind, types, values)?;
    let back = unpack(alloc, kind, types, &key)?;
    answer(alloc, kind, &key, bucket(&key), back.as_slice())
}

fn answer(
    alloc: Global,
    kind: KeyKind,
    key: &Key,
    place: u8,
    back: &[Value],
) -> Result<String, TestFault> {
    let name = kind_name(kind);
    let shown = key_text(alloc, key)?;
    let tuple = tuple_text(alloc, back)?;
    Ok(format!(in alloc; "{name} {shown} bucket {place} back{tuple}")?)
}

fn main(rt: HostRuntime) -> Result<(), TestFault> {
    for line in rt.lines(rt.alloc()) {
        let line = line?;
        let answer = told(rt.alloc(), line.as_str())?;
        println!(rt; "{answer}")?;
    }
    Ok(())
}
