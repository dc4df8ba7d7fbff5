//! Types as they are printed.

ghost use Rattle.std.specs.Prelude.{◌≡◌, ◌++◌, IfOk, OnOk, map};
ghost use Rattle.agg_terms.specs.Chains.{tys};
ghost use Rattle.value_types.specs.Folds.{chain_of, ty_of};
ghost use Rattle.type_texts.specs.TypeNames.{more_params, brackets, chain_text, ty_text, tys_text};

use crate::chain_names::write_chain;
use crate::param_texts::add_params;
use std::alloc::Global;
use value_lists::{Bytes, OutOfMemory, Seq};
use value_types::{Chain, Ty};

fn write_more(params: &[Bytes], text: &mut Bytes) -> Result<(), OutOfMemory>
    ensures { OnOk result (text.new ≡ text.old ++ more_params params.now) }
{
    let [param, more @ ..] = params else {
        return text.extend_from_slice(b")");
    };
    text.extend_from_slice(b", ")?;
    text.extend_from_slice(param.as_slice())?;
    write_more(more, text)
}

fn write_brackets(params: &[Bytes], text: &mut Bytes) -> Result<(), OutOfMemory>
    ensures { OnOk result (text.new ≡ text.old ++ brackets params.now) }
{
    let [param, more @ ..] = params else {
        return Ok(());
    };
    text.extend_from_slice(b"(")?;
    text.extend_from_slice(param.as_slice())?;
    write_more(more, text)
}

fn write_call(alloc: Global, chain: &Chain, text: &mut Bytes) -> Result<(), OutOfMemory>
    ensures { OnOk result (text.new ≡ text.old ++ chain_text (chain_of chain.now)) }
{
    let mut params = Seq::new(alloc);
    add_params(alloc, chain, &mut params)?;
    write_chain(chain, text)?;
    write_brackets(params.as_slice(), text)
}

#[cycle(write_type)]
fn write_type(alloc: Global, ty: &Ty, text: &mut Bytes) -> Result<(), OutOfMemory>
    ensures { OnOk result (text.new ≡ text.old ++ ty_text (ty_of ty.now)) }
{
    match ty {
        Ty::U8 => text.extend_from_slice(b"UInt8"),
        Ty::U16 => text.extend_from_slice(b"UInt16"),
        Ty::U32 => text.extend_from_slice(b"UInt32"),
        Ty::U64 => text.extend_from_slice(b"UInt64"),
        Ty::I8 => text.extend_from_slice(b"Int8"),
        Ty::I16 => text.extend_from_slice(b"Int16"),
        Ty::I32 => text.extend_from_slice(b"Int32"),
        Ty::I64 => text.extend_from_slice(b"Int64"),
        Ty::Str => text.extend_from_slice(b"String"),
        Ty::Arr(item) => {
            text.extend_from_slice(b"Array(")?;
            write_type(alloc, item.get(), text)?;
            text.extend_from_slice(b")")
        }
        Ty::Map(key, item) => {
            text.extend_from_slice(b"Map(")?;
            write_type(alloc, key.get(), text)?;
            text.extend_from_slice(b", ")?;
            write_type(alloc, item.get(), text)?;
            text.extend_from_slice(b")")
        }
        Ty::Nullable(of) => {
            text.extend_from_slice(b"Nullable(")?;
            write_type(alloc, of.get(), text)?;
            text.extend_from_slice(b")")
        }
        Ty::State(chain, args) => {
            text.extend_from_slice(b"AggregateFunction(")?;
            write_call(alloc, chain.get(), text)?;
            write_types(alloc, args.as_slice(), text)
        }
    }
}

#[cycle(write_type)]
fn write_types(alloc: Global, types: &[Ty], text: &mut Bytes) -> Result<(), OutOfMemory>
    ensures { OnOk result (text.new ≡ text.old ++ tys_text (tys (map ty_of types.now))) }
{
    for ty in types {
        text.extend_from_slice(b", ")?;
        write_type(alloc, ty, text)?;
    }
    text.extend_from_slice(b")")
}

/// The text of a type, with one space behind each comma and none elsewhere (manual: "Data types").
///
/// # Errors
/// [`OutOfMemory`] where there is no room for it.
pub fn print_type(alloc: Global, ty: &Ty) -> Result<Bytes, OutOfMemory>
    ensures { IfOk result (λ text. text ≡ ty_text (ty_of ty.now)) }
{
    let mut text = Seq::new(alloc);
    write_type(alloc, ty, &mut text)?;
    Ok(text)
}
