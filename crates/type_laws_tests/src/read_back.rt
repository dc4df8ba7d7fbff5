//! The laws beside the calls that they speak of: what is printed is read back, and nothing but want of memory is in the way.
ghost use Rattle.agg_typing.specs.Legal.{is_legal_type, is_pattern};
ghost use Rattle.chain_params.specs.declared.fault.ChainFault.TheVariants as refusal;
ghost use Rattle.pattern_texts.specs.declared.fault.PatternFault.TheVariants as fault;
ghost use Rattle.std.specs.Prelude.{◌≡◌, ◌≤◌, IfErr, IfOk, true};
ghost use Rattle.type_shapes.specs.ReadsBack.{levels};
ghost use Rattle.value_types.specs.Folds.{pattern_of, ty_of};

use chain_types::ChainFault;
use pattern_texts::{PatternFault, read_pattern};
use shape_types::type_of;
use std::alloc::Global;
use std::test::Fail;
use type_laws::{law_patterns_read_back, law_printed_types_are_read};
use type_shapes::{ShapeFault, read_type_shape};
use type_texts::{print_pattern, print_type};
use value_types::{Boxed, PatItem, PatLink, Pattern, Seq, Ty};

/// A pattern as it is read back.
fn pattern_back(alloc: Global, pattern: &Pattern, conditions: u32) -> Result<Pattern, PatternFault>
    requires some { 1 ≤ conditions }
    requires few { conditions ≤ 32 }
    requires legal { is_pattern conditions (pattern_of pattern.now) ≡ true }
    ensures same { IfOk result (λ back. pattern_of back ≡ pattern_of pattern.now) }
    ensures memory { IfErr result (λ why. why ≡ fault.OutOfMemory) }
{
    law_patterns_read_back();
    let text = print_pattern(alloc, pattern)?;
    read_pattern(alloc, text.as_slice(), conditions)
}

/// A type as it is read back.
fn type_back(alloc: Global, ty: &Ty) -> Result<Ty, ChainFault>
    requires legal { is_legal_type (ty_of ty.now) ≡ true }
    requires levels { levels (ty_of ty.now) ≤ 16 }
    ensures same { IfOk result (λ back. ty_of back ≡ ty_of ty.now) }
    ensures memory { IfErr result (λ why. why ≡ refusal.OutOfMemory) }
{
    law_printed_types_are_read();
    let text = print_type(alloc, ty)?;
    match read_type_shape(alloc, text.as_slice()) {
        Ok(shape) => type_of(alloc, &shape),
        Err(ShapeFault::OutOfMemory) => Err(ChainFault::OutOfMemory),
        Err(ShapeFault::Syntax(_)) | Err(ShapeFault::Depth) => unreachable!(),
    }
}

#[test]
#[tactic(auto, using(value_types::proofs::FoldLaws::ty_laws))]
fn a_printed_type_is_that_type(rt: HostRuntime) -> Result<(), Fail> {
    let ty = Ty::Arr(Boxed::new(rt.alloc(), Ty::I32)?);
    let back = type_back(rt.alloc(), &ty)?;
    assert!(rt; matches!(&back, Ty::Arr(item) if matches!(item.get(), Ty::I32)));
    Ok(())
}

#[test]
fn a_printed_pattern_is_that_pattern(rt: HostRuntime) -> Result<(), Fail> {
    let items = [PatItem::Cond(2), PatItem::Any];
    let pattern = Pattern {
        items: Seq::from_slice(rt.alloc(), &items)?,
        links: Seq::from_slice(rt.alloc(), &[PatLink::Gap])?,
    };
    let back = pattern_back(rt.alloc(), &pattern, 2)?;
    assert!(rt; back.items.as_slice() == items.as_slice());
    Ok(())
}
