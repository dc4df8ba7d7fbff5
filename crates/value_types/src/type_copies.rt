//! Equal copies of types and chains.
ghost use Rattle.std.specs.Prelude.{◌≡◌, IfOk};

use crate::{Chain, Leaf, Pattern, Ty};
use std::alloc::Global;
use value_lists::{Boxed, OutOfMemory, Seq};

impl Pattern {
    /// An equal pattern.
    ///
    /// # Errors
    ///
    /// [`OutOfMemory`] where there is no room for it.
    pub fn copy(&self, alloc: Global) -> Result<Pattern, OutOfMemory>
        ensures { IfOk result (λ pattern. pattern ≡ self.now) }
    {
        Ok(Pattern {
            items: Seq::from_slice(alloc, self.items.as_slice())?,
            links: Seq::from_slice(alloc, self.links.as_slice())?,
        })
    }
}

impl Leaf {
    /// An equal function.
    ///
    /// # Errors
    ///
    /// [`OutOfMemory`] where there is no room for its pattern.
    pub fn copy(&self, alloc: Global) -> Result<Leaf, OutOfMemory>
        ensures { IfOk result (λ leaf. leaf ≡ self.now) }
    {
        match self {
            Leaf::Count => Ok(Leaf::Count),
            Leaf::Sum => Ok(Leaf::Sum),
            Leaf::Min => Ok(Leaf::Min),
            Leaf::Max => Ok(Leaf::Max),
            Leaf::ArgMin => Ok(Leaf::ArgMin),
            Leaf::ArgMax => Ok(Leaf::ArgMax),
            Leaf::BitAnd => Ok(Leaf::BitAnd),
            Leaf::BitOr => Ok(Leaf::BitOr),
            Leaf::BitXor => Ok(Leaf::BitXor),
            Leaf::GroupArray(most) => Ok(Leaf::GroupArray(*most)),
            Leaf::UniqExact => Ok(Leaf::UniqExact),
            Leaf::QuantileExact(level) => Ok(Leaf::QuantileExact(*level)),
            Leaf::WindowFunnel(window, strict) => Ok(Leaf::WindowFunnel(*window, *strict)),
            Leaf::SequenceMatch(pattern) => Ok(Leaf::SequenceMatch(pattern.copy(alloc)?)),
            Leaf::Retention => Ok(Leaf::Retention),
        }
    }
}

impl Chain {
    /// An equal chain.
    ///
    /// # Errors
    ///
    /// [`OutOfMemory`] where there is no room for it.
    pub fn copy(&self, alloc: Global) -> Result<Chain, OutOfMemory>
        ensures { IfOk result (λ chain. chain ≡ self.now) }
    {
        match self {
            Chain::Leaf(leaf) => Ok(Chain::Leaf(leaf.copy(alloc)?)),
            Chain::If(of) => Ok(Chain::If(Boxed::new(alloc, of.copy(alloc)?)?)),
            Chain::Array(of) => Ok(Chain::Array(Boxed::new(alloc, of.copy(alloc)?)?)),
            Chain::MapOf(of) => Ok(Chain::MapOf(Boxed::new(alloc, of.copy(alloc)?)?)),
            Chain::ForEach(of) => Ok(Chain::ForEach(Boxed::new(alloc, of.copy(alloc)?)?)),
            Chain::OrNull(of) => Ok(Chain::OrNull(Boxed::new(alloc, of.copy(alloc)?)?)),
            Chain::OrDefault(of) => Ok(Chain::OrDefault(Boxed::new(alloc, of.copy(alloc)?)?)),
            Chain::Distinct(of) => Ok(Chain::Distinct(Boxed::new(alloc, of.copy(alloc)?)?)),
            Chain::Resample(start, end, step, of) => {
                let of = Boxed::new(alloc, of.copy(alloc)?)?;
                Ok(Chain::Resample(*start, *end, *step, of))
            }
            Chain::State(of) => Ok(Chain::State(Boxed::new(alloc, of.copy(alloc)?)?)),
            Chain::Merge(of) => Ok(Chain::Merge(Boxed::new(alloc, of.copy(alloc)?)?)),
        }
    }
}

impl Ty {
    /// An equal type.
    ///
    /// # Errors
    ///
    /// [`OutOfMemory`] where there is no room for it.
    #[cycle(copy_type)]
    pub fn copy(&self, alloc: Global) -> Result<Ty, OutOfMemory>
        ensures { IfOk result (λ ty. ty ≡ self.now) }
    {
        match self {
            Ty::U8 => Ok(Ty::U8),
            Ty::U16 => Ok(Ty::U16),
            Ty::U32 => Ok(Ty::U32),
            Ty::U64 => Ok(Ty::U64),
            Ty::I8 => Ok(Ty::I8),
            Ty::I16 => Ok(Ty::I16),
            Ty::I32 => Ok(Ty::I32),
            Ty::I64 => Ok(Ty::I64),
            Ty::Str => Ok(Ty::Str),
            Ty::Arr(item) => Ok(Ty::Arr(Boxed::new(alloc, item.copy(alloc)?)?)),
            Ty::Map(key, item) => {
                let key = Boxed::new(alloc, key.copy(alloc)?)?;
                Ok(Ty::Map(key, Boxed::new(alloc, item.copy(alloc)?)?))
            }
            Ty::Nullable(of) => Ok(Ty::Nullable(Boxed::new(alloc, of.copy(alloc)?)?)),
            Ty::State(chain, args) => {
                let chain = Boxed::new(alloc, chain.copy(alloc)?)?;
                Ok(Ty::State(chain, copy_types(alloc, args.as_slice())?))
            }
        }
    }
}

/// An equal list of types.
///
/// # Errors
///
/// [`OutOfMemory`] where there is no room for it.
#[cycle(copy_type)]
pub fn copy_types(alloc: Global, types: &[Ty]) -> Result<Seq<Ty>, OutOfMemory>
    ensures { IfOk result (λ copied. copied ≡ types.now) }
{
    let mut copied = Seq::new(alloc);
    copied.reserve(types.len())?;
    for ty in types {
        copied.push(ty.copy(alloc)?)?;
    }
    Ok(copied)
}
