//! Columns without values.
ghost use Rattle.std.specs.Prelude.{◌≡◌, IfOk};
ghost use Rattle.typed_columns.specs.Growth.{no_values};
ghost use Rattle.typed_columns.specs.Views.{number_ty};

use crate::Column;
use crate::column::Kind;
use column_parts::{NumberType, Numbers, Texts};
use std::alloc::Global;
use value_types::{Boxed, OutOfMemory, Ty, copy_types};

impl Column {
    /// No values of this type.
    ///
    /// # Errors
    ///
    /// [`OutOfMemory`] where there is no room for the first places and a copy of the type.
    pub fn new(alloc: Global, ty: &Ty) -> Result<Column, OutOfMemory>
        ensures { IfOk result (λ column. column ≡ no_values ty.now) }
    {
        match ty {
            Ty::U8 => Ok(Column::of_numbers(alloc, NumberType::U8)),
            Ty::U16 => Ok(Column::of_numbers(alloc, NumberType::U16)),
            Ty::U32 => Ok(Column::of_numbers(alloc, NumberType::U32)),
            Ty::U64 => Ok(Column::of_numbers(alloc, NumberType::U64)),
            Ty::I8 => Ok(Column::of_numbers(alloc, NumberType::I8)),
            Ty::I16 => Ok(Column::of_numbers(alloc, NumberType::I16)),
            Ty::I32 => Ok(Column::of_numbers(alloc, NumberType::I32)),
            Ty::I64 => Ok(Column::of_numbers(alloc, NumberType::I64)),
            Ty::Str => {
                let kind = Kind::Texts(Texts::new(alloc)?);
                Ok(Column { kind })
            }
            Ty::Nullable(of) => {
                let values = Box::new(alloc, Column::new(alloc, of.get())?)?;
                let kind = Kind::Nullable(Vec::new(alloc), values);
                Ok(Column { kind })
            }
            Ty::Arr(element) => {
                let elements = Box::new(alloc, Column::new(alloc, element.get())?)?;
                let kind = Kind::Lists(Vec::from_slice(alloc, &[0])?, elements);
                Ok(Column { kind })
            }
            Ty::Map(key, value) => {
                let keys = Box::new(alloc, Column::new(alloc, key.get())?)?;
                let values = Box::new(alloc, Column::new(alloc, value.get())?)?;
                let kind = Kind::Maps(Vec::from_slice(alloc, &[0])?, keys, values);
                Ok(Column { kind })
            }
            Ty::State(chain, args) => {
                let chain = Boxed::new(alloc, chain.copy(alloc)?)?;
                let args = copy_types(alloc, args.as_slice())?;
                let kind = Kind::Cells(chain, args, Vec::new(alloc));
                Ok(Column { kind })
            }
        }
    }

    fn of_numbers(alloc: Global, kind: NumberType) -> Column
        ensures { result ≡ no_values (number_ty kind) }
    {
        let kind = Kind::Numbers(Numbers::new(alloc, kind));
        Column { kind }
    }
}
