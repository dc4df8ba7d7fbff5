//! What the quick reader gives.
ghost use Rattle.std.specs.Prelude.{◌≡◌};
ghost use Rattle.scalar_texts.specs.declared.fault.FieldFault.TheVariants.{OutOfMemory};
ghost use Rattle.tsv_values.specs.declared.found.Missing.TheVariants.{Refused};
ghost use Rattle.tsv_values.specs.proving.Reading.{escape_missing, missing_of};

use scalar_texts::FieldFault;
use tsv_text::TextFault;
use value_types::Value;

/// An element, and the text behind it.
#[derive(Drop)]
pub(crate) struct Found<'t> {
    pub(crate) value: Value,
    pub(crate) rest: &'t [u8],
}

/// An entry of a map, and the text behind it.
#[derive(Drop)]
pub(crate) struct Entry<'t> {
    pub(crate) key: Value,
    pub(crate) value: Value,
    pub(crate) rest: &'t [u8],
}

/// Why there is no value.
#[derive(Drop)]
pub(crate) enum Missing {
    /// No text of the syntax goes on so.
    Nothing,
    /// The first element that is refused.
    Refused(FieldFault),
}

/// The same with the place of a fault of syntax.
#[derive(Drop)]
pub(crate) enum Refusal {
    Syntax(u64),
    Element(FieldFault),
}

impl From<value_lists::OutOfMemory> for Missing {
    ghost from_gives = { λ _ missing. missing ≡ Refused OutOfMemory };

    fn from(_error: value_lists::OutOfMemory) -> Missing {
        Missing::Refused(FieldFault::OutOfMemory)
    }
}

/// What the fault of a number or of a string is inside an array.
pub(crate) fn missing_of(fault: FieldFault) -> Missing
    ensures { result ≡ missing_of fault }
{
    match fault {
        FieldFault::NotNumber | FieldFault::Text(_) => Missing::Nothing,
        fault => Missing::Refused(fault),
    }
}

/// What a bad escape is inside an array: no text of the syntax.
pub(crate) fn escape_missing(fault: TextFault) -> Missing
    ensures { result ≡ escape_missing fault }
{
    match fault {
        TextFault::OutOfMemory => Missing::Refused(FieldFault::OutOfMemory),
        _ => Missing::Nothing,
    }
}
