//! Why a field is refused, in words.
ghost use Rattle.refusals.specs.Words as words;
ghost use Rattle.std.specs.Prelude.{◌≡◌, ◌++◌, OnErr, OnOk};
ghost use Rattle.value_lists.specs.Fronts.{HoldsFront};

use crate::pieces::{put_at, put_with_number};
use crate::status::StateWhy;
use scalar_texts::{FieldFault, StateFault};
use tsv_text::TextFault;
use value_lists::{Bytes, OutOfMemory};

fn put_escape_fault(text: &mut Bytes, fault: &TextFault) -> Result<(), OutOfMemory>
    ensures ok { OnOk result (text.new ≡ text.old ++ words.escape_words fault.now) }
    ensures err { OnErr result (HoldsFront text.old (words.escape_words fault.now) text.new) }
{
    match fault {
        TextFault::LoneBackslash(place) => put_at(text, b"lone backslash", *place),
        TextFault::BadHex(place) => put_at(text, b"bad hex escape", *place),
        TextFault::OutOfMemory => text.extend_from_slice(b"out of memory"),
    }
}

fn put_state_fault(text: &mut Bytes, fault: StateFault) -> Result<(), OutOfMemory>
    ensures ok { OnOk result (text.new ≡ text.old ++ words.state_fault_words fault) }
    ensures err { OnErr result (HoldsFront text.old (words.state_fault_words fault) text.new) }
{
    match fault {
        StateFault::Version(version) => put_with_number(text, b"state version ", version as u64),
        StateFault::Short => text.extend_from_slice(b"state too short"),
        StateFault::Long(place) => put_at(text, b"state too long", place),
        StateFault::NotCanonical(place) => put_at(text, b"state not canonical", place),
        StateFault::BadTag(place) => put_at(text, b"bad state tag", place),
    }
}

/// Adds why the field of a state is refused.
///
/// # Errors
///
/// [`OutOfMemory`] where there is no room; behind the old text stands a front of the words then.
pub fn put_state_why(text: &mut Bytes, why: StateWhy) -> Result<(), OutOfMemory>
    ensures ok { OnOk result (text.new ≡ text.old ++ words.state_words why) }
    ensures err { OnErr result (HoldsFront text.old (words.state_words why) text.new) }
{
    match why {
        StateWhy::NotHex { at } => put_at(text, b"bad hex", at),
        StateWhy::Fault(fault) => put_state_fault(text, fault),
    }
}

/// Adds why a field is refused (the words are this project's own choice).
///
/// # Errors
///
/// [`OutOfMemory`] where there is no room; behind the old text stands a front of the words then.
pub fn put_field_why(text: &mut Bytes, fault: &FieldFault) -> Result<(), OutOfMemory>
    ensures ok { OnOk result (text.new ≡ text.old ++ words.field_words fault.now) }
    ensures err { OnErr result (HoldsFront text.old (words.field_words fault.now) text.new) }
{
    match fault {
        FieldFault::NotNumber => text.extend_from_slice(b"not a number"),
        FieldFault::OutOfRange => text.extend_from_slice(b"out of range"),
        FieldFault::Text(fault) => put_escape_fault(text, fault),
        FieldFault::BadArray(place) => put_at(text, b"bad array", *place),
        FieldFault::BadMap(place) => put_at(text, b"bad map", *place),
        FieldFault::NotNullable => text.extend_from_slice(b"not nullable"),
        FieldFault::NotHex(place) => put_at(text, b"bad hex", *place),
        FieldFault::BadState(fault) => put_state_fault(text, *fault),
        FieldFault::OutOfMemory => text.extend_from_slice(b"out of memory"),
    }
}
