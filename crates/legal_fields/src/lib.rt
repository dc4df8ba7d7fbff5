//! What legal types are to the readers of fields and of rows, as the contract of a function that does nothing: their states
//! are all read, and no key of a map has a state in it. specs/Readable.antt says it.
#![tactic(auto)]

ghost use Rattle.legal_fields.specs.Readable.{LegalFieldsAreReadable, LegalRowsAreReadable};

use scalar_texts::StateReader;

/// A reader of all legal state types reads each field and each row of legal types, as `read_value` of tsv_values and
/// `judge_line` of row_texts ask.
pub fn law_legal_fields<R: StateReader>()
    ensures fields { (reader : R) → LegalFieldsAreReadable (R.takes reader) }
    ensures rows { (reader : R) → LegalRowsAreReadable (R.takes reader) }
{}
