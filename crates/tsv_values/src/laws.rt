//! What is written is read back, and a field has one answer.
ghost use Rattle.tsv_values.specs.OneAnswer.{OneFieldAnswer};
ghost use Rattle.tsv_values.specs.ReadBack.{ValuesReadBack, ValuesWithoutStatesReadBack};

use tsv_text::{law_one_answer, law_round_trip};

/// Each value that fits its type is read back where the states in it are: the field that it is written as says it. In a type without states
/// that is each value.
pub fn law_values_read_back()
    ensures values { ValuesReadBack }
    ensures without_states { ValuesWithoutStatesReadBack }
{
    law_round_trip();
}

/// What [`read_value`](crate::read_value) says of a field leaves no choice: a text and a type allow one answer.
pub fn law_one_field_answer()
    ensures { OneFieldAnswer }
{
    law_one_answer();
}
