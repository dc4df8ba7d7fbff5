//! What holds of lines as rows, as the contract of a function that does nothing.
ghost use Rattle.row_texts.specs.OneRow.{OneFirstRefused, OneListOfRows, OneRowAnswer, RowsOrRefused};

use tsv_values::law_one_field_answer;

/// What [`judge_line`](crate::judge_line) says of a line leaves no choice, and so neither does what is said of all lines of a
/// text: they are one list of rows, or one line is the first that is refused, for one cause.
pub fn law_one_row()
    ensures line { OneRowAnswer }
    ensures rows { OneListOfRows }
    ensures refused { OneFirstRefused }
    ensures either { RowsOrRefused }
{
    law_one_field_answer();
}
