//! How tables grow, as contracts of functions that do nothing.
ghost use Rattle.table_words.specs.Laws.{RowsAreFed, TablesAreMerged};

/// A table that was fed rows by the places of their keys is the table of what it had and of these rows, and one that a
/// later table was merged into by the places of its keys is the table of both.
pub fn law_tables()
    ensures rows { RowsAreFed }
    ensures tables { TablesAreMerged }
{}
