//! What rows bring to a chain: a row of the argument types opens to a feed of the chain, which is what the laws of states
//! ask for, and rows of a table contribute such feeds to every view of legal calls. The words stand in specs/RowLaws.
#![tactic(auto)]

ghost use Rattle.row_laws.specs.RowLaws.{RowsOpenToFeeds, RowsContribute};

/// The law of rows.
pub fn law_rows()
    ensures rows_open_to_feeds { RowsOpenToFeeds }
    ensures rows_contribute { RowsContribute }
{}
