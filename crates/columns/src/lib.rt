//! Rows of typed values, kept column by column.
//!
//! A `Batch` is seen as its types with the list of its rows (`specs/Rows.antt`). A row or a run of rows
//! is lent in place, as a `RowView` or a `BatchView`, and nothing is copied.
#![tactic(auto)]

mod batch;
mod batch_view;
mod each;
mod row_view;

pub use batch::Batch;
pub use batch_view::BatchView;
pub use each::trim_each;
pub use row_view::RowView;
pub use typed_columns::{Args, Column, Item, PairSpan, Span};
