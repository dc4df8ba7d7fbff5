//! The lines of a source of bytes, one at a time or a block of them at once, within limits on a line and on the whole input.
//! specs/Limits.antt says when a limit is broken and which of the two comes first, specs/Ahead.antt what a reader is seen as, and
//! specs/Answers.antt what it answers.
#![tactic(auto)]

mod awaiting;
mod block;
mod block_size;
mod fault;
mod filling;
mod lookahead;
mod reader;
mod searching;
mod stop;

pub use block::Block;
pub use block_size::BlockSize;
pub use fault::LineFault;
pub use lookahead::Lookahead;
pub use reader::LineReader;
pub use stop::Stop;
