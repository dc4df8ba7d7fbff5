//! The tokens of a line, one after another, with the place of each.
//! specs/Tokens.antt says which tokens a text has.
#![tactic(auto)]

mod numbers;
mod quote;
mod token;

pub use token::{Placed, Token, next_token};
