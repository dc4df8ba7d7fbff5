//! Tokens that a reader expects, one at a time.

ghost use Rattle.std.specs.Prelude.{◌≡◌, ◌∷◌, ◌<◌, List, ℕ, length, MatchOption, IfSome};
ghost use Rattle.line_tokens.specs.Tokens.{Token as Seen, word};
ghost use Rattle.line_tokens.specs.Views.{token_seen};
ghost use Rattle.type_names.specs.Syntax.{tokens_in};
ghost use Rattle.type_shapes.specs.Reading.{is_mark, mark_token};
ghost use Rattle.type_shapes.specs.Literals.{HasValue};

use line_tokens::{Placed, Token, next_token};

/// What divides the parts of a type.
#[derive(Clone, Copy, Debug, PartialEq, Eq)]
pub enum Mark {
    Opening,
    Closing,
    Dividing,
}

/// Whether a token is this mark.
pub fn is_mark(mark: Mark, token: Token<'_>) -> bool
    ensures { result ≡ is_mark mark (token_seen token.entry) }
{
    matches!(
        (mark, token),
        (Mark::Opening, Token::OpenBracket)
            | (Mark::Closing, Token::CloseBracket)
            | (Mark::Dividing, Token::Comma)
    )
}

/// The first token of a text, and what stands behind it.
pub fn first_token(text: &[u8]) -> Option<Placed<'_>>
    ensures tokens { MatchOption result ((token : Seen) (more : List Seen) → tokens_in text.now ≡ token ∷ more → ⊥) (λ first. tokens_in text.now ≡ token_seen first.token ∷ tokens_in first.rest.now) }
    ensures shorter { IfSome result (λ first. length first.rest.now < length text.now) }
    ensures valued { IfSome result (λ first. HasValue (token_seen first.token)) }
{
    next_token(text)
}

/// What stands behind a mark, if it comes first in the text.
pub fn behind(mark: Mark, text: &[u8]) -> Option<&[u8]>
    ensures tokens { MatchOption result ((more : List Seen) → tokens_in text.now ≡ mark_token mark ∷ more → ⊥) (λ rest. tokens_in text.now ≡ mark_token mark ∷ tokens_in rest.now) }
    ensures shorter { IfSome result (λ rest. length rest.now < length text.now) }
{
    match first_token(text) {
        Some(first) if is_mark(mark, first.token) => Some(first.rest),
        _ => None,
    }
}

/// The name that comes first in a text, if one does, and what stands behind it.
pub fn first_word(text: &[u8]) -> Option<(&[u8], &[u8])>
    ensures tokens { MatchOption result ((name : List ℕ) (more : List Seen) → tokens_in text.now ≡ word name ∷ more → ⊥) (λ first. tokens_in text.now ≡ word first.0.now ∷ tokens_in first.1.now) }
    ensures shorter { IfSome result (λ first. length first.1.now < length text.now) }
{
    let first = first_token(text)?;
    match first.token {
        Token::Word(name) => Some((name, first.rest)),
        _ => None,
    }
}
