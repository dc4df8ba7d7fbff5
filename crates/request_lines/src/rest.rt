//! What is left of a line, and the token that comes first in it.

ghost use Rattle.std.specs.Prelude.{◌≡◌, ◌∷◌, [], ◌<◌, ℕ, List, length, MatchOption, IfSome};
ghost use Rattle.line_tokens.specs.Tokens.{word, integer};
ghost use Rattle.line_tokens.specs.Views.{token_seen};
ghost use Rattle.line_forms.specs.Letters.{Letter, place};
ghost use Rattle.line_forms.specs.declared.fault.LineFault.TheVariants.{Syntax};
ghost use Rattle.type_shapes.specs.Reading.{mark_token};
ghost use Rattle.type_shapes.specs.Literals.{HasValue, IsSmallInteger};
ghost use Rattle.request_lines.specs.proving.Letters.{letters_left, IsFurther};

use line_forms::LineFault;
use line_tokens::{Token, next_token};
use type_shapes::{Mark, is_mark};

/// What is left of a line of so many bytes.
#[derive(Clone, Copy, Debug)]
pub struct Rest<'a> {
    pub whole: usize,
    pub text: &'a [u8],
}

/// A token, the place of its first byte in the line, and what stands behind it.
#[derive(Clone, Copy, Debug)]
pub struct First<'a> {
    pub token: Token<'a>,
    pub at: u64,
    pub behind: Rest<'a>,
}

/// A word, its place in the line, and what stands behind it.
#[derive(Clone, Copy, Debug)]
pub struct FirstWord<'a> {
    pub word: &'a [u8],
    pub at: u64,
    pub behind: Rest<'a>,
}

/// An integer as it is written, its place in the line, and what stands behind it.
#[derive(Clone, Copy, Debug)]
pub struct FirstInteger<'a> {
    pub digits: &'a [u8],
    pub at: u64,
    pub behind: Rest<'a>,
}

impl<'a> Rest<'a> {
    /// A whole line.
    pub fn of(line: &'a [u8]) -> Rest<'a>
        ensures { (result.whole ≡ length line.now) × (result.text.now ≡ line.now) }
    {
        Rest {
            whole: line.len(),
            text: line,
        }
    }

    /// The token that comes first, if one does.
    pub fn first(self) -> Option<First<'a>>
        ensures letters { MatchOption result (letters_left self.entry ≡ []) (λ f. letters_left self.entry ≡ (token_seen f.token, f.at) ∷ letters_left f.behind) }
        ensures further { IfSome result (λ f. IsFurther self.entry f.behind) }
        ensures shorter { IfSome result (λ f. length f.behind.text.now < length self.entry.text.now) }
        ensures valued { IfSome result (λ f. HasValue (token_seen f.token)) }
    {
        let placed = next_token(self.text)?;
        Some(First {
            token: placed.token,
            at: self.whole.saturating_sub(placed.left) as u64,
            behind: Rest {
                whole: self.whole,
                text: placed.rest,
            },
        })
    }

    /// The place of the token that comes first, or the line's end.
    pub fn here(self) -> u64
        ensures { result ≡ place self.entry.whole 0 (letters_left self.entry) }
    {
        match self.first() {
            Some(first) => first.at,
            None => self.whole as u64,
        }
    }

    /// The fault of a line that can't go on here.
    pub fn fault(self) -> LineFault
        ensures { result ≡ Syntax (place self.entry.whole 0 (letters_left self.entry)) }
    {
        LineFault::Syntax(self.here())
    }

    /// The word that comes first, if one does.
    pub fn word(self) -> Option<FirstWord<'a>>
        ensures letters { MatchOption result ((w : List ℕ) (at : ℕ) (more : List Letter) → letters_left self.entry ≡ (word w, at) ∷ more → ⊥) (λ f. letters_left self.entry ≡ (word f.word.now, f.at) ∷ letters_left f.behind) }
        ensures further { IfSome result (λ f. IsFurther self.entry f.behind) }
        ensures shorter { IfSome result (λ f. length f.behind.text.now < length self.entry.text.now) }
    {
        let first = self.first()?;
        match first.token {
            Token::Word(word) => Some(FirstWord {
                word,
                at: first.at,
                behind: first.behind,
            }),
            _ => None,
        }
    }

    /// What stands behind a mark, if it comes first.
    pub fn behind(self, mark: Mark) -> Option<Rest<'a>>
        ensures letters { MatchOption result ((at : ℕ) (more : List Letter) → letters_left self.entry ≡ (mark_token mark, at) ∷ more → ⊥) (λ b. (at : ℕ) × (letters_left self.entry ≡ (mark_token mark, at) ∷ letters_left b)) }
        ensures further { IfSome result (λ b. IsFurther self.entry b) }
        ensures shorter { IfSome result (λ b. length b.text.now < length self.entry.text.now) }
    {
        match self.first() {
            Some(first) if is_mark(mark, first.token) => Some(first.behind),
            _ => None,
        }
    }

    /// The integer that comes first, if one does.
    pub fn integer(self) -> Option<FirstInteger<'a>>
        ensures letters { MatchOption result ((ds : List ℕ) (at : ℕ) (more : List Letter) → letters_left self.entry ≡ (integer ds, at) ∷ more → ⊥) (λ f. letters_left self.entry ≡ (integer f.digits.now, f.at) ∷ letters_left f.behind) }
        ensures further { IfSome result (λ f. IsFurther self.entry f.behind) }
        ensures small { IfSome result (λ f. IsSmallInteger f.digits.now) }
    {
        let first = self.first()?;
        match first.token {
            Token::Integer(digits) => Some(FirstInteger {
                digits,
                at: first.at,
                behind: first.behind,
            }),
            _ => None,
        }
    }
}
