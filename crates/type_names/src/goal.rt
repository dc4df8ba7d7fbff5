//! What is still to come in the text of a type, and what a token does with it.

ghost use Rattle.std.specs.Prelude.{◌≡◌, List, ◌∷◌, ◌++◌, reverse};
ghost use Rattle.std.specs.Option.{option_map};
ghost use Rattle.std.specs.Str.{bytes_eq};
ghost use Rattle.line_tokens.specs.Views.{token_seen};
ghost use Rattle.type_names.specs.TypeTexts.{is_plain_name};
ghost use Rattle.type_names.specs.Judging.{kind_of, type_goals, step};
ghost use Rattle.type_names.specs.declared.goal.Goal.{Goal};

use line_tokens::Token;

/// What a name means where a type is to come.
#[derive(Clone, Copy, Debug, PartialEq, Eq)]
pub enum Kind {
    PlainName,
    ArrayName,
    MapName,
    NullableName,
    StateName,
    OtherName,
}

/// What is still to come in the text of a type.
#[derive(Clone, Copy, Debug, PartialEq, Eq)]
pub enum Goal {
    AnyType,
    /// A number type or String.
    PlainType,
    Opening,
    Closing,
    Dividing,
    /// The name of a chain.
    Name,
    /// Behind the name of a chain: literals in brackets, types, the closing bracket.
    BehindName,
    OneLiteral,
    MoreLiterals,
    MoreTypes,
}

fn is(word: &[u8], name: &[u8]) -> bool
    ensures { result ≡ bytes_eq word.now name.now }
{
    word == name
}

fn is_plain_name(word: &[u8]) -> bool
    ensures { result ≡ is_plain_name word.now }
{
    is(word, b"UInt8")
        || is(word, b"UInt16")
        || is(word, b"UInt32")
        || is(word, b"UInt64")
        || is(word, b"Int8")
        || is(word, b"Int16")
        || is(word, b"Int32")
        || is(word, b"Int64")
        || is(word, b"String")
}

fn kind_of(word: &[u8]) -> Kind
    ensures { result ≡ kind_of word.now }
{
    if is_plain_name(word) {
        Kind::PlainName
    } else if is(word, b"Array") {
        Kind::ArrayName
    } else if is(word, b"Map") {
        Kind::MapName
    } else if is(word, b"Nullable") {
        Kind::NullableName
    } else if is(word, b"AggregateFunction") {
        Kind::StateName
    } else {
        Kind::OtherName
    }
}

// The goals in place of a type, the next one last.
fn type_goals(kind: Kind) -> Option<&'static [Goal]>
    ensures { (below : List Goal) → type_goals kind below ≡ option_map (λ more. reverse more.now ++ below) result }
{
    match kind {
        Kind::PlainName => Some(&[]),
        Kind::ArrayName => Some(&[Goal::Closing, Goal::AnyType, Goal::Opening]),
        Kind::MapName => Some(&[
            Goal::Closing,
            Goal::AnyType,
            Goal::Dividing,
            Goal::PlainType,
            Goal::Opening,
        ]),
        Kind::NullableName => Some(&[Goal::Closing, Goal::PlainType, Goal::Opening]),
        Kind::StateName => Some(&[Goal::BehindName, Goal::Name, Goal::Opening]),
        Kind::OtherName => None,
    }
}

/// The goals that stand in place of a goal behind a token, the next one last; none where the token can't come there.
pub fn goals_for(goal: Goal, token: Token<'_>) -> Option<&'static [Goal]>
    ensures { (below : List Goal) → step (goal ∷ below) (token_seen token.entry) ≡ option_map (λ more. reverse more.now ++ below) result }
{
    match (goal, token) {
        (Goal::AnyType, Token::Word(word)) => type_goals(kind_of(word)),
        (Goal::PlainType, Token::Word(word)) if is_plain_name(word) => Some(&[]),
        (Goal::Opening, Token::OpenBracket)
        | (Goal::Closing, Token::CloseBracket)
        | (Goal::Dividing, Token::Comma)
        | (Goal::Name, Token::Word(_))
        | (Goal::BehindName, Token::CloseBracket)
        | (Goal::MoreLiterals, Token::CloseBracket)
        | (Goal::MoreTypes, Token::CloseBracket)
        | (Goal::OneLiteral, Token::Integer(_))
        | (Goal::OneLiteral, Token::Decimal(_))
        | (Goal::OneLiteral, Token::Quoted(_)) => Some(&[]),
        (Goal::BehindName, Token::OpenBracket) => {
            Some(&[Goal::MoreTypes, Goal::MoreLiterals, Goal::OneLiteral])
        }
        (Goal::BehindName, Token::Comma) | (Goal::MoreTypes, Token::Comma) => {
            Some(&[Goal::MoreTypes, Goal::AnyType])
        }
        (Goal::MoreLiterals, Token::Comma) => Some(&[Goal::MoreLiterals, Goal::OneLiteral]),
        _ => None,
    }
}
