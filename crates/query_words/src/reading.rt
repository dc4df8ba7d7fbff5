//! The command that words ask for.
ghost use Rattle.std.specs.Prelude.{◌≡◌, ◌∷◌, IfOk};
ghost use Rattle.std.specs.Result.{result_ok};
ghost use Rattle.query_words.specs.Words.{command_of, make_of, query_of, script_of, texts_of, IsInRange};

use crate::command::{Command, Usage};
use crate::number::number_between;
use crate::options::read_options;

fn query(words: &[String]) -> Option<Command>
    ensures { result ≡ query_of (texts_of words.now) }
{
    let options = read_options(words)?;
    Some(Command::Query {
        threads: options.threads.unwrap_or(1),
        pieces: options.pieces.unwrap_or(1),
    })
}

fn script(words: &[String]) -> Option<Command>
    ensures { result ≡ script_of (texts_of words.now) }
{
    let options = read_options(words)?;
    match options.pieces {
        Some(_) => None,
        None => Some(Command::Script {
            threads: options.threads.unwrap_or(32),
        }),
    }
}

fn make(words: &[String]) -> Option<Command>
    ensures { result ≡ make_of (texts_of words.now) }
{
    match words {
        [number, rows] => Some(Command::Make {
            number: number_between(0, u64::MAX, number.as_str())?,
            rows: number_between(0, 1_000_000, rows.as_str())?,
        }),
        _ => None,
    }
}

fn named(name: &str, words: &[String]) -> Option<Command>
    ensures { result ≡ command_of (name.now ∷ texts_of words.now) }
{
    match name {
        "query" => query(words),
        "script" => script(words),
        "make" => make(words),
        _ => None,
    }
}

fn command(words: &[String]) -> Option<Command>
    ensures { result ≡ command_of (texts_of words.now) }
{
    match words {
        [name, rest @ ..] => named(name.as_str(), rest),
        [] => None,
    }
}

/// The command that the words behind the program's name ask for:
///
/// - `query`, with the options `--threads N` (1 to 32, else 1) and `--pieces P` (1 to 64, else 1);
/// - `script`, with the option `--threads N` (1 to 32, else 32);
/// - `make NUMBER ROWS`, with a number of 64 bits and at most 1,000,000 rows.
///
/// An option is written `--name V` or `--name=V`; options stand in any order, each at most once. A number is 1 to 20 digits
/// without a sign; leading zeros are read. The words are this project's own choice.
///
/// # Errors
///
/// [`Usage`] at every other list of words, `--`, `--help` and `help` among them.
pub fn read_words(words: &[String]) -> Result<Command, Usage>
    ensures command { result_ok result ≡ command_of (texts_of words.now) }
    ensures ranges { IfOk result IsInRange }
{
    command(words).ok_or(Usage)
}
