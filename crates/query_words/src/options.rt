//! Options behind a command's name.
ghost use Rattle.std.specs.Prelude.{◌≡◌, ◌<◌, ◌≤◌, ◌+◌, ◌∷◌, length, option_map, string_bytes, true, false, IfSome, IfNone, None};
ghost use Rattle.std.specs.List.{after_first, before_first, list_any};
ghost use Rattle.query_words.specs.Words.{is_equals, options_of, settings_of, texts_of};
ghost use Rattle.query_words.specs.proving.Steps.{options_behind, with_setting};

use crate::number::number_between;

/// The options that were given.
#[derive(Clone, Copy, Debug)]
pub(crate) struct Options {
    pub threads: Option<u32>,
    pub pieces: Option<u32>,
}

impl Options {
    // Each option may stand once.
    fn with(self, name: &str, value: &str) -> Option<Options>
        ensures { result ≡ with_setting self name.now value.now }
    {
        match name {
            "--threads" if self.threads.is_none() => Some(Options {
                threads: Some(number_between(1, 32, value)? as u32),
                pieces: self.pieces,
            }),
            "--pieces" if self.pieces.is_none() => Some(Options {
                threads: self.threads,
                pieces: Some(number_between(1, 64, value)? as u32),
            }),
            _ => None,
        }
    }
}

// What stands before and behind the first `=` of a word.
fn split_at_equals(word: &str) -> Option<(&str, &str)>
    ensures none { IfNone result (list_any is_equals word.now ≡ false) }
    ensures some { IfSome result (λ parts. list_any is_equals word.now ≡ true) }
    ensures name { IfSome result (λ parts. parts.0.now ≡ before_first is_equals word.now) }
    ensures value { IfSome result (λ parts. parts.1.now ≡ after_first is_equals word.now) }
{
    word.split_once('=')
}

// The name and the value of the option with which words begin, `--name=V` in one word or `--name V` in two, and the words
// behind it.
#[tactic(auto, using(crate::proofs::Settings::setting_laws))]
fn first_setting<'w>(
    word: &'w String,
    after: &'w [String],
) -> Option<(&'w str, &'w str, &'w [String])>
    ensures none { IfNone result (settings_of (string_bytes word.now ∷ texts_of after.now) ≡ None) }
    ensures some { IfSome result (λ first. settings_of (string_bytes word.now ∷ texts_of after.now)
        ≡ option_map (λ more. (first.0.now, first.1.now) ∷ more) (settings_of (texts_of first.2.now))) }
    ensures fewer { IfSome result (λ first. length first.2.now ≤ length after.now) }
{
    if let Some((name, value)) = split_at_equals(word.as_str()) {
        return Some((name, value, after));
    }
    match after {
        [value, rest @ ..] => Some((word.as_str(), value.as_str(), rest)),
        [] => None,
    }
}

/// The options that words are.
pub(crate) fn read_options(words: &[String]) -> Option<Options>
    ensures { result ≡ options_of (texts_of words.now) }
{
    let mut options = Options {
        threads: None,
        pieces: None,
    };
    let mut left = words;
    while let [word, after @ ..] = left {
        let Some((name, value, rest)) = first_setting(word, after) else {
            return None;
        };
        let Some(more) = options.with(name, value) else {
            return None;
        };
        options = more;
        left = rest;
    }
    Some(options)
}
