//! The marks between the elements of an array and the entries of a map, with spaces before them.
ghost use Rattle.std.specs.Prelude.{◌≡◌};
ghost use Rattle.std.specs.Option.{option_map};
ghost use Rattle.tsv_values.specs.proving.Steps.{after_spaces, behind_byte, colon_step, first_step, more_step, step_of};

/// What follows.
#[derive(Clone, Copy)]
pub(crate) enum Next<'t> {
    /// One more element, which begins this text.
    OneMore(&'t [u8]),
    /// The end of the list, and this text behind it.
    End(&'t [u8]),
    Neither,
}

pub(crate) fn skip_spaces(text: &[u8]) -> &[u8]
    ensures { result.now ≡ after_spaces text.now }
{
    let mut left = text;
    while let [b' ', after @ ..] = left {
        left = after;
    }
    left
}

fn first_step(closing: u8, text: &[u8]) -> Next<'_>
    ensures { step_of result ≡ first_step closing text.now }
{
    match text {
        [byte, behind @ ..] if *byte == closing => Next::End(behind),
        _ => Next::OneMore(text),
    }
}

/// What follows the opening byte of a list.
pub(crate) fn first(closing: u8, text: &[u8]) -> Next<'_>
    ensures { step_of result ≡ first_step closing (after_spaces text.now) }
{
    first_step(closing, skip_spaces(text))
}

fn more_step(closing: u8, text: &[u8]) -> Next<'_>
    ensures { step_of result ≡ more_step closing text.now }
{
    match text {
        [b',', behind @ ..] => Next::OneMore(skip_spaces(behind)),
        [byte, behind @ ..] if *byte == closing => Next::End(behind),
        _ => Next::Neither,
    }
}

/// What follows an element of a list.
pub(crate) fn more(closing: u8, text: &[u8]) -> Next<'_>
    ensures { step_of result ≡ more_step closing (after_spaces text.now) }
{
    more_step(closing, skip_spaces(text))
}

/// The text behind this byte, if it stands at the front.
pub(crate) fn behind(byte: u8, text: &[u8]) -> Option<&[u8]>
    ensures { option_map (λ rest. rest.now) result ≡ behind_byte byte text.now }
{
    match text {
        [first, rest @ ..] if *first == byte => Some(rest),
        _ => None,
    }
}

fn colon_step(text: &[u8]) -> Option<&[u8]>
    ensures { option_map (λ rest. rest.now) result ≡ colon_step text.now }
{
    match text {
        [b':', rest @ ..] => Some(skip_spaces(rest)),
        _ => None,
    }
}

/// The value behind the colon of an entry.
pub(crate) fn behind_colon(text: &[u8]) -> Option<&[u8]>
    ensures { option_map (λ rest. rest.now) result ≡ colon_step (after_spaces text.now) }
{
    colon_step(skip_spaces(text))
}
