//! Why a call or a state type is refused, in words.
ghost use Rattle.refusals.specs.Words.{chain_words, count_words};
ghost use Rattle.std.specs.Prelude.{◌≡◌, ◌++◌, OnErr, OnOk};
ghost use Rattle.value_lists.specs.Fronts.{HoldsFront};

use crate::pieces::{put_at, put_with_number};
use chain_params::ChainFault;
use value_lists::{Bytes, OutOfMemory};

fn put_argument_count(text: &mut Bytes, want: u32, have: u32) -> Result<(), OutOfMemory>
    ensures ok { OnOk result (text.new ≡ text.old ++ count_words want have) }
    ensures err { OnErr result (HoldsFront text.old (count_words want have) text.new) }
{
    put_with_number(text, b"want ", want as u64)?;
    put_with_number(text, b" arguments, have ", have as u64)
}

pub(crate) fn put_chain_fault(text: &mut Bytes, fault: ChainFault) -> Result<(), OutOfMemory>
    ensures ok { OnOk result (text.new ≡ text.old ++ chain_words fault) }
    ensures err { OnErr result (HoldsFront text.old (chain_words fault) text.new) }
{
    match fault {
        ChainFault::UnknownName => text.extend_from_slice(b"unknown name"),
        ChainFault::TooManySuffixes => text.extend_from_slice(b"too many suffixes"),
        ChainFault::ArrayOutsideIf => text.extend_from_slice(b"Array outside If"),
        ChainFault::ParamCount => text.extend_from_slice(b"parameter count"),
        ChainFault::BadParam(number) => put_with_number(text, b"bad parameter ", number as u64),
        ChainFault::BadPattern(place) => put_at(text, b"bad pattern", place),
        ChainFault::ArgCount { want, have } => put_argument_count(text, want, have),
        ChainFault::ArgType(number) => put_with_number(text, b"bad argument ", number as u64),
        ChainFault::WrongState(number) => {
            put_with_number(text, b"wrong state in argument ", number as u64)
        }
        ChainFault::OutOfMemory => text.extend_from_slice(b"out of memory"),
    }
}
