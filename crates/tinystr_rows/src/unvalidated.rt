//! Bytes that may be the form of a text, or not.

ghost use Rattle.std.specs.Prelude.{◌≤◌};

use crate::argument::Argument;
use crate::writing::{put_bytes, put_read, put_unvalidated, put_verdict};
use rows::Stop;
use tinystr::UnvalidatedTinyAsciiStr;

pub fn answer<const N: usize>(
    call: &str,
    arguments: &[Argument<'_>],
    out: &mut String,
) -> Result<(), Stop>
    requires { N ≤ 16 }
{
    match arguments {
        [] if call == "default" => {
            put_bytes(out, &UnvalidatedTinyAsciiStr::<N>::default().to_bytes())
        }
        [argument] => answer_bytes::<N>(call, argument, out),
        _ => Err(Stop::Unknown),
    }
}

// The answer of a call that takes bytes.
fn answer_bytes<const N: usize>(
    call: &str,
    argument: &Argument<'_>,
    out: &mut String,
) -> Result<(), Stop>
    requires { N ≤ 16 }
{
    let bytes = argument.bytes.as_slice();
    match call {
        "try_from_utf8" => {
            put_unvalidated(out, UnvalidatedTinyAsciiStr::<N>::try_from_utf8(bytes))
        }
        "from_bytes" => put_unvalidated(out, UnvalidatedTinyAsciiStr::<N>::from_bytes(bytes)),
        "validate_bytes" if N > 0 => {
            put_verdict(out, UnvalidatedTinyAsciiStr::<N>::validate_bytes(bytes))
        }
        "from_utf8_unchecked" => put_bytes(out, &value_of::<N>(argument)?.to_bytes()),
        "try_into_tinystr" => put_read(out, value_of::<N>(argument)?.try_into_tinystr()),
        _ => answer_text::<N>(call, argument, out),
    }
}

fn value_of<const N: usize>(argument: &Argument<'_>) -> Result<UnvalidatedTinyAsciiStr<N>, Stop> {
    let bytes = argument.array::<N>()?;
    Ok(UnvalidatedTinyAsciiStr::<N>::from_utf8_unchecked(bytes))
}

// The answer of a call that takes a text.
fn answer_text<const N: usize>(
    call: &str,
    argument: &Argument<'_>,
    out: &mut String,
) -> Result<(), Stop>
    requires { N ≤ 16 }
{
    let text = argument.small::<N>()?;
    let all = match call {
        "from" => UnvalidatedTinyAsciiStr::<N>::from(text),
        "to_unvalidated" => text.to_unvalidated(),
        _ => return Err(Stop::Unknown),
    };
    put_bytes(out, &all.to_bytes())
}
