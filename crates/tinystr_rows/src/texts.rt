//! Calls of one text: what is borrowed from it or counted, the nine class questions, the case changes.

ghost use Rattle.std.specs.Prelude.{◌≤◌};

use crate::argument::Argument;
use crate::writing::{put_answers, put_ascii_bytes, put_bytes};
use rows::{Stop, put};
use std::convert::AsStr;
use tinystr::{TinyAsciiStr, to_ascii_byte_array};

pub fn answer<const N: usize>(
    call: &str,
    arguments: &[Argument<'_>],
    out: &mut String,
) -> Result<(), Stop>
    requires { N ≤ 16 }
{
    match arguments {
        [] => constant::<N>(call, out),
        [text] => answer_text(call, text.small::<N>()?, out),
        _ => Err(Stop::Unknown),
    }
}

fn constant<const N: usize>(call: &str, out: &mut String) -> Result<(), Stop>
    requires { N ≤ 16 }
{
    match call {
        "EMPTY" => put_bytes(out, TinyAsciiStr::<N>::EMPTY.as_utf8()),
        "NICHE_BIT_PATTERN" => put_bytes(out, &TinyAsciiStr::<N>::NICHE_BIT_PATTERN),
        "UND" if N == 3 => put_bytes(out, TinyAsciiStr::<3>::UND.as_utf8()),
        _ => Err(Stop::Unknown),
    }
}

fn answer_text<const N: usize>(
    call: &str,
    text: TinyAsciiStr<N>,
    out: &mut String,
) -> Result<(), Stop>
    requires { N ≤ 16 }
{
    match call {
        "len" => put(out, &text.len()),
        "is_empty" => put(out, &text.is_empty()),
        "as_str" => put_bytes(out, text.as_str().as_bytes()),
        "AsStr::as_str" => put_bytes(out, AsStr::as_str(&text).as_bytes()),
        "as_utf8" => put_bytes(out, text.as_utf8()),
        "all_bytes" => put_bytes(out, text.all_bytes()),
        "to_ascii_byte_array" => put_ascii_bytes(out, &to_ascii_byte_array(text.all_bytes())),
        "from_utf8_unchecked" => {
            let same = TinyAsciiStr::<N>::from_utf8_unchecked(*text.all_bytes());
            put_bytes(out, same.as_utf8())
        }
        "is_ascii" => put_answers(out, answers(text)),
        _ => answer_case(call, text, out),
    }
}

// A case change: the text, or all bytes of the value.
fn answer_case<const N: usize>(
    call: &str,
    text: TinyAsciiStr<N>,
    out: &mut String,
) -> Result<(), Stop>
    requires { N ≤ 16 }
{
    match call.strip_suffix(".to_bytes") {
        None => put_bytes(out, changed(call, text)?.as_utf8()),
        Some(change) => put_bytes(out, &changed(change, text)?.to_bytes()),
    }
}

fn changed<const N: usize>(change: &str, text: TinyAsciiStr<N>) -> Result<TinyAsciiStr<N>, Stop> {
    match change {
        "to_ascii_lowercase" => Ok(text.to_ascii_lowercase()),
        "to_ascii_uppercase" => Ok(text.to_ascii_uppercase()),
        "to_ascii_titlecase" => Ok(text.to_ascii_titlecase()),
        _ => Err(Stop::Unknown),
    }
}

/// Alphabetic, alphanumeric, numeric, lower, upper, title, then letters in lower, upper, title.
pub fn answers<const N: usize>(text: TinyAsciiStr<N>) -> [bool; 9] {
    [
        text.is_ascii_alphabetic(),
        text.is_ascii_alphanumeric(),
        text.is_ascii_numeric(),
        text.is_ascii_lowercase(),
        text.is_ascii_uppercase(),
        text.is_ascii_titlecase(),
        text.is_ascii_alphabetic_lowercase(),
        text.is_ascii_alphabetic_uppercase(),
        text.is_ascii_alphabetic_titlecase(),
    ]
}
