//! Texts in one word of eight bytes: at most 4 of them, or 8.

ghost use Rattle.std.specs.Prelude.{◌≤◌};

use crate::argument::Argument;
use crate::writing::{put_answers, put_ascii_bytes};
use rows::{Stop, put};
use tinystr::{Aligned, Aligned4, Aligned8, TinyAsciiStr, to_ascii_byte_array};

/// The answer to a call of a text of at most 4 bytes in one word.
pub fn answer_of_four<const N: usize>(
    call: &str,
    arguments: &[Argument<'_>],
    out: &mut String,
) -> Result<(), Stop> {
    if N > 4 {
        return Err(Stop::Unknown);
    }
    let bytes = to_ascii_byte_array(text_of::<N>(arguments)?.all_bytes());
    answer(call, &Aligned4::from_ascii_bytes(&bytes), out)
}

/// The same of at most 8 bytes.
pub fn answer_of_eight<const N: usize>(
    call: &str,
    arguments: &[Argument<'_>],
    out: &mut String,
) -> Result<(), Stop> {
    if N > 8 {
        return Err(Stop::Unknown);
    }
    let bytes = to_ascii_byte_array(text_of::<N>(arguments)?.all_bytes());
    answer(call, &Aligned8::from_ascii_bytes(&bytes), out)
}

fn text_of<const N: usize>(arguments: &[Argument<'_>]) -> Result<TinyAsciiStr<N>, Stop> {
    match arguments {
        [text] => text.small::<N>(),
        _ => Err(Stop::Unknown),
    }
}

fn answer<const M: usize>(call: &str, word: &Aligned<M>, out: &mut String) -> Result<(), Stop>
    requires { M ≤ 8 }
{
    match call {
        "len" => put(out, &word.len()),
        "is_ascii" => put_answers(out, answers(word)),
        "to_ascii_lowercase" => put_ascii_bytes(out, &word.to_ascii_lowercase()),
        "to_ascii_uppercase" => put_ascii_bytes(out, &word.to_ascii_uppercase()),
        "to_ascii_titlecase" => put_ascii_bytes(out, &word.to_ascii_titlecase()),
        _ => Err(Stop::Unknown),
    }
}

// The nine answers, in the order of `classes`.
fn answers<const M: usize>(word: &Aligned<M>) -> [bool; 9] {
    [
        word.is_ascii_alphabetic(),
        word.is_ascii_alphanumeric(),
        word.is_ascii_numeric(),
        word.is_ascii_lowercase(),
        word.is_ascii_uppercase(),
        word.is_ascii_titlecase(),
        word.is_ascii_alphabetic_lowercase(),
        word.is_ascii_alphabetic_uppercase(),
        word.is_ascii_alphabetic_titlecase(),
    ]
}
