//! Small texts beside loops over their single bytes: the empty text, every length, every place, each byte beside and at
//! the ends of a class.

ghost use Rattle.std.specs.Prelude.{◌≤◌, ◌<◌};

use crate::texts::answers;
use rows::{Stop, put};
use tinystr::TinyAsciiStr;

// The bytes beside and at the ends of the classes, and the ends of a text's bytes.
const EDGES: [u8; 14] = [1, 47, 48, 57, 58, 64, 65, 90, 91, 96, 97, 122, 123, 127];

// What is in the other places: a letter in each case, and a digit.
const FILLERS: [u8; 3] = [b'm', b'M', b'5'];

/// How many texts at N answer as the loops do; the first that does not ends the count. The condition is that N is at
/// most 16.
pub fn answer<const N: usize>(out: &mut String) -> Result<(), Stop>
    requires { N ≤ 16 }
{
    if !is_alike::<N>(&[])? {
        return Err(Stop::Unknown);
    }
    let mut count = 1usize;
    for length in 0..N + 1 {
        count = count.saturating_add(alike_at_length::<N>(length)?);
    }
    put(out, &count)
}

fn alike_at_length<const N: usize>(length: usize) -> Result<usize, Stop>
    requires size { N ≤ 16 }
    requires within { length ≤ N }
{
    let mut count = 0usize;
    for place in 0..length {
        for edge in EDGES {
            count = count.saturating_add(alike_at_place::<N>(length, place, edge)?);
        }
    }
    Ok(count)
}

fn alike_at_place<const N: usize>(length: usize, place: usize, edge: u8) -> Result<usize, Stop>
    requires size { N ≤ 16 }
    requires within { length ≤ N }
    requires place { place < length }
{
    let mut count = 0usize;
    for filler in FILLERS {
        let mut bytes = [filler; 16];
        bytes[place] = edge;
        if !is_alike::<N>(&bytes[..length])? {
            return Err(Stop::Unknown);
        }
        count = count.saturating_add(1);
    }
    Ok(count)
}

// Whether the calls of a text answer as loops over its bytes do.
fn is_alike<const N: usize>(bytes: &[u8]) -> Result<bool, Stop>
    requires { N ≤ 16 }
{
    let Ok(text) = TinyAsciiStr::<N>::try_from_utf8(bytes) else {
        return Err(Stop::Unknown);
    };
    Ok(
        text.len() == bytes.len()
            && bits_of(answers(text)) == byte_answers(bytes)
            && are_changes_alike(text, bytes),
    )
}

// The nine answers of a loop over single bytes, as bits.
fn byte_answers(bytes: &[u8]) -> u16 {
    let mut bits = bits_of([true; 9]);
    let mut is_first = true;
    for byte in bytes {
        bits &= bits_of(asked(*byte, is_first));
        is_first = false;
    }
    bits
}

// What the nine questions ask of a byte, which is the first one or is after it.
fn asked(byte: u8, is_first: bool) -> [bool; 9] {
    let is_lower = byte.is_ascii_lowercase();
    let is_upper = byte.is_ascii_uppercase();
    [
        byte.is_ascii_alphabetic(),
        byte.is_ascii_alphanumeric(),
        byte.is_ascii_digit(),
        !is_upper,
        !is_lower,
        if is_first { !is_lower } else { !is_upper },
        is_lower,
        is_upper,
        if is_first { is_upper } else { is_lower },
    ]
}

// Nine answers as bits, in the order of `classes`.
fn bits_of(answers: [bool; 9]) -> u16 {
    let mut bits = 0;
    for holds in answers {
        bits = (bits << 1) | u16::from(holds);
    }
    bits
}

fn are_changes_alike<const N: usize>(text: TinyAsciiStr<N>, bytes: &[u8]) -> bool
    requires { N ≤ 16 }
{
    is_changed(text.to_ascii_lowercase().as_utf8(), bytes, [false, false])
        && is_changed(text.to_ascii_uppercase().as_utf8(), bytes, [true, true])
        && is_changed(text.to_ascii_titlecase().as_utf8(), bytes, [true, false])
}

// Whether bytes were changed to the upper case or the lower: the first one, and those after it.
fn is_changed(changed: &[u8], bytes: &[u8], [first, rest]: [bool; 2]) -> bool {
    let mut is_upper = first;
    for (new, old) in changed.iter().zip(bytes) {
        let want = if is_upper {
            old.to_ascii_uppercase()
        } else {
            old.to_ascii_lowercase()
        };
        if *new != want {
            return false;
        }
        is_upper = rest;
    }
    changed.len() == bytes.len()
}
