//! Texts with spaces around them up to a width.

ghost use Rattle.std.specs.Prelude.{◌≡◌, ◌++◌, ◌-◌, OnOk, replicate};
ghost use Rattle.legumeyet_columns.specs.Padded.{characters, is_first, padded};

use std::alloc::AllocError;

/// With how many characters a text is written, and on which side of it spaces are put up to them.
#[derive(Clone, Copy, Debug, PartialEq, Eq)]
pub struct Padding {
    /// How many characters it has at least.
    pub width: usize,
    /// Whether the spaces are behind it; else they are before it.
    pub is_behind: bool,
}

// Whether a byte is the first of a character.
fn is_first(byte: u8) -> bool
    ensures value { result ≡ is_first byte }
{
    !(0x80 <= byte && byte <= 0xBF)
}

// How many characters a text has.
fn characters(text: &[u8]) -> usize
    ensures value { result ≡ characters text.now }
{
    text.iter().filter(|byte| is_first(**byte)).count()
}

// Puts so many spaces.
fn put_spaces(count: usize, out: &mut Vec<u8>) -> Result<(), AllocError>
    ensures text { OnOk result (out.new.items ≡ out.old.items ++ replicate count 32) }
{
    for _space in 0..count {
        out.push(b' ')?;
    }
    Ok(())
}

// Puts a text with spaces around it.
pub fn put_padded(padding: Padding, text: &[u8], out: &mut Vec<u8>) -> Result<(), AllocError>
    ensures text { OnOk result (out.new.items ≡ out.old.items ++ padded padding text.now) }
{
    let count = padding.width.saturating_sub(characters(text));
    if padding.is_behind {
        out.extend_from_slice(text)?;
        put_spaces(count, out)
    } else {
        put_spaces(count, out)?;
        out.extend_from_slice(text)
    }
}
