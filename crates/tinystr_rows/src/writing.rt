//! How answers are written.

use rows::{Stop, put_debug, put_text};
use std::alloc::AllocError;
use std::fmt::Debug;
use tinystr::{AsciiByte, TinyAsciiStr, UnvalidatedTinyAsciiStr};

/// Writes bytes between quotes: a NUL as `\0`, another byte that does not show as `\xFF`.
pub fn put_bytes(out: &mut String, bytes: &[u8]) -> Result<(), Stop> {
    out.push('"')?;
    for byte in bytes {
        put_byte(out, *byte)?;
    }
    out.push('"')?;
    Ok(())
}

/// Writes ASCII bytes as `put_bytes` does.
pub fn put_ascii_bytes(out: &mut String, bytes: &[AsciiByte]) -> Result<(), Stop> {
    out.push('"')?;
    for byte in bytes {
        put_byte(out, byte.value())?;
    }
    out.push('"')?;
    Ok(())
}

fn put_byte(out: &mut String, byte: u8) -> Result<(), AllocError> {
    match byte {
        0 => out.push_str("\\0"),
        b'"' | b'\\' | 1..=31 | 127..=255 => write!(out, "\\x{byte:02X}"),
        _ => out.push(char::from(byte)),
    }
}

/// Writes the text that was read, or the error.
pub fn put_read<const N: usize, E: Debug + Drop>(
    out: &mut String,
    read: Result<TinyAsciiStr<N>, E>,
) -> Result<(), Stop> {
    match read {
        Ok(text) => put_bytes(out, text.as_utf8()),
        Err(error) => put_debug(out, &error),
    }
}

/// Writes the bytes that were read, or the error.
pub fn put_unvalidated<const N: usize, E: Debug + Drop>(
    out: &mut String,
    read: Result<UnvalidatedTinyAsciiStr<N>, E>,
) -> Result<(), Stop> {
    match read {
        Ok(all) => put_bytes(out, &all.to_bytes()),
        Err(error) => put_debug(out, &error),
    }
}

/// Writes `ok`, or the error.
pub fn put_verdict<E: Debug + Drop>(out: &mut String, verdict: Result<(), E>) -> Result<(), Stop> {
    match verdict {
        Ok(()) => put_text(out, "ok"),
        Err(error) => put_debug(out, &error),
    }
}

/// Writes a `T` for each answer that holds, and an `F` for each that does not.
pub fn put_answers(out: &mut String, answers: [bool; 9]) -> Result<(), Stop> {
    for holds in answers {
        out.push(if holds { 'T' } else { 'F' })?;
    }
    Ok(())
}
