//! Bytes and UTF-16 units as they are in a field of a row. A backslash begins an escape: `\t`, `\n`, `\r`, `\0`,
//! `\\`, `\xFF` for a byte, `\u30AB` for a unit. Each other byte is itself.

use crate::answers::filled;
use crate::stop::Stop;
use std::alloc::Global;

// What the bytes so far leave open.
#[derive(Clone, Copy)]
enum State {
    Plain,
    // after a backslash
    Escape,
    // after the first hexadecimal digits of this number; how many are to come
    Digits(u16, u8),
}

// A state, and the unit that was ended by the last byte.
type Step = (State, Option<u16>);

fn digit_of(byte: u8) -> Result<u16, Stop> {
    match byte {
        b'0'..=b'9' => Ok(u16::from(byte - b'0')),
        b'A'..=b'F' => Ok(u16::from(byte - b'A' + 10)),
        b'a'..=b'f' => Ok(u16::from(byte - b'a' + 10)),
        _ => Err(Stop::Unknown),
    }
}

// The step of a byte after a backslash.
fn escape(byte: u8) -> Result<Step, Stop> {
    match byte {
        b't' => Ok((State::Plain, Some(9))),
        b'n' => Ok((State::Plain, Some(10))),
        b'r' => Ok((State::Plain, Some(13))),
        b'0' => Ok((State::Plain, Some(0))),
        b'\\' => Ok((State::Plain, Some(92))),
        b'x' => Ok((State::Digits(0, 2), None)),
        b'u' => Ok((State::Digits(0, 4), None)),
        _ => Err(Stop::Unknown),
    }
}

// The step of a digit.
fn digit(number: u16, left: u8, digit: u16) -> Step {
    let number = (number << 4) | digit;
    if left > 1 {
        (State::Digits(number, left - 1), None)
    } else {
        (State::Plain, Some(number))
    }
}

// The step of one byte more.
fn step(state: State, byte: u8) -> Result<Step, Stop> {
    match state {
        State::Plain if byte == b'\\' => Ok((State::Escape, None)),
        State::Plain => Ok((State::Plain, Some(u16::from(byte)))),
        State::Escape => escape(byte),
        State::Digits(number, left) => Ok(digit(number, left, digit_of(byte)?)),
    }
}

// Puts the units of a field to the others.
fn push_units(out: &mut Vec<u16>, field: &str) -> Result<(), Stop> {
    let mut state = State::Plain;
    for byte in field.as_bytes() {
        let (next, unit) = step(state, *byte)?;
        if let Some(unit) = unit {
            out.push(unit)?;
        }
        state = next;
    }
    match state {
        State::Plain => Ok(()),
        _ => Err(Stop::Unknown),
    }
}

// Puts the bytes of a field to the others.
fn push_bytes(out: &mut Vec<u8>, units: &[u16]) -> Result<(), Stop> {
    for unit in units {
        match u8::try_from(*unit) {
            Ok(byte) => out.push(byte)?,
            Err(_) => return Err(Stop::Unknown),
        }
    }
    Ok(())
}

/// The units that a field stands for: `a\u30AB` are 97 and 12459, and `\q` is not understood.
pub fn units(alloc: Global, field: &str) -> Result<Vec<u16>, Stop> {
    let mut out = Vec::new(alloc);
    let pushed = push_units(&mut out, field);
    filled(out, pushed)
}

// The bytes that units are, of which none is above 255.
fn bytes_of(alloc: Global, units: &[u16]) -> Result<Vec<u8>, Stop> {
    let mut out = Vec::new(alloc);
    let pushed = push_bytes(&mut out, units);
    filled(out, pushed)
}

/// The bytes that a field stands for: `U\x00S` are a `U`, a NUL and an `S`.
pub fn unescaped(alloc: Global, field: &str) -> Result<Vec<u8>, Stop> {
    let units = units(alloc, field)?;
    let bytes = bytes_of(alloc, units.as_slice());
    drop(units);
    bytes
}

// Writes a character as it is in a field.
fn put_escaped(out: &mut String, character: char) -> Result<(), Stop> {
    match character {
        '\t' => out.push_str("\\t")?,
        '\n' => out.push_str("\\n")?,
        '\r' => out.push_str("\\r")?,
        '\0' => out.push_str("\\x00")?,
        '\\' => out.push_str("\\\\")?,
        _ => out.push(character)?,
    }
    Ok(())
}

// Writes bytes that are no text: each above ASCII as `\xFF`.
fn put_bytes(out: &mut String, bytes: &[u8]) -> Result<(), Stop> {
    for byte in bytes {
        if *byte < 128 {
            put_escaped(out, *byte as char)?;
        } else {
            write!(out, "\\x{byte:02X}")?;
        }
    }
    Ok(())
}

/// Writes bytes as they are in a field: a tab as `\t`, a NUL as `\x00`, and a byte of what is no text as `\xFF`.
pub fn escaped(out: &mut String, bytes: &[u8]) -> Result<(), Stop> {
    let Ok(text) = str::from_utf8(bytes) else {
        return put_bytes(out, bytes);
    };
    for character in text.chars() {
        put_escaped(out, character)?;
    }
    Ok(())
}
