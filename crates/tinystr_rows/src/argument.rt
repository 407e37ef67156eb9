//! Arguments: the words of a line after its call and capacity.

use rows::{Stop, filled, units};
use std::alloc::{AllocError, Global};
use std::str;
use tinystr::TinyAsciiStr;

/// An argument, with or without quotes around it.
#[derive(Drop)]
pub struct Argument<'a> {
    /// The word as it is in the line.
    pub word: &'a str,
    /// The units that it stands for: each byte, and each escape as one.
    pub units: Vec<u16>,
    /// Those of the units that are below 256.
    pub bytes: Vec<u8>,
}

impl Argument<'_> {
    /// The bytes as text.
    pub fn text(&self) -> Result<&str, Stop> {
        match str::from_utf8(self.bytes.as_slice()) {
            Ok(text) => Ok(text),
            Err(_) => Err(Stop::Unknown),
        }
    }

    /// The bytes, where there are N.
    pub fn array<const N: usize>(&self) -> Result<[u8; N], Stop> {
        match <[u8; N]>::try_from(self.bytes.as_slice()) {
            Ok(array) => Ok(array),
            Err(_) => Err(Stop::Unknown),
        }
    }

    /// The bytes as a small text.
    pub fn small<const N: usize>(&self) -> Result<TinyAsciiStr<N>, Stop> {
        match TinyAsciiStr::<N>::try_from_utf8(self.bytes.as_slice()) {
            Ok(small) => Ok(small),
            Err(_) => Err(Stop::Unknown),
        }
    }
}

/// The arguments that words stand for.
pub fn arguments_of<'a>(alloc: Global, words: &[&'a str]) -> Result<Vec<Argument<'a>>, Stop> {
    let mut arguments = Vec::new(alloc);
    let pushed = push_arguments(alloc, &mut arguments, words);
    filled(arguments, pushed)
}

fn push_arguments<'a>(
    alloc: Global,
    arguments: &mut Vec<Argument<'a>>,
    words: &[&'a str],
) -> Result<(), Stop> {
    for word in words {
        let argument = argument_of(alloc, *word)?;
        arguments.push(argument)?;
    }
    Ok(())
}

fn argument_of<'a>(alloc: Global, word: &'a str) -> Result<Argument<'a>, Stop> {
    let units = units(alloc, without_quotes(word))?;
    match bytes_of(alloc, units.as_slice()) {
        Ok(bytes) => Ok(Argument { word, units, bytes }),
        Err(refused) => {
            drop(units);
            Err(Stop::from(refused))
        }
    }
}

// The units below 256 as bytes.
fn bytes_of(alloc: Global, units: &[u16]) -> Result<Vec<u8>, AllocError> {
    let mut bytes = Vec::new(alloc);
    let pushed = push_bytes(&mut bytes, units);
    filled(bytes, pushed)
}

// Puts the units below 256 to the bytes.
fn push_bytes(bytes: &mut Vec<u8>, units: &[u16]) -> Result<(), AllocError> {
    for unit in units {
        if let Ok(byte) = u8::try_from(*unit) {
            bytes.push(byte)?;
        }
    }
    Ok(())
}

fn without_quotes(word: &str) -> &str {
    match word.strip_prefix('"') {
        None => word,
        Some(rest) => rest.strip_suffix('"').unwrap_or(word),
    }
}
