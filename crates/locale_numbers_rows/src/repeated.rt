//! Runs over more bytes than are read at once.

use crate::runs::put_tracked;
use locale_numbers::Book;
use rows::{Stop, filled, number_of, unescaped};
use std::alloc::{AllocError, Global};
use std::num::NonZeroUsize;

// Puts bytes so often after the others.
fn push_times(out: &mut Vec<u8>, times: usize, bytes: &[u8]) -> Result<(), AllocError> {
    for _ in 0..times {
        out.extend_from_slice(bytes)?;
    }
    Ok(())
}

// Puts the bytes of `3*ab` after the others: `ababab`.
fn push_piece(alloc: Global, out: &mut Vec<u8>, piece: &str) -> Result<(), Stop> {
    let Some((times, text)) = piece.split_once('*') else {
        return Err(Stop::Unknown);
    };
    let times = number_of(times)?;
    let text = unescaped(alloc, text)?;
    let pushed = push_times(out, times, text.as_slice());
    drop(text);
    Ok(pushed?)
}

// Puts the bytes of `3*ab|1*c` after the others: `abababc`.
fn push_pieces(alloc: Global, out: &mut Vec<u8>, field: &str) -> Result<(), Stop> {
    for piece in field.split('|') {
        push_piece(alloc, out, piece)?;
    }
    Ok(())
}

/// The bytes of `3*ab|1*c`: `abababc`.
pub fn repeated(alloc: Global, field: &str) -> Result<Vec<u8>, Stop> {
    let mut out = Vec::new(alloc);
    let pushed = push_pieces(alloc, &mut out, field);
    filled(out, pushed)
}

/// Writes how many lines a run over the bytes of a field answers, and whether it writes these bytes.
pub fn answer(book: &Book, input: &str, output: &[u8], out: &mut String) -> Result<(), Stop> {
    let input = repeated(*out.allocator(), input)?;
    let put = put_tracked(book, NonZeroUsize::MIN, input.as_slice(), Some(output), out);
    drop(input);
    put
}
