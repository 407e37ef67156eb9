//! The calls of a row, one by one, and the long texts that a row abbreviates.

use rows::{Stop, filled, number_of, split_word};
use std::alloc::{AllocError, Global};

/// A call of a row: its name, and after a space what is passed to it.
#[derive(Clone, Copy)]
pub struct Step<'a> {
    pub name: &'a str,
    pub passed: &'a str,
}

impl<'a> Step<'a> {
    /// The call that a field spells.
    pub fn of(field: &'a str) -> Step<'a> {
        let (name, passed) = split_word(field);
        Step { name, passed }
    }
}

// Puts a text so often after another.
fn push_times(text: &mut String, piece: &str, times: usize) -> Result<(), AllocError> {
    for _ in 0..times {
        text.push_str(piece)?;
    }
    Ok(())
}

// The digits that a word spells: `9*3` is `999`, and each other word itself.
fn repeated(alloc: Global, word: &str) -> Result<String, Stop> {
    let (digit, times) = match word.split_once('*') {
        Some((digit, times)) => (digit, number_of(times)?),
        None => (word, 1),
    };
    let mut text = String::new(alloc);
    let pushed = push_times(&mut text, digit, times);
    Ok(filled(text, pushed)?)
}

// Puts the point, and the digits that a word spells, after a text.
fn push_fraction(alloc: Global, text: &mut String, word: &str) -> Result<(), Stop> {
    let fraction = repeated(alloc, word)?;
    let pushed = write!(text, ".{}", fraction.as_str());
    drop(fraction);
    Ok(pushed?)
}

/// The text of a number whose digits before and after the point are spelled so: `9*3.0*2` is `999.00`.
pub fn long_text(alloc: Global, word: &str) -> Result<String, Stop> {
    let Some((whole, fraction)) = word.split_once('.') else {
        return repeated(alloc, word);
    };
    let mut text = repeated(alloc, whole)?;
    let pushed = push_fraction(alloc, &mut text, fraction);
    filled(text, pushed)
}
