//! What a rounding is passed: a position, a mode and an increment; and what a consuming call is passed.

use crate::words::{increment_of, mode_of};
use fixed_decimal::{RoundingIncrement, SignedRoundingMode, UnsignedRoundingMode};
use rows::{Stop, number_of, split_word};

/// A rounding's position, mode and increment; a call that is passed no increment has that of every count.
#[derive(Clone, Copy)]
pub struct Rounding {
    pub position: i16,
    pub mode: SignedRoundingMode,
    pub increment: RoundingIncrement,
}

impl Rounding {
    /// The rounding that words spell.
    pub fn of(words: &str) -> Result<Rounding, Stop> {
        let (position, words) = split_word(words);
        let (mode, increment) = split_word(words);
        let position = number_of(position)?;
        let mode = mode_of(mode)?;
        let increment = increment_of(increment)?;
        Ok(Rounding {
            position,
            mode,
            increment,
        })
    }

    /// The mode by size only.
    pub fn unsigned_mode(self) -> Result<UnsignedRoundingMode, Stop> {
        match self.mode {
            SignedRoundingMode::Unsigned(mode) => Ok(mode),
            _ => Err(Stop::Unknown),
        }
    }
}

/// What a consuming call is passed.
#[derive(Clone, Copy)]
pub enum Passed {
    Nothing,
    Position(i16),
    Mode(Rounding),
}

impl Passed {
    /// What words spell: nothing, only a position, or a position, a mode, and an increment or none.
    pub fn of(words: &str) -> Result<Passed, Stop> {
        let (position, behind) = split_word(words);
        if position.is_empty() {
            return Ok(Passed::Nothing);
        }
        if behind.is_empty() {
            return Ok(Passed::Position(number_of(position)?));
        }
        Ok(Passed::Mode(Rounding::of(words)?))
    }
}
