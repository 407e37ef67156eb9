//! Numbers made of their digits, given one after another.
ghost use Rattle.std.specs.Prelude.{◌≡◌, length, IfOk, OnOk};

use fixed_decimal::{GivenDigits, UnsignedDecimal};
use rows::{Stop, number_of, split_word};
use std::alloc::Global;

// Gives the digits of a word, one after another.
fn give(digits: &mut GivenDigits, word: &str) -> Result<(), Stop>
    requires { digits.old.count ≡ 0 }
    ensures { OnOk result (digits.new.count ≡ length word.now) }
{
    for character in word.as_bytes() {
        let digit = character.wrapping_sub(b'0');
        if digit > 9 {
            return Err(Stop::Unknown);
        }
        digits.push(digit)?;
    }
    Ok(())
}

// The digits of a word.
fn given(alloc: Global, word: &str) -> Result<GivenDigits, Stop>
    ensures { IfOk result (λ digits. digits.count ≡ length word.now) }
{
    let mut digits = GivenDigits::with_room(alloc, word.len())?;
    match give(&mut digits, word) {
        Ok(()) => Ok(digits),
        Err(stop) => {
            drop(digits);
            Err(stop)
        }
    }
}

/// The number of a word's digits, of which as many as the second word says are after the point.
pub fn number(alloc: Global, passed: &str) -> Result<UnsignedDecimal, Stop> {
    let (word, fraction) = split_word(passed);
    let fraction = number_of::<usize>(fraction)?;
    if word.is_empty() || word.len() < fraction {
        return Err(Stop::Unknown);
    }
    match given(alloc, word)?.into_decimal(fraction) {
        Some(number) => Ok(number),
        None => Err(Stop::Unknown),
    }
}
