//! Digits that are given one after another.
ghost use Rattle.std.specs.Prelude.{◌≡◌, ◌<◌, length, IfOk, OnOk};

use crate::case::Case;
use crate::change::ROOM;
use fixed_decimal::GivenDigits;
use rows::{Stop, number_of, put_last, put_text};
use std::alloc::Global;

// Gives the digits of a word, one after another.
fn give(digits: &mut GivenDigits, word: &str) -> Result<(), Stop>
    requires { digits.old.count ≡ 0 }
    ensures { OnOk result (digits.new.count ≡ length word.now) }
{
    for character in word.as_bytes() {
        let digit = character.wrapping_sub(b'0');
        if digit > 9 {
            return Err(Stop::Unknown);
        }
        digits.push(digit)?;
    }
    Ok(())
}

// The digits of a word.
fn given(alloc: Global, word: &str) -> Result<GivenDigits, Stop>
    ensures { IfOk result (λ digits. digits.count ≡ length word.now) }
{
    let mut digits = GivenDigits::with_room(alloc, word.len())?;
    match give(&mut digits, word) {
        Ok(()) => Ok(digits),
        Err(stop) => {
            drop(digits);
            Err(stop)
        }
    }
}

// Writes the number of the digits, and lets them go.
fn put_given(out: &mut String, digits: GivenDigits) -> Result<(), Stop>
    requires { 0 < digits.count }
{
    match digits.into_decimal(0) {
        Some(number) => put_last(out, number),
        None => Err(Stop::Unknown),
    }
}

// Gives one digit more, and shows what is left.
fn pushed(case: Case<'_>, mut digits: GivenDigits, digit: u8, out: &mut String) -> Result<(), Stop>
    requires ten { digit < 10 }
    requires some { 0 < digits.count }
    requires few { digits.count < 100 }
{
    case.begin();
    let said = match digits.push(digit) {
        Ok(()) => Ok(()),
        Err(_) => put_text(out, "refused "),
    };
    let shown = put_given(out, digits);
    said?;
    shown
}

/// The answer of `GivenDigits::push`: the number of the digits after it, or `refused` and then the number.
pub fn answer(case: Case<'_>, out: &mut String) -> Result<(), Stop> {
    out.reserve(ROOM)?;
    let word = case.receiver;
    let digit = number_of::<u8>(case.argument)?;
    if digit > 9 || word.is_empty() || word.len() > 99 {
        return Err(Stop::Unknown);
    }
    let digits = given(*out.allocator(), word)?;
    pushed(case, digits, digit, out)
}
