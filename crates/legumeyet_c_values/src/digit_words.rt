//! What a number is rounded to where significant digits are asked for by words: `legumeyet_options`.

ghost use Rattle.std.specs.Prelude.{◌≡◌};
ghost use Rattle.legumeyet_c_values.specs.DigitWords.{digits_alone, digits_beside, digits_by, digits_rounding, digits_within, is_one, is_single, rounding_by, said_or, single_rounding, unsaid_rounding};

use fixed_decimal::{RoundingIncrement, SignedRoundingMode, UnsignedRoundingMode};
use locale_numbers_formats::{Rounding, RoundingPriority, SignificantDigits};
use locale_numbers_requests::Increment;

// A count, or another one where it is not said.
fn said_or(other: u16, count: u16) -> u16
    ensures { result ≡ said_or other count }
{
    if count == 0 { other } else { count }
}

// So many digits. `None`: the least are above the most.
fn digits_within(least: u16, most: u16) -> Option<SignificantDigits>
    ensures { result ≡ digits_within least most }
{
    if most < least {
        None
    } else {
        Some(SignificantDigits { least, most })
    }
}

// The digits that are said.
fn digits_by(least: u16, most: u16) -> Option<SignificantDigits>
    ensures { result ≡ digits_by least most }
{
    digits_within(said_or(1, least), said_or(65535, most))
}

// The rounding to digits alone.
fn digits_alone(digits: SignificantDigits, asked: Rounding) -> Option<Rounding>
    ensures { result ≡ digits_alone digits asked }
{
    match asked {
        Rounding::Usual => Some(Rounding::Significant(
            digits,
            SignedRoundingMode::Unsigned(UnsignedRoundingMode::HalfEven),
        )),
        Rounding::At(_, mode, _) => Some(Rounding::Significant(digits, mode)),
        Rounding::Cash
        | Rounding::AsGiven
        | Rounding::Significant(_, _)
        | Rounding::Either(_, _, _, _) => None,
    }
}

// The rounding to a position or to digits.
fn digits_beside(
    digits: SignificantDigits,
    priority: RoundingPriority,
    asked: Rounding,
) -> Option<Rounding>
    ensures { result ≡ digits_beside digits priority asked }
{
    match asked {
        Rounding::At(position, mode, _) => {
            Some(Rounding::Either(priority, position, digits, mode))
        }
        Rounding::Usual
        | Rounding::Cash
        | Rounding::AsGiven
        | Rounding::Significant(_, _)
        | Rounding::Either(_, _, _, _) => None,
    }
}

// The rounding to digits, by their priority.
fn digits_rounding(
    digits: SignificantDigits,
    priority: Option<RoundingPriority>,
    asked: Rounding,
) -> Option<Rounding>
    ensures { result ≡ digits_rounding digits priority asked }
{
    match priority {
        None => digits_alone(digits, asked),
        Some(priority) => digits_beside(digits, priority, asked),
    }
}

// Whether an increment is 1.
fn is_one(increment: Increment) -> bool
    ensures { result ≡ is_one increment }
{
    increment.has_no_zeros() && matches!(increment.digits, RoundingIncrement::MultiplesOf1)
}

// The same, where no other increment than 1 is asked for.
fn single_rounding(
    digits: SignificantDigits,
    priority: Option<RoundingPriority>,
    increment: Increment,
    asked: Rounding,
) -> Option<Rounding>
    ensures { result ≡ single_rounding digits priority increment asked }
{
    if is_one(increment) {
        digits_rounding(digits, priority, asked)
    } else {
        None
    }
}

// The rounding where no digits are said.
fn unsaid_rounding(priority: Option<RoundingPriority>, asked: Rounding) -> Option<Rounding>
    ensures { result ≡ unsaid_rounding priority asked }
{
    match priority {
        None => Some(asked),
        Some(_) => None,
    }
}

// The rounding by counts of significant digits, of which 0 is not said: to 1 to 3 of them, half to even, or, where none is
// said, the one that is asked for at a position.
pub(crate) fn rounding_by(
    least: u16,
    most: u16,
    priority: Option<RoundingPriority>,
    increment: Increment,
    asked: Rounding,
) -> Option<Rounding>
    ensures { result ≡ rounding_by least most priority increment asked }
{
    if least == 0 && most == 0 {
        return unsaid_rounding(priority, asked);
    }
    let digits = digits_by(least, most)?;
    single_rounding(digits, priority, increment, asked)
}
