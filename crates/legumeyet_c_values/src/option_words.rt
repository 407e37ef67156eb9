//! What is made of a number before it is written, by words: `legumeyet_options`.

ghost use Rattle.std.specs.Prelude.{◌≡◌, [], Some};
ghost use Rattle.legumeyet_c_values.specs.Words.{count_of, digits_least, fraction_of, increment_of, is_at, multiples_of, named, number_options_of, position_of, position_rounding_of, priorities, rounding_of, roundings, shows_end, significant_of, signs, trimmings, usual};

use crate::digit_words::rounding_by;
use crate::words::{are_zeros, is_known, word_at};
use fixed_decimal::{RoundingIncrement, SignDisplay, SignedRoundingMode, UnsignedRoundingMode};
use locale_numbers_formats::{
    LeadingZeros, NumberOptions, Rounding, RoundingPriority, SignAsked, TrailingZeros,
};
use locale_numbers_requests::{Increment, Multiples, multiples_at};

// The sign of a word.
fn sign_by(word: i32) -> Option<SignAsked>
    ensures { result ≡ named signs word }
{
    match word {
        0 => Some(SignAsked::Keep),
        1 => Some(SignAsked::Show(SignDisplay::Auto)),
        2 => Some(SignAsked::Show(SignDisplay::Never)),
        3 => Some(SignAsked::Show(SignDisplay::Always)),
        4 => Some(SignAsked::Show(SignDisplay::ExceptZero)),
        5 => Some(SignAsked::Show(SignDisplay::Negative)),
        _ => None,
    }
}

// The rounding of a word, at a position to multiples of an increment where it is at one.
fn rounding_named(word: i32, position: i16, increment: RoundingIncrement) -> Option<Rounding>
    ensures { result ≡ named (roundings position increment) word }
{
    let mode = match word {
        0 => return Some(Rounding::Usual),
        1 => SignedRoundingMode::Unsigned(UnsignedRoundingMode::Expand),
        2 => SignedRoundingMode::Unsigned(UnsignedRoundingMode::Trunc),
        3 => SignedRoundingMode::Ceil,
        4 => SignedRoundingMode::Floor,
        5 => SignedRoundingMode::Unsigned(UnsignedRoundingMode::HalfExpand),
        6 => SignedRoundingMode::Unsigned(UnsignedRoundingMode::HalfTrunc),
        7 => SignedRoundingMode::HalfCeil,
        8 => SignedRoundingMode::HalfFloor,
        9 => SignedRoundingMode::Unsigned(UnsignedRoundingMode::HalfEven),
        10 => return Some(Rounding::Cash),
        11 => return Some(Rounding::AsGiven),
        _ => return None,
    };
    Some(Rounding::At(position, mode, increment))
}

// The increment of a word.
fn increment_by(word: i32) -> Option<Increment>
    ensures { result ≡ increment_of word }
{
    let (digits, zeros) = match word {
        0 | 1 => (RoundingIncrement::MultiplesOf1, 0),
        2 => (RoundingIncrement::MultiplesOf2, 0),
        5 => (RoundingIncrement::MultiplesOf5, 0),
        25 => (RoundingIncrement::MultiplesOf25, 0),
        10 => (RoundingIncrement::MultiplesOf1, 1),
        20 => (RoundingIncrement::MultiplesOf2, 1),
        50 => (RoundingIncrement::MultiplesOf5, 1),
        100 => (RoundingIncrement::MultiplesOf1, 2),
        200 => (RoundingIncrement::MultiplesOf2, 2),
        250 => (RoundingIncrement::MultiplesOf25, 1),
        500 => (RoundingIncrement::MultiplesOf5, 2),
        1000 => (RoundingIncrement::MultiplesOf1, 3),
        2000 => (RoundingIncrement::MultiplesOf2, 3),
        2500 => (RoundingIncrement::MultiplesOf25, 2),
        5000 => (RoundingIncrement::MultiplesOf5, 3),
        _ => return None,
    };
    Some(Increment { digits, zeros })
}

// What becomes of the zeros at the end of the fraction, by a word.
fn zeros_by(word: i32) -> Option<TrailingZeros>
    ensures { result ≡ named trimmings word }
{
    match word {
        0 => Some(TrailingZeros::Keep),
        1 => Some(TrailingZeros::Trim),
        2 => Some(TrailingZeros::TrimWhole),
        3 => Some(TrailingZeros::TrimAll),
        _ => None,
    }
}

// A position of a word.
fn position_by(word: i32) -> Option<i16>
    ensures { result ≡ position_of word }
{
    if -32768 <= word && word <= 32767 {
        Some(word as i16)
    } else {
        None
    }
}

// A least count of digits of a word.
fn count_by(word: i32) -> Option<i16>
    ensures { result ≡ count_of word }
{
    if 0 <= word && word <= 32767 {
        Some(word as i16)
    } else {
        None
    }
}

// A count of significant digits of a word; 0 is not said.
fn significant_by(word: i32) -> Option<u16>
    ensures { result ≡ significant_of word }
{
    if 0 <= word && word <= 65535 {
        Some(word as u16)
    } else {
        None
    }
}

// The priority of a word; 0 is none.
fn priority_by(word: i32) -> Option<Option<RoundingPriority>>
    ensures { result ≡ named priorities word }
{
    match word {
        0 => Some(None),
        1 => Some(Some(RoundingPriority::MorePrecision)),
        2 => Some(Some(RoundingPriority::LessPrecision)),
        _ => None,
    }
}

// The multiples of an increment at a position that words ask for.
fn multiples_by(words: &[i32]) -> Option<Multiples>
    ensures { result ≡ multiples_of words.now }
{
    let position = position_by(word_at(words, 2))?;
    let increment = increment_by(word_at(words, 3))?;
    multiples_at(position, increment)
}

// The rounding at a position that words ask for.
fn position_rounding_by(words: &[i32]) -> Option<Rounding>
    ensures { result ≡ position_rounding_of words.now }
{
    let multiples = multiples_by(words)?;
    rounding_named(word_at(words, 1), multiples.position, multiples.increment)
}

// Digits of a fraction at least, and those down to the position, where these are shown.
fn digits_least(asked: Rounding, zeros: TrailingZeros, multiples: Multiples, least: i16) -> i16
    ensures { result ≡ digits_least asked zeros multiples least }
{
    if least < multiples.fraction_digits
        && matches!(asked, Rounding::At(_, _, _))
        && matches!(zeros, TrailingZeros::Keep | TrailingZeros::TrimWhole)
    {
        multiples.fraction_digits
    } else {
        least
    }
}

// How many digits of a fraction words ask for at least.
fn fraction_by(words: &[i32]) -> Option<i16>
    ensures { result ≡ fraction_of words.now }
{
    let asked = position_rounding_by(words)?;
    let zeros = zeros_by(word_at(words, 4))?;
    let multiples = multiples_by(words)?;
    let least = count_by(word_at(words, 6))?;
    Some(digits_least(asked, zeros, multiples, least))
}

// The rounding that words ask for.
fn rounding_of(words: &[i32]) -> Option<Rounding>
    ensures { result ≡ rounding_of words.now }
{
    let asked = position_rounding_by(words)?;
    let increment = increment_by(word_at(words, 3))?;
    let least = significant_by(word_at(words, 7))?;
    let most = significant_by(word_at(words, 8))?;
    let priority = priority_by(word_at(words, 9))?;
    rounding_by(least, most, priority, increment, asked)
}

/// The options of no words: an amount of money is rounded to the digits of its currency, and nothing else changes.
pub fn usual_options() -> NumberOptions
    ensures value { result ≡ usual }
    ensures words { number_options_of [] ≡ Some result }
{
    NumberOptions {
        rounding: Rounding::Usual,
        leading_zeros: LeadingZeros::TrimRoundedZero,
        zeros: TrailingZeros::Keep,
        integer_digits: 0,
        fraction_digits: 0,
        sign: SignAsked::Keep,
    }
}

/// What the words of `legumeyet_options` ask for, where each is known: of `3, 9, -1` the sign always, to the nearest
/// tenth. A word that is not given counts as 0, and one past the ten that are known must be 0.
pub fn number_options_by(words: &[i32]) -> Option<NumberOptions>
    ensures { result ≡ number_options_of words.now }
{
    if are_zeros(words) {
        return Some(usual_options());
    }
    if !is_known(10, words) {
        return None;
    }
    let sign = sign_by(word_at(words, 0))?;
    let rounding = rounding_of(words)?;
    let zeros = zeros_by(word_at(words, 4))?;
    let integer_digits = count_by(word_at(words, 5))?;
    let fraction_digits = fraction_by(words)?;
    Some(NumberOptions {
        rounding,
        leading_zeros: LeadingZeros::TrimRoundedZero,
        zeros,
        integer_digits,
        fraction_digits,
        sign,
    })
}
