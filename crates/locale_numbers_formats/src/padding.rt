//! Zeros in front of a number without its sign, and at the end of its fraction: trimmed, and then added.

ghost use Rattle.std.specs.Prelude.{◌≡◌, neg_ℤ};
ghost use Rattle.fixed_decimal.specs.Number.{place};
ghost use Rattle.locale_numbers_formats.specs.Changed.{end_padded, end_trimmed, fraction_trimmed, front_padded, front_trimmed, is_above_ones, last_of, padded_down, shown, start_trimmed, whole_shown, whole_trimmed, zeros_by};

use crate::options::{LeadingZeros, NumberOptions, Rounding, TrailingZeros};
use crate::significant::{last_place_of, magnitude_of};
use fixed_decimal::UnsignedDecimal;

// Whether a rounding is at a position above the ones.
fn is_above_ones(rounding: Rounding) -> bool
    ensures { result ≡ is_above_ones rounding }
{
    match rounding {
        Rounding::Usual | Rounding::Cash | Rounding::AsGiven => false,
        Rounding::At(position, _, _) => position > 0,
        Rounding::Significant(_, _) | Rounding::Either(_, _, _, _) => false,
    }
}

// Trims the zeros in front.
fn trim_start(number: &mut UnsignedDecimal)
    ensures { number.new ≡ start_trimmed number.old }
{
    let _number = number.magnitude_range(); // for the proof
    number.trim_start()
}

// Trims the zeros in front, where that is asked for.
fn trim_front(number: &mut UnsignedDecimal, zeros: LeadingZeros, rounding: Rounding)
    ensures { number.new ≡ front_trimmed zeros rounding number.old }
{
    match zeros {
        LeadingZeros::Keep => (),
        LeadingZeros::TrimRoundedZero => {
            if is_above_ones(rounding) && number.is_zero() {
                trim_start(number)
            }
        }
        LeadingZeros::Trim => trim_start(number),
    }
}

// Trims the zeros at the end of the fraction.
fn trim_fraction(number: &mut UnsignedDecimal)
    ensures { number.new ≡ fraction_trimmed number.old }
{
    let _number = number.magnitude_range(); // for the proof
    number.trim_end()
}

// What becomes of the zeros at the end of the fraction before the pads, by the rounding.
fn zeros_by(rounding: Rounding, zeros: TrailingZeros) -> TrailingZeros
    ensures { result ≡ zeros_by rounding zeros }
{
    match rounding {
        Rounding::Significant(_, _) => TrailingZeros::Trim,
        _ => zeros,
    }
}

// Trims the zeros at the end of the fraction, where that is asked for before the pads.
fn trim_end(number: &mut UnsignedDecimal, zeros: TrailingZeros)
    ensures { number.new ≡ end_trimmed zeros number.old }
{
    match zeros {
        TrailingZeros::Keep => (),
        TrailingZeros::Trim => trim_fraction(number),
        TrailingZeros::TrimWhole => (),
        TrailingZeros::TrimAll => trim_fraction(number),
    }
}

// Pads a number with zeros in front, so that so many integer digits are shown at least.
fn pad_front(number: &mut UnsignedDecimal, digits: i16)
    ensures { number.new ≡ front_padded digits number.old }
{
    let range = number.magnitude_range();
    if digits > 0 && (*range.end() as i32) + 1 < digits as i32 {
        number.pad_start(digits)
    }
}

// Pads a number with zeros at the end down to a position at least: to -2 of two digits.
fn pad_down(number: &mut UnsignedDecimal, position: i16)
    ensures { number.new ≡ padded_down (place position) number.old }
{
    let range = number.magnitude_range();
    if position < 0 && position < *range.start() {
        number.pad_end(position)
    }
}

// Pads a number with zeros at the end, so that so many fraction digits are shown at least.
fn pad_fraction(number: &mut UnsignedDecimal, digits: i16)
    ensures { number.new ≡ padded_down (place (neg_ℤ digits)) number.old }
{
    let _number = number.magnitude_range(); // for the proof
    if digits > 0 {
        pad_down(number, -digits)
    }
}

// Pads a number with zeros at the end, so that so many significant digits are shown at least.
fn pad_significant(number: &mut UnsignedDecimal, digits: u16)
    ensures { number.new ≡ padded_down (last_of digits number.old) number.old }
{
    let last = last_place_of(number, digits);
    pad_down(number, magnitude_of(last))
}

// Pads a number with zeros at the end, so that so many digits are shown at least as the rounding counts.
fn pad_end(number: &mut UnsignedDecimal, rounding: Rounding, digits: i16)
    ensures { number.new ≡ end_padded rounding digits number.old }
{
    match rounding {
        Rounding::Significant(significant, _) if significant.least > 0 => {
            pad_significant(number, significant.least)
        }
        _ => pad_fraction(number, digits),
    }
}

// Trims the fraction where it has no digit but zeros.
fn trim_whole(number: &mut UnsignedDecimal)
    ensures { number.new ≡ whole_trimmed number.old }
{
    number.trim_end_if_integer()
}

// Trims the zeros at the end of the fraction, where that is asked for after the pads.
fn show_whole(number: &mut UnsignedDecimal, zeros: TrailingZeros)
    ensures { number.new ≡ whole_shown zeros number.old }
{
    match zeros {
        TrailingZeros::Keep => (),
        TrailingZeros::Trim => (),
        TrailingZeros::TrimWhole => trim_whole(number),
        TrailingZeros::TrimAll => trim_whole(number),
    }
}

// Makes of a number that was rounded so what is shown of it.
pub(crate) fn show(number: &mut UnsignedDecimal, rounding: Rounding, options: &NumberOptions)
    ensures { number.new ≡ shown rounding options.now number.old }
{
    trim_front(number, options.leading_zeros, rounding);
    trim_end(number, zeros_by(rounding, options.zeros));
    pad_front(number, options.integer_digits);
    pad_end(number, rounding, options.fraction_digits);
    show_whole(number, options.zeros);
}
