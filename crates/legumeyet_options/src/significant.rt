//! The significant digits that the options ask for.

ghost use Rattle.std.specs.Prelude.{◌≡◌, option_map};
ghost use Rattle.locale_numbers_requests.specs.RoundingField.{keeps_digits};
ghost use Rattle.legumeyet_options.specs.Digits.{either_by, either_of, significant_alone, significant_said, with_digits, with_significant};

use crate::digits::options_by;
use crate::fault::OptionFault;
use fixed_decimal::{SignedRoundingMode, UnsignedRoundingMode};
use locale_numbers_formats::{
    NumberOptions, Rounding, RoundingPriority, SignificantDigits, TrailingZeros,
};
use locale_numbers_requests::{
    cut_field, priority_named, significant_by, significant_count, significant_in,
};

// So many significant digits, or at least and at most so many, with a minus between.
fn significant_said(word: &[u8]) -> Option<SignificantDigits>
    ensures { result ≡ significant_said word.now }
{
    match cut_field(word, b'-') {
        (count, None) => {
            let count = significant_count(count);
            significant_by(count, count)
        }
        (_, Some(_)) => significant_in(word),
    }
}

// Whether no rounding is said.
fn keeps_digits(rounding: Rounding) -> bool
    ensures { result ≡ keeps_digits rounding }
{
    matches!(rounding, Rounding::Usual)
}

// These digits alone, where none of a fraction are said.
fn significant_alone(
    digits: SignificantDigits,
    fraction: Result<NumberOptions, OptionFault>,
) -> Result<NumberOptions, OptionFault>
    ensures { result ≡ significant_alone digits fraction }
{
    let options = fraction?;
    if keeps_digits(options.rounding) {
        let mode = SignedRoundingMode::Unsigned(UnsignedRoundingMode::HalfEven);
        let rounding = Rounding::Significant(digits, mode);
        Ok(options_by(rounding, TrailingZeros::Trim, 0))
    } else {
        Err(OptionFault::NoPriority)
    }
}

// These digits, or those of a fraction, which have to be at most so many.
fn either_of(
    priority: RoundingPriority,
    digits: SignificantDigits,
    options: NumberOptions,
) -> Result<NumberOptions, OptionFault>
    ensures { result ≡ either_of priority digits options options.rounding }
{
    match options.rounding {
        Rounding::At(position, mode, _) => Ok(NumberOptions {
            rounding: Rounding::Either(priority, position, digits, mode),
            ..options
        }),
        Rounding::Usual
        | Rounding::Cash
        | Rounding::AsGiven
        | Rounding::Significant(_, _)
        | Rounding::Either(_, _, _, _) => Err(OptionFault::NoFraction),
    }
}

// By a priority, where the word names one.
fn either_by(
    priority: Option<RoundingPriority>,
    digits: SignificantDigits,
    fraction: Result<NumberOptions, OptionFault>,
) -> Result<NumberOptions, OptionFault>
    ensures { result ≡ either_by priority digits fraction }
{
    let options = fraction?;
    match priority {
        None => Err(OptionFault::Priority),
        Some(priority) => either_of(priority, digits, options),
    }
}

// What significant digits say beside those of a fraction.
fn with_digits(
    digits: Option<SignificantDigits>,
    priority: Option<&str>,
    fraction: Result<NumberOptions, OptionFault>,
) -> Result<NumberOptions, OptionFault>
    ensures { result ≡ with_digits digits (option_map (λ word. word.now) priority.entry) fraction }
{
    let Some(digits) = digits else {
        return Err(OptionFault::Significant);
    };
    match priority {
        None => significant_alone(digits, fraction),
        Some(word) => either_by(priority_named(word.as_bytes()), digits, fraction),
    }
}

// What `--significant` and `--priority` say beside digits of a fraction.
pub(crate) fn with_significant(
    digits: Option<&str>,
    priority: Option<&str>,
    fraction: Result<NumberOptions, OptionFault>,
) -> Result<NumberOptions, OptionFault>
    ensures { result ≡ with_significant (option_map (λ word. word.now) digits.entry)
        (option_map (λ word. word.now) priority.entry) fraction }
{
    match (digits, priority) {
        (None, None) => fraction,
        (None, Some(_)) => Err(OptionFault::Priority),
        (Some(word), _) => with_digits(significant_said(word.as_bytes()), priority, fraction),
    }
}
