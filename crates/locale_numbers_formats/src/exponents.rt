//! Words of scientific notation: which exponents there are, and how they are shown.

ghost use Rattle.std.specs.Prelude.{◌≡◌};
ghost use Rattle.locale_numbers_formats.specs.ExponentWords.{exponent_digits, exponent_options, exponent_setting, exponent_sign, exponent_signed, least_shown, named_sign, option_digits, refused_digits, shown_by, sign_option, with_option};
ghost use Rattle.locale_numbers_formats.specs.Runs.{marks_alone};
ghost use Rattle.locale_numbers_formats.specs.StemTable.{stems};
ghost use Rattle.locale_numbers_formats.specs.WordTable.{value_beside};

use crate::cutting::cut_field;
use crate::marks::marks_alone;
use crate::shape::ScientificStyle;
use crate::skeleton_error::WordFault;
use crate::stem_table::STEMS;
use crate::stems::{Setting, SkeletonNotation, SkeletonSign};
use crate::word_table::value_beside;
use fixed_decimal::SignDisplay;
use icu_decimal_scientific::{ExponentOptions, ExponentSign, ScientificNotation};
use icu_dimension_fractions::CurrencyStyle;

// How many digits of an exponent are asked for at least; one is usual, and 0 says nothing.
fn least_shown(digits: u8) -> u8
    ensures { result ≡ least_shown digits }
{
    if digits == 1 { 0 } else { digits }
}

// What a notation sets with exponents that are shown so.
fn shown_by(notation: ScientificNotation, exponents: ExponentOptions) -> Setting
    ensures { result ≡ shown_by notation exponents }
{
    Setting::OfNotation(SkeletonNotation::Scientific(ScientificStyle {
        notation,
        exponents,
    }))
}

// What the digits of an exponent set, a zero for each.
fn exponent_digits(notation: ScientificNotation, sign: ExponentSign, zeros: &[u8]) -> Setting
    ensures { result ≡ exponent_digits notation sign zeros.now }
{
    match marks_alone(zeros, b'0') {
        None => Setting::Refused(WordFault::Unknown),
        Some(digits) => {
            let least_digits = least_shown(digits);
            shown_by(notation, ExponentOptions { sign, least_digits })
        }
    }
}

// What is told of the digits of an exponent whose sign is not written here.
fn refused_digits(zeros: &[u8]) -> Setting
    ensures { result ≡ refused_digits (marks_alone 48 zeros.now) }
{
    match marks_alone(zeros, b'0') {
        None => Setting::Refused(WordFault::Unknown),
        Some(_) => Setting::Refused(WordFault::Unsupported),
    }
}

// What the sign of an exponent sets after its plus, by what follows it.
fn exponent_sign(notation: ScientificNotation, text: &[u8]) -> Setting
    ensures { result ≡ exponent_sign notation text.now }
{
    match text.split_first() {
        None => Setting::Refused(WordFault::Unknown),
        Some((first, digits)) => {
            if *first == b'!' {
                exponent_digits(notation, ExponentSign::Always, digits)
            } else if *first == b'?' {
                refused_digits(digits)
            } else {
                Setting::Refused(WordFault::Unknown)
            }
        }
    }
}

// What an exponent sets, with a sign or without.
fn exponent_signed(notation: ScientificNotation, text: &[u8]) -> Setting
    ensures { result ≡ exponent_signed notation text.now }
{
    match text.split_first() {
        None => Setting::Refused(WordFault::Unknown),
        Some((first, sign)) => {
            if *first == b'+' {
                exponent_sign(notation, sign)
            } else {
                exponent_digits(notation, ExponentSign::Auto, text)
            }
        }
    }
}

// What an `E` sets, by the marks after it.
pub(crate) fn exponent_setting(marks: &[u8]) -> Setting
    ensures { result ≡ exponent_setting marks.now }
{
    match marks.split_first() {
        None => Setting::Refused(WordFault::Unknown),
        Some((first, exponent)) => {
            if *first == b'E' {
                exponent_signed(ScientificNotation::Engineering, exponent)
            } else {
                exponent_signed(ScientificNotation::Scientific, marks)
            }
        }
    }
}

// How many digits an option asks for: a star or a plus, and an `e` for each.
fn option_digits(option: &[u8]) -> Option<u8>
    ensures { result ≡ option_digits option.now }
{
    let (first, marks) = option.split_first()?;
    if *first == b'*' || *first == b'+' {
        marks_alone(marks, b'e')
    } else {
        None
    }
}

// The sign of exponents that a word of signs names.
fn named_sign(sign: SkeletonSign) -> Result<ExponentSign, WordFault>
    ensures { result ≡ named_sign sign.style sign.display }
{
    match (sign.style, sign.display) {
        (CurrencyStyle::Standard, SignDisplay::Auto) => Ok(ExponentSign::Auto),
        (CurrencyStyle::Standard, SignDisplay::Always) => Ok(ExponentSign::Always),
        (
            CurrencyStyle::Standard,
            SignDisplay::Never | SignDisplay::ExceptZero | SignDisplay::Negative,
        )
        | (CurrencyStyle::Accounting, _) => Err(WordFault::Unsupported),
    }
}

// What a word without digits or a slash sets.
fn stem_setting(word: &[u8]) -> Option<Setting>
    ensures { result ≡ value_beside stems word.now }
{
    value_beside(&STEMS, word)
}

// With the sign that an option names.
fn sign_option(exponents: ExponentOptions, option: &[u8]) -> Result<ExponentOptions, WordFault>
    ensures { result ≡ sign_option exponents (value_beside stems option.now) }
{
    match stem_setting(option) {
        Some(Setting::OfSign(sign)) => match named_sign(sign) {
            Ok(sign) => Ok(ExponentOptions { sign, ..exponents }),
            Err(fault) => Err(fault),
        },
        _ => Err(WordFault::Unknown),
    }
}

// With what an option asks for.
fn with_option(exponents: ExponentOptions, option: &[u8]) -> Result<ExponentOptions, WordFault>
    ensures { result ≡ with_option exponents option.now }
{
    match option_digits(option) {
        Some(digits) => Ok(ExponentOptions {
            least_digits: least_shown(digits),
            ..exponents
        }),
        None => sign_option(exponents, option),
    }
}

// What a notation sets with options behind slashes: the last one of its kind counts.
#[tactic(auto, using(crate::proofs::WordLemmas::cut_length))]
pub(crate) fn exponent_options(notation: ScientificNotation, text: &[u8]) -> Setting
    ensures { result ≡ exponent_options notation text.now }
{
    let mut exponents = ExponentOptions {
        sign: ExponentSign::Auto,
        least_digits: 0,
    };
    let mut rest = text;
    loop {
        let (option, after) = cut_field(rest, b'/');
        match with_option(exponents, option) {
            Ok(next) => exponents = next,
            Err(fault) => return Setting::Refused(fault),
        }
        match after {
            None => return shown_by(notation, exponents),
            Some(next) => rest = next,
        }
    }
}
