//! The words of skeletons, and what each sets.

ghost use Rattle.std.specs.Prelude.{◌≡◌};
ghost use Rattle.locale_numbers_formats.specs.StemTable.{fronts};
ghost use Rattle.locale_numbers_formats.specs.Stems.{capital_code, coded, optioned, or_unknown, setting_named, slashed};
ghost use Rattle.locale_numbers_formats.specs.WordTable.{value_beside};

use crate::cutting::first_separator;
use crate::exponents::exponent_options;
use crate::increments::increment_setting;
use crate::marks::{marked, option_setting, padded_setting};
use crate::options::RoundingPriority;
use crate::shape::{CompactWidth, ScientificStyle};
use crate::skeleton_error::WordFault;
use crate::stem_table::{FRONTS, STEMS};
use crate::word_table::value_beside;
use fixed_decimal::{RoundingIncrement, SignDisplay, SignedRoundingMode};
use icu_decimal_scientific::ScientificNotation;
use icu_dimension_fractions::{
    CurrencyCode, CurrencyStyle, CurrencyUsage, CurrencyWidth, PercentSign,
};

/// How a skeleton has digits written.
#[derive(Clone, Copy, Debug, PartialEq, Eq)]
pub enum SkeletonNotation {
    /// All of them: `notation-simple`.
    Standard,
    /// The first ones, with a compact pattern: `compact-short`, `compact-long`.
    Compact(CompactWidth),
    /// Those of a significand, with an exponent behind it: `scientific`, `engineering`.
    Scientific(ScientificStyle),
}

/// What a skeleton writes beside the digits.
#[derive(Clone, Copy, Debug, PartialEq, Eq)]
pub enum SkeletonUnit {
    /// Nothing.
    None,
    /// A sign of percents: `percent`, `permille`.
    Percent(PercentSign),
    /// A currency: `currency/EUR`.
    Currency(CurrencyCode),
}

/// Whether zeros are shown after the point of a whole number.
#[derive(Clone, Copy, Debug, PartialEq, Eq)]
pub enum WholeZeros {
    /// As of another number.
    Shown,
    /// None: `/w`.
    Hidden,
}

/// Which digits a skeleton shows.
#[derive(Clone, Copy, Debug, PartialEq, Eq)]
pub enum Precision {
    /// What it is without a word.
    Usual,
    /// All: `precision-unlimited`.
    Unlimited,
    /// So many after the point at least, and so many more at most: `.00##`, and `precision-integer` of none.
    Fraction(u8, u8),
    /// So many after the point at least: `.00*`.
    AtLeast(u8),
    /// So many after the point at least, so many more at most, and none of a whole number: `.0#/w`.
    Whole(u8, u8),
    /// So many significant digits at least, and so many more at most: `@@#`.
    Significant(u8, u8, WholeZeros),
    /// So many significant digits at least: `@@*`.
    SignificantAtLeast(u8, WholeZeros),
    /// Digits after the point or significant digits, each so many at least and so many more at most, whichever show more, or
    /// less: `.0#/@@r`. Without a significant digit at least those after the point are shown in any case: `.0#/@@*`.
    Either(u8, u8, u8, u8, RoundingPriority, WholeZeros),
    /// Multiples of an increment with so many zeros behind, as a number with so many digits after its point:
    /// `precision-increment/0.50`.
    Increment(RoundingIncrement, u8, u8, WholeZeros),
    /// Those of the currency: `precision-currency-standard`, `precision-currency-cash`.
    Currency(CurrencyUsage),
    /// Those of the currency, and none of a whole number: `precision-currency-standard/w`.
    WholeCurrency(CurrencyUsage),
}

/// Where a skeleton has separators.
#[derive(Clone, Copy, Debug, PartialEq, Eq)]
pub enum SkeletonGrouping {
    /// Where the locale places them: `group-auto`.
    Auto,
    /// Nowhere: `group-off`.
    Off,
    /// As `Auto`, with two digits before the last one at least: `group-min2`.
    Min2,
    /// As `Auto`, with one digit before the last one in every locale: `group-on-aligned`.
    OnAligned,
}

/// Which sign a skeleton writes.
#[derive(Clone, Copy, Debug, PartialEq, Eq)]
pub struct SkeletonSign {
    /// Which one: `sign-always`.
    pub display: SignDisplay,
    /// As in accounting: `sign-accounting`.
    pub style: CurrencyStyle,
}

/// What a word sets.
#[derive(Clone, Copy, Debug, PartialEq, Eq)]
pub enum Setting {
    /// How the digits are written.
    OfNotation(SkeletonNotation),
    /// What is beside them.
    OfUnit(SkeletonUnit),
    /// Which are shown.
    OfPrecision(Precision),
    /// How the number is rounded.
    OfMode(SignedRoundingMode),
    /// Where separators are.
    OfGrouping(SkeletonGrouping),
    /// How many integer digits are shown at least.
    OfWhole(u8),
    /// By what a currency is written.
    OfWidth(CurrencyWidth),
    /// Which sign is written.
    OfSign(SkeletonSign),
    /// Where the point is shown.
    OfPoint,
    /// Nothing: its fault is told.
    Refused(WordFault),
}

// The currency that a code in capitals names.
fn capital_code(code: &[u8]) -> Setting
    ensures { result ≡ capital_code code.now }
{
    match CurrencyCode::try_from_utf8(code) {
        Ok(code) => Setting::OfUnit(SkeletonUnit::Currency(code)),
        Err(_) => Setting::Refused(WordFault::Code),
    }
}

// The currency that a code names, whatever the case of its letters.
fn coded(code: &[u8]) -> Setting
    ensures { result ≡ coded code.now }
{
    if code.len() != 3 {
        return Setting::Refused(WordFault::Code);
    }
    capital_code(&[
        code[0].to_ascii_uppercase(),
        code[1].to_ascii_uppercase(),
        code[2].to_ascii_uppercase(),
    ])
}

// What is told of a word with a part after a slash, by what is before it.
fn front_setting(front: &[u8]) -> Setting
    ensures { result ≡ or_unknown (value_beside fronts front.now) }
{
    match value_beside(&FRONTS, front) {
        Some(setting) => setting,
        None => Setting::Refused(WordFault::Unknown),
    }
}

// What a word sets, by what is before its slash and after it.
fn optioned(front: &[u8], option: &[u8]) -> Setting
    ensures { result ≡ optioned front.now option.now }
{
    if front == b"currency".as_slice() {
        coded(option)
    } else if front == b"integer-width".as_slice() {
        padded_setting(option)
    } else if front == b"precision-integer".as_slice() {
        option_setting(0, 0, option)
    } else if front == b"precision-increment".as_slice() {
        increment_setting(option)
    } else if front == b"scientific".as_slice() {
        exponent_options(ScientificNotation::Scientific, option)
    } else if front == b"engineering".as_slice() {
        exponent_options(ScientificNotation::Engineering, option)
    } else {
        front_setting(front)
    }
}

// What a word with a slash sets.
fn slashed(word: &[u8]) -> Setting
    ensures { result ≡ slashed word.now }
{
    match first_separator(word, b'/') {
        None => Setting::Refused(WordFault::Unknown),
        Some(end) => optioned(&word[..end], &word[end + 1..]),
    }
}

// What a word sets: one of the list, one of digits, or one with a slash.
pub(crate) fn setting_named(word: &[u8]) -> Setting
    ensures { result ≡ setting_named word.now }
{
    match value_beside(&STEMS, word) {
        Some(setting) => setting,
        None => match marked(word) {
            Some(setting) => setting,
            None => slashed(word),
        },
    }
}
