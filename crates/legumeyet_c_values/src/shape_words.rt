//! How numbers are written, by words: `legumeyet_format`.

ghost use Rattle.std.specs.Prelude.{◌≡◌};
ghost use Rattle.legumeyet_c_values.specs.Words.{currency_by, currency_widths, groupings, named, notation_of, numbers_of, plurals, scientific_in, shape_of, styles, unit_alone, unit_of, widths};

use crate::call_error::CallError;
use crate::option_words::usual_options;
use crate::words::{is_known, word_at};
use icu_decimal_scientific::{ExponentOptions, ExponentSign, ScientificNotation};
use icu_decimal_symbols::options::GroupingStrategy;
use icu_dimension_fractions::{CurrencyCode, CurrencyStyle, CurrencyWidth, PercentSign};
use icu_plurals::PluralRuleType;
use locale_numbers_formats::{
    CompactWidth, CurrencyUnit, Notation, NumberShape, NumberUnit, ScientificStyle,
};

// The patterns of a word.
fn width_by(word: i32) -> Option<CompactWidth>
    ensures { result ≡ named widths word }
{
    match word {
        0 => Some(CompactWidth::Short),
        1 => Some(CompactWidth::Long),
        _ => None,
    }
}

// The strategy of a word.
fn grouping_by(word: i32) -> Option<GroupingStrategy>
    ensures { result ≡ named groupings word }
{
    match word {
        0 => Some(GroupingStrategy::Auto),
        1 => Some(GroupingStrategy::Never),
        2 => Some(GroupingStrategy::Always),
        3 => Some(GroupingStrategy::Min2),
        4 => Some(GroupingStrategy::OnAligned),
        _ => None,
    }
}

// The style of a word.
fn style_by(word: i32) -> Option<CurrencyStyle>
    ensures { result ≡ named styles word }
{
    match word {
        0 => Some(CurrencyStyle::Standard),
        1 => Some(CurrencyStyle::Accounting),
        _ => None,
    }
}

// By what a currency is written, by a word.
fn currency_width_by(word: i32) -> Option<CurrencyWidth>
    ensures { result ≡ named currency_widths word }
{
    match word {
        0 => Some(CurrencyWidth::Short),
        1 => Some(CurrencyWidth::IsoCode),
        _ => None,
    }
}

// The rules by whose categories words are written in place of numbers, by a word; of 0 none.
fn plurals_by(word: i32) -> Option<Option<PluralRuleType>>
    ensures { result ≡ named plurals word }
{
    match word {
        0 => Some(None),
        1 => Some(Some(PluralRuleType::Cardinal)),
        2 => Some(Some(PluralRuleType::Ordinal)),
        _ => None,
    }
}

// Scientific numbers with the significand as it is: 1200000 is `1.2E6`.
fn scientific_in(notation: ScientificNotation) -> Notation
    ensures { result ≡ scientific_in notation }
{
    let exponents = ExponentOptions {
        sign: ExponentSign::Auto,
        least_digits: 0,
    };
    let style = ScientificStyle {
        notation,
        exponents,
    };
    Notation::Scientific(style, usual_options())
}

// How the digits are written.
fn notation_by(words: &[i32]) -> Option<Notation>
    ensures { result ≡ notation_of words.now }
{
    let width = width_by(word_at(words, 1))?;
    match word_at(words, 0) {
        0 => Some(Notation::Standard),
        1 => Some(Notation::Compact(width)),
        2 => Some(scientific_in(ScientificNotation::Scientific)),
        3 => Some(scientific_in(ScientificNotation::Engineering)),
        _ => None,
    }
}

// A unit that is no currency. `Code`: it has a text.
fn unit_alone(unit: NumberUnit, text: &[u8]) -> Result<NumberUnit, CallError>
    ensures { result ≡ unit_alone unit text.now }
{
    if text.is_empty() {
        Ok(unit)
    } else {
        Err(CallError::Code)
    }
}

// A currency. `Code`: the text is no code.
fn currency_by(
    style: CurrencyStyle,
    width: CurrencyWidth,
    text: &[u8],
) -> Result<NumberUnit, CallError>
    ensures { result ≡ currency_by style width text.now }
{
    match CurrencyCode::try_from_utf8(text) {
        Ok(code) => Ok(NumberUnit::Currency(CurrencyUnit { code, style, width })),
        Err(_) => Err(CallError::Code),
    }
}

// What is beside the digits, with its text. `UnknownOption`: a word is unknown. `Code`: the text is none of the unit.
fn unit_by(words: &[i32], text: &[u8]) -> Result<NumberUnit, CallError>
    ensures { result ≡ unit_of words.now text.now }
{
    let Some(style) = style_by(word_at(words, 3)) else {
        return Err(CallError::UnknownOption);
    };
    let Some(width) = currency_width_by(word_at(words, 4)) else {
        return Err(CallError::UnknownOption);
    };
    match word_at(words, 2) {
        0 => unit_alone(NumberUnit::None, text),
        1 => unit_alone(NumberUnit::Percent(PercentSign::Percent), text),
        2 => currency_by(style, width, text),
        3 => unit_alone(NumberUnit::Percent(PercentSign::Permille), text),
        _ => Err(CallError::UnknownOption),
    }
}

/// What words ask for: what the tables of numbers are found by, and the rules by whose categories words are written in
/// their place, where there are any. That of `0, 0, 0, 0, 0, 0, 1` is `one` of 1 and `other` of 2 in English.
#[derive(Clone, Copy, Drop)]
pub struct AskedShape {
    /// What the tables are found by.
    pub shape: NumberShape,
    /// The rules; none where numbers are written.
    pub plurals: Option<PluralRuleType>,
}

// What the tables of numbers are found by. `UnknownOption`: a word is unknown. `Code`: the text is none of the unit.
fn numbers_by(words: &[i32], unit: &[u8]) -> Result<NumberShape, CallError>
    ensures { result ≡ numbers_of words.now unit.now }
{
    let Some(notation) = notation_by(words) else {
        return Err(CallError::UnknownOption);
    };
    let Some(grouping) = grouping_by(word_at(words, 5)) else {
        return Err(CallError::UnknownOption);
    };
    match unit_by(words, unit) {
        Ok(unit) => Ok(NumberShape {
            notation,
            unit,
            grouping,
        }),
        Err(error) => Err(error),
    }
}

/// What the words of `legumeyet_format` ask for: of `0, 0, 2` and `EUR` amounts in euros. A word that is not given counts
/// as 0, and one past the seven that are known must be 0.
///
/// `UnknownOption`: a word is unknown. `Code`: the text is not the code of the currency, or it is one where there is no
/// currency.
pub fn shape_by(words: &[i32], unit: &[u8]) -> Result<AskedShape, CallError>
    ensures { result ≡ shape_of words.now unit.now }
{
    if !is_known(7, words) {
        return Err(CallError::UnknownOption);
    }
    let Some(plurals) = plurals_by(word_at(words, 6)) else {
        return Err(CallError::UnknownOption);
    };
    match numbers_by(words, unit) {
        Ok(shape) => Ok(AskedShape { shape, plurals }),
        Err(error) => Err(error),
    }
}
