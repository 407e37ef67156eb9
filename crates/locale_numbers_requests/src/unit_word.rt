//! The unit that a word of a form names.

ghost use Rattle.std.specs.Prelude.{◌≡◌};
ghost use Rattle.locale_numbers_requests.specs.UnitWord.{amount_named, sign_of_percents, unit_named};

use icu_dimension_fractions::{CurrencyCode, CurrencyStyle, CurrencyWidth, PercentSign};
use locale_numbers_formats::{CurrencyUnit, NumberUnit, value_beside};

// The words of signs of percents.
const SIGNS: [(&[u8], PercentSign); 2] = [
    (b"percent", PercentSign::Percent),
    (b"permille", PercentSign::Permille),
];

// The sign of percents that a word names.
fn sign_of_percents(word: &[u8]) -> Option<PercentSign>
    ensures { result ≡ sign_of_percents word.now }
{
    value_beside(&SIGNS, word)
}

// How an amount is written, as its word says before the code.
#[derive(Clone, Copy)]
struct AmountWord {
    style: CurrencyStyle,
    width: CurrencyWidth,
}

// The fronts of words before the code of a currency.
const AMOUNTS: [(&[u8], AmountWord); 3] = [
    (
        b"currency-",
        AmountWord {
            style: CurrencyStyle::Standard,
            width: CurrencyWidth::Short,
        },
    ),
    (
        b"accounting-",
        AmountWord {
            style: CurrencyStyle::Accounting,
            width: CurrencyWidth::Short,
        },
    ),
    (
        b"code-",
        AmountWord {
            style: CurrencyStyle::Standard,
            width: CurrencyWidth::IsoCode,
        },
    ),
];

// The currency that a word with its code at the end names.
fn amount_named(word: &[u8]) -> Option<NumberUnit>
    ensures { result ≡ amount_named word.now }
{
    let (front, last) = word.split_at(word.len().saturating_sub(3));
    let amount = value_beside(&AMOUNTS, front)?;
    match CurrencyCode::try_from_utf8(last) {
        Ok(code) => Some(NumberUnit::Currency(CurrencyUnit {
            code,
            style: amount.style,
            width: amount.width,
        })),
        Err(_) => None,
    }
}

// The unit that a word names.
pub(crate) fn unit_named(word: &[u8]) -> Option<NumberUnit>
    ensures { result ≡ unit_named word.now }
{
    match sign_of_percents(word) {
        Some(sign) => Some(NumberUnit::Percent(sign)),
        None => amount_named(word),
    }
}
