//! A book as a provider of units: without units it has nothing under any identifier.

ghost use Rattle.std.specs.Prelude.{◌≡◌};
ghost use Rattle.std.specs.Option.{option_copied};
ghost use Rattle.locale_numbers_book.specs.Tables.{fractions_there};

use crate::book::Book;
use crate::providers::found;
use icu_decimal::provider::{DataError, DataIdentifier, DataProvider};
use icu_dimension::FractionInfo;
use icu_dimension::provider::{
    AmountPatterns, CurrencyAccountingV1, CurrencyEssentialsV1, CurrencyFractionsV1,
    CurrencySymbol, CurrencySymbolsV1, PercentEssentialsV1, PercentPattern,
};
use locale_numbers_units::Units;

// The digits of the currency that an identifier of no locale names.
fn fractions_at<'u>(units: &'u Units, id: &DataIdentifier) -> Option<&'u FractionInfo>
    ensures { option_copied result ≡ fractions_there units.now id.now }
{
    if !id.locale.is_unknown() {
        return None;
    }
    units.digits(&id.attributes)
}

/// How percents are written, of the entry with this locale and this system, or with none where the attributes are
/// empty.
///
/// In `SAMPLE_UNITS_BOOK` `tr` has the sign before the number; `de-AT` has no entry. `IdentifierNotFound`: the book has
/// no such entry, or no units. It does not allocate.
impl DataProvider<PercentEssentialsV1> for Book {
    ghost use Rattle.locale_numbers_book.specs.Tables.{percents_under};

    ghost table = { percents_under };

    fn load(&self, id: &DataIdentifier) -> Result<&PercentPattern, DataError> {
        match &self.units {
            Some(units) => found(units.percent(id)),
            None => Err(DataError::IdentifierNotFound),
        }
    }
}

/// How amounts are written, of the entry with this locale and this system or this code, or with neither where the
/// attributes are empty.
///
/// In `SAMPLE_UNITS_BOOK` `de-CH` has the unit before the number; with `EUR` it has no entry. `IdentifierNotFound`: the
/// book has no such entry, or no units. It does not allocate.
impl DataProvider<CurrencyEssentialsV1> for Book {
    ghost use Rattle.locale_numbers_book.specs.Tables.{currencies_under};

    ghost table = { currencies_under };

    fn load(&self, id: &DataIdentifier) -> Result<&AmountPatterns, DataError> {
        match &self.units {
            Some(units) => found(units.currency(id)),
            None => Err(DataError::IdentifierNotFound),
        }
    }
}

/// How amounts are written in accounting, of the entry with this locale and this system, or with none where the
/// attributes are empty.
///
/// In `SAMPLE_UNITS_BOOK` `en` has parentheses for a negative amount; `de` has no entry. `IdentifierNotFound`: the book
/// has no such entry, or no units. It does not allocate.
impl DataProvider<CurrencyAccountingV1> for Book {
    ghost use Rattle.locale_numbers_book.specs.Tables.{accounts_under};

    ghost table = { accounts_under };

    fn load(&self, id: &DataIdentifier) -> Result<&AmountPatterns, DataError> {
        match &self.units {
            Some(units) => found(units.account(id)),
            None => Err(DataError::IdentifierNotFound),
        }
    }
}

/// The symbol of a currency, of the entry with this locale and this code.
///
/// In `SAMPLE_UNITS_BOOK` `en` has `$` for `USD`, and no entry for `CHF`. `IdentifierNotFound`: the book has no such
/// entry, or no units. It does not allocate.
impl DataProvider<CurrencySymbolsV1> for Book {
    ghost use Rattle.locale_numbers_book.specs.Tables.{currency_symbols_under};

    ghost table = { currency_symbols_under };

    fn load(&self, id: &DataIdentifier) -> Result<&CurrencySymbol, DataError> {
        match &self.units {
            Some(units) => found(units.symbol(id)),
            None => Err(DataError::IdentifierNotFound),
        }
    }
}

/// The digits of a currency, of the entry with this code.
///
/// In `SAMPLE_UNITS_BOOK` `und` with `JPY` has none; `USD` has no entry, nor has `JPY` under a locale other than `und`.
/// `IdentifierNotFound`: the book has no such entry, or no units. It does not allocate.
impl DataProvider<CurrencyFractionsV1> for Book {
    ghost use Rattle.locale_numbers_book.specs.Tables.{fractions_under};

    ghost table = { fractions_under };

    fn load(&self, id: &DataIdentifier) -> Result<&FractionInfo, DataError> {
        match &self.units {
            Some(units) => found(fractions_at(units, id)),
            None => Err(DataError::IdentifierNotFound),
        }
    }
}
