//! Formatters of providers that refuse symbols or digits with an error of their own.

use icu_decimal::DecimalFormatter;
use icu_decimal::options::GroupingStrategy;
use icu_decimal::preferences::DecimalFormatterPreferences;
use icu_decimal::provider::{
    DataError, DataIdentifier, DataProvider, DecimalDigitsV1, DecimalSymbols, DecimalSymbolsV1,
    ParentProvider,
};
use icu_locale_core::DataLocale;
use std::alloc::Global;
use std::test::Fail;

// A provider that refuses symbols with one error and digits with another.
#[derive(Clone, Copy)]
struct WithoutTables {
    symbols_refusal: DataError,
    digits_refusal: DataError,
}

impl DataProvider<DecimalSymbolsV1> for WithoutTables {
    ghost use Rattle.std.specs.Prelude.{Err};

    ghost table = { λ p id. Err p.symbols_refusal };

    fn load(&self, id: &DataIdentifier) -> Result<&DecimalSymbols, DataError> {
        Err(self.symbols_refusal)
    }
}

impl DataProvider<DecimalDigitsV1> for WithoutTables {
    ghost use Rattle.std.specs.Prelude.{Err};

    ghost table = { λ p id. Err p.digits_refusal };

    fn load(&self, id: &DataIdentifier) -> Result<&[char; 10], DataError> {
        Err(self.digits_refusal)
    }
}

// No locale has a parent.
impl ParentProvider for WithoutTables {
    fn parent(&self, _locale: &DataLocale) -> Option<DataLocale> {
        None
    }

    fn chain_limit(&self) -> u128 {
        0
    }
}

// A provider that has symbols, and refuses digits.
#[derive(Clone, Copy)]
struct WithoutDigits<'t> {
    symbols: &'t DecimalSymbols,
    refusal: DataError,
}

impl DataProvider<DecimalSymbolsV1> for WithoutDigits<'_> {
    ghost use Rattle.std.specs.Prelude.{Ok};

    ghost table = { λ p id. Ok p.symbols.now };

    fn load(&self, id: &DataIdentifier) -> Result<&DecimalSymbols, DataError> {
        Ok(self.symbols)
    }
}

impl DataProvider<DecimalDigitsV1> for WithoutDigits<'_> {
    ghost use Rattle.std.specs.Prelude.{Err};

    ghost table = { λ p id. Err p.refusal };

    fn load(&self, id: &DataIdentifier) -> Result<&[char; 10], DataError> {
        Err(self.refusal)
    }
}

// No locale has a parent.
impl ParentProvider for WithoutDigits<'_> {
    fn parent(&self, _locale: &DataLocale) -> Option<DataLocale> {
        None
    }

    fn chain_limit(&self) -> u128 {
        0
    }
}

// The error of a formatter of this provider; `None` where one is made.
fn refusal_by<P>(provider: &P) -> Option<DataError>
where
    P: DataProvider<DecimalSymbolsV1> + DataProvider<DecimalDigitsV1> + ParentProvider,
{
    let preferences = DecimalFormatterPreferences::default();
    let options = GroupingStrategy::Auto.into();
    match DecimalFormatter::try_new_unstable(provider, preferences, options) {
        Ok(_) => None,
        Err(error) => Some(error),
    }
}

// The same, of a provider that has the symbols of English, and refuses digits so.
fn refusal_of_digits(alloc: Global, refusal: DataError) -> Result<Option<DataError>, Fail> {
    let symbols = DecimalSymbols::new_en_for_testing(alloc)?;
    let found = refusal_by(&WithoutDigits {
        symbols: &symbols,
        refusal,
    });
    drop(symbols);
    Ok(found)
}

#[test]
fn errors_of_the_provider(rt: HostRuntime) -> Result<(), Fail> {
    let without_tables = WithoutTables {
        symbols_refusal: DataError::Custom,
        digits_refusal: DataError::Memory,
    };
    assert_eq!(rt; refusal_by(&without_tables), Some(DataError::Custom));
    let of_digits = refusal_of_digits(rt.alloc(), DataError::Memory)?;
    assert_eq!(rt; of_digits, Some(DataError::Memory));
    Ok(())
}
