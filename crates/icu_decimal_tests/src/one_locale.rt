//! A provider that returns the tables of one locale for every identifier, with borrowed symbols.

use icu_decimal::provider::{
    DataError, DataIdentifier, DataProvider, DecimalDigitsV1, DecimalSymbols, DecimalSymbolsV1,
    ParentProvider,
};
use icu_locale_core::DataLocale;

#[derive(Clone, Copy)]
pub struct OneLocale<'t> {
    pub symbols: &'t DecimalSymbols,
    pub digits: [char; 10],
}

impl DataProvider<DecimalSymbolsV1> for OneLocale<'_> {
    ghost use Rattle.std.specs.Prelude.{Ok};

    ghost table = { λ one id. Ok one.symbols.now };

    fn load(&self, id: &DataIdentifier) -> Result<&DecimalSymbols, DataError> {
        Ok(self.symbols)
    }
}

impl DataProvider<DecimalDigitsV1> for OneLocale<'_> {
    ghost use Rattle.std.specs.Prelude.{Ok};

    ghost table = { λ one id. Ok one.digits };

    fn load(&self, id: &DataIdentifier) -> Result<&[char; 10], DataError> {
        Ok(&self.digits)
    }
}

// No locale has a parent.
impl ParentProvider for OneLocale<'_> {
    fn parent(&self, _locale: &DataLocale) -> Option<DataLocale> {
        None
    }

    fn chain_limit(&self) -> u128 {
        0
    }
}
