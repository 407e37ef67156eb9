//! Tables of numbers alone, as those of a book that has no units, and of plurals no more than cardinal rules.

use icu_decimal::plurals::PluralRules;
use icu_decimal::provider::{
    CompactPatterns, DataError, DataIdentifier, DataProvider, DecimalCompactLongV1,
    DecimalCompactShortV1, DecimalDigitsV1, DecimalSymbols, DecimalSymbolsV1, ParentProvider,
    PluralsCardinalV1,
};
use icu_dimension::FractionInfo;
use icu_dimension::provider::{
    AmountPatterns, CurrencyAccountingV1, CurrencyEssentialsV1, CurrencyFractionsV1,
    CurrencySymbol, CurrencySymbolsV1, PercentEssentialsV1, PercentPattern,
};
use icu_locale_core::DataLocale;
use locale_numbers_book::{Book, Tables};
use locale_numbers_plurals::{PluralRanges, PluralsOrdinalV1, PluralsRangesV1};
use locale_numbers_signs::{NumberSigns, NumberSignsV1};

/// Tables of the six kinds that numbers without a unit are written with, the signs of exponents among them, and parents of
/// locales: those of [`Tables`] without units. [`WithoutUnits`] makes `Tables` of them.
///
/// Under each identifier a type of your own returns what is there in one book, at each call the same, and where nothing
/// is it returns `IdentifierNotFound`. Its parents and its chains of them are those of that book.
pub trait NumberTables: DataProvider<DecimalSymbolsV1>
    + DataProvider<DecimalDigitsV1>
    + DataProvider<PluralsCardinalV1>
    + DataProvider<DecimalCompactShortV1>
    + DataProvider<DecimalCompactLongV1>
    + DataProvider<NumberSignsV1>
    + ParentProvider {
    ghost use Rattle.std.specs.Prelude.{◌≡◌};
    ghost use Rattle.icu_decimal.specs.Identifiers.{Identifier};
    ghost use Rattle.icu_decimal_chains.specs.Chains.{chain};
    ghost use Rattle.icu_locale_core.specs.TagPreferences.{DataLocaleMeaning};
    ghost use Rattle.locale_numbers_book.specs.Book.{BookTables};
    ghost use Rattle.locale_numbers_book.specs.Tables.{symbols_under, digits_under, rules_under, short_under, long_under, signs_under, parent_under, chain_in, steps_in};

    // the book that the tables are those of
    ghost book: { Self → BookTables };

    // each is what is there in that book
    ghost symbols: { (s : Self) (id : Identifier) → Self.DataProvider-1.table s id ≡ symbols_under (book s) id };

    ghost digits: { (s : Self) (id : Identifier) → Self.DataProvider-2.table s id ≡ digits_under (book s) id };

    ghost rules: { (s : Self) (id : Identifier) → Self.DataProvider-3.table s id ≡ rules_under (book s) id };

    ghost short: { (s : Self) (id : Identifier) → Self.DataProvider-4.table s id ≡ short_under (book s) id };

    ghost long: { (s : Self) (id : Identifier) → Self.DataProvider-5.table s id ≡ long_under (book s) id };

    ghost signs: { (s : Self) (id : Identifier) → Self.DataProvider-6.table s id ≡ signs_under (book s) id };

    // the next locale is that of the book, and so are the chain and its limit
    ghost parents: { (s : Self) (l : DataLocaleMeaning) → Self.next s l ≡ parent_under (book s) l };

    ghost chains: { (s : Self) (l : DataLocaleMeaning) → chain (Self.next s) (Self.limit s) l ≡ chain_in (book s) l };

    ghost limits: { (s : Self) → Self.limit s ≡ steps_in (book s).parents };
}

impl NumberTables for Book {
    ghost use Rattle.std.specs.Prelude.{refl};

    ghost book = { λ book. book };

    ghost symbols = { λ s id. refl };

    ghost digits = { λ s id. refl };

    ghost rules = { λ s id. refl };

    ghost short = { λ s id. refl };

    ghost long = { λ s id. refl };

    ghost signs = { λ s id. refl };

    ghost parents = { λ s l. refl };

    ghost chains = { λ s l. refl };

    ghost limits = { λ s. refl };
}

/// Tables of numbers that have no units, and no ordinal rules and ranges: of the sample book with units `1,234.5` for
/// `plain` with `en`, and for `currency-EUR` and `ordinal` the refusal `table`.
#[derive(Drop)]
pub struct WithoutUnits<'t, T: NumberTables> {
    /// The tables of numbers.
    pub tables: &'t T,
}

impl<'t, T: NumberTables> DataProvider<DecimalSymbolsV1> for WithoutUnits<'t, T> {
    ghost table = { λ s id. T.DataProvider-1.table s.tables.now id };

    fn load(&self, id: &DataIdentifier) -> Result<&DecimalSymbols, DataError> {
        DataProvider::<DecimalSymbolsV1>::load(self.tables, id)
    }
}

impl<'t, T: NumberTables> DataProvider<DecimalDigitsV1> for WithoutUnits<'t, T> {
    ghost table = { λ s id. T.DataProvider-2.table s.tables.now id };

    fn load(&self, id: &DataIdentifier) -> Result<&[char; 10], DataError> {
        DataProvider::<DecimalDigitsV1>::load(self.tables, id)
    }
}

impl<'t, T: NumberTables> DataProvider<PluralsCardinalV1> for WithoutUnits<'t, T> {
    ghost table = { λ s id. T.DataProvider-3.table s.tables.now id };

    fn load(&self, id: &DataIdentifier) -> Result<&PluralRules, DataError> {
        DataProvider::<PluralsCardinalV1>::load(self.tables, id)
    }
}

impl<'t, T: NumberTables> DataProvider<DecimalCompactShortV1> for WithoutUnits<'t, T> {
    ghost table = { λ s id. T.DataProvider-4.table s.tables.now id };

    fn load(&self, id: &DataIdentifier) -> Result<&CompactPatterns, DataError> {
        DataProvider::<DecimalCompactShortV1>::load(self.tables, id)
    }
}

impl<'t, T: NumberTables> DataProvider<DecimalCompactLongV1> for WithoutUnits<'t, T> {
    ghost table = { λ s id. T.DataProvider-5.table s.tables.now id };

    fn load(&self, id: &DataIdentifier) -> Result<&CompactPatterns, DataError> {
        DataProvider::<DecimalCompactLongV1>::load(self.tables, id)
    }
}

impl<'t, T: NumberTables> DataProvider<PercentEssentialsV1> for WithoutUnits<'t, T> {
    ghost use Rattle.std.specs.Prelude.{Err};
    ghost use Rattle.icu_decimal.specs.declared.error.DataError.TheVariants.{IdentifierNotFound};

    ghost table = { λ s id. Err IdentifierNotFound };

    fn load(&self, _id: &DataIdentifier) -> Result<&PercentPattern, DataError> {
        Err(DataError::IdentifierNotFound)
    }
}

impl<'t, T: NumberTables> DataProvider<CurrencyEssentialsV1> for WithoutUnits<'t, T> {
    ghost use Rattle.std.specs.Prelude.{Err};
    ghost use Rattle.icu_decimal.specs.declared.error.DataError.TheVariants.{IdentifierNotFound};

    ghost table = { λ s id. Err IdentifierNotFound };

    fn load(&self, _id: &DataIdentifier) -> Result<&AmountPatterns, DataError> {
        Err(DataError::IdentifierNotFound)
    }
}

impl<'t, T: NumberTables> DataProvider<CurrencyAccountingV1> for WithoutUnits<'t, T> {
    ghost use Rattle.std.specs.Prelude.{Err};
    ghost use Rattle.icu_decimal.specs.declared.error.DataError.TheVariants.{IdentifierNotFound};

    ghost table = { λ s id. Err IdentifierNotFound };

    fn load(&self, _id: &DataIdentifier) -> Result<&AmountPatterns, DataError> {
        Err(DataError::IdentifierNotFound)
    }
}

impl<'t, T: NumberTables> DataProvider<CurrencySymbolsV1> for WithoutUnits<'t, T> {
    ghost use Rattle.std.specs.Prelude.{Err};
    ghost use Rattle.icu_decimal.specs.declared.error.DataError.TheVariants.{IdentifierNotFound};

    ghost table = { λ s id. Err IdentifierNotFound };

    fn load(&self, _id: &DataIdentifier) -> Result<&CurrencySymbol, DataError> {
        Err(DataError::IdentifierNotFound)
    }
}

impl<'t, T: NumberTables> DataProvider<CurrencyFractionsV1> for WithoutUnits<'t, T> {
    ghost use Rattle.std.specs.Prelude.{Err};
    ghost use Rattle.icu_decimal.specs.declared.error.DataError.TheVariants.{IdentifierNotFound};

    ghost table = { λ s id. Err IdentifierNotFound };

    fn load(&self, _id: &DataIdentifier) -> Result<&FractionInfo, DataError> {
        Err(DataError::IdentifierNotFound)
    }
}

impl<'t, T: NumberTables> DataProvider<PluralsOrdinalV1> for WithoutUnits<'t, T> {
    ghost use Rattle.std.specs.Prelude.{Err};
    ghost use Rattle.icu_decimal.specs.declared.error.DataError.TheVariants.{IdentifierNotFound};

    ghost table = { λ s id. Err IdentifierNotFound };

    fn load(&self, _id: &DataIdentifier) -> Result<&PluralRules, DataError> {
        Err(DataError::IdentifierNotFound)
    }
}

impl<'t, T: NumberTables> DataProvider<PluralsRangesV1> for WithoutUnits<'t, T> {
    ghost use Rattle.std.specs.Prelude.{Err};
    ghost use Rattle.icu_decimal.specs.declared.error.DataError.TheVariants.{IdentifierNotFound};

    ghost table = { λ s id. Err IdentifierNotFound };

    fn load(&self, _id: &DataIdentifier) -> Result<&PluralRanges, DataError> {
        Err(DataError::IdentifierNotFound)
    }
}

impl<'t, T: NumberTables> DataProvider<NumberSignsV1> for WithoutUnits<'t, T> {
    ghost table = { λ s id. T.DataProvider-6.table s.tables.now id };

    fn load(&self, id: &DataIdentifier) -> Result<&NumberSigns, DataError> {
        DataProvider::<NumberSignsV1>::load(self.tables, id)
    }
}

impl<'t, T: NumberTables> ParentProvider for WithoutUnits<'t, T> {
    ghost next = { λ s locale. T.ParentProvider.next s.tables.now locale };

    ghost limit = { λ s. T.ParentProvider.limit s.tables.now };

    fn parent(&self, locale: &DataLocale) -> Option<DataLocale> {
        self.tables.parent(locale)
    }

    fn chain_limit(&self) -> u128 {
        self.tables.chain_limit()
    }
}

/// They are those of the book without its units, and without its ordinal rules and ranges.
impl<'t, T: NumberTables> Tables for WithoutUnits<'t, T> {
    ghost use Rattle.std.specs.Prelude.{refl};
    ghost use Rattle.locale_numbers.specs.WithoutUnits.{without_units};

    ghost book = { λ s. without_units (T.book s.tables.now) };

    ghost symbols = { λ s id. T.symbols s.tables.now id };

    ghost digits = { λ s id. T.digits s.tables.now id };

    ghost rules = { λ s id. T.rules s.tables.now id };

    ghost short = { λ s id. T.short s.tables.now id };

    ghost long = { λ s id. T.long s.tables.now id };

    ghost percents = { λ s id. refl };

    ghost currencies = { λ s id. refl };

    ghost accounts = { λ s id. refl };

    ghost currency_symbols = { λ s id. refl };

    ghost fractions = { λ s id. refl };

    ghost ordinals = { λ s id. refl };

    ghost ranges = { λ s id. refl };

    ghost signs = { λ s id. T.signs s.tables.now id };

    ghost parents = { λ s l. T.parents s.tables.now l };

    ghost chains = { λ s l. T.chains s.tables.now l };

    ghost limits = { λ s. T.limits s.tables.now };
}
