//! Tables that count how often they are asked for digits and for patterns.
use icu_decimal::plurals::PluralRules;
use icu_decimal::provider::{
    CompactPatterns, DataError, DataIdentifier, DataProvider, DecimalCompactLongV1,
    DecimalCompactShortV1, DecimalDigitsV1, DecimalSymbols, DecimalSymbolsV1, ParentProvider,
    PluralsCardinalV1,
};
use icu_dimension::FractionInfo;
use icu_dimension::provider::{
    AmountPatterns, CurrencyAccountingV1, CurrencyEssentialsV1, CurrencyFractionsV1,
    CurrencySymbol, CurrencySymbolsV1, PercentEssentialsV1, PercentPattern,
};
use icu_locale_core::DataLocale;
use locale_numbers::{Book, Tables};
use locale_numbers_plurals::{PluralRanges, PluralsOrdinalV1, PluralsRangesV1};
use locale_numbers_signs::{NumberSigns, NumberSignsV1};
use std::cell::Cell;

/// The tables of a book, and counts of the loads of digits and of patterns.
#[derive(Clone, Copy)]
pub struct Counting<'b> {
    /// The book.
    pub book: &'b Book,
    /// How often digits were asked for, found or not.
    pub digits_asked: &'b Cell<u64>,
    /// How often patterns of either length were asked for, found or not.
    pub patterns_asked: &'b Cell<u64>,
}

// One more of a count.
fn count(asked: &Cell<u64>) {
    asked.set(asked.get().saturating_add(1));
}

impl<'b> DataProvider<DecimalDigitsV1> for Counting<'b> {
    ghost use Rattle.locale_numbers.specs.Tables.{digits_under};

    ghost table = { λ s id. digits_under s.book.now id };

    fn load(&self, id: &DataIdentifier) -> Result<&[char; 10], DataError> {
        count(self.digits_asked);
        DataProvider::<DecimalDigitsV1>::load(self.book, id)
    }
}

impl<'b> DataProvider<DecimalSymbolsV1> for Counting<'b> {
    ghost use Rattle.locale_numbers.specs.Tables.{symbols_under};

    ghost table = { λ s id. symbols_under s.book.now id };

    fn load(&self, id: &DataIdentifier) -> Result<&DecimalSymbols, DataError> {
        DataProvider::<DecimalSymbolsV1>::load(self.book, id)
    }
}

impl<'b> DataProvider<PluralsCardinalV1> for Counting<'b> {
    ghost use Rattle.locale_numbers.specs.Tables.{rules_under};

    ghost table = { λ s id. rules_under s.book.now id };

    fn load(&self, id: &DataIdentifier) -> Result<&PluralRules, DataError> {
        DataProvider::<PluralsCardinalV1>::load(self.book, id)
    }
}

impl<'b> DataProvider<DecimalCompactShortV1> for Counting<'b> {
    ghost use Rattle.locale_numbers.specs.Tables.{short_under};

    ghost table = { λ s id. short_under s.book.now id };

    fn load(&self, id: &DataIdentifier) -> Result<&CompactPatterns, DataError> {
        count(self.patterns_asked);
        DataProvider::<DecimalCompactShortV1>::load(self.book, id)
    }
}

impl<'b> DataProvider<DecimalCompactLongV1> for Counting<'b> {
    ghost use Rattle.locale_numbers.specs.Tables.{long_under};

    ghost table = { λ s id. long_under s.book.now id };

    fn load(&self, id: &DataIdentifier) -> Result<&CompactPatterns, DataError> {
        count(self.patterns_asked);
        DataProvider::<DecimalCompactLongV1>::load(self.book, id)
    }
}

impl<'b> DataProvider<PercentEssentialsV1> for Counting<'b> {
    ghost use Rattle.locale_numbers.specs.Tables.{percents_under};

    ghost table = { λ s id. percents_under s.book.now id };

    fn load(&self, id: &DataIdentifier) -> Result<&PercentPattern, DataError> {
        DataProvider::<PercentEssentialsV1>::load(self.book, id)
    }
}

impl<'b> DataProvider<CurrencyEssentialsV1> for Counting<'b> {
    ghost use Rattle.locale_numbers.specs.Tables.{currencies_under};

    ghost table = { λ s id. currencies_under s.book.now id };

    fn load(&self, id: &DataIdentifier) -> Result<&AmountPatterns, DataError> {
        DataProvider::<CurrencyEssentialsV1>::load(self.book, id)
    }
}

impl<'b> DataProvider<CurrencyAccountingV1> for Counting<'b> {
    ghost use Rattle.locale_numbers.specs.Tables.{accounts_under};

    ghost table = { λ s id. accounts_under s.book.now id };

    fn load(&self, id: &DataIdentifier) -> Result<&AmountPatterns, DataError> {
        DataProvider::<CurrencyAccountingV1>::load(self.book, id)
    }
}

impl<'b> DataProvider<CurrencySymbolsV1> for Counting<'b> {
    ghost use Rattle.locale_numbers.specs.Tables.{currency_symbols_under};

    ghost table = { λ s id. currency_symbols_under s.book.now id };

    fn load(&self, id: &DataIdentifier) -> Result<&CurrencySymbol, DataError> {
        DataProvider::<CurrencySymbolsV1>::load(self.book, id)
    }
}

impl<'b> DataProvider<CurrencyFractionsV1> for Counting<'b> {
    ghost use Rattle.locale_numbers.specs.Tables.{fractions_under};

    ghost table = { λ s id. fractions_under s.book.now id };

    fn load(&self, id: &DataIdentifier) -> Result<&FractionInfo, DataError> {
        DataProvider::<CurrencyFractionsV1>::load(self.book, id)
    }
}

impl<'b> DataProvider<PluralsOrdinalV1> for Counting<'b> {
    ghost use Rattle.locale_numbers.specs.Tables.{ordinals_under};

    ghost table = { λ s id. ordinals_under s.book.now id };

    fn load(&self, id: &DataIdentifier) -> Result<&PluralRules, DataError> {
        DataProvider::<PluralsOrdinalV1>::load(self.book, id)
    }
}

impl<'b> DataProvider<PluralsRangesV1> for Counting<'b> {
    ghost use Rattle.locale_numbers.specs.Tables.{ranges_under};

    ghost table = { λ s id. ranges_under s.book.now id };

    fn load(&self, id: &DataIdentifier) -> Result<&PluralRanges, DataError> {
        DataProvider::<PluralsRangesV1>::load(self.book, id)
    }
}

impl<'b> DataProvider<NumberSignsV1> for Counting<'b> {
    ghost use Rattle.locale_numbers.specs.Tables.{signs_under};

    ghost table = { λ s id. signs_under s.book.now id };

    fn load(&self, id: &DataIdentifier) -> Result<&NumberSigns, DataError> {
        DataProvider::<NumberSignsV1>::load(self.book, id)
    }
}

impl<'b> ParentProvider for Counting<'b> {
    ghost use Rattle.locale_numbers.specs.Tables.{parent_under, steps_in};

    ghost next = { λ s locale. parent_under s.book.now locale };

    ghost limit = { λ s. steps_in s.book.now.parents };

    fn parent(&self, locale: &DataLocale) -> Option<DataLocale> {
        self.book.parent(locale)
    }

    fn chain_limit(&self) -> u128 {
        self.book.chain_limit()
    }
}

impl<'b> Tables for Counting<'b> {
    ghost use Rattle.std.specs.Prelude.{refl};

    ghost book = { λ s. s.book.now };

    ghost symbols = { λ s id. refl };

    ghost digits = { λ s id. refl };

    ghost rules = { λ s id. refl };

    ghost short = { λ s id. refl };

    ghost long = { λ s id. refl };

    ghost percents = { λ s id. refl };

    ghost currencies = { λ s id. refl };

    ghost accounts = { λ s id. refl };

    ghost currency_symbols = { λ s id. refl };

    ghost fractions = { λ s id. refl };

    ghost ordinals = { λ s id. refl };

    ghost ranges = { λ s id. refl };

    ghost signs = { λ s id. refl };

    ghost parents = { λ s l. refl };

    ghost chains = { λ s l. refl };

    ghost limits = { λ s. refl };
}
