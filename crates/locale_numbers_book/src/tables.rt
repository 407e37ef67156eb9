//! The tables that formatters are made of.

use crate::book::Book;
use icu_decimal::provider::{
    DataProvider, DecimalCompactLongV1, DecimalCompactShortV1, DecimalDigitsV1, DecimalSymbolsV1,
    ParentProvider, PluralsCardinalV1,
};
use icu_dimension::provider::{
    CurrencyAccountingV1, CurrencyEssentialsV1, CurrencyFractionsV1, CurrencySymbolsV1,
    PercentEssentialsV1,
};
use locale_numbers_plurals::{PluralsOrdinalV1, PluralsRangesV1};
use locale_numbers_signs::NumberSignsV1;

/// Tables of all thirteen kinds and parents of locales, as those of a [`Book`]: of the sample book the symbols of `en`, the
/// digits of `thai`, and so on. The five kinds of units have nothing where the book has no units, those of ordinal rules
/// and of ranges where it has no more of plurals, and that of signs where it has no signs.
///
/// Under each identifier a type of your own returns what is there in one book, at each call the same, and where
/// nothing does it returns `IdentifierNotFound`: one that forwards to a book and counts what is loaded, say. Its
/// parents and its chains of them are those of that book. That it does so is its proof's to say.
pub trait Tables: DataProvider<DecimalSymbolsV1>
    + DataProvider<DecimalDigitsV1>
    + DataProvider<PluralsCardinalV1>
    + DataProvider<DecimalCompactShortV1>
    + DataProvider<DecimalCompactLongV1>
    + DataProvider<PercentEssentialsV1>
    + DataProvider<CurrencyEssentialsV1>
    + DataProvider<CurrencyAccountingV1>
    + DataProvider<CurrencySymbolsV1>
    + DataProvider<CurrencyFractionsV1>
    + DataProvider<PluralsOrdinalV1>
    + DataProvider<PluralsRangesV1>
    + DataProvider<NumberSignsV1>
    + ParentProvider {
    ghost use Rattle.std.specs.Prelude.{◌≡◌};
    ghost use Rattle.icu_decimal.specs.Identifiers.{Identifier};
    ghost use Rattle.icu_decimal_chains.specs.Chains.{chain};
    ghost use Rattle.icu_locale_core.specs.TagPreferences.{DataLocaleMeaning};
    ghost use Rattle.locale_numbers_book.specs.Book.{BookTables};
    ghost use Rattle.locale_numbers_book.specs.Tables.{symbols_under, digits_under, rules_under, short_under, long_under, percents_under, currencies_under, accounts_under, currency_symbols_under, fractions_under, ordinals_under, ranges_under, signs_under, parent_under, chain_in, steps_in};

    // the book that the tables are those of
    ghost book: { Self → BookTables };

    // each is what is there in that book
    ghost symbols: { (s : Self) (id : Identifier) → Self.DataProvider-1.table s id ≡ symbols_under (book s) id };

    ghost digits: { (s : Self) (id : Identifier) → Self.DataProvider-2.table s id ≡ digits_under (book s) id };

    ghost rules: { (s : Self) (id : Identifier) → Self.DataProvider-3.table s id ≡ rules_under (book s) id };

    ghost short: { (s : Self) (id : Identifier) → Self.DataProvider-4.table s id ≡ short_under (book s) id };

    ghost long: { (s : Self) (id : Identifier) → Self.DataProvider-5.table s id ≡ long_under (book s) id };

    ghost percents: { (s : Self) (id : Identifier) → Self.DataProvider-6.table s id ≡ percents_under (book s) id };

    ghost currencies: { (s : Self) (id : Identifier)
        → Self.DataProvider-7.table s id ≡ currencies_under (book s) id };

    ghost accounts: { (s : Self) (id : Identifier) → Self.DataProvider-8.table s id ≡ accounts_under (book s) id };

    ghost currency_symbols: { (s : Self) (id : Identifier)
        → Self.DataProvider-9.table s id ≡ currency_symbols_under (book s) id };

    ghost fractions: { (s : Self) (id : Identifier) → Self.DataProvider-10.table s id ≡ fractions_under (book s) id };

    ghost ordinals: { (s : Self) (id : Identifier) → Self.DataProvider-11.table s id ≡ ordinals_under (book s) id };

    ghost ranges: { (s : Self) (id : Identifier) → Self.DataProvider-12.table s id ≡ ranges_under (book s) id };

    ghost signs: { (s : Self) (id : Identifier) → Self.DataProvider-13.table s id ≡ signs_under (book s) id };

    // the next locale is that of the book, and so is the chain: the limit cuts none of it
    ghost parents: { (s : Self) (l : DataLocaleMeaning) → Self.next s l ≡ parent_under (book s) l };

    ghost chains: { (s : Self) (l : DataLocaleMeaning) → chain (Self.next s) (Self.limit s) l ≡ chain_in (book s) l };

    // units and signs are asked for under no locale, too, where there are parents at all
    ghost limits: { (s : Self) → Self.limit s ≡ steps_in (book s).parents };
}

impl Tables for Book {
    ghost use Rattle.std.specs.Prelude.{refl};

    ghost book = { λ book. book };

    ghost symbols = { λ s id. refl };

    ghost digits = { λ s id. refl };

    ghost rules = { λ s id. refl };

    ghost short = { λ s id. refl };

    ghost long = { λ s id. refl };

    ghost percents = { λ s id. refl };

    ghost currencies = { λ s id. refl };

    ghost accounts = { λ s id. refl };

    ghost currency_symbols = { λ s id. refl };

    ghost fractions = { λ s id. refl };

    ghost ordinals = { λ s id. refl };

    ghost ranges = { λ s id. refl };

    ghost signs = { λ s id. refl };

    ghost parents = { λ s l. refl };

    ghost chains = { λ s l. refl };

    ghost limits = { λ s. refl };
}
