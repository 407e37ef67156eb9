//! A formatter of decimals.

ghost use Rattle.std.specs.Prelude.{◌≡◌, IfOk, string_bytes};
ghost use Rattle.std.specs.Result.{result_map_both};
ghost use Rattle.icu_decimal_chains.specs.Chains.{chain};
ghost use Rattle.icu_decimal_plain.specs.BorrowedTables.{borrowed_tables};
ghost use Rattle.icu_decimal_plain.specs.PlainText.{decimal_text, formatted};
ghost use Rattle.icu_decimal_symbols.specs.Options.{strategy_in};
ghost use Rattle.icu_decimal.specs.FoundTables.{found_tables};
ghost use Rattle.icu_decimal.specs.HeldTables.{tables_of};

use crate::preferences::DecimalFormatterPreferences;
use crate::provider::{
    DataProvider, DecimalDigitsV1, DecimalSymbolsV1, ParentProvider, load_digits, load_symbols,
};
use fixed_decimal::{Decimal, UnsignedDecimal};
use icu_decimal_plain::{DecimalTables, FormattedDecimal, FormattedUnsignedDecimal};
use icu_decimal_symbols::options::{DecimalFormatterOptions, strategy_of};
use icu_decimal_symbols::{DataError, DecimalSymbols};
use std::alloc::{AllocError, Global};
use writeable::Writeable;

/// A formatter of decimals: the symbols and the digits of a locale, which it borrows, and when separators are written.
///
/// That of `en` writes -1234.5 as `-1,234.5`. After ICU4X's `DecimalFormatter`.
#[derive(Clone, Copy, Debug)]
pub struct DecimalFormatter<'b> {
    tables: DecimalTables<'b>,
}

impl<'b> DecimalFormatter<'b> {
    /// The formatter of these preferences and options, with tables of the provider: the symbols that the preferences
    /// ask for, then the digits.
    ///
    /// With the sample book, preferences of `en-u-nu-thai` and default options it writes 1000007 as `๑,๐๐๐,๐๐๗`. Errors
    /// as `load_symbols` and `load_digits`. It does not allocate.
    pub fn try_new_unstable<P>(
        provider: &'b P,
        preferences: DecimalFormatterPreferences,
        options: DecimalFormatterOptions,
    ) -> Result<Self, DataError>
    where
        P: DataProvider<DecimalSymbolsV1> + DataProvider<DecimalDigitsV1> + ParentProvider,
        ensures { result_map_both tables_of (λ error. error) result ≡ found_tables
            (chain (P.next provider.now) (P.limit provider.now))
            (λ id. ⟦<P as DataProvider<DecimalSymbolsV1>>⟧.table provider.now id)
            (λ id. ⟦<P as DataProvider<DecimalDigitsV1>>⟧.table provider.now id)
            preferences options.grouping_strategy }
    {
        let symbols = load_symbols(provider, &preferences)?;
        let digits = load_digits(provider, &preferences, symbols)?;
        Ok(DecimalFormatter::from_tables(symbols, digits, options))
    }

    /// The formatter of tables that the caller has: symbols, and ten digits from zero up.
    ///
    /// With the symbols of `en`, the digits of `thai` and default options it writes 1000007 as `๑,๐๐๐,๐๐๗`. The
    /// numbering system that the symbols name is not looked at. It does not allocate.
    pub fn from_tables(
        symbols: &'b DecimalSymbols,
        digits: &'b [char; 10],
        options: DecimalFormatterOptions,
    ) -> Self
        ensures { tables_of result
            ≡ record { symbols = symbols.now; digits = digits.now; strategy = strategy_in options.grouping_strategy } }
    {
        DecimalFormatter {
            tables: DecimalTables::new(symbols, digits, strategy_of(options)),
        }
    }

    /// What it writes with, as one value: of the formatter of `en` what writes -1234.5 as `-1,234.5`. It does not
    /// allocate.
    pub fn tables(&self) -> &DecimalTables<'b>
        ensures { borrowed_tables result.now ≡ tables_of self.now }
    {
        &self.tables
    }

    /// The symbols that it writes with: in English `-`, `+`, `.`, `,` and the sizes 3, 3, 1. It does not allocate.
    pub fn symbols(&self) -> &'b DecimalSymbols
        ensures { result.now ≡ (tables_of self.now).symbols }
    {
        self.tables.symbols()
    }

    /// The ten digits that it writes with, from zero up: of `thai` `๐` to `๙`. It does not allocate.
    pub fn digits(&self) -> &'b [char; 10]
        ensures { result.now ≡ (tables_of self.now).digits }
    {
        self.tables.digits()
    }

    /// The number without a sign as this formatter writes it: 1234.5 as `1,234.5` in English. It does not allocate.
    ///
    /// Source: UTS 35, part 3 (numbers), number symbols and patterns.
    pub fn format_unsigned<'l>(&'l self, value: &'l UnsignedDecimal) -> FormattedUnsignedDecimal<'l>
        ensures { result ≡ record { number = value.now; tables = tables_of self.now } }
    {
        self.tables.format_unsigned(value)
    }

    /// The decimal as this formatter writes it: -1234.5 as `-1,234.5` in English. It does not allocate.
    ///
    /// Source: UTS 35, part 3 (numbers), number symbols and patterns.
    pub fn format<'l>(&'l self, value: &'l Decimal) -> FormattedDecimal<'l>
        ensures { result ≡ formatted (tables_of self.now) value.now }
    {
        self.tables.format(value)
    }

    /// The text of the decimal: -1234.5 gives `-1,234.5` in English.
    ///
    /// It allocates. `AllocError`: out of memory.
    #[tactic(auto, using(icu_decimal_plain::proofs::TextLemmas::decimal_is_text))]
    pub fn format_to_string(&self, alloc: Global, value: &Decimal) -> Result<String, AllocError>
        ensures { IfOk result (λ text. string_bytes text ≡ decimal_text (tables_of self.now) value.now) }
    {
        self.format(value).write_to_string(alloc)
    }
}

/// The formatter that writes with these tables: of those of English with `Never` one that writes -1234.5 as `-1234.5`.
/// It does not allocate.
impl<'b> From<DecimalTables<'b>> for DecimalFormatter<'b> {
    ghost from_gives = { λ tables formatter. tables_of formatter ≡ borrowed_tables tables };

    fn from(tables: DecimalTables<'b>) -> Self {
        DecimalFormatter { tables }
    }
}

impl<'b> AsRef<DecimalFormatter<'b>> for DecimalFormatter<'b> {
    /// The formatter itself: the one of `en` gives the one of `en`. It does not allocate.
    fn as_ref(&self) -> &DecimalFormatter<'b>
        ensures { result.now ≡ self.now }
    {
        self
    }
}
