//! A formatter of amounts of money.

ghost use Rattle.std.specs.Prelude.{◌≡◌, ◌≢◌, ◌⊎◌, false, true, IfErr, IfOk, IsErrOf, IsOk, OnErr, OnOk, string_bytes};
ghost use Rattle.std.specs.Option.{option_copied};
ghost use Rattle.std.specs.Result.{result_map_both};
ghost use Rattle.icu_decimal.specs.BorrowedTables.{borrowed_tables};
ghost use Rattle.icu_dimension_affixes.specs.HeldUnits.{name_of, settings_of};
ghost use Rattle.icu_dimension_affixes.specs.UnitReading.{AreReaderTexts, HasNoDecimal, IsUnitText, is_unit_readable_by, reader_texts};
ghost use Rattle.icu_dimension_affixes.specs.UnitText.{unit_decimal_text, unit_formatted};
ghost use Rattle.icu_dimension_lenient.specs.LenientUnits.{is_leniently_unit_readable_by, lenient_texts};
ghost use Rattle.icu_dimension_fractions.specs.FractionMemory.{MayGrowAmount};
ghost use Rattle.icu_dimension_fractions.specs.FractionRounding.{RoundsAmount, ShowsAmount};
ghost use Rattle.icu_dimension_fractions.specs.Fractions.{fraction_for};
ghost use Rattle.icu_dimension_fractions.specs.declared.increment.FractionIncrement.{FractionIncrement};
ghost use Rattle.icu_dimension.specs.FoundUnits.{found_currency};
ghost use Rattle.icu_dimension.specs.ProvidedUnits.{written_as};
ghost use Rattle.icu_dimension.specs.HeldFormatters.{code_of, currency_settings_of, fractions_of, settings_of_currency};

use crate::options::CurrencyFormatterOptions;
use crate::provider::{
    CurrencyAccountingV1, CurrencyEssentialsV1, CurrencyFractionsV1, CurrencyName, CurrencySymbol,
    CurrencySymbolsV1, load_amounts, load_decimals, load_fractions, load_symbol,
};
use crate::reading::read_once;
use fixed_decimal::{Decimal, SignDisplay};
use icu_decimal::error::ReadError;
use icu_decimal::provider::{
    DataError, DataProvider, DecimalDigitsV1, DecimalSymbolsV1, ParentProvider,
};
use icu_decimal::{DecimalFormatterPreferences, DecimalTables};
use icu_dimension_affixes::{FormattedUnit, Unit, UnitKind, UnitPattern, UnitReader, UnitTables};
use icu_dimension_fractions::{CurrencyCode, CurrencyUsage, FractionInfo};
use icu_dimension_lenient::LenientUnitReader;
use std::alloc::{AllocError, AllocFailed, Global};

/// A formatter of amounts in one currency: the tables of a locale, which it borrows, the currency with its digits, and
/// when separators are written.
///
/// That of `en` and `EUR` writes -1234.50 as `-€1,234.50`. After ICU4X's `CurrencyFormatter`.
#[derive(Clone, Copy, Debug)]
pub struct CurrencyFormatter<'b> {
    decimals: DecimalTables<'b>,
    pattern: &'b UnitPattern,
    symbol: Option<&'b CurrencySymbol>,
    code: CurrencyCode,
    fractions: FractionInfo,
}

impl<'b> CurrencyFormatter<'b> {
    /// The formatter of these preferences, this currency and these options, with tables of the provider: the symbols and
    /// the digits that plain text finds, then the patterns, the symbol and the digits of the currency.
    ///
    /// Preferences of `de-CH` and `CHF` write -5.00 as `CHF-5.00`. A currency without a symbol is written by its code, and
    /// one without digits has two. `IdentifierNotFound`: there are no symbols, no digits of the numbering system or no
    /// patterns; any other error is the provider's own, the first in this order. It does not allocate.
    pub fn try_new_unstable<P>(
        provider: &'b P,
        preferences: DecimalFormatterPreferences,
        code: CurrencyCode,
        options: CurrencyFormatterOptions,
    ) -> Result<Self, DataError>
    where
        P: DataProvider<DecimalSymbolsV1>
            + DataProvider<DecimalDigitsV1>
            + DataProvider<CurrencyEssentialsV1>
            + DataProvider<CurrencyAccountingV1>
            + DataProvider<CurrencySymbolsV1>
            + DataProvider<CurrencyFractionsV1>
            + ParentProvider,
        ensures code { IfOk result (λ formatter. code_of formatter ≡ code) }
        ensures found { result_map_both currency_settings_of (λ error. error) result ≡ found_currency
            (record {
              decimals = record {
                next = P.next provider.now;
                limit = P.limit provider.now;
                symbols = λ id. ⟦<P as DataProvider<DecimalSymbolsV1>>⟧.table provider.now id;
                digits = λ id. ⟦<P as DataProvider<DecimalDigitsV1>>⟧.table provider.now id;
              };
              currencies = λ id. ⟦<P as DataProvider<CurrencyEssentialsV1>>⟧.table provider.now id;
              accounts = λ id. ⟦<P as DataProvider<CurrencyAccountingV1>>⟧.table provider.now id;
              symbols = λ id. ⟦<P as DataProvider<CurrencySymbolsV1>>⟧.table provider.now id;
              fractions = λ id. ⟦<P as DataProvider<CurrencyFractionsV1>>⟧.table provider.now id;
            }) preferences code options }
    {
        let decimals = load_decimals(provider, &preferences, options.grouping_strategy)?;
        let found = load_amounts(provider, &preferences, code, options.style)?;
        let symbol = load_symbol(provider, &preferences, code, options.width)?;
        let fractions = load_fractions(provider, code)?;
        let ends = CurrencyName::new(symbol, &code).ends;
        Ok(CurrencyFormatter {
            decimals: decimals.with_own(&found.symbols),
            pattern: found.patterns.for_ends(ends),
            symbol,
            code,
            fractions,
        })
    }

    /// The formatter of tables that the caller has: what decimals are written with, a pattern, the symbol of the
    /// currency, where it has one, its code and its digits.
    ///
    /// With the tables of English, `¤` before the number and `€` it writes 1234.5 as `€1,234.5`. It does not allocate.
    pub fn from_parts(
        decimals: DecimalTables<'b>,
        pattern: &'b UnitPattern,
        symbol: Option<&'b CurrencySymbol>,
        code: CurrencyCode,
        fractions: FractionInfo,
    ) -> Self
        ensures code { code_of result ≡ code }
        ensures value { currency_settings_of result
            ≡ record {
              unit = record {
                tables = borrowed_tables decimals.entry;
                pattern = pattern.now;
                unit = record { kind = UnitKind.Currency; text = (written_as (option_copied symbol.entry) code).text };
              };
              fractions = fractions;
            } }
    {
        CurrencyFormatter {
            decimals,
            pattern,
            symbol,
            code,
            fractions,
        }
    }

    /// The currency: `EUR`. It does not allocate.
    pub fn code(&self) -> CurrencyCode
        ensures { result ≡ code_of self.now }
    {
        self.code
    }

    /// The digits of the currency: two of `EUR`, and of `CHF` multiples of 5 in cash. It does not allocate.
    pub fn fractions(&self) -> FractionInfo
        ensures { result ≡ fractions_of self.now }
    {
        self.fractions
    }

    /// The pattern that its amounts are written in: of `en` and `EUR` `¤` before the number. It does not allocate.
    pub fn pattern(&self) -> &'b UnitPattern
        ensures { result.now ≡ (settings_of_currency self.now).pattern }
    {
        self.pattern
    }

    /// The symbol of the currency, where it is written by one: of `en` and `EUR` `€`. It does not allocate.
    pub fn symbol(&self) -> Option<&'b CurrencySymbol>
        ensures { (written_as (option_copied result) (code_of self.now)).text
            ≡ (settings_of_currency self.now).unit.text }
    {
        self.symbol
    }

    // The symbol or the code, as a unit.
    fn unit(&self) -> Unit<'_>
        ensures { name_of result ≡ (settings_of_currency self.now).unit }
    {
        Unit {
            kind: UnitKind::Currency,
            text: CurrencyName::new(self.symbol, &self.code).text,
        }
    }

    /// What its decimals are written with: of the formatter of `en` and `EUR` those of English. It does not allocate.
    pub fn decimals(&self) -> &DecimalTables<'b>
        ensures { borrowed_tables result.now ≡ (settings_of_currency self.now).tables }
    {
        &self.decimals
    }

    /// What it writes with, as one value: of `en` and `EUR` what writes -1234.5 as `-€1,234.5`. It does not allocate.
    pub fn tables(&self) -> UnitTables<'_>
        ensures { settings_of result ≡ settings_of_currency self.now }
    {
        UnitTables::new(&self.decimals, self.pattern, self.unit())
    }

    /// The amount as this formatter writes it: -1234.50 as `-€1,234.50` in English. It does not allocate.
    ///
    /// It is written as it is given, with its digits: 5 as `€5`. `rounded` and `shown` give it those of the currency.
    ///
    /// Source: UTS 35, part 3 (numbers), number patterns.
    pub fn format<'l>(&'l self, value: &'l Decimal) -> FormattedUnit<'l>
        ensures { result ≡ unit_formatted (settings_of_currency self.now) value.now }
    {
        self.tables().format(value)
    }

    /// The text of the amount: -1234.50 gives `-€1,234.50` in English.
    ///
    /// It allocates. `AllocError`: out of memory.
    pub fn format_to_string(&self, alloc: Global, value: &Decimal) -> Result<String, AllocError>
        ensures { IfOk result (λ text. string_bytes text ≡ unit_decimal_text (settings_of_currency self.now) value.now) }
    {
        self.tables().format_to_string(alloc, value)
    }

    /// Rounds the amount to the digits of the currency in its place, half to even, with all its digits: of `CHF` in cash
    /// 2.345 becomes `2.35`.
    ///
    /// The sign is kept, of a zero too. It allocates where `Fraction::round` does. `AllocError`: out of memory; the amount
    /// is then as it was.
    pub fn round(&self, amount: &mut Decimal, usage: CurrencyUsage) -> Result<(), AllocError>
        ensures succeeds { (fraction_for (fractions_of self.now) usage).increment ≢ FractionIncrement.MultiplesOf25
            → IsOk result }
        ensures value { OnOk result (RoundsAmount (fraction_for (fractions_of self.now) usage) amount.old amount.new) }
        ensures same { OnErr result (amount.new ≡ amount.old) }
        ensures room { OnErr result (MayGrowAmount (fraction_for (fractions_of self.now) usage) amount.old.absolute) }
    {
        self.fractions.fraction(usage).round(amount)
    }

    /// The amount rounded to the digits of the currency, half to even, with all its digits, as `round` leaves it: of
    /// `CHF` in cash 2.345 is `2.35`.
    ///
    /// It allocates where `round` does. `AllocFailed`: out of memory; it holds the amount.
    pub fn rounded(
        &self,
        amount: Decimal,
        usage: CurrencyUsage,
    ) -> Result<Decimal, AllocFailed<Decimal>>
        ensures succeeds { (fraction_for (fractions_of self.now) usage).increment ≢ FractionIncrement.MultiplesOf25
            → IsOk result }
        ensures value { IfOk result (λ v. RoundsAmount (fraction_for (fractions_of self.now) usage) amount v) }
        ensures same { IfErr result (λ e. e.value ≡ amount) }
        ensures room { OnErr result (MayGrowAmount (fraction_for (fractions_of self.now) usage) amount.absolute) }
    {
        self.fractions.fraction(usage).rounded(amount)
    }

    /// The amount as it is shown: rounded as by `rounded`, and then with the sign that is chosen for what is left. Of `USD`
    /// with `SignDisplay::Negative` -0.001 is `0.00`.
    ///
    /// It allocates where `Fraction::rounded` does. `AllocFailed`: out of memory; it holds the amount.
    pub fn shown(
        &self,
        amount: Decimal,
        display: SignDisplay,
        usage: CurrencyUsage,
    ) -> Result<Decimal, AllocFailed<Decimal>>
        ensures succeeds { (fraction_for (fractions_of self.now) usage).increment ≢ FractionIncrement.MultiplesOf25
            → IsOk result }
        ensures value { IfOk result (λ v. ShowsAmount (fraction_for (fractions_of self.now) usage) display amount v) }
        ensures same { IfErr result (λ e. e.value ≡ amount) }
        ensures room { OnErr result (MayGrowAmount (fraction_for (fractions_of self.now) usage) amount.absolute) }
    {
        self.fractions.fraction(usage).shown(amount, display)
    }

    /// The reader of what this formatter writes: that of `en` and `EUR` reads `-€1,234.50` as -1234.50. It borrows only
    /// what the formatter borrows, so both can be kept beside each other.
    ///
    /// It allocates for each affix that is not empty. `AllocError`: out of memory.
    pub fn reader(&self, alloc: Global) -> Result<UnitReader<'b>, AllocError>
        ensures { IfOk result (λ reader. reader ≡ reader_texts (settings_of_currency self.now)) }
    {
        UnitReader::of_parts(alloc, &self.decimals, self.pattern, self.unit())
    }

    /// The reader of what people type of amounts: that of `en` and `EUR` reads `€1,234.5`, `1234.5`, `5 €` and `EUR 5`. As
    /// that of `reader`, it can be kept beside the formatter.
    ///
    /// `Unreadable`: texts can't be read back, or not once they are folded. `Memory`: out of memory. It allocates for each
    /// affix, and for each folded text.
    pub fn lenient_reader(&self, alloc: Global) -> Result<LenientUnitReader<'b>, ReadError>
        ensures unreadable { IsErrOf result ReadError.Unreadable
            → is_leniently_unit_readable_by (lenient_texts (settings_of_currency self.now) (code_of self.now)) ≡ false }
        ensures not_written { ¬ (IsErrOf result ReadError.NotWritten) }
        ensures texts { OnOk result (AreReaderTexts (reader_texts (settings_of_currency self.now))) }
        ensures readable { OnOk result
            (is_leniently_unit_readable_by (lenient_texts (settings_of_currency self.now) (code_of self.now)) ≡ true) }
        ensures value { IfOk result
            (λ reader. reader ≡ lenient_texts (settings_of_currency self.now) (code_of self.now)) }
    {
        LenientUnitReader::of_parts(
            alloc,
            &self.decimals,
            self.pattern,
            self.unit(),
            self.code.as_str(),
        )
    }

    /// Whether texts can be read back: in English with `EUR` they can.
    ///
    /// It puts the affixes together, and so allocates; a reader that is kept does not. `AllocError`: out of memory.
    pub fn is_readable(&self, alloc: Global) -> Result<bool, AllocError>
        ensures { IfOk result (λ can. can ≡ is_unit_readable_by (reader_texts (settings_of_currency self.now))) }
    {
        Ok(self.reader(alloc)?.is_readable())
    }

    /// The amount whose text this is: in English with `EUR` `-€1,234.50` is -1234.50.
    ///
    /// How many digits the currency has is not looked at: `€1.5` is 1.5. `Unreadable`: texts can't be read back.
    /// `NotWritten`: no decimal is written so, as `$1.00` and `€1234.50`. `Memory`: out of memory. It puts the affixes
    /// together, and so allocates: who reads many texts keeps a `reader`.
    pub fn read(&self, alloc: Global, text: &str) -> Result<Decimal, ReadError>
        ensures value { IfOk result (λ v. IsUnitText (reader_texts (settings_of_currency self.now)) text.now v) }
        ensures readable { IsErrOf result ReadError.Unreadable
            → is_unit_readable_by (reader_texts (settings_of_currency self.now)) ≡ false }
        ensures unreadable { is_unit_readable_by (reader_texts (settings_of_currency self.now)) ≡ false
            → IsErrOf result ReadError.Unreadable ⊎ IsErrOf result ReadError.Memory }
        ensures not_written { IsErrOf result ReadError.NotWritten
            → HasNoDecimal (reader_texts (settings_of_currency self.now)) text.now }
    {
        read_once(alloc, &self.tables(), text)
    }
}
