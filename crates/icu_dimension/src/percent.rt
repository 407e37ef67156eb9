//! A formatter of percents.

ghost use Rattle.std.specs.Prelude.{◌≡◌, ◌⊎◌, false, true, IfOk, IsErrOf, OnOk, string_bytes};
ghost use Rattle.std.specs.Result.{result_map_both};
ghost use Rattle.icu_decimal.specs.BorrowedTables.{borrowed_tables};
ghost use Rattle.icu_dimension_affixes.specs.HeldUnits.{name_of, settings_of};
ghost use Rattle.icu_dimension_affixes.specs.UnitReading.{AreReaderTexts, HasNoDecimal, IsUnitText, is_unit_readable_by, reader_texts};
ghost use Rattle.icu_dimension_affixes.specs.UnitText.{unit_decimal_text, unit_formatted};
ghost use Rattle.icu_dimension_lenient.specs.LenientUnits.{is_leniently_unit_readable_by, lenient_texts};
ghost use Rattle.icu_dimension.specs.FoundUnits.{found_percent};
ghost use Rattle.icu_dimension.specs.HeldFormatters.{settings_of_percent, sign_of, typed_sign};

use crate::options::{PercentFormatterOptions, typed};
use crate::provider::{PercentEssentialsV1, load_decimals, load_percent};
use crate::reading::read_once;
use fixed_decimal::Decimal;
use icu_decimal::error::ReadError;
use icu_decimal::provider::{
    DataError, DataProvider, DecimalDigitsV1, DecimalSymbolsV1, ParentProvider,
};
use icu_decimal::{DecimalFormatterPreferences, DecimalTables};
use icu_dimension_affixes::{FormattedUnit, Unit, UnitKind, UnitPattern, UnitReader, UnitTables};
use icu_dimension_fractions::PercentSign;
use icu_dimension_lenient::LenientUnitReader;
use std::alloc::{AllocError, Global};

/// A formatter of percents: the tables of a locale, which it borrows, its sign, and when separators are written.
///
/// That of `en` writes -12.5 as `-12.5%`, that of `tr` as `-%12,5`; with the permille sign `-12.5‰` and `-‰12,5`. After ICU4X's `PercentFormatter`.
#[derive(Clone, Copy, Debug)]
pub struct PercentFormatter<'b> {
    decimals: DecimalTables<'b>,
    pattern: &'b UnitPattern,
    sign: PercentSign,
    text: &'b str,
}

impl<'b> PercentFormatter<'b> {
    /// The formatter of these preferences and options, with tables of the provider: the symbols and the digits that plain
    /// text finds, then the pattern of percents and the sign asked for.
    ///
    /// Preferences of `tr` write 12.5 as `%12,5`. `IdentifierNotFound`: one of these tables is not there, or has no such
    /// sign; any other error is the provider's own, the first in this order. It does not allocate.
    pub fn try_new_unstable<P>(
        provider: &'b P,
        preferences: DecimalFormatterPreferences,
        options: PercentFormatterOptions,
    ) -> Result<Self, DataError>
    where
        P: DataProvider<DecimalSymbolsV1>
            + DataProvider<DecimalDigitsV1>
            + DataProvider<PercentEssentialsV1>
            + ParentProvider,
        ensures sign { IfOk result (λ formatter. sign_of formatter ≡ options.sign) }
        ensures found { result_map_both settings_of_percent (λ error. error) result ≡ found_percent
            (record {
              decimals = record {
                next = P.next provider.now;
                limit = P.limit provider.now;
                symbols = λ id. ⟦<P as DataProvider<DecimalSymbolsV1>>⟧.table provider.now id;
                digits = λ id. ⟦<P as DataProvider<DecimalDigitsV1>>⟧.table provider.now id;
              };
              percents = λ id. ⟦<P as DataProvider<PercentEssentialsV1>>⟧.table provider.now id;
            }) preferences options }
    {
        let decimals = load_decimals(provider, &preferences, options.grouping_strategy)?;
        let found = load_percent(provider, &preferences)?;
        Ok(PercentFormatter {
            decimals: decimals.with_own(&found.symbols),
            pattern: &found.pattern,
            sign: options.sign,
            text: found.text_of(options.sign)?,
        })
    }

    /// The formatter of tables that the caller has: what decimals are written with, a pattern, a sign and its text.
    ///
    /// With the tables of English, `¤` after the number and `%` it writes 12.5 as `12.5%`. It does not allocate.
    pub fn from_parts(
        decimals: DecimalTables<'b>,
        pattern: &'b UnitPattern,
        sign: PercentSign,
        text: &'b str,
    ) -> Self
        ensures sign { sign_of result ≡ sign }
        ensures value { settings_of_percent result
            ≡ record {
              tables = borrowed_tables decimals.entry;
              pattern = pattern.now;
              unit = record { kind = UnitKind.Percent; text = text.now };
            } }
    {
        PercentFormatter {
            decimals,
            pattern,
            sign,
            text,
        }
    }

    // The text of the sign, as a unit.
    fn unit(&self) -> Unit<'b>
        ensures { name_of result ≡ (settings_of_percent self.now).unit }
    {
        Unit {
            kind: UnitKind::Percent,
            text: self.text,
        }
    }

    /// Its sign: of a formatter with the default options the percent sign. It does not allocate.
    pub fn sign(&self) -> PercentSign
        ensures { result ≡ sign_of self.now }
    {
        self.sign
    }

    /// What its decimals are written with: of the formatter of `en` those of English. It does not allocate.
    pub fn decimals(&self) -> &DecimalTables<'b>
        ensures { borrowed_tables result.now ≡ (settings_of_percent self.now).tables }
    {
        &self.decimals
    }

    /// What it writes with, as one value: of the formatter of `en` what writes 12.5 as `12.5%`. It does not allocate.
    pub fn tables(&self) -> UnitTables<'_>
        ensures { settings_of result ≡ settings_of_percent self.now }
    {
        UnitTables::new(&self.decimals, self.pattern, self.unit())
    }

    /// The percents as this formatter writes them: -12.5 as `-12.5%` in English. It does not allocate.
    ///
    /// The decimal is written as it is given: a ratio is multiplied by 100 first.
    ///
    /// Source: UTS 35, part 3 (numbers), number patterns.
    pub fn format<'l>(&'l self, value: &'l Decimal) -> FormattedUnit<'l>
        ensures { result ≡ unit_formatted (settings_of_percent self.now) value.now }
    {
        self.tables().format(value)
    }

    /// The text of the percents: -12.5 gives `-12.5%` in English.
    ///
    /// It allocates. `AllocError`: out of memory.
    pub fn format_to_string(&self, alloc: Global, value: &Decimal) -> Result<String, AllocError>
        ensures { IfOk result (λ text. string_bytes text ≡ unit_decimal_text (settings_of_percent self.now) value.now) }
    {
        self.tables().format_to_string(alloc, value)
    }

    /// The reader of what this formatter writes: that of `en` reads `-12.5%` as -12.5. It borrows only what the formatter
    /// borrows, so both can be kept beside each other.
    ///
    /// It allocates for each affix that is not empty. `AllocError`: out of memory.
    pub fn reader(&self, alloc: Global) -> Result<UnitReader<'b>, AllocError>
        ensures { IfOk result (λ reader. reader ≡ reader_texts (settings_of_percent self.now)) }
    {
        UnitReader::of_parts(alloc, &self.decimals, self.pattern, self.unit())
    }

    /// The reader of what people type of percents: that of `en` reads `12.5%`, `12.5 %` and `12.5` as 12.5. As that of
    /// `reader`, it can be kept beside the formatter. With the permille sign `‰` is typed.
    ///
    /// `Unreadable`: texts can't be read back, or not once they are folded. `Memory`: out of memory. It allocates for each
    /// affix, and for each folded text.
    pub fn lenient_reader(&self, alloc: Global) -> Result<LenientUnitReader<'b>, ReadError>
        ensures unreadable { IsErrOf result ReadError.Unreadable
            → is_leniently_unit_readable_by (lenient_texts (settings_of_percent self.now) (typed_sign (sign_of self.now))) ≡ false }
        ensures not_written { ¬ (IsErrOf result ReadError.NotWritten) }
        ensures texts { OnOk result (AreReaderTexts (reader_texts (settings_of_percent self.now))) }
        ensures readable { OnOk result
            (is_leniently_unit_readable_by (lenient_texts (settings_of_percent self.now) (typed_sign (sign_of self.now))) ≡ true) }
        ensures value { IfOk result (λ reader. reader ≡ lenient_texts (settings_of_percent self.now) (typed_sign (sign_of self.now))) }
    {
        let typed = typed(self.sign);
        LenientUnitReader::of_parts(alloc, &self.decimals, self.pattern, self.unit(), typed)
    }

    /// Whether texts can be read back: in English they can.
    ///
    /// It puts the affixes together, and so allocates; a reader that is kept does not. `AllocError`: out of memory.
    pub fn is_readable(&self, alloc: Global) -> Result<bool, AllocError>
        ensures { IfOk result (λ can. can ≡ is_unit_readable_by (reader_texts (settings_of_percent self.now))) }
    {
        Ok(self.reader(alloc)?.is_readable())
    }

    /// The percents whose text this is: in English `-12.50%` is -12.50.
    ///
    /// `Unreadable`: texts can't be read back. `NotWritten`: no decimal is written so, as `12.5` and `12.5 %`. `Memory`:
    /// out of memory. It puts the affixes together, and so allocates: who reads many texts keeps a `reader`.
    pub fn read(&self, alloc: Global, text: &str) -> Result<Decimal, ReadError>
        ensures value { IfOk result (λ v. IsUnitText (reader_texts (settings_of_percent self.now)) text.now v) }
        ensures readable { IsErrOf result ReadError.Unreadable
            → is_unit_readable_by (reader_texts (settings_of_percent self.now)) ≡ false }
        ensures unreadable { is_unit_readable_by (reader_texts (settings_of_percent self.now)) ≡ false
            → IsErrOf result ReadError.Unreadable ⊎ IsErrOf result ReadError.Memory }
        ensures not_written { IsErrOf result ReadError.NotWritten
            → HasNoDecimal (reader_texts (settings_of_percent self.now)) text.now }
    {
        read_once(alloc, &self.tables(), text)
    }
}
