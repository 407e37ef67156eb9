//! What scientific numbers are written with.

ghost use Rattle.std.specs.Prelude.{◌≡◌, IfOk, string_bytes};
ghost use Rattle.icu_decimal_plain.specs.BorrowedTables.{borrowed_tables};
ghost use Rattle.icu_decimal_symbols.specs.declared.options.GroupingStrategy.TheVariants.{Never};
ghost use Rattle.icu_decimal_scientific.specs.HeldTables.{settings_of};
ghost use Rattle.icu_decimal_scientific.specs.ExponentialText.{scientific_formatted, scientific_text};

use crate::shown::ShownScientific;
use crate::written::{NumberWithExponent, WrittenExponent};
use fixed_decimal::Decimal;
use icu_decimal_plain::{DecimalTables, FormattedSign};
use icu_decimal_symbols::options::GroupingStrategy;
use std::alloc::{AllocError, Global};
use writeable::Writeable;

/// A scientific number as it is written: `-1.2E6` in English.
pub type FormattedScientific<'l> = FormattedSign<'l, NumberWithExponent<'l>>;

/// What scientific numbers are written with, all of it borrowed: the tables of the significand, the text before
/// exponents, and the tables of the exponent.
///
/// With those of English and `E`, -1200000 is written as `-1.2E6`. With `×10` and tables of raised digits it is
/// `-1.2×10⁶`.
#[derive(Clone, Copy, Debug)]
pub struct ScientificTables<'b> {
    pub(crate) decimals: DecimalTables<'b>,
    pub(crate) separator: &'b str,
    pub(crate) exponents: DecimalTables<'b>,
}

impl<'b> ScientificTables<'b> {
    /// These tables, and this text before exponents, which are written with the symbols and the digits of these tables,
    /// without groups: those of English and `E` write `1.2E6`. It does not allocate.
    pub fn new(decimals: &DecimalTables<'b>, separator: &'b str) -> Self
        ensures { settings_of result
            ≡ record {
              tables = borrowed_tables decimals.now;
              separator = separator.now;
              exponents = record (borrowed_tables decimals.now) { strategy = Never };
            } }
    {
        let (symbols, digits) = (decimals.symbols(), decimals.digits());
        let exponents = DecimalTables::new(symbols, digits, GroupingStrategy::Never);
        ScientificTables::with_exponents(decimals, separator, &exponents)
    }

    /// These tables, this text before exponents, and other tables for these: those of English, `×10` and raised digits
    /// write `1.2×10⁶`. It does not allocate.
    pub fn with_exponents(
        decimals: &DecimalTables<'b>,
        separator: &'b str,
        exponents: &DecimalTables<'b>,
    ) -> Self
        ensures { settings_of result
            ≡ record {
              tables = borrowed_tables decimals.now;
              separator = separator.now;
              exponents = borrowed_tables exponents.now;
            } }
    {
        ScientificTables {
            decimals: *decimals,
            separator,
            exponents: *exponents,
        }
    }

    /// The tables that significands are written with. It does not allocate.
    pub fn decimals(&self) -> &DecimalTables<'b>
        ensures { borrowed_tables result.now ≡ (settings_of self.now).tables }
    {
        &self.decimals
    }

    /// The text before exponents: `E` in English. It does not allocate.
    pub fn separator(&self) -> &'b str
        ensures { result.now ≡ (settings_of self.now).separator }
    {
        self.separator
    }

    /// The tables that exponents are written with: in English those of significands, without groups. It does not
    /// allocate.
    pub fn exponents(&self) -> &DecimalTables<'b>
        ensures { borrowed_tables result.now ≡ (settings_of self.now).exponents }
    {
        &self.exponents
    }

    /// The number as it is written: 1.2 and 6 as `1.2E6` in English. It does not allocate.
    ///
    /// The number is written as it is given, with its digits. Its parts are those of the significand, and those of
    /// `parts`.
    ///
    /// Source: UTS 35, part 3 (numbers), scientific notation.
    pub fn format<'l>(&'l self, value: &'l ShownScientific) -> FormattedScientific<'l>
        ensures { result ≡ scientific_formatted (settings_of self.now) value.now }
    {
        self.format_parts(&value.significand, &value.exponent)
    }

    /// A significand with its exponent as they are written: 1.2 and 06 as `1.2E06` in English. It does not allocate.
    ///
    /// Both are written as they are given, with their signs and digits; `shown_exponent` makes an exponent as options
    /// show it. The parts are those of `format`.
    pub fn format_parts<'l>(
        &'l self,
        significand: &'l Decimal,
        exponent: &'l Decimal,
    ) -> FormattedScientific<'l>
        ensures { result ≡ scientific_formatted (settings_of self.now)
            (record { significand = significand.now; exponent = exponent.now }) }
    {
        let number = self.decimals.format_unsigned(&significand.absolute);
        let exponent = WrittenExponent::new(&self.exponents, exponent);
        let inner = NumberWithExponent::new(number, self.separator, exponent);
        FormattedSign::new(significand.sign, self.decimals.symbols(), inner)
    }

    /// The text of the number: 1.2 and 6 give `1.2E6` in English.
    ///
    /// It allocates. `AllocError`: out of memory.
    pub fn format_to_string(
        &self,
        alloc: Global,
        value: &ShownScientific,
    ) -> Result<String, AllocError>
        ensures { IfOk result (λ text. string_bytes text ≡ scientific_text (settings_of self.now) value.now) }
    {
        self.format(value).write_to_string(alloc)
    }
}
