//! A formatter of numbers in scientific or engineering notation.

ghost use Rattle.std.specs.Prelude.{◌≡◌, ◌↔◌, None, IfOk, IsTrue, OnErr, OnOk};
ghost use Rattle.icu_decimal_scientific.specs.ExponentialText.{scientific_formatted};
ghost use Rattle.icu_decimal_scientific.specs.HeldTables.{settings_of};
ghost use Rattle.icu_decimal_scientific.specs.ShownNumbers.{shown_exponent};
ghost use Rattle.locale_numbers_formats.specs.Changed.{changed};
ghost use Rattle.locale_numbers_formatter.specs.FormatText.{CanFormat, MayLengthen, form_shown};
ghost use Rattle.locale_numbers_formatter.specs.HeldScientific.{scientific_format, scientific_held};

use fixed_decimal::Decimal;
use icu_decimal_scientific::{
    FormattedScientific, ScientificTables, carry_significand, has_form, make_significand,
    shown_exponent,
};
use locale_numbers_formats::{NumberOptions, ScientificStyle};
use std::alloc::{AllocError, Global};

/// A formatter of numbers in scientific notation, whose digits are those that options leave of the significand: that of
/// `en` with two fraction digits writes 1234 as `1.23E3`. It borrows its tables.
///
/// The options don't go by the digits of a currency.
#[derive(Clone, Copy, Debug)]
pub struct ScientificFormatter<'a> {
    alloc: Global,
    pub(crate) tables: ScientificTables<'a>,
    pub(crate) style: ScientificStyle,
    pub(crate) options: NumberOptions,
}

impl<'a> ScientificFormatter<'a> {
    /// The formatter of these tables, this style and these options: with those of `en`, the default style and two fraction
    /// digits it writes 1234 as `1.23E3`. Exponents are made with the allocator, but none takes memory. It does not
    /// allocate.
    pub fn new(
        alloc: Global,
        tables: ScientificTables<'a>,
        style: ScientificStyle,
        options: NumberOptions,
    ) -> Self
        ensures { scientific_held result
            ≡ record { settings = settings_of tables.entry; style = style; options = options } }
    {
        ScientificFormatter {
            alloc,
            tables,
            style,
            options,
        }
    }

    /// What it writes with: in English the symbols and digits of plain numbers, and `E` before exponents. It does not
    /// allocate.
    pub fn tables(&self) -> &ScientificTables<'a>
        ensures { settings_of result.now ≡ (scientific_held self.now).settings }
    {
        &self.tables
    }

    /// Which exponents there are, and how they are shown: by the default each, as `6` and `-4`. It does not allocate.
    pub fn style(&self) -> ScientificStyle
        ensures { result ≡ (scientific_held self.now).style }
    {
        self.style
    }

    /// What is made of the significand: two fraction digits in `1.23E3`. It does not allocate.
    pub fn options(&self) -> &NumberOptions
        ensures { result.now ≡ (scientific_held self.now).options }
    {
        &self.options
    }

    /// Whether the number can be shown: where no digit of its significand is below the magnitude -32768, as one is of 1000
    /// and 10^-32768 together.
    ///
    /// Of 1234 and of 10^-32768 it is true. It does not allocate.
    pub fn can_show(&self, value: &Decimal) -> bool
        ensures { IsTrue result ↔ CanFormat (scientific_format self.now) value.now }
    {
        has_form(value, self.style.notation)
    }

    // Changes a significand as the options say.
    fn change(&self, value: &mut Decimal) -> Result<(), AllocError>
        ensures value { OnOk result (value.new ≡ changed (scientific_held self.now).options None value.old) }
        ensures room { OnErr result (MayLengthen (scientific_format self.now)) }
    {
        self.options.change(None, value)
    }

    // Makes a number its significand as the options leave it, and says the exponent.
    pub(crate) fn show_form(&self, value: &mut Decimal) -> Result<i32, AllocError>
        requires { CanFormat (scientific_format self.now) value.old }
        ensures value { IfOk result (λ exponent. record { significand = value.new; exponent = exponent }
            ≡ form_shown (scientific_held self.now) value.old) }
        ensures room { OnErr result (MayLengthen (scientific_format self.now)) }
    {
        let Some(exponent) = make_significand(value, self.style.notation) else {
            unreachable!()
        };
        self.change(value)?;
        let by = carry_significand(value, self.style.notation);
        if by > 0 {
            self.change(value)?;
        }
        Ok(exponent + by as i32)
    }

    /// Makes a number its significand as the options leave it, and answers the exponent as it is shown: 1234 becomes 1.23,
    /// with the exponent 3; with one fraction digit 99999 becomes 1.0, with 5.
    ///
    /// The condition is `can_show`. It may allocate only by options that round to multiples of 25. `AllocError`: out of
    /// memory; the number may then be another one.
    pub fn show(&self, value: &mut Decimal) -> Result<Decimal, AllocError>
        requires { CanFormat (scientific_format self.now) value.old }
        ensures significand { OnOk result
            (value.new ≡ (form_shown (scientific_held self.now) value.old).significand) }
        ensures exponent { IfOk result (λ exponent. exponent
            ≡ shown_exponent (scientific_held self.now).style.exponents
            (form_shown (scientific_held self.now) value.old).exponent) }
        ensures room { OnErr result (MayLengthen (scientific_format self.now)) }
    {
        let exponent = self.show_form(value)?;
        shown_exponent(self.alloc, exponent, self.style.exponents)
    }

    /// What `show` made of a number and answered, as it is written: of 1.23 and 3 `1.23E3`, with its parts. It does not
    /// allocate.
    pub fn format_shown<'l>(
        &'l self,
        significand: &'l Decimal,
        exponent: &'l Decimal,
    ) -> FormattedScientific<'l>
        ensures { result ≡ scientific_formatted (scientific_held self.now).settings
            (record { significand = significand.now; exponent = exponent.now }) }
    {
        self.tables.format_parts(significand, exponent)
    }
}
