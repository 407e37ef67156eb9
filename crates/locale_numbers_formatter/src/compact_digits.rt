//! A formatter of compact numbers with digits of their own.

ghost use Rattle.std.specs.Prelude.{◌≡◌, ◌↔◌, ◌/◌, ◌%◌, ◌^◌, ◌<◌, IfOk, IsTrue, OnErr, OnOk};
ghost use Rattle.fixed_decimal.specs.NonzeroPlaces.{IsLastPlace};
ghost use Rattle.fixed_decimal.specs.Number.{place};
ghost use Rattle.icu_decimal.specs.CompactText.{padded};
ghost use Rattle.icu_decimal.specs.HeldCompact.{compact_tables_of};
ghost use Rattle.icu_decimal.specs.ShownChoice.{entry_of, exponent_of};
ghost use Rattle.locale_numbers_formatter.specs.CompactDigits.{changed_under, digits_shown};
ghost use Rattle.locale_numbers_formatter.specs.FormatText.{CanFormat, MayLengthen};
ghost use Rattle.locale_numbers_formatter.specs.HeldDigits.{compact_held, digits_format, options_held, written_at};

use fixed_decimal::{Decimal, UnsignedDecimal};
use icu_decimal::pattern::Interpolated;
use icu_decimal::{CompactDecimalFormatter, FormattedSign, FormattedUnsignedDecimal};
use icu_decimal_compact_value::{ShownUnder, divide, entry_with};
use locale_numbers_formats::NumberOptions;
use std::alloc::AllocError;

/// A formatter of compact numbers whose digits are those that options leave of what is before the pattern: that of `en` in
/// short form with two fraction digits writes 1234 as `1.23K`. It borrows its tables.
///
/// The options don't go by the digits of a currency.
#[derive(Clone, Copy, Debug)]
pub struct CompactDigitsFormatter<'a> {
    pub(crate) compact: CompactDecimalFormatter<'a>,
    pub(crate) options: NumberOptions,
}

// The position of a place, of which the lowest one is 0.
fn position_of(at: u8) -> i16
    ensures { place result ≡ at }
{
    (at as i32 - 32768) as i16
}

// The place of the last digit that is not zero, or of the ones.
fn last_place(number: &UnsignedDecimal) -> u16
    ensures zero { number.now.count ≡ 0 → result ≡ 32768 }
    ensures value { 0 < number.now.count → IsLastPlace number.now.count result }
{
    (number.nonzero_magnitude_end() as i32 + 32768) as u16
}

// Whether a number has no digit below an exponent.
fn has_none_below(number: &UnsignedDecimal, exponent: u8) -> bool
    ensures { IsTrue result ↔ (number.now.count % 10 ^ exponent ≡ 0) }
{
    last_place(number) >= exponent as u16
}

// Divides a number by ten to an exponent, and takes the zeros away that end its fraction. A digit below the exponent is
// cut.
fn divide_cut(number: &mut UnsignedDecimal, exponent: u8)
    ensures { number.new ≡ padded (number.old.count / 10 ^ exponent) exponent number.old }
{
    let _number = number.magnitude_range(); // for the proof
    number.trunc(position_of(exponent));
    divide(number, exponent);
}

impl<'a> CompactDigitsFormatter<'a> {
    /// The formatter of these tables and options: with those of `en` in short form and two fraction digits it writes 1234
    /// as `1.23K`. It does not allocate.
    pub fn new(compact: CompactDecimalFormatter<'a>, options: NumberOptions) -> Self
        ensures tables { compact_held result ≡ compact_tables_of compact.entry }
        ensures options { options_held result ≡ options }
    {
        CompactDigitsFormatter { compact, options }
    }

    /// The formatter of compact numbers with its tables: of that which writes 1234 as `1.23K` the one that writes `1.2K`.
    /// It does not allocate.
    pub fn compact(&self) -> &CompactDecimalFormatter<'a>
        ensures { compact_tables_of result.now ≡ compact_held self.now }
    {
        &self.compact
    }

    /// What is made of the number before the pattern: two fraction digits in `1.23K`. It does not allocate.
    pub fn options(&self) -> &NumberOptions
        ensures { result.now ≡ options_held self.now }
    {
        &self.options
    }

    /// Whether the number can be shown: where it has no digit below its exponent, as 10^-32768 is not before `K`.
    ///
    /// Of 1234 and of 10^-32768 it is true, of 1000 and 10^-32768 together it is false. It does not allocate.
    pub fn can_show(&self, value: &Decimal) -> bool
        ensures { IsTrue result ↔ CanFormat (digits_format self.now) value.now }
    {
        let under = entry_with(&value.absolute, 0, self.compact.patterns().entries());
        has_none_below(&value.absolute, under.exponent)
    }

    // Divides a number by ten to an exponent, and changes it as the options say.
    fn change(&self, value: &mut Decimal, exponent: u8) -> Result<(), AllocError>
        ensures value { OnOk result (value.new ≡ changed_under (options_held self.now) exponent value.old) }
        ensures room { OnErr result (MayLengthen (digits_format self.now)) }
    {
        divide_cut(&mut value.absolute, exponent);
        self.options.change(None, value)
    }

    /// Makes a number what is before its pattern, and says under which exponent and entry: 1234 becomes 1.23, under the
    /// exponent 3 and the entry of `K`; with one fraction digit 999950 becomes 1.0, under 6 and that of `M`.
    ///
    /// It may allocate only by options that round to multiples of 25. `AllocError`: out of memory; the number may then be
    /// another one.
    pub fn show(&self, value: &mut Decimal) -> Result<ShownUnder, AllocError>
        ensures value { IfOk result (λ under.
            digits_shown (compact_held self.now).patterns.entries (options_held self.now) value.old
            ≡ record {
              significand = value.new;
              entry = entry_of (compact_held self.now).patterns.entries under.entry;
            }) }
        ensures exponent { IfOk result (λ under.
            under.exponent ≡ exponent_of (entry_of (compact_held self.now).patterns.entries under.entry)) }
        ensures room { OnErr result (MayLengthen (digits_format self.now)) }
    {
        let entries = self.compact.patterns().entries();
        let under = entry_with(&value.absolute, 0, entries);
        self.change(value, under.exponent)?;
        let reached = entry_with(&value.absolute, under.exponent, entries);
        if under.exponent < reached.exponent {
            self.change(value, reached.exponent - under.exponent)?;
        }
        Ok(reached)
    }

    /// What `show` made of a number, in the pattern of the entry that it said: of 1.23 and that of `K` `1.23K`, with the
    /// parts of the number. It does not allocate.
    pub fn format_shown<'l>(
        &'l self,
        significand: &'l Decimal,
        under: ShownUnder,
    ) -> FormattedSign<'l, Interpolated<'l, FormattedUnsignedDecimal<'l>>>
        ensures { result ≡ written_at (compact_held self.now) significand.now under.entry }
    {
        self.compact.format_under(significand, under.entry)
    }
}
