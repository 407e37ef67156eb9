//! A number that a formatter of any kind has formatted.

use crate::formatted_digits::FormattedDigits;
use crate::formatted_power::FormattedPower;
use icu_decimal::pattern::Interpolated;
use icu_decimal::{
    FormattedDecimal, FormattedSign, FormattedUnsignedCompactDecimal, FormattedUnsignedDecimal,
};
use icu_dimension::FormattedUnit;
use std::fmt;
use writeable::{Error, LengthHint, Sink, Writeable, display};

/// A number as a formatter of any kind writes it: `-1,234.5`, `-1.2K`, `-12.5%`, `-€1,234.50` or `-1.2345E3` in English.
///
/// After ICU4C's class of this name.
#[derive(Debug, Drop)]
pub enum FormattedNumber<'l> {
    /// A plain number: `-1,234.5`.
    Plain(FormattedDecimal<'l>),
    /// A compact number, without parts of its digits: `-1.2K`.
    Compact(FormattedSign<'l, FormattedUnsignedCompactDecimal<'l>>),
    /// A compact number with digits of its own, with all parts: `-1.23K`.
    Digits(FormattedDigits<'l>),
    /// An exact form of a compact number, with all parts: `-1.20M`.
    Exact(FormattedSign<'l, Interpolated<'l, FormattedUnsignedDecimal<'l>>>),
    /// Percents, or an amount of money: `-12.5%`, `-€1,234.50`.
    Unit(FormattedUnit<'l>),
    /// A scientific number: `-1.2345E3`.
    Scientific(FormattedPower<'l>),
}

/// What the formatter writes for the number, with its parts: `-€1,234.5`, of which `€` is the part `CURRENCY`.
///
/// `Error`, only where the sink refused: it took a beginning. Only the sink may allocate. The hint is that of the number.
impl<'l> Writeable for FormattedNumber<'l> {
    ghost use Rattle.std.specs.Prelude.{length};
    ghost use Rattle.writeable.specs.AnnotatedText.{text_of};
    ghost use Rattle.writeable.specs.LengthHint.{IsWithinHint};
    ghost use Rattle.locale_numbers_formatter.specs.FormattedNumbers.{formatted_events};

    ghost events = { formatted_events };

    fn write_to<S: Sink>(&self, sink: &mut S) -> Result<(), Error> {
        match self {
            FormattedNumber::Plain(number) => number.write_to(sink),
            FormattedNumber::Compact(number) => number.write_to(sink),
            FormattedNumber::Digits(number) => number.write_to(sink),
            FormattedNumber::Exact(number) => number.write_to(sink),
            FormattedNumber::Unit(number) => number.write_to(sink),
            FormattedNumber::Scientific(number) => number.write_to(sink),
        }
    }

    fn write_text<S: Sink>(&self, sink: &mut S) -> Result<(), Error> {
        match self {
            FormattedNumber::Plain(number) => number.write_text(sink),
            FormattedNumber::Compact(number) => number.write_text(sink),
            FormattedNumber::Digits(number) => number.write_text(sink),
            FormattedNumber::Exact(number) => number.write_text(sink),
            FormattedNumber::Unit(number) => number.write_text(sink),
            FormattedNumber::Scientific(number) => number.write_text(sink),
        }
    }

    fn writeable_length_hint(&self) -> LengthHint
        ensures { IsWithinHint result (length (text_of (formatted_events self.now))) }
    {
        match self {
            FormattedNumber::Plain(number) => number.writeable_length_hint(),
            FormattedNumber::Compact(number) => number.writeable_length_hint(),
            FormattedNumber::Digits(number) => number.writeable_length_hint(),
            FormattedNumber::Exact(number) => number.writeable_length_hint(),
            FormattedNumber::Unit(number) => number.writeable_length_hint(),
            FormattedNumber::Scientific(number) => number.writeable_length_hint(),
        }
    }
}

/// The same text, without its parts: `-€1,234.5`. Only the writer may allocate.
impl<'l> fmt::Display for FormattedNumber<'l> {
    ghost use Rattle.std.specs.Prelude.{Some};
    ghost use Rattle.writeable.specs.AnnotatedText.{text_of};
    ghost use Rattle.locale_numbers_formatter.specs.FormattedNumbers.{formatted_events};

    ghost output = { λ number. Some (text_of (formatted_events number)) };

    fn fmt<W: fmt::Write>(&self, f: &mut fmt::Formatter<W>) -> fmt::Result {
        display(self, f)
    }
}
