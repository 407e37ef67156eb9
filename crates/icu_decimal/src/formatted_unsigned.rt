//! A number without its sign, as a formatter of either kind writes it.

use crate::formatted_compact::FormattedUnsignedCompactDecimal;
use icu_decimal_plain::FormattedUnsignedDecimal;
use std::fmt;
use writeable::{Error, LengthHint, Sink, Writeable, display};

/// A number without its sign, as a plain or a compact formatter writes it: `1,650` or `1.6K` of 1650 in English.
///
/// After the associated type of this name of ICU4X's `AbstractFormatter`.
#[derive(Debug, Drop)]
pub enum FormattedUnsigned<'l> {
    /// By a plain formatter, with its parts: `1,650`.
    Plain(FormattedUnsignedDecimal<'l>),
    /// By a compact one, without parts: `1.6K`.
    Compact(FormattedUnsignedCompactDecimal<'l>),
}

/// What the formatter writes for the number: `1,650` with the parts `integer` and `group`, or `1.6K`.
///
/// `Error`, only where the sink refused: it took a beginning. Only the sink may allocate. The hint is that of the plain
/// or the compact number.
impl<'l> Writeable for FormattedUnsigned<'l> {
    ghost use Rattle.std.specs.Prelude.{length};
    ghost use Rattle.writeable.specs.AnnotatedText.{text_of};
    ghost use Rattle.writeable.specs.LengthHint.{IsWithinHint};
    ghost use Rattle.icu_decimal.specs.FormattedNumbers.{formatted_unsigned_events};

    ghost events = { formatted_unsigned_events };

    fn write_to<S: Sink>(&self, sink: &mut S) -> Result<(), Error> {
        match self {
            FormattedUnsigned::Plain(number) => number.write_to(sink),
            FormattedUnsigned::Compact(number) => number.write_to(sink),
        }
    }

    fn write_text<S: Sink>(&self, sink: &mut S) -> Result<(), Error> {
        match self {
            FormattedUnsigned::Plain(number) => number.write_text(sink),
            FormattedUnsigned::Compact(number) => number.write_text(sink),
        }
    }

    fn writeable_length_hint(&self) -> LengthHint
        ensures { IsWithinHint result (length (text_of (formatted_unsigned_events self.now))) }
    {
        match self {
            FormattedUnsigned::Plain(number) => number.writeable_length_hint(),
            FormattedUnsigned::Compact(number) => number.writeable_length_hint(),
        }
    }
}

/// The same text, without its parts: `1,650` or `1.6K`. Only the writer may allocate.
impl<'l> fmt::Display for FormattedUnsigned<'l> {
    ghost use Rattle.std.specs.Prelude.{Some};
    ghost use Rattle.writeable.specs.AnnotatedText.{text_of};
    ghost use Rattle.icu_decimal.specs.FormattedNumbers.{formatted_unsigned_events};

    ghost output = { λ number. Some (text_of (formatted_unsigned_events number)) };

    fn fmt<W: fmt::Write>(&self, f: &mut fmt::Formatter<W>) -> fmt::Result {
        display(self, f)
    }
}
