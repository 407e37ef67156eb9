//! A compact number with digits of its own that was formatted.

ghost use Rattle.std.specs.Prelude.{◌≡◌};
ghost use Rattle.icu_decimal.specs.HeldCompact.{compact_tables_of};
ghost use Rattle.locale_numbers_formatter.specs.HeldDigits.{written_at};

use fixed_decimal::Decimal;
use icu_decimal::CompactDecimalFormatter;
use std::marker::Model;
use writeable::{Error, LengthHint, Sink, Writeable};

/// A number as a formatter of compact numbers with digits of their own writes it: `-1.23K` of -1234 in English. It owns
/// what is before the pattern, and borrows the tables.
#[derive(Debug, Drop)]
pub struct FormattedDigits<'l> {
    compact: &'l CompactDecimalFormatter<'l>,
    significand: Decimal,
    entry: Option<usize>,
}

impl<'l> Model for FormattedDigits<'l> {
    ghost use Rattle.icu_decimal.specs.Affixes.{WithSign};
    ghost use Rattle.icu_decimal.specs.Pattern.{InPattern};
    ghost use Rattle.icu_decimal.specs.PlainText.{PlainNumber};

    ghost Value = { WithSign (InPattern PlainNumber) };

    ghost use Rattle.icu_decimal.specs.HeldCompact.{compact_tables_of};
    ghost use Rattle.locale_numbers_formatter.specs.HeldDigits.{written_at};

    ghost view = { λ s. written_at (compact_tables_of s.compact.now) s.significand s.entry };
}

impl<'l> FormattedDigits<'l> {
    // A significand in the pattern of the entry at an index, or in none.
    pub(crate) fn new(
        compact: &'l CompactDecimalFormatter<'l>,
        significand: Decimal,
        entry: Option<usize>,
    ) -> Self
        ensures { result ≡ written_at (compact_tables_of compact.now) significand entry }
    {
        FormattedDigits {
            compact,
            significand,
            entry,
        }
    }
}

/// What the formatter writes for the number, with all parts: `-1.23K`.
///
/// `Error`, only where the sink refused: it took a beginning. Only the sink may allocate. The hint is that of the number.
impl<'l> Writeable for FormattedDigits<'l> {
    ghost use Rattle.std.specs.Prelude.{length};
    ghost use Rattle.writeable.specs.AnnotatedText.{text_of};
    ghost use Rattle.writeable.specs.LengthHint.{IsWithinHint};
    ghost use Rattle.icu_decimal.specs.ExactText.{exact_events};

    ghost events = { exact_events };

    fn write_to<S: Sink>(&self, sink: &mut S) -> Result<(), Error> {
        self.compact
            .format_under(&self.significand, self.entry)
            .write_to(sink)
    }

    fn write_text<S: Sink>(&self, sink: &mut S) -> Result<(), Error> {
        self.compact
            .format_under(&self.significand, self.entry)
            .write_text(sink)
    }

    fn writeable_length_hint(&self) -> LengthHint
        ensures { IsWithinHint result (length (text_of (exact_events self.now))) }
    {
        self.compact
            .format_under(&self.significand, self.entry)
            .writeable_length_hint()
    }
}
