//! The value that a text of any format shows.

use fixed_decimal::{CompactDecimal, ScientificDecimal};
use std::fmt;
use writeable::{Error, LengthHint, Sink, Writeable, display};

/// The value that the text of a number shows: -1.2 with the exponent 6 of `-1.2M`, printed `-1.2c6`, and of `-1.2E6`,
/// printed `-1.2e6`.
#[derive(Debug, Drop)]
pub enum ShownNumber {
    /// A number, with the exponent of its pattern, or with 0: `-1.2c6` of `-1.2M`, and `1234.5` of `1,234.5`.
    Compact(CompactDecimal),
    /// A scientific number, with its exponent as it is shown: `1.2e06` of `1.2E06`.
    Scientific(ScientificDecimal),
}

/// The value as it is printed, without parts: `-1.2c6`, `-1.2e6`.
///
/// `Error`, only where the sink refused: it took a beginning. Only the sink may allocate. The hint is that of the value.
impl Writeable for ShownNumber {
    ghost use Rattle.std.specs.Prelude.{length};
    ghost use Rattle.writeable.specs.AnnotatedText.{text_of};
    ghost use Rattle.writeable.specs.LengthHint.{IsWithinHint};
    ghost use Rattle.locale_numbers_formatter.specs.HeldShown.{shown_events};

    ghost events = { shown_events };

    fn write_to<S: Sink>(&self, sink: &mut S) -> Result<(), Error> {
        match self {
            ShownNumber::Compact(number) => number.write_to(sink),
            ShownNumber::Scientific(number) => number.write_to(sink),
        }
    }

    fn write_text<S: Sink>(&self, sink: &mut S) -> Result<(), Error> {
        match self {
            ShownNumber::Compact(number) => number.write_text(sink),
            ShownNumber::Scientific(number) => number.write_text(sink),
        }
    }

    fn writeable_length_hint(&self) -> LengthHint
        ensures { IsWithinHint result (length (text_of (shown_events self.now))) }
    {
        match self {
            ShownNumber::Compact(number) => number.writeable_length_hint(),
            ShownNumber::Scientific(number) => number.writeable_length_hint(),
        }
    }
}

/// The value as it is printed: `-1.2c6`, `-1.2e6`. Only the writer may allocate.
impl fmt::Display for ShownNumber {
    ghost use Rattle.std.specs.Prelude.{Some};
    ghost use Rattle.locale_numbers_formatter.specs.FormatText.{shown_text};
    ghost use Rattle.locale_numbers_formatter.specs.HeldShown.{value_held};

    ghost output = { λ number. Some (shown_text (value_held number)) };

    #[tactic(auto, using(writeable::proofs::AnnotatedTextLemmas::text_of_bytes))]
    fn fmt<W: fmt::Write>(&self, f: &mut fmt::Formatter<W>) -> fmt::Result {
        display(self, f)
    }
}
