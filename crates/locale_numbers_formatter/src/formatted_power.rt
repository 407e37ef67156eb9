//! A scientific number that was formatted.

ghost use Rattle.std.specs.Prelude.{◌≡◌};
ghost use Rattle.icu_decimal_scientific.specs.ExponentialText.{scientific_formatted};
ghost use Rattle.icu_decimal_scientific.specs.HeldTables.{settings_of};

use fixed_decimal::Decimal;
use icu_decimal_scientific::ScientificTables;
use std::marker::Model;
use writeable::{Error, LengthHint, Sink, Writeable};

/// A number as a formatter of scientific numbers writes it: `-1.23E3` of -1234 in English. It owns the significand and the
/// exponent, and borrows the tables.
#[derive(Debug, Drop)]
pub struct FormattedPower<'l> {
    tables: &'l ScientificTables<'l>,
    significand: Decimal,
    exponent: Decimal,
}

impl<'l> Model for FormattedPower<'l> {
    ghost use Rattle.icu_decimal.specs.Affixes.{WithSign};
    ghost use Rattle.icu_decimal_scientific.specs.ExponentialText.{Exponential};

    ghost Value = { WithSign Exponential };

    ghost use Rattle.icu_decimal_scientific.specs.ExponentialText.{scientific_formatted};
    ghost use Rattle.icu_decimal_scientific.specs.HeldTables.{settings_of};

    ghost view = { λ p. scientific_formatted (settings_of p.tables.now)
        (record { significand = p.significand; exponent = p.exponent }) };
}

impl<'l> FormattedPower<'l> {
    // A significand with its exponent.
    pub(crate) fn new(
        tables: &'l ScientificTables<'l>,
        significand: Decimal,
        exponent: Decimal,
    ) -> Self
        ensures { result ≡ scientific_formatted (settings_of tables.now)
            (record { significand = significand; exponent = exponent }) }
    {
        FormattedPower {
            tables,
            significand,
            exponent,
        }
    }
}

/// What the formatter writes for the number, with its parts: `-1.23E3`.
///
/// `Error`, only where the sink refused: it took a beginning. Only the sink may allocate. The hint is that of the number.
impl<'l> Writeable for FormattedPower<'l> {
    ghost use Rattle.std.specs.Prelude.{length};
    ghost use Rattle.writeable.specs.AnnotatedText.{text_of};
    ghost use Rattle.writeable.specs.LengthHint.{IsWithinHint};
    ghost use Rattle.icu_decimal_scientific.specs.ExponentialText.{scientific_events};

    ghost events = { scientific_events };

    fn write_to<S: Sink>(&self, sink: &mut S) -> Result<(), Error> {
        self.tables
            .format_parts(&self.significand, &self.exponent)
            .write_to(sink)
    }

    fn write_text<S: Sink>(&self, sink: &mut S) -> Result<(), Error> {
        self.tables
            .format_parts(&self.significand, &self.exponent)
            .write_text(sink)
    }

    fn writeable_length_hint(&self) -> LengthHint
        ensures { IsWithinHint result (length (text_of (scientific_events self.now))) }
    {
        self.tables
            .format_parts(&self.significand, &self.exponent)
            .writeable_length_hint()
    }
}
