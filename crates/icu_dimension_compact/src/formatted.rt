//! A compact amount as it is written.

ghost use Rattle.std.specs.Prelude.{◌≡◌};
ghost use Rattle.icu_dimension_affixes.specs.HeldUnits.{settings_of};

use fixed_decimal::Decimal;
use icu_dimension_affixes::UnitTables;
use std::fmt;
use std::marker::Model;
use writeable::{Error, LengthHint, Sink, Writeable, display};

/// A compact amount as it is written: `-$1.2M` of -1234567. It owns the significand, and borrows the rest.
///
/// It has the parts of its significand and of its unit: of `-$1.2M` the sign, `$`, `1`, `.` and `2`. The name is ICU4X's.
#[derive(Debug, Drop)]
pub struct FormattedCompactCurrency<'b> {
    significand: Decimal,
    exponent: u8,
    tables: UnitTables<'b>,
}

impl<'b> Model for FormattedCompactCurrency<'b> {
    ghost use Rattle.icu_dimension_affixes.specs.HeldUnits.{settings_of};
    ghost use Rattle.icu_dimension_compact.specs.CompactAmounts.{ShownAmount};

    ghost Value = { ShownAmount };

    ghost view = { λ a. record {
      value = record { significand = a.significand; exponent = a.exponent };
      settings = settings_of a.tables;
    } };
}

impl<'b> FormattedCompactCurrency<'b> {
    // A significand and an exponent, written with these tables.
    pub(crate) fn new(significand: Decimal, exponent: u8, tables: UnitTables<'b>) -> Self
        ensures { result ≡ record {
          value = record { significand = significand; exponent = exponent };
          settings = settings_of tables.entry;
        } }
    {
        FormattedCompactCurrency {
            significand,
            exponent,
            tables,
        }
    }

    /// The number in the pattern, with its sign: -1.2 of `-$1.2M`. It does not allocate.
    pub fn significand(&self) -> &Decimal
        ensures { result.now ≡ self.now.value.significand }
    {
        &self.significand
    }

    /// The power of ten that the pattern stands for: 6 of `-$1.2M`, and 0 without a pattern. It does not allocate.
    pub fn exponent(&self) -> u8
        ensures { result ≡ self.now.value.exponent }
    {
        self.exponent
    }
}

/// The amount: `-$1.2M`, of which `$` is the part `CURRENCY`.
///
/// `Error`, only where the sink refused: it has taken a beginning. Writing allocates only what the sink does.
impl<'b> Writeable for FormattedCompactCurrency<'b> {
    ghost use Rattle.std.specs.Prelude.{length};
    ghost use Rattle.writeable.specs.AnnotatedText.{text_of};
    ghost use Rattle.writeable.specs.LengthHint.{IsWithinHint};
    ghost use Rattle.icu_dimension_compact.specs.CompactAmounts.{amount_events};

    ghost events = { amount_events };

    fn write_to<S: Sink>(&self, sink: &mut S) -> Result<(), Error> {
        self.tables.format(&self.significand).write_to(sink)
    }

    fn write_text<S: Sink>(&self, sink: &mut S) -> Result<(), Error> {
        self.tables.format(&self.significand).write_text(sink)
    }

    fn writeable_length_hint(&self) -> LengthHint
        ensures { IsWithinHint result (length (text_of (amount_events self.now))) }
    {
        self.tables
            .format(&self.significand)
            .writeable_length_hint()
    }
}

/// The same text, without its parts: `-$1.2M`. It allocates only what the writer does.
impl<'b> fmt::Display for FormattedCompactCurrency<'b> {
    ghost use Rattle.std.specs.Prelude.{Some};
    ghost use Rattle.writeable.specs.AnnotatedText.{text_of};
    ghost use Rattle.icu_dimension_compact.specs.CompactAmounts.{amount_events};

    ghost output = { λ a. Some (text_of (amount_events a)) };

    fn fmt<W: fmt::Write>(&self, f: &mut fmt::Formatter<W>) -> fmt::Result {
        display(self, f)
    }
}
