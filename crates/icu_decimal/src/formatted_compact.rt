//! A number without a sign, as a compact formatter writes it.

ghost use Rattle.std.specs.Prelude.{◌≡◌, option_map};
ghost use Rattle.icu_decimal_plurals.specs.Operands.{operands_of};
ghost use Rattle.icu_decimal.specs.HeldTables.{tables_of};

use crate::formatter::DecimalFormatter;
use crate::text_alone::TextAlone;
use fixed_decimal::UnsignedDecimal;
use icu_decimal_patterns::pattern::{Interpolated, Pattern};
use icu_decimal_plain::FormattedUnsignedDecimal;
use icu_decimal_plurals::PluralOperands;
use std::fmt;
use std::marker::Model;
use writeable::{Error, LengthHint, Sink, Writeable, display};

/// A number without a sign, as a compact formatter writes it: `1.6K` of 1650 in English. It owns the number shown, and
/// borrows the tables.
///
/// It has no parts.
#[derive(Debug, Drop)]
pub struct FormattedUnsignedCompactDecimal<'l> {
    number: UnsignedDecimal,
    exponent: u8,
    pattern: Option<&'l Pattern>,
    plain: &'l DecimalFormatter<'l>,
}

impl<'l> Model for FormattedUnsignedCompactDecimal<'l> {
    ghost use Rattle.std.specs.Prelude.{option_map};
    ghost use Rattle.icu_decimal.specs.CompactText.{CompactNumber};

    ghost Value = { CompactNumber };

    ghost use Rattle.icu_decimal.specs.HeldTables.{tables_of};

    ghost view = { λ s. record {
      plain = record { number = s.number; tables = tables_of s.plain.now };
      exponent = s.exponent;
      pattern = option_map (λ p. p.now) s.pattern;
    } };
}

impl<'l> FormattedUnsignedCompactDecimal<'l> {
    // A significand and an exponent in this pattern, or in none.
    pub(crate) fn new(
        significand: UnsignedDecimal,
        exponent: u8,
        pattern: Option<&'l Pattern>,
        plain: &'l DecimalFormatter<'l>,
    ) -> Self
        ensures { result
            ≡ record {
              plain = record { number = significand; tables = tables_of plain.now };
              exponent = exponent;
              pattern =
                  option_map (λ p. p.now) pattern.entry;
            } }
    {
        FormattedUnsignedCompactDecimal {
            number: significand,
            exponent,
            pattern,
            plain,
        }
    }

    /// The number in the pattern: 1.6 of `1.6K`. It does not allocate.
    pub fn significand(&self) -> &UnsignedDecimal
        ensures { result.now ≡ self.now.plain.number }
    {
        &self.number
    }

    /// The power of ten that the pattern stands for: 3 of `1.6K`, and 0 without a pattern. It does not allocate.
    pub fn exponent(&self) -> u8
        ensures { result ≡ self.now.exponent }
    {
        self.exponent
    }

    // The plural operands of the number with that exponent.
    pub(crate) fn operands(&self) -> PluralOperands
        ensures { result ≡ operands_of self.now.plain.number self.now.exponent }
    {
        PluralOperands::from_significand_and_exponent(self.significand(), self.exponent())
    }
}

// A number in a pattern, without its parts.
pub(crate) fn in_pattern<'v>(
    pattern: Option<&'v Pattern>,
    number: &'v FormattedUnsignedDecimal<'v>,
) -> Interpolated<'v, TextAlone<'v, FormattedUnsignedDecimal<'v>>>
    ensures { result ≡ record { pattern = option_map (λ p. p.now) pattern.entry; value = number.now } }
{
    Interpolated::new(pattern, TextAlone::new(number))
}

/// The digits in groups, in the pattern: `1.6K`. No part is opened.
impl<'l> Writeable for FormattedUnsignedCompactDecimal<'l> {
    ghost use Rattle.std.specs.Prelude.{length};
    ghost use Rattle.writeable.specs.AnnotatedText.{text_of};
    ghost use Rattle.writeable.specs.LengthHint.{IsWithinHint};
    ghost use Rattle.icu_decimal.specs.CompactText.{compact_events};

    ghost events = { compact_events };

    #[tactic(auto, using(crate::proofs::CompactTextLemmas::text_in_pattern))]
    fn write_to<S: Sink>(&self, sink: &mut S) -> Result<(), Error> {
        let number = self.plain.format_unsigned(&self.number);
        in_pattern(self.pattern, &number).write_to(sink)
    }

    #[tactic(auto, using(crate::proofs::CompactTextLemmas::text_in_pattern))]
    fn writeable_length_hint(&self) -> LengthHint
        ensures { IsWithinHint result (length (text_of (compact_events self.now))) }
    {
        let number = self.plain.format_unsigned(&self.number);
        in_pattern(self.pattern, &number).writeable_length_hint()
    }
}

/// The same text: `1.6K`.
impl<'l> fmt::Display for FormattedUnsignedCompactDecimal<'l> {
    ghost use Rattle.std.specs.Prelude.{Some};
    ghost use Rattle.icu_decimal.specs.CompactText.{compact_text};

    ghost output = { λ c. Some (compact_text c) };

    #[tactic(auto, using(writeable::proofs::AnnotatedTextLemmas::text_of_bytes))]
    fn fmt<W: fmt::Write>(&self, f: &mut fmt::Formatter<W>) -> fmt::Result {
        display(self, f)
    }
}
