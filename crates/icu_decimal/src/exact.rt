//! Exact forms: a significand and an exponent that the caller chose.

ghost use Rattle.std.specs.Prelude.{◌≡◌, ◌↔◌, IfErr, IfOk, IsTrue, Some, is_err, is_none};
ghost use Rattle.icu_decimal_compact_value.specs.Choice.{entry_of};
ghost use Rattle.icu_decimal_compact_value.specs.ExactForms.{IsInRange, IsRefused};
ghost use Rattle.icu_decimal_plain.specs.Affixes.{affixes_of};
ghost use Rattle.icu_decimal.specs.ExactText.{exact_formatted, written_under};
ghost use Rattle.icu_decimal.specs.HeldCompact.{compact_tables_of};
ghost use Rattle.icu_decimal.specs.PatternAt.{written_at};

use crate::compact_formatter::CompactDecimalFormatter;
use fixed_decimal::{Decimal, Sign};
use icu_decimal_compact_value::{CompactExponentError, exact_entry, exponent_in_range};
use icu_decimal_patterns::pattern::Interpolated;
use icu_decimal_plain::{FormattedSign, FormattedUnsignedDecimal};

// A value with the affixes that a formatter has for a sign.
fn signed<'l, 'b, T>(
    formatter: &'l CompactDecimalFormatter<'b>,
    sign: Sign,
    value: T,
) -> FormattedSign<'l, T>
    ensures { result
        ≡ record { value = value; affixes = affixes_of (compact_tables_of formatter.now).plain.symbols.strings sign } }
{
    FormattedSign::new(sign, formatter.plain.symbols(), value)
}

impl<'b> CompactDecimalFormatter<'b> {
    // A significand in the pattern beside an entry, or in none.
    fn written_at<'l>(
        &'l self,
        significand: &'l Decimal,
        entry: Option<usize>,
    ) -> FormattedSign<'l, Interpolated<'l, FormattedUnsignedDecimal<'l>>>
        ensures { result ≡ written_at (compact_tables_of self.now) significand.now entry }
    {
        let pattern = self.pattern_at(entry, &significand.absolute);
        let number = self.plain.format_unsigned(&significand.absolute);
        signed(self, significand.sign, Interpolated::new(pattern, number))
    }

    /// A significand in the pattern of the entry at an index, or in none: of -1.20 and that of `M` `-1.20M` in English,
    /// with the parts of the number.
    ///
    /// The digits are written as they are, and the plural is that of these digits. It does not allocate.
    pub fn format_under<'l>(
        &'l self,
        significand: &'l Decimal,
        entry: Option<usize>,
    ) -> FormattedSign<'l, Interpolated<'l, FormattedUnsignedDecimal<'l>>>
        ensures { result
            ≡ written_under (compact_tables_of self.now) significand.now
            (entry_of (compact_tables_of self.now).patterns.entries entry) }
    {
        let _rising = self.patterns.entries(); // for the proof
        self.written_at(significand, entry)
    }

    /// Whether the magnitude of a significand and an exponent together is at most 32767: true of 1.2 and 6, false of
    /// 10^32767 and 1.
    ///
    /// It is the condition of `format_with_exponent`. It does not allocate.
    pub fn exponent_in_range(&self, significand: &Decimal, exponent: u8) -> bool
        ensures { IsTrue result ↔ IsInRange significand.now.absolute.count exponent }
    {
        exponent_in_range(&significand.absolute, exponent)
    }

    /// A significand with an exponent that the caller chose: of -1.20 and 6 `-1.20M` in English, with the parts of the
    /// number.
    ///
    /// The digits are written as they are. `CompactExponentError` exactly where the exponent is not the one that the
    /// formatter has for the magnitude of both together: 1.2 and 5, as it is 3 there. The condition is
    /// `exponent_in_range`. It does not allocate.
    #[tactic(auto, using(crate::proofs::ExactLemmas::refused_is))]
    pub fn format_with_exponent<'l>(
        &'l self,
        significand: &'l Decimal,
        exponent: u8,
    ) -> Result<
        FormattedSign<'l, Interpolated<'l, FormattedUnsignedDecimal<'l>>>,
        CompactExponentError,
    >
        requires { IsInRange significand.now.absolute.count exponent }
        ensures value { IfOk result
            (λ shown. exact_formatted (compact_tables_of self.now) significand.now exponent ≡ Some shown) }
        ensures refused { is_err result
            ≡ is_none (exact_formatted (compact_tables_of self.now) significand.now exponent) }
        ensures err { IfErr result
            (IsRefused (compact_tables_of self.now).patterns.entries significand.now.absolute.count exponent) }
    {
        match exact_entry(&significand.absolute, exponent, self.patterns.entries()) {
            Ok(entry) => Ok(self.written_at(significand, entry)),
            Err(error) => Err(error),
        }
    }
}
