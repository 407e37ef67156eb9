//! A number without a sign, as a formatter writes it.

ghost use Rattle.std.specs.Prelude.{◌≡◌, IfOk, IsOk};
ghost use Rattle.std.specs.Prelude.{◌==◌, nat_eq};
ghost use Rattle.std.specs.Cmp.{partial_equiv_from_equiv};
ghost use Rattle.std.specs.Cmp.Lexicographic.{pointwise};
ghost use Rattle.icu_decimal_plain.specs.BorrowedTables.{borrowed_tables};
ghost use Rattle.icu_decimal_plain.specs.SamePlain.{same_plain, same_plain_equiv, same_tables, strategy_number};

use crate::tables::DecimalTables;
use crate::text_writing::write_unsigned_text;
use crate::writing::{digits_shown, write_unsigned};
use fixed_decimal::UnsignedDecimal;
use icu_decimal_symbols::options::GroupingStrategy;
use std::alloc::AllocError;
use std::fmt;
use std::marker::Model;
use writeable::{Error, LengthHint, Sink, Writeable, display};

/// A number without a sign, as a formatter writes it: `1,234.5` in English. It borrows the number and the tables.
///
/// Its parts are `INTEGER`, `GROUP` inside it, `DECIMAL` and `FRACTION`.
#[derive(Debug, Drop)]
pub struct FormattedUnsignedDecimal<'l> {
    number: &'l UnsignedDecimal,
    tables: &'l DecimalTables<'l>,
}

impl<'l> Model for FormattedUnsignedDecimal<'l> {
    ghost use Rattle.icu_decimal_plain.specs.PlainText.{PlainNumber};

    ghost Value = { PlainNumber };

    ghost use Rattle.icu_decimal_plain.specs.BorrowedTables.{borrowed_tables};

    ghost view = { λ s. record { number = s.number.now; tables = borrowed_tables s.tables.now } };
}

impl<'l> FormattedUnsignedDecimal<'l> {
    // The number with these tables.
    pub(crate) fn new(number: &'l UnsignedDecimal, tables: &'l DecimalTables<'l>) -> Self
        ensures { result ≡ record { number = number.now; tables = borrowed_tables tables.now } }
    {
        FormattedUnsignedDecimal { number, tables }
    }

    /// A copy, with the same borrows: that of `1,234.5` writes `1,234.5`. It does not allocate, and always succeeds.
    pub fn try_clone(&self) -> Result<Self, AllocError>
        ensures succeeds { IsOk result }
        ensures value { IfOk result (λ copy. copy ≡ self.now) }
    {
        self.clone()
    }
}

/// A copy, with the same borrows: that of `1,234.5` writes `1,234.5`. It does not allocate, and always succeeds.
impl<'l> Clone for FormattedUnsignedDecimal<'l> {
    ghost use Rattle.std.specs.Prelude.{◌≡◌, ⊤};

    ghost is_clone = { λ one other. other ≡ one };

    ghost is_infallible = { λ _. ⊤ };

    fn clone(&self) -> Result<Self, AllocError> {
        Ok(FormattedUnsignedDecimal {
            number: self.number,
            tables: self.tables,
        })
    }
}

/// The digits in groups with their parts: `1,234.5` in English.
///
/// `Error`, only where the sink refused: it has taken a beginning. Writing allocates only what the sink does. The hint
/// is at least a byte for each digit shown, of `1,234.5` at least 5; it does not allocate.
impl<'l> Writeable for FormattedUnsignedDecimal<'l> {
    ghost use Rattle.std.specs.Prelude.{◌≡◌, ◌+◌, ◌-◌, length};
    ghost use Rattle.writeable.specs.AnnotatedText.{text_of};
    ghost use Rattle.writeable.specs.LengthHint.{IsWithinHint};
    ghost use Rattle.icu_decimal_plain.specs.PlainText.{unsigned_events};

    ghost events = { unsigned_events };

    fn write_to<S: Sink>(&self, sink: &mut S) -> Result<(), Error> {
        write_unsigned(self.tables, self.number, sink)
    }

    #[tactic(auto, using(crate::proofs::TextLemmas::unsigned_is_text))]
    fn write_text<S: Sink>(&self, sink: &mut S) -> Result<(), Error> {
        write_unsigned_text(self.tables, self.number, sink)
    }

    #[tactic(auto, using(crate::proofs::HintLemmas::unsigned_is_long))]
    fn writeable_length_hint(&self) -> LengthHint
        ensures within { IsWithinHint result (length (text_of (unsigned_events self.now))) }
        ensures low { result.low ≡ (self.now.number.high - 32767) + (32768 - self.now.number.low) }
    {
        LengthHint::at_least(digits_shown(self.number))
    }
}

/// The same text, without its parts: `1,234.5`. It allocates only what the writer does.
impl<'l> fmt::Display for FormattedUnsignedDecimal<'l> {
    ghost use Rattle.std.specs.Prelude.{Some};
    ghost use Rattle.icu_decimal_plain.specs.PlainText.{unsigned_text};

    ghost output = { λ p. Some (unsigned_text p.tables p.number) };

    #[tactic(auto, using(crate::proofs::TextLemmas::unsigned_is_text))]
    fn fmt<W: fmt::Write>(&self, f: &mut fmt::Formatter<W>) -> fmt::Result {
        display(self, f)
    }
}

// Whether the digits are the same.
fn have_same_digits(one: &[char; 10], other: &[char; 10]) -> bool
    ensures { result ≡ pointwise nat_eq one.now other.now }
{
    one == other
}

// Whether two strategies are one.
fn is_same_strategy(one: GroupingStrategy, other: GroupingStrategy) -> bool
    ensures { result ≡ (strategy_number one == strategy_number other) }
{
    match one {
        GroupingStrategy::Auto => matches!(other, GroupingStrategy::Auto),
        GroupingStrategy::Never => matches!(other, GroupingStrategy::Never),
        GroupingStrategy::Always => matches!(other, GroupingStrategy::Always),
        GroupingStrategy::Min2 => matches!(other, GroupingStrategy::Min2),
        GroupingStrategy::OnAligned => matches!(other, GroupingStrategy::OnAligned),
    }
}

// Whether the tables are equal.
fn are_same_tables(one: &DecimalTables<'_>, other: &DecimalTables<'_>) -> bool
    ensures { result ≡ same_tables (borrowed_tables one.now) (borrowed_tables other.now) }
{
    *one.symbols.symbols == *other.symbols.symbols
        && (have_same_digits(one.digits.chars, other.digits.chars)
            && is_same_strategy(one.strategy, other.strategy))
}

/// Equal where the numbers are, and the tables: `0.5` and `0.50` are not.
impl<'l> PartialEq for FormattedUnsignedDecimal<'l> {
    ghost eq = { same_plain };

    ghost laws = { partial_equiv_from_equiv same_plain_equiv };

    fn eq(&self, other: &Self) -> bool {
        *self.number == *other.number && are_same_tables(self.tables, other.tables)
    }
}

impl<'l> Eq for FormattedUnsignedDecimal<'l> {
    ghost laws = { same_plain_equiv };
}
