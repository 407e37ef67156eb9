//! What compact amounts are written with.

ghost use Rattle.std.specs.Prelude.{◌≡◌, ◌↔◌, IfOk, IsTrue, OnErr, string_bytes};
ghost use Rattle.fixed_decimal.specs.Range.{IsLong};
ghost use Rattle.icu_decimal_compact_value.specs.Choice.{CanShow, entry_of};
ghost use Rattle.icu_decimal_patterns.specs.Elements.{slot_of};
ghost use Rattle.icu_decimal_plurals.specs.Operands.{operands_of};
ghost use Rattle.icu_dimension_affixes.specs.HeldUnits.{settings_of};
ghost use Rattle.icu_dimension_compact.specs.CompactAmounts.{amount_of, compact_amount_text, settings_under};
ghost use Rattle.icu_dimension_compact.specs.HeldAmounts.{amounts_of};

use crate::formatted::FormattedCompactCurrency;
use crate::short_currency_compact::ShortCurrencyCompact;
use fixed_decimal::{Decimal, UnsignedDecimal};
use icu_decimal_compact_value::{can_show, show};
use icu_decimal_patterns::PluralElements;
use icu_decimal_plurals::{PluralOperands, PluralRules};
use icu_dimension_affixes::{LetterEnds, UnitPatterns, UnitTables};
use std::alloc::{AllocError, Global};
use writeable::Writeable;

/// What compact amounts are written with, all of it borrowed: what plain amounts of the currency are written with, which
/// ends of its symbol are letters, plural rules, and a table.
///
/// With those of English and `$`, -1234567 is written as `-$1.2M`. After ICU4X's `CompactCurrencyFormatter`.
#[derive(Clone, Copy, Debug)]
pub struct CompactCurrencyTables<'b> {
    plain: UnitTables<'b>,
    ends: LetterEnds,
    rules: &'b PluralRules,
    table: &'b ShortCurrencyCompact,
}

// The patterns for a number that is shown as this significand. Its plural is asked for only where there is more than one.
fn patterns_for<'b>(
    patterns: &'b PluralElements<UnitPatterns>,
    significand: &UnsignedDecimal,
    rules: &PluralRules,
) -> &'b UnitPatterns
    ensures { result.now ≡ slot_of patterns.now rules.now (operands_of significand.now 0) }
{
    match patterns.other_alone() {
        Some(alone) => alone,
        None => {
            let operands = PluralOperands::from_significand_and_exponent(significand, 0);
            patterns.get(&operands, rules)
        }
    }
}

impl<'b> CompactCurrencyTables<'b> {
    /// These tables of plain amounts, these ends of their unit, these rules and this table: those of English and `$` write
    /// 1234 as `$1.2K`. It does not allocate.
    ///
    /// The pattern of plain amounts is that of a number below the first type, as of 5, and of a type without patterns; in
    /// accounting it is that of accounts: `($5)`.
    pub fn new(
        plain: UnitTables<'b>,
        ends: LetterEnds,
        rules: &'b PluralRules,
        table: &'b ShortCurrencyCompact,
    ) -> Self
        ensures { amounts_of result
            ≡ record { plain = settings_of plain.entry; ends = ends; rules = rules.now; table = table.now } }
    {
        CompactCurrencyTables {
            plain,
            ends,
            rules,
            table,
        }
    }

    /// The tables of plain amounts: those of English and `$`. It does not allocate.
    pub fn plain(&self) -> UnitTables<'b>
        ensures { settings_of result ≡ (amounts_of self.now).plain }
    {
        self.plain
    }

    /// The table: that of English. It does not allocate.
    pub fn table(&self) -> &'b ShortCurrencyCompact
        ensures { result.now ≡ (amounts_of self.now).table }
    {
        self.table
    }

    /// What a number is written with that is shown as this significand under the entry at an index, or under none: in
    /// English under `Some(1)` with `¤` and `M`, so that 1.20 is `$1.20M`.
    ///
    /// The plural is that of the significand, without an exponent. Where the type has no patterns, and under none, it is
    /// the pattern of plain amounts. It does not allocate.
    pub fn under(&self, entry: Option<usize>, significand: &UnsignedDecimal) -> UnitTables<'b>
        ensures { settings_of result ≡ settings_under (amounts_of self.now)
            (entry_of (amounts_of self.now).table.entries entry) (operands_of significand.now 0) }
    {
        match self.table.patterns(entry) {
            Some(patterns) => {
                let chosen = patterns_for(patterns, significand, self.rules);
                let pattern = chosen.for_ends(self.ends);
                UnitTables::new(self.plain.decimals(), pattern, self.plain.unit())
            }
            None => self.plain,
        }
    }

    /// Whether the amount can be formatted, whatever its sign: true in English of -1172700, false of 32,768 nines, as
    /// what they are rounded to, 10^32768, is no decimal.
    ///
    /// It is the condition of `format` and `format_to_string`. It does not allocate.
    pub fn can_format(&self, value: &Decimal) -> bool
        ensures { IsTrue result ↔ CanShow (amounts_of self.now).table.entries value.now.absolute.count }
    {
        can_show(&value.absolute, self.table.entries())
    }

    /// The amount as it is written: -1234567 as `-$1.2M` in English with `$`.
    ///
    /// The condition is `can_format`. The digits of the currency are not looked at. It allocates where the number has
    /// more than sixteen digits, from the first to the last one that is not zero. `AllocError`: out of memory, only
    /// there. What is given borrows what these tables borrow, and not the tables.
    pub fn format(&self, value: &Decimal) -> Result<FormattedCompactCurrency<'b>, AllocError>
        requires { CanShow (amounts_of self.now).table.entries value.now.absolute.count }
        ensures value { IfOk result (λ shown. shown ≡ amount_of (amounts_of self.now) value.now) }
        ensures room { OnErr result (IsLong value.now.absolute.count) }
    {
        let shown = show(&value.absolute, self.table.entries())?;
        let tables = self.under(shown.entry, &shown.significand);
        let significand = Decimal {
            sign: value.sign,
            absolute: shown.significand,
        };
        Ok(FormattedCompactCurrency::new(significand, shown.exponent, tables))
    }

    /// The text of the amount: -1234567 gives `-$1.2M` in English with `$`.
    ///
    /// The condition is `can_format`. It allocates. `AllocError`: out of memory.
    pub fn format_to_string(&self, alloc: Global, value: &Decimal) -> Result<String, AllocError>
        requires { CanShow (amounts_of self.now).table.entries value.now.absolute.count }
        ensures { IfOk result (λ text. string_bytes text ≡ compact_amount_text (amounts_of self.now) value.now) }
    {
        self.format(value)?.write_to_string(alloc)
    }
}
