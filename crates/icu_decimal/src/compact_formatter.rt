//! A formatter of compact decimals.

ghost use Rattle.std.specs.Prelude.{◌≡◌, ◌↔◌, IfOk, IsTrue, OnErr, option_map, string_bytes};
ghost use Rattle.std.specs.Option.{option_and_then};
ghost use Rattle.std.specs.Result.{result_map_both};
ghost use Rattle.icu_decimal_chains.specs.Chains.{chain};
ghost use Rattle.fixed_decimal.specs.Number.{place};
ghost use Rattle.fixed_decimal.specs.Range.{IsLong};
ghost use Rattle.icu_decimal_patterns.specs.Elements.{slot_of};
ghost use Rattle.icu_decimal_plurals.specs.Operands.{operands_of};
ghost use Rattle.icu_decimal_compact_value.specs.Choice.{CanShow, entry_at, exponent_of};
ghost use Rattle.icu_decimal.specs.HeldTables.{tables_of};
ghost use Rattle.icu_decimal.specs.CompactText.{compact_decimal_text, compact_formatted, compact_of};
ghost use Rattle.icu_decimal.specs.FoundCompactTables.{found_compact_tables};
ghost use Rattle.icu_decimal.specs.HeldCompact.{compact_tables_of};
ghost use Rattle.icu_decimal.specs.PatternAt.{pattern_at, patterns_beside};

use crate::formatted_compact::FormattedUnsignedCompactDecimal;
use crate::formatter::DecimalFormatter;
use crate::loading::{load_plain, load_rules};
use crate::preferences::CompactDecimalFormatterPreferences;
use crate::provider::{
    DataProvider, DecimalDigitsV1, DecimalSymbolsV1, ParentProvider, load_by_locale,
};
use fixed_decimal::{Decimal, UnsignedDecimal};
use icu_decimal_compact_value::{can_show, exponent_for_magnitude, show};
use icu_decimal_patterns::pattern::Pattern;
use icu_decimal_patterns::{
    CompactPatterns, DecimalCompactLongV1, DecimalCompactShortV1, PluralElements,
};
use icu_decimal_plain::FormattedSign;
use icu_decimal_plurals::{PluralOperands, PluralRules, PluralsCardinalV1};
use icu_decimal_symbols::DataError;
use icu_decimal_symbols::options::CompactDecimalFormatterOptions;
use std::alloc::{AllocError, Global};
use writeable::Writeable;

/// A formatter of compact decimals: what a plain one has, plural rules, and a table of patterns. It borrows its tables.
///
/// That of `en` in short form writes -1172700 as `-1.2M`. After ICU4X's `CompactDecimalFormatter`.
#[derive(Clone, Copy, Debug)]
pub struct CompactDecimalFormatter<'b> {
    pub(crate) plain: DecimalFormatter<'b>,
    pub(crate) rules: &'b PluralRules,
    pub(crate) patterns: &'b CompactPatterns,
}

// The pattern of a number that is shown as this significand. Its plural is asked for only where there is more than one
// pattern.
fn pattern_for<'b>(
    patterns: &'b PluralElements<Pattern>,
    significand: &UnsignedDecimal,
    rules: &PluralRules,
) -> &'b Pattern
    ensures { result.now ≡ slot_of patterns.now rules.now (operands_of significand.now 0) }
{
    match patterns.other_alone() {
        Some(pattern) => pattern,
        None => {
            let operands = PluralOperands::from_significand_and_exponent(significand, 0);
            patterns.get(&operands, rules)
        }
    }
}

impl<'b> CompactDecimalFormatter<'b> {
    /// The formatter of these preferences and options that writes in short form, `1.6K` in English, with tables of the
    /// provider.
    ///
    /// It loads symbols, digits, plural rules and patterns, in this order, and asks for nothing after an error. Errors
    /// as `load_by_chain`, the first of them. It does not allocate.
    pub fn try_new_short_unstable<P>(
        provider: &'b P,
        preferences: CompactDecimalFormatterPreferences,
        options: CompactDecimalFormatterOptions,
    ) -> Result<Self, DataError>
    where
        P: DataProvider<DecimalSymbolsV1>
            + DataProvider<DecimalDigitsV1>
            + DataProvider<PluralsCardinalV1>
            + DataProvider<DecimalCompactShortV1>
            + ParentProvider,
        ensures { result_map_both compact_tables_of (λ error. error) result ≡ found_compact_tables
            (chain (P.next provider.now) (P.limit provider.now))
            (λ id. ⟦<P as DataProvider<DecimalSymbolsV1>>⟧.table provider.now id)
            (λ id. ⟦<P as DataProvider<DecimalDigitsV1>>⟧.table provider.now id)
            (λ id. ⟦<P as DataProvider<PluralsCardinalV1>>⟧.table provider.now id)
            (λ id. ⟦<P as DataProvider<DecimalCompactShortV1>>⟧.table provider.now id)
            preferences options.grouping_strategy }
    {
        let plain = load_plain(provider, &preferences, options)?;
        let rules = load_rules(provider, &preferences)?;
        let patterns = load_by_locale::<DecimalCompactShortV1, P>(provider, &preferences)?;
        Ok(Self::from_tables(plain, rules, patterns))
    }

    /// The same in long form: `1.6 thousand` in English. It does not allocate.
    pub fn try_new_long_unstable<P>(
        provider: &'b P,
        preferences: CompactDecimalFormatterPreferences,
        options: CompactDecimalFormatterOptions,
    ) -> Result<Self, DataError>
    where
        P: DataProvider<DecimalSymbolsV1>
            + DataProvider<DecimalDigitsV1>
            + DataProvider<PluralsCardinalV1>
            + DataProvider<DecimalCompactLongV1>
            + ParentProvider,
        ensures { result_map_both compact_tables_of (λ error. error) result ≡ found_compact_tables
            (chain (P.next provider.now) (P.limit provider.now))
            (λ id. ⟦<P as DataProvider<DecimalSymbolsV1>>⟧.table provider.now id)
            (λ id. ⟦<P as DataProvider<DecimalDigitsV1>>⟧.table provider.now id)
            (λ id. ⟦<P as DataProvider<PluralsCardinalV1>>⟧.table provider.now id)
            (λ id. ⟦<P as DataProvider<DecimalCompactLongV1>>⟧.table provider.now id)
            preferences options.grouping_strategy }
    {
        let plain = load_plain(provider, &preferences, options)?;
        let rules = load_rules(provider, &preferences)?;
        let patterns = load_by_locale::<DecimalCompactLongV1, P>(provider, &preferences)?;
        Ok(Self::from_tables(plain, rules, patterns))
    }

    /// The formatter of tables that the caller has: a plain formatter, plural rules, and a table of patterns.
    ///
    /// With the plain formatter and the rules of `en`, and with `K` at type 3, it writes 1650 as `1.6K`. It does not
    /// allocate.
    pub fn from_tables(
        plain: DecimalFormatter<'b>,
        rules: &'b PluralRules,
        patterns: &'b CompactPatterns,
    ) -> Self
        ensures value { compact_tables_of result
            ≡ record { plain = tables_of plain.entry; rules = rules.now; patterns = patterns.now } }
    {
        CompactDecimalFormatter {
            plain,
            rules,
            patterns,
        }
    }

    /// The plain formatter that writes the digits shown: of that of `en` the one that writes 1650 as `1,650`. It does
    /// not allocate.
    pub fn plain(&self) -> &DecimalFormatter<'b>
        ensures { tables_of result.now ≡ (compact_tables_of self.now).plain }
    {
        &self.plain
    }

    /// The plural rules: of `en` those with `i = 1 and v = 0` for `one`. It does not allocate.
    pub fn rules(&self) -> &'b PluralRules
        ensures { result.now ≡ (compact_tables_of self.now).rules }
    {
        self.rules
    }

    /// The table of patterns: of `en` in short form that with `K` at type 3. It does not allocate.
    pub fn patterns(&self) -> &'b CompactPatterns
        ensures { result.now ≡ (compact_tables_of self.now).patterns }
    {
        self.patterns
    }

    // The patterns beside the entry of an index.
    fn patterns_at(&self, index: Option<usize>) -> Option<&'b PluralElements<Pattern>>
        ensures { option_map (λ p. p.now) result
            ≡ option_and_then (patterns_beside (compact_tables_of self.now).patterns) index }
    {
        let place = index?;
        if place < self.patterns.entries().len() {
            Some(self.patterns.elements(place))
        } else {
            None
        }
    }

    // The pattern beside the entry of an index, for a number that is shown as this significand.
    pub(crate) fn pattern_at(
        &self,
        index: Option<usize>,
        significand: &UnsignedDecimal,
    ) -> Option<&'b Pattern>
        ensures { option_map (λ p. p.now) result
            ≡ pattern_at (compact_tables_of self.now) index (operands_of significand.now 0) }
    {
        match self.patterns_at(index) {
            Some(patterns) => Some(pattern_for(patterns, significand, self.rules)),
            None => None,
        }
    }

    /// Whether what the number is shown as is a decimal: false in English of 32,768 nines, as they are rounded to
    /// 10^32768.
    ///
    /// A decimal with its sign is asked by `can_format`. It does not allocate.
    pub fn can_show(&self, value: &UnsignedDecimal) -> bool
        ensures { IsTrue result ↔ CanShow (compact_tables_of self.now).patterns.entries value.now.count }
    {
        can_show(value, self.patterns.entries())
    }

    /// Whether the decimal can be formatted, whatever its sign: true in English of -1172700, false of 32,768 nines, as
    /// what they are rounded to, 10^32768, is no decimal.
    ///
    /// It is the condition of `format` and `format_to_string`. It does not allocate.
    pub fn can_format(&self, value: &Decimal) -> bool
        ensures { IsTrue result ↔ CanShow (compact_tables_of self.now).patterns.entries value.now.absolute.count }
    {
        self.can_show(&value.absolute)
    }

    // What a number without a sign is written as.
    pub(crate) fn shown<'l>(
        &'l self,
        number: &UnsignedDecimal,
    ) -> Result<FormattedUnsignedCompactDecimal<'l>, AllocError>
        requires { CanShow (compact_tables_of self.now).patterns.entries number.now.count }
        ensures value { IfOk result (λ shown. shown ≡ compact_of (compact_tables_of self.now) number.now) }
        ensures room { OnErr result (IsLong number.now.count) }
    {
        let shown = show(number, self.patterns.entries())?;
        let pattern = self.pattern_at(shown.entry, &shown.significand);
        Ok(FormattedUnsignedCompactDecimal::new(
            shown.significand,
            shown.exponent,
            pattern,
            &self.plain,
        ))
    }

    /// The decimal as this formatter writes it: -1172700 as `-1.2M` in English.
    ///
    /// The condition is `can_format`. It allocates where the number has more than sixteen digits, from the first to the
    /// last one that is not zero. `AllocError`: out of memory, only there.
    pub fn format<'l>(
        &'l self,
        value: &Decimal,
    ) -> Result<FormattedSign<'l, FormattedUnsignedCompactDecimal<'l>>, AllocError>
        requires { CanShow (compact_tables_of self.now).patterns.entries value.now.absolute.count }
        ensures value { IfOk result (λ shown. shown ≡ compact_formatted (compact_tables_of self.now) value.now) }
        ensures room { OnErr result (IsLong value.now.absolute.count) }
    {
        let number = self.shown(&value.absolute)?;
        Ok(FormattedSign::new(value.sign, self.plain.symbols(), number))
    }

    /// The text of the decimal: -1172700 gives `-1.2M` in English.
    ///
    /// The condition is `can_format`. It allocates. `AllocError`: out of memory.
    pub fn format_to_string(&self, alloc: Global, value: &Decimal) -> Result<String, AllocError>
        requires { CanShow (compact_tables_of self.now).patterns.entries value.now.absolute.count }
        ensures { IfOk result
            (λ text. string_bytes text ≡ compact_decimal_text (compact_tables_of self.now) value.now) }
    {
        self.format(value)?.write_to_string(alloc)
    }

    /// The exponent that numbers of a magnitude are shown with: in English 3 for 5, and 0 for 2. It does not allocate.
    pub fn compact_exponent_for_magnitude(&self, magnitude: i16) -> u8
        ensures { result
            ≡ exponent_of (entry_at 32768 (compact_tables_of self.now).patterns.entries (place magnitude)) }
    {
        exponent_for_magnitude(magnitude, self.patterns.entries())
    }
}
