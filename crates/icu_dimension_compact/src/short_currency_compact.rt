//! Tables of compact amounts.

ghost use Rattle.std.specs.Prelude.{◌≡◌, IfErr, IfOk, None, OnOk, option_map};
ghost use Rattle.icu_decimal_compact_value.specs.Choice.{entry_of};
ghost use Rattle.icu_decimal_compact_value.specs.Entries.{Rises};
ghost use Rattle.icu_dimension_compact.specs.AmountTables.{fit_from, fits, patterns_at, patterns_of, rise_from, table_fault};

use crate::error::ShortCurrencyCompactError;
use icu_decimal_compact_value::CompactEntry;
use icu_decimal_patterns::PluralElements;
use icu_dimension_affixes::UnitPatterns;
use std::marker::Model;

/// The patterns of a type, one for each plural: `¤` and `K`. `None` where its amounts are written as plain ones are, as
/// thousands in German.
pub type AmountPatterns = Option<PluralElements<UnitPatterns>>;

/// A table of compact amounts: types with their exponents, and the patterns of each.
///
/// That of English has type 3 with exponent 3, `¤` and `K`, type 6 with exponent 6, `¤` and `M`, and so on. The name is
/// that of ICU4X's data.
#[derive(Debug, Drop)]
pub struct ShortCurrencyCompact {
    entries: Vec<CompactEntry>,
    patterns: Vec<AmountPatterns>,
}

impl Model for ShortCurrencyCompact {
    ghost use Rattle.std.specs.Prelude.{◌≡◌, length};
    ghost use Rattle.icu_decimal_compact_value.specs.Entries.{Rises};
    ghost use Rattle.icu_dimension_compact.specs.AmountTables.{AmountTable};

    ghost Value = { AmountTable };

    ghost view = { λ t. record { entries = t.entries.items; patterns = t.patterns.items } };

    ghost invariant = { λ t. Rises 0 t.entries.items × (length t.entries.items ≡ length t.patterns.items) };
}

// Whether types rise strictly.
fn types_rise(entries: &[CompactEntry]) -> bool
    ensures { result ≡ rise_from 0 entries.now }
{
    let mut least: u16 = 0;
    for entry in entries {
        if (entry.log10_type as u16) < least {
            return false;
        }
        least = entry.log10_type as u16 + 1;
    }
    true
}

// Whether an exponent fits its type.
fn fits(entry: &CompactEntry) -> bool
    ensures { result ≡ fits entry.now }
{
    entry.exponent <= entry.log10_type && entry.log10_type as u16 <= entry.exponent as u16 + 15
}

// Whether exponents fit their types, and none falls.
fn exponents_fit(entries: &[CompactEntry]) -> bool
    ensures { result ≡ fit_from 0 entries.now }
{
    let mut least = 0;
    for entry in entries {
        if entry.exponent < least || !fits(entry) {
            return false;
        }
        least = entry.exponent;
    }
    true
}

// What is wrong with entries and so many patterns.
fn fault_of(
    entries: &[CompactEntry],
    patterns: &[AmountPatterns],
) -> Option<ShortCurrencyCompactError>
    ensures { result ≡ table_fault entries.now patterns.now }
{
    if entries.len() != patterns.len() {
        return Some(ShortCurrencyCompactError::Lengths);
    }
    if !types_rise(entries) {
        return Some(ShortCurrencyCompactError::Types);
    }
    if !exponents_fit(entries) {
        return Some(ShortCurrencyCompactError::Exponents);
    }
    None
}

// The patterns at an index, where some are there.
fn held(patterns: &[AmountPatterns], index: usize) -> Option<&PluralElements<UnitPatterns>>
    ensures { option_map (λ patterns. patterns.now) result ≡ patterns_at patterns.now index }
{
    if index < patterns.len() {
        patterns[index].as_ref()
    } else {
        None
    }
}

impl ShortCurrencyCompact {
    /// The table of these entries with these patterns, in the same order: of type 3 with exponent 3, and `¤` and `K`, the
    /// one by which 1234 dollars are `$1.2K`.
    ///
    /// The first of these that holds is the error: `Lengths`, there are not as many patterns as entries; `Types`, the
    /// types do not rise strictly; `Exponents`, an exponent is below the one before it, above its type, or more than 15
    /// below it. It does not allocate.
    ///
    /// Source: UTS 35, part 3 (numbers), "Compact Number Formats".
    pub fn try_new(
        entries: Vec<CompactEntry>,
        patterns: Vec<AmountPatterns>,
    ) -> Result<Self, ShortCurrencyCompactError>
        ensures succeeds { OnOk result (table_fault entries.items patterns.items ≡ None) }
        ensures fault { IfErr result (λ fault. table_fault entries.items patterns.items ≡ Some fault) }
        ensures value { IfOk result (λ table. table ≡ record { entries = entries.items; patterns = patterns.items }) }
    {
        match fault_of(entries.as_slice(), patterns.as_slice()) {
            Some(fault) => {
                drop((entries, patterns));
                Err(fault)
            }
            None => Ok(ShortCurrencyCompact { entries, patterns }),
        }
    }

    /// The entries, from the least type up, in English those of the types 3, 6, 9 and 12: types rise strictly, and each
    /// exponent is 0 to 15 below its type. It does not allocate.
    pub fn entries(&self) -> &[CompactEntry]
        ensures value { result.now ≡ self.now.entries }
        ensures rising { Rises 0 result.now }
    {
        self.entries.as_slice()
    }

    /// The patterns of the entry at an index, as `show` returns it: `¤` and `K` of `Some(0)` in English.
    ///
    /// `None` of no index, of one without an entry, and where the entry has no patterns. It does not allocate.
    pub fn patterns(&self, index: Option<usize>) -> Option<&PluralElements<UnitPatterns>>
        ensures { option_map (λ patterns. patterns.now) result ≡ patterns_of self.now (entry_of self.now.entries index) }
    {
        match index {
            Some(index) => held(self.patterns.as_slice(), index),
            None => None,
        }
    }
}
