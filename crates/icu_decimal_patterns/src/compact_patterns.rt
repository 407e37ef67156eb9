//! Tables of compact writing.

ghost use Rattle.std.specs.Prelude.{◌≡◌, ◌≢◌, ◌↔◌, ◌<◌, [], IfErr, IfOk, IsErrOf, None, OnErr, Some, length, map, option_map};
ghost use Rattle.std.specs.List.{slice_get};
ghost use Rattle.std.specs.Cmp.{partial_equiv_from_equiv};
ghost use Rattle.icu_decimal_compact_value.specs.Entries.{Rises};
ghost use Rattle.icu_decimal_patterns.specs.SameTable.{same_table, same_table_equiv};
ghost use Rattle.icu_decimal_patterns.specs.KeptEntries.{IsFaulty, IsTable, IsTableFault, MakesEntries, NeverFalls, first_fault, of_type, table_of};
ghost use Rattle.icu_decimal_patterns.specs.KeptSteps.{TypesRise, base_after, base_of, kept_of};
ghost use Rattle.icu_decimal_symbols.specs.declared.error.DataError.{DataError};

use crate::elements::PluralElements;
use crate::kept::{Base, GivenTypes, first_fault, never_falls};
use crate::pattern::Pattern;
use icu_decimal_compact_value::CompactEntry;
use icu_decimal_symbols::error::DataError;
use std::alloc::{AllocError, Global};
use std::collections::BTreeMap;
use std::marker::Model;

/// A table of compact writing: which patterns numbers are written in, by their magnitude.
///
/// That of English in short form has type 3 with exponent 3 and `K`, type 6 with exponent 6 and `M`, and so on.
/// After ICU4X's `CompactPatterns`.
#[derive(Debug, Drop)]
pub struct CompactPatterns {
    pub(crate) entries: Vec<CompactEntry>,
    pub(crate) patterns: Vec<PluralElements<Pattern>>,
}

impl Model for CompactPatterns {
    ghost use Rattle.std.specs.Prelude.{◌≡◌, length};
    ghost use Rattle.icu_decimal_compact_value.specs.Entries.{Rises};
    ghost use Rattle.icu_decimal_patterns.specs.KeptEntries.{CompactTable, IsOwnTable};

    ghost Value = { CompactTable };

    ghost view = { λ a. record { entries = a.entries.items; patterns = a.patterns.items } };

    ghost invariant = { λ a. Rises 0 a.entries.items × (length a.entries.items ≡ length a.patterns.items)
        × IsOwnTable (record { entries = a.entries.items; patterns = a.patterns.items }) };
}

// What is written before the first type.
fn base_at(zero_magnitude: Option<&PluralElements<Pattern>>) -> Base<'_>
    ensures { base_of result ≡ option_map (λ p. p.now) zero_magnitude.entry }
{
    match zero_magnitude {
        Some(patterns) => Base::Zero(patterns),
        None => Base::Nothing,
    }
}

// What is written after the patterns kept so far.
fn base_after<'a>(zero: Base<'a>, kept: &'a [PluralElements<Pattern>]) -> Base<'a>
    ensures { base_of result ≡ base_after (base_of zero.entry) kept.now }
{
    match kept.last() {
        Some(last) => Base::Kept(last),
        None => zero,
    }
}

// The table of what is kept, in no more memory than it needs.
fn kept(alloc: Global, given: GivenTypes, zero: Base<'_>) -> Result<CompactPatterns, AllocError>
    requires order { NeverFalls 0 (map of_type given.entries) }
    requires sound { first_fault (kept_of (base_of zero) (map of_type given.entries)) ≡ None }
    requires rising { TypesRise 0 (map of_type given.entries) }
    ensures value { IfOk result (λ table. table ≡ table_of (kept_of (base_of zero.entry) (map of_type given.entries))) }
    ensures room { OnErr result (kept_of (base_of zero.entry) (map of_type given.entries) ≢ []) }
{
    let mut entries: Vec<CompactEntry> = Vec::new(alloc);
    let mut patterns: Vec<PluralElements<Pattern>> = Vec::new(alloc);
    for (log10_type, (exponent, typed)) in given {
        if base_after(zero, patterns.as_slice()).is_repeated_by(&typed) {
            continue;
        }
        entries.push(CompactEntry {
            log10_type,
            exponent,
        })?;
        patterns.push(typed)?;
    }
    entries.shrink_to_fit();
    patterns.shrink_to_fit();
    Ok(CompactPatterns { entries, patterns })
}

impl CompactPatterns {
    /// The table of these types, each with its exponent and its patterns.
    ///
    /// A type whose patterns are those of the type kept before it, without slot `1`, is left out, and so are the first
    /// types whose patterns are `zero_magnitude`, those of smaller numbers. With `K` at type 3 and at type 4, both with
    /// exponent 3, it is only type 3.
    ///
    /// Refused, in this order: Decreasing, where an exponent is below the one before it; AboveType or TooManyZeros,
    /// where the least type that is kept and has a fault has its exponent above it, or more than 15 below it; Memory:
    /// out of memory. It does not allocate where no type is kept.
    pub fn new(
        alloc: Global,
        types: BTreeMap<u8, (u8, PluralElements<Pattern>)>,
        zero_magnitude: Option<&PluralElements<Pattern>>,
    ) -> Result<Self, DataError>
        ensures decreasing { IsErrOf result DataError.Decreasing ↔ ¬ (NeverFalls 0 (map of_type types.entries)) }
        ensures above { IsErrOf result DataError.AboveType
            ↔ IsFaulty (option_map (λ p. p.now) zero_magnitude.entry) (map of_type types.entries) DataError.AboveType }
        ensures zeros { IsErrOf result DataError.TooManyZeros
            ↔ IsFaulty (option_map (λ p. p.now) zero_magnitude.entry) (map of_type types.entries)
            DataError.TooManyZeros }
        ensures only { IfErr result IsTableFault }
        ensures value { IfOk result
            (λ table. IsTable (option_map (λ p. p.now) zero_magnitude.entry) (map of_type types.entries) table) }
        ensures room { IsErrOf result DataError.Memory
            → MakesEntries (option_map (λ p. p.now) zero_magnitude.entry) (map of_type types.entries) }
    {
        if !never_falls(&types) {
            return Err(DataError::Decreasing);
        }
        let zero = base_at(zero_magnitude);
        if let Some(fault) = first_fault(&types, zero) {
            return Err(fault);
        }
        match kept(alloc, types, zero) {
            Ok(table) => Ok(table),
            Err(_) => Err(DataError::Memory),
        }
    }

    /// The entries, from the least type up, in English those of the types 3 and 6: types rise strictly, and each
    /// exponent is 0 to 15 below its type. It does not allocate.
    pub fn entries(&self) -> &[CompactEntry]
        ensures value { result.now ≡ self.now.entries }
        ensures rising { Rises 0 result.now }
    {
        self.entries.as_slice()
    }

    /// The patterns of the entry at an index, counted from 0: those of `K` at index 0 of the short form of English.
    ///
    /// The condition is that the index is below the number of entries. It does not allocate.
    pub fn elements(&self, place: usize) -> &PluralElements<Pattern>
        requires { place < length self.now.entries }
        ensures { slice_get self.now.patterns place ≡ Some result.now }
    {
        &self.patterns[place]
    }
}

/// Equal where the same entries have equal patterns: a table of `K` at type 3 is not one of `K` at type 4.
impl PartialEq for CompactPatterns {
    ghost eq = { same_table };

    ghost laws = { partial_equiv_from_equiv same_table_equiv };

    fn eq(&self, other: &Self) -> bool {
        self.entries == other.entries && self.patterns == other.patterns
    }
}

impl Eq for CompactPatterns {
    ghost laws = { same_table_equiv };
}
