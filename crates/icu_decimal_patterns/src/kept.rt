//! Which types a table keeps.

ghost use Rattle.std.specs.Prelude.{◌≡◌, ◌↔◌, IsTrue, map};
ghost use Rattle.icu_decimal_patterns.specs.KeptEntries.{NeverFalls, fault_of, first_fault, of_type};
ghost use Rattle.icu_decimal_patterns.specs.KeptSteps.{TypesRise, base_of, kept_of, repeats};

use crate::elements::PluralElements;
use crate::pattern::Pattern;
use icu_decimal_compact_value::CompactEntry;
use icu_decimal_symbols::error::DataError;
use std::collections::BTreeMap;

// The types that a table is made of, each with its exponent and its patterns.
pub(crate) type GivenTypes = BTreeMap<u8, (u8, PluralElements<Pattern>)>;

// What is written before a type: nothing, the patterns of smaller numbers, or those of the type that was kept last.
#[derive(Clone, Copy)]
pub(crate) enum Base<'a> {
    Nothing,
    Zero(&'a PluralElements<Pattern>),
    Kept(&'a PluralElements<Pattern>),
}

impl<'a> Base<'a> {
    // Whether a type with these patterns adds nothing.
    pub(crate) fn is_repeated_by(self, patterns: &PluralElements<Pattern>) -> bool
        ensures { result ≡ repeats (base_of self.entry) patterns.now }
    {
        match self {
            Base::Nothing => false,
            Base::Zero(zero) => *patterns == *zero,
            Base::Kept(kept) => patterns.is_without_one(kept),
        }
    }
}

// Whether no exponent is below the one before it.
pub(crate) fn never_falls(given: &GivenTypes) -> bool
    ensures { IsTrue result ↔ NeverFalls 0 (map of_type given.now.entries) }
{
    let mut least = 0;
    for (_log10_type, typed) in given {
        let (exponent, _) = typed;
        if *exponent < least {
            return false;
        }
        least = *exponent;
    }
    true
}

// What is wrong with an entry.
pub(crate) fn fault_of(entry: CompactEntry) -> Option<DataError>
    ensures { result ≡ fault_of entry }
{
    if entry.log10_type < entry.exponent {
        Some(DataError::AboveType)
    } else if entry.log10_type - entry.exponent > 15 {
        Some(DataError::TooManyZeros)
    } else {
        None
    }
}

// What is wrong with the least type that is kept and has a fault.
pub(crate) fn first_fault(given: &GivenTypes, zero: Base<'_>) -> Option<DataError>
    ensures value { result ≡ first_fault (kept_of (base_of zero.entry) (map of_type given.now.entries)) }
    ensures rising { TypesRise 0 (map of_type given.now.entries) }
{
    let mut base = zero;
    for (log10_type, typed) in given.iter() {
        let (exponent, patterns) = typed;
        if base.is_repeated_by(patterns) {
            continue;
        }
        let entry = CompactEntry {
            log10_type: *log10_type,
            exponent: *exponent,
        };
        let fault = fault_of(entry);
        if fault.is_some() {
            return fault;
        }
        base = Base::Kept(patterns);
    }
    None
}
