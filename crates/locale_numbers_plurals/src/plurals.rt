//! Ordinal rules and ranges by their locales.

ghost use Rattle.std.specs.Prelude.{◌≡◌, true, IfErr, IfOk, IsErrOf};
ghost use Rattle.std.specs.Option.{option_copied};
ghost use Rattle.serde_json.specs.View.{items_view};
ghost use Rattle.locale_numbers_tables.specs.Keys.{same_data_locale, table_at};
ghost use Rattle.locale_numbers_tables.specs.Telling.{IsTold};
ghost use Rattle.locale_numbers_plurals.specs.Plurals.{ArePlurals, plurals_fault, plurals_may_grow};

use crate::arrays::PluralArrays;
use crate::ranges::PluralRanges;
use icu_decimal::plurals::PluralRules;
use icu_locale_core::DataLocale;
use locale_numbers_tables::{BookError, Seed, Table, table_of};
use std::alloc::Global;
use std::marker::Model;

/// The ordinal rules of locales, and the categories of their ranges.
pub struct Plurals {
    ordinals: Table<DataLocale, PluralRules>,
    ranges: Table<DataLocale, PluralRanges>,
}

impl Model for Plurals {
    ghost use Rattle.locale_numbers_plurals.specs.Plurals.{PluralTables};

    ghost Value = { PluralTables };

    ghost view = { λ p. record { ordinals = p.ordinals.map.entries; ranges = p.ranges.map.entries } };
}

// Dropped by one call, as a book is.
impl Drop for Plurals {
    fn drop(self) {
        let Plurals {
            ordinals: _ordinals,
            ranges: _ranges,
        } = self;
    }
}

impl Plurals {
    /// The plurals that two arrays are, their tables hashed by this seed. Without entries they are plurals too.
    ///
    /// - Shape, Tag, Condition, Duplicate: the first faulty entry decides, in the order of the arrays, and in an entry
    ///   the least number: `Shape` of the ranges `[["en",[["other","one"]]]]`.
    /// - Memory: out of memory.
    #[tactic(auto, using(crate::proofs::PluralsLemmas::or_first, crate::proofs::PluralsLemmas::or_second))]
    pub fn from_arrays(
        alloc: Global,
        seed: Seed,
        arrays: PluralArrays,
    ) -> Result<Plurals, BookError>
        ensures value { IfOk result
            (ArePlurals (items_view arrays.ordinals.items) (items_view arrays.ranges.items)) }
        ensures fault { IfErr result
            (λ fault. IsTold (plurals_fault (items_view arrays.ordinals.items) (items_view arrays.ranges.items)) fault) }

        // A fault that is found before anything is allocated is never reported as out of memory.
        ensures room { IsErrOf result BookError.Memory
            → plurals_may_grow (items_view arrays.ordinals.items) (items_view arrays.ranges.items) ≡ true }
    {
        let PluralArrays { ordinals, ranges } = arrays;
        let ordinals = table_of::<PluralRules>(alloc, seed, ordinals)?;
        match table_of::<PluralRanges>(alloc, seed, ranges) {
            Ok(ranges) => Ok(Plurals { ordinals, ranges }),
            Err(fault) => Err(fault),
        }
    }

    /// The ordinal rules of the entry with this locale: `None` where there is none. It does not allocate.
    pub fn ordinal_rules(&self, locale: &DataLocale) -> Option<&PluralRules>
        ensures { option_copied result ≡ table_at same_data_locale locale.now self.now.ordinals }
    {
        self.ordinals.map.get(locale)
    }

    /// The ranges of the entry with this locale: `None` where there is none. It does not allocate.
    pub fn ranges(&self, locale: &DataLocale) -> Option<&PluralRanges>
        ensures { option_copied result ≡ table_at same_data_locale locale.now self.now.ranges }
    {
        self.ranges.map.get(locale)
    }
}
