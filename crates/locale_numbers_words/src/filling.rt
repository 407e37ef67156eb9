//! The three tables of words, filled by the arrays of a file.

ghost use Rattle.std.specs.Prelude.{◌≡◌, ◌||◌, IfErr, IsErrOf, None, OnOk, true};
ghost use Rattle.std.specs.Option.{option_or};
ghost use Rattle.serde_json.specs.View.{items_view};
ghost use Rattle.locale_numbers_tables.specs.Allocation.{begins_with};
ghost use Rattle.locale_numbers_tables.specs.Keys.{same_data_locale, same_key};
ghost use Rattle.locale_numbers_words.specs.Entries.{has_names_frame, has_units_frame, locale_key, names_fault, names_key, names_said, patterns_said, units_fault, units_key, units_said};
ghost use Rattle.locale_numbers_words.specs.Faults.{IsTold, first_fault_after, table_after};
ghost use Rattle.locale_numbers_words.specs.Words.{words_fault, words_may_grow};

use crate::by_category::ByCategory;
use crate::error::WordsError;
use crate::files::WordArrays;
use crate::names::CurrencyNames;
use crate::patterns::NamePatterns;
use crate::tables::fill;
use crate::texts::{CurrencyName, TextPair};
use crate::unit_words::UnitTable;
use crate::units::UnitTables;
use icu_decimal::provider::DataIdentifier;
use icu_locale_core::DataLocale;
use indexmap::IndexMap;
use locale_numbers_tables::Seed;
use serde_json::Value;
use std::alloc::Global;

// Adds what the entries of two arrays say.
#[tactic(auto, using(crate::proofs::WordsLemmas::or_first, crate::proofs::WordsLemmas::or_last))]
fn fill_both(
    alloc: Global,
    seed: Seed,
    names: &mut IndexMap<DataIdentifier, ByCategory<CurrencyName>, Seed>,
    units: &mut IndexMap<DataIdentifier, UnitTable, Seed>,
    name_entries: Vec<Value>,
    unit_entries: Vec<Value>,
) -> Result<(), WordsError>
    ensures names { OnOk result
        (names.new.entries
        ≡ table_after same_key names_key names_said names.old.entries (items_view name_entries.items)) }
    ensures units { OnOk result
        (units.new.entries
        ≡ table_after same_key units_key units_said units.old.entries (items_view unit_entries.items)) }
    ensures sound { OnOk result
        (option_or
        (first_fault_after same_key names_key names_said names_fault names.old.entries
        (items_view name_entries.items))
        (first_fault_after same_key units_key units_said units_fault units.old.entries
        (items_view unit_entries.items)) ≡ None) }
    ensures fault { IfErr result
        (λ fault. IsTold
        (option_or
        (first_fault_after same_key names_key names_said names_fault names.old.entries
        (items_view name_entries.items))
        (first_fault_after same_key units_key units_said units_fault units.old.entries
        (items_view unit_entries.items))) fault) }
    ensures room { IsErrOf result WordsError.Memory
        → (begins_with has_names_frame (items_view name_entries.items)
        || begins_with has_units_frame (items_view unit_entries.items)) ≡ true }
{
    match fill::<CurrencyNames>(alloc, seed, names, name_entries) {
        Ok(()) => fill::<UnitTables>(alloc, seed, units, unit_entries),
        Err(fault) => Err(fault),
    }
}

// Adds what the entries of three arrays say.
#[tactic(auto, using(crate::proofs::WordsLemmas::or_first, crate::proofs::WordsLemmas::or_last))]
pub(crate) fn fill_all(
    alloc: Global,
    seed: Seed,
    patterns: &mut IndexMap<DataLocale, ByCategory<TextPair>, Seed>,
    names: &mut IndexMap<DataIdentifier, ByCategory<CurrencyName>, Seed>,
    units: &mut IndexMap<DataIdentifier, UnitTable, Seed>,
    arrays: WordArrays,
) -> Result<(), WordsError>
    ensures patterns { OnOk result
        (patterns.new.entries
        ≡ table_after same_data_locale locale_key patterns_said patterns.old.entries
        (items_view arrays.patterns.items)) }
    ensures names { OnOk result
        (names.new.entries
        ≡ table_after same_key names_key names_said names.old.entries (items_view arrays.names.items)) }
    ensures units { OnOk result
        (units.new.entries
        ≡ table_after same_key units_key units_said units.old.entries (items_view arrays.units.items)) }
    ensures sound { OnOk result
        (words_fault
        (record { patterns = patterns.old.entries; names = names.old.entries; units = units.old.entries })
        (items_view arrays.patterns.items) (items_view arrays.names.items) (items_view arrays.units.items) ≡ None) }
    ensures fault { IfErr result
        (λ fault. IsTold
        (words_fault
        (record { patterns = patterns.old.entries; names = names.old.entries; units = units.old.entries })
        (items_view arrays.patterns.items) (items_view arrays.names.items) (items_view arrays.units.items)) fault) }
    ensures room { IsErrOf result WordsError.Memory
        → words_may_grow (items_view arrays.patterns.items) (items_view arrays.names.items)
        (items_view arrays.units.items) ≡ true }
{
    let WordArrays {
        patterns: pattern_entries,
        names: name_entries,
        units: unit_entries,
    } = arrays;
    match fill::<NamePatterns>(alloc, seed, patterns, pattern_entries) {
        Ok(()) => fill_both(alloc, seed, names, units, name_entries, unit_entries),
        Err(fault) => {
            drop((name_entries, unit_entries));
            Err(fault)
        }
    }
}
