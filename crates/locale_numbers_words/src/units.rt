//! Units of measurement.

ghost use Rattle.std.specs.Prelude.{◌≡◌, [], IfErr, IfOk, None, OnOk, Some, true, if◌then◌else◌, option_map};
ghost use Rattle.serde_json.specs.View.{items_view, view};
ghost use Rattle.icu_decimal.specs.Identifiers.{of_both};
ghost use Rattle.locale_numbers_tables.specs.Entries.{all_of, field_at};
ghost use Rattle.locale_numbers_words.specs.Categories.{values_in};
ghost use Rattle.locale_numbers_words.specs.Entries.{has_units_frame, keyed, tagged_fault, texts_with, unit_in, unit_texts_in, units_key, units_read, units_said, width_in, width_text};
ghost use Rattle.locale_numbers_words.specs.Faults.{IsTold};
ghost use Rattle.locale_numbers_words.specs.SlotTexts.{pair_in, word_in};

use crate::entry::{WordArray, tagged};
use crate::error::WordsError;
use crate::slots::{array_at, pair, values_at};
use crate::texts::{TextPair, UnitText};
use crate::unit_name::{is_compound, unit_name};
use crate::unit_words::{UnitTable, UnitWords};
use crate::width::width_at;
use icu_decimal::provider::DataIdentifier;
use icu_locale_core::DataLocale;
use indexmap::IndexMap;
use locale_numbers_tables::fields::{has_count, is_text_at, text_at};
use locale_numbers_tables::{BookError, Seed, add};
use serde_json::Value;
use std::alloc::{AllocError, Global};
use tinystr::TinyAsciiStr;

// The name of a unit, where it is one, and its words.
type ReadUnit = (Option<TinyAsciiStr<32>>, UnitWords);

// The pair at the third place of a unit.
fn behind(alloc: Global, unit: &Value) -> Result<Option<TextPair>, AllocError>
    ensures { IfOk result (λ found. found ≡ field_at pair_in 2 (view unit.now)) }
{
    match unit.get(2) {
        Some(value) => pair(alloc, value),
        None => Ok(None),
    }
}

// The words at the second place of a unit, with this pair behind another unit, or none.
fn words_with(
    alloc: Global,
    unit: &Value,
    behind: Option<TextPair>,
) -> Result<Option<UnitWords>, AllocError>
    ensures { IfOk result
        (λ found. found ≡ option_map (texts_with behind) (field_at (values_in word_in) 1 (view unit.now))) }
{
    match values_at::<UnitText>(alloc, unit, 1) {
        Ok(Some(words)) => Ok(Some(UnitWords { words, behind })),
        Ok(None) => Ok(None),
        Err(refused) => Err(refused),
    }
}

// The words of a unit, which is one of two or not.
fn words(alloc: Global, unit: &Value, compound: bool) -> Result<Option<UnitWords>, AllocError>
    ensures { IfOk result (λ found. found ≡ unit_texts_in compound (view unit.now)) }
{
    if compound {
        if has_count(unit, 2) {
            return words_with(alloc, unit, None);
        }
        return Ok(None);
    }
    if !has_count(unit, 3) {
        return Ok(None);
    }
    match behind(alloc, unit) {
        Ok(Some(behind)) => words_with(alloc, unit, Some(behind)),
        Ok(None) => Ok(None),
        Err(refused) => Err(refused),
    }
}

// The name and the words of a unit.
fn read_unit(alloc: Global, unit: &Value) -> Result<Option<ReadUnit>, AllocError>
    ensures { IfOk result (λ found. found ≡ unit_in (view unit.now)) }
{
    let Some(name) = text_at(unit, 0) else {
        return Ok(None);
    };
    match words(alloc, unit, is_compound(name)) {
        Ok(Some(words)) => Ok(Some((unit_name(name), words))),
        Ok(None) => Ok(None),
        Err(refused) => Err(refused),
    }
}

// The units of an array, where each item is one.
fn read_units(alloc: Global, items: &[Value]) -> Result<Option<Vec<ReadUnit>>, AllocError>
    ensures { IfOk result (λ found. option_map (λ list. list.items) found ≡ all_of unit_in (items_view items.now)) }
{
    let mut list: Vec<ReadUnit> = Vec::new(alloc);
    for item in items {
        let Some(unit) = read_unit(alloc, item)? else {
            return Ok(None);
        };
        list.push(unit)?;
    }
    Ok(Some(list))
}

// The units of an entry.
fn entry_units(alloc: Global, entry: &Value) -> Result<Option<Vec<ReadUnit>>, AllocError>
    ensures { IfOk result (λ found. option_map (λ list. list.items) found ≡ units_read (view entry.now)) }
{
    match array_at(entry, 2) {
        Some(items) => read_units(alloc, items),
        None => Ok(None),
    }
}

// Puts units by their names into an empty map; false where one has none, or a name is twice.
fn fill(
    map: &mut IndexMap<TinyAsciiStr<32>, UnitWords, Seed>,
    units: Vec<ReadUnit>,
) -> Result<bool, AllocError>
    requires { map.old.entries ≡ [] }
    ensures { IfOk result (λ good. (if good then Some map.new.entries else None) ≡ keyed units.items) }
{
    let count = units.len();
    for (name, words) in units {
        let Some(name) = name else {
            return Ok(false);
        };
        match add(map, name, words, count) {
            Ok(()) => {}
            Err(BookError::Duplicate) => return Ok(false),
            Err(_) => return Err(AllocError),
        }
    }
    Ok(true)
}

// The table of units with names, none twice.
fn table(alloc: Global, seed: Seed, units: Vec<ReadUnit>) -> Result<Option<UnitTable>, AllocError>
    ensures { IfOk result (λ found. found ≡ keyed units.items) }
{
    let mut map: IndexMap<TinyAsciiStr<32>, UnitWords, Seed> = IndexMap::with_hasher(alloc, seed);
    match fill(&mut map, units) {
        Ok(true) => Ok(Some(UnitTable { units: map })),
        Ok(false) => Ok(None),
        Err(refused) => Err(refused),
    }
}

// Whether an entry has three fields, of which the first is a text, and the second a width.
fn has_frame(entry: &Value) -> bool
    ensures { result ≡ has_units_frame (view entry.now) }
{
    has_count(entry, 3) && is_text_at(entry, 0) && width_at(entry, 1).is_some()
}

// The key of an entry with a width, of this locale.
fn key(entry: &Value, locale: DataLocale) -> Option<DataIdentifier>
    ensures { result
        ≡ option_map (λ attributes. of_both attributes locale)
        (option_map width_text (field_at width_in 1 (view entry.now))) }
{
    let width = width_at(entry, 1)?;
    let attributes = width.attributes();
    Some(DataIdentifier::for_marker_attributes_and_locale(attributes, locale))
}

// The key of an entry, and the table of these units, which it has.
fn with_key(
    alloc: Global,
    seed: Seed,
    entry: &Value,
    units: Vec<ReadUnit>,
) -> Result<(DataIdentifier, Option<UnitTable>), WordsError>
    requires shape { has_units_frame (view entry.now) ≡ true }
    requires units { units_read (view entry.now) ≡ Some units.items }
    ensures key { IfOk result (λ pair. units_key (view entry.now) ≡ Some pair.0) }
    ensures said { IfOk result (λ pair. units_said (view entry.now) ≡ pair.1) }
    ensures sound { OnOk result (tagged_fault (view entry.now) ≡ None) }
    ensures fault { IfErr result (λ fault. IsTold (tagged_fault (view entry.now)) fault) }
{
    match tagged(alloc, entry) {
        Ok(locale) => match key(entry, locale) {
            Some(key) => match table(alloc, seed, units) {
                Ok(found) => Ok((key, found)),
                Err(_) => Err(WordsError::Memory),
            },
            None => Err(WordsError::Memory),
        },
        Err(fault) => Err(fault),
    }
}

// The array of units: `["en","long",[..]]` has the long units of English.
pub(crate) struct UnitTables;

impl WordArray for UnitTables {
    ghost use Rattle.locale_numbers_words.specs.Entries.{has_units_frame, same_units, units_fault, units_key, units_said};
    ghost use Rattle.locale_numbers_words.specs.declared.error.WordsError.TheVariants as errors;

    type Key = DataIdentifier;

    type Said = UnitTable;

    ghost key_in = { units_key };

    ghost said_in = { units_said };

    ghost fault_in = { units_fault };

    ghost same_said = { same_units };

    ghost late = { errors.Measure };

    // An entry that has not three fields, of which the first is a text and the second a width, is never reported as out
    // of memory.
    ghost may_grow = { has_units_frame };

    fn late() -> WordsError {
        WordsError::Measure
    }

    fn is_same(one: &UnitTable, other: &UnitTable) -> bool {
        one.is_same(other)
    }

    #[tactic(auto, using(crate::proofs::EntryLemmas::units_late, crate::proofs::EntryLemmas::units_told, crate::proofs::EntryLemmas::units_frame, crate::proofs::EntryLemmas::units_none))]
    fn read(
        alloc: Global,
        seed: Seed,
        entry: &Value,
    ) -> Result<(DataIdentifier, Option<UnitTable>), WordsError> {
        if !has_frame(entry) {
            return Err(WordsError::Shape);
        }
        match entry_units(alloc, entry) {
            Ok(Some(units)) => match with_key(alloc, seed, entry, units) {
                Ok(pair) => Ok(pair),
                Err(fault) => Err(fault),
            },
            Ok(None) => Err(WordsError::Shape),
            Err(_) => Err(WordsError::Memory),
        }
    }
}
