//! What a book has beside its tables and its units: arrays of plurals, one of signs, and up to five that are empty.

ghost use Rattle.std.specs.Prelude.{◌≡◌, ◌&&◌, ◌||◌, true, false, IfSome, IfOk, IfErr, IsErrOf, OnOk, [], None, Some};
ghost use Rattle.serde_json.specs.Data.{array};
ghost use Rattle.serde_json.specs.View.{items_view, view};
ghost use Rattle.locale_numbers_tables.specs.CompactEntries.{each};
ghost use Rattle.locale_numbers_tables.specs.Entries.{has_count};
ghost use Rattle.locale_numbers_tables.specs.Telling.{IsTold};
ghost use Rattle.locale_numbers_book.specs.Arrays.{ArePluralsIn, AreSignsIn, more_fault_in, more_may_grow_in};
ghost use Rattle.locale_numbers_book.specs.Form.{empty_after_three, has_more_form, is_array_at, items_at};

use icu_decimal::provider::DataIdentifier;
use indexmap::IndexMap;
use locale_numbers_plurals::{PluralArrays, Plurals, is_array_at, items_of, next_items};
use locale_numbers_signs::NumberSigns;
use locale_numbers_tables::fields::has_count;
use locale_numbers_tables::{BookError, Seed, Table, table_of};
use serde_json::Value;
use std::alloc::Global;

/// The arrays of plurals, and the entries of signs.
#[derive(Drop)]
pub struct MoreArrays {
    pub plurals: PluralArrays,
    pub signs: Vec<Value>,
}

/// Plurals, where there are some, and signs.
#[derive(Drop)]
pub struct More {
    pub plurals: Option<Plurals>,
    pub signs: Table<DataIdentifier, NumberSigns>,
}

// Whether all of these are arrays without items.
fn are_empty(values: &[Value]) -> bool
    ensures { result ≡ each (λ value. has_count 0 value) (items_view values.now) }
{
    for value in values {
        if !has_count(value, 0) {
            return false;
        }
    }
    true
}

// Whether two to eight items are there, and those after the third are empty arrays.
#[tactic(auto, using(crate::proofs::MoreLemmas::few, crate::proofs::MoreLemmas::many))]
fn empty_after_three(items: &[Value]) -> bool
    ensures { result ≡ empty_after_three (items_view items.now) }
{
    if items.len() < 3 {
        return items.len() == 2;
    }
    if items.len() > 8 {
        return false;
    }
    are_empty(&items[3..])
}

// Whether the first two items of a value are arrays, and a third where there is one.
fn has_arrays(value: &Value) -> bool
    ensures { result ≡ (is_array_at 0 (view value.now)
        && (is_array_at 1 (view value.now) && (has_count 2 (view value.now) || is_array_at 2 (view value.now)))) }
{
    is_array_at(value, 0) && is_array_at(value, 1) && (has_count(value, 2) || is_array_at(value, 2))
}

// Whether a value has the form.
fn has_form(value: &Value) -> bool
    ensures { result ≡ has_more_form (view value.now) }
{
    match value.as_array() {
        Some(items) => empty_after_three(items.as_slice()) && has_arrays(value),
        None => false,
    }
}

// The first three arrays of these.
fn arrays_in(alloc: Global, values: Vec<Value>) -> MoreArrays
    ensures ordinals { items_view result.plurals.ordinals.items ≡ items_at 0 (array (items_view values.items)) }
    ensures ranges { items_view result.plurals.ranges.items ≡ items_at 1 (array (items_view values.items)) }
    ensures signs { items_view result.signs.items ≡ items_at 2 (array (items_view values.items)) }
{
    let mut values = values.into_iter();
    let ordinals = next_items(alloc, &mut values);
    let ranges = next_items(alloc, &mut values);
    let signs = next_items(alloc, &mut values);
    MoreArrays {
        plurals: PluralArrays { ordinals, ranges },
        signs,
    }
}

/// The arrays of plurals and of signs of a value, taken out of it: the first three of an array of two to eight arrays, of
/// which those after the third are empty. `None`: it is of another form, as `[[]]`. It allocates nothing.
pub fn more_arrays_of(alloc: Global, value: Value) -> Option<MoreArrays>
    ensures some { IfSome result (λ arrays. has_more_form (view value) ≡ true) }
    ensures ordinals { IfSome result
        (λ arrays. items_view arrays.plurals.ordinals.items ≡ items_at 0 (view value)) }
    ensures ranges { IfSome result (λ arrays. items_view arrays.plurals.ranges.items ≡ items_at 1 (view value)) }
    ensures signs { IfSome result (λ arrays. items_view arrays.signs.items ≡ items_at 2 (view value)) }
    ensures none { result ≡ None → has_more_form (view value) ≡ false }
{
    if !has_form(&value) {
        return None;
    }
    match items_of(value) {
        Some(values) => Some(arrays_in(alloc, values)),
        None => None,
    }
}

/// A table without signs. It does not allocate.
pub fn no_signs(alloc: Global, seed: Seed) -> Table<DataIdentifier, NumberSigns>
    ensures { result.map.entries ≡ [] }
{
    let map: IndexMap<DataIdentifier, NumberSigns, Seed> = IndexMap::with_hasher(alloc, seed);
    Table { map }
}

// The plurals and the signs of arrays.
#[tactic(auto, using(crate::proofs::BookLemmas::or_beside))]
fn more_of(alloc: Global, seed: Seed, arrays: MoreArrays) -> Result<More, BookError>
    ensures plurals { IfOk result (λ more. ArePluralsIn (Some arrays) more.plurals) }
    ensures signs { IfOk result (λ more. AreSignsIn (Some arrays) more.signs.map.entries) }
    ensures sound { OnOk result (more_fault_in (Some arrays) ≡ None) }
    ensures fault { IfErr result (λ fault. IsTold (more_fault_in (Some arrays)) fault) }
    ensures room { IsErrOf result BookError.Memory → more_may_grow_in (Some arrays) ≡ true }
{
    let MoreArrays { plurals, signs } = arrays;
    let plurals = Plurals::from_arrays(alloc, seed, plurals)?;
    match table_of::<NumberSigns>(alloc, seed, signs) {
        Ok(signs) => Ok(More {
            plurals: Some(plurals),
            signs,
        }),
        Err(fault) => Err(fault),
    }
}

/// The plurals and the signs of arrays that may be missing, their tables hashed by this seed: without arrays there are
/// none.
pub fn more_in(alloc: Global, seed: Seed, arrays: Option<MoreArrays>) -> Result<More, BookError>
    ensures plurals { IfOk result (λ more. ArePluralsIn arrays more.plurals) }
    ensures signs { IfOk result (λ more. AreSignsIn arrays more.signs.map.entries) }
    ensures sound { OnOk result (more_fault_in arrays ≡ None) }
    ensures fault { IfErr result (λ fault. IsTold (more_fault_in arrays) fault) }
    ensures room { IsErrOf result BookError.Memory → more_may_grow_in arrays ≡ true }
{
    let Some(arrays) = arrays else {
        return Ok(More {
            plurals: None,
            signs: no_signs(alloc, seed),
        });
    };
    match more_of(alloc, seed, arrays) {
        Ok(more) => Ok(more),
        Err(fault) => Err(fault),
    }
}
