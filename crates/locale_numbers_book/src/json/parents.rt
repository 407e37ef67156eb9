//! The sixth array of a book: locales and their parents.

ghost use Rattle.std.specs.Prelude.{◌≡◌, ◌&&◌, ◌||◌, true, [], ◌∷◌, IfOk, IfErr, IsErrOf, OnOk, Some, None, is_some, option_and_then, option_map, unwrap_or};
ghost use Rattle.serde_json.specs.Data.{no_items};
ghost use Rattle.serde_json.specs.View.{items_view, view};
ghost use Rattle.locale_numbers_tables.specs.declared.BookError.TheVariants.{Shape, Tag};
ghost use Rattle.locale_numbers_tables.specs.Entries.{all_of};
ghost use Rattle.locale_numbers_tables.specs.Faults.{first_broken};
ghost use Rattle.locale_numbers_book.specs.ParentEntries.{AddsParent, has_parent_shape, parent_entry, parent_fault, parents_faults};
ghost use Rattle.locale_numbers_tables.specs.Allocation.{begins_with, locale_may_grow};
ghost use Rattle.locale_numbers_tables.specs.Telling.{IsTold};
ghost use Rattle.locale_numbers_book.specs.BookAllocation.{parent_may_grow};

use icu_locale_core::DataLocale;
use locale_numbers_parents::{ParentFault, Parents};
use locale_numbers_tables::BookError;
use locale_numbers_tables::fields::{has_count, is_text_at, locale};
use serde_json::Value;
use std::alloc::Global;

// Whether an entry is two texts.
fn has_parent_shape(entry: &Value) -> bool
    ensures { result ≡ has_parent_shape (view entry.now) }
{
    has_count(entry, 2) && is_text_at(entry, 0) && is_text_at(entry, 1)
}

// The locale and the parent of an entry.
#[tactic(auto, using(crate::proofs::ParentLemmas::first_grows, crate::proofs::ParentLemmas::second_grows))]
fn parent_entry(alloc: Global, entry: &Value) -> Result<(DataLocale, DataLocale), BookError>
    ensures value { IfOk result (λ pair. parent_entry (view entry.now) ≡ Some pair) }
    ensures shape { OnOk result (has_parent_shape (view entry.now) ≡ true) }
    ensures fault { IfErr result
        (λ fault. IsTold
        (first_broken
        ((Shape, has_parent_shape (view entry.now)) ∷ (Tag, is_some (parent_entry (view entry.now))) ∷ []))
        fault) }
    ensures room { IsErrOf result BookError.Memory
        → (has_parent_shape (view entry.now)
        && (locale_may_grow 0 (view entry.now) || locale_may_grow 1 (view entry.now))) ≡ true }
{
    if !has_parent_shape(entry) {
        return Err(BookError::Shape);
    }
    let Ok(found) = locale(alloc, entry, 0) else {
        return Err(BookError::Memory);
    };
    let Some(place) = found else {
        return Err(BookError::Tag);
    };
    let Ok(found) = locale(alloc, entry, 1) else {
        return Err(BookError::Memory);
    };
    let Some(parent) = found else {
        return Err(BookError::Tag);
    };
    Ok((place, parent))
}

// Adds what an entry says, and lets the entry go.
#[tactic(auto, using(crate::proofs::ParentLemmas::parent_asks, crate::proofs::ParentLemmas::parent_sound, crate::proofs::ParentLemmas::parent_new))]
fn add_parent(alloc: Global, parents: &mut Parents, entry: Value) -> Result<(), BookError>
    ensures added { OnOk result (AddsParent (view entry) parents.old parents.new) }
    ensures fault { IfErr result (λ fault. IsTold (parent_fault parents.old (view entry)) fault) }
    ensures grows { OnOk result (parent_may_grow parents.old (view entry) ≡ true) }
    ensures room { IsErrOf result BookError.Memory → parent_may_grow parents.old (view entry) ≡ true }
{
    let read = parent_entry(alloc, &entry);
    drop(entry);
    let (place, parent) = match read {
        Ok(pair) => pair,
        Err(fault) => return Err(fault),
    };
    match parents.add(place, parent) {
        Ok(()) => Ok(()),
        Err(fault) => match fault {
            ParentFault::Duplicate => Err(BookError::Duplicate),
            ParentFault::Cycle => Err(BookError::Cycle),
            ParentFault::Memory => Err(BookError::Memory),
        },
    }
}

// The parents that the entries of an array make; each entry is dropped once it is read.
fn parents_of(alloc: Global, entries: Vec<Value>) -> Result<Parents, BookError>
    ensures value { IfOk result (λ parents. all_of parent_entry (items_view entries.items) ≡ Some parents) }
    ensures sound { OnOk result (parents_faults [] (items_view entries.items) ≡ None) }
    ensures fault { IfErr result (λ fault. IsTold (parents_faults [] (items_view entries.items)) fault) }

    // A fault of the first entry that is found before anything is allocated is never reported as out of memory.
    ensures room { IsErrOf result BookError.Memory
        → begins_with (parent_may_grow []) (items_view entries.items) ≡ true }
{
    let mut parents = Parents::new(alloc);
    for entry in entries {
        match add_parent(alloc, &mut parents, entry) {
            Ok(()) => {}
            Err(fault) => return Err(fault),
        }
    }
    Ok(parents)
}

/// The parents of an array that may be missing: without it there are none.
pub fn parents_in(alloc: Global, entries: Option<Vec<Value>>) -> Result<Option<Parents>, BookError>
    ensures value { IfOk result
        (λ parents. option_and_then (all_of parent_entry) (option_map (λ list. items_view list.items) entries)
        ≡ parents) }
    ensures sound { OnOk result
        (parents_faults [] (unwrap_or (option_map (λ list. items_view list.items) entries) no_items) ≡ None) }
    ensures fault { IfErr result
        (λ fault. IsTold (parents_faults [] (unwrap_or (option_map (λ list. items_view list.items) entries) no_items))
        fault) }
    ensures room { IsErrOf result BookError.Memory
        → begins_with (parent_may_grow []) (unwrap_or (option_map (λ list. items_view list.items) entries) no_items)
        ≡ true }
{
    let Some(entries) = entries else {
        return Ok(None);
    };
    match parents_of(alloc, entries) {
        Ok(parents) => Ok(Some(parents)),
        Err(fault) => Err(fault),
    }
}
