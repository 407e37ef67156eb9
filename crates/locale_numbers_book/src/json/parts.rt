//! The outer form of a book: five arrays or six, alone, in a pair with five arrays of units, or with these and arrays of
//! plurals and of signs.

ghost use Rattle.std.specs.Prelude.{◌≡◌, ◌&&◌, true, false, IfSome, None, Some, drop, option_map, unwrap_or};
ghost use Rattle.std.specs.Vec.Iter.{into_iter_items};
ghost use Rattle.serde_json.specs.Data.{array, null};
ghost use Rattle.serde_json.specs.Find.{at};
ghost use Rattle.serde_json.specs.View.{view, items_view};
ghost use Rattle.locale_numbers_tables.specs.declared.BookError.TheVariants.{Shape};
ghost use Rattle.locale_numbers_book.specs.Arrays.{AreParts, AreTaken, of_arrays, value_of_arrays, value_of_units};
ghost use Rattle.locale_numbers_book.specs.Form.{are_more, book_fault, has_form, has_parts, has_units_form};

use crate::json::form::{Arrays, arrays_of};
use crate::json::more::{MoreArrays, more_arrays_of};
use locale_numbers_plurals::items_of;
use locale_numbers_tables::fields::has_count;
use locale_numbers_units::UnitArrays;
use serde_json::Value;
use std::alloc::Global;
use std::vec::IntoIter;

/// The arrays of a book, and those of its units, and of its plurals and its signs, where it has some.
#[derive(Drop)]
pub struct BookArrays {
    pub book: Arrays,
    pub units: Option<UnitArrays>,
    pub more: Option<MoreArrays>,
}

// Five arrays as those of units.
fn in_units(arrays: Arrays) -> UnitArrays
    ensures { value_of_units result ≡ of_arrays (items_view arrays.first.items) (items_view arrays.second.items)
        (items_view arrays.third.items) (items_view arrays.fourth.items) (items_view arrays.fifth.items) None }
{
    let Arrays {
        first,
        second,
        third,
        fourth,
        fifth,
        sixth: _sixth,
    } = arrays;
    UnitArrays {
        percents: first,
        currencies: second,
        accounts: third,
        symbols: fourth,
        digits: fifth,
    }
}

// The five arrays of units that a value is, or none where it is of another form.
fn units_of(alloc: Global, value: Value) -> Option<UnitArrays>
    ensures some { IfSome result (λ arrays. view value ≡ value_of_units arrays) }
    ensures none { result ≡ None → has_units_form (view value) ≡ false }
{
    if !has_count(&value, 5) {
        return None;
    }
    match arrays_of(alloc, value) {
        Some(arrays) => Some(in_units(arrays)),
        None => None,
    }
}

// The arrays of plurals and of signs that a value is, where it is there; `None` where it is of another form.
fn more_of(alloc: Global, more: Option<Value>) -> Option<Option<MoreArrays>>
    ensures some { IfSome result (AreTaken (option_map view more)) }
    ensures none { result ≡ None → are_more (option_map view more) ≡ false }
{
    let Some(more) = more else {
        return Some(None);
    };
    match more_arrays_of(alloc, more) {
        Some(arrays) => Some(Some(arrays)),
        None => None,
    }
}

// The arrays of a book, of its units, and of its plurals and its signs where these are there.
#[tactic(auto, using(crate::proofs::PartLemmas::no_units, crate::proofs::PartLemmas::no_more, crate::proofs::PartLemmas::no_book))]
fn all_of(alloc: Global, book: Value, units: Value, more: Option<Value>) -> Option<BookArrays>
    ensures book { IfSome result (λ arrays. view book ≡ value_of_arrays arrays.book) }
    ensures units { IfSome result (λ arrays. Some (view units) ≡ option_map value_of_units arrays.units) }
    ensures more { IfSome result (λ arrays. AreTaken (option_map view more) arrays.more) }
    ensures none { result ≡ None
        → (has_form (view book) && (has_units_form (view units) && are_more (option_map view more))) ≡ false }
{
    let Some(units) = units_of(alloc, units) else {
        return None;
    };
    let Some(more) = more_of(alloc, more) else {
        return None;
    };
    match arrays_of(alloc, book) {
        Some(book) => Some(BookArrays {
            book,
            units: Some(units),
            more,
        }),
        None => None,
    }
}

// The value that comes next, where one does.
fn next_of(values: &mut IntoIter<Value>) -> Option<Value>
    ensures first { option_map view result ≡ at 0 (array (items_view (into_iter_items values.old))) }
    ensures rest { into_iter_items values.new ≡ drop 1 (into_iter_items values.old) }
{
    values.next()
}

// The value that comes next; null where none does.
fn next_value(values: &mut IntoIter<Value>) -> Value
    ensures first { view result ≡ unwrap_or (at 0 (array (items_view (into_iter_items values.old)))) null }
    ensures rest { into_iter_items values.new ≡ drop 1 (into_iter_items values.old) }
{
    match next_of(values) {
        Some(value) => value,
        None => Value::Null,
    }
}

// The arrays of two items or three.
fn parts_of(alloc: Global, values: Vec<Value>) -> Option<BookArrays>
    requires { has_parts (array (items_view values.items)) ≡ true }
    ensures some { IfSome result (AreParts (array (items_view values.items))) }
    ensures none { result ≡ None → book_fault (array (items_view values.items)) ≡ Some Shape }
{
    let mut values = values.into_iter();
    let book = next_value(&mut values);
    let units = next_value(&mut values);
    let more = next_of(&mut values);
    all_of(alloc, book, units, more)
}

// The arrays of a value of two items or three.
fn parts_in(alloc: Global, value: Value) -> Option<BookArrays>
    requires { has_parts (view value) ≡ true }
    ensures some { IfSome result (AreParts (view value)) }
    ensures none { result ≡ None → book_fault (view value) ≡ Some Shape }
{
    match items_of(value) {
        Some(values) => parts_of(alloc, values),
        None => None,
    }
}

// The arrays of a value that has no parts.
fn alone_in(alloc: Global, value: Value) -> Option<BookArrays>
    requires { has_parts (view value) ≡ false }
    ensures some { IfSome result (AreParts (view value)) }
    ensures none { result ≡ None → book_fault (view value) ≡ Some Shape }
{
    match arrays_of(alloc, value) {
        Some(book) => Some(BookArrays {
            book,
            units: None,
            more: None,
        }),
        None => None,
    }
}

/// The arrays that a value is, taken out of it, or none where it has not the form of a book.
pub fn book_arrays_of(alloc: Global, value: Value) -> Option<BookArrays>
    ensures some { IfSome result (AreParts (view value)) }
    ensures none { result ≡ None → book_fault (view value) ≡ Some Shape }
{
    if has_count(&value, 2) || has_count(&value, 3) {
        parts_in(alloc, value)
    } else {
        alone_in(alloc, value)
    }
}
