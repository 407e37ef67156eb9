//! Five arrays or six, as a value that is one.

ghost use Rattle.std.specs.Prelude.{◌≡◌, ◌||◌, ◌&&◌, true, false, IfSome, None};
ghost use Rattle.serde_json.specs.Data.{array};
ghost use Rattle.serde_json.specs.View.{view, items_view};
ghost use Rattle.locale_numbers_book.specs.Arrays.{value_of_arrays};
ghost use Rattle.locale_numbers_tables.specs.Entries.{has_count};
ghost use Rattle.locale_numbers_book.specs.Form.{has_form, is_array_at};

use locale_numbers_plurals::{is_array_at, items_of, next_array, next_items};
use locale_numbers_tables::fields::has_count;
use serde_json::Value;
use std::alloc::Global;

/// The entries of five arrays or six.
#[derive(Drop)]
pub struct Arrays {
    pub first: Vec<Value>,
    pub second: Vec<Value>,
    pub third: Vec<Value>,
    pub fourth: Vec<Value>,
    pub fifth: Vec<Value>,
    pub sixth: Option<Vec<Value>>,
}

// Whether a value has five items, or six of which the last is an array.
fn has_length(value: &Value) -> bool
    ensures { result
        ≡ (has_count 5 (view value.now) || (has_count 6 (view value.now) && is_array_at 5 (view value.now))) }
{
    has_count(value, 5) || (has_count(value, 6) && is_array_at(value, 5))
}

// Whether a value is an array of five arrays or six.
fn has_form(value: &Value) -> bool
    ensures { result ≡ has_form (view value.now) }
{
    has_length(value)
        && is_array_at(value, 0)
        && is_array_at(value, 1)
        && is_array_at(value, 2)
        && is_array_at(value, 3)
        && is_array_at(value, 4)
}

// The arrays that values are.
fn arrays_in(alloc: Global, values: Vec<Value>) -> Arrays
    requires { has_form (array (items_view values.items)) ≡ true }
    ensures { array (items_view values.items) ≡ value_of_arrays result }
{
    let mut values = values.into_iter();
    let first = next_items(alloc, &mut values);
    let second = next_items(alloc, &mut values);
    let third = next_items(alloc, &mut values);
    let fourth = next_items(alloc, &mut values);
    let fifth = next_items(alloc, &mut values);
    let sixth = next_array(&mut values);
    Arrays {
        first,
        second,
        third,
        fourth,
        fifth,
        sixth,
    }
}

/// The five arrays or six that a value is, taken out of it, or none where it is of another form.
pub fn arrays_of(alloc: Global, value: Value) -> Option<Arrays>
    ensures some { IfSome result (λ arrays. view value ≡ value_of_arrays arrays) }
    ensures none { result ≡ None → has_form (view value) ≡ false }
{
    if !has_form(&value) {
        return None;
    }
    match items_of(value) {
        Some(values) => Some(arrays_in(alloc, values)),
        None => None,
    }
}
