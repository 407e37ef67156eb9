//! Arrays taken out of a JSON value, and the two of plurals.

ghost use Rattle.std.specs.Prelude.{◌≡◌, drop, option_map, unwrap_or};
ghost use Rattle.std.specs.Vec.Iter.{into_iter_items};
ghost use Rattle.serde_json.specs.Data.{array, no_items};
ghost use Rattle.serde_json.specs.Find.{as_array};
ghost use Rattle.serde_json.specs.View.{view, items_view};
ghost use Rattle.locale_numbers_tables.specs.Entries.{field_at};
ghost use Rattle.locale_numbers_plurals.specs.Form.{is_array_at, items_at};

use serde_json::Value;
use std::alloc::Global;
use std::vec::IntoIter;

/// The entries of the arrays of ordinal rules and of ranges.
#[derive(Drop)]
pub struct PluralArrays {
    pub ordinals: Vec<Value>,
    pub ranges: Vec<Value>,
}

/// Whether the item at a place of a value is an array: of `[[],1]` at 0 it is, at 1 and at 2 it is not. It does not allocate.
pub fn is_array_at(value: &Value, place: usize) -> bool
    ensures { result ≡ is_array_at place (view value.now) }
{
    match value.get(place) {
        Some(item) => item.is_array(),
        None => false,
    }
}

/// The items of an array: of `[1,2]` two; `None` of any other value. It does not allocate.
pub fn items_of(value: Value) -> Option<Vec<Value>>
    ensures { option_map (λ items. items_view items.items) result ≡ as_array (view value) }
{
    match value {
        Value::Array(items) => Some(items),
        _ => None,
    }
}

/// The items of the next value, where there is one and it is an array. It does not allocate.
pub fn next_array(values: &mut IntoIter<Value>) -> Option<Vec<Value>>
    ensures first { option_map (λ items. items_view items.items) result
        ≡ field_at as_array 0 (array (items_view (into_iter_items values.old))) }
    ensures rest { into_iter_items values.new ≡ drop 1 (into_iter_items values.old) }
{
    match values.next() {
        Some(value) => items_of(value),
        None => None,
    }
}

/// The items of the array that comes next; none where no array does. It does not allocate.
pub fn next_items(alloc: Global, values: &mut IntoIter<Value>) -> Vec<Value>
    ensures first { items_view result.items ≡ items_at 0 (array (items_view (into_iter_items values.old))) }
    ensures rest { into_iter_items values.new ≡ drop 1 (into_iter_items values.old) }
{
    match next_array(values) {
        Some(items) => items,
        None => Vec::new(alloc),
    }
}
