//! The arrays of a file of words, taken out of a JSON value.

ghost use Rattle.std.specs.Prelude.{◌≡◌, IfSome, is_some};
ghost use Rattle.serde_json.specs.View.{items_view, view};
ghost use Rattle.locale_numbers_plurals.specs.Form.{items_at};
ghost use Rattle.locale_numbers_words.specs.Files.{is_file};

use locale_numbers_plurals::{is_array_at, items_of, next_items};
use locale_numbers_tables::fields::has_count;
use serde_json::Value;
use std::alloc::Global;

// The entries of the arrays of a file: of name patterns, of names of currencies, and of units.
#[derive(Drop)]
pub(crate) struct WordArrays {
    pub patterns: Vec<Value>,
    pub names: Vec<Value>,
    pub units: Vec<Value>,
}

// Whether a value is a file of words: three arrays.
fn is_file(file: &Value) -> bool
    ensures { result ≡ is_file (view file.now) }
{
    has_count(file, 3) && is_array_at(file, 0) && is_array_at(file, 1) && is_array_at(file, 2)
}

// The items of the arrays of a value.
fn parts_of(alloc: Global, file: Value) -> WordArrays
    ensures patterns { items_view result.patterns.items ≡ items_at 0 (view file) }
    ensures names { items_view result.names.items ≡ items_at 1 (view file) }
    ensures units { items_view result.units.items ≡ items_at 2 (view file) }
{
    match items_of(file) {
        Some(values) => {
            let mut values = values.into_iter();
            let patterns = next_items(alloc, &mut values);
            let names = next_items(alloc, &mut values);
            let units = next_items(alloc, &mut values);
            WordArrays {
                patterns,
                names,
                units,
            }
        }
        None => WordArrays {
            patterns: Vec::new(alloc),
            names: Vec::new(alloc),
            units: Vec::new(alloc),
        },
    }
}

// The entries of the arrays of a file of words, or none where the value is of another form. It does not allocate.
pub(crate) fn word_arrays_of(alloc: Global, file: Value) -> Option<WordArrays>
    ensures form { is_some result ≡ is_file (view file) }
    ensures patterns { IfSome result (λ arrays. items_view arrays.patterns.items ≡ items_at 0 (view file)) }
    ensures names { IfSome result (λ arrays. items_view arrays.names.items ≡ items_at 1 (view file)) }
    ensures units { IfSome result (λ arrays. items_view arrays.units.items ≡ items_at 2 (view file)) }
{
    if is_file(&file) {
        Some(parts_of(alloc, file))
    } else {
        None
    }
}
