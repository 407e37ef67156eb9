//! Values in whose texts no tab and no line feed is.

ghost use Rattle.std.specs.Prelude.{◌≡◌};
ghost use Rattle.serde_json.specs.View.{items_view, view};
ghost use Rattle.locale_numbers_words.specs.PlainTexts.{are_plain, is_plain};

use locale_numbers_tables::fields::plain_alone;
use serde_json::Value;

#[cycle(plain)]
fn are_plain(values: &[Value]) -> bool
    ensures { result ≡ are_plain (items_view values.now) }
{
    for value in values {
        if !is_plain(value) {
            return false;
        }
    }
    true
}

/// Whether no tab and no line feed is in a text, nor in the texts of an array, and of the arrays in it: true of
/// `["en",[["other"," K"]]]`, false where ` K` is a tab. It does not allocate.
#[cycle(plain)]
pub fn is_plain(value: &Value) -> bool
    ensures { result ≡ is_plain (view value.now) }
{
    match value {
        Value::String(text) => plain_alone(text.as_str()).is_some(),
        Value::Array(values) => are_plain(values.as_slice()),
        _ => true,
    }
}
