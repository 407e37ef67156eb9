//! Widths of units.

ghost use Rattle.std.specs.Prelude.{◌≡◌};
ghost use Rattle.serde_json.specs.View.{view};
ghost use Rattle.locale_numbers_tables.specs.Entries.{field_at};
ghost use Rattle.locale_numbers_words.specs.Entries.{width_in, width_named, width_text};

use locale_numbers_tables::fields::text_at;
use serde_json::Value;
use tinystr::TinyAsciiStr;

/// How wide a unit is written: `5 km`, `5km` and `5 kilometers` are short, narrow and long in English.
#[derive(Clone, Copy, Debug, PartialEq, Eq)]
pub enum UnitWidth {
    /// `5 km`.
    Short,
    /// `5km`.
    Narrow,
    /// `5 kilometers`.
    Long,
}

impl UnitWidth {
    /// The width as the attributes of a table's name: `long` for `Long`. It does not allocate.
    pub fn attributes(self) -> TinyAsciiStr<8>
        ensures { result ≡ width_text self }
    {
        match self {
            UnitWidth::Short => TinyAsciiStr::of_text(b"short"),
            UnitWidth::Narrow => TinyAsciiStr::of_text(b"narrow"),
            UnitWidth::Long => TinyAsciiStr::of_text(b"long"),
        }
    }
}

// The width that a text names.
fn width_named(text: &str) -> Option<UnitWidth>
    ensures { result ≡ width_named text.now }
{
    match text {
        "short" => Some(UnitWidth::Short),
        "narrow" => Some(UnitWidth::Narrow),
        "long" => Some(UnitWidth::Long),
        _ => None,
    }
}

// The width at a place of an entry.
pub(crate) fn width_at(entry: &Value, place: usize) -> Option<UnitWidth>
    ensures { result ≡ field_at width_in place (view entry.now) }
{
    let text = text_at(entry, place)?;
    width_named(text)
}
