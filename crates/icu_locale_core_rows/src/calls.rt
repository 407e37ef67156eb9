//! Which call a row asks for.

use crate::call::Call;
use crate::data_locales::with_subdivision;
use crate::keywords::keyword;
use crate::part::answer;
use crate::pieces::pieces;
use crate::preferences::preferences;
use crate::private_pieces::push_alike;
use crate::single::in_mode;
use crate::{errors, identifiers, locales, subtags};
use icu_locale_core::DataLocale;
use icu_locale_core::extensions::Extensions;
use icu_locale_core::extensions::other::Other;
use icu_locale_core::extensions::private::{self, Private};
use icu_locale_core::extensions::transform::{self, Fields, Transform};
use icu_locale_core::extensions::unicode::{
    self, Attribute, Attributes, Keywords, SubdivisionId, SubdivisionSuffix, Unicode,
};
use icu_locale_core::subtags::{Script, Variants};
use rows::{Stop, Table, put_text, unescaped};
use std::alloc::Global;

/// The table of the calls of `icu_locale_core`.
#[derive(Clone, Copy)]
pub struct Calls {
    pub alloc: Global,
}

impl Table for Calls {
    fn answer(&self, row: &str, out: &mut String) -> Result<(), Stop> {
        let bytes = unescaped(self.alloc, row.rsplit('\t').next().unwrap_or(""))?;
        let answered = answer_row(self.alloc, row, bytes.as_slice(), out);
        drop(bytes);
        answered
    }
}

// Writes the answer of a row, `""` where it is the empty text.
fn answer_row(alloc: Global, row: &str, bytes: &[u8], out: &mut String) -> Result<(), Stop> {
    let call = Call::of(alloc, row, bytes)?;
    of_tags(&call, out)?;
    if out.is_empty() {
        put_text(out, "\"\"")
    } else {
        Ok(())
    }
}

// The answer of a call of tags, of what they prefer, and of their extensions.
fn of_tags(call: &Call<'_>, out: &mut String) -> Result<(), Stop> {
    match call.kind {
        "Locale" => locales::locale(call, out),
        "LanguageIdentifier" => identifiers::identifier(call, out),
        "DataLocale" if call.name == "with_subdivision" => with_subdivision(call, out),
        "DataLocale" => answer::<DataLocale>(call, out),
        "LocalePreferences" => preferences(call, out),
        "Extensions" => answer::<Extensions>(call, out),
        "Unicode" => answer::<Unicode>(call, out),
        "Transform" => answer::<Transform>(call, out),
        "Private" if call.name == "push_alike" => push_alike(call, out),
        "Private" => answer::<Private>(call, out),
        "Other" => answer::<Other>(call, out),
        "Variants" => answer::<Variants>(call, out),
        "Attributes" => answer::<Attributes>(call, out),
        "Keywords" => answer::<Keywords>(call, out),
        "Fields" => answer::<Fields>(call, out),
        "unicode::Value" => answer::<unicode::Value>(call, out),
        "transform::Value" => answer::<transform::Value>(call, out),
        _ => of_subtags(call, out),
    }
}

// The answer of a call of subtags, of readers of single parts, of errors, and of keywords with a type of their own.
fn of_subtags(call: &Call<'_>, out: &mut String) -> Result<(), Stop> {
    match call.kind {
        "Language" => subtags::language(call, out),
        "Script" => answer::<Script>(call, out),
        "Region" => subtags::region(call, out),
        "Variant" => subtags::variant(call, out),
        "Subtag" => subtags::subtag(call, out),
        "unicode::Key" => answer::<unicode::Key>(call, out),
        "Attribute" => answer::<Attribute>(call, out),
        "SubdivisionSuffix" => answer::<SubdivisionSuffix>(call, out),
        "transform::Key" => answer::<transform::Key>(call, out),
        "private::Subtag" => answer::<private::Subtag>(call, out),
        "SubdivisionId" => answer::<SubdivisionId>(call, out),
        "SubtagIterator" => pieces(call, out),
        "parser" => in_mode(call, out),
        "ParseError" | "PreferencesParseError" => errors::answer(call, out),
        _ => keyword(call, out),
    }
}
