//! Rows of locales.

use crate::call::Call;
use crate::extensions::push_others;
use crate::identifiers::triple;
use crate::part::{self, Part, put_copy, second};
use crate::refusals::{read, read_some};
use crate::single::put_single;
use crate::writing::{json_of, put_normal, put_optional};
use icu_locale_core::extensions::unicode::Key;
use icu_locale_core::parser::parse_locale;
use icu_locale_core::subtags::{Language, Region, Script};
use icu_locale_core::{LanguageIdentifier, Locale};
use rows::{Stop, filled, number_of, put, put_debug, put_last, put_written};
use std::alloc::AllocError;

/// The answer of a call of locales.
pub fn locale(call: &Call<'_>, out: &mut String) -> Result<(), Stop> {
    match call.name {
        "normalize" => put_normal(out, Locale::normalize(call.alloc, call.first)),
        "normalize_utf8" => put_normal(out, Locale::normalize_utf8(call.alloc, call.bytes)),
        "try_from_utf8_with_single_variant_single_keyword_unicode_extension" => put_single(
            Locale::try_from_utf8_with_single_variant_single_keyword_unicode_extension(call.bytes),
            out,
        ),
        "repeated" => put_repeated(call, out),
        _ => part::answer::<Locale>(call, out),
    }
}

// Puts a text so often after another.
fn push_times(text: &mut String, piece: &str, times: usize) -> Result<(), AllocError> {
    for _ in 0..times {
        text.push_str(piece)?;
    }
    Ok(())
}

// Writes how many private subtags the locale has of a front and a piece after it so many times.
fn put_repeated(call: &Call<'_>, out: &mut String) -> Result<(), Stop> {
    let times = number_of(call.third)?;
    let mut text = String::from_str(call.alloc, call.first)?;
    let pushed = push_times(&mut text, call.second, times);
    let text = filled(text, pushed)?;
    let locale = Locale::try_from_str(call.alloc, text.as_str());
    drop(text);
    let locale = read(locale, out)?;
    let count = locale.extensions.private.len();
    drop(locale);
    put(out, &count)
}

impl Part for Locale {
    fn make(call: &Call<'_>, out: &mut String) -> Result<Option<Self>, Stop> {
        match call.name {
            "try_from_str" => read_some(Self::try_from_str(call.alloc, call.first), out),
            "try_from_utf8" => read_some(Self::try_from_utf8(call.alloc, call.bytes), out),
            "parse_locale" => read_some(parse_locale(call.alloc, call.bytes), out),
            "from_json" => {
                let value = json_of(call)?;
                let locale = Self::from_json(call.alloc, &value);
                drop(value);
                read_some(locale, out)
            }
            _ => of_parts(call, out),
        }
    }

    fn answer(
        &mut self,
        other: Option<&Self>,
        call: &Call<'_>,
        out: &mut String,
    ) -> Result<(), Stop> {
        match call.name {
            "total_cmp" => put_debug(out, &self.total_cmp(second(other)?)),
            "push" => {
                push_others(&mut self.extensions.other, call, out)?;
                put_written(out, self)
            }
            "is_well_formed" => {
                push_others(&mut self.extensions.other, call, out)?;
                put(out, &self.is_well_formed())
            }
            _ => answer_of(self, call, out),
        }
    }
}

// The answer of a call that leaves the locale.
fn answer_of(locale: &Locale, call: &Call<'_>, out: &mut String) -> Result<(), Stop> {
    match call.name {
        "try_clone" => put_copy(locale, locale.try_clone(), out),
        "strict_cmp" => put_debug(out, &locale.strict_cmp(call.bytes)),
        "normalizing_eq" => put(out, &locale.normalizing_eq(call.alloc, call.second)?),
        "is_unknown" => put(out, &locale.is_unknown()),
        "as_ref" => put_written(out, locale.as_ref()),
        "to_json" => put_last(out, locale.to_json(call.alloc)?),
        "language" => put_written(out, &locale.id.language),
        "variants" => put(out, &locale.id.variants.len()),
        "fields" => put(out, &locale.extensions.transform.fields.iter().count()),
        "other" => put(out, &locale.extensions.other.len()),
        "private" => put(out, &locale.extensions.private.len()),
        "get" => {
            let key = read(Key::try_from_str(call.second), out)?;
            put_optional(out, locale.extensions.unicode.keywords.get(&key))
        }
        _ => Err(Stop::Unknown),
    }
}

// The locale of parts.
fn of_parts(call: &Call<'_>, out: &mut String) -> Result<Option<Locale>, Stop> {
    let alloc = call.alloc;
    let locale = match call.name {
        "unknown" => Locale::unknown(alloc),
        "from_id" => {
            let id = read(LanguageIdentifier::try_from_str(alloc, call.first), out)?;
            Locale::from_id(alloc, id)
        }
        "from_language" => {
            let language = read(Language::try_from_str(call.first), out)?;
            Locale::from_language(alloc, language)
        }
        "from_script" => {
            let script = read(Script::try_from_str(call.first), out)?;
            Locale::from_script(alloc, Some(script))
        }
        "from_region" => {
            let region = read(Region::try_from_str(call.first), out)?;
            Locale::from_region(alloc, Some(region))
        }
        "from_triple" => Locale::from_triple(alloc, triple(call, out)?),
        _ => return Ok(None),
    };
    Ok(Some(locale))
}
