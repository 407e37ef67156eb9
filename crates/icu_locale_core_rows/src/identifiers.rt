//! Rows of language identifiers.

use crate::call::Call;
use crate::part::{self, Part, put_copy, second};
use crate::refusals::{put_read, read, read_some};
use crate::single::{mode_of, put_parts};
use crate::steps::language_behind;
use crate::writing::{json_of, put_normal, put_taken};
use icu_locale_core::parser::{
    SubtagIterator, parse_language_identifier, parse_language_identifier_from_iter,
};
use icu_locale_core::subtags::{Language, Region, Script};
use icu_locale_core::{LanguageIdentifier, ParseError, TryFromLocaleBytes};
use rows::{Stop, escaped, put, put_debug, put_last, put_text, put_written};
use writeable::TextSink;

/// The answer of a call of language identifiers.
pub fn identifier(call: &Call<'_>, out: &mut String) -> Result<(), Stop> {
    match call.name {
        "normalize" => put_normal(out, LanguageIdentifier::normalize(call.alloc, call.first)),
        "normalize_utf8" => {
            put_normal(
                out,
                LanguageIdentifier::normalize_utf8(call.alloc, call.bytes),
            )
        }
        "try_from_utf8_with_single_variant" => {
            let parts = LanguageIdentifier::try_from_utf8_with_single_variant(call.bytes);
            put_parts(read(parts, out)?, out)
        }
        "language_after" => language_behind(call, out),
        "parse_language_identifier_from_iter" | "parse_after_the_end" | "peek_after_refusal" => {
            of_iterator(call, out)
        }
        _ => part::answer::<LanguageIdentifier>(call, out),
    }
}

// Writes what a mode reads of the pieces of a text, of none where the call is `parse_after_the_end`; the first piece
// that it leaves, or `-`; and of a refused text that piece alone, by `peek_after_refusal`.
fn of_iterator(call: &Call<'_>, out: &mut String) -> Result<(), Stop> {
    let mode = mode_of(call.first)?;
    let mut iter = SubtagIterator::new(call.second.as_bytes());
    if call.name == "parse_after_the_end" {
        let _first = iter.next();
    }
    let id = parse_language_identifier_from_iter(call.alloc, &mut iter, mode);
    let left = iter.peek().unwrap_or(b"-");
    match call.name {
        "peek_after_refusal" => put_after_refusal(id, left, out),
        "parse_after_the_end" => put_read(id, out),
        _ => {
            put_read(id, out)?;
            put_text(out, " ")?;
            escaped(out, left)
        }
    }
}

// Writes the first piece that is there after a refusal; `-` where the text is read.
fn put_after_refusal(
    id: Result<LanguageIdentifier, ParseError>,
    left: &[u8],
    out: &mut String,
) -> Result<(), Stop> {
    match id {
        Ok(id) => {
            drop(id);
            put_text(out, "-")
        }
        Err(ParseError::Memory) => Err(Stop::Memory),
        Err(_) => escaped(out, left),
    }
}

impl Part for LanguageIdentifier {
    fn make(call: &Call<'_>, out: &mut String) -> Result<Option<Self>, Stop> {
        match call.name {
            "try_from_str" => read_some(Self::try_from_str(call.alloc, call.first), out),
            "try_from_utf8" => read_some(Self::try_from_utf8(call.alloc, call.bytes), out),
            "try_from_locale_bytes" => {
                read_some(Self::try_from_locale_bytes(call.alloc, call.bytes), out)
            }
            "parse_language_identifier" => {
                let mode = mode_of(call.first)?;
                read_some(parse_language_identifier(call.alloc, call.bytes, mode), out)
            }
            "from_json" => {
                let value = json_of(call)?;
                let id = Self::from_json(call.alloc, &value);
                drop(value);
                read_some(id, out)
            }
            _ => of_parts(call, out),
        }
    }

    fn answer(
        &mut self,
        other: Option<&Self>,
        call: &Call<'_>,
        out: &mut String,
    ) -> Result<(), Stop> {
        match call.name {
            "total_cmp" => put_debug(out, &self.total_cmp(second(other)?)),
            "try_clone" => put_copy(self, self.try_clone(), out),
            "strict_cmp" => put_debug(out, &self.strict_cmp(call.bytes)),
            "normalizing_eq" => put(out, &self.normalizing_eq(call.second)),
            "is_unknown" => put(out, &self.is_unknown()),
            "as_ref" => put_written(out, self.as_ref()),
            "to_json" => put_last(out, self.to_json(call.alloc)?),
            "triple" => {
                let (language, script, region) = self.triple();
                put_parts((language, script, region, None), out)
            }
            "parts" => {
                put_parts((self.language, self.script, self.region, None), out)?;
                write!(
                    out,
                    " {} {}",
                    self.variants.len(),
                    self.variants.iter().count()
                )?;
                Ok(())
            }
            "inner_length" => put_debug(out, &self.inner_length()),
            "write_inner_to" => {
                let mut sink = TextSink::new(call.alloc);
                let is_written = self.write_inner_to(&mut sink).is_ok();
                put_taken(out, is_written, sink)
            }
            _ => Err(Stop::Unknown),
        }
    }
}

// The language identifier of parts.
fn of_parts(call: &Call<'_>, out: &mut String) -> Result<Option<LanguageIdentifier>, Stop> {
    let alloc = call.alloc;
    let id = match call.name {
        "unknown" => LanguageIdentifier::unknown(alloc),
        "from_language" => {
            let language = read(Language::try_from_str(call.first), out)?;
            LanguageIdentifier::from_language(alloc, language)
        }
        "from_script" => {
            let script = read(Script::try_from_str(call.first), out)?;
            LanguageIdentifier::from_script(alloc, Some(script))
        }
        "from_region" => {
            let region = read(Region::try_from_str(call.first), out)?;
            LanguageIdentifier::from_region(alloc, Some(region))
        }
        "from_triple" => { LanguageIdentifier::from_triple(alloc, triple(call, out)?) }
        _ => return Ok(None),
    };
    Ok(Some(id))
}

/// The language and the region of the first two arguments, without a script.
pub fn triple(
    call: &Call<'_>,
    out: &mut String,
) -> Result<(Language, Option<Script>, Option<Region>), Stop> {
    let language = read(Language::try_from_str(call.first), out)?;
    let region = read(Region::try_from_str(call.second), out)?;
    Ok((language, None, Some(region)))
}
