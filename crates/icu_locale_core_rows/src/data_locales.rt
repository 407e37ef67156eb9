//! Rows of data locales, and of subdivisions.

use crate::call::Call;
use crate::identifiers::triple;
use crate::part::{Part, put_copy, second};
use crate::refusals::{read, read_some};
use crate::single::put_parts;
use crate::writing::{put_next, put_optional};
use icu_locale_core::extensions::unicode::{SubdivisionId, SubdivisionSuffix};
use icu_locale_core::laws::preferences::same_data_locales;
use icu_locale_core::subtags::Region;
use icu_locale_core::{DataLocale, LanguageIdentifier, Locale};
use rows::{Stop, put, put_debug, put_last_written, put_text, put_written};

/// Writes the text of the data locale that has this subdivision alone, and of its locale, and whether that one's data
/// locale is unknown.
pub fn with_subdivision(call: &Call<'_>, out: &mut String) -> Result<(), Stop> {
    let mut data_locale = DataLocale::default();
    data_locale.subdivision = Some(read(SubdivisionId::try_from_str(call.first), out)?);
    put_written(out, &data_locale)?;
    put_text(out, " ")?;
    let locale = data_locale.into_locale(call.alloc)?;
    let is_unknown = DataLocale::from(&locale).is_unknown();
    put_last_written(out, locale)?;
    write!(out, " {is_unknown}")?;
    Ok(())
}

impl Part for DataLocale {
    fn make(call: &Call<'_>, out: &mut String) -> Result<Option<Self>, Stop> {
        match call.name {
            "try_from_str" => read_some(Self::try_from_str(call.alloc, call.first), out),
            "try_from_utf8" => read_some(Self::try_from_utf8(call.alloc, call.bytes), out),
            "default" => Ok(Some(Self::default())),
            "From<Locale>" => {
                let locale = read(Locale::try_from_str(call.alloc, call.first), out)?;
                Ok(Some(Self::from(locale)))
            }
            "From<&Locale>" => {
                let locale = read(Locale::try_from_str(call.alloc, call.first), out)?;
                let data_locale = Self::from(&locale);
                drop(locale);
                Ok(Some(data_locale))
            }
            "From<LanguageIdentifier>" => {
                let id = read(
                    LanguageIdentifier::try_from_str(call.alloc, call.first),
                    out,
                )?;
                Ok(Some(Self::from(id)))
            }
            "From<&LanguageIdentifier>" => {
                let id = read(
                    LanguageIdentifier::try_from_str(call.alloc, call.first),
                    out,
                )?;
                let data_locale = Self::from(&id);
                drop(id);
                Ok(Some(data_locale))
            }
            "From<(Language, Option<Script>, Option<Region>)>" => {
                Ok(Some(Self::from(triple(call, out)?)))
            }
            _ => Ok(None),
        }
    }

    fn answer(
        &mut self,
        other: Option<&Self>,
        call: &Call<'_>,
        out: &mut String,
    ) -> Result<(), Stop> {
        match call.name {
            "total_cmp" => put_debug(out, &self.total_cmp(second(other)?)),
            "try_clone" => {
                let copy = *self;
                put_copy(self, Ok(copy), out)
            }
            "strict_cmp" => put_debug(out, &self.strict_cmp(call.bytes)),
            "into_locale" => put_last_written(out, self.into_locale(call.alloc)?),
            "is_unknown" => put(out, &self.is_unknown()),
            "truncated" => put_optional(out, self.truncated().as_ref()),
            "{:?}" => put_debug(out, self),
            "parts" => {
                put_parts((self.language, self.script, self.region, self.variant), out)?;
                put_next(out, self.subdivision.as_ref())
            }
            "same_data_locales" => {
                let other = read(Self::try_from_str(call.alloc, call.second), out)?;
                put(out, &same_data_locales(self, &other))
            }
            _ => Err(Stop::Unknown),
        }
    }
}

impl Part for SubdivisionId {
    fn make(call: &Call<'_>, out: &mut String) -> Result<Option<Self>, Stop> {
        match call.name {
            "try_from_str" => read_some(Self::try_from_str(call.first), out),
            "try_from_utf8" => read_some(Self::try_from_utf8(call.bytes), out),
            "new" => {
                let region = read(Region::try_from_str(call.first), out)?;
                let suffix = read(SubdivisionSuffix::try_from_str(call.second), out)?;
                Ok(Some(Self::new(region, suffix)))
            }
            _ => Ok(None),
        }
    }

    fn answer(
        &mut self,
        other: Option<&Self>,
        call: &Call<'_>,
        out: &mut String,
    ) -> Result<(), Stop> {
        match call.name {
            "cmp" => put_debug(out, &Self::cmp(self, second(other)?)),
            "try_clone" => {
                let copy = *self;
                put_copy(self, Ok(copy), out)
            }
            "region" => put_written(out, &self.region),
            "suffix" => put_written(out, &self.suffix),
            "into_subtag" => put_written(out, &self.into_subtag()),
            _ => Err(Stop::Unknown),
        }
    }
}
