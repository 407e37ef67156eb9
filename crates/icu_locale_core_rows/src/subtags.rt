//! Rows of subtags.

use crate::call::Call;
use crate::part::{self, Part, put_copy, second};
use crate::refusals::{put_read, read, read_some};
use crate::writing::json_of;
use icu_locale_core::subtags::{Language, Region, Script, Subtag, SubtagOf, SubtagRule, Variant};
use rows::{Stop, escaped, put, put_after, put_debug, put_last, put_text, put_written};
use std::collections::BTreeSet;
use tinystr::TinyAsciiStr;

impl<R: SubtagRule<N>, const N: usize> Part for SubtagOf<R, N> {
    fn make(call: &Call<'_>, out: &mut String) -> Result<Option<Self>, Stop> {
        match call.name {
            "try_from_str" => read_some(Self::try_from_str(call.first), out),
            "try_from_utf8" => read_some(Self::try_from_utf8(call.bytes), out),
            "parse" => read_some(call.first.parse::<Self>(), out),
            "try_from_raw" => match <[u8; N]>::try_from(call.bytes) {
                Ok(raw) => read_some(Self::try_from_raw(raw), out),
                Err(_) => Err(Stop::Unknown),
            },
            "from_json" => {
                let value = json_of(call)?;
                let subtag = Self::from_json(&value);
                drop(value);
                read_some(subtag, out)
            }
            _ => Ok(None),
        }
    }

    fn answer(
        &mut self,
        other: Option<&Self>,
        call: &Call<'_>,
        out: &mut String,
    ) -> Result<(), Stop> {
        match call.name {
            "cmp" => put_debug(out, &Self::cmp(self, second(other)?)),
            "try_clone" => put_copy(self, self.clone(), out),
            "to_tinystr" => put_text(out, self.to_tinystr().as_str()),
            "into_raw" => escaped(out, &self.clone()?.into_raw()),
            "strict_cmp" => put_debug(out, &self.strict_cmp(call.bytes)),
            "normalizing_eq" => put(out, &self.normalizing_eq(call.second)),
            "to_json" => put_last(out, self.to_json(call.alloc)?),
            "{:?}" => put_debug(out, self),
            _ => Err(Stop::Unknown),
        }
    }
}

/// The answer of a call of languages.
pub fn language(call: &Call<'_>, out: &mut String) -> Result<(), Stop> {
    match call.name {
        "default" => put_written(out, &Language::default()),
        "UNKNOWN" => unknown(out),
        "is_unknown" => {
            let language = read(Language::try_from_str(call.first), out)?;
            put(out, &language.is_unknown())
        }
        _ => part::answer::<Language>(call, out),
    }
}

fn unknown(out: &mut String) -> Result<(), Stop> {
    put_text(out, Language::UNKNOWN.as_str())
}

/// The answer of a call of regions.
pub fn region(call: &Call<'_>, out: &mut String) -> Result<(), Stop> {
    match call.name {
        "is_alphabetic" => {
            let region = read(Region::try_from_str(call.first), out)?;
            put(out, &region.is_alphabetic())
        }
        _ => part::answer::<Region>(call, out),
    }
}

/// The answer of a call of variants one by one: `sorted` writes those between spaces in their order, each once.
pub fn variant(call: &Call<'_>, out: &mut String) -> Result<(), Stop> {
    match call.name {
        "sorted" => put_sorted(call, out),
        _ => part::answer::<Variant>(call, out),
    }
}

fn put_sorted(call: &Call<'_>, out: &mut String) -> Result<(), Stop> {
    let mut set = BTreeSet::new(call.alloc);
    let inserted = insert_all(&mut set, call.first, out);
    let done = put_spaced(out, &set);
    drop(set);
    inserted?;
    done
}

fn insert_all(set: &mut BTreeSet<Variant>, texts: &str, out: &mut String) -> Result<(), Stop> {
    for text in texts.split(' ') {
        set.insert(read(Variant::try_from_str(text), out)?)?;
    }
    Ok(())
}

fn put_spaced(out: &mut String, set: &BTreeSet<Variant>) -> Result<(), Stop> {
    for variant in set.iter() {
        put_after(out, " ", variant.as_str())?;
    }
    Ok(())
}

/// The answer of a call of the subtags that any extension may have.
pub fn subtag(call: &Call<'_>, out: &mut String) -> Result<(), Stop> {
    match call.name {
        "try_from" => match TinyAsciiStr::<16>::try_from_str(call.first) {
            Ok(small) => put_read(Subtag::try_from(small), out),
            Err(_) => Err(Stop::Unknown),
        },
        "from" => {
            let script = read(Script::try_from_str(call.first), out)?;
            put_written(out, &Subtag::from(script))
        }
        "as_tinystr" | "len" | "eq_str" => of_subtag(call, out),
        _ => part::answer::<Subtag>(call, out),
    }
}

fn of_subtag(call: &Call<'_>, out: &mut String) -> Result<(), Stop> {
    let subtag = read(Subtag::try_from_str(call.first), out)?;
    match call.name {
        "len" => put(out, &subtag.len()),
        "eq_str" => put(out, &subtag.eq_str(call.second)),
        _ => put_text(out, subtag.as_tinystr().as_str()),
    }
}
