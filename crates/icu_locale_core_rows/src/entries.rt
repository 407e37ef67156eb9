//! Rows of keywords and fields.

use crate::call::Call;
use crate::part::{Part, put_copy, second};
use crate::refusals::{read, read_some};
use crate::steps::headed;
use crate::writing::{put_last_optional, put_next, put_optional, put_taken};
use icu_locale_core::extensions::transform::Fields;
use icu_locale_core::extensions::unicode::Keywords;
use icu_locale_core::subtags::{Subtag, SubtagOf};
use icu_locale_core_keywords_fields::{EntriesOf, EntryKind, ValueOf};
use icu_locale_core_subtags::{transform, unicode};
use rows::{Stop, filled, push, put, put_debug, put_last_written, put_text, put_written};
use writeable::TextSink;

/// A kind of entries, with the call that only the map of each kind has.
pub trait Kind: EntryKind + Sized {
    /// Keeps the entry of this key alone, by `retain_by_key`.
    fn keep(map: &mut EntriesOf<Self>, key: &str);
}

impl Kind for unicode::KeyRule {
    fn keep(map: &mut Keywords, key: &str) {
        map.retain_by_key(|own| own.as_str() == key);
    }
}

impl Kind for transform::KeyRule {
    fn keep(map: &mut Fields, key: &str) {
        map.retain_by_key(|own| own.as_str() == key);
    }
}

impl<K: Kind> Part for EntriesOf<K> {
    fn make(call: &Call<'_>, out: &mut String) -> Result<Option<Self>, Stop> {
        match call.name {
            "try_from_str" => read_some(Self::try_from_str(call.alloc, call.first), out),
            "try_from_utf8" => read_some(Self::try_from_utf8(call.alloc, call.bytes), out),
            "new" => Ok(Some(Self::new(call.alloc))),
            "new_single" => {
                let (key, value) = entry(call, call.first, call.second, out)?;
                Ok(Some(Self::new_single(call.alloc, key, value)?))
            }
            "try_from_iter" => Ok(Some(collected(call, out)?)),
            "headed_after" => Ok(Some(headed(call, out)?)),
            _ => Ok(None),
        }
    }

    fn answer(
        &mut self,
        other: Option<&Self>,
        call: &Call<'_>,
        out: &mut String,
    ) -> Result<(), Stop> {
        match call.name {
            "cmp" => put_debug(out, &Self::cmp(self, second(other)?)),
            "partial_cmp" => put_debug(out, &Self::partial_cmp(self, second(other)?)),
            "try_clone" => put_copy(self, self.try_clone(), out),
            "is_empty" => put(out, &self.is_empty()),
            "is_well_formed" => put(out, &self.is_well_formed()),
            "hyphened_length" => put_debug(out, &self.hyphened_length()),
            "iter" => put(out, &self.iter().count()),
            "write_hyphened" => {
                let mut sink = TextSink::new(call.alloc);
                let is_written = self.write_hyphened(&mut sink).is_ok();
                put_taken(out, is_written, sink)
            }
            "extend_from_keywords" => {
                let others = read(Self::try_from_str(call.alloc, call.second), out)?;
                self.extend_from_keywords(others)?;
                put_written(out, self)
            }
            "retain_by_key" => {
                K::keep(self, call.second);
                put_written(out, self)
            }
            "clear" => {
                drop(self.clear());
                put_written(out, self)
            }
            "clear_answers" => put_last_written(out, self.clear()),
            _ => at_key(self, call, out),
        }
    }
}

// A key and its value.
fn entry<K: EntryKind>(
    call: &Call<'_>,
    key: &str,
    value: &str,
    out: &mut String,
) -> Result<(SubtagOf<K, 2>, ValueOf<K>), Stop> {
    let key = read(SubtagOf::try_from_str(key), out)?;
    Ok((key, read(ValueOf::try_from_str(call.alloc, value), out)?))
}

// Puts the entries between spaces to the others, each a key, a hyphen and its value.
fn push_entries<K: EntryKind>(
    entries: &mut Vec<(SubtagOf<K, 2>, ValueOf<K>)>,
    call: &Call<'_>,
    out: &mut String,
) -> Result<(), Stop> {
    for text in call.first.split(' ') {
        let (key, value) = text.split_once('-').unwrap_or((text, ""));
        push(entries, entry(call, key, value, out)?)?;
    }
    Ok(())
}

fn collected<K: EntryKind>(call: &Call<'_>, out: &mut String) -> Result<EntriesOf<K>, Stop> {
    let mut entries = Vec::new(call.alloc);
    let pushed = push_entries(&mut entries, call, out);
    let entries = filled(entries, pushed)?;
    Ok(EntriesOf::try_from_iter(call.alloc, entries)?)
}

// The answer of a call of entries and a key.
fn at_key<K: EntryKind>(
    map: &mut EntriesOf<K>,
    call: &Call<'_>,
    out: &mut String,
) -> Result<(), Stop> {
    let key = read(SubtagOf::<K, 2>::try_from_str(call.second), out)?;
    match call.name {
        "get" => put_optional(out, map.get(&key)),
        "contains_key" => put(out, &map.contains_key(&key)),
        "get_mut" => put_pushed(map, &key, call, out),
        "remove" => {
            put_last_optional(out, map.remove(&key))?;
            put_next(out, Some(map))
        }
        "set" => {
            let value = read(ValueOf::try_from_str(call.alloc, call.third), out)?;
            put_last_optional(out, map.set(key, value)?)?;
            put_next(out, Some(map))
        }
        _ => Err(Stop::Unknown),
    }
}

// Writes the entries with one more subtag in the value at the key; `-` where there is none.
fn put_pushed<K: EntryKind>(
    map: &mut EntriesOf<K>,
    key: &SubtagOf<K, 2>,
    call: &Call<'_>,
    out: &mut String,
) -> Result<(), Stop> {
    let subtag = read(Subtag::try_from_str(call.third), out)?;
    match map.get_mut(key) {
        Some(value) => value.push_subtag(subtag)?,
        None => return put_text(out, "-"),
    }
    put_written(out, map)
}
