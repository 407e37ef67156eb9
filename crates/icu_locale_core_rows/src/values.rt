//! Rows of the values of keywords and fields.

use crate::call::Call;
use crate::part::{Part, put_copy, second};
use crate::refusals::{read, read_some};
use crate::writing::{put_joined, put_last_optional, put_next, put_optional};
use icu_locale_core::subtags::Subtag;
use icu_locale_core_keywords_fields::{EntryKind, ValueOf};
use rows::{Stop, number_of, put, put_debug, put_written};

impl<K: EntryKind> Part for ValueOf<K> {
    fn make(call: &Call<'_>, out: &mut String) -> Result<Option<Self>, Stop> {
        match call.name {
            "try_from_str" => read_some(Self::try_from_str(call.alloc, call.first), out),
            "try_from_utf8" => read_some(Self::try_from_utf8(call.alloc, call.bytes), out),
            "new_empty" => Ok(Some(Self::new_empty(call.alloc))),
            "from_subtag" if call.first.is_empty() => {
                Ok(Some(Self::from_subtag(call.alloc, None)?))
            }
            "from_subtag" => {
                let subtag = read(Subtag::try_from_str(call.first), out)?;
                Ok(Some(Self::from_subtag(call.alloc, Some(subtag))?))
            }
            "try_from_iter" => {
                let first = read(Subtag::try_from_str(call.first), out)?;
                let second = read(Subtag::try_from_str(call.second), out)?;
                let third = read(Subtag::try_from_str(call.third), out)?;
                let subtags = [first, second, third];
                Ok(Some(Self::try_from_iter(call.alloc, subtags)?))
            }
            _ => Ok(None),
        }
    }

    fn answer(
        &mut self,
        other: Option<&Self>,
        call: &Call<'_>,
        out: &mut String,
    ) -> Result<(), Stop> {
        match call.name {
            "cmp" => put_debug(out, &Self::cmp(self, second(other)?)),
            "try_clone" => put_copy(self, self.try_clone(), out),
            "is_empty" => put(out, &self.is_empty()),
            "eq_str" => put(out, &self.eq_str(call.second)),
            "as_single_subtag" => put_optional(out, self.as_single_subtag()),
            "into_single_subtag" => put_last_optional(out, self.try_clone()?.into_single_subtag()),
            "get_subtag" => put_optional(out, self.get_subtag(number_of(call.second)?)),
            "remove_subtag" => {
                put_last_optional(out, self.remove_subtag(number_of(call.second)?))?;
                put_next(out, Some(self))
            }
            "clear" => {
                self.clear();
                put_written(out, self)
            }
            _ => with_subtag(self, call, out),
        }
    }
}

// The answer of a call of a value with one more subtag.
fn with_subtag<K: EntryKind>(
    value: &mut ValueOf<K>,
    call: &Call<'_>,
    out: &mut String,
) -> Result<(), Stop> {
    value.push_subtag(read(Subtag::try_from_str(call.second), out)?)?;
    match call.name {
        "push_subtag" => put_written(out, value),
        "subtag_count" => put(out, &value.subtag_count()),
        "is_well_formed" => put(out, &value.is_well_formed()),
        "as_subtags_slice" => put_joined(out, value.as_subtags_slice()),
        "iter" => put(out, &value.iter().count()),
        _ => Err(Stop::Unknown),
    }
}
