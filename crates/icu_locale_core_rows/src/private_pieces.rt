//! Rows of private subtags.

use crate::call::Call;
use crate::part::{Part, hash_of, put_copy, second};
use crate::refusals::{read, read_some};
use crate::writing::{put_joined, put_optional};
use icu_locale_core::extensions::private::{Private, Subtag};
use icu_locale_core::parser::SubtagIterator;
use rows::{Stop, number_of, put, put_debug, put_written};

impl Part for Private {
    fn make(call: &Call<'_>, out: &mut String) -> Result<Option<Self>, Stop> {
        match call.name {
            "try_from_str" => read_some(Self::try_from_str(call.alloc, call.first), out),
            "try_from_utf8" => read_some(Self::try_from_utf8(call.alloc, call.bytes), out),
            "try_from_iter" => {
                let pieces = SubtagIterator::new(call.first.as_bytes());
                read_some(Self::try_from_iter(call.alloc, pieces), out)
            }
            "new" => Ok(Some(Self::new(call.alloc))),
            "new_single" => {
                let subtag = read(Subtag::try_from_str(call.first), out)?;
                Ok(Some(Self::new_single(call.alloc, subtag)?))
            }
            _ => Ok(None),
        }
    }

    fn answer(
        &mut self,
        other: Option<&Self>,
        call: &Call<'_>,
        out: &mut String,
    ) -> Result<(), Stop> {
        match call.name {
            "cmp" => put_debug(out, &Self::cmp(self, second(other)?)),
            "partial_cmp" => put_debug(out, &Self::partial_cmp(self, second(other)?)),
            "try_clone" => put_copy(self, self.try_clone(), out),
            "len" => put(out, &self.len()),
            "iter" => put(out, &self.iter().count()),
            "first" => put_optional(out, self.first()),
            "get" => put_optional(out, self.get(number_of(call.second)?)),
            "as_slice" => put_joined(out, self.as_slice()),
            "is_empty" => put(out, &self.is_empty()),
            "clear" => {
                self.clear();
                put_written(out, self)
            }
            _ => Err(Stop::Unknown),
        }
    }
}

/// The answer of a call of one subtag, another that is pushed after it, and a text.
pub fn push_alike(call: &Call<'_>, out: &mut String) -> Result<(), Stop> {
    let first = read(Subtag::try_from_str(call.first), out)?;
    let second = read(Subtag::try_from_str(call.second), out)?;
    let mut one = Private::new_single(call.alloc, first)?;
    let done = put_alike(&mut one, second, call, out);
    drop(one);
    done
}

// Pushes a subtag, and writes whether the pieces of a text are equal to these, and whether they have one hash.
fn put_alike(
    one: &mut Private,
    more: Subtag,
    call: &Call<'_>,
    out: &mut String,
) -> Result<(), Stop> {
    one.push(more)?;
    let pieces = SubtagIterator::new(call.third.as_bytes());
    let other = read(Private::try_from_iter(call.alloc, pieces), out)?;
    let is_equal = *one == other;
    let has_one_hash = hash_of(one) == hash_of(&other);
    drop(other);
    write!(out, "{is_equal} {has_one_hash}")?;
    Ok(())
}
