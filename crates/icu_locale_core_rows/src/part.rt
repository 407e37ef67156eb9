//! Rows that every part of a tag has: made, printed, copied and compared.

use crate::call::Call;
use rows::{Stop, put, put_last_written, put_text, put_written};
use std::alloc::AllocError;
use std::collections::hash_map::DefaultHasher;
use std::fmt::Display;
use std::hash::{Hash, Hasher};
use writeable::{LengthHint, Writeable};

/// A tag or a part of one.
pub trait Part: Display + Drop + Hash + PartialEq + Sized + Writeable {
    /// The value that a call makes, `try_from_str` and others; `None` where the call makes none.
    fn make(call: &Call<'_>, out: &mut String) -> Result<Option<Self>, Stop>;

    /// Writes the answer of a call that only the type has, of a value that it may change, and of another one where the call compares
    /// two.
    fn answer(
        &mut self,
        other: Option<&Self>,
        call: &Call<'_>,
        out: &mut String,
    ) -> Result<(), Stop>;
}

/// Writes the answer of a call of a part of a tag.
pub fn answer<T: Part>(call: &Call<'_>, out: &mut String) -> Result<(), Stop> {
    match T::make(call, out)? {
        Some(value) => put_last_written(out, value),
        None => answer_one::<T>(call, out),
    }
}

/// The value of a text, by `try_from_str`.
pub fn of_text<T: Part>(call: &Call<'_>, text: &str, out: &mut String) -> Result<T, Stop> {
    match T::make(&call.reading(text), out)? {
        Some(value) => Ok(value),
        None => Err(Stop::Unknown),
    }
}

// The answer of a call of the value of the first argument.
fn answer_one<T: Part>(call: &Call<'_>, out: &mut String) -> Result<(), Stop> {
    let mut one = of_text::<T>(call, call.first, out)?;
    let done = answer_beside(&mut one, call, out);
    drop(one);
    done
}

// The value of the second argument, where the call compares two.
fn other_of<T: Part>(call: &Call<'_>, out: &mut String) -> Result<Option<T>, Stop> {
    match call.name {
        "==" | "hash" | "cmp" | "partial_cmp" | "total_cmp" => {
            Ok(Some(of_text(call, call.second, out)?))
        }
        _ => Ok(None),
    }
}

fn answer_beside<T: Part>(one: &mut T, call: &Call<'_>, out: &mut String) -> Result<(), Stop> {
    let other: Option<T> = other_of(call, out)?;
    let done = answer_of(one, other.as_ref(), call, out);
    drop(other);
    done
}

fn answer_of<T: Part>(
    one: &mut T,
    other: Option<&T>,
    call: &Call<'_>,
    out: &mut String,
) -> Result<(), Stop> {
    match call.name {
        "to_string" => put(out, one),
        "writeable_length_hint" => put_hint(out, one.writeable_length_hint()),
        "==" => put(out, &(*one == *second(other)?)),
        "hash" => put(out, &(hash_of(one) == hash_of(second(other)?))),
        _ => one.answer(other, call, out),
    }
}

/// The other value, where there is one.
pub fn second<T>(other: Option<&T>) -> Result<&T, Stop> {
    match other {
        Some(other) => Ok(other),
        None => Err(Stop::Unknown),
    }
}

/// The hash of a value.
pub fn hash_of<T: Hash>(value: &T) -> u64 {
    let mut hasher = DefaultHasher::new();
    value.hash(&mut hasher);
    hasher.finish()
}

// Writes the lowest and the highest length that a hint tells, with `-` where it tells no highest.
fn put_hint(out: &mut String, hint: LengthHint) -> Result<(), Stop> {
    put(out, &hint.low)?;
    put_text(out, " ")?;
    match hint.high {
        Some(high) => put(out, &high),
        None => put_text(out, "-"),
    }
}

/// Writes the text of the copy of a value, which is equal, and is then dropped.
pub fn put_copy<T: Writeable + PartialEq + Drop>(
    value: &T,
    copy: Result<T, AllocError>,
    out: &mut String,
) -> Result<(), Stop> {
    let copy = copy?;
    let done = if copy == *value {
        put_written(out, &copy)
    } else {
        put_text(out, "not equal")
    };
    drop(copy);
    done
}
