//! How answers are written.

use crate::call::Call;
use crate::refusals::read;
use icu_locale_core::ParseError;
use icu_locale_core::subtags::{SubtagOf, SubtagRule};
use rows::{Stop, put_after, put_last_written, put_text, put_written};
use serde_json::Value;
use std::alloc::Global;
use std::borrow::CowStr;
use writeable::{TextSink, Writeable};

/// Writes a value that may be missing; `-` where it is.
pub fn put_optional<T: Writeable>(out: &mut String, value: Option<&T>) -> Result<(), Stop> {
    match value {
        Some(value) => put_written(out, value),
        None => put_text(out, "-"),
    }
}

/// The same, of a value that is then dropped.
pub fn put_last_optional<T: Writeable + Drop>(
    out: &mut String,
    value: Option<T>,
) -> Result<(), Stop> {
    match value {
        Some(value) => put_last_written(out, value),
        None => put_text(out, "-"),
    }
}

/// Writes a space, and a value that may be missing.
pub fn put_next<T: Writeable>(out: &mut String, value: Option<&T>) -> Result<(), Stop> {
    put_text(out, " ")?;
    put_optional(out, value)
}

/// Writes subtags with hyphens between: `1996-fonipa`.
pub fn put_joined<R: SubtagRule<8>>(
    out: &mut String,
    subtags: &[SubtagOf<R, 8>],
) -> Result<(), Stop> {
    for subtag in subtags {
        put_after(out, "-", subtag.as_str())?;
    }
    Ok(())
}

/// Writes the text that a sink took, which is then dropped; a sink refuses for memory alone.
pub fn put_taken(out: &mut String, is_written: bool, sink: TextSink) -> Result<(), Stop> {
    let done = if is_written {
        put_text(out, sink.text())
    } else {
        Err(Stop::Memory)
    };
    drop(sink);
    done
}

/// Writes how a text was brought into normal text: `borrowed en-US` where it is it, `owned en-US` of another.
pub fn put_normal(
    out: &mut String,
    normal: Result<CowStr<'_, Global>, ParseError>,
) -> Result<(), Stop> {
    let normal = read(normal, out)?;
    let done = match &normal {
        CowStr::Borrowed(text) => write!(out, "borrowed {text}"),
        CowStr::Owned(text) => write!(out, "owned {}", text.as_str()),
    };
    drop(normal);
    Ok(done?)
}

/// The JSON value of the first argument: `"en"` is a text, `null` is not one.
pub fn json_of(call: &Call<'_>) -> Result<Value, Stop> {
    match Value::from_slice(call.alloc, call.first.as_bytes()) {
        Ok(value) => Ok(value),
        Err(fault) if fault.is_memory() => Err(Stop::Memory),
        Err(_) => Err(Stop::Unknown),
    }
}
