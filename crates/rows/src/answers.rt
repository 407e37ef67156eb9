//! Answers that are written, and values that are dropped once they were.

use crate::stop::Stop;
use std::fmt::{Debug, Display};
use writeable::Writeable;

/// Writes a text.
pub fn put_text(out: &mut String, text: &str) -> Result<(), Stop> {
    out.push_str(text)?;
    Ok(())
}

/// Writes what a value displays: a magnitude as `-2`.
pub fn put<T: Display>(out: &mut String, value: &T) -> Result<(), Stop> {
    write!(out, "{value}")?;
    Ok(())
}

/// Writes a value as Rust does: `Less`, `Some(Sun)`.
pub fn put_debug<T: Debug>(out: &mut String, value: &T) -> Result<(), Stop> {
    write!(out, "{value:?}")?;
    Ok(())
}

/// Writes what a value displays, which is then dropped.
pub fn put_last<T: Display + Drop>(out: &mut String, value: T) -> Result<(), Stop> {
    let done = put(out, &value);
    drop(value);
    done
}

/// Writes the text of a value, by `write_to_string`.
pub fn put_written<T: Writeable>(out: &mut String, value: &T) -> Result<(), Stop> {
    let text = value.write_to_string(*out.allocator())?;
    let done = put_text(out, text.as_str());
    drop(text);
    done
}

/// Writes the text of a value, which is then dropped.
pub fn put_last_written<T: Writeable + Drop>(out: &mut String, value: T) -> Result<(), Stop> {
    let done = put_written(out, &value);
    drop(value);
    done
}

/// Writes what a refusal displays in the place of a text, and gives why the row then stops: `custom`.
pub fn refused<E: Display>(out: &mut String, refusal: &E) -> Stop {
    out.clear();
    match put(out, refusal) {
        Ok(()) => Stop::Written,
        Err(stop) => stop,
    }
}

/// Writes a refusal as Rust does in the place of a text, and gives why the row then stops: `InvalidSubtag`.
pub fn refused_debug<E: Debug>(out: &mut String, refusal: &E) -> Stop {
    out.clear();
    match put_debug(out, refusal) {
        Ok(()) => Stop::Written,
        Err(stop) => stop,
    }
}

/// Writes a text after the others, with a separator between where there are any: `1996-fonipa`.
pub fn put_after(out: &mut String, separator: &str, text: &str) -> Result<(), Stop> {
    if !out.is_empty() {
        out.push_str(separator)?;
    }
    out.push_str(text)?;
    Ok(())
}

/// Puts an item after those of a list.
pub fn push<T: Drop>(list: &mut Vec<T>, item: T) -> Result<(), Stop> {
    list.push(item)?;
    Ok(())
}

/// A value that was filled step by step, or what refused a step; then the value is dropped.
pub fn filled<T: Drop, E>(value: T, steps: Result<(), E>) -> Result<T, E> {
    match steps {
        Ok(()) => Ok(value),
        Err(refused) => {
            drop(value);
            Err(refused)
        }
    }
}
