//! The JSON forms of texts and of bytes.

ghost use Rattle.std.specs.Prelude.{◌≤◌};

use crate::argument::Argument;
use crate::writing::{put_bytes, put_read, put_unvalidated};
use rows::Stop;
use serde_json::Value;
use tinystr::{TinyAsciiStr, UnvalidatedTinyAsciiStr};

pub fn answer<const N: usize>(
    call: &str,
    arguments: &[Argument<'_>],
    out: &mut String,
) -> Result<(), Stop>
    requires { N ≤ 16 }
{
    let [argument] = arguments else {
        return Err(Stop::Unknown);
    };
    match call {
        "to_json" => put_json(argument.small::<N>()?, out),
        "from_json" => put_from_json::<N>(argument.word, out),
        "unvalidated.from_json" => put_unvalidated_from_json::<N>(argument.word, out),
        _ => Err(Stop::Unknown),
    }
}

// Writes the text that the JSON form of a small text holds.
fn put_json<const N: usize>(small: TinyAsciiStr<N>, out: &mut String) -> Result<(), Stop> {
    let value = small.to_json(*out.allocator())?;
    let put = put_text(&value, out);
    drop(value);
    put
}

fn put_text(value: &Value, out: &mut String) -> Result<(), Stop> {
    match value.as_str() {
        Some(text) => put_bytes(out, text.as_bytes()),
        None => Err(Stop::Unknown),
    }
}

fn put_from_json<const N: usize>(json: &str, out: &mut String) -> Result<(), Stop>
    requires { N ≤ 16 }
{
    let value = value_of(json, out)?;
    let read = TinyAsciiStr::<N>::from_json(&value);
    drop(value);
    put_read(out, read)
}

fn put_unvalidated_from_json<const N: usize>(json: &str, out: &mut String) -> Result<(), Stop>
    requires { N ≤ 16 }
{
    let value = value_of(json, out)?;
    let read = UnvalidatedTinyAsciiStr::<N>::from_json(&value);
    drop(value);
    put_unvalidated(out, read)
}

fn value_of(json: &str, out: &String) -> Result<Value, Stop> {
    match Value::from_str(*out.allocator(), json) {
        Ok(value) => Ok(value),
        Err(error) => {
            let is_memory = error.is_memory();
            drop(error);
            Err(if is_memory {
                Stop::Memory
            } else {
                Stop::Unknown
            })
        }
    }
}
