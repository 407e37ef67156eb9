//! Bytes as a JSON value.

ghost use Rattle.std.specs.Prelude.{◌≡◌, ◌<◌, IfOk, IsErrOf, IfErr, length};
ghost use Rattle.serde_json.specs.View.{view};
ghost use Rattle.locale_numbers_book.specs.Json.{IsJsonOrMemory, IsNoJson, Reads};

use locale_numbers_tables::BookError;
use serde_json::Value;
use std::alloc::Global;

/// The JSON value that bytes say. It is apart, so that the reader's room on the stack is free again where tables are made.
#[inline(never)]
pub fn value_of(alloc: Global, bytes: &[u8]) -> Result<Value, BookError>
    ensures value { IfOk result (λ value. Reads bytes.now (view value)) }
    ensures json { IsErrOf result BookError.Json → IsNoJson bytes.now }
    ensures room { IsErrOf result BookError.Memory → 0 < length bytes.now }
    ensures only { IfErr result IsJsonOrMemory }
{
    match Value::from_slice(alloc, bytes) {
        Ok(value) => Ok(value),
        Err(fault) => {
            if fault.is_memory() {
                Err(BookError::Memory)
            } else {
                Err(BookError::Json)
            }
        }
    }
}
