//! A text as a JSON value.

ghost use Rattle.std.specs.Prelude.{◌≡◌, ◌⊎◌, IfErr, IfOk, IsErrOf};
ghost use Rattle.serde_json.specs.View.{view};
ghost use Rattle.locale_numbers_book.specs.Json.{IsNoJson, Reads};
ghost use Rattle.locale_numbers_words.specs.declared.error.WordsError.{WordsError};

use crate::error::FileFault;
use locale_numbers_words::WordsError;
use serde_json::Value;
use std::alloc::Global;

// The JSON value that bytes say. It is apart, so that the reader's room on the stack is free again where tables are made.
#[inline(never)]
pub(crate) fn value_of(alloc: Global, bytes: &[u8]) -> Result<Value, FileFault>
    ensures value { IfOk result (λ value. Reads bytes.now (view value)) }
    ensures json { IsErrOf result FileFault.Json → IsNoJson bytes.now }
    ensures only { IfErr result (λ fault. (fault ≡ FileFault.Json) ⊎ (fault ≡ FileFault.Words WordsError.Memory)) }
{
    match Value::from_slice(alloc, bytes) {
        Ok(value) => Ok(value),
        Err(fault) => {
            if fault.is_memory() {
                Err(FileFault::Words(WordsError::Memory))
            } else {
                Err(FileFault::Json)
            }
        }
    }
}
