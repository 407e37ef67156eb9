//! The JSON form of both types: a text.

ghost use Rattle.std.specs.Prelude.{◌≡◌, ◌≤◌, ◌<◌, ℕ, List, [], length, Some, None, Ok, Err, IsOk, IfOk};
ghost use Rattle.serde_json.specs.Data.{string};
ghost use Rattle.serde_json.specs.Find.{as_str};
ghost use Rattle.serde_json.specs.View.{view};
ghost use Rattle.tinystr.specs.SmallText.{IsSmall, padded};
ghost use Rattle.tinystr.specs.declared.error.UleError.{UleError};

use crate::{TinyAsciiStr, UleError, UnvalidatedTinyAsciiStr};
use serde_json::Value;
use std::alloc::{AllocError, Global};

impl<const N: usize> TinyAsciiStr<N> {
    /// The text as a JSON value: `ab` gives `"ab"`. It allocates, but for the empty text. `AllocError`: out of memory.
    pub fn to_json(&self, alloc: Global) -> Result<Value, AllocError>
        ensures succeeds { self.now ≡ [] → IsOk result }
        ensures value { IfOk result (λ value. view value ≡ string self.now) }
    {
        let text = if self.is_empty() {
            String::new(alloc)
        } else {
            String::from_str(alloc, self.as_str())?
        };
        Ok(Value::String(text))
    }

    /// The text in a JSON value: `"ab"` gives `ab`.
    ///
    /// A value that is no text is `Length(0)`; a text that `try_from_str` refuses is `Parse`. It does not allocate.
    pub fn from_json(value: &Value) -> Result<Self, UleError>
        ensures value { (text : List ℕ) → as_str (view value.now) ≡ Some text → IsSmall N text → result ≡ Ok text }
        ensures no_text { as_str (view value.now) ≡ None → result ≡ Err (UleError.Length 0) }
        ensures refused { (text : List ℕ) → as_str (view value.now) ≡ Some text → ¬ (IsSmall N text)
            → result ≡ Err UleError.Parse }
    {
        match value.as_str() {
            None => Err(UleError::Length(0)),
            Some(text) => match Self::try_from_str(text) {
                Ok(read) => Ok(read),
                Err(_) => Err(UleError::Parse),
            },
        }
    }
}

impl<const N: usize> UnvalidatedTinyAsciiStr<N> {
    /// The bytes of the text in a JSON value, filled up with NULs: `"ab"` at 4 gives `[97, 98, 0, 0]`.
    ///
    /// A value that is no text is `Length(0)`; a text of more than N bytes is `Parse`. It does not allocate.
    pub fn from_json(value: &Value) -> Result<Self, UleError>
        ensures value { (text : List ℕ) → as_str (view value.now) ≡ Some text → length text ≤ N
            → result ≡ Ok (padded N text) }
        ensures no_text { as_str (view value.now) ≡ None → result ≡ Err (UleError.Length 0) }
        ensures refused { (text : List ℕ) → as_str (view value.now) ≡ Some text → N < length text
            → result ≡ Err UleError.Parse }
    {
        match value.as_str() {
            None => Err(UleError::Length(0)),
            Some(text) => match Self::try_from_utf8(text.as_bytes()) {
                Ok(read) => Ok(read),
                Err(_) => Err(UleError::Parse),
            },
        }
    }
}
