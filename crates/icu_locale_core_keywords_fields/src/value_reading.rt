//! Reading a value piece by piece.

ghost use Rattle.std.specs.Prelude.{◌≡◌, false, [], Some, None, IfOk, IfErr, IsOk, OnErr, MatchBool};
ghost use Rattle.std.specs.Result.{IsErrOf};
ghost use Rattle.icu_locale_core_grammar.specs.declared.error.ParseError.{ParseError};
ghost use Rattle.icu_locale_core_grammar.specs.Pieces.{pieces};
ghost use Rattle.icu_locale_core_grammar.specs.PartReaders.{value_after, ReadsValue};
ghost use Rattle.icu_locale_core_keywords_fields.specs.Allocation.{keeps_value, value_grows};
ghost use Rattle.icu_locale_core_subtag_lists.specs.Reading.{IsRefused};

use crate::kind::EntryKind;
use crate::value::ValueOf;
use icu_locale_core_grammar::ParseError;
use icu_locale_core_subtags::{SubtagIterator, value_subtag};
use std::alloc::{AllocError, Global};

impl<K: EntryKind> ValueOf<K> {
    // Takes a piece of a text, if it is a piece of a value, and returns whether it is.
    //
    // `AllocError`: out of memory, and the value is as before.
    pub(crate) fn take_piece(&mut self, piece: &[u8]) -> Result<bool, AllocError>
        ensures taken { IfOk result
            (λ taken. MatchBool taken (value_after self.old piece.now ≡ Some self.new)
            ((value_after self.old piece.now ≡ None) × (self.new ≡ self.old))) }
        ensures err { OnErr result (self.new ≡ self.old) }
        ensures room { value_grows piece.now ≡ false → IsOk result }
    {
        let Some(subtag) = value_subtag(piece) else {
            return Ok(false);
        };
        self.push_subtag(subtag)?;
        Ok(true)
    }

    /// The value of this text: pieces of 3 to 8 letters and digits between hyphens, in lower case, without `true`.
    ///
    /// `ABC-true-def` is `abc-def`, and the empty text the empty value. `ParseError::InvalidExtension`: a piece is of
    /// another kind. `ParseError::Memory`: out of memory. It does not allocate where only `true` comes before the first
    /// piece of another kind or the end, as in `true-toolongpiece`.
    pub fn try_from_str(alloc: Global, s: &str) -> Result<Self, ParseError>
        ensures value { IfOk result (ReadsValue s.now) }
        ensures fault { IfErr result (IsRefused (ReadsValue s.now)) }
        ensures succeeds { s.now ≡ [] → IsOk result }
        ensures room { keeps_value (pieces s.now) ≡ false → ¬ (IsErrOf result ParseError.Memory) }
    {
        Self::try_from_utf8(alloc, s.as_bytes())
    }

    /// The value of these bytes, as `try_from_str`: `ABC-true-def` is `abc-def`. The errors are those of
    /// `try_from_str`; it allocates where that does.
    pub fn try_from_utf8(alloc: Global, code_units: &[u8]) -> Result<Self, ParseError>
        ensures value { IfOk result (ReadsValue code_units.now) }
        ensures fault { IfErr result (IsRefused (ReadsValue code_units.now)) }
        ensures succeeds { code_units.now ≡ [] → IsOk result }
        ensures room { keeps_value (pieces code_units.now) ≡ false → ¬ (IsErrOf result ParseError.Memory) }
    {
        let mut value = Self::new_empty(alloc);
        if code_units.is_empty() {
            return Ok(value);
        }
        for piece in SubtagIterator::new(code_units) {
            match value.take_piece(piece) {
                Ok(true) => {}
                Ok(false) => return Err(ParseError::InvalidExtension),
                Err(_) => return Err(ParseError::Memory),
            }
        }
        Ok(value)
    }
}
