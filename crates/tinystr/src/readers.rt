//! Readers: a text out of units, or the fault that comes first.

ghost use Rattle.std.specs.Prelude.{◌≡◌, ◌↔◌, true, false, IsOk, IfOk, IfErr, MatchResult};
ghost use Rattle.tinystr.specs.SmallText.{IsSmall, IsForm, text_of};
ghost use Rattle.tinystr.specs.Faults.{IsFault};

use crate::faults::{check_bytes, check_text};
use crate::utf16::{check_utf16_text, narrow};
use crate::{ParseError, TinyAsciiStr};
use std::str::FromStr;

impl<const N: usize> TinyAsciiStr<N> {
    /// The text `s`: `tEsT` at 4.
    ///
    /// `hello` at 4 is `TooLong { max: 4, len: 5 }`, `a` with a NUL `ContainsNull`, `ä` `NonAscii`. It does not
    /// allocate.
    pub fn try_from_str(s: &str) -> Result<Self, ParseError>
        ensures succeeds { IsOk result ↔ IsSmall N s.now }
        ensures value { IfOk result (λ text. text ≡ s.now) }
        ensures fault { IfErr result (λ e. IsFault true N s.now e) }
    {
        Self::try_from_utf8(s.as_bytes())
    }

    /// The text of these bytes: `[97, 98]` is `ab`.
    ///
    /// More than N bytes are `TooLong`. Then the least place that is wrong decides: a byte above 127 is `NonAscii`,
    /// another byte after a NUL `ContainsNull`. Last, a NUL at the end is `ContainsNull`. It does not allocate.
    pub fn try_from_utf8(code_units: &[u8]) -> Result<Self, ParseError>
        ensures succeeds { IsOk result ↔ IsSmall N code_units.now }
        ensures value { IfOk result (λ text. text ≡ code_units.now) }
        ensures fault { IfErr result (λ e. IsFault true N code_units.now e) }
    {
        match check_text(code_units, N) {
            Ok(()) => Ok(Self::of_text(code_units)),
            Err(fault) => Err(fault),
        }
    }

    /// The text of these UTF-16 units: `[0x61, 0x62]` is `ab`. The errors are those of `try_from_utf8`, of units in
    /// place of bytes. It does not allocate.
    pub fn try_from_utf16(code_units: &[u16]) -> Result<Self, ParseError>
        ensures succeeds { IsOk result ↔ IsSmall N code_units.now }
        ensures value { IfOk result (λ text. text ≡ code_units.now) }
        ensures fault { IfErr result (λ e. IsFault true N code_units.now e) }
    {
        match check_utf16_text(code_units, N) {
            Ok(()) => {
                let mut bytes = [0; N];
                narrow(&mut bytes, code_units);
                Ok(Self::from_utf8_unchecked(bytes))
            }
            Err(fault) => Err(fault),
        }
    }

    /// The text before the NULs that end these N bytes: `a` and three NULs are `a`.
    ///
    /// The errors are those of `try_from_utf8`, but NULs at the end are allowed; `TooLong` is never returned. It does
    /// not allocate.
    pub fn try_from_raw(raw: [u8; N]) -> Result<Self, ParseError>
        ensures succeeds { IsOk result ↔ IsForm N raw.entry }
        ensures value { IfOk result (λ text. text ≡ text_of raw.entry) }
        ensures fault { IfErr result (λ e. IsFault false N raw.entry e) }
    {
        match check_bytes(&raw, N) {
            Ok(_) => Ok(Self::from_utf8_unchecked(raw)),
            Err(fault) => Err(fault),
        }
    }
}

/// The text `s`, as `try_from_str`: `tEsT` at 4.
impl<const N: usize> FromStr for TinyAsciiStr<N> {
    type Err = ParseError;

    ghost from_str_gives = { λ s r. MatchResult r (λ text. IsSmall N s × (text ≡ s)) (λ e. IsFault true N s e) };

    fn from_str(s: &str) -> Result<Self, ParseError> {
        Self::try_from_str(s)
    }
}
