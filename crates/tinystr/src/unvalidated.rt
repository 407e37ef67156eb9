//! `UnvalidatedTinyAsciiStr`: N bytes that may be the form of a text, or not.

ghost use Rattle.std.specs.Prelude.{◌≡◌, ◌↔◌, ◌≤◌, ◌<◌, ◌%◌, false, replicate, length, IsOk, IfOk, IfErr, Err};
ghost use Rattle.tinystr.specs.SmallText.{IsForm, NUL, padded, text_of};
ghost use Rattle.tinystr.specs.Faults.{IsFault};
ghost use Rattle.tinystr.specs.declared.error.ParseError.{ParseError};
ghost use Rattle.tinystr.specs.declared.error.UleError.{UleError};

use crate::{ParseError, TinyAsciiStr, UleError};
use std::marker::Model;
use tinystr_words::put_at;

/// N bytes that may be the form of a text, or not: `[97, 0]` and `[0, 200]` at 2.
#[derive(Clone, Copy, Debug, PartialEq, Eq, PartialOrd, Ord)]
pub struct UnvalidatedTinyAsciiStr<const N: usize> {
    bytes: [u8; N],
}

impl<const N: usize> Model for UnvalidatedTinyAsciiStr<N> {
    ghost use Rattle.std.specs.Prelude.{List, ℕ};

    ghost Value = { List ℕ };

    ghost view = { λ s. s.bytes };

    ghost inverse = { λ bytes. record { bytes = bytes } };
}

impl<const N: usize> UnvalidatedTinyAsciiStr<N> {
    /// These bytes, filled up with NULs: `[200]` at 2 is `[200, 0]`.
    ///
    /// More than N bytes are `TooLong`; nothing else is refused. It does not allocate.
    pub fn try_from_utf8(bytes: &[u8]) -> Result<Self, ParseError>
        ensures succeeds { IsOk result ↔ (length bytes.now ≤ N) }
        ensures value { IfOk result (λ all. all ≡ padded N bytes.now) }
        ensures too_long { IfErr result (λ e. e ≡ ParseError.TooLong N (length bytes.now)) }
    {
        if bytes.len() > N {
            return Err(ParseError::TooLong {
                max: N,
                len: bytes.len(),
            });
        }
        let mut all = [0; N];
        put_at(&mut all, 0, bytes);
        Ok(UnvalidatedTinyAsciiStr { bytes: all })
    }

    /// These N bytes, whatever they are: `[0, 200]` at 2. It does not allocate.
    pub fn from_utf8_unchecked(bytes: [u8; N]) -> Self
        ensures { result ≡ bytes.entry }
    {
        UnvalidatedTinyAsciiStr { bytes }
    }

    /// The text of these bytes, or the error of `TinyAsciiStr::try_from_raw`.
    ///
    /// `[97, 0]` is `a`; `[0, 200]` is `NonAscii`, and `[0, 97]` `ContainsNull`. It does not allocate.
    pub fn try_into_tinystr(self) -> Result<TinyAsciiStr<N>, ParseError>
        ensures succeeds { IsOk result ↔ IsForm N self.entry }
        ensures value { IfOk result (λ text. text ≡ text_of self.entry) }
        ensures fault { IfErr result (λ e. IsFault false N self.entry e) }
    {
        TinyAsciiStr::<N>::try_from_raw(self.bytes)
    }

    /// The N bytes: `[200, 0]` of the value that `[200]` gives at 2. It does not allocate.
    pub fn to_bytes(self) -> [u8; N]
        ensures { result ≡ self.entry }
    {
        self.bytes
    }

    /// The value of N bytes, whatever they are: `[0, 200]` at 2. `[97]` at 2 is `Length(1)`.
    ///
    /// Only a count of bytes other than N is refused, as `Length` of that count. It does not allocate.
    pub fn from_bytes(bytes: &[u8]) -> Result<Self, UleError>
        ensures succeeds { IsOk result ↔ (length bytes.now ≡ N) }
        ensures value { IfOk result (λ all. all ≡ bytes.now) }
        ensures length { IfErr result (λ e. e ≡ UleError.Length (length bytes.now)) }
    {
        if bytes.len() != N {
            return Err(UleError::Length(bytes.len()));
        }
        let mut all = [0; N];
        put_at(&mut all, 0, bytes);
        Ok(UnvalidatedTinyAsciiStr { bytes: all })
    }

    /// Whether the bytes are values one after another: four bytes at 2 are, three are `Length(3)`.
    ///
    /// The condition is that N is above 0. Only a count of bytes that N does not divide is refused, as `Length` of that
    /// count. It does not allocate.
    pub fn validate_bytes(bytes: &[u8]) -> Result<(), UleError>
        requires { 0 < N }
        ensures succeeds { IsOk result ↔ (length bytes.now % N ≡ 0) }
        ensures length { IfErr result (λ e. e ≡ UleError.Length (length bytes.now)) }
    {
        if bytes.len() % N != 0 {
            return Err(UleError::Length(bytes.len()));
        }
        Ok(())
    }
}

/// N NULs, the form of the empty text: `[0, 0]` at 2.
impl<const N: usize> Default for UnvalidatedTinyAsciiStr<N> {
    ghost is_default = { λ s. s ≡ replicate N NUL };

    fn default() -> Self {
        UnvalidatedTinyAsciiStr { bytes: [0; N] }
    }
}

/// The form of the text: `[97, 0]` of `a` at 2.
impl<const N: usize> From<TinyAsciiStr<N>> for UnvalidatedTinyAsciiStr<N> {
    ghost from_gives = { λ text bytes. bytes ≡ padded N text };

    fn from(text: TinyAsciiStr<N>) -> Self {
        text.to_unvalidated()
    }
}

impl<const N: usize> TinyAsciiStr<N> {
    /// The value's N bytes, as bytes that may be the form of a text, or not: `[97, 98, 0, 0]` of `ab` at 4. It does not
    /// allocate.
    pub fn to_unvalidated(self) -> UnvalidatedTinyAsciiStr<N>
        ensures { result ≡ padded N self.entry }
    {
        UnvalidatedTinyAsciiStr {
            bytes: *self.all_bytes(),
        }
    }
}
