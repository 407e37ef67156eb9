//! `TinyAsciiStr`: the value, and what borrows or counts it.

ghost use Rattle.std.specs.Prelude.{◌≡◌, ◌≤◌, ◌<◌, length, ◌==◌};
ghost use Rattle.std.specs.List.{All};
ghost use Rattle.tinystr.specs.SmallText.{IsSmall, IsForm, padded, text_of};

use crate::bytes::{form_of, text_len};
use std::marker::Model;
use std::str;

/// A text of at most N bytes, each 1 to 127, held in the value itself: `tEsT` at 4.
#[derive(Clone, Copy)]
pub struct TinyAsciiStr<const N: usize> {
    bytes: [u8; N],
}

/// A text of at most 4 bytes: `Latn`.
pub type TinyStr4 = TinyAsciiStr<4>;

/// A text of at most 8 bytes: `buddhist`.
pub type TinyStr8 = TinyAsciiStr<8>;

/// A text of at most 16 bytes: `ar-EG-u-nu-thai`.
pub type TinyStr16 = TinyAsciiStr<16>;

impl<const N: usize> Model for TinyAsciiStr<N> {
    ghost use Rattle.std.specs.Prelude.{List, ℕ};
    ghost use Rattle.std.proofs.Common.{sym};
    ghost use Rattle.tinystr.specs.SmallText.{text_of, padded, IsForm};

    ghost Value = { List ℕ };

    ghost view = { λ s. text_of s.bytes };

    ghost invariant = { λ s. IsForm N s.bytes };

    ghost inverse = { λ text. record { bytes = padded N text } };

    ghost inverse_ok = { λ s h i. record { bytes = (sym h.rest) i } };
}

impl<const N: usize> TinyAsciiStr<N> {
    /// The empty text: its `len` is 0 at every N.
    pub const EMPTY: Self = TinyAsciiStr { bytes: [0; N] };

    /// The text of these bytes: `[97, 0, 0, 0]` is `a`.
    ///
    /// The condition is that they are a text and then NULs. Bytes that may be another list go to `try_from_raw`. It
    /// does not allocate.
    pub fn from_utf8_unchecked(code_units: [u8; N]) -> Self
        requires { IsForm N code_units }
        ensures { result ≡ text_of code_units.entry }
    {
        TinyAsciiStr { bytes: code_units }
    }

    /// The text of these bytes: `[97, 98]` is `ab`.
    ///
    /// The condition is that they are a text that fits. Bytes that may be no text, or too many, go to `try_from_utf8`.
    /// It does not allocate.
    pub fn of_text(text: &[u8]) -> Self
        requires { IsSmall N text.now }
        ensures { result ≡ text.now }
    {
        TinyAsciiStr {
            bytes: form_of(text),
        }
    }

    /// The text as a `&str`: `as_str` of `tEsT` is `"tEsT"`. It does not allocate.
    pub fn as_str(&self) -> &str
        ensures { result.now ≡ self.now }
    {
        unsafe { str::from_utf8_unchecked(self.as_utf8()) }
    }

    /// The text's bytes, without the NULs that fill the value: `[97, 98]` of `ab`. It does not allocate.
    pub fn as_utf8(&self) -> &[u8]
        ensures value { result.now ≡ self.now }
        ensures small { IsSmall N result.now }
    {
        &self.bytes[..self.len()]
    }

    /// The N bytes of the value: the text, then NULs. Of `ab` at 4 they are `[97, 98, 0, 0]`. It does not allocate.
    pub fn all_bytes(&self) -> &[u8; N]
        ensures value { result.now ≡ padded N self.now }
        ensures small { IsSmall N self.now }
        ensures form { IsForm N result.now }
        ensures ascii { All (λ b. b < 128) result.now }
    {
        &self.bytes
    }

    /// How many characters the text has, 0 to N: 2 of `ab`. It does not allocate.
    pub fn len(&self) -> usize
        ensures value { result ≡ length self.now }
        ensures bound { result ≤ N }
    {
        text_len(&self.bytes)
    }

    /// Whether the text has no character: false of `ab`. It does not allocate.
    pub fn is_empty(&self) -> bool
        ensures { result ≡ (length self.now == 0) }
    {
        self.len() == 0
    }
}

impl TinyAsciiStr<3> {
    /// The text `und`, which BCP 47 gives to a language that is not known.
    pub const UND: Self = TinyAsciiStr { bytes: *b"und" };
}
