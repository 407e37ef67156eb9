//! Byte forms of a `TinyAsciiStr`.

ghost use Rattle.std.specs.Prelude.{◌≡◌, ◌↔◌, ◌<◌, ◌%◌, IsOk, IfOk, IfErr, length};
ghost use Rattle.tinystr.specs.SmallText.{IsForm, padded, text_of};
ghost use Rattle.tinystr.specs.Forms.{AreForms, IsUleFault};

use crate::bytes::text_len;
use crate::faults::is_form;
use crate::{TinyAsciiStr, UleError};

impl<const N: usize> TinyAsciiStr<N> {
    /// N bytes 255, which are the form of no text where N is above 0: `[255, 255]` at 2.
    pub const NICHE_BIT_PATTERN: [u8; N] = [255; N];

    /// The value's N bytes: the text, then NULs. `ab` at 4 gives `[97, 98, 0, 0]`. It does not allocate.
    pub fn to_bytes(self) -> [u8; N]
        ensures { result ≡ padded N self.entry }
    {
        *self.all_bytes()
    }

    /// The value of its N bytes: `[97, 98, 0, 0]` at 4 is `ab`.
    ///
    /// Another count of bytes is `Length` of that count; N bytes that are no form are `Parse`. It does not allocate.
    pub fn from_bytes(bytes: &[u8]) -> Result<Self, UleError>
        ensures succeeds { IsOk result ↔ IsForm N bytes.now }
        ensures value { IfOk result (λ text. text ≡ text_of bytes.now) }
        ensures fault { IfErr result (λ e. IsUleFault (length bytes.now ≡ N) (IsForm N bytes.now) bytes.now e) }
    {
        if bytes.len() != N {
            return Err(UleError::Length(bytes.len()));
        }
        if !is_form(bytes) {
            return Err(UleError::Parse);
        }
        Ok(Self::of_text(&bytes[..text_len(bytes)]))
    }

    /// Whether the bytes are forms one after another: `a`, NUL, `b`, NUL at 2 are those of `a` and `b`.
    ///
    /// The condition is that N is above 0. A count that N does not divide is `Length` of that count; else `Parse` where
    /// one of them is no form. It does not allocate.
    pub fn validate_bytes(bytes: &[u8]) -> Result<(), UleError>
        requires { 0 < N }
        ensures succeeds { IsOk result ↔ AreForms N bytes.now }
        ensures fault { IfErr result (λ e. IsUleFault (length bytes.now % N ≡ 0) (AreForms N bytes.now) bytes.now e) }
    {
        if bytes.len() % N != 0 {
            return Err(UleError::Length(bytes.len()));
        }
        let mut rest = bytes;
        while !rest.is_empty() {
            let (form, more) = rest.split_at(N);
            if !is_form(form) {
                return Err(UleError::Parse);
            }
            rest = more;
        }
        Ok(())
    }
}
