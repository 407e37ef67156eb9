//! Lossy readers: every list of units gives a text.

ghost use Rattle.std.specs.Prelude.{◌≡◌, true, map, take};
ghost use Rattle.tinystr.specs.SmallText.{is_text_byte};
ghost use Rattle.tinystr.specs.Lossy.{kept_or_replacement};

use crate::TinyAsciiStr;
use crate::bytes::put_lossy;
use crate::utf16::put_lossy_utf16;

impl<const N: usize> TinyAsciiStr<N> {
    /// The first N bytes, each NUL and each byte above 127 replaced.
    ///
    /// `[97, 0, 255, 98, 99]` at 4 with `b'?'` is `a??b`. The condition is that the replacement is 1 to 127. It does
    /// not allocate.
    pub fn from_utf8_lossy(code_units: &[u8], replacement: u8) -> Self
        requires { is_text_byte replacement ≡ true }
        ensures { result ≡ map (kept_or_replacement replacement) (take N code_units.now) }
    {
        let mut bytes = [0; N];
        put_lossy(
            &mut bytes,
            &code_units[..code_units.len().min(N)],
            replacement,
        );
        Self::from_utf8_unchecked(bytes)
    }

    /// The first N UTF-16 units, each NUL and each unit above 127 replaced.
    ///
    /// `[0x61, 0x30AB]` at 4 with `b'?'` is `a?`. The condition is that the replacement is 1 to 127. It does not
    /// allocate.
    pub fn from_utf16_lossy(code_units: &[u16], replacement: u8) -> Self
        requires { is_text_byte replacement ≡ true }
        ensures { result ≡ map (kept_or_replacement replacement) (take N code_units.now) }
    {
        let mut bytes = [0; N];
        put_lossy_utf16(
            &mut bytes,
            &code_units[..code_units.len().min(N)],
            replacement,
        );
        Self::from_utf8_unchecked(bytes)
    }
}
