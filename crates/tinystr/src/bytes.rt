//! What is computed from the bytes of a form or of a text.

ghost use Rattle.std.specs.Prelude.{◌≡◌, ◌≤◌, ◌++◌, length, drop, map};
ghost use Rattle.std.specs.Char.{is_ascii_uppercase, is_ascii_lowercase};
ghost use Rattle.std.specs.Str.{IsAscii};
ghost use Rattle.tinystr_words.specs.Words.{or_nul};
ghost use Rattle.tinystr.specs.SmallText.{IsForm, IsSmall, padded, text_of};
ghost use Rattle.tinystr.specs.Lossy.{kept_or_replacement};
ghost use Rattle.tinystr.specs.Classes.{is_in_class, is_not_uppercase, is_not_lowercase};
ghost use Rattle.tinystr.specs.Case.{titlecase};

use crate::AsciiByte;
use tinystr_words::{Lowercase, Uppercase, put_at, short_word};

// How many bytes the text of a form has.
pub(crate) fn text_len(bytes: &[u8]) -> usize
    requires { IsForm (length bytes.now) bytes.now }
    ensures value { result ≡ length (text_of bytes.now) }
    ensures bound { result ≤ length bytes.now }
{
    tinystr_words::text_len(bytes)
}

// The form of a text that fits. Up to eight bytes it goes by one word, which is never written and read again.
pub(crate) fn form_of<const N: usize>(text: &[u8]) -> [u8; N]
    requires { IsSmall N text.now }
    ensures { result ≡ padded N text.now }
{
    let mut bytes = [0; N];
    if N <= 8 {
        put_at(&mut bytes, 0, &short_word(text).to_le_bytes()[..N]);
    } else {
        put_at(&mut bytes, 0, text);
    }
    bytes
}

// Whether the first byte is no lower-case letter, and the rest are no upper-case ones.
pub(crate) fn is_title(bytes: &[u8]) -> bool
    requires { IsAscii bytes.now }
    ensures { result ≡ is_in_class is_not_lowercase is_not_uppercase bytes.now }
{
    match bytes.split_first() {
        None => true,
        Some((first, rest)) => !first.is_ascii_lowercase()
            && tinystr_words::none::<Uppercase>(rest),
    }
}

// Whether the first byte is an upper-case letter, and the rest are lower-case ones; each may be NUL.
pub(crate) fn is_title_of_letters(bytes: &[u8]) -> bool
    requires { IsAscii bytes.now }
    ensures { result ≡ is_in_class (or_nul is_ascii_uppercase) (or_nul is_ascii_lowercase) bytes.now }
{
    match bytes.split_first() {
        None => true,
        Some((first, rest)) => {
            (*first == 0 || first.is_ascii_uppercase()) && tinystr_words::all::<Lowercase>(rest)
        }
    }
}

// Puts the first byte in upper case and the rest in lower case.
pub(crate) fn make_title(bytes: &mut [u8])
    requires { IsAscii bytes.old }
    ensures { bytes.new ≡ titlecase bytes.old }
{
    tinystr_words::make_title(bytes);
}

// The unit as a byte, or the replacement where it may not be in a text.
pub(crate) fn lossy_byte(unit: u16, replacement: u8) -> u8
    ensures { result ≡ kept_or_replacement replacement unit }
{
    if unit == 0 || unit > 127 {
        replacement
    } else {
        unit as u8
    }
}

// Writes bytes over the first ones, each that may not be in a text replaced.
pub(crate) fn put_lossy(bytes: &mut [u8], units: &[u8], replacement: u8)
    requires { length units.now ≤ length bytes.old }
    ensures { bytes.new ≡ map (kept_or_replacement replacement) units.now ++ drop (length units.now) bytes.old }
{
    for (i, unit) in units.iter().enumerate() {
        bytes[i] = lossy_byte(u16::from(*unit), replacement);
    }
}

// Writes ASCII bytes over the first ones.
pub(crate) fn put_ascii(bytes: &mut [u8], src: &[AsciiByte])
    requires { length src.now ≤ length bytes.old }
    ensures { bytes.new ≡ src.now ++ drop (length src.now) bytes.old }
{
    for (i, b) in src.iter().enumerate() {
        bytes[i] = b.value();
    }
}
