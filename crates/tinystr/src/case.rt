//! The three case changes. Each maps every character at its place.

ghost use Rattle.std.specs.Prelude.{◌≡◌};
ghost use Rattle.tinystr.specs.Case.{lowercase, uppercase, titlecase};

use crate::TinyAsciiStr;
use crate::bytes::make_title;
use tinystr_words::{ToLowercase, ToUppercase, change};

impl<const N: usize> TinyAsciiStr<N> {
    /// The text with every letter in lower case: `tEsT` gives `test`. It does not allocate.
    pub fn to_ascii_lowercase(self) -> Self
        ensures { result ≡ lowercase self.entry }
    {
        let mut bytes = *self.all_bytes();
        change::<ToLowercase>(&mut bytes);
        Self::from_utf8_unchecked(bytes)
    }

    /// The text with every letter in upper case: `tEsT` gives `TEST`. It does not allocate.
    pub fn to_ascii_uppercase(self) -> Self
        ensures { result ≡ uppercase self.entry }
    {
        let mut bytes = *self.all_bytes();
        change::<ToUppercase>(&mut bytes);
        Self::from_utf8_unchecked(bytes)
    }

    /// The text with its first character in upper case and the rest in lower case: `tEsT` gives `Test`.
    ///
    /// Only the first character is put in upper case, a letter or not: `1ab` stays. It does not allocate.
    pub fn to_ascii_titlecase(self) -> Self
        ensures { result ≡ titlecase self.entry }
    {
        let mut bytes = *self.all_bytes();
        make_title(&mut bytes);
        Self::from_utf8_unchecked(bytes)
    }
}
