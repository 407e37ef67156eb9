//! The nine tests of classes. Each is true of the empty text.

ghost use Rattle.std.specs.Prelude.{◌≡◌, ◌↔◌, ◌&&◌, IsTrue, not};
ghost use Rattle.std.specs.List.{list_all};
ghost use Rattle.std.specs.Char.{is_ascii_alphabetic, is_ascii_alphanumeric, is_ascii_digit, is_ascii_uppercase, is_ascii_lowercase};
ghost use Rattle.tinystr.specs.Classes.{is_in_class, is_not_uppercase, is_not_lowercase};
ghost use Rattle.tinystr.specs.Case.{lowercase, uppercase, titlecase};

use crate::TinyAsciiStr;
use crate::bytes::{is_title, is_title_of_letters};
use tinystr_words::{Digits, Letters, LettersAndDigits, Lowercase, Uppercase, WordClass};

impl<const N: usize> TinyAsciiStr<N> {
    // Whether every character is in the class.
    fn all<C: WordClass>(&self) -> bool
        ensures { result ≡ list_all C.test self.now }
    {
        tinystr_words::all::<C>(self.all_bytes())
    }

    // Whether no character is in the class.
    fn none<C: WordClass>(&self) -> bool
        ensures { result ≡ list_all (λ b. not (C.test b)) self.now }
    {
        tinystr_words::none::<C>(self.all_bytes())
    }

    /// Whether every character is a letter: of `aB` and of the empty text, not of `a1`. It does not allocate.
    pub fn is_ascii_alphabetic(&self) -> bool
        ensures { result ≡ list_all is_ascii_alphabetic self.now }
    {
        self.all::<Letters>()
    }

    /// Whether every character is a letter or a digit: of `a1` and of the empty text, not of `a-`. It does not
    /// allocate.
    pub fn is_ascii_alphanumeric(&self) -> bool
        ensures { result ≡ list_all is_ascii_alphanumeric self.now }
    {
        self.all::<LettersAndDigits>()
    }

    /// Whether every character is a digit: of `12` and of the empty text, not of `1a`. It does not allocate.
    pub fn is_ascii_numeric(&self) -> bool
        ensures { result ≡ list_all is_ascii_digit self.now }
    {
        self.all::<Digits>()
    }

    /// Whether lower case leaves the text as it is: of `a1-`, not of `aB`. It does not allocate.
    pub fn is_ascii_lowercase(&self) -> bool
        ensures value { result ≡ list_all is_not_uppercase self.now }
        ensures fixed { IsTrue result ↔ (lowercase self.now ≡ self.now) }
    {
        self.none::<Uppercase>()
    }

    /// Whether upper case leaves the text as it is: of `A1-`, not of `aB`. It does not allocate.
    pub fn is_ascii_uppercase(&self) -> bool
        ensures value { result ≡ list_all is_not_lowercase self.now }
        ensures fixed { IsTrue result ↔ (uppercase self.now ≡ self.now) }
    {
        self.none::<Lowercase>()
    }

    /// Whether title case leaves the text as it is: of `Ab` and `1b`, not of `ab` or `AB`. It does not allocate.
    pub fn is_ascii_titlecase(&self) -> bool
        ensures value { result ≡ is_in_class is_not_lowercase is_not_uppercase self.now }
        ensures fixed { IsTrue result ↔ (titlecase self.now ≡ self.now) }
    {
        is_title(self.all_bytes())
    }

    /// Whether every character is a letter, and lower case leaves the text as it is: of `ab`, not of `a1`. It does not
    /// allocate.
    pub fn is_ascii_alphabetic_lowercase(&self) -> bool
        ensures value { result ≡ list_all is_ascii_lowercase self.now }
        ensures both { result ≡ (list_all is_ascii_alphabetic self.now && list_all is_not_uppercase self.now) }
    {
        self.all::<Lowercase>()
    }

    /// Whether every character is a letter, and upper case leaves the text as it is: of `AB`, not of `A1`. It does not
    /// allocate.
    pub fn is_ascii_alphabetic_uppercase(&self) -> bool
        ensures value { result ≡ list_all is_ascii_uppercase self.now }
        ensures both { result ≡ (list_all is_ascii_alphabetic self.now && list_all is_not_lowercase self.now) }
    {
        self.all::<Uppercase>()
    }

    /// Whether every character is a letter, and title case leaves the text as it is: of `Ab`, not of `1b`. It does not
    /// allocate.
    pub fn is_ascii_alphabetic_titlecase(&self) -> bool
        ensures value { result ≡ is_in_class is_ascii_uppercase is_ascii_lowercase self.now }
        ensures both { result
            ≡ (list_all is_ascii_alphabetic self.now && is_in_class is_not_lowercase is_not_uppercase self.now) }
    {
        is_title_of_letters(self.all_bytes())
    }
}
