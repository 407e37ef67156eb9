//! `Aligned`: a text of at most M bytes in one word of eight.

ghost use Rattle.std.specs.Prelude.{◌≡◌, ◌↔◌, ◌≤◌, ◌&&◌, IsTrue, length, not};
ghost use Rattle.std.specs.List.{list_all};
ghost use Rattle.std.specs.Char.{is_ascii_alphabetic, is_ascii_alphanumeric, is_ascii_digit, is_ascii_uppercase, is_ascii_lowercase};
ghost use Rattle.tinystr_words.specs.Words.{word_bytes};
ghost use Rattle.tinystr.specs.SmallText.{IsForm, IsSmall, padded, text_of};
ghost use Rattle.tinystr.specs.Classes.{is_in_class, is_not_uppercase, is_not_lowercase};
ghost use Rattle.tinystr.specs.Case.{lowercase, uppercase, titlecase};

use crate::{AsciiByte, TinyAsciiStr, to_ascii_byte_array};
use std::marker::Model;
use tinystr_words::{
    Digits, Letters, LettersAndDigits, Lowercase, Uppercase, WordClass, is_all, is_none, put_at,
    word_len,
};

/// A text of at most M bytes, and at most 8, held as one `u64` whose lowest byte is the first character.
#[derive(Drop)]
pub struct Aligned<const M: usize> {
    word: u64,
}

/// A text of at most 4 bytes in one word: `Latn`.
pub type Aligned4 = Aligned<4>;

/// A text of at most 8 bytes in one word: `buddhist`.
pub type Aligned8 = Aligned<8>;

impl<const M: usize> Model for Aligned<M> {
    ghost use Rattle.std.specs.Prelude.{List, ℕ};
    ghost use Rattle.tinystr_words.specs.Words.{word_bytes};
    ghost use Rattle.tinystr.specs.SmallText.{text_of, IsForm, IsSmall};

    ghost Value = { List ℕ };

    ghost view = { λ s. text_of (word_bytes s.word) };

    ghost invariant = { λ s. IsForm 8 (word_bytes s.word) × IsSmall M (text_of (word_bytes s.word)) };
}

impl<const M: usize> Aligned<M> {
    // The text of a word that is a form.
    pub(crate) fn of_word(word: u64) -> Self
        requires form { IsForm 8 (word_bytes word) }
        requires small { IsSmall M (text_of (word_bytes word)) }
        ensures { result ≡ text_of (word_bytes word) }
    {
        Aligned { word }
    }

    // The text as a value that owns its bytes.
    fn text(&self) -> TinyAsciiStr<8>
        ensures value { result ≡ self.now }
        ensures small { IsSmall M self.now }
    {
        TinyAsciiStr::<8>::from_utf8_unchecked(self.word.to_le_bytes())
    }

    // Whether every character is in the class.
    fn all<C: WordClass>(&self) -> bool
        ensures { result ≡ list_all C.test self.now }
    {
        is_all::<C>(self.word)
    }

    // Whether no character is in the class.
    fn none<C: WordClass>(&self) -> bool
        ensures { result ≡ list_all (λ b. not (C.test b)) self.now }
    {
        is_none::<C>(self.word)
    }

    /// How many characters the text has, 0 to M: 2 of `ab`. It does not allocate.
    pub fn len(&self) -> usize
        ensures { result ≡ length self.now }
    {
        word_len(self.word)
    }

    /// Whether every character is a letter, as of `aB` and the empty text. It does not allocate.
    pub fn is_ascii_alphabetic(&self) -> bool
        ensures { result ≡ list_all is_ascii_alphabetic self.now }
    {
        self.all::<Letters>()
    }

    /// Whether every character is a letter or a digit, as of `a1` and the empty text. It does not allocate.
    pub fn is_ascii_alphanumeric(&self) -> bool
        ensures { result ≡ list_all is_ascii_alphanumeric self.now }
    {
        self.all::<LettersAndDigits>()
    }

    /// Whether every character is a digit, as of `12` and the empty text. It does not allocate.
    pub fn is_ascii_numeric(&self) -> bool
        ensures { result ≡ list_all is_ascii_digit self.now }
    {
        self.all::<Digits>()
    }

    /// Whether lower case leaves the text as it is: of `a1-`, not of `aB`. It does not allocate.
    pub fn is_ascii_lowercase(&self) -> bool
        ensures value { result ≡ list_all is_not_uppercase self.now }
        ensures fixed { IsTrue result ↔ (lowercase self.now ≡ self.now) }
    {
        self.none::<Uppercase>()
    }

    /// Whether upper case leaves the text as it is: of `A1-`, not of `aB`. It does not allocate.
    pub fn is_ascii_uppercase(&self) -> bool
        ensures value { result ≡ list_all is_not_lowercase self.now }
        ensures fixed { IsTrue result ↔ (uppercase self.now ≡ self.now) }
    {
        self.none::<Lowercase>()
    }

    /// Whether title case leaves the text as it is: of `Ab` and `1b`, not of `ab`. It does not allocate.
    pub fn is_ascii_titlecase(&self) -> bool
        ensures value { result ≡ is_in_class is_not_lowercase is_not_uppercase self.now }
        ensures fixed { IsTrue result ↔ (titlecase self.now ≡ self.now) }
    {
        self.text().is_ascii_titlecase()
    }

    /// Whether every character is a letter, and lower case leaves the text as it is: of `ab`, not of `a1`. It does not
    /// allocate.
    pub fn is_ascii_alphabetic_lowercase(&self) -> bool
        ensures value { result ≡ list_all is_ascii_lowercase self.now }
        ensures both { result ≡ (list_all is_ascii_alphabetic self.now && list_all is_not_uppercase self.now) }
    {
        self.all::<Lowercase>()
    }

    /// Whether every character is a letter, and upper case leaves the text as it is: of `AB`, not of `A1`. It does not
    /// allocate.
    pub fn is_ascii_alphabetic_uppercase(&self) -> bool
        ensures value { result ≡ list_all is_ascii_uppercase self.now }
        ensures both { result ≡ (list_all is_ascii_alphabetic self.now && list_all is_not_lowercase self.now) }
    {
        self.all::<Uppercase>()
    }

    /// Whether every character is a letter, and title case leaves the text as it is: of `Ab`, not of `1b`. It does not
    /// allocate.
    pub fn is_ascii_alphabetic_titlecase(&self) -> bool
        ensures value { result ≡ is_in_class is_ascii_uppercase is_ascii_lowercase self.now }
        ensures both { result
            ≡ (list_all is_ascii_alphabetic self.now && is_in_class is_not_lowercase is_not_uppercase self.now) }
    {
        self.text().is_ascii_alphabetic_titlecase()
    }

    /// The M bytes of the text in lower case: `tEsT` gives those of `test`. It does not allocate.
    pub fn to_ascii_lowercase(&self) -> [AsciiByte; M]
        ensures { result ≡ padded M (lowercase self.now) }
    {
        ascii_bytes(self.text().to_ascii_lowercase())
    }

    /// The M bytes of the text in upper case: `tEsT` gives those of `TEST`. It does not allocate.
    pub fn to_ascii_uppercase(&self) -> [AsciiByte; M]
        ensures { result ≡ padded M (uppercase self.now) }
    {
        ascii_bytes(self.text().to_ascii_uppercase())
    }

    /// The M bytes of the text in title case: `tEsT` gives those of `Test`. It does not allocate.
    pub fn to_ascii_titlecase(&self) -> [AsciiByte; M]
        ensures { result ≡ padded M (titlecase self.now) }
    {
        ascii_bytes(self.text().to_ascii_titlecase())
    }
}

// The form of a text of at most M bytes, as ASCII bytes.
fn ascii_bytes<const M: usize>(text: TinyAsciiStr<8>) -> [AsciiByte; M]
    requires { IsSmall M text }
    ensures { result ≡ padded M text }
{
    let mut bytes = [0; M];
    put_at(&mut bytes, 0, &text.all_bytes()[..M.min(8)]);
    to_ascii_byte_array(&bytes)
}
