//! Tests of texts that several rules use.

ghost use Rattle.std.specs.Prelude.{◌≡◌};
ghost use Rattle.std.specs.List.{list_all};
ghost use Rattle.std.specs.Char.{is_ascii_alphabetic, is_ascii_digit};
ghost use Rattle.icu_locale_core_grammar.specs.Subtags.{is_plain, has_characters};

// Whether every character is a letter.
pub(crate) fn are_letters(text: &[u8]) -> bool
    ensures { result ≡ list_all is_ascii_alphabetic text.now }
{
    text.iter().all(|b| b.is_ascii_alphabetic())
}

// Whether every character is a digit.
pub(crate) fn are_digits(text: &[u8]) -> bool
    ensures { result ≡ list_all is_ascii_digit text.now }
{
    text.iter().all(|b| b.is_ascii_digit())
}

// Whether every character is a letter or a digit.
pub(crate) fn are_letters_and_digits(text: &[u8]) -> bool
    ensures { result ≡ is_plain text.now }
{
    text.iter().all(|b| b.is_ascii_alphanumeric())
}

// Whether the text is a word of letters and digits, of a length between the two.
pub(crate) fn is_word(text: &[u8], least: usize, most: usize) -> bool
    ensures { result ≡ has_characters least most text.now }
{
    least <= text.len() && text.len() <= most && are_letters_and_digits(text)
}
