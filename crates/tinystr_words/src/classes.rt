//! Classes of bytes, and whether the bytes of one word are in them.

ghost use Rattle.std.specs.Prelude.{◌≡◌, ℕ, Bool, false, not, refl};
ghost use Rattle.std.specs.List.{list_all};
ghost use Rattle.std.specs.Char.{is_ascii_alphabetic, is_ascii_alphanumeric, is_ascii_digit, is_ascii_uppercase, is_ascii_lowercase};
ghost use Rattle.std.specs.Str.{IsAscii};
ghost use Rattle.tinystr_words.specs.Words.{word_bytes, flags, or_nul};

use crate::flags::{flags_from, flags_within};

/// A class of bytes, as flags of a word. NUL is in none.
pub trait WordClass {
    ghost test: { ℕ → Bool };

    /// The flags of the bytes in the class: by `Digits`, of the word of `1a` only that of the first byte. The condition
    /// is that each byte is below 128.
    fn flags(word: u64) -> u64
        requires ascii { IsAscii (word_bytes word) }
        ensures { result ≡ flags test (word_bytes word) };

    ghost no_nul: { test 0 ≡ false };
}

/// The letters.
pub struct Letters;

/// The letters and the digits.
pub struct LettersAndDigits;

/// The digits.
pub struct Digits;

/// The lower-case letters.
pub struct Lowercase;

/// The upper-case letters.
pub struct Uppercase;

impl WordClass for Lowercase {
    ghost test = { is_ascii_lowercase };

    ghost no_nul = { refl };

    fn flags(word: u64) -> u64 {
        flags_within(word, b'a', b'z')
    }
}

impl WordClass for Uppercase {
    ghost test = { is_ascii_uppercase };

    ghost no_nul = { refl };

    fn flags(word: u64) -> u64 {
        flags_within(word, b'A', b'Z')
    }
}

impl WordClass for Digits {
    ghost test = { is_ascii_digit };

    ghost no_nul = { refl };

    fn flags(word: u64) -> u64 {
        flags_within(word, b'0', b'9')
    }
}

impl WordClass for Letters {
    ghost test = { is_ascii_alphabetic };

    ghost no_nul = { refl };

    fn flags(word: u64) -> u64 {
        Lowercase::flags(word) | Uppercase::flags(word)
    }
}

impl WordClass for LettersAndDigits {
    ghost test = { is_ascii_alphanumeric };

    ghost no_nul = { refl };

    fn flags(word: u64) -> u64 {
        Letters::flags(word) | Digits::flags(word)
    }
}

/// Whether every byte of the word is in the class, or NUL: of `Digits`, true of the word of `12` and false of that of
/// `1a`. The condition is that each byte is below 128. It does not allocate.
pub fn is_all<C: WordClass>(word: u64) -> bool
    requires ascii { IsAscii (word_bytes word) }
    ensures { result ≡ list_all (or_nul C.test) (word_bytes word) }
{
    C::flags(word) == flags_from(word, 1)
}

/// Whether no byte of the word is in the class: of `Digits`, true of the word of `ab` and false of that of `1a`. The
/// condition is that each byte is below 128. It does not allocate.
pub fn is_none<C: WordClass>(word: u64) -> bool
    requires ascii { IsAscii (word_bytes word) }
    ensures { result ≡ list_all (λ b. not (C.test b)) (word_bytes word) }
{
    C::flags(word) == 0
}
