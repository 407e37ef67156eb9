//! Case changes of one word.

ghost use Rattle.std.specs.Prelude.{◌≡◌, ◌<◌, ◌^◌, ℕ, map};
ghost use Rattle.std.specs.Char.{to_ascii_lowercase, to_ascii_uppercase};
ghost use Rattle.std.specs.Str.{IsAscii};
ghost use Rattle.tinystr_words.specs.Words.{word_bytes};

use crate::classes::{Lowercase, Uppercase, WordClass};
use crate::flags::twice_within;

/// A change of each byte of a word by itself.
pub trait WordChange {
    ghost change: { ℕ → ℕ };

    /// The word with each byte changed: by `ToUppercase`, that of `ab` becomes that of `AB`. The condition is that each
    /// byte is below 128.
    fn changed(word: u64) -> u64
        requires ascii { IsAscii (word_bytes word) }
        ensures { word_bytes result ≡ map change (word_bytes word) };

    /// The same of a word of at most seven bytes, by sums of the doubled word. The condition is that each byte is below
    /// 128, and that the highest byte is 0.
    fn changed_part(word: u64) -> u64
        requires part { word < 2 ^ 56 }
        requires ascii { IsAscii (word_bytes word) }
        ensures { word_bytes result ≡ map change (word_bytes word) };
}

/// Each letter in lower case.
pub struct ToLowercase;

/// Each letter in upper case.
pub struct ToUppercase;

impl WordChange for ToLowercase {
    ghost change = { to_ascii_lowercase };

    fn changed(word: u64) -> u64 {
        word ^ (Uppercase::flags(word) >> 2)
    }

    fn changed_part(word: u64) -> u64 {
        word ^ (twice_within(word, b'A', b'Z') >> 3)
    }
}

impl WordChange for ToUppercase {
    ghost change = { to_ascii_uppercase };

    fn changed(word: u64) -> u64 {
        word ^ (Lowercase::flags(word) >> 2)
    }

    fn changed_part(word: u64) -> u64 {
        word ^ (twice_within(word, b'a', b'z') >> 3)
    }
}
