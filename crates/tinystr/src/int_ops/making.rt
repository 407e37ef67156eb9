//! How `Aligned4` and `Aligned8` are made.

ghost use Rattle.std.specs.Prelude.{◌≡◌, ◌≤◌};
ghost use Rattle.tinystr_words.specs.Words.{word_bytes};
ghost use Rattle.tinystr.specs.SmallText.{IsForm, padded, text_of};

use super::aligned::{Aligned4, Aligned8};
use crate::AsciiByte;
use crate::bytes::put_ascii;

// The word of a form of at most 8 bytes.
fn word_of<const N: usize>(src: &[AsciiByte; N]) -> u64
    requires fits { N ≤ 8 }
    requires form { IsForm N src.now }
    ensures { word_bytes result ≡ padded 8 (text_of src.now) }
{
    let mut bytes = [0; 8];
    put_ascii(&mut bytes, src);
    u64::from_le_bytes(bytes)
}

impl Aligned4 {
    /// The text of these bytes: `[B97, B0]` is `a`. The condition is that they are a text and then NULs, and at most 4.
    /// It does not allocate.
    pub fn from_ascii_bytes<const N: usize>(src: &[AsciiByte; N]) -> Self
        requires fits { N ≤ 4 }
        requires form { IsForm N src.now }
        ensures { result ≡ text_of src.now }
    {
        Self::of_word(word_of(src))
    }
}

impl Aligned8 {
    /// The text of these bytes: `[B97, B0]` is `a`. The condition is that they are a text and then NULs, and at most 8.
    /// It does not allocate.
    pub fn from_ascii_bytes<const N: usize>(src: &[AsciiByte; N]) -> Self
        requires fits { N ≤ 8 }
        requires form { IsForm N src.now }
        ensures { result ≡ text_of src.now }
    {
        Self::of_word(word_of(src))
    }
}
