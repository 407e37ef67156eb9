//! The length of one word, and the word of at most eight bytes.

ghost use Rattle.std.specs.Prelude.{◌≡◌, ◌≤◌, true, length};
ghost use Rattle.tinystr_words.specs.Words.{word_bytes, filled, nuls_last, text_bytes};

use crate::slices::put_at;

/// How many bytes of the word are before its NULs: 2 of `[97, 98, 0, 0, 0, 0, 0, 0]`. The condition is that the NULs
/// are the last. It does not allocate.
pub fn word_len(word: u64) -> usize
    requires last { nuls_last (word_bytes word) ≡ true }
    ensures { result ≡ text_bytes (word_bytes word) }
{
    8 - word.leading_zeros() as usize / 8
}

// The word of at most eight bytes, filled up with NULs.
pub(crate) fn word_at(bytes: &[u8]) -> u64
    requires { length bytes.now ≤ 8 }
    ensures { word_bytes result ≡ filled bytes.now }
{
    let mut eight = [0; 8];
    put_at(&mut eight, 0, bytes);
    u64::from_le_bytes(eight)
}

/// The word of these bytes, filled up with NULs: of `[97, 98]` it is 25185. The condition is that they are at most
/// eight.
///
/// It takes them one by one, which costs least where their count is not known beforehand. It does not allocate.
pub fn short_word(bytes: &[u8]) -> u64
    requires { length bytes.now ≤ 8 }
    ensures { word_bytes result ≡ filled bytes.now }
{
    let mut word = 0;
    let mut left = bytes.len();
    while left > 0 {
        left -= 1;
        word = word * 256 + u64::from(bytes[left]);
    }
    word
}
