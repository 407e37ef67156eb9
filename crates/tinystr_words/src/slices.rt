//! Slices of bytes, word by word.

ghost use Rattle.std.specs.Prelude.{◌≡◌, ◌≤◌, ◌<◌, ◌+◌, ◌^◌, ◌++◌, true, not, length, take, drop, map};
ghost use Rattle.std.specs.Bool.{Decides};
ghost use Rattle.std.specs.List.{list_all};
ghost use Rattle.std.specs.Str.{IsAscii};
ghost use Rattle.tinystr_words.specs.Words.{word_bytes, nuls_last, or_nul, text_bytes};

use crate::changes::WordChange;
use crate::classes::{WordClass, is_all, is_none};
use crate::words::{word_at, word_len};

/// Writes a text over the bytes from an index on: `ab` at 1 over `[0, 0, 0]` gives `[0, 97, 98]`. The condition is that
/// it fits there. It does not allocate.
pub fn put_at(bytes: &mut [u8], place: usize, text: &[u8])
    requires { place + length text.now ≤ length bytes.old }
    ensures { bytes.new ≡ take place bytes.old ++ (text.now ++ drop (place + length text.now) bytes.old) }
{
    bytes[place..place + text.len()].copy_from_slice(text);
}

/// Whether every byte is in the class, or NUL: of `Digits`, true of `12` and false of `1a`. The condition is that each
/// is below 128. It does not allocate.
pub fn all<C: WordClass>(bytes: &[u8]) -> bool
    requires { IsAscii bytes.now }
    ensures { result ≡ list_all (or_nul C.test) bytes.now }
{
    let mut rest = bytes;
    while !rest.is_empty() {
        let (front, back) = rest.split_at(rest.len().min(8));
        if !is_all::<C>(word_at(front)) {
            return false;
        }
        rest = back;
    }
    true
}

/// Whether no byte is in the class: of `Digits`, true of `ab` and false of `1a`. The condition is that each is below
/// 128. It does not allocate.
pub fn none<C: WordClass>(bytes: &[u8]) -> bool
    requires { IsAscii bytes.now }
    ensures { result ≡ list_all (λ b. not (C.test b)) bytes.now }
{
    let mut rest = bytes;
    while !rest.is_empty() {
        let (front, back) = rest.split_at(rest.len().min(8));
        if !is_none::<C>(word_at(front)) {
            return false;
        }
        rest = back;
    }
    true
}

/// How many bytes are before the NULs: 2 of `[97, 98, 0]`. The condition is that the NULs are the last, and that each
/// byte is below 128. It does not allocate.
pub fn text_len(bytes: &[u8]) -> usize
    requires ascii { IsAscii bytes.now }
    requires last { nuls_last bytes.now ≡ true }
    ensures { result ≡ text_bytes bytes.now }
{
    let mut len = 0;
    let mut rest = bytes;
    while !rest.is_empty() {
        let (front, back) = rest.split_at(rest.len().min(8));
        len += word_len(word_at(front));
        rest = back;
    }
    len
}

/// Whether two slices have the same bytes: true of `ab` and `ab`, false of `ab` and `ac`. The condition is that they
/// are of one length.
///
/// It always goes to the end: two words are compared by one branch. It does not allocate.
pub fn are_same(one: &[u8], other: &[u8]) -> bool
    requires { length one.now ≡ length other.now }
    ensures { Decides result (one.now ≡ other.now) }
{
    let mut left = one;
    let mut right = other;
    let mut same = true;
    while !left.is_empty() {
        let count = left.len().min(8);
        let (front, back) = left.split_at(count);
        let (other_front, other_back) = right.split_at(count);
        same = same & (word_at(front) == word_at(other_front));
        left = back;
        right = other_back;
    }
    same
}

// The word with each byte changed, of which the bytes from `count` on are NULs that fill it up.
//
// Four and eight bytes are read at once; a word of another count is put together.
pub(crate) fn changed_word<C: WordChange>(word: u64, count: usize) -> u64
    requires short { count ≤ 8 }
    requires part { count < 8 → word < 2 ^ 56 }
    requires ascii { IsAscii (word_bytes word) }
    ensures { word_bytes result ≡ map C.change (word_bytes word) }
{
    if count == 4 || count == 8 {
        C::changed(word)
    } else {
        C::changed_part(word)
    }
}

// Changes at most eight bytes from a place on.
fn change_at<C: WordChange>(bytes: &mut [u8], from: usize, count: usize)
    requires within { from + count ≤ length bytes.old }
    requires short { count ≤ 8 }
    requires ascii { IsAscii (take count (drop from bytes.old)) }
    ensures { bytes.new
        ≡ take from bytes.old ++ (map C.change (take count (drop from bytes.old)) ++ drop (from + count) bytes.old) }
{
    let word = changed_word::<C>(word_at(&bytes[from..from + count]), count);
    put_at(bytes, from, &word.to_le_bytes()[..count]);
}

/// Changes every byte: by `ToUppercase`, `tEsT` becomes `TEST`. The condition is that each is below 128. It does not
/// allocate.
pub fn change<C: WordChange>(bytes: &mut [u8])
    requires { IsAscii bytes.old }
    ensures { bytes.new ≡ map C.change bytes.old }
{
    let mut from = 0;
    while from < bytes.len() {
        let count = (bytes.len() - from).min(8);
        change_at::<C>(bytes, from, count);
        from += count;
    }
}
