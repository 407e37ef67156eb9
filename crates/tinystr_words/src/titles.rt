//! Title case: the first byte in upper case and the rest in lower case.

ghost use Rattle.std.specs.Prelude.{◌≡◌, ◌≤◌, length};
ghost use Rattle.std.specs.Char.{to_ascii_lowercase, to_ascii_uppercase};
ghost use Rattle.std.specs.Str.{IsAscii};
ghost use Rattle.tinystr_words.specs.Words.{word_bytes, filled, map_first};

use crate::changes::ToLowercase;
use crate::slices::{change, changed_word, put_at};
use crate::words::word_at;

// The case bit of the first byte of a word.
const FIRST_CASE: u64 = 32;

// The word of at most eight bytes in title case, filled up with NULs.
//
// All bytes are put in lower case while the first has its case bit turned, and then it is turned
// back.
fn title_word(bytes: &[u8]) -> u64
    requires short { length bytes.now ≤ 8 }
    requires ascii { IsAscii bytes.now }
    ensures { word_bytes result ≡ map_first to_ascii_uppercase to_ascii_lowercase (filled bytes.now) }
{
    let turned = word_at(bytes) ^ FIRST_CASE;
    changed_word::<ToLowercase>(turned, bytes.len()) ^ FIRST_CASE
}

/// Puts the first byte in upper case and the rest in lower case: `tEsT` becomes `Test`. The condition is that each byte
/// is below 128. It does not allocate.
pub fn make_title(bytes: &mut [u8])
    requires { IsAscii bytes.old }
    ensures { bytes.new ≡ map_first to_ascii_uppercase to_ascii_lowercase bytes.old }
{
    let (front, rest) = bytes.split_at_mut(bytes.len().min(8));
    let count = front.len();
    let word = title_word(front);
    put_at(front, 0, &word.to_le_bytes()[..count]);
    change::<ToLowercase>(rest);
}
