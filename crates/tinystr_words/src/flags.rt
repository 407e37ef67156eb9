//! Flags of a word: the high bit of each byte for which a test holds.

ghost use Rattle.std.specs.Prelude.{◌≡◌, ◌≤◌, ◌<◌, ◌*◌, ◌^◌, nat_le};
ghost use Rattle.std.specs.Int.{is_in_range};
ghost use Rattle.std.specs.Str.{IsAscii};
ghost use Rattle.tinystr_words.specs.Words.{word_bytes, flags};

// A 1 in each byte.
const ONES: u64 = 0x0101_0101_0101_0101;

// The high bit of each byte.
const HIGH: u64 = 0x8080_8080_8080_8080;

// A 2 in each byte.
const TWOS: u64 = 0x0202_0202_0202_0202;

// The lowest bit of each byte but the first: the high bits, one place up.
const NEXT: u64 = 0x0101_0101_0101_0100;

// The flags of the bytes that are at least `low`.
pub(crate) fn flags_from(word: u64, low: u8) -> u64
    requires low { low ≤ 128 }
    requires ascii { IsAscii (word_bytes word) }
    ensures { result ≡ flags (nat_le low) (word_bytes word) }
{
    (word + u64::from(128 - low) * ONES) & HIGH
}

// The flags of the bytes from `low` to `high`.
pub(crate) fn flags_within(word: u64, low: u8, high: u8) -> u64
    requires order { low ≤ high }
    requires high { high < 128 }
    requires ascii { IsAscii (word_bytes word) }
    ensures { result ≡ flags (is_in_range low high) (word_bytes word) }
{
    flags_from(word, low) ^ flags_from(word, high + 1)
}

// Twice the flags of the bytes that are at least `low`, in a word of at most seven bytes.
//
// It sums the doubled word. A word of a few bytes is put together by a sum, and the compiler would
// make that sum again for each bound, but doubles it once.
pub(crate) fn twice_from(word: u64, low: u8) -> u64
    requires low { low ≤ 128 }
    requires fits { 2 ≤ low }
    requires part { word < 2 ^ 56 }
    requires ascii { IsAscii (word_bytes word) }
    ensures { result ≡ 2 * flags (nat_le low) (word_bytes word) }
{
    (word + word + u64::from(128 - low) * TWOS) & NEXT
}

// Twice the flags of the bytes from `low` to `high`, in a word of at most seven bytes.
pub(crate) fn twice_within(word: u64, low: u8, high: u8) -> u64
    requires order { low ≤ high }
    requires fits { 2 ≤ low }
    requires high { high < 128 }
    requires part { word < 2 ^ 56 }
    requires ascii { IsAscii (word_bytes word) }
    ensures { result ≡ 2 * flags (is_in_range low high) (word_bytes word) }
{
    twice_from(word, low) ^ twice_from(word, high + 1)
}
