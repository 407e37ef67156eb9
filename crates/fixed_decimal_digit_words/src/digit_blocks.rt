//! Blocks of digits, two to a byte: the bytes of a text, the text of bytes, and the digits that lie in them.

ghost use Rattle.std.specs.Prelude.{◌≡◌, ◌/◌, ◌%◌, ◌≤◌, ◌++◌, length, map, replicate, take, drop};
ghost use Rattle.std.specs.Char.{digit_value};
ghost use Rattle.fixed_decimal_digit_words.specs.DigitText.{AreDigits, character};
ghost use Rattle.fixed_decimal_digit_words.specs.Packed.{halves, packed};

use crate::byte_words::{digits_of_word, first_eight};
use crate::digit_text::digit_of;

/// The bytes that hold the digits of a text, two to a byte, with zeros after: 0x90, 0x57 and thirty zeros of `9057`.
///
/// The condition is that each character is a digit, and that they are an even count, at most sixty-four. It does not
/// allocate.
#[tactic(auto, using(crate::proofs::DigitTextLemmas::digits_at, crate::proofs::BlockLemmas::byte_more))]
pub fn bytes_of_block(text: &[u8]) -> [u8; 32]
    requires text_digits { AreDigits text.now }
    requires block { length text.now ≤ 64 }
    requires even { length text.now % 2 ≡ 0 }
    ensures { take (length text.now / 2) result ≡ packed (map digit_value text.now) }
{
    let mut bytes = [0; 32];
    let mut index = 0;
    while index < text.len() / 2 {
        let upper = digit_of(text[2 * index]);
        let lower = digit_of(text[2 * index + 1]);
        bytes[index] = upper * 16 + lower;
        index += 1;
    }
    bytes
}

/// The text of the digits that lie in thirty-two bytes: of as many 0x11, `1` sixty-four times.
///
/// The condition is that there are so many bytes. It does not allocate.
#[tactic(auto, using(crate::proofs::TextBlockLemmas::two_more, crate::proofs::TextBlockLemmas::text_whole))]
pub fn text_of_block(bytes: &[u8]) -> [u8; 64]
    requires { length bytes.now ≡ 32 }
    ensures { result ≡ map character (halves bytes.now) }
{
    let mut text = [b'0'; 64];
    let mut index = 0;
    while index < 32 {
        text[2 * index] = b'0' + bytes[index] / 16;
        text[2 * index + 1] = b'0' + bytes[index] % 16;
        index += 1;
    }
    text
}

/// The sixteen digits that lie in bytes from the first half on: 9, 0, 5, 7 and twelve zeros of 0x90, 0x57.
///
/// Zeros stand for the bytes that are not there. It does not allocate.
pub fn digits_within(bytes: &[u8]) -> [u8; 16]
    ensures { result ≡ take 16 (halves (bytes.now ++ replicate 9 0)) }
{
    digits_of_word(first_eight(bytes))
}

/// The sixteen digits that lie in bytes from the second half on: 0, 5, 7 and thirteen zeros of 0x90, 0x57.
///
/// Zeros stand for the bytes that are not there. It does not allocate.
pub fn digits_between(bytes: &[u8]) -> [u8; 16]
    ensures { result ≡ take 16 (drop 1 (halves (bytes.now ++ replicate 9 0))) }
{
    let ninth = if bytes.len() > 8 { bytes[8] / 16 } else { 0 };
    let word = first_eight(bytes) % 1_152_921_504_606_846_976 * 16;
    digits_of_word(word + u64::from(ninth))
}
