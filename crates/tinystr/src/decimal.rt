//! The decimal text of a number.

ghost use Rattle.std.specs.Prelude.{◌≡◌, ◌+◌, ◌≤◌, ◌<◌, ℕ, List, length, take, drop, MatchResult};
ghost use Rattle.tinystr.specs.Decimal.{IsDecimalText};

use crate::TinyAsciiStr;

impl<const N: usize> TinyAsciiStr<N> {
    /// The shortest decimal text of a number, or its first N characters where it is longer.
    ///
    /// 12345 at 8 is `Ok` of `12345`, at 4 it is `Err` of `1234`; 0 at 0 is `Err` of the empty text. From N = 10 on it
    /// is always `Ok`. It does not allocate.
    pub fn new_unsigned_decimal(number: u32) -> Result<Self, Self>
        ensures { (text : List ℕ) × IsDecimalText number text
            × MatchResult result (λ all. (length text ≤ N) × (all ≡ text))
            (λ front. (N < length text) × (front ≡ take N text)) }
    {
        let mut digits = [0; 10];
        let start = put_digits(&mut digits, number);
        let text = &digits[start..];
        if text.len() <= N {
            Ok(Self::of_text(text))
        } else {
            Err(Self::of_text(&text[..N]))
        }
    }
}

// Writes the digits of a number at the end of the ten bytes, and returns where they begin.
fn put_digits(digits: &mut [u8; 10], number: u32) -> usize
    ensures start { result ≤ 10 }
    ensures text { IsDecimalText number (drop result digits.new) }
{
    let mut start = 9;
    let mut rest = number;
    while rest >= 10 {
        digits[start] = b'0' + (rest % 10) as u8;
        rest /= 10;
        start -= 1;
    }
    digits[start] = b'0' + rest as u8;
    start
}
