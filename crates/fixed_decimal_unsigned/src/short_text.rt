//! Reading a text of sixteen characters at most: its digits are folded into a word as they are looked at.

ghost use Rattle.std.specs.Prelude.{◌≡◌, ◌+◌, ◌^◌, ◌<◌, ◌≤◌, IfSome};
ghost use Rattle.std.specs.Int.Digits.{number_from_digits, AllBelowBase};
ghost use Rattle.fixed_decimal_digits.specs.DigitList.{count_of};
ghost use Rattle.fixed_decimal_digits.specs.DigitWord.{word_digits};
ghost use Rattle.fixed_decimal_unsigned.specs.NumberText.{number_at};
ghost use Rattle.fixed_decimal_unsigned.specs.ShortText.{SpellsShort};
ghost use Rattle.fixed_decimal_unsigned.specs.Stored.{IsStored};

use crate::reading::{Ends, Places, places_of};
use fixed_decimal_digits::{Digits, ONES, WORD_DIGITS, cut_word, word_behind};

// The digits of a short text in a word, and how many of them are above and below the point.
#[derive(Clone, Copy)]
pub struct ShortText {
    pub word: u64,
    pub above: usize,
    pub below: usize,
}

impl ShortText {
    // The digits of a text of sixteen characters at most that begins with a digit and has no exponent. Of another text
    // it is `None`.
    pub fn of(text: &[u8]) -> Option<ShortText>
        ensures { IfSome result (λ s. SpellsShort text.now s.word s.above s.below) }
    {
        if text.len() > WORD_DIGITS {
            return None;
        }
        let (whole, above) = word_behind(0, text);
        if above == 0 {
            return None;
        }
        if above == text.len() {
            return Some(ShortText {
                word: whole,
                above,
                below: 0,
            });
        }
        let (_, rest) = text.split_at(above);
        let (point, fraction) = rest.split_first()?;
        if *point != b'.' {
            return None;
        }
        let (word, below) = word_behind(whole, fraction);
        if below == 0 || below < fraction.len() {
            return None;
        }
        Some(ShortText { word, above, below })
    }
}

// Replaces the digits by those of a short text, and returns their places.
pub fn read_short(digits: &mut Digits, short: ShortText) -> Places
    requires some { 0 < short.above + short.below }
    requires few { short.above + short.below ≤ 16 }
    requires fits { short.word < 16 ^ (short.above + short.below) }
    requires tens { AllBelowBase 10 (word_digits short.word (short.above + short.below)) }
    ensures stored { IsStored digits.new.items result.top result.low result.high }
    ensures value { record { count = count_of digits.new.items result.top; low = result.low; high = result.high }
        ≡ number_at (number_from_digits 10 (word_digits short.word (short.above + short.below))) short.above
        short.below 0 0 }
{
    let cut = cut_word(short.word);
    digits.assign_word(cut.word, cut.count);
    let ends = Ends {
        first: ONES - 1 + short.above as u16,
        last: ONES - short.below as u16,
    };
    places_of(digits, cut.zeros, ends)
}
