//! Words of digits: sixteen at most, four bits each, the highest first.

ghost use Rattle.std.specs.Prelude.{◌≡◌, ◌-◌, ◌%◌, ◌^◌, ◌<◌, ◌≤◌, length, take};
ghost use Rattle.std.specs.Int.Digits.{number_from_digits, AllBelowBase};
ghost use Rattle.std.specs.Str.Parse.{digits_value_after};
ghost use Rattle.fixed_decimal_digit_words.specs.DigitText.{AreDigits};
ghost use Rattle.fixed_decimal_digit_words.specs.DigitWord.{word_digits, SpellsNumber, IsCutWord};

use crate::digit_text::digit_of;

/// How many digits fit in a word.
pub const WORD_DIGITS: usize = 16;

/// A word with the digits that a text begins with after its own, and how many these are: 0x125 and 2 of 0x1 and `25.`.
///
/// The condition is that all fit. It does not allocate.
#[tactic(auto, using(std::proofs::lemmas::Int::Digits::digits_more, crate::proofs::WordLemmas::front_more))]
pub fn word_behind(word: u64, text: &[u8]) -> (u64, usize)
    requires few { length text.now ≤ 16 }
    requires room { word < 16 ^ (16 - length text.now) }
    ensures within { result.1 ≤ length text.now }
    ensures digits { AreDigits (take result.1 text.now) }
    ensures word { result.0 ≡ digits_value_after 16 word (take result.1 text.now) }
{
    let mut after = word;
    let mut count = 0;
    while count < text.len() {
        let c = text[count];
        if !c.is_ascii_digit() {
            return (after, count);
        }
        after = after * 16 + u64::from(digit_of(c));
        count += 1;
    }
    (after, count)
}

/// A word without the zeros at both ends, how many digits it then has, and how many zeros were after the last.
#[derive(Clone, Copy)]
pub struct CutWord {
    /// The digits that are left.
    pub word: u64,
    /// How many these are.
    pub count: usize,
    /// How many zeros were after them.
    pub zeros: usize,
}

/// A word without the zeros at both ends: 0x25, of 2 digits, and 1 zero of 0x250. The condition is that its digits are
/// below ten.
///
/// It does not allocate.
#[tactic(auto, using(crate::proofs::CutWordLemmas::last_some))]
pub fn cut_word(word: u64) -> CutWord
    requires { AllBelowBase 10 (word_digits word 16) }
    ensures cut { IsCutWord word result.word result.count result.zeros }
    ensures last { 0 < result.count → 0 < number_from_digits 10 (word_digits result.word result.count) % 10 }
{
    let mut left = word;
    let mut count = WORD_DIGITS - (word.leading_zeros() / 4) as usize;
    let mut zeros = 0;
    while count > 0 && left % 16 == 0 {
        left /= 16;
        count -= 1;
        zeros += 1;
    }
    CutWord {
        word: left,
        count,
        zeros,
    }
}

// The word of a number of two digits.
fn word_of_two(number: u64) -> u64
    requires { number < 100 }
    ensures { SpellsNumber result 2 number }
{
    number / 10 * 16 + number % 10
}

// The word of a number of four digits.
fn word_of_four(number: u64) -> u64
    requires { number < 10_000 }
    ensures { SpellsNumber result 4 number }
{
    word_of_two(number / 100) * 256 + word_of_two(number % 100)
}

// The word of a number of eight digits.
fn word_of_eight(number: u64) -> u64
    requires { number < 100_000_000 }
    ensures { SpellsNumber result 8 number }
{
    word_of_four(number / 10_000) * 65_536 + word_of_four(number % 10_000)
}

/// The word of a number, below ten to the power 16: 0x250 of 250.
///
/// It does not allocate.
pub fn word_of_number(number: u64) -> u64
    requires { number < 10 ^ 16 }
    ensures { SpellsNumber result 16 number }
{
    if number < 10_000 {
        return word_of_four(number);
    }
    if number < 100_000_000 {
        return word_of_eight(number);
    }
    word_of_eight(number / 100_000_000) * 4_294_967_296 + word_of_eight(number % 100_000_000)
}
