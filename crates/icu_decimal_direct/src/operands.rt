//! What plural rules see of the digits of a number's text.

ghost use Rattle.std.specs.Prelude.{◌≡◌, ◌-◌, ◌≤◌, drop, length, take};
ghost use Rattle.std.specs.Char.{digit_value};
ghost use Rattle.fixed_decimal.specs.NumberText.{AreDigits, spelled};
ghost use Rattle.icu_decimal_plurals.specs.Operands.{operands_of};
ghost use Rattle.icu_decimal_direct.specs.TextDigits.{number_spelled};

use crate::text_digits::TextDigits;
use fixed_decimal_digits::digit_of;
use icu_decimal_plurals::PluralOperands;

// The number that digits spell.
#[tactic(auto, using(crate::proofs::ShownLemmas::each_digit, icu_decimal_plurals::proofs::NumberLemmas::next_value, crate::proofs::OperandsLemmas::next_fits))]
fn value_of(digits: &[u8]) -> u64
    requires digits { AreDigits digits.now }
    requires few { length digits.now ≤ 18 }
    ensures { result ≡ spelled digits.now }
{
    let mut value = 0u64;
    for digit in digits {
        value = value * 10 + u64::from(digit_of(*digit));
    }
    value
}

// The last eighteen digits, or all.
fn last_eighteen(digits: &[u8]) -> &[u8]
    ensures { result.now ≡ drop (length digits.now - 18) digits.now }
{
    &digits[digits.len().saturating_sub(18)..]
}

// The first eighteen digits, or all.
fn first_eighteen(digits: &[u8]) -> &[u8]
    ensures { result.now ≡ take 18 digits.now }
{
    &digits[..digits.len().min(18)]
}

impl TextDigits<'_> {
    /// What plural rules see of the number as the text shows it: of `-1.50` the integer digits 1 and the two fraction
    /// digits 50. They see the last 18 integer digits, and the first 18 fraction digits. It does not allocate.
    pub fn plural_operands(&self) -> PluralOperands
        ensures { result ≡ operands_of (number_spelled self.now).absolute 0 }
    {
        let i = value_of(last_eighteen(self.integer));
        let shown = first_eighteen(self.fraction);
        PluralOperands::from_digits(i, value_of(shown), shown.len() as u8)
    }
}
