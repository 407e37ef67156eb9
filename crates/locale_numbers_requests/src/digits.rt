//! The number that decimal digits spell, as far as a line or a word of the program asks.

ghost use Rattle.std.specs.Prelude.{◌≡◌, ◌<◌, true, min};
ghost use Rattle.std.specs.Char.{digit_value};
ghost use Rattle.std.specs.List.{list_all};
ghost use Rattle.fixed_decimal.specs.NumberText.{spelled};
ghost use Rattle.locale_numbers_requests.specs.Digits.{is_digit};

// One more than any number that is asked for.
const TOO_LARGE: u32 = 65536;

/// Whether each byte is one of the ten decimal digits.
pub fn are_digits(word: &[u8]) -> bool
    ensures { result ≡ list_all is_digit word.now }
{
    for byte in word {
        if !byte.is_ascii_digit() {
            return false;
        }
    }
    true
}

// The value of a digit's character.
fn digit_of(digit: u8) -> u8
    requires { digit_value digit < 10 }
    ensures { result ≡ digit_value digit }
{
    digit - b'0'
}

/// The number that digits spell, or 65,536 where it is as large at least.
#[tactic(auto, using(crate::proofs::DigitsLemmas::digit_at, crate::proofs::DigitsLemmas::capped_more))]
pub fn capped_number(digits: &[u8]) -> u32
    requires { list_all is_digit digits.now ≡ true }
    ensures { result ≡ min (spelled digits.now) 65536 }
{
    let mut number = 0u32;
    for digit in digits {
        number = (number * 10 + digit_of(*digit) as u32).min(TOO_LARGE);
    }
    number
}
