//! Digits in texts: that of a character, and those that a text begins with.

ghost use Rattle.std.specs.Prelude.{◌≡◌, ◌<◌, ◌≤◌, length, take, IsTrue};
ghost use Rattle.std.specs.Char.{digit_value};
ghost use Rattle.fixed_decimal_digit_words.specs.DigitText.{AreDigits};

// How many characters one step looks at, where there are as many: those of whole vectors.
const BLOCK: usize = 64;

// How many it looks at after them.
const WORD: usize = 8;

/// The digit of a character: 7 of `7`. The condition is that the character is a digit. It does not allocate.
pub fn digit_of(c: u8) -> u8
    requires { digit_value c < 10 }
    ensures { result ≡ digit_value c }
{
    c - b'0'
}

// Whether each character is a digit.
fn are_digits(text: &[u8]) -> bool
    ensures { IsTrue result → AreDigits text.now }
{
    let mut all = true;
    for c in text {
        all = all & c.is_ascii_digit();
    }
    all
}

// How many characters the first `from`, which are digits, and whole pieces of digits after them make up, each of `size`.
#[inline(always)]
fn digits_in_pieces(text: &[u8], from: usize, size: usize) -> usize
    requires some { 0 < size }
    requires within { from ≤ length text.now }
    requires digits { AreDigits (take from text.now) }
    ensures within { result ≤ length text.now }
    ensures digits { AreDigits (take result text.now) }
{
    let mut count = from;
    while text.len() - count >= size {
        if !are_digits(&text[count..count + size]) {
            return count;
        }
        count += size;
    }
    count
}

/// How many characters whole words of digits make up, eight in each, that a text begins with: 64 of seventy ones, 0 of
/// `1.5`. It does not allocate.
pub fn digits_in_words(text: &[u8]) -> usize
    ensures within { result ≤ length text.now }
    ensures digits { AreDigits (take result text.now) }
{
    let blocks = digits_in_pieces(text, 0, BLOCK);
    digits_in_pieces(text, blocks, WORD)
}
