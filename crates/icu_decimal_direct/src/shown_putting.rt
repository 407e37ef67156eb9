//! The plain text of a number's digits with fraction digits at least, put into bytes.

ghost use Rattle.std.specs.Prelude.{◌≡◌, ◌+◌, ◌≤◌, ◌++◌, take, IsUtf8, IsTrue, ◌↔◌, ◌-◌};
ghost use Rattle.icu_decimal_plain.specs.PlainText.{decimal_text};
ghost use Rattle.icu_decimal_direct.specs.TextDigits.{number_spelled};
ghost use Rattle.icu_decimal_direct.specs.TextTables.{text_tables};
ghost use Rattle.icu_decimal_direct.specs.UnitTexts.{shown_down};

use crate::putting::put_bytes;
use crate::text_digits::TextDigits;
use crate::text_tables::TextTables;
use crate::unit_putting::put_shown;
use fixed_decimal::Sign;

impl TextDigits<'_> {
    /// Whether there are so many fraction digits at most: of `1234.5` two at most, and not none. It does not allocate.
    #[inline(always)]
    pub fn has_at_most(&self, most: u8) -> bool
        requires { most ≤ 32 }
        ensures { IsTrue result ↔ 32768 - most ≤ (number_spelled self.now).absolute.low }
    {
        self.fraction.len() <= most as usize
    }
}

impl TextTables<'_> {
    /// Puts the text of a number with so many fraction digits at least after the first `len` bytes, and returns how many
    /// bytes there are then: with two `-1,234.50` for the digits of `-1234.5` in English. It does not allocate.
    ///
    /// The conditions are that there is room for 136 bytes more, and that there are 32 digits at most at least.
    #[inline(always)]
    pub fn put_shown<const N: usize>(
        &self,
        digits: &TextDigits<'_>,
        least: u8,
        out: &mut [u8; N],
        len: usize,
    ) -> usize
        requires room { len + 136 ≤ N }
        requires few { least ≤ 32 }
        ensures text { take result out.new
            ≡ take len out.old ++ decimal_text (text_tables self.now) (shown_down least (number_spelled digits.now)) }
        ensures utf8 { IsUtf8 (decimal_text (text_tables self.now) (shown_down least (number_spelled digits.now))) }
        ensures room { result ≤ len + 136 }
    {
        let (prefix, suffix) = match digits.sign {
            Sign::None => return put_shown(out, len, self, digits, least as usize),
            Sign::Negative => (self.direct.prefix, self.direct.suffix),
            Sign::Positive => (self.direct.plus_prefix, self.direct.plus_suffix),
        };
        let begun = put_bytes(out, len, prefix.as_bytes());
        let end = put_shown(out, begun, self, digits, least as usize);
        put_bytes(out, end, suffix.as_bytes())
    }
}
