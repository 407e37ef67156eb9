//! The text of a number's digits with a unit, put into bytes.

ghost use Rattle.std.specs.Prelude.{◌≡◌, ◌+◌, ◌≤◌, ◌++◌, take, true, IsUtf8};
ghost use Rattle.icu_decimal_plain.specs.PlainText.{unsigned_text};
ghost use Rattle.icu_decimal_direct.specs.HeldUnits.{unit_texts};
ghost use Rattle.icu_decimal_direct.specs.TextDigits.{number_spelled};
ghost use Rattle.icu_decimal_direct.specs.TextTables.{text_tables};
ghost use Rattle.icu_decimal_direct.specs.UnitTexts.{IsShownBy, shown_down, unit_text};

use crate::putting::{put_bytes, put_integer};
use crate::text_digits::TextDigits;
use crate::text_tables::TextTables;
use crate::unit_text_tables::UnitTextTables;
use fixed_decimal::Sign;

// Thirty-two zeros, of which so many are put after a fraction.
const ZEROS: &[u8; 32] = b"00000000000000000000000000000000";

// Puts a number without its sign, with so many fraction digits at least, after the first `len` bytes, and returns how many
// bytes there are then.
#[inline(always)]
pub(crate) fn put_shown<const N: usize>(
    out: &mut [u8; N],
    len: usize,
    tables: &TextTables<'_>,
    digits: &TextDigits<'_>,
    least: usize,
) -> usize
    requires room { len + 128 ≤ N }
    requires few { least ≤ 32 }
    ensures text { take result out.new
        ≡ take len out.old ++ unsigned_text (text_tables tables.now) (shown_down least (number_spelled digits.now)).absolute }
    ensures room { result ≤ len + 128 }
{
    let end = put_integer(out, len, tables, digits.integer);
    let count = digits.fraction.len();
    let zeros = least.saturating_sub(count);
    if count + zeros == 0 {
        return end;
    }
    let begun = put_bytes(out, end, tables.direct.decimal.as_bytes());
    let shown = put_bytes(out, begun, digits.fraction);
    put_bytes(out, shown, &ZEROS[..zeros])
}

impl UnitTextTables<'_> {
    /// Puts the text of a number with its unit after the first `len` bytes, and returns how many bytes there are then:
    /// `-€1,234.50` for the digits of `-1234.5` in English and euros. It does not allocate.
    ///
    /// The conditions are that the digits can be put, and that there is room for 192 bytes more.
    #[inline(always)]
    pub fn put<const N: usize>(
        &self,
        digits: &TextDigits<'_>,
        out: &mut [u8; N],
        len: usize,
    ) -> usize
        requires room { len + 192 ≤ N }
        requires shown { IsShownBy (unit_texts self.now) (number_spelled digits.now) }
        ensures text { take result out.new
            ≡ take len out.old ++ unit_text (unit_texts self.now) (number_spelled digits.now) }
        ensures utf8 { IsUtf8 (unit_text (unit_texts self.now) (number_spelled digits.now)) }
        ensures room { result ≤ len + 192 }
    {
        let affixes = match digits.sign {
            Sign::None => &self.none,
            Sign::Negative => &self.minus,
            Sign::Positive => &self.plus,
        };
        let begun = affixes.before.put(out, len);
        let end = put_shown(out, begun, &self.tables, digits, self.least as usize);
        affixes.after.put(out, end)
    }
}
