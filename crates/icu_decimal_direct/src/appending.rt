//! The text of a number's digits, put after what a string holds.

ghost use Rattle.std.specs.Prelude.{◌≡◌, ◌+◌, ◌≤◌, ◌++◌, length, true, IsOk, OnErr, OnOk, string_bytes, string_capacity};
ghost use Rattle.icu_decimal_plain.specs.PlainText.{decimal_text};
ghost use Rattle.icu_decimal_direct.specs.HeldUnits.{unit_texts};
ghost use Rattle.icu_decimal_direct.specs.TextDigits.{number_spelled};
ghost use Rattle.icu_decimal_direct.specs.TextTables.{text_tables};
ghost use Rattle.icu_decimal_direct.specs.UnitTexts.{IsShownBy, unit_text};

use crate::text_digits::TextDigits;
use crate::text_tables::TextTables;
use crate::unit_text_tables::UnitTextTables;
use std::alloc::AllocError;

impl TextTables<'_> {
    /// Puts the text of a number after what `out` holds: `-1,234.5` for the digits of `-1234.5` in English.
    ///
    /// Where there is room, it does not allocate. `AllocError`: out of memory; `out` is then as before.
    pub fn append(&self, digits: &TextDigits<'_>, out: &mut String) -> Result<(), AllocError>
        ensures text { OnOk result (string_bytes out.new
            ≡ string_bytes out.old ++ decimal_text (text_tables self.now) (number_spelled digits.now)) }
        ensures err { OnErr result (string_bytes out.new ≡ string_bytes out.old) }
        ensures room { length (string_bytes out.old)
            + length (decimal_text (text_tables self.now) (number_spelled digits.now)) ≤ string_capacity out.old
            → IsOk result }
    {
        let mut text = [0; 136];
        let end = self.put(digits, &mut text, 0);
        out.push_str(unsafe { str::from_utf8_unchecked(&text[..end]) })
    }
}

impl UnitTextTables<'_> {
    /// Puts the text of a number with its unit after what `out` holds: `-€1,234.50` for the digits of `-1234.5` in English
    /// and euros.
    ///
    /// The condition is that the digits can be put. Where there is room, it does not allocate. `AllocError`: out of memory;
    /// `out` is then as before.
    pub fn append(&self, digits: &TextDigits<'_>, out: &mut String) -> Result<(), AllocError>
        requires { IsShownBy (unit_texts self.now) (number_spelled digits.now) }
        ensures text { OnOk result (string_bytes out.new
            ≡ string_bytes out.old ++ unit_text (unit_texts self.now) (number_spelled digits.now)) }
        ensures err { OnErr result (string_bytes out.new ≡ string_bytes out.old) }
        ensures room { length (string_bytes out.old)
            + length (unit_text (unit_texts self.now) (number_spelled digits.now)) ≤ string_capacity out.old
            → IsOk result }
    {
        let mut text = [0; 192];
        let end = self.put(digits, &mut text, 0);
        out.push_str(unsafe { str::from_utf8_unchecked(&text[..end]) })
    }
}
