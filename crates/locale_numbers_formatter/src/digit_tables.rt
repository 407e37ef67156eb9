//! What digits are written with by a formatter of any format.

ghost use Rattle.std.specs.Prelude.{◌≡◌};
ghost use Rattle.std.specs.Str.{bytes_eq};
ghost use Rattle.icu_decimal.specs.BorrowedTables.{borrowed_tables};
ghost use Rattle.icu_decimal.specs.Folding.{plain_digits};
ghost use Rattle.locale_numbers_formatter.specs.FormatText.{digit_tables};

use crate::number_formatter::{FormatterKind, NumberFormatter};
use icu_decimal::DecimalTables;
use icu_decimal::provider::DecimalSymbols;

const ASCII_DIGITS: [char; 10] = ['0', '1', '2', '3', '4', '5', '6', '7', '8', '9'];

impl<'a> NumberFormatter<'a> {
    // The tables of its digits.
    fn tables(&self) -> &DecimalTables<'a>
        ensures { borrowed_tables result.now ≡ digit_tables self.now }
    {
        match &self.kind {
            FormatterKind::Plain(formatter) => formatter.tables(),
            FormatterKind::Compact(formatter) => formatter.plain().tables(),
            FormatterKind::CompactDigits(formatter) => formatter.compact.plain().tables(),
            FormatterKind::Percent(formatter) => formatter.decimals(),
            FormatterKind::Currency(formatter) => formatter.decimals(),
            FormatterKind::Scientific(formatter) => formatter.tables.decimals(),
        }
    }

    /// The symbols that its numbers are written with: in English `-`, `+`, `.`, `,` and the sizes 3, 3, 1. Those of
    /// amounts may be the currency's own. It does not allocate.
    pub fn symbols(&self) -> &'a DecimalSymbols
        ensures { result.now ≡ (digit_tables self.now).symbols }
    {
        self.tables().symbols()
    }

    /// The ten digits that its numbers are written with, from zero up: in English `0` to `9`. It does not allocate.
    pub fn digits(&self) -> &'a [char; 10]
        ensures { result.now ≡ (digit_tables self.now).digits }
    {
        self.tables().digits()
    }

    /// Whether its digits are those of ASCII: of `en` they are, of `ar-EG` they are not. It does not allocate.
    pub fn has_ascii_digits(&self) -> bool
        ensures { result ≡ bytes_eq (digit_tables self.now).digits plain_digits }
    {
        *self.digits() == ASCII_DIGITS
    }
}
