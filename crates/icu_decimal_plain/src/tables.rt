//! What decimals are written with.

ghost use Rattle.std.specs.Prelude.{◌≡◌};
ghost use Rattle.std.specs.Str.{bytes_eq};
ghost use Rattle.icu_decimal_plain.specs.BorrowedTables.{borrowed_tables};
ghost use Rattle.icu_decimal_plain.specs.PlainText.{decimal_text, formatted};

use crate::comparing::is_text;
use crate::formatted_sign::FormattedSign;
use crate::formatted_unsigned_decimal::FormattedUnsignedDecimal;
use crate::piece_tables::{DigitTable, SymbolTable};
use fixed_decimal::{Decimal, UnsignedDecimal};
use icu_decimal_symbols::DecimalSymbols;
use icu_decimal_symbols::options::GroupingStrategy;

/// A decimal as a formatter writes it: `-1,234.5` in English.
pub type FormattedDecimal<'l> = FormattedSign<'l, FormattedUnsignedDecimal<'l>>;

/// What decimals are written with: symbols and digits, which it borrows, and when separators are written.
///
/// With the symbols of English, its digits and `Auto` -1234.5 is written as `-1,234.5`. A `DecimalFormatter` holds one.
#[derive(Clone, Copy, Debug)]
pub struct DecimalTables<'b> {
    pub(crate) symbols: SymbolTable<'b>,
    pub(crate) digits: DigitTable<'b>,
    pub(crate) strategy: GroupingStrategy,
}

impl<'b> DecimalTables<'b> {
    /// These symbols, these ten digits from zero up, and this strategy: of English with `Never`, -1234.5 is written as
    /// `-1234.5`. It does not allocate.
    pub fn new(
        symbols: &'b DecimalSymbols,
        digits: &'b [char; 10],
        strategy: GroupingStrategy,
    ) -> Self
        ensures { borrowed_tables result ≡ record { symbols = symbols.now; digits = digits.now; strategy = strategy } }
    {
        DecimalTables {
            symbols: SymbolTable::new(symbols),
            digits: DigitTable::new(digits),
            strategy,
        }
    }

    /// The symbols: in English `-`, `+`, `.`, `,` and the sizes 3, 3, 1. It does not allocate.
    pub fn symbols(&self) -> &'b DecimalSymbols
        ensures { result.now ≡ (borrowed_tables self.now).symbols }
    {
        self.symbols.symbols
    }

    /// The ten digits, from zero up: of `thai` `๐` to `๙`. It does not allocate.
    pub fn digits(&self) -> &'b [char; 10]
        ensures { result.now ≡ (borrowed_tables self.now).digits }
    {
        self.digits.chars
    }

    /// When separators are written: `Auto`, where nothing else was asked. It does not allocate.
    pub fn strategy(&self) -> GroupingStrategy
        ensures { result ≡ (borrowed_tables self.now).strategy }
    {
        self.strategy
    }

    /// The number without a sign as it is written with these tables: 1234.5 as `1,234.5` in English. It does not
    /// allocate.
    ///
    /// Source: UTS 35, part 3 (numbers), number symbols and patterns.
    pub fn format_unsigned<'l>(&'l self, value: &'l UnsignedDecimal) -> FormattedUnsignedDecimal<'l>
        ensures { result ≡ record { number = value.now; tables = borrowed_tables self.now } }
    {
        FormattedUnsignedDecimal::new(value, self)
    }

    /// The decimal as it is written with these tables: -1234.5 as `-1,234.5` in English. It does not allocate.
    ///
    /// Source: UTS 35, part 3 (numbers), number symbols and patterns.
    pub fn format<'l>(&'l self, value: &'l Decimal) -> FormattedDecimal<'l>
        ensures { result ≡ formatted (borrowed_tables self.now) value.now }
    {
        let number = self.format_unsigned(&value.absolute);
        FormattedSign::new(value.sign, self.symbols.symbols, number)
    }

    /// Whether the decimal is written so with these tables: -1234.5 as `-1,234.5` in English, and not as `-1234.5`. It
    /// does not allocate.
    ///
    /// Source: UTS 35, part 3 (numbers), number symbols and patterns.
    pub fn is_written_as(&self, value: &Decimal, text: &str) -> bool
        ensures { result ≡ bytes_eq (decimal_text (borrowed_tables self.now) value.now) text.now }
    {
        is_text(self, value, text)
    }
}
