//! Short texts: some digits, or a whole number, put together in one place and written by one call of the sink.

ghost use Rattle.std.specs.Prelude.{◌≡◌, ◌+◌, ◌-◌, ◌*◌, ◌<◌, ◌≤◌, ◌++◌, [], drop, length, map, sum, take, IfSome};
ghost use Rattle.std.specs.Int.Digits.{AllBelowBase};
ghost use Rattle.fixed_decimal.specs.Number.{fraction_digits, whole_digits};
ghost use Rattle.icu_decimal_plain.specs.BorrowedTables.{borrowed_tables};
ghost use Rattle.icu_decimal_plain.specs.LaterGroups.{groups_ahead};
ghost use Rattle.icu_decimal_plain.specs.Pieces.{Holds};
ghost use Rattle.icu_decimal_plain.specs.PlainText.{chained, digit_text, fraction_text, unsigned_text, whole_text};

use crate::digit_chunks::few_digits;
use crate::piece_tables::DigitTable;
use crate::tables::DecimalTables;
use crate::text_pieces::{Piece, put_digits, put_groups, put_piece};
use crate::writing::{digits_shown, fraction_len, highest};
use fixed_decimal::{ShownDigits, UnsignedDecimal};
use icu_decimal_grouping::GroupSizes;
use std::marker::Model;

// A number that shows more digits is not put together first.
const FEW: usize = 47;

// The bytes that a short text may have.
const ROOM: usize = 256;

// A text of at most two hundred and fifty-six bytes.
#[derive(Debug, Drop)]
pub(crate) struct ShortText {
    bytes: [u8; ROOM],
    len: usize,
}

impl Model for ShortText {
    ghost use Rattle.std.specs.Prelude.{◌≤◌, ℕ, List, IsUtf8, take};

    ghost Value = { List ℕ };

    ghost view = { λ s. take s.len s.bytes };

    ghost invariant = { λ s. (s.len ≤ 256) × ∥ IsUtf8 (take s.len s.bytes) ∥₁ };
}

impl ShortText {
    // An empty text.
    pub(crate) fn new() -> Self
        ensures { result ≡ [] }
    {
        ShortText {
            bytes: [0; ROOM],
            len: 0,
        }
    }

    // The bytes as a text.
    pub(crate) fn as_str(&self) -> &str
        ensures { result.now ≡ self.now }
    {
        unsafe { str::from_utf8_unchecked(&self.bytes[..self.len]) }
    }

    // Adds a piece.
    fn push(&mut self, piece: Piece)
        requires room { length self.old + 4 ≤ 256 }
        requires piece { Holds piece (take piece.len piece.bytes) }
        ensures { self.new ≡ self.old ++ take piece.len piece.bytes }
    {
        self.len = put_piece(&mut self.bytes, self.len, piece);
    }

    // Adds the next `count` digits.
    pub(crate) fn push_digits(
        &mut self,
        digits: &mut ShownDigits<'_>,
        count: usize,
        table: &DigitTable<'_>,
    )
        requires room { length self.old + 4 * count ≤ 256 }
        requires tens { AllBelowBase 10 digits.old }
        ensures text { self.new ≡ self.old ++ chained (map (digit_text table.now.chars.now) (take count digits.old)) }
        ensures digits { digits.new ≡ drop count digits.old }
    {
        let mut left = count;
        while left > 0 {
            left -= 1;
            let Some(digit) = digits.next() else {
                return;
            };
            self.push(table.pieces[digit as usize]);
        }
    }

    // Adds digits. `None`: they may not have room.
    fn push_front(&mut self, digits: &[u8], table: &DigitTable<'_>) -> Option<()>
        requires { AllBelowBase 10 digits.now }
        ensures { IfSome result
            (λ _. self.new ≡ self.old ++ chained (map (digit_text table.now.chars.now) digits.now)) }
    {
        if (ROOM - self.len) / 4 < digits.len() {
            return None;
        }
        self.len = put_digits(&mut self.bytes, self.len, digits, table);
        Some(())
    }

    // Adds groups, each with the separator before it. `None`: they may not have room.
    fn push_groups(
        &mut self,
        separator: Piece,
        digits: &[u8],
        sizes: &mut GroupSizes,
        table: &DigitTable<'_>,
    ) -> Option<()>
        requires separator { Holds separator (take separator.len separator.bytes) }
        requires few { length digits.now ≤ 48 }
        requires whole { sum sizes.old ≡ length digits.now }
        requires tens { AllBelowBase 10 digits.now }
        ensures { IfSome result
            (λ _. self.new
            ≡ self.old
            ++ groups_ahead (take separator.len separator.bytes) (digit_text table.now.chars.now) sizes.old
            digits.now) }
    {
        if (ROOM - self.len) / 4 < digits.len() + sizes.groups() {
            return None;
        }
        self.len = put_groups(&mut self.bytes, self.len, separator, digits, sizes, table);
        Some(())
    }

    // Adds the integer digits in their groups. `None`: they may not have room.
    fn push_whole(
        &mut self,
        tables: &DecimalTables<'_>,
        separator: Piece,
        number: &UnsignedDecimal,
    ) -> Option<()>
        requires separator { Holds separator (borrowed_tables tables.now).symbols.strings.grouping_separator }
        requires few { number.now.high - 32767 ≤ 48 }
        ensures { IfSome result
            (λ _. self.new ≡ self.old ++ whole_text (borrowed_tables tables.now) (whole_digits number.now)) }
    {
        let symbols = tables.symbols.symbols;
        let table = &tables.digits;
        let count = highest(number) + 1;
        let mut sizes = GroupSizes::of(count, tables.strategy, symbols.grouping_sizes);
        let mut digits = number.whole_digits();
        let chunk = few_digits(&mut digits, count as usize);
        let first = sizes.next().unwrap_or(0);
        self.push_front(&chunk[..first], table)?;
        self.push_groups(separator, &chunk[first..count as usize], &mut sizes, table)
    }

    // Adds the decimal separator and the fraction digits, where there are any. `None`: they may not have room.
    fn push_fraction(
        &mut self,
        tables: &DecimalTables<'_>,
        separator: Piece,
        number: &UnsignedDecimal,
    ) -> Option<()>
        requires separator { Holds separator (borrowed_tables tables.now).symbols.strings.decimal_separator }
        requires few { 32768 - number.now.low ≤ 48 }
        ensures { IfSome result
            (λ _. self.new ≡ self.old ++ fraction_text (borrowed_tables tables.now) (fraction_digits number.now)) }
    {
        let count = fraction_len(number) as usize;
        if count == 0 {
            return Some(());
        }
        if ROOM - self.len < 4 {
            return None;
        }
        let mut digits = number.fraction_digits();
        let chunk = few_digits(&mut digits, count);
        self.push(separator);
        self.push_front(&chunk[..count], &tables.digits)
    }

    // Adds the text of a number. `None`: it shows more digits than are put together here, or they may not have room.
    pub(crate) fn push_number(
        &mut self,
        tables: &DecimalTables<'_>,
        number: &UnsignedDecimal,
    ) -> Option<()>
        ensures { IfSome result (λ _. self.new ≡ self.old ++ unsigned_text (borrowed_tables tables.now) number.now) }
    {
        if digits_shown(number) > FEW {
            return None;
        }
        let separators = tables.symbols.separators?;
        self.push_whole(tables, separators.group, number)?;
        self.push_fraction(tables, separators.decimal, number)
    }
}
