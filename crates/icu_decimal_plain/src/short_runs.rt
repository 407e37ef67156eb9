//! Short numbers: sixteen digits at most on each side of the point.

ghost use Rattle.std.specs.Prelude.{◌≡◌, ◌+◌, ◌-◌, ◌*◌, ◌<◌, ◌≤◌, ◌++◌, drop, length, map, sum, take, IfSome, IsUtf8};
ghost use Rattle.std.specs.Int.Digits.{AllBelowBase};
ghost use Rattle.fixed_decimal.specs.Number.{fraction_digits, whole_digits};
ghost use Rattle.icu_decimal_plain.specs.BorrowedTables.{borrowed_tables};
ghost use Rattle.icu_decimal_plain.specs.LaterGroups.{groups_ahead};
ghost use Rattle.icu_decimal_plain.specs.Pieces.{Holds};
ghost use Rattle.icu_decimal_plain.specs.PlainText.{chained, digit_text, fraction_text, unsigned_text, whole_text};
ghost use Rattle.icu_decimal_plain.specs.Runs.{byte_text, run_text};

use crate::digit_chunks::set_block;
use crate::piece_tables::DigitTable;
use crate::runs::{put_run, put_threes};
use crate::tables::DecimalTables;
use crate::text_pieces::{Piece, put_any_groups, put_digit_pieces, put_piece};
use crate::writing::{fraction_len, highest};
use fixed_decimal::{ShownDigits, UnsignedDecimal};
use icu_decimal_grouping::GroupSizes;

// How many digits are taken at once.
const BLOCK: u16 = 16;

// The bytes that a short text may have: four for each of 32 digits, for 15 separators between groups, and for that before
// the fraction.
pub(crate) const SHORT: usize = 192;

// The digits that are left, sixteen at most, and others after them, which mean nothing.
#[inline(always)]
fn block_of(digits: &mut ShownDigits<'_>) -> [u8; 16]
    requires few { length digits.old ≤ 16 }
    requires tens { AllBelowBase 10 digits.old }
    ensures front { take (length digits.old) result ≡ digits.old }
    ensures tens { AllBelowBase 10 result }
{
    let mut block = [0; 16];
    digits.next_block(&mut block);
    block
}

// The bytes of sixteen digits.
#[inline(always)]
fn run_bytes(digits: &[u8; 16], nought: u8) -> [u8; 16]
    requires small { nought + 9 < 128 }
    requires tens { AllBelowBase 10 digits.now }
    ensures { result ≡ chained (map (run_text nought) digits.now) }
{
    let mut bytes = [0; 16];
    put_run(&mut bytes, 0, digits, nought);
    bytes
}

// Puts sixteen digits, of which `count` count, after the first `len` bytes, and returns how many bytes count then.
#[inline(always)]
fn put_front(
    text: &mut [u8; SHORT],
    len: usize,
    digits: &[u8; 16],
    count: usize,
    table: &DigitTable<'_>,
) -> usize
    requires room { len + 64 ≤ 192 }
    requires few { count ≤ 16 }
    requires tens { AllBelowBase 10 digits.now }
    ensures text { take result text.new
        ≡ take len text.old ++ chained (map (digit_text table.now.chars.now) (take count digits.now)) }
    ensures room { result ≤ len + 4 * count }
{
    if let Some(nought) = table.nought {
        let bytes = run_bytes(digits, nought);
        set_block(text, len, &bytes);
        return len + count;
    }
    put_digit_pieces(text, len, &digits[..count], table)
}

// Sixteen digits as bytes, and four more after them.
#[inline(always)]
fn run_words(digits: &[u8; 16], nought: u8) -> [u8; 20]
    requires small { nought + 9 < 128 }
    requires tens { AllBelowBase 10 digits.now }
    ensures { take 16 result ≡ chained (map (run_text nought) digits.now) }
{
    let mut bytes = [0; 20];
    put_run(&mut bytes, 0, digits, nought);
    bytes
}

// Puts groups of one to four bytes, each with the separator before it, after the first `len` bytes, and returns how many
// bytes there are then. `None`: a group has more.
#[inline(never)]
fn put_words(
    text: &mut [u8; SHORT],
    len: usize,
    separator: Piece,
    bytes: &[u8; 20],
    from: usize,
    sizes: &mut GroupSizes,
) -> Option<usize>
    requires room { len + 4 * (sum sizes.old + length sizes.old) ≤ 192 }
    requires within { from + sum sizes.old ≤ 16 }
    requires long { length separator.bytes ≡ 4 }
    requires short { separator.len ≤ 4 }
    ensures text { IfSome result (λ end. take end text.new
        ≡ take len text.old
        ++ groups_ahead (take separator.len separator.bytes) byte_text sizes.old (drop from bytes.now)) }
    ensures room { IfSome result (λ end. end ≤ len + 4 * (sum sizes.old + length sizes.old)) }
{
    let mut len = len;
    let mut at = from;
    while let Some(size) = sizes.next() {
        if size == 0 || size > 4 {
            return None;
        }
        let word = Piece {
            bytes: [bytes[at], bytes[at + 1], bytes[at + 2], bytes[at + 3]],
            len: size as u8,
        };
        len = put_piece(text, len, separator);
        len = put_piece(text, len, word);
        at += size;
    }
    Some(len)
}

// Puts the digits after the first group, each group with the separator before it, after the first `len` bytes, and
// returns how many bytes there are then. `None`: a group has more digits than are put at once. The sizes are lent on only
// where they are read one by one, so that they need no memory where each is three.
#[inline(always)]
fn put_after(
    text: &mut [u8; SHORT],
    len: usize,
    separator: Piece,
    digits: &[u8; 16],
    first: usize,
    count: usize,
    sizes: GroupSizes,
    table: &DigitTable<'_>,
) -> Option<usize>
    requires room { len + 4 * (count - first + length sizes) ≤ 192 }
    requires within { count ≤ 16 }
    requires whole { first + sum sizes ≡ count }
    requires long { length separator.bytes ≡ 4 }
    requires short { separator.len ≤ 4 }
    requires tens { AllBelowBase 10 digits.now }
    ensures text { IfSome result (λ end. take end text.new
        ≡ take len text.old
        ++ groups_ahead (take separator.len separator.bytes) (digit_text table.now.chars.now) sizes
        (take (count - first) (drop first digits.now))) }
    ensures room { IfSome result (λ end. end ≤ len + 4 * (count - first + length sizes)) }
{
    let behind = &digits[first..count];
    let Some(nought) = table.nought else {
        let mut groups = sizes;
        return Some(put_any_groups(text, len, separator, behind, &mut groups, table));
    };
    if separator.len == 1 {
        if let Some(groups) = sizes.threes() {
            return Some(put_threes(text, len, separator.bytes[0], behind, groups, nought));
        }
    }
    let words = run_words(digits, nought);
    let mut groups = sizes;
    put_words(text, len, separator, &words, first, &mut groups)
}

// Puts the integer digits in their groups to the front, and returns how many bytes they have. `None`: a group after the
// first has more digits than are put at once.
#[inline(always)]
fn put_whole(
    text: &mut [u8; SHORT],
    tables: &DecimalTables<'_>,
    separator: Piece,
    number: &UnsignedDecimal,
) -> Option<usize>
    requires separator { Holds separator (borrowed_tables tables.now).symbols.strings.grouping_separator }
    requires few { number.now.high - 32767 ≤ 16 }
    ensures text { IfSome result
        (λ len. take len text.new ≡ whole_text (borrowed_tables tables.now) (whole_digits number.now)) }
    ensures utf8 { IfSome result (λ len. ∥ IsUtf8 (take len text.new) ∥₁) }
    ensures room { IfSome result (λ len. len ≤ 124) }
{
    let count = highest(number) + 1;
    let symbols = tables.symbols.symbols;
    let table = &tables.digits;
    let mut sizes = GroupSizes::of(count, tables.strategy, symbols.grouping_sizes);
    let first = sizes.next().unwrap_or(0);
    let mut digits = number.whole_digits();
    let block = block_of(&mut digits);
    let len = put_front(text, 0, &block, first, table);
    let end = put_after(
        text,
        len,
        separator,
        &block,
        first,
        count as usize,
        sizes,
        table,
    )?;
    Some(end)
}

// Puts the decimal separator and the fraction digits, where there are any, after the first `len` bytes, and returns
// how many bytes there are then.
#[inline(always)]
fn put_fraction(
    text: &mut [u8; SHORT],
    len: usize,
    tables: &DecimalTables<'_>,
    separator: Piece,
    number: &UnsignedDecimal,
) -> usize
    requires room { len ≤ 124 }
    requires separator { Holds separator (borrowed_tables tables.now).symbols.strings.decimal_separator }
    requires few { 32768 - number.now.low ≤ 16 }
    requires utf8 { ∥ IsUtf8 (take len text.old) ∥₁ }
    ensures text { take result text.new
        ≡ take len text.old ++ fraction_text (borrowed_tables tables.now) (fraction_digits number.now) }
    ensures utf8 { ∥ IsUtf8 (take result text.new) ∥₁ }
    ensures room { result ≤ 192 }
{
    let count = fraction_len(number) as usize;
    if count == 0 {
        return len;
    }
    let from = put_piece(text, len, separator);
    let mut digits = number.fraction_digits();
    let block = block_of(&mut digits);
    put_front(text, from, &block, count, &tables.digits)
}

// Puts the text of a number to the front, and returns how many bytes it has. `None`: it has more digits than are put at
// once, or a group after the first has, or a separator has more than four bytes.
#[inline(always)]
pub(crate) fn put_short(
    text: &mut [u8; SHORT],
    tables: &DecimalTables<'_>,
    number: &UnsignedDecimal,
) -> Option<usize>
    ensures text { IfSome result (λ len. take len text.new ≡ unsigned_text (borrowed_tables tables.now) number.now) }
    ensures utf8 { IfSome result (λ len. ∥ IsUtf8 (take len text.new) ∥₁) }
    ensures room { IfSome result (λ len. len ≤ 192) }
{
    if highest(number) >= BLOCK || fraction_len(number) > BLOCK {
        return None;
    }
    let separators = tables.symbols.separators?;
    let len = put_whole(text, tables, separators.group, number)?;
    Some(put_fraction(text, len, tables, separators.decimal, number))
}
