//! Digits in groups, put together from short pieces of text.

ghost use Rattle.std.specs.Prelude.{◌≡◌, ℕ, ◌+◌, ◌*◌, ◌/◌, ◌%◌, ◌<◌, ◌≤◌, ◌++◌, drop, length, map, replicate, slice_index, sum, take, encode_utf8, IsUtf8, List};
ghost use Rattle.std.specs.Int.Digits.{AllBelowBase};
ghost use Rattle.icu_decimal_plain.specs.PlainText.{chained, digit_text};
ghost use Rattle.icu_decimal_plain.specs.LaterGroups.{groups_ahead};
ghost use Rattle.icu_decimal_plain.specs.Pieces.{Holds, HoldTable};
ghost use Rattle.icu_decimal_plain.specs.Runs.{run_text};

use crate::piece_tables::DigitTable;
use crate::runs::{put_many_threes, put_run};
use icu_decimal_grouping::GroupSizes;

// The bytes that the digits of a chunk may have, with a separator before each.
pub(crate) const CHUNK_BYTES: usize = 384;

// A text of at most four bytes, in a word of four.
#[derive(Clone, Copy, Debug)]
pub(crate) struct Piece {
    pub bytes: [u8; 4],
    pub len: u8,
}

impl Piece {
    // The text as a piece.
    pub(crate) fn new(text: &str) -> Self
        requires { length text.now ≤ 4 }
        ensures { Holds result text.now }
    {
        let mut bytes = [0; 4];
        bytes[..text.len()].copy_from_slice(text.as_bytes());
        Piece {
            bytes,
            len: text.len() as u8,
        }
    }

    // A character as a piece.
    fn of_char(character: char) -> Self
        ensures { Holds result (encode_utf8 character) }
    {
        if (character as u32) < 128 {
            return Piece {
                bytes: [character as u8, 0, 0, 0],
                len: 1,
            };
        }
        let mut bytes = [0; 4];
        Piece::new(character.encode_utf8(&mut bytes))
    }
}

// The grouping separator and the decimal separator, as pieces.
#[derive(Clone, Copy, Debug)]
pub(crate) struct Separators {
    pub group: Piece,
    pub decimal: Piece,
}

// The characters of a table as pieces.
pub(crate) fn pieces_of(table: &[char; 10]) -> [Piece; 10]
    ensures { HoldTable result table.now }
{
    let mut pieces = [Piece {
        bytes: [0; 4],
        len: 0,
    }; 10];
    let mut digit = 0;
    while digit < 10 {
        pieces[digit] = Piece::of_char(table[digit]);
        digit += 1;
    }
    pieces
}

// Puts a piece after the first `len` bytes, and returns how many bytes there are then.
pub(crate) fn put_piece<const N: usize>(waiting: &mut [u8; N], len: usize, piece: Piece) -> usize
    requires room { len + 4 ≤ N }
    requires long { length piece.bytes ≡ 4 }
    requires short { piece.len ≤ 4 }
    ensures text { take result waiting.new ≡ take len waiting.old ++ take piece.len piece.bytes }
    ensures room { result ≤ len + 4 }
{
    let [first, second, third, fourth] = piece.bytes;
    waiting[len] = first;
    waiting[len + 1] = second;
    waiting[len + 2] = third;
    waiting[len + 3] = fourth;
    len + piece.len as usize
}

// Puts digits as pieces after the first `len` bytes, and returns how many bytes there are then.
pub(crate) fn put_digit_pieces<const N: usize>(
    waiting: &mut [u8; N],
    len: usize,
    digits: &[u8],
    table: &DigitTable<'_>,
) -> usize
    requires room { len + 4 * length digits.now ≤ N }
    requires tens { AllBelowBase 10 digits.now }
    ensures text { take result waiting.new
        ≡ take len waiting.old ++ chained (map (digit_text table.now.chars.now) digits.now) }
    ensures room { result ≤ len + 4 * length digits.now }
{
    let mut len = len;
    let mut at = 0;
    while at < digits.len() {
        len = put_piece(waiting, len, table.pieces[digits[at] as usize]);
        at += 1;
    }
    len
}

// Puts digits that are single bytes in a row after the first `len` bytes, and returns how many bytes there are then: two
// or three of them as a word.
fn put_few_run<const N: usize>(
    waiting: &mut [u8; N],
    len: usize,
    digits: &[u8],
    nought: u8,
) -> usize
    requires room { len + 4 * length digits.now ≤ N }
    requires small { nought + 9 < 128 }
    requires tens { AllBelowBase 10 digits.now }
    ensures text { take result waiting.new ≡ take len waiting.old ++ chained (map (run_text nought) digits.now) }
    ensures room { result ≤ len + 4 * length digits.now }
{
    match digits {
        [one, two, three] => put_piece(
            waiting,
            len,
            Piece {
                bytes: [nought + *one, nought + *two, nought + *three, 0],
                len: 3,
            },
        ),
        [one, two] => put_piece(
            waiting,
            len,
            Piece {
                bytes: [nought + *one, nought + *two, 0, 0],
                len: 2,
            },
        ),
        _ => put_run(waiting, len, digits, nought),
    }
}

// Puts digits after the first `len` bytes, and returns how many bytes there are then.
pub(crate) fn put_digits<const N: usize>(
    waiting: &mut [u8; N],
    len: usize,
    digits: &[u8],
    table: &DigitTable<'_>,
) -> usize
    requires room { len + 4 * length digits.now ≤ N }
    requires tens { AllBelowBase 10 digits.now }
    ensures text { take result waiting.new
        ≡ take len waiting.old ++ chained (map (digit_text table.now.chars.now) digits.now) }
    ensures room { result ≤ len + 4 * length digits.now }
{
    if let Some(nought) = table.nought {
        return put_few_run(waiting, len, digits, nought);
    }
    put_digit_pieces(waiting, len, digits, table)
}

// Puts groups of any sizes, each with the separator before it, after the first `len` bytes, and returns how many bytes
// there are then.
#[inline(never)]
pub(crate) fn put_any_groups<const N: usize>(
    waiting: &mut [u8; N],
    len: usize,
    separator: Piece,
    digits: &[u8],
    sizes: &mut GroupSizes,
    table: &DigitTable<'_>,
) -> usize
    requires room { len + 4 * (length digits.now + length sizes.old) ≤ N }
    requires whole { sum sizes.old ≡ length digits.now }
    requires long { length separator.bytes ≡ 4 }
    requires short { separator.len ≤ 4 }
    requires tens { AllBelowBase 10 digits.now }
    ensures text { take result waiting.new
        ≡ take len waiting.old
        ++ groups_ahead (take separator.len separator.bytes) (digit_text table.now.chars.now) sizes.old digits.now }
    ensures room { result ≤ len + 4 * (length digits.now + length sizes.old) }
{
    let mut len = len;
    let mut ahead = digits;
    while let Some(size) = sizes.next() {
        let (group, behind) = ahead.split_at(size);
        len = put_piece(waiting, len, separator);
        len = put_digits(waiting, len, group, table);
        ahead = behind;
    }
    len
}

// Puts groups, each with the separator before it, after the first `len` bytes, and returns how many bytes there are
// then.
pub(crate) fn put_groups<const N: usize>(
    waiting: &mut [u8; N],
    len: usize,
    separator: Piece,
    digits: &[u8],
    sizes: &mut GroupSizes,
    table: &DigitTable<'_>,
) -> usize
    requires room { len + 4 * (length digits.now + length sizes.old) ≤ N }
    requires whole { sum sizes.old ≡ length digits.now }
    requires long { length separator.bytes ≡ 4 }
    requires short { separator.len ≤ 4 }
    requires tens { AllBelowBase 10 digits.now }
    ensures text { take result waiting.new
        ≡ take len waiting.old
        ++ groups_ahead (take separator.len separator.bytes) (digit_text table.now.chars.now) sizes.old digits.now }
    ensures room { result ≤ len + 4 * (length digits.now + length sizes.old) }
{
    if let Some(nought) = table.nought {
        if let Some(groups) = sizes.threes() {
            if separator.len == 1 {
                return put_many_threes(waiting, len, separator.bytes[0], digits, groups, nought);
            }
        }
    }
    put_any_groups(waiting, len, separator, digits, sizes, table)
}
