//! The digits of a number in chunks, and groups that are written by chunks.

ghost use Rattle.std.specs.Prelude.{◌≡◌, ℕ, ◌+◌, ◌%◌, ◌<◌, ◌≤◌, ◌++◌, [], drop, false, is_err, length, min, sum, take, IsUtf8, OnOk, OnErr};
ghost use Rattle.std.specs.Int.Digits.{AllBelowBase};
ghost use Rattle.writeable.specs.AnnotatedText.{bytes};
ghost use Rattle.writeable.specs.Taking.{HasBegun, IsWriting};
ghost use Rattle.icu_decimal_plain.specs.PlainText.{digit_text};
ghost use Rattle.icu_decimal_plain.specs.LaterGroups.{groups_ahead};

use crate::piece_tables::DigitTable;
use crate::text_pieces::{CHUNK_BYTES, Piece, put_groups};
use fixed_decimal::ShownDigits;
use icu_decimal_grouping::{CHUNK, GroupSizes};
use std::iter::ExactSizeIterator;
use writeable::{Error, Sink};

// Puts a block of digits into a chunk, from a place on.
pub(crate) fn set_block<const N: usize, const M: usize>(
    chunk: &mut [u8; N],
    at: usize,
    block: &[u8; M],
)
    requires { at + M ≤ N }
    ensures { take (at + M) chunk.new ≡ take at chunk.old ++ block.now }
{
    let all = &mut chunk[..];
    all[at..at + M].copy_from_slice(block);
}

// Puts the next digits into a chunk, from a place on, sixteen or all that are left, and returns how many they are.
fn put_next(digits: &mut ShownDigits<'_>, chunk: &mut [u8; CHUNK], at: usize) -> usize
    requires within { at + 16 ≤ 48 }
    ensures count { result ≡ min 16 (length digits.old) }
    ensures chunk { take (at + result) chunk.new ≡ take at chunk.old ++ take result digits.old }
    ensures digits { digits.new ≡ drop result digits.old }
{
    let mut block = [0; 16];
    let count = digits.next_block(&mut block);
    set_block(chunk, at, &block);
    count
}

// Takes the next `count` digits, as a part of a chunk; the bytes after them mean nothing. Digits are taken sixteen by
// sixteen, so more may be gone than these, where they are neither all digits nor whole blocks.
pub(crate) fn few_digits(digits: &mut ShownDigits<'_>, count: usize) -> [u8; CHUNK]
    requires few { count ≤ 48 }
    requires enough { count ≤ length digits.old }
    ensures long { length result ≡ 48 }
    ensures chunk { take count result ≡ take count digits.old }
    ensures digits { length digits.old ≤ count → digits.new ≡ [] }
    ensures blocks { count % 16 ≡ 0 → digits.new ≡ drop count digits.old }
{
    let mut chunk = [0; CHUNK];
    let mut at = 0;
    while at < count {
        put_next(digits, &mut chunk, at);
        at += 16;
    }
    chunk
}

// Takes the next forty-eight digits.
fn next_digits(digits: &mut ShownDigits<'_>) -> [u8; CHUNK]
    requires { 48 ≤ length digits.old }
    ensures long { length result ≡ 48 }
    ensures chunk { take 48 result ≡ take 48 digits.old }
    ensures digits { digits.new ≡ drop 48 digits.old }
{
    match digits.next_chunk() {
        Some(chunk) => chunk,
        None => few_digits(digits, CHUNK),
    }
}

// Writes the first `len` bytes of `waiting`.
pub(crate) fn write_waiting<S: Sink>(waiting: &[u8], len: usize, sink: &mut S) -> Result<(), Error>
    requires fine { S.refused sink.old ≡ false }
    requires within { len ≤ length waiting.now }
    requires utf8 { IsUtf8 (take len waiting.now) }
    ensures ok { OnOk result (S.takes sink.old (bytes (take len waiting.now)) sink.new) }
    ensures refused { S.refused sink.new ≡ is_err result }
    ensures begun { OnErr result (HasBegun S.takes S.lacks_room sink.old (bytes (take len waiting.now)) sink.new) }
{
    sink.write_str(unsafe { str::from_utf8_unchecked(&waiting[..len]) })
}

// Writes groups by chunks, each group with the separator before it, as long as they fill one.
pub(crate) fn write_chunks<S: Sink>(
    separator: &str,
    digits: &mut ShownDigits<'_>,
    sizes: &mut GroupSizes,
    table: &DigitTable<'_>,
    sink: &mut S,
) -> Result<(), Error>
    requires fine { S.refused sink.old ≡ false }
    requires short { length separator.now ≤ 4 }
    requires tens { AllBelowBase 10 digits.old }
    ensures tens { OnOk result (AllBelowBase 10 digits.new) }
    ensures digits { OnOk result (drop (sum sizes.new) digits.new ≡ drop (sum sizes.old) digits.old) }
    ensures ok { OnOk result (IsWriting S.takes S.refused
        sink.old (bytes (groups_ahead separator.now (digit_text table.now.chars.now) sizes.old digits.old))
        sink.new (bytes (groups_ahead separator.now (digit_text table.now.chars.now) sizes.new digits.new))) }
    ensures refused { S.refused sink.new ≡ is_err result }
    ensures begun { OnErr result (HasBegun S.takes S.lacks_room
        sink.old (bytes (groups_ahead separator.now (digit_text table.now.chars.now) sizes.old digits.old)) sink.new) }
{
    let piece = Piece::new(separator);
    let mut waiting = [0; CHUNK_BYTES];
    while digits.len() >= CHUNK {
        let Some(mut groups) = sizes.next_chunk() else {
            return Ok(());
        };
        let chunk = next_digits(digits);
        let len = put_groups(&mut waiting, 0, piece, &chunk, &mut groups, table);
        write_waiting(&waiting, len, sink)?;
    }
    Ok(())
}

// Writes the last groups by one call of the sink, each with the separator before it.
pub(crate) fn write_last<S: Sink>(
    separator: &str,
    digits: &mut ShownDigits<'_>,
    sizes: &mut GroupSizes,
    table: &DigitTable<'_>,
    sink: &mut S,
) -> Result<(), Error>
    requires fine { S.refused sink.old ≡ false }
    requires short { length separator.now ≤ 4 }
    requires few { length digits.old ≤ 48 }
    requires room { length digits.old + length sizes.old ≤ 96 }
    requires whole { sum sizes.old ≡ length digits.old }
    requires tens { AllBelowBase 10 digits.old }
    ensures digits { OnOk result (digits.new ≡ drop (sum sizes.old) digits.old) }
    ensures ok { OnOk result
        (S.takes sink.old (bytes (groups_ahead separator.now (digit_text table.now.chars.now) sizes.old digits.old))
        sink.new) }
    ensures refused { S.refused sink.new ≡ is_err result }
    ensures begun { OnErr result (HasBegun S.takes S.lacks_room
        sink.old (bytes (groups_ahead separator.now (digit_text table.now.chars.now) sizes.old digits.old)) sink.new) }
{
    let piece = Piece::new(separator);
    let count = digits.len();
    let chunk = few_digits(digits, count);
    let mut waiting = [0; CHUNK_BYTES];
    let len = put_groups(&mut waiting, 0, piece, &chunk[..count], sizes, table);
    write_waiting(&waiting, len, sink)
}
