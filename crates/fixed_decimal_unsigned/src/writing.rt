//! The text of a number, written in pieces of up to sixty-four characters.

ghost use Rattle.std.specs.Prelude.{◌≡◌, ℕ, ◌+◌, ◌-◌, ◌*◌, ◌/◌, ◌<◌, ◌≤◌, ◌++◌, codes, false, is_err, length, map, take, IfSome, OnOk, OnErr, Some};
ghost use Rattle.std.specs.Int.Digits.{AllBelowBase};
ghost use Rattle.std.specs.Str.{IsAscii};
ghost use Rattle.writeable.specs.AnnotatedText.{bytes};
ghost use Rattle.writeable.specs.Taking.{HasBegun};
ghost use Rattle.fixed_decimal_unsigned.specs.Number.{digits_down, whole_digits, fraction_digits};
ghost use Rattle.fixed_decimal_unsigned.specs.NumberText.{character, after_point, text_of};

use crate::unsigned_decimal::UnsignedDecimal;
use fixed_decimal_digits::{BLOCK, ONES, digits_at};
use std::fmt;
use writeable::{Error, LengthHint, Sink, Writeable, display};

// How many bytes a text may have that one call of the sink writes.
const SHORT: u16 = 32;

// How many digits of a longer text are written by one call of the sink at most.
const PIECE: u16 = 64;

// The characters of sixteen digits.
#[inline(always)]
#[tactic(auto, using(crate::proofs::WritingLemmas::character_more, crate::proofs::WritingLemmas::characters_whole, crate::proofs::WritingLemmas::ten_at))]
fn characters_of(digits: &[u8; 16]) -> [u8; 16]
    requires { AllBelowBase 10 digits.now }
    ensures { result ≡ map character digits.now }
{
    let mut text = [b'0'; 16];
    let mut index = 0;
    while index < 16 {
        text[index] = b'0' + digits[index];
        index += 1;
    }
    text
}

// Puts the characters of sixteen digits into a piece, from an index on.
fn put_characters(piece: &mut [u8; 64], at: usize, digits: &[u8; 16])
    requires room { at + 16 ≤ 64 }
    requires tens { AllBelowBase 10 digits.now }
    ensures { take (at + 16) piece.new ≡ take at piece.old ++ map character digits.now }
{
    let text = characters_of(digits);
    let all = &mut piece[..];
    all[at..at + 16].copy_from_slice(&text);
}

// Puts the characters of `size` digits into a piece, from an index on: the highest first, down to the one at `base`.
// They are put sixteen by sixteen, so the bytes after them mean nothing.
fn spell(number: &UnsignedDecimal, base: u16, size: u16, piece: &mut [u8; 64], from: u16)
    requires room { from + (size + 15) / 16 * 16 ≤ 64 }
    requires places { base + size ≤ 65536 }
    ensures { take (from + size) piece.new
        ≡ take from piece.old ++ map character (digits_down number.now.count base size) }
{
    let mut digits = digits_at(&number.digits, number.top, base, size);
    let mut done = 0;
    while done < size as usize {
        let mut block = [0; 16];
        let count = digits.next_block(&mut block);
        put_characters(piece, from as usize + done, &block);
        done += count;
    }
}

// Puts the text of a number into a piece, and says how long it is.
#[tactic(auto, using(crate::proofs::WritingLemmas::spelled_whole, crate::proofs::WritingLemmas::spelled_both))]
fn spell_text(number: &UnsignedDecimal, piece: &mut [u8; 64]) -> u16
    requires { number.now.high ≤ number.now.low + 30 }
    ensures fits { result ≤ 32 }
    ensures text { take result piece.new ≡ text_of number.now }
{
    let whole = number.high - (ONES - 1);
    spell(number, ONES, whole, piece, 0);
    if number.low >= ONES {
        return whole;
    }
    piece[whole as usize] = b'.';
    let fraction = ONES - number.low;
    spell(number, number.low, fraction, piece, whole + 1);
    whole + 1 + fraction
}

// ASCII characters as a text.
fn ascii_text(characters: &[u8]) -> &str
    requires { IsAscii characters.now }
    ensures { result.now ≡ characters.now }
{
    unsafe { str::from_utf8_unchecked(characters) }
}

// The text of a block of digits, down to the one at `base`, where they are kept in bytes of their own.
fn block_at(number: &UnsignedDecimal, base: u16) -> Option<[u8; 64]>
    ensures { IfSome result (λ text. text ≡ map character (digits_down number.now.count base 64)) }
{
    let past = base as usize + BLOCK;
    let first = number.top as usize + 1;
    if past > first {
        return None;
    }
    let index = first - past;
    if index % 2 == 0 && index + BLOCK <= number.digits.len() {
        return Some(number.digits.block(index));
    }
    None
}

// A piece that begins with `size` digits of a number, from the highest down to the one at `base`.
fn piece_of(number: &UnsignedDecimal, base: u16, size: u16) -> [u8; 64]
    requires few { size ≤ 64 }
    requires places { base + size ≤ 65536 }
    ensures { take size result ≡ map character (digits_down number.now.count base size) }
{
    if size == PIECE {
        if let Some(text) = block_at(number, base) {
            return text;
        }
    }
    let mut piece = [b'0'; 64];
    spell(number, base, size, &mut piece, 0);
    piece
}

// How many of the digits that are left are written next: one, where the ones after it begin a byte.
fn piece_size(number: &UnsignedDecimal, base: u16, left: u16) -> u16
    requires { 0 < left }
    ensures some { 0 < result }
    ensures few { result ≤ 64 }
    ensures within { result ≤ left }
{
    let past = base as usize + left as usize;
    let first = number.top as usize + 1;
    if past < first && (first - past) % 2 == 1 {
        return 1;
    }
    left.min(PIECE)
}

// Writes `size` digits of a number, from the highest down to the one at `base`, by one call of the sink.
fn write_piece<S: Sink>(
    number: &UnsignedDecimal,
    base: u16,
    size: u16,
    sink: &mut S,
) -> Result<(), Error>
    requires fine { S.refused sink.old ≡ false }
    requires few { size ≤ 64 }
    requires places { base + size ≤ 65536 }
    ensures ok { OnOk result
        (S.takes sink.old (bytes (map character (digits_down number.now.count base size))) sink.new) }
    ensures refused { S.refused sink.new ≡ is_err result }
    ensures begun { OnErr result
        (HasBegun S.takes S.lacks_room sink.old (bytes (map character (digits_down number.now.count base size)))
        sink.new) }
{
    let piece = piece_of(number, base, size);
    sink.write_str(ascii_text(&piece[..size as usize]))
}

// Writes `count` digits of a number, from the highest down to the one at `base`.
fn write_digits<S: Sink>(
    number: &UnsignedDecimal,
    base: u16,
    count: u16,
    sink: &mut S,
) -> Result<(), Error>
    requires fine { S.refused sink.old ≡ false }
    requires places { base + count ≤ 65536 }
    ensures ok { OnOk result
        (S.takes sink.old (bytes (map character (digits_down number.now.count base count))) sink.new) }
    ensures refused { S.refused sink.new ≡ is_err result }
    ensures begun { OnErr result
        (HasBegun S.takes S.lacks_room sink.old (bytes (map character (digits_down number.now.count base count)))
        sink.new) }
{
    let mut left = count;
    while left > 0 {
        let size = piece_size(number, base, left);
        left -= size;
        write_piece(number, base + left, size, sink)?;
    }
    Ok(())
}

// Writes a point, and `count` digits after it.
fn write_point<S: Sink>(
    number: &UnsignedDecimal,
    base: u16,
    count: u16,
    sink: &mut S,
) -> Result<(), Error>
    requires fine { S.refused sink.old ≡ false }
    requires places { base + count ≤ 65536 }
    ensures ok { OnOk result
        (S.takes sink.old (bytes (codes ".") ++ bytes (map character (digits_down number.now.count base count)))
        sink.new) }
    ensures refused { S.refused sink.new ≡ is_err result }
    ensures begun { OnErr result
        (HasBegun S.takes S.lacks_room sink.old
        (bytes (codes ".") ++ bytes (map character (digits_down number.now.count base count))) sink.new) }
{
    sink.write_str(".")?;
    write_digits(number, base, count, sink)
}

// Writes the point and the digits after it, or nothing where none are shown.
#[tactic(auto, using(crate::proofs::WritingLemmas::fraction_events, crate::proofs::WritingLemmas::no_fraction_events))]
fn write_fraction<S: Sink>(number: &UnsignedDecimal, sink: &mut S) -> Result<(), Error>
    requires fine { S.refused sink.old ≡ false }
    ensures ok { OnOk result
        (S.takes sink.old (bytes (after_point (map character (fraction_digits number.now)))) sink.new) }
    ensures refused { S.refused sink.new ≡ is_err result }
    ensures begun { OnErr result
        (HasBegun S.takes S.lacks_room sink.old (bytes (after_point (map character (fraction_digits number.now))))
        sink.new) }
{
    if number.low >= ONES {
        return Ok(());
    }
    write_point(number, number.low, ONES - number.low, sink)
}

// Writes the digits before the point.
fn write_whole<S: Sink>(number: &UnsignedDecimal, sink: &mut S) -> Result<(), Error>
    requires fine { S.refused sink.old ≡ false }
    ensures ok { OnOk result (S.takes sink.old (bytes (map character (whole_digits number.now))) sink.new) }
    ensures refused { S.refused sink.new ≡ is_err result }
    ensures begun { OnErr result
        (HasBegun S.takes S.lacks_room sink.old (bytes (map character (whole_digits number.now))) sink.new) }
{
    write_digits(number, ONES, number.high - (ONES - 1), sink)
}

// Writes a text of at most thirty-two bytes by one call of the sink.
fn write_short<S: Sink>(number: &UnsignedDecimal, sink: &mut S) -> Result<(), Error>
    requires fine { S.refused sink.old ≡ false }
    requires short { number.now.high ≤ number.now.low + 30 }
    ensures ok { OnOk result (S.takes sink.old (bytes (text_of number.now)) sink.new) }
    ensures refused { S.refused sink.new ≡ is_err result }
    ensures begun { OnErr result (HasBegun S.takes S.lacks_room sink.old (bytes (text_of number.now)) sink.new) }
{
    let mut piece = [b'0'; 64];
    let length = spell_text(number, &mut piece);
    sink.write_str(ascii_text(&piece[..length as usize]))
}

// The number of bytes of a number's text.
#[tactic(auto, using(crate::proofs::PrintedLemmas::text_with_fraction, crate::proofs::PrintedLemmas::text_without_fraction))]
fn text_length(number: &UnsignedDecimal) -> usize
    ensures { result ≡ length (text_of number.now) }
{
    let digits = (number.high - number.low) as usize + 1;
    if number.low < ONES {
        digits + 1
    } else {
        digits
    }
}

impl Writeable for UnsignedDecimal {
    ghost use Rattle.std.specs.Prelude.{◌≡◌, ◌++◌, Some, length, map};
    ghost use Rattle.writeable.specs.AnnotatedText.{bytes, text_of as written};
    ghost use Rattle.writeable.specs.LengthHint.{IsWithinHint};
    ghost use Rattle.fixed_decimal_unsigned.specs.Number.{whole_digits, fraction_digits};
    ghost use Rattle.fixed_decimal_unsigned.specs.NumberText.{character, after_point, text_of};

    ghost events = { λ v. bytes (map character (whole_digits v))
        ++ bytes (after_point (map character (fraction_digits v))) };

    #[tactic(auto, using(crate::proofs::WritingLemmas::text_events))]
    fn write_to<S: Sink>(&self, sink: &mut S) -> Result<(), Error> {
        if self.high - self.low < SHORT - 1 {
            return write_short(self, sink);
        }
        write_whole(self, sink)?;
        write_fraction(self, sink)
    }

    #[tactic(auto, using(crate::proofs::WritingLemmas::events_length))]
    fn writeable_length_hint(&self) -> LengthHint
        ensures within { IsWithinHint result
            (length
            (written
            (bytes (map character (whole_digits self.now))
            ++ bytes (after_point (map character (fraction_digits self.now)))))) }
        ensures low { result.low ≡ length (text_of self.now) }
        ensures high { result.high ≡ Some (length (text_of self.now)) }
    {
        LengthHint::exact(text_length(self))
    }
}

impl fmt::Display for UnsignedDecimal {
    ghost use Rattle.std.specs.Prelude.{Some};
    ghost use Rattle.fixed_decimal_unsigned.specs.NumberText.{text_of};

    ghost output = { λ v. Some (text_of v) };

    #[tactic(auto, using(crate::proofs::WritingLemmas::events_text))]
    fn fmt<W: fmt::Write>(&self, f: &mut fmt::Formatter<W>) -> fmt::Result {
        display(self, f)
    }
}
