//! Many numbers into memory of the caller's: their texts one after the other, and where each ends.

ghost use Rattle.std.specs.Prelude.{◌≡◌, ◌≢◌, ◌∷◌, [], MatchOption, drop, true, false, IfErr, OnOk};
ghost use Rattle.locale_numbers_lines.specs.Lines.{HasNoFeed};
ghost use Rattle.locale_numbers_lines.specs.Progress.{FirstLine};
ghost use Rattle.legumeyet_c_values.specs.Columns.{IsWrittenColumn, OfFirst, given_in, integers, room, spelled_lines};
ghost use Rattle.legumeyet_c_values.specs.Numbers.{IsGiven, IsGivenFault, spelled};
ghost use Rattle.legumeyet_c_values.specs.Putting.{IsPut};

use crate::call_error::CallError;
use crate::numbers::{assign_double, assign_scaled, assign_text};
use fixed_decimal::Decimal;
use memchr::memchr;
use std::alloc::Global;

/// The numbers of a column, as a call is given them.
#[derive(Clone, Copy, Drop)]
pub enum Column<'a> {
    /// Doubles: 1.5 and -0.0.
    Doubles(&'a [f64]),
    /// Integers, each times ten to this power: 15 and -20 with -1 are 1.5 and -2.0.
    Integers(&'a [i64], i16),
    /// Texts, one a line: `1.5`, a line feed and `-2`.
    Texts(&'a [u8]),
}

// A text cut at its first line feed: the line that it ends, and what follows.
pub(crate) fn split_line(bytes: &[u8]) -> Option<(&[u8], &[u8])>
    ensures parts { MatchOption result
        (HasNoFeed bytes.now)
        (λ parts. FirstLine bytes.now parts.0.now parts.1.now) }
{
    match memchr(b'\n', bytes) {
        Some(at) => Some((&bytes[..at], &bytes[at + 1..])),
        None => None,
    }
}

// The first line of some bytes, and what follows its line feed; all of them, where they have none.
fn first_line(bytes: &[u8]) -> (&[u8], &[u8])
    requires { bytes.now ≢ [] }
    ensures { spelled_lines bytes.now ≡ spelled result.0.now ∷ spelled_lines result.1.now }
{
    match split_line(bytes) {
        Some(parts) => parts,
        None => (bytes, &[]),
    }
}

// Replaces a number by the first integer times the power of ten. Also the others.
fn first_integer<'a>(
    alloc: Global,
    mantissas: &'a [i64],
    exponent: i16,
    number: &mut Decimal,
) -> (Result<(), CallError>, Column<'a>)
    requires { integers mantissas.now exponent ≢ [] }
    ensures value { OfFirst (λ given. OnOk result.0 (IsGiven given number.new)) (integers mantissas.now exponent) }
    ensures fault { OfFirst (λ given. IfErr result.0 (IsGivenFault given)) (integers mantissas.now exponent) }
    ensures rest { given_in result.1 ≡ drop 1 (integers mantissas.now exponent) }
{
    let mantissa = mantissas[0];
    let outcome = assign_scaled(alloc, number, mantissa, exponent);
    (outcome, Column::Integers(&mantissas[1..], exponent))
}

impl<'a> Column<'a> {
    // Whether it has no number.
    fn is_empty(&self) -> bool
        ensures none { result ≡ true → given_in self.now ≡ [] }
        ensures some { result ≡ false → given_in self.now ≢ [] }
    {
        match self {
            Column::Doubles(numbers) => numbers.is_empty(),
            Column::Integers(mantissas, _) => mantissas.is_empty(),
            Column::Texts(lines) => lines.is_empty(),
        }
    }

    // Replaces a number by the first one, where that is one. Also the others.
    fn split_first(self, alloc: Global, number: &mut Decimal) -> (Result<(), CallError>, Column<'a>)
        requires { given_in self ≢ [] }
        ensures value { OfFirst (λ given. OnOk result.0 (IsGiven given number.new)) (given_in self.entry) }
        ensures fault { OfFirst (λ given. IfErr result.0 (IsGivenFault given)) (given_in self.entry) }
        ensures rest { given_in result.1 ≡ drop 1 (given_in self.entry) }
    {
        match self {
            Column::Doubles(numbers) => {
                let outcome = assign_double(number, numbers[0]);
                (outcome, Column::Doubles(&numbers[1..]))
            }
            Column::Integers(mantissas, exponent) => {
                first_integer(alloc, mantissas, exponent, number)
            }
            Column::Texts(lines) => {
                let (line, rest) = first_line(lines);
                (assign_text(number, line), Column::Texts(rest))
            }
        }
    }
}

/// What writes a number to bytes: a formatter with options.
pub trait NumberWriter {
    ghost use Rattle.std.specs.Prelude.{List, ℕ};
    ghost use Rattle.legumeyet_c_values.specs.Numbers.{Given, IsGivenFault, spelled};
    ghost use Rattle.legumeyet_c_values.specs.declared.call_error.CallError.{CallError};

    // what is written of what is given
    ghost says: { Self → Given → List ℕ → Type 0 };

    // why nothing is
    ghost fails: { Self → Given → CallError → Type 0 };

    // why no number is given is a reason
    ghost faults: { (writer : Self) (given : Given) (error : CallError) → IsGivenFault given error
        → fails writer given error };

    /// Changes a number as the options ask for, writes its text to the front of the bytes, and tells its length.
    /// `TooSmall`: it is longer than the bytes.
    fn write(
        &self,
        number: &mut Decimal,
        out: &mut [u8],
        length: &mut usize,
    ) -> Result<(), CallError>
        ensures put { (given : Given) → IsGiven given number.old
            → IsPut (says self.now given) (fails self.now given) out.old out.new length.old length.new result };

    /// Writes the number that a text spells, as `write` does; `number` is room for it. `TooSmall`: what is written is longer
    /// than the bytes.
    fn write_text(
        &self,
        alloc: Global,
        text: &[u8],
        number: &mut Decimal,
        out: &mut [u8],
        length: &mut usize,
    ) -> Result<(), CallError>
        ensures text { IsPut (says self.now (spelled text.now)) (fails self.now (spelled text.now)) out.old out.new
            length.old length.new result };
}

// Writes the number that the first line spells, and leaves the lines after it.
fn write_line<'a, W: NumberWriter>(
    alloc: Global,
    writer: &W,
    lines: &'a [u8],
    number: &mut Decimal,
    out: &mut [u8],
    length: &mut usize,
) -> (Result<(), CallError>, Column<'a>)
    requires { spelled_lines lines.now ≢ [] }
    ensures put { OfFirst (λ given. IsPut (W.says writer.now given) (W.fails writer.now given) out.old out.new length.old
        length.new result.0) (spelled_lines lines.now) }
    ensures rest { given_in result.1 ≡ drop 1 (spelled_lines lines.now) }
{
    let (line, rest) = first_line(lines);
    let outcome = writer.write_text(alloc, line, number, out, length);
    (outcome, Column::Texts(rest))
}

// Writes the first number that is left of a column, in place of another one.
fn write_number<W: NumberWriter>(
    alloc: Global,
    writer: &W,
    left: &mut Column<'_>,
    number: &mut Decimal,
    out: &mut [u8],
    length: &mut usize,
) -> Result<(), CallError>
    requires { given_in left.old ≢ [] }
    ensures put { OfFirst
        (λ given. IsPut (W.says writer.now given) (W.fails writer.now given) out.old out.new length.old length.new result)
        (given_in left.old) }
    ensures rest { given_in left.new ≡ drop 1 (given_in left.old) }
{
    let (outcome, rest) = left.split_first(alloc, number);
    *left = rest;
    match outcome {
        Ok(()) => writer.write(number, out, length),
        Err(error) => Err(error),
    }
}

// Writes the first number that is left of a column, in place of another one; a text as a writer writes texts.
fn write_first<W: NumberWriter>(
    alloc: Global,
    writer: &W,
    left: &mut Column<'_>,
    number: &mut Decimal,
    out: &mut [u8],
    length: &mut usize,
) -> Result<(), CallError>
    requires { given_in left.old ≢ [] }
    ensures put { OfFirst
        (λ given. IsPut (W.says writer.now given) (W.fails writer.now given) out.old out.new length.old length.new result)
        (given_in left.old) }
    ensures rest { given_in left.new ≡ drop 1 (given_in left.old) }
{
    match *left {
        Column::Texts(lines) => {
            let (outcome, rest) = write_line(alloc, writer, lines, number, out, length);
            *left = rest;
            outcome
        }
        Column::Doubles(_) | Column::Integers(_, _) => {
            write_number(alloc, writer, left, number, out, length)
        }
    }
}

/// Writes the numbers of a column, and tells where the text of each ends, and how many were written: of 1.5 and -2 the
/// bytes `1.5-2`, the ends 3 and 5, and 2. It stops at the first number that is not written.
///
/// `TooSmall`: the ends are all told, or the next text is longer than the bytes that are left. Another error is that of
/// the next number.
pub fn write_column<W: NumberWriter>(
    alloc: Global,
    writer: &W,
    column: Column<'_>,
    out: &mut [u8],
    ends: &mut [usize],
    count: &mut usize,
) -> Result<(), CallError>
    ensures { IsWrittenColumn (W.says writer.now) (W.fails writer.now) (given_in column.entry) (room out.old ends.old count.old)
        (room out.new ends.new count.new) result }
{
    *count = 0;
    let mut left = column;
    let mut value = Decimal::zero(alloc);
    let mut end = 0;
    'number: while !left.is_empty() {
        if *count >= ends.len() {
            return Err(CallError::TooSmall);
        }
        let mut length = 0;
        write_first(
            alloc,
            writer,
            &mut left,
            &mut value,
            &mut out[end..],
            &mut length,
        )?;
        end += length;
        ends[*count] = end;
        *count += 1;
    }
    Ok(())
}
