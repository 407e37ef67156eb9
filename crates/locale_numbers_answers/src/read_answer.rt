//! The tasks that read a text: back, and as people type it.

ghost use Rattle.std.specs.Prelude.{◌≡◌, ◌++◌, Some, IsOk, OnOk, OnErr, string_bytes};
ghost use Rattle.fixed_decimal.specs.SignedText.{signed_text_of};
ghost use Rattle.icu_decimal.specs.PlainReading.{decimal};
ghost use Rattle.locale_numbers_lines.specs.Growth.{Grows};
ghost use Rattle.locale_numbers_formatter.specs.FormatReading.{ReaderAllocates, reading_by_reader};
ghost use Rattle.locale_numbers_formatter.specs.FormatTyped.{TypedAllocates, reading_by_typed};
ghost use Rattle.locale_numbers_answers.specs.AnswerLine.{written};
ghost use Rattle.locale_numbers_answers.specs.AnswerSink.{HasRoom};
ghost use Rattle.locale_numbers_answers.specs.ReadAnswer.{fraction_asked, is_own_rounding, own_reading, read_answer};

use crate::answer_line::{write_ok, write_refusal};
use fixed_decimal::Decimal;
use icu_decimal::error::ReadError;
use icu_dimension_fractions::{Fraction, FractionInfo};
use locale_numbers_formats::Rounding;
use locale_numbers_formatter::{LenientNumberReader, NumberReader};
use locale_numbers_requests::Refusal;
use std::alloc::{AllocError, Global};

// Writes the answer that is a number, as it is printed, after what `out` holds.
fn write_number_read(value: &Decimal, out: &mut String) -> Result<(), AllocError>
    ensures text { OnOk result (string_bytes out.new ≡ string_bytes out.old ++ written (signed_text_of value.now)) }
    ensures err { OnErr result (Grows (string_bytes out.old) (string_bytes out.new)) }
    ensures room { HasRoom out.old (written (signed_text_of value.now)) → IsOk result }
{
    write_ok(out, value)
}

// The digits that an amount is rounded to, where no other rounding is asked for.
fn fraction_asked(fractions: Option<FractionInfo>, rounding: Rounding) -> Option<Fraction>
    ensures { result ≡ fraction_asked fractions rounding }
{
    let fractions = fractions?;
    match rounding {
        Rounding::Usual => Some(fractions.standard),
        Rounding::Cash => Some(fractions.cash),
        Rounding::AsGiven
        | Rounding::At(_, _, _)
        | Rounding::Significant(_, _)
        | Rounding::Either(_, _, _, _) => None,
    }
}

// Whether an amount is its own rounding.
fn is_rounded(value: &Decimal, fraction: Fraction) -> bool
    ensures { result ≡ is_own_rounding (Some fraction) value.now }
{
    fraction.is_rounded(value)
}

// Writes the answer that is the number which was read, where it is its own rounding to these digits, after what `out`
// holds.
fn write_own_amount(value: &Decimal, fraction: Fraction, out: &mut String) -> Result<(), AllocError>
    ensures text { OnOk result (string_bytes out.new
        ≡ string_bytes out.old ++ read_answer (own_reading (Some fraction) (decimal value.now))) }
    ensures err { OnErr result (Grows (string_bytes out.old) (string_bytes out.new)) }
    ensures room { HasRoom out.old (read_answer (own_reading (Some fraction) (decimal value.now))) → IsOk result }
{
    if is_rounded(value, fraction) {
        write_number_read(value, out)
    } else {
        write_refusal(out, Refusal::NotWritten)
    }
}

// Writes the answer that is the number which was read, where it is its own rounding, or where none is asked for.
fn write_own(
    value: &Decimal,
    fraction: Option<Fraction>,
    out: &mut String,
) -> Result<(), AllocError>
    ensures text { OnOk result (string_bytes out.new
        ≡ string_bytes out.old ++ read_answer (own_reading fraction (decimal value.now))) }
    ensures err { OnErr result (Grows (string_bytes out.old) (string_bytes out.new)) }
    ensures room { HasRoom out.old (read_answer (own_reading fraction (decimal value.now))) → IsOk result }
{
    match fraction {
        Some(fraction) => write_own_amount(value, fraction, out),
        None => write_number_read(value, out),
    }
}

/// Writes the answer to a text that is read back after what `out` holds: the number whose text this is, printed with its
/// sign and the digits shown, or the word `unreadable` or `not-written`.
///
/// By a reader of `en` `-987,654.321` is answered by `ok`, a tab and `-987654.321`. An amount is read only where it is its
/// own rounding to `fractions`, the digits of the currency: of euros `€1.50` is answered by `ok`, a tab and `1.50`, and
/// `€1.5` by `not-written`. Where there is room, it allocates only where the reader does. `AllocError`: out of memory; a
/// part of the answer may then be there.
pub fn write_read_answer(
    alloc: Global,
    reader: &NumberReader<'_>,
    fractions: Option<FractionInfo>,
    rounding: Rounding,
    text: &str,
    out: &mut String,
) -> Result<(), AllocError>
    ensures text { OnOk result (string_bytes out.new
        ≡ string_bytes out.old ++ read_answer
        (own_reading (fraction_asked fractions rounding) (reading_by_reader reader.now text.now))) }
    ensures err { OnErr result (Grows (string_bytes out.old) (string_bytes out.new)) }

    // Where there is room for the answer, only a text of more than sixteen digits between affixes may be out of memory.
    ensures room { HasRoom out.old (read_answer
        (own_reading (fraction_asked fractions rounding) (reading_by_reader reader.now text.now)))
        → ¬ (ReaderAllocates reader.now text.now) → IsOk result }
{
    match reader.read(alloc, text) {
        Ok(value) => write_own(&value, fraction_asked(fractions, rounding), out),
        Err(ReadError::Unreadable) => write_refusal(out, Refusal::Unreadable),
        Err(ReadError::NotWritten) => write_refusal(out, Refusal::NotWritten),
        Err(ReadError::Memory) => Err(AllocError),
    }
}

/// Writes the answer to a text that was typed after what `out` holds: the number that it is by a reader, printed with its
/// sign and the digits shown, or the word `unreadable` or `not-written`.
///
/// By a reader of `en` ` 1,234.5 ` is answered by `ok`, a tab and `1234.5`, and with `EUR` ` 1.5 EUR ` by `1.5`: how many
/// digits a currency has is not looked at. Where there is room, it allocates only where the reader does. `AllocError`: out
/// of memory; a part of the answer may then be there.
pub fn write_lenient_answer(
    alloc: Global,
    reader: &LenientNumberReader<'_>,
    text: &str,
    out: &mut String,
) -> Result<(), AllocError>
    ensures text { OnOk result (string_bytes out.new
        ≡ string_bytes out.old ++ read_answer (reading_by_typed reader.now text.now)) }
    ensures err { OnErr result (Grows (string_bytes out.old) (string_bytes out.new)) }

    // Where there is room for the answer, only a text for which the reader may allocate may be out of memory.
    ensures room { HasRoom out.old (read_answer (reading_by_typed reader.now text.now))
        → ¬ (TypedAllocates reader.now text.now) → IsOk result }
{
    match reader.read(alloc, text) {
        Ok(value) => write_number_read(&value, out),
        Err(ReadError::Unreadable) => write_refusal(out, Refusal::Unreadable),
        Err(ReadError::NotWritten) => write_refusal(out, Refusal::NotWritten),
        Err(ReadError::Memory) => Err(AllocError),
    }
}
