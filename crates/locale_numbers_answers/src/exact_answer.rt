//! The answer to an exact form by a formatter: its text, or why it has none.

ghost use Rattle.std.specs.Prelude.{◌≡◌, ◌++◌, IfOk, IsOk, OnOk, OnErr, IsErrOf, string_bytes};
ghost use Rattle.fixed_decimal.specs.CompactText.{ReadsLongCompact};
ghost use Rattle.locale_numbers_formats.specs.Changed.{signed_as};
ghost use Rattle.locale_numbers_lines.specs.Growth.{Grows};
ghost use Rattle.locale_numbers_answers.specs.AnswerSink.{HasRoom};
ghost use Rattle.locale_numbers_answers.specs.CompactReading.{compact_beyond, compact_nothing, compact_number, compact_reading_of};
ghost use Rattle.locale_numbers_answers.specs.NumberAnswer.{exact_answer, signed_form};

use crate::answer_line::{write_ok, write_refusal};
use fixed_decimal::{CompactDecimal, Decimal, ParseError};
use locale_numbers_formats::SignAsked;
use locale_numbers_formatter::laws::format_is_text;
use locale_numbers_formatter::{ExactError, NumberFormatter};
use locale_numbers_requests::Refusal;
use std::alloc::{AllocError, Global};

/// The compact number that a text says: of `-1.20c6` -1.20 and 6.
///
/// `Syntax`: it says none. `Limit`: it says one beyond the limits. `Memory`: out of memory, only for more than sixteen
/// digits.
pub fn read_compact(alloc: Global, text: &str) -> Result<CompactDecimal, ParseError>
    ensures value { IfOk result (λ value. compact_reading_of text.now ≡ compact_number value) }
    ensures limit { IsErrOf result ParseError.Limit → compact_reading_of text.now ≡ compact_beyond }
    ensures syntax { IsErrOf result ParseError.Syntax → compact_reading_of text.now ≡ compact_nothing }

    // A text that says no number of more than sixteen digits is never told as out of memory.
    ensures memory { IsErrOf result ParseError.Memory → ReadsLongCompact text.now }
{
    CompactDecimal::try_from_str(alloc, text)
}

// Chooses the sign of a number, where that is asked for.
fn choose_sign(value: &mut Decimal, sign: SignAsked)
    ensures { value.new ≡ signed_as sign value.old }
{
    match sign {
        SignAsked::Keep => {}
        SignAsked::Show(display) => value.apply_sign_display(display),
    }
}

// The same form with the sign that is asked for.
fn signed(form: CompactDecimal, sign: SignAsked) -> CompactDecimal
    ensures { result ≡ signed_form sign form }
{
    let exponent = form.exponent();
    let mut significand = form.into_significand();
    choose_sign(&mut significand, sign);
    CompactDecimal::from_significand_and_exponent(significand, exponent)
}

// Writes the answer that is an exact form after what `out` holds.
fn write_form(
    formatter: &NumberFormatter<'_>,
    form: &CompactDecimal,
    out: &mut String,
) -> Result<(), AllocError>
    ensures text { OnOk result (string_bytes out.new ≡ string_bytes out.old ++ exact_answer formatter.now form.now) }
    ensures err { OnErr result (Grows (string_bytes out.old) (string_bytes out.new)) }
    ensures room { HasRoom out.old (exact_answer formatter.now form.now) → IsOk result }
{
    format_is_text();
    match formatter.format_exact(form) {
        Ok(number) => write_ok(out, &number),
        Err(ExactError::Range) => write_refusal(out, Refusal::Range),
        Err(ExactError::Exponent) => write_refusal(out, Refusal::Exponent),
    }
}

/// Writes a significand with its exponent, with the sign that is asked for, by a formatter, after what `out` holds; or the
/// word `range`, where their magnitude is beyond that of a decimal; or the word `exponent`, where the formatter has another
/// exponent for it.
///
/// By a short formatter of `en` -1.20 and 6 are answered by `ok`, a tab and `-1.20M`. A format without compact patterns
/// has the exponent 0 alone, and a scientific one has none. Where there is room, it does not allocate. `AllocError`: out
/// of memory; a part of the answer may then be there.
pub fn write_exact_answer(
    formatter: &NumberFormatter<'_>,
    sign: SignAsked,
    form: CompactDecimal,
    out: &mut String,
) -> Result<(), AllocError>
    ensures text { OnOk result (string_bytes out.new
        ≡ string_bytes out.old ++ exact_answer formatter.now (signed_form sign form)) }
    ensures err { OnErr result (Grows (string_bytes out.old) (string_bytes out.new)) }
    ensures room { HasRoom out.old (exact_answer formatter.now (signed_form sign form)) → IsOk result }
{
    let form = signed(form, sign);
    write_form(formatter, &form, out)
}
