//! The answer of a compact format: what a number is shown as, and the value shown.

ghost use Rattle.std.specs.Prelude.{◌≡◌, ◌≤◌, ◌∷◌, ◌++◌, map, IfOk, IsOk, OnOk, OnErr, string_bytes, string_capacity};
ghost use Rattle.std.specs.Int.Digits.{digits_of};
ghost use Rattle.std.specs.Str.{IsAscii};
ghost use Rattle.fixed_decimal.specs.CompactText.{after_compact_mark, compact_text_of};
ghost use Rattle.fixed_decimal.specs.NumberText.{character};
ghost use Rattle.fixed_decimal.specs.SignedText.{sign_text, signed_text_of};
ghost use Rattle.icu_decimal.specs.CompactText.{compact_decimal_text, value_shown};
ghost use Rattle.icu_decimal.specs.HeldCompact.{compact_tables_of};
ghost use Rattle.icu_decimal.specs.ShownChoice.{CanShow};
ghost use Rattle.locale_numbers_lines.specs.Growth.{Grows};
ghost use Rattle.locale_numbers_answers.specs.AnswerLine.{written};
ghost use Rattle.locale_numbers_answers.specs.AnswerSink.{HasRoom};
ghost use Rattle.locale_numbers_formatter.specs.FormatText.{MayLengthen, compact_tables, compact_value, format_text, format_value};
ghost use Rattle.locale_numbers_formatter.specs.HeldDigits.{digits_format};
ghost use Rattle.locale_numbers_answers.specs.NumberAnswer.{number_answer};
ghost use Rattle.locale_numbers_requests.specs.Request.{tab};

use crate::answer_line::{write_ok, write_refusal};
use crate::answer_sink::{write_number_shown, write_text_of};
use fixed_decimal::{Decimal, Sign};
use icu_decimal::CompactDecimalFormatter;
use locale_numbers_formatter::CompactDigitsFormatter;
use locale_numbers_formatter::laws::{compact_is_layered, format_is_text};
use locale_numbers_requests::Refusal;
use std::alloc::AllocError;

// ASCII characters as a text.
fn ascii_text(characters: &[u8]) -> &str
    requires { IsAscii characters.now }
    ensures { result.now ≡ characters.now }
{
    unsafe { str::from_utf8_unchecked(characters) }
}

// Writes a tab and a sign after what `out` holds.
fn write_tab_and_sign(out: &mut String, sign: Sign) -> Result<(), AllocError>
    ensures text { OnOk result (string_bytes out.new ≡ string_bytes out.old ++ tab ∷ sign_text sign) }
    ensures err { OnErr result (Grows (string_bytes out.old) (string_bytes out.new)) }
    ensures room { HasRoom out.old (tab ∷ sign_text sign) → IsOk result }
    ensures capacity { OnOk result (string_capacity out.old ≤ string_capacity out.new) }
{
    match sign {
        Sign::None => out.push_str("\t"),
        Sign::Negative => out.push_str("\t-"),
        Sign::Positive => out.push_str("\t+"),
    }
}

// Writes an exponent with its mark, or nothing for 0, after what `out` holds.
#[tactic(auto, using(crate::proofs::ExponentLemmas::no_digits, crate::proofs::ExponentLemmas::one_digit, crate::proofs::ExponentLemmas::two_digits, crate::proofs::ExponentLemmas::three_digits))]
fn write_exponent(out: &mut String, exponent: u8) -> Result<(), AllocError>
    ensures text { OnOk result
        (string_bytes out.new ≡ string_bytes out.old ++ after_compact_mark (map character (digits_of 10 exponent))) }
    ensures err { OnErr result (Grows (string_bytes out.old) (string_bytes out.new)) }
    ensures room { HasRoom out.old (after_compact_mark (map character (digits_of 10 exponent))) → IsOk result }
{
    let last = b'0' + exponent % 10;
    match exponent {
        0 => Ok(()),
        1..=9 => out.push_str(ascii_text(&[b'c', last])),
        10..=99 => out.push_str(ascii_text(&[b'c', b'0' + exponent / 10 % 10, last])),
        _ => out.push_str(ascii_text(&[
            b'c',
            b'0' + exponent / 10 / 10 % 10,
            b'0' + exponent / 10 % 10,
            last,
        ])),
    }
}

// Writes a tab and a decimal after what `out` holds.
fn write_tab_and_decimal(out: &mut String, value: &Decimal) -> Result<(), AllocError>
    ensures text { OnOk result (string_bytes out.new ≡ string_bytes out.old ++ tab ∷ signed_text_of value.now) }
    ensures err { OnErr result (Grows (string_bytes out.old) (string_bytes out.new)) }
    ensures room { HasRoom out.old (tab ∷ signed_text_of value.now) → IsOk result }
    ensures capacity { OnOk result (string_capacity out.old ≤ string_capacity out.new) }
{
    write_tab_and_sign(out, value.sign)?;
    write_text_of(out, &value.absolute)
}

// Writes a tab and the value shown after what `out` holds.
fn write_tab_and_value_shown(
    out: &mut String,
    significand: &Decimal,
    exponent: u8,
) -> Result<(), AllocError>
    ensures text { OnOk result (string_bytes out.new
        ≡ string_bytes out.old ++ tab ∷ compact_text_of (record {
          significand = significand.now;
          exponent = exponent;
        })) }
    ensures err { OnErr result (Grows (string_bytes out.old) (string_bytes out.new)) }
    ensures room { HasRoom out.old
        (tab ∷ compact_text_of (record { significand = significand.now; exponent = exponent })) → IsOk result }
{
    write_tab_and_decimal(out, significand)?;
    write_exponent(out, exponent)
}

// Writes `ok`, a tab and a number, as a compact formatter writes it, after what `out` holds, makes the number what is
// shown, and returns the exponent shown.
fn write_ok_and_number_shown(
    formatter: &CompactDecimalFormatter<'_>,
    value: &mut Decimal,
    out: &mut String,
) -> Result<u8, AllocError>
    requires { CanShow (compact_tables_of formatter.now).patterns.entries value.old.absolute.count }
    ensures value { IfOk result
        (λ exponent. record { significand = value.new; exponent = exponent }
        ≡ value_shown (compact_tables_of formatter.now) value.old) }
    ensures text { OnOk result (string_bytes out.new
        ≡ string_bytes out.old ++ written (compact_decimal_text (compact_tables_of formatter.now) value.old)) }
    ensures err { OnErr result (Grows (string_bytes out.old) (string_bytes out.new)) }
    ensures room { HasRoom out.old (written (compact_decimal_text (compact_tables_of formatter.now) value.old))
        → IsOk result }
    ensures capacity { OnOk result (string_capacity out.old ≤ string_capacity out.new) }
{
    out.push_str("ok\t")?;
    write_number_shown(formatter, value, out)
}

// Writes the answer that is a compact number, and the value shown after a tab, after what `out` holds. The number becomes
// what is shown. The word `range` is there where that would be no decimal.
pub(crate) fn write_compact(
    formatter: &CompactDecimalFormatter<'_>,
    value: &mut Decimal,
    out: &mut String,
) -> Result<(), AllocError>
    ensures text { OnOk result (string_bytes out.new
        ≡ string_bytes out.old ++ number_answer (compact_tables (compact_tables_of formatter.now)) value.old) }
    ensures err { OnErr result (Grows (string_bytes out.old) (string_bytes out.new)) }
    ensures room { HasRoom out.old (number_answer (compact_tables (compact_tables_of formatter.now)) value.old)
        → IsOk result }
{
    compact_is_layered();
    if !formatter.can_format(value) {
        return write_refusal(out, Refusal::Range);
    }
    let exponent = write_ok_and_number_shown(formatter, value, out)?;
    write_tab_and_value_shown(out, value, exponent)
}

// Writes `ok`, a tab and a number, as a compact formatter with digits of its own writes it, after what `out` holds, makes
// the number what is before the pattern, and returns the exponent shown.
fn write_ok_and_digits(
    formatter: &CompactDigitsFormatter<'_>,
    value: &mut Decimal,
    out: &mut String,
) -> Result<u8, AllocError>
    ensures value { IfOk result
        (λ exponent. compact_value (record { significand = value.new; exponent = exponent })
        ≡ format_value (digits_format formatter.now) value.old) }
    ensures text { OnOk result (string_bytes out.new
        ≡ string_bytes out.old ++ written (format_text (digits_format formatter.now) value.old)) }
    ensures err { OnErr result (Grows (string_bytes out.old) (string_bytes out.new)) }
    ensures room { HasRoom out.old (written (format_text (digits_format formatter.now) value.old))
        → ¬ (MayLengthen (digits_format formatter.now)) → IsOk result }
    ensures capacity { OnOk result (string_capacity out.old ≤ string_capacity out.new) }
{
    format_is_text();
    let under = formatter.show(value)?;
    write_ok(out, &formatter.format_shown(value, under))?;
    Ok(under.exponent)
}

// Writes the answer that is a compact number with digits of its own, and the value shown after a tab, after what `out`
// holds. The number becomes what is before the pattern. The word `range` is there where it can't be shown.
pub(crate) fn write_compact_digits(
    formatter: &CompactDigitsFormatter<'_>,
    value: &mut Decimal,
    out: &mut String,
) -> Result<(), AllocError>
    ensures text { OnOk result (string_bytes out.new
        ≡ string_bytes out.old ++ number_answer (digits_format formatter.now) value.old) }
    ensures err { OnErr result (Grows (string_bytes out.old) (string_bytes out.new)) }
    ensures room { HasRoom out.old (number_answer (digits_format formatter.now) value.old)
        → ¬ (MayLengthen (digits_format formatter.now)) → IsOk result }
{
    if !formatter.can_show(value) {
        return write_refusal(out, Refusal::Range);
    }
    let exponent = write_ok_and_digits(formatter, value, out)?;
    write_tab_and_value_shown(out, value, exponent)
}
