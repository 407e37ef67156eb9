//! The answer of a scientific format: a number as it is written, and the value shown.

ghost use Rattle.std.specs.Prelude.{◌≡◌, ◌≤◌, ◌∷◌, ◌++◌, IsOk, OnOk, OnErr, string_bytes, string_capacity};
ghost use Rattle.fixed_decimal.specs.ScientificText.{scientific_text_of};
ghost use Rattle.fixed_decimal.specs.SignedText.{signed_text_of};
ghost use Rattle.icu_decimal_scientific.specs.ExponentialText.{scientific_text};
ghost use Rattle.locale_numbers_lines.specs.Growth.{Grows};
ghost use Rattle.locale_numbers_answers.specs.AnswerLine.{written};
ghost use Rattle.locale_numbers_answers.specs.AnswerSink.{HasRoom};
ghost use Rattle.locale_numbers_answers.specs.NumberAnswer.{number_answer};
ghost use Rattle.locale_numbers_formatter.specs.FormatText.{MayLengthen};
ghost use Rattle.locale_numbers_formatter.specs.HeldScientific.{scientific_format, scientific_held};
ghost use Rattle.locale_numbers_requests.specs.Request.{tab};

use crate::answer_line::{write_ok, write_refusal};
use crate::answer_sink::write_text_of;
use fixed_decimal::Decimal;
use icu_decimal_scientific::laws::text_law;
use locale_numbers_formatter::ScientificFormatter;
use locale_numbers_formatter::laws::scientific_is_layered;
use locale_numbers_requests::Refusal;
use std::alloc::AllocError;

// Writes a mark and a decimal after what `out` holds.
fn write_marked(out: &mut String, mark: &str, value: &Decimal) -> Result<(), AllocError>
    ensures text { OnOk result
        (string_bytes out.new ≡ string_bytes out.old ++ (mark.now ++ signed_text_of value.now)) }
    ensures err { OnErr result (Grows (string_bytes out.old) (string_bytes out.new)) }
    ensures room { HasRoom out.old (mark.now ++ signed_text_of value.now) → IsOk result }
    ensures capacity { OnOk result (string_capacity out.old ≤ string_capacity out.new) }
{
    out.push_str(mark)?;
    write_text_of(out, value)
}

// Writes a tab and a scientific number after what `out` holds.
fn write_tab_and_scientific(
    significand: &Decimal,
    exponent: &Decimal,
    out: &mut String,
) -> Result<(), AllocError>
    ensures text { OnOk result (string_bytes out.new
        ≡ string_bytes out.old ++ tab ∷ scientific_text_of (record {
          significand = significand.now;
          exponent = exponent.now;
        })) }
    ensures err { OnErr result (Grows (string_bytes out.old) (string_bytes out.new)) }
    ensures room { HasRoom out.old
        (tab ∷ scientific_text_of (record { significand = significand.now; exponent = exponent.now })) → IsOk result }
{
    write_marked(out, "\t", significand)?;
    write_marked(out, "e", exponent)
}

// Writes the answer that is a significand with its exponent, and both after a tab, after what `out` holds.
fn write_shown(
    formatter: &ScientificFormatter<'_>,
    significand: &Decimal,
    exponent: &Decimal,
    out: &mut String,
) -> Result<(), AllocError>
    ensures text { OnOk result (string_bytes out.new ≡ string_bytes out.old ++ written
        (scientific_text (scientific_held formatter.now).settings
        (record { significand = significand.now; exponent = exponent.now })
        ++ tab ∷ scientific_text_of (record { significand = significand.now; exponent = exponent.now }))) }
    ensures err { OnErr result (Grows (string_bytes out.old) (string_bytes out.new)) }
    ensures room { HasRoom out.old (written
        (scientific_text (scientific_held formatter.now).settings
        (record { significand = significand.now; exponent = exponent.now })
        ++ tab ∷ scientific_text_of (record { significand = significand.now; exponent = exponent.now })))
        → IsOk result }
{
    text_law();
    write_ok(out, &formatter.format_shown(significand, exponent))?;
    write_tab_and_scientific(significand, exponent, out)
}

// Writes the answer that is a scientific number, and the value shown after a tab, after what `out` holds. The number
// becomes the significand. The word `range` is there where it has no form.
pub(crate) fn write_scientific(
    formatter: &ScientificFormatter<'_>,
    value: &mut Decimal,
    out: &mut String,
) -> Result<(), AllocError>
    ensures text { OnOk result (string_bytes out.new
        ≡ string_bytes out.old ++ number_answer (scientific_format formatter.now) value.old) }
    ensures err { OnErr result (Grows (string_bytes out.old) (string_bytes out.new)) }
    ensures room { HasRoom out.old (number_answer (scientific_format formatter.now) value.old)
        → ¬ (MayLengthen (scientific_format formatter.now)) → IsOk result }
{
    scientific_is_layered();
    if !formatter.can_show(value) {
        return write_refusal(out, Refusal::Range);
    }
    let exponent = formatter.show(value)?;
    let answered = write_shown(formatter, value, &exponent, out);
    drop(exponent);
    answered
}
