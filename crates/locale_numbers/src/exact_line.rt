//! A line that writes an exact form: its significand and exponent are read, the formatter of its key is
//! found, and this writes the answer.

ghost use Rattle.std.specs.Prelude.{◌≡◌, ◌∷◌, ◌++◌, List, Option, None, Some, IsOk, OnOk, OnErr, string_bytes};
ghost use Rattle.fixed_decimal.specs.CompactText.{ReadsLongCompact};
ghost use Rattle.locale_numbers_lines.specs.Growth.{Grows};
ghost use Rattle.locale_numbers_answers.specs.AnswerSink.{HasRoom};
ghost use Rattle.locale_numbers_answers.specs.Answers.{exact_found, exact_with};
ghost use Rattle.locale_numbers_answers.specs.CompactReading.{compact_reading_of};
ghost use Rattle.locale_numbers_answers.specs.NumberAnswer.{signed_form};
ghost use Rattle.locale_numbers.specs.FormatterKeys.{key_exact, rules_for};
ghost use Rattle.locale_numbers.specs.KeptFormatters.{StillKeeps, found_by};
ghost use Rattle.locale_numbers.specs.declared.formatter_key.FormatterKey.{FormatterKey};

use crate::formatter_key::FormatterKey;
use crate::formatters::Formatters;
use fixed_decimal::{CompactDecimal, ParseError};
use locale_numbers_answers::{read_compact, write_exact_answer, write_refusal};
use locale_numbers_cache::Hashed;
use locale_numbers_formats::SignAsked;
use locale_numbers_requests::Refusal;
use std::alloc::{AllocError, Global};

// Writes a significand with its exponent, as the formatter of a key writes both, after what `out` holds; or the word
// `table`, where it has none.
fn write_exact_by_key<'a, F: Formatters<'a>>(
    formatters: &mut F,
    key: &Hashed<FormatterKey>,
    sign: SignAsked,
    value: CompactDecimal,
    out: &mut String,
) -> Result<(), AllocError>
    requires ready { F.is_ready formatters.old }
    requires right { F.is_right_for formatters.old key.now }
    requires ruleless { rules_for key.now.purpose ≡ None }
    ensures text { OnOk result (string_bytes out.new ≡ string_bytes out.old
        ++ exact_with (found_by (F.book formatters.old) key.now) (signed_form sign value)) }
    ensures err { OnErr result (Grows (string_bytes out.old) (string_bytes out.new)) }

    // Where there is room for the answer, and handing out the formatter of the key takes none, it does not allocate.
    ensures room { HasRoom out.old (exact_with (found_by (F.book formatters.old) key.now) (signed_form sign value))
        → ¬ (F.may_take_memory formatters.old key.now) → IsOk result }
    ensures counted { OnOk result ((more : List (Option FormatterKey)) →
        F.keeping_over formatters.old (Some key.now ∷ more) ≡ F.keeping_over formatters.new more) }
    ensures kept { StillKeeps (F.kept_for formatters.old) (F.may_take_memory formatters.new)
        (F.kept_for formatters.new) }
    ensures same { F.book formatters.new ≡ F.book formatters.old }
    ensures ready { F.is_ready formatters.new }
    ensures right { F.is_right_for formatters.new key.now }
{
    let found = formatters.find(key)?;
    if !found {
        return write_refusal(out, Refusal::Table);
    }
    write_exact_answer(&formatters.found(key).formatter, sign, value, out)
}

// Writes the answer to the text of an exact form, with the formatter of a key, after what `out` holds.
//
// `AllocError`: out of memory; a part of the answer may then be there.
#[inline(never)]
pub(crate) fn answer_exact<'a, F: Formatters<'a>>(
    alloc: Global,
    formatters: &mut F,
    key: &Hashed<FormatterKey>,
    sign: SignAsked,
    text: &str,
    out: &mut String,
) -> Result<(), AllocError>
    requires ready { F.is_ready formatters.old }
    requires right { F.is_right_for formatters.old key.now }
    requires ruleless { rules_for key.now.purpose ≡ None }
    ensures text { OnOk result (string_bytes out.new ≡ string_bytes out.old
        ++ exact_found (found_by (F.book formatters.old) key.now) sign (compact_reading_of text.now)) }
    ensures err { OnErr result (Grows (string_bytes out.old) (string_bytes out.new)) }

    // Where there is room for the answer, and handing out the formatter of the key takes none, only a number of more
    // than sixteen digits may be out of memory.
    ensures room { HasRoom out.old
        (exact_found (found_by (F.book formatters.old) key.now) sign (compact_reading_of text.now))
        → ¬ (F.may_take_memory formatters.old key.now) → ¬ (ReadsLongCompact text.now) → IsOk result }
    ensures counted { OnOk result ((more : List (Option FormatterKey)) →
        F.keeping_over formatters.old (key_exact key.now (compact_reading_of text.now) ∷ more)
        ≡ F.keeping_over formatters.new more) }
    ensures kept { StillKeeps (F.kept_for formatters.old) (F.may_take_memory formatters.new)
        (F.kept_for formatters.new) }
    ensures same { F.book formatters.new ≡ F.book formatters.old }
    ensures ready { F.is_ready formatters.new }
    ensures right { F.is_right_for formatters.new key.now }
{
    match read_compact(alloc, text) {
        Ok(value) => write_exact_by_key(formatters, key, sign, value, out),
        Err(ParseError::Syntax) => write_refusal(out, Refusal::Number),
        Err(ParseError::Limit) => write_refusal(out, Refusal::Limit),
        Err(ParseError::Memory) => Err(AllocError),
    }
}
