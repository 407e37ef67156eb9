//! A line that writes a number which is not shown as it is given: what the options make of it, or what a compact form shows.

ghost use Rattle.std.specs.Prelude.{◌≡◌, ◌-◌, ◌≤◌, ◌∷◌, ◌++◌, List, Option, None, Some, IfSome, IsOk, OnOk, OnErr, string_bytes};
ghost use Rattle.icu_decimal_direct.specs.TextDigits.{number_spelled};
ghost use Rattle.locale_numbers_lines.specs.Growth.{Grows};
ghost use Rattle.locale_numbers_answers.specs.AnswerSink.{HasRoom};
ghost use Rattle.locale_numbers_answers.specs.AnswerMemory.{MayGrowFound, MayLengthenFound, ReadsMore};
ghost use Rattle.locale_numbers_answers.specs.Answers.{written_found, written_to};
ghost use Rattle.locale_numbers_answers.specs.DigitChange.{ChangesSo};
ghost use Rattle.locale_numbers_answers.specs.NumberAnswer.{number_answer};
ghost use Rattle.locale_numbers_answers.specs.NumberReading.{number, reading_of};
ghost use Rattle.locale_numbers_formats.specs.Changed.{MayGrowBy, changed};
ghost use Rattle.locale_numbers_formatter.specs.FormatText.{MayLengthen, fractions_in};
ghost use Rattle.locale_numbers.specs.FormatterKeys.{key_text, rules_for};
ghost use Rattle.locale_numbers.specs.Front.{if_text, key_if_text};
ghost use Rattle.locale_numbers.specs.KeptFormatters.{StillKeeps, found_by};
ghost use Rattle.locale_numbers.specs.declared.formatter_key.FormatterKey.{FormatterKey};

use crate::formatter_key::FormatterKey;
use crate::formatters::Formatters;
use crate::front::is_standard;
use crate::kept_formatter::KeptFormatter;
use crate::number_line::{write_by_key, write_digits_read};
use fixed_decimal::{Decimal, ParseError};
use icu_decimal_direct::TextDigits;
use locale_numbers_answers::{
    DigitChange, read_number, write_changed_digits_answer, write_refusal, write_refusal_or_shape,
};
use locale_numbers_cache::Hashed;
use locale_numbers_formats::{Notation, NumberOptions};
use locale_numbers_requests::Refusal;
use std::alloc::AllocError;

// Writes the answer to the digits of a text, which the options change so, by a formatter, after what `out` holds: directly
// where it can, and else `value` is read again.
fn write_changed_digits(
    kept: &KeptFormatter<'_>,
    options: NumberOptions,
    change: DigitChange,
    value: &mut Decimal,
    text: &[u8],
    digits: &TextDigits<'_>,
    out: &mut String,
) -> Result<(), AllocError>
    requires reads { reading_of text.now ≡ number (number_spelled digits.now) }
    requires change { ChangesSo options change }
    requires within { 32768 - change.most ≤ (number_spelled digits.now).absolute.low }
    ensures text { OnOk result (string_bytes out.new ≡ string_bytes out.old ++ number_answer kept.now.formatter
        (changed options (fractions_in kept.now.formatter) (number_spelled digits.now))) }
    ensures err { OnErr result (Grows (string_bytes out.old) (string_bytes out.new)) }
    ensures room { HasRoom out.old (number_answer kept.now.formatter
        (changed options (fractions_in kept.now.formatter) (number_spelled digits.now)))
        → ¬ (ReadsMore text.now value.old)
        → ¬ (MayGrowBy options.rounding (fractions_in kept.now.formatter) (number_spelled digits.now))
        → ¬ (MayLengthen kept.now.formatter) → IsOk result }
{
    if let Some(tables) = &kept.texts {
        return write_changed_digits_answer(tables, change, digits, out);
    }
    write_digits_read(kept, options, value, text, digits, out)
}

// Writes the answer to the digits of a text, which the options change so, by the formatter of a key, after what `out` holds;
// or the word `table`, where it has none.
fn answer_changed_digits<'a, F: Formatters<'a>>(
    value: &mut Decimal,
    formatters: &mut F,
    key: &Hashed<FormatterKey>,
    options: NumberOptions,
    change: DigitChange,
    text: &[u8],
    digits: &TextDigits<'_>,
    out: &mut String,
) -> Result<(), AllocError>
    requires ready { F.is_ready formatters.old }
    requires right { F.is_right_for formatters.old key.now }
    requires ruleless { rules_for key.now.purpose ≡ None }
    requires change { ChangesSo options change }
    requires within { 32768 - change.most ≤ (number_spelled digits.now).absolute.low }
    requires reads { reading_of text.now ≡ number (number_spelled digits.now) }
    ensures text { OnOk result (string_bytes out.new ≡ string_bytes out.old
        ++ written_found (found_by (F.book formatters.old) key.now) options (number_spelled digits.now)) }
    ensures err { OnErr result (Grows (string_bytes out.old) (string_bytes out.new)) }
    ensures room { HasRoom out.old
        (written_found (found_by (F.book formatters.old) key.now) options (number_spelled digits.now))
        → ¬ (F.may_take_memory formatters.old key.now) → ¬ (ReadsMore text.now value.old)
        → ¬ (MayGrowFound (found_by (F.book formatters.old) key.now) options.rounding
        (number (number_spelled digits.now)))
        → ¬ (MayLengthenFound (found_by (F.book formatters.old) key.now)) → IsOk result }
    ensures counted { OnOk result ((more : List (Option FormatterKey)) →
        F.keeping_over formatters.old (Some key.now ∷ more) ≡ F.keeping_over formatters.new more) }
    ensures kept { StillKeeps (F.kept_for formatters.old) (F.may_take_memory formatters.new)
        (F.kept_for formatters.new) }
    ensures same { F.book formatters.new ≡ F.book formatters.old }
    ensures ready { F.is_ready formatters.new }
    ensures right { F.is_right_for formatters.new key.now }
{
    let found = formatters.find(key)?;
    if !found {
        return write_refusal(out, Refusal::Table);
    }
    write_changed_digits(
        formatters.found(key),
        options,
        change,
        value,
        text,
        digits,
        out,
    )
}

// What options make of a text's digits, and the digits.
struct ChangedDigits<'t> {
    // What is made of them.
    change: DigitChange,
    // They.
    digits: TextDigits<'t>,
}

// The digits of a text of which the options round none away, where numbers of the notation have all their digits.
fn digits_that_change<'t>(
    notation: Notation,
    options: &NumberOptions,
    text: &'t [u8],
) -> Option<ChangedDigits<'t>>
    ensures change { IfSome result (λ asked. ChangesSo options.now asked.change) }
    ensures within { IfSome result
        (λ asked. 32768 - asked.change.most ≤ (number_spelled asked.digits).absolute.low) }
    ensures reads { IfSome result (λ asked. reading_of text.now ≡ number (number_spelled asked.digits)) }
{
    if !is_standard(notation) {
        return None;
    }
    let change = DigitChange::of(options)?;
    match TextDigits::of(text) {
        Some(digits) if digits.has_at_most(change.most) => Some(ChangedDigits { change, digits }),
        _ => None,
    }
}

// Writes the answer to a number's text that is not shown as it is given, with the formatter of a key, after what `out`
// holds. It is apart, so that one that is shown as it is given takes no longer.
#[inline(never)]
pub(crate) fn answer_other_number<'a, F: Formatters<'a>>(
    value: &mut Decimal,
    formatters: &mut F,
    key: &Hashed<FormatterKey>,
    options: NumberOptions,
    text: &[u8],
    out: &mut String,
) -> Result<(), AllocError>
    requires ready { F.is_ready formatters.old }
    requires right { F.is_right_for formatters.old key.now }
    requires ruleless { rules_for key.now.purpose ≡ None }
    ensures text { OnOk result (string_bytes out.new ≡ string_bytes out.old
        ++ if_text text.now (written_to (found_by (F.book formatters.old) key.now) options (reading_of text.now))) }
    ensures err { OnErr result (Grows (string_bytes out.old) (string_bytes out.new)) }
    ensures room { HasRoom out.old
        (if_text text.now (written_to (found_by (F.book formatters.old) key.now) options (reading_of text.now)))
        → ¬ (F.may_take_memory formatters.old key.now) → ¬ (ReadsMore text.now value.old)
        → ¬ (MayGrowFound (found_by (F.book formatters.old) key.now) options.rounding (reading_of text.now))
        → ¬ (MayLengthenFound (found_by (F.book formatters.old) key.now)) → IsOk result }
    ensures counted { OnOk result ((more : List (Option FormatterKey)) →
        F.keeping_over formatters.old (key_if_text text.now (key_text key.now (reading_of text.now)) ∷ more)
        ≡ F.keeping_over formatters.new more) }
    ensures kept { StillKeeps (F.kept_for formatters.old) (F.may_take_memory formatters.new)
        (F.kept_for formatters.new) }
    ensures same { F.book formatters.new ≡ F.book formatters.old }
    ensures ready { F.is_ready formatters.new }
    ensures right { F.is_right_for formatters.new key.now }
{
    if let Some(asked) = digits_that_change(key.value().shape.notation, &options, text) {
        let ChangedDigits { change, digits } = asked;
        return answer_changed_digits(value, formatters, key, options, change, text, &digits, out);
    }
    match read_number(value, text) {
        Ok(()) => write_by_key(formatters, key, options, value, out),
        Err(ParseError::Syntax) => write_refusal_or_shape(out, text, Refusal::Number),
        Err(ParseError::Limit) => write_refusal(out, Refusal::Limit),
        Err(ParseError::Memory) => Err(AllocError),
    }
}
