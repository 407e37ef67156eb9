//! A line that writes a number: its text is read, the formatter of its key is found, and this writes
//! the answer.

ghost use Rattle.std.specs.Prelude.{◌≡◌, true, ◌∷◌, ◌++◌, List, Option, None, Some, IfSome, IsOk, IsSome, OnOk, OnErr, string_bytes};
ghost use Rattle.icu_decimal_direct.specs.HeldUnits.{unit_texts};
ghost use Rattle.icu_decimal_direct.specs.TextDigits.{number_spelled};
ghost use Rattle.icu_decimal_direct.specs.UnitTexts.{IsShownBy};
ghost use Rattle.locale_numbers_lines.specs.Growth.{Grows};
ghost use Rattle.locale_numbers_answers.specs.AnswerSink.{HasRoom};
ghost use Rattle.locale_numbers_answers.specs.AnswerMemory.{MayGrowFound, MayLengthenFound, ReadsMore};
ghost use Rattle.locale_numbers_answers.specs.Answers.{written_found, written_to};
ghost use Rattle.locale_numbers_answers.specs.NumberAnswer.{number_answer};
ghost use Rattle.locale_numbers_answers.specs.NumberReading.{number, reading_of};
ghost use Rattle.locale_numbers_answers.specs.UnitAnswer.{texts_read};
ghost use Rattle.locale_numbers_answers.specs.UnitFractions.{has_digits_of};
ghost use Rattle.locale_numbers_formats.specs.Changed.{MayGrowBy, changed};
ghost use Rattle.locale_numbers_formatter.specs.FormatReading.{reader_of, reads_between};
ghost use Rattle.locale_numbers_formatter.specs.FormatText.{MayLengthen, fractions_in};
ghost use Rattle.locale_numbers.specs.FormatterKeys.{key_text, rules_for};
ghost use Rattle.locale_numbers.specs.Front.{as_usual, if_text, is_as_it_is, key_if_text};
ghost use Rattle.locale_numbers.specs.KeptFormatters.{StillKeeps, found_by};
ghost use Rattle.locale_numbers.specs.declared.formatter_key.FormatterKey.{FormatterKey};

use crate::changed_line::answer_other_number;
use crate::formatter_key::FormatterKey;
use crate::formatters::Formatters;
use crate::kept_formatter::KeptFormatter;
use fixed_decimal::{Decimal, ParseError};
use icu_decimal_direct::{TextDigits, UnitTextTables};
use locale_numbers_answers::{
    read_number, write_digits_answer, write_number_answer, write_refusal, write_unit_digits_answer,
};
use locale_numbers_cache::Hashed;
use locale_numbers_formats::NumberOptions;
use locale_numbers_requests::Refusal;
use std::alloc::AllocError;

// Writes the answer to a number, changed by the options, by a formatter, after what `out` holds.
fn write_by_formatter(
    kept: &KeptFormatter<'_>,
    options: NumberOptions,
    value: &mut Decimal,
    out: &mut String,
) -> Result<(), AllocError>
    ensures text { OnOk result (string_bytes out.new ≡ string_bytes out.old
        ++ number_answer kept.now.formatter (changed options (fractions_in kept.now.formatter) value.old)) }
    ensures err { OnErr result (Grows (string_bytes out.old) (string_bytes out.new)) }
    ensures room { HasRoom out.old
        (number_answer kept.now.formatter (changed options (fractions_in kept.now.formatter) value.old))
        → ¬ (MayGrowBy options.rounding (fractions_in kept.now.formatter) value.old)
        → ¬ (MayLengthen kept.now.formatter) → IsOk result }
{
    match options.change(kept.formatter.fractions(), value) {
        Ok(()) => write_number_answer(&kept.formatter, kept.reader.as_ref(), value, out),
        Err(refused) => Err(refused),
    }
}

// Writes the answer to a number, changed by the options, by the formatter of a key, after what `out` holds; or the word
// `table`, where it has none.
pub(crate) fn write_by_key<'a, F: Formatters<'a>>(
    formatters: &mut F,
    key: &Hashed<FormatterKey>,
    options: NumberOptions,
    value: &mut Decimal,
    out: &mut String,
) -> Result<(), AllocError>
    requires ready { F.is_ready formatters.old }
    requires right { F.is_right_for formatters.old key.now }
    requires ruleless { rules_for key.now.purpose ≡ None }
    ensures text { OnOk result (string_bytes out.new ≡ string_bytes out.old
        ++ written_found (found_by (F.book formatters.old) key.now) options value.old) }
    ensures err { OnErr result (Grows (string_bytes out.old) (string_bytes out.new)) }
    ensures room { HasRoom out.old (written_found (found_by (F.book formatters.old) key.now) options value.old)
        → ¬ (F.may_take_memory formatters.old key.now)
        → ¬ (MayGrowFound (found_by (F.book formatters.old) key.now) options.rounding (number value.old))
        → ¬ (MayLengthenFound (found_by (F.book formatters.old) key.now)) → IsOk result }
    ensures counted { OnOk result ((more : List (Option FormatterKey)) →
        F.keeping_over formatters.old (Some key.now ∷ more) ≡ F.keeping_over formatters.new more) }
    ensures kept { StillKeeps (F.kept_for formatters.old) (F.may_take_memory formatters.new)
        (F.kept_for formatters.new) }
    ensures same { F.book formatters.new ≡ F.book formatters.old }
    ensures ready { F.is_ready formatters.new }
    ensures right { F.is_right_for formatters.new key.now }
{
    let found = formatters.find(key)?;
    if !found {
        return write_refusal(out, Refusal::Table);
    }
    write_by_formatter(formatters.found(key), options, value, out)
}

// Writes the answer to the number of a text with these digits, changed by the options, by a formatter, after what `out`
// holds: `value` is read again.
pub(crate) fn write_digits_read(
    kept: &KeptFormatter<'_>,
    options: NumberOptions,
    value: &mut Decimal,
    text: &[u8],
    _digits: &TextDigits<'_>,
    out: &mut String,
) -> Result<(), AllocError>
    requires { reading_of text.now ≡ number (number_spelled _digits.now) }
    ensures text { OnOk result (string_bytes out.new ≡ string_bytes out.old ++ number_answer kept.now.formatter
        (changed options (fractions_in kept.now.formatter) (number_spelled _digits.now))) }
    ensures err { OnErr result (Grows (string_bytes out.old) (string_bytes out.new)) }
    ensures room { HasRoom out.old (number_answer kept.now.formatter
        (changed options (fractions_in kept.now.formatter) (number_spelled _digits.now)))
        → ¬ (ReadsMore text.now value.old)
        → ¬ (MayGrowBy options.rounding (fractions_in kept.now.formatter) (number_spelled _digits.now))
        → ¬ (MayLengthen kept.now.formatter) → IsOk result }
{
    match read_number(value, text) {
        Ok(()) => write_by_formatter(kept, options, value, out),
        Err(ParseError::Memory) => Err(AllocError),
        Err(ParseError::Syntax) | Err(ParseError::Limit) => unreachable!(),
    }
}

// What the digits of a text are put with directly by a formatter of percents or of amounts, where they can be.
fn unit_tables_for<'l, 'a>(
    kept: &'l KeptFormatter<'a>,
    digits: &TextDigits<'_>,
) -> Option<&'l UnitTextTables<'a>>
    ensures known { IfSome result (λ tables.
        reader_of kept.now.formatter ≡ Some (reads_between (texts_read (unit_texts tables.now)))) }
    ensures digits { IfSome result (λ tables.
        has_digits_of (fractions_in kept.now.formatter) (unit_texts tables.now) ≡ true) }
    ensures shown { IfSome result (λ tables. IsShownBy (unit_texts tables.now) (number_spelled digits.now)) }
{
    match &kept.unit_texts {
        Some(tables) if tables.can_put(digits) => Some(&**tables),
        _ => None,
    }
}

// Writes the answer to the digits of a text, as the formatter usually shows them, after what `out` holds: directly by one
// of percents or of amounts where they can be put, and else `value` is read again.
fn write_unit_digits(
    kept: &KeptFormatter<'_>,
    options: NumberOptions,
    value: &mut Decimal,
    text: &[u8],
    digits: &TextDigits<'_>,
    out: &mut String,
) -> Result<(), AllocError>
    requires reads { reading_of text.now ≡ number (number_spelled digits.now) }
    requires usual { changed options (fractions_in kept.now.formatter) (number_spelled digits.now)
        ≡ as_usual kept.now.formatter (number_spelled digits.now) }
    ensures text { OnOk result (string_bytes out.new ≡ string_bytes out.old ++ number_answer kept.now.formatter
        (changed options (fractions_in kept.now.formatter) (number_spelled digits.now))) }
    ensures err { OnErr result (Grows (string_bytes out.old) (string_bytes out.new)) }
    ensures room { HasRoom out.old (number_answer kept.now.formatter
        (changed options (fractions_in kept.now.formatter) (number_spelled digits.now)))
        → ¬ (ReadsMore text.now value.old)
        → ¬ (MayGrowBy options.rounding (fractions_in kept.now.formatter) (number_spelled digits.now))
        → ¬ (MayLengthen kept.now.formatter) → IsOk result }
{
    if let Some(tables) = unit_tables_for(kept, digits) {
        return write_unit_digits_answer(&kept.formatter, tables, digits, out);
    }
    write_digits_read(kept, options, value, text, digits, out)
}

// Writes the answer to the digits of a text, as the formatter usually shows them, after what `out` holds: directly where
// it can, and else `value` is read again.
fn write_digits_by_formatter(
    kept: &KeptFormatter<'_>,
    options: NumberOptions,
    value: &mut Decimal,
    text: &[u8],
    digits: &TextDigits<'_>,
    out: &mut String,
) -> Result<(), AllocError>
    requires reads { reading_of text.now ≡ number (number_spelled digits.now) }
    requires usual { changed options (fractions_in kept.now.formatter) (number_spelled digits.now)
        ≡ as_usual kept.now.formatter (number_spelled digits.now) }
    ensures text { OnOk result (string_bytes out.new ≡ string_bytes out.old ++ number_answer kept.now.formatter
        (changed options (fractions_in kept.now.formatter) (number_spelled digits.now))) }
    ensures err { OnErr result (Grows (string_bytes out.old) (string_bytes out.new)) }
    ensures room { HasRoom out.old (number_answer kept.now.formatter
        (changed options (fractions_in kept.now.formatter) (number_spelled digits.now)))
        → ¬ (ReadsMore text.now value.old)
        → ¬ (MayGrowBy options.rounding (fractions_in kept.now.formatter) (number_spelled digits.now))
        → ¬ (MayLengthen kept.now.formatter) → IsOk result }
{
    if let Some(tables) = &kept.texts {
        return write_digits_answer(tables, digits, out);
    }
    write_unit_digits(kept, options, value, text, digits, out)
}

// Writes the answer to the digits of a text, which a format leaves as they are but for those of a currency, by the
// formatter of a key, after what `out` holds; or the word `table`, where it has none.
fn answer_digits<'a, F: Formatters<'a>>(
    value: &mut Decimal,
    formatters: &mut F,
    key: &Hashed<FormatterKey>,
    options: NumberOptions,
    text: &[u8],
    digits: &TextDigits<'_>,
    out: &mut String,
) -> Result<(), AllocError>
    requires ready { F.is_ready formatters.old }
    requires right { F.is_right_for formatters.old key.now }
    requires ruleless { rules_for key.now.purpose ≡ None }
    requires plain { is_as_it_is (record { shape = key.now.shape; options = options }) ≡ true }
    requires reads { reading_of text.now ≡ number (number_spelled digits.now) }
    ensures text { OnOk result (string_bytes out.new ≡ string_bytes out.old
        ++ written_found (found_by (F.book formatters.old) key.now) options (number_spelled digits.now)) }
    ensures err { OnErr result (Grows (string_bytes out.old) (string_bytes out.new)) }
    ensures room { HasRoom out.old
        (written_found (found_by (F.book formatters.old) key.now) options (number_spelled digits.now))
        → ¬ (F.may_take_memory formatters.old key.now) → ¬ (ReadsMore text.now value.old)
        → ¬ (MayGrowFound (found_by (F.book formatters.old) key.now) options.rounding
        (number (number_spelled digits.now)))
        → ¬ (MayLengthenFound (found_by (F.book formatters.old) key.now)) → IsOk result }
    ensures counted { OnOk result ((more : List (Option FormatterKey)) →
        F.keeping_over formatters.old (Some key.now ∷ more) ≡ F.keeping_over formatters.new more) }
    ensures kept { StillKeeps (F.kept_for formatters.old) (F.may_take_memory formatters.new)
        (F.kept_for formatters.new) }
    ensures same { F.book formatters.new ≡ F.book formatters.old }
    ensures ready { F.is_ready formatters.new }
    ensures right { F.is_right_for formatters.new key.now }
{
    let found = formatters.find(key)?;
    if !found {
        return write_refusal(out, Refusal::Table);
    }
    write_digits_by_formatter(formatters.found(key), options, value, text, digits, out)
}

// The digits of a text that is put directly, where its line asks for a number as it is given.
fn digits_as_they_are(is_as_given: bool, text: &[u8]) -> Option<TextDigits<'_>>
    ensures asked { IsSome result → is_as_given ≡ true }
    ensures reads { IfSome result (λ digits. reading_of text.now ≡ number (number_spelled digits)) }
{
    if is_as_given {
        TextDigits::of(text)
    } else {
        None
    }
}

// Writes the answer to a number's text, with the formatter of a key, after what `out` holds. `value` may be read again.
//
// `is_as_given` says whether the key and the options ask for a number as it is given, but for the digits of a currency.
// `AllocError`: out of memory; a part of the answer may then be there.
pub(crate) fn answer_number<'a, F: Formatters<'a>>(
    value: &mut Decimal,
    formatters: &mut F,
    key: &Hashed<FormatterKey>,
    options: NumberOptions,
    is_as_given: bool,
    text: &[u8],
    out: &mut String,
) -> Result<(), AllocError>
    requires ready { F.is_ready formatters.old }
    requires right { F.is_right_for formatters.old key.now }
    requires ruleless { rules_for key.now.purpose ≡ None }
    requires plain { is_as_given ≡ is_as_it_is (record { shape = key.now.shape; options = options }) }
    ensures text { OnOk result (string_bytes out.new ≡ string_bytes out.old
        ++ if_text text.now (written_to (found_by (F.book formatters.old) key.now) options (reading_of text.now))) }
    ensures err { OnErr result (Grows (string_bytes out.old) (string_bytes out.new)) }

    // Where there is room for the answer, and handing out the formatter of the key takes none, only a number of more
    // than sixteen digits, and of more than `value` had, may be out of memory, and a rounding to multiples of 25 that
    // may lengthen one of sixteen, or that is of a compact number's own digits or of a significand.
    ensures room { HasRoom out.old
        (if_text text.now (written_to (found_by (F.book formatters.old) key.now) options (reading_of text.now)))
        → ¬ (F.may_take_memory formatters.old key.now) → ¬ (ReadsMore text.now value.old)
        → ¬ (MayGrowFound (found_by (F.book formatters.old) key.now) options.rounding (reading_of text.now))
        → ¬ (MayLengthenFound (found_by (F.book formatters.old) key.now)) → IsOk result }
    ensures counted { OnOk result ((more : List (Option FormatterKey)) →
        F.keeping_over formatters.old (key_if_text text.now (key_text key.now (reading_of text.now)) ∷ more)
        ≡ F.keeping_over formatters.new more) }
    ensures kept { StillKeeps (F.kept_for formatters.old) (F.may_take_memory formatters.new)
        (F.kept_for formatters.new) }
    ensures same { F.book formatters.new ≡ F.book formatters.old }
    ensures ready { F.is_ready formatters.new }
    ensures right { F.is_right_for formatters.new key.now }
{
    if let Some(digits) = digits_as_they_are(is_as_given, text) {
        return answer_digits(value, formatters, key, options, text, &digits, out);
    }
    answer_other_number(value, formatters, key, options, text, out)
}
