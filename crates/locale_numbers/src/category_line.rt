//! The task that tells the plural category of a number, as it is shown.

ghost use Rattle.std.specs.Prelude.{◌≡◌, ◌∷◌, ◌++◌, List, Ok, Option, Some, IsOk, OnOk, OnErr, string_bytes};
ghost use Rattle.locale_numbers_lines.specs.Growth.{Grows};
ghost use Rattle.locale_numbers_answers.specs.AnswerMemory.{MayGrowFound, MayLengthenFound, ReadsMore};
ghost use Rattle.locale_numbers_answers.specs.AnswerSink.{HasRoom};
ghost use Rattle.locale_numbers_answers.specs.CategoryAnswer.{category_found, category_to};
ghost use Rattle.locale_numbers_answers.specs.NumberReading.{number, reading_of};
ghost use Rattle.locale_numbers_formats.specs.Changed.{MayGrowBy};
ghost use Rattle.locale_numbers_formatter.specs.FormatText.{MayLengthen, fractions_in};
ghost use Rattle.locale_numbers.specs.FormatterKeys.{key_text};
ghost use Rattle.locale_numbers.specs.Front.{if_text, key_if_text};
ghost use Rattle.locale_numbers.specs.KeptFormatters.{StillKeeps, found_by, rules_by};
ghost use Rattle.locale_numbers.specs.declared.formatter_key.FormatterKey.{FormatterKey};

use crate::formatter_key::FormatterKey;
use crate::formatters::Formatters;
use crate::kept_formatter::KeptFormatter;
use fixed_decimal::{Decimal, ParseError};
use locale_numbers_answers::{
    read_number, write_category_answer, write_refusal, write_refusal_or_shape,
};
use locale_numbers_cache::Hashed;
use locale_numbers_formats::NumberOptions;
use locale_numbers_requests::Refusal;
use std::alloc::AllocError;

// Writes the category of a number, changed by the options, by a formatter and its rules, after what `out` holds; or the
// word `table`, where it has none.
fn write_category_by_formatter(
    kept: &KeptFormatter<'_>,
    options: NumberOptions,
    value: &mut Decimal,
    out: &mut String,
) -> Result<(), AllocError>
    ensures text { OnOk result (string_bytes out.new ≡ string_bytes out.old
        ++ category_found (Ok kept.now.formatter) kept.now.rules options value.old) }
    ensures err { OnErr result (Grows (string_bytes out.old) (string_bytes out.new)) }
    ensures room { HasRoom out.old (category_found (Ok kept.now.formatter) kept.now.rules options value.old)
        → ¬ (MayGrowBy options.rounding (fractions_in kept.now.formatter) value.old)
        → ¬ (MayLengthen kept.now.formatter) → IsOk result }
{
    let Some(rules) = &kept.rules else {
        return write_refusal(out, Refusal::Table);
    };
    match options.change(kept.formatter.fractions(), value) {
        Ok(()) => write_category_answer(&kept.formatter, rules.rules, value, out),
        Err(refused) => Err(refused),
    }
}

// Writes the category of a number, changed by the options, by the formatter of a key, after what `out` holds; or the word
// `table`, where it has none.
fn write_category_by_key<'a, F: Formatters<'a>>(
    formatters: &mut F,
    key: &Hashed<FormatterKey>,
    options: NumberOptions,
    value: &mut Decimal,
    out: &mut String,
) -> Result<(), AllocError>
    requires ready { F.is_ready formatters.old }
    requires right { F.is_right_for formatters.old key.now }
    ensures text { OnOk result (string_bytes out.new ≡ string_bytes out.old
        ++ category_found (found_by (F.book formatters.old) key.now)
        (rules_by (F.book formatters.old) key.now) options value.old) }
    ensures err { OnErr result (Grows (string_bytes out.old) (string_bytes out.new)) }
    ensures room { HasRoom out.old
        (category_found (found_by (F.book formatters.old) key.now)
        (rules_by (F.book formatters.old) key.now) options value.old) → ¬ (F.may_take_memory formatters.old key.now)
        → ¬ (MayGrowFound (found_by (F.book formatters.old) key.now) options.rounding (number value.old))
        → ¬ (MayLengthenFound (found_by (F.book formatters.old) key.now)) → IsOk result }
    ensures counted { OnOk result ((more : List (Option FormatterKey)) →
        F.keeping_over formatters.old (Some key.now ∷ more) ≡ F.keeping_over formatters.new more) }
    ensures kept { StillKeeps (F.kept_for formatters.old) (F.may_take_memory formatters.new)
        (F.kept_for formatters.new) }
    ensures same { F.book formatters.new ≡ F.book formatters.old }
    ensures ready { F.is_ready formatters.new }
    ensures right { F.is_right_for formatters.new key.now }
{
    let found = formatters.find(key)?;
    if !found {
        return write_refusal(out, Refusal::Table);
    }
    write_category_by_formatter(formatters.found(key), options, value, out)
}

// Writes the category of a text's number, as the formatter of a key shows it, after what `out` holds. `value` may be read
// again.
//
// `AllocError`: out of memory; a part of the answer may then be there.
#[inline(never)]
pub(crate) fn answer_category<'a, F: Formatters<'a>>(
    value: &mut Decimal,
    formatters: &mut F,
    key: &Hashed<FormatterKey>,
    options: NumberOptions,
    text: &[u8],
    out: &mut String,
) -> Result<(), AllocError>
    requires ready { F.is_ready formatters.old }
    requires right { F.is_right_for formatters.old key.now }
    ensures text { OnOk result (string_bytes out.new ≡ string_bytes out.old
        ++ if_text text.now (category_to (found_by (F.book formatters.old) key.now)
        (rules_by (F.book formatters.old) key.now) options (reading_of text.now))) }
    ensures err { OnErr result (Grows (string_bytes out.old) (string_bytes out.new)) }

    // Where there is room for the answer, and handing out the formatter of the key takes none, only a number of more
    // than sixteen digits, and of more than `value` had, may be out of memory, and a rounding to multiples of 25 that
    // may lengthen one of sixteen, or that is of a compact number's own digits or of a significand.
    ensures room { HasRoom out.old
        (if_text text.now (category_to (found_by (F.book formatters.old) key.now)
        (rules_by (F.book formatters.old) key.now) options (reading_of text.now)))
        → ¬ (F.may_take_memory formatters.old key.now) → ¬ (ReadsMore text.now value.old)
        → ¬ (MayGrowFound (found_by (F.book formatters.old) key.now) options.rounding (reading_of text.now))
        → ¬ (MayLengthenFound (found_by (F.book formatters.old) key.now)) → IsOk result }
    ensures counted { OnOk result ((more : List (Option FormatterKey)) →
        F.keeping_over formatters.old (key_if_text text.now (key_text key.now (reading_of text.now)) ∷ more)
        ≡ F.keeping_over formatters.new more) }
    ensures kept { StillKeeps (F.kept_for formatters.old) (F.may_take_memory formatters.new)
        (F.kept_for formatters.new) }
    ensures same { F.book formatters.new ≡ F.book formatters.old }
    ensures ready { F.is_ready formatters.new }
    ensures right { F.is_right_for formatters.new key.now }
{
    match read_number(value, text) {
        Ok(()) => write_category_by_key(formatters, key, options, value, out),
        Err(ParseError::Syntax) => write_refusal_or_shape(out, text, Refusal::Number),
        Err(ParseError::Limit) => write_refusal(out, Refusal::Limit),
        Err(ParseError::Memory) => Err(AllocError),
    }
}
