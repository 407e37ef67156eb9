//! The task that tells the plural category of a range, by its two ends as they are shown.

ghost use Rattle.std.specs.Prelude.{◌≡◌, ◌∷◌, ◌++◌, List, Ok, Option, Some, IsOk, OnOk, OnErr, string_bytes};
ghost use Rattle.fixed_decimal.specs.SignedText.{ReadsLongSigned};
ghost use Rattle.locale_numbers_lines.specs.Growth.{Grows};
ghost use Rattle.locale_numbers_answers.specs.AnswerMemory.{MayGrowFound, MayLengthenFound, RangeAllocates};
ghost use Rattle.locale_numbers_answers.specs.AnswerSink.{HasRoom};
ghost use Rattle.locale_numbers_answers.specs.CategoryAnswer.{range_category_to, range_ends_to, range_found};
ghost use Rattle.locale_numbers_answers.specs.NumberReading.{number, reading_of};
ghost use Rattle.locale_numbers_formats.specs.Changed.{MayGrowBy};
ghost use Rattle.locale_numbers_formatter.specs.FormatText.{MayLengthen, fractions_in};
ghost use Rattle.locale_numbers_requests.specs.RangeEnds.{range_ends};
ghost use Rattle.locale_numbers.specs.FormatterKeys.{key_range, key_text};
ghost use Rattle.locale_numbers.specs.KeptFormatters.{StillKeeps, found_by, rules_by};
ghost use Rattle.locale_numbers.specs.declared.formatter_key.FormatterKey.{FormatterKey};

use crate::formatter_key::FormatterKey;
use crate::formatters::Formatters;
use crate::kept_formatter::KeptFormatter;
use fixed_decimal::{Decimal, ParseError};
use locale_numbers_answers::{read_number, write_range_category_answer, write_refusal};
use locale_numbers_cache::Hashed;
use locale_numbers_formats::NumberOptions;
use locale_numbers_requests::{Refusal, cut_range};
use std::alloc::{AllocError, Global};

// Writes the category of a range of two numbers, each changed by the options, by a formatter and its rules, after what
// `out` holds; or the word `table`, where it has none.
fn write_range_by_formatter(
    kept: &KeptFormatter<'_>,
    options: NumberOptions,
    first: &mut Decimal,
    second: &mut Decimal,
    out: &mut String,
) -> Result<(), AllocError>
    ensures text { OnOk result (string_bytes out.new ≡ string_bytes out.old
        ++ range_found (Ok kept.now.formatter) kept.now.rules options first.old second.old) }
    ensures err { OnErr result (Grows (string_bytes out.old) (string_bytes out.new)) }
    ensures room { HasRoom out.old (range_found (Ok kept.now.formatter) kept.now.rules options first.old second.old)
        → ¬ (MayGrowBy options.rounding (fractions_in kept.now.formatter) first.old)
        → ¬ (MayGrowBy options.rounding (fractions_in kept.now.formatter) second.old)
        → ¬ (MayLengthen kept.now.formatter) → IsOk result }
{
    let Some(rules) = &kept.rules else {
        return write_refusal(out, Refusal::Table);
    };
    let fractions = kept.formatter.fractions();
    match options.change(fractions, first) {
        Ok(()) => match options.change(fractions, second) {
            Ok(()) => write_range_category_answer(&kept.formatter, rules, first, second, out),
            Err(refused) => Err(refused),
        },
        Err(refused) => Err(refused),
    }
}

// Writes the category of a range of two numbers, each changed by the options, by the formatter of a key, after what `out`
// holds; or the word `table`, where it has none.
fn write_range_by_key<'a, F: Formatters<'a>>(
    formatters: &mut F,
    key: &Hashed<FormatterKey>,
    options: NumberOptions,
    first: &mut Decimal,
    second: &mut Decimal,
    out: &mut String,
) -> Result<(), AllocError>
    requires ready { F.is_ready formatters.old }
    requires right { F.is_right_for formatters.old key.now }
    ensures text { OnOk result (string_bytes out.new ≡ string_bytes out.old
        ++ range_found (found_by (F.book formatters.old) key.now)
        (rules_by (F.book formatters.old) key.now) options first.old second.old) }
    ensures err { OnErr result (Grows (string_bytes out.old) (string_bytes out.new)) }
    ensures room { HasRoom out.old
        (range_found (found_by (F.book formatters.old) key.now)
        (rules_by (F.book formatters.old) key.now) options first.old second.old)
        → ¬ (F.may_take_memory formatters.old key.now)
        → ¬ (MayGrowFound (found_by (F.book formatters.old) key.now) options.rounding (number first.old))
        → ¬ (MayGrowFound (found_by (F.book formatters.old) key.now) options.rounding (number second.old))
        → ¬ (MayLengthenFound (found_by (F.book formatters.old) key.now)) → IsOk result }
    ensures counted { OnOk result ((more : List (Option FormatterKey)) →
        F.keeping_over formatters.old (Some key.now ∷ more)
        ≡ F.keeping_over formatters.new more) }
    ensures kept { StillKeeps (F.kept_for formatters.old) (F.may_take_memory formatters.new)
        (F.kept_for formatters.new) }
    ensures same { F.book formatters.new ≡ F.book formatters.old }
    ensures ready { F.is_ready formatters.new }
    ensures right { F.is_right_for formatters.new key.now }
{
    let found = formatters.find(key)?;
    if !found {
        return write_refusal(out, Refusal::Table);
    }
    write_range_by_formatter(formatters.found(key), options, first, second, out)
}

// Writes the category of a range whose first end was read, and whose second end has this text, as the formatter of a key
// shows both, after what `out` holds.
fn answer_to_end<'a, F: Formatters<'a>>(
    alloc: Global,
    first: &mut Decimal,
    formatters: &mut F,
    key: &Hashed<FormatterKey>,
    options: NumberOptions,
    text: &[u8],
    out: &mut String,
) -> Result<(), AllocError>
    requires ready { F.is_ready formatters.old }
    requires right { F.is_right_for formatters.old key.now }
    ensures text { OnOk result (string_bytes out.new ≡ string_bytes out.old
        ++ range_ends_to (found_by (F.book formatters.old) key.now) (rules_by (F.book formatters.old) key.now) options
        (number first.old) (reading_of text.now)) }
    ensures err { OnErr result (Grows (string_bytes out.old) (string_bytes out.new)) }
    ensures room { HasRoom out.old
        (range_ends_to (found_by (F.book formatters.old) key.now) (rules_by (F.book formatters.old) key.now) options
        (number first.old) (reading_of text.now)) → ¬ (F.may_take_memory formatters.old key.now)
        → ¬ (MayGrowFound (found_by (F.book formatters.old) key.now) options.rounding (number first.old))
        → ¬ (ReadsLongSigned text.now)
        → ¬ (MayGrowFound (found_by (F.book formatters.old) key.now) options.rounding (reading_of text.now))
        → ¬ (MayLengthenFound (found_by (F.book formatters.old) key.now)) → IsOk result }
    ensures counted { OnOk result ((more : List (Option FormatterKey)) →
        F.keeping_over formatters.old (key_text key.now (reading_of text.now) ∷ more)
        ≡ F.keeping_over formatters.new more) }
    ensures kept { StillKeeps (F.kept_for formatters.old) (F.may_take_memory formatters.new)
        (F.kept_for formatters.new) }
    ensures same { F.book formatters.new ≡ F.book formatters.old }
    ensures ready { F.is_ready formatters.new }
    ensures right { F.is_right_for formatters.new key.now }
{
    let mut second = Decimal::zero(alloc);
    match read_number(&mut second, text) {
        Ok(()) => write_range_by_key(formatters, key, options, first, &mut second, out),
        Err(ParseError::Syntax) => write_refusal(out, Refusal::Number),
        Err(ParseError::Limit) => write_refusal(out, Refusal::Limit),
        Err(ParseError::Memory) => Err(AllocError),
    }
}

// Writes the category of the range that a text says, as the formatter of a key shows its ends, after what `out` holds.
// `first` is where its first end is read.
//
// `AllocError`: out of memory; a part of the answer may then be there.
#[inline(never)]
pub(crate) fn answer_range<'a, F: Formatters<'a>>(
    alloc: Global,
    first: &mut Decimal,
    formatters: &mut F,
    key: &Hashed<FormatterKey>,
    options: NumberOptions,
    text: &str,
    out: &mut String,
) -> Result<(), AllocError>
    requires ready { F.is_ready formatters.old }
    requires right { F.is_right_for formatters.old key.now }
    ensures text { OnOk result (string_bytes out.new ≡ string_bytes out.old
        ++ range_category_to (found_by (F.book formatters.old) key.now)
        (rules_by (F.book formatters.old) key.now) options (range_ends text.now)) }
    ensures err { OnErr result (Grows (string_bytes out.old) (string_bytes out.new)) }

    // Where there is room for the answer, and handing out the formatter of the key takes none, only ends of more than
    // sixteen digits may be out of memory, and a rounding of one to multiples of 25 that may lengthen it, or that is of a
    // compact number's own digits or of a significand.
    ensures room { HasRoom out.old
        (range_category_to (found_by (F.book formatters.old) key.now) (rules_by (F.book formatters.old) key.now) options
        (range_ends text.now)) → ¬ (F.may_take_memory formatters.old key.now)
        → ¬ (RangeAllocates (found_by (F.book formatters.old) key.now) options.rounding (range_ends text.now) first.old)
        → ¬ (MayLengthenFound (found_by (F.book formatters.old) key.now)) → IsOk result }
    ensures counted { OnOk result ((more : List (Option FormatterKey)) →
        F.keeping_over formatters.old (key_range key.now (range_ends text.now) ∷ more)
        ≡ F.keeping_over formatters.new more) }
    ensures kept { StillKeeps (F.kept_for formatters.old) (F.may_take_memory formatters.new)
        (F.kept_for formatters.new) }
    ensures same { F.book formatters.new ≡ F.book formatters.old }
    ensures ready { F.is_ready formatters.new }
    ensures right { F.is_right_for formatters.new key.now }
{
    let Some((before, behind)) = cut_range(text.as_bytes()) else {
        return write_refusal(out, Refusal::Number);
    };
    match read_number(first, before) {
        Ok(()) => answer_to_end(alloc, first, formatters, key, options, behind, out),
        Err(ParseError::Syntax) => write_refusal(out, Refusal::Number),
        Err(ParseError::Limit) => write_refusal(out, Refusal::Limit),
        Err(ParseError::Memory) => Err(AllocError),
    }
}
