//! The tasks that tell plural categories: of a number, and of a range.

ghost use Rattle.std.specs.Prelude.{◌≡◌, ◌++◌, IfOk, IsOk, OnOk, OnErr, string_bytes};
ghost use Rattle.locale_numbers_formatter.specs.FormatText.{MayLengthen};
ghost use Rattle.locale_numbers_lines.specs.Growth.{Grows};
ghost use Rattle.locale_numbers_answers.specs.AnswerSink.{HasRoom};
ghost use Rattle.locale_numbers_answers.specs.CategoryAnswer.{answered_category, category_answer, category_between, range_category_answer, shown_category, shown_range_category};

use crate::answer_line::{write_refusal, write_word};
use fixed_decimal::Decimal;
use icu_plurals::{PluralCategory, PluralRules, PluralRulesWithRanges};
use locale_numbers_formatter::NumberFormatter;
use locale_numbers_requests::Refusal;
use std::alloc::AllocError;

/// The plural category of a number as a formatter shows it: by the rules of `en` `One` of 1 and `Other` of 1.0.
///
/// By a compact formatter the number becomes the one that is shown, by a scientific one its significand. `None`: it can't
/// be shown, as `can_format` of the formatter says. It may allocate only by digits of its own, or of a significand, that
/// are rounded to multiples of 25. `AllocError`: out of memory.
pub fn shown_category(
    formatter: &NumberFormatter<'_>,
    rules: &PluralRules,
    value: &mut Decimal,
) -> Result<Option<PluralCategory>, AllocError>
    ensures value { IfOk result (λ category. category ≡ shown_category formatter.now rules.now value.old) }
    ensures room { OnErr result (MayLengthen formatter.now) }
{
    match formatter.plural_operands(value) {
        Ok(Some(operands)) => Ok(Some(rules.category_for(&operands))),
        Ok(None) => Ok(None),
        Err(refused) => Err(refused),
    }
}

// The category of a range, by those of its ends, where both are there.
fn category_between(
    rules: &PluralRulesWithRanges<'_>,
    start: Option<PluralCategory>,
    end: Option<PluralCategory>,
) -> Option<PluralCategory>
    ensures { result ≡ category_between rules.now.ranges.now start end }
{
    Some(rules.resolve_range(start?, end?))
}

/// The plural category of a range of two numbers as a formatter shows them: by the rules and the ranges of `en` `Other` of 0
/// and 1.
///
/// The numbers become what `shown_category` makes of them. `None`: one of them can't be shown. It allocates as
/// `shown_category`. `AllocError`: out of memory.
pub fn shown_range_category(
    formatter: &NumberFormatter<'_>,
    rules: &PluralRulesWithRanges<'_>,
    first: &mut Decimal,
    second: &mut Decimal,
) -> Result<Option<PluralCategory>, AllocError>
    ensures value { IfOk result (λ category. category
        ≡ shown_range_category formatter.now rules.now.rules.now rules.now.ranges.now first.old second.old) }
    ensures room { OnErr result (MayLengthen formatter.now) }
{
    let start = shown_category(formatter, rules.rules, first)?;
    let end = shown_category(formatter, rules.rules, second)?;
    Ok(category_between(rules, start, end))
}

// Writes the answer that is a category, where there is one, after what `out` holds.
fn write_category(category: Option<PluralCategory>, out: &mut String) -> Result<(), AllocError>
    ensures text { OnOk result (string_bytes out.new ≡ string_bytes out.old ++ answered_category category) }
    ensures err { OnErr result (Grows (string_bytes out.old) (string_bytes out.new)) }
    ensures room { HasRoom out.old (answered_category category) → IsOk result }
{
    match category {
        Some(category) => write_word(category.as_str(), out),
        None => write_refusal(out, Refusal::Range),
    }
}

/// Writes the plural category of a number, as a formatter shows it, after what `out` holds: `ok`, a tab and the word of the
/// category, or the word `range` where the number can't be shown.
///
/// By the formatter and the rules of `en` 1 is answered by `ok`, a tab and `one`, and 1.0 by `other`; by a short or a
/// scientific formatter of `fr` and its rules 1000000 by `many`. The number becomes what `shown_category` makes of it; it
/// is taken as it is given. Where there is room, it allocates as `shown_category`. `AllocError`: out of memory; a part of
/// the answer may then be there.
pub fn write_category_answer(
    formatter: &NumberFormatter<'_>,
    rules: &PluralRules,
    value: &mut Decimal,
    out: &mut String,
) -> Result<(), AllocError>
    ensures text { OnOk result (string_bytes out.new
        ≡ string_bytes out.old ++ category_answer formatter.now rules.now value.old) }
    ensures err { OnErr result (Grows (string_bytes out.old) (string_bytes out.new)) }
    ensures room { HasRoom out.old (category_answer formatter.now rules.now value.old)
        → ¬ (MayLengthen formatter.now) → IsOk result }
{
    match shown_category(formatter, rules, value) {
        Ok(category) => write_category(category, out),
        Err(refused) => Err(refused),
    }
}

/// Writes the plural category of a range of two numbers, as a formatter shows them, after what `out` holds: `ok`, a tab and
/// the word of the category, or the word `range` where one of them can't be shown.
///
/// By the formatter, the rules and the ranges of `en` 0 and 1 are answered by `ok`, a tab and `other`. The numbers are taken
/// as they are given. Where there is room, it allocates as `shown_category`. `AllocError`: out of memory; a part of the
/// answer may then be there.
pub fn write_range_category_answer(
    formatter: &NumberFormatter<'_>,
    rules: &PluralRulesWithRanges<'_>,
    first: &mut Decimal,
    second: &mut Decimal,
    out: &mut String,
) -> Result<(), AllocError>
    ensures text { OnOk result (string_bytes out.new ≡ string_bytes out.old ++ range_category_answer formatter.now
        rules.now.rules.now rules.now.ranges.now first.old second.old) }
    ensures err { OnErr result (Grows (string_bytes out.old) (string_bytes out.new)) }
    ensures room { HasRoom out.old (range_category_answer formatter.now rules.now.rules.now rules.now.ranges.now first.old
        second.old) → ¬ (MayLengthen formatter.now) → IsOk result }
{
    match shown_range_category(formatter, rules, first, second) {
        Ok(category) => write_category(category, out),
        Err(refused) => Err(refused),
    }
}
