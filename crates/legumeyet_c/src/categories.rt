//! The words of plural categories into bytes of the caller's.

ghost use Rattle.std.specs.Prelude.{◌≡◌, Some, IfOk, IfErr};
ghost use Rattle.icu_plurals.specs.Categories.{word};
ghost use Rattle.legumeyet_c_values.specs.Numbers.{IsNumberFault};
ghost use Rattle.locale_numbers.specs.FoundRules.{rules_held};
ghost use Rattle.legumeyet_c_values.specs.Parts.{held_text};
ghost use Rattle.legumeyet_c_values.specs.Putting.{IsPut};
ghost use Rattle.locale_numbers_formatter.specs.ShownOperands.{shown_operands, value_operands};
ghost use Rattle.legumeyet_c.specs.Formatted.{IsExactFault};
ghost use Rattle.legumeyet_c.specs.Worded.{IsFormWord, IsRangeWordFault, IsSpelledWord, IsUnseen, IsWordInParts, IsWordPartsFault, category_word, range_word};

use fixed_decimal::{CompactDecimal, Decimal};
use icu_decimal_direct::TextDigits;
use icu_plurals::{PluralCategory, PluralOperands, PluralRules, PluralRulesWithRanges};
use legumeyet_c_values::{CallError, assign_text, put_bytes};
use locale_numbers_formatter::{ExactError, NumberFormatter};
use std::alloc::Global;
use writeable::{PartsSink, Writeable};

// Writes the word of a category.
fn put_word(category: PluralCategory, out: &mut [u8], length: &mut usize) -> Result<(), CallError>
    ensures { IsPut (λ text. text ≡ word category) (λ error. ⊥) out.old out.new length.old length.new result }
{
    put_bytes(category.as_str().as_bytes(), out, length)
}

// Writes the word of the category of the number that a text spells, with a number in between.
fn put_read_category(
    alloc: Global,
    rules: &PluralRules,
    text: &[u8],
    out: &mut [u8],
    length: &mut usize,
) -> Result<(), CallError>
    ensures { IsPut (IsSpelledWord rules.now text.now) (IsNumberFault text.now) out.old out.new length.old length.new
        result }
{
    let mut number = Decimal::zero(alloc);
    match assign_text(&mut number, text) {
        Ok(()) => {
            let operands = PluralOperands::from_significand_and_exponent(&number.absolute, 0);
            put_word(rules.category_for(&operands), out, length)
        }
        Err(error) => Err(error),
    }
}

// Writes the word of the category of the number that a text spells, which is shown as it is given: directly where it has
// few digits.
pub(crate) fn put_spelled_category(
    alloc: Global,
    rules: &PluralRules,
    text: &[u8],
    out: &mut [u8],
    length: &mut usize,
) -> Result<(), CallError>
    ensures { IsPut (IsSpelledWord rules.now text.now) (IsNumberFault text.now) out.old out.new length.old length.new
        result }
{
    match TextDigits::of(text) {
        Some(digits) => {
            let operands = digits.plural_operands();
            put_word(rules.category_for(&operands), out, length)
        }
        None => put_read_category(alloc, rules, text, out, length),
    }
}

// What rules see of a number as it is shown. `Range`: it is not shown. `Memory`: out of memory.
fn operands_as_shown(
    formatter: &NumberFormatter<'_>,
    value: &mut Decimal,
) -> Result<PluralOperands, CallError>
    ensures value { IfOk result (λ operands. Some operands ≡ shown_operands formatter.now value.old) }
    ensures fault { IfErr result (λ error. IsUnseen formatter.now value.old error) }
{
    match formatter.plural_operands(value) {
        Ok(Some(operands)) => Ok(operands),
        Ok(None) => Err(CallError::Range),
        Err(_) => Err(CallError::Memory),
    }
}

// Writes the word of the category of a number as it is shown.
pub(crate) fn put_category(
    formatter: &NumberFormatter<'_>,
    rules: &PluralRules,
    value: &mut Decimal,
    out: &mut [u8],
    length: &mut usize,
) -> Result<(), CallError>
    ensures { IsPut (λ text. category_word rules.now formatter.now value.old ≡ Some text)
        (IsUnseen formatter.now value.old) out.old out.new length.old length.new result }
{
    match operands_as_shown(formatter, value) {
        Ok(operands) => put_word(rules.category_for(&operands), out, length),
        Err(error) => Err(error),
    }
}

// The same word as a text with parts, of which it has none.
pub(crate) fn category_in_parts(
    alloc: Global,
    formatter: &NumberFormatter<'_>,
    rules: &PluralRules,
    value: &mut Decimal,
) -> Result<PartsSink, CallError>
    ensures value { IfOk result (λ sink. IsWordInParts rules.now formatter.now value.old (held_text sink)) }
    ensures fault { IfErr result (λ error. IsWordPartsFault formatter.now value.old error) }
{
    let operands = operands_as_shown(formatter, value)?;
    let text = rules.category_for(&operands).as_str();
    let mut sink = PartsSink::new(alloc);
    match text.write_to(&mut sink) {
        Ok(()) => Ok(sink),
        Err(_) => Err(CallError::Memory),
    }
}

// What rules see of an exact form.
fn operands_of(form: &CompactDecimal) -> PluralOperands
    ensures { result ≡ value_operands form.now }
{
    let significand = form.significand();
    PluralOperands::from_significand_and_exponent(&significand.absolute, form.exponent())
}

// Writes the word of the category of an exact form.
pub(crate) fn put_form_category(
    formatter: &NumberFormatter<'_>,
    rules: &PluralRules,
    form: &CompactDecimal,
    out: &mut [u8],
    length: &mut usize,
) -> Result<(), CallError>
    ensures { IsPut (IsFormWord rules.now formatter.now form.now) (IsExactFault formatter.now form.now) out.old out.new
        length.old length.new result }
{
    match formatter.format_exact(form) {
        Ok(_shown) => {
            let operands = operands_of(form);
            put_word(rules.category_for(&operands), out, length)
        }
        Err(ExactError::Range) => Err(CallError::Range),
        Err(ExactError::Exponent) => Err(CallError::Exponent),
    }
}

// Writes the word of the category of a range, by its ends as they are shown.
pub(crate) fn put_range(
    formatter: &NumberFormatter<'_>,
    plurals: &PluralRulesWithRanges<'_>,
    first: &mut Decimal,
    second: &mut Decimal,
    out: &mut [u8],
    length: &mut usize,
) -> Result<(), CallError>
    ensures { IsPut (λ text. range_word (rules_held plurals.now) formatter.now (first.old, second.old) ≡ Some text)
        (IsRangeWordFault formatter.now (first.old, second.old)) out.old out.new length.old length.new result }
{
    let start = operands_as_shown(formatter, first)?;
    match operands_as_shown(formatter, second) {
        Ok(end) => put_word(plurals.category_for_range(&start, &end), out, length),
        Err(error) => Err(error),
    }
}
