//! What a formatter writes of a number into bytes of the caller's.

ghost use Rattle.std.specs.Prelude.{◌≡◌, IfOk, IfErr};
ghost use Rattle.icu_decimal.specs.HeldTables.{tables_of};
ghost use Rattle.legumeyet_c_values.specs.Parts.{held_text};
ghost use Rattle.legumeyet_c_values.specs.Putting.{IsPut};
ghost use Rattle.locale_numbers_formatter.specs.FormatText.{plain_tables};
ghost use Rattle.legumeyet_c.specs.Formatted.{IsExactFault, IsExactText, IsFormatFault, IsFormatInParts, IsFormatText, IsPartsFault, IsShownFault, IsShownText};
ghost use Rattle.legumeyet_c.specs.Worded.{IsForm, IsFormFault, IsInPartsFault, IsNotShown, IsShown, IsText, IsTextFault, IsTextInParts};

use crate::categories::{category_in_parts, put_category, put_form_category};
use crate::lent_formatter::LentFormatter;
use fixed_decimal::{CompactDecimal, Decimal};
use icu_decimal::DecimalFormatter;
use legumeyet_c_values::{CallError, put};
use locale_numbers_formatter::laws::{format_is_text, plain_is_layered};
use locale_numbers_formatter::{ExactError, FormatterKind, NumberFormatter};
use std::alloc::Global;
use writeable::{PartsSink, Writeable};

// Writes the text of a plain number.
fn put_plain(
    formatter: &DecimalFormatter<'_>,
    value: &Decimal,
    out: &mut [u8],
    length: &mut usize,
) -> Result<(), CallError>
    ensures { IsPut (IsFormatText (plain_tables (tables_of formatter.now)) value.now)
        (IsFormatFault (plain_tables (tables_of formatter.now)) value.now) out.old out.new length.old length.new
        result }
{
    plain_is_layered();
    put(&formatter.format(value), out, length)
}

// Writes the text of a number of any format.
fn put_number(
    formatter: &NumberFormatter<'_>,
    value: &Decimal,
    out: &mut [u8],
    length: &mut usize,
) -> Result<(), CallError>
    ensures { IsPut (IsFormatText formatter.now value.now) (IsFormatFault formatter.now value.now) out.old out.new
        length.old length.new result }
{
    if let FormatterKind::Plain(plain) = formatter.kind() {
        return put_plain(plain, value, out, length);
    }
    if !formatter.can_format(value) {
        return Err(CallError::Range);
    }
    match formatter.format(value) {
        Ok(text) => put(&text, out, length),
        Err(_) => Err(CallError::Memory),
    }
}

// Writes what a formatter writes of a number: its text, or the word of its category.
pub(crate) fn put_text(
    lent: &LentFormatter<'_>,
    value: &mut Decimal,
    out: &mut [u8],
    length: &mut usize,
) -> Result<(), CallError>
    ensures { IsPut (IsText lent.now value.old) (IsTextFault lent.now value.old) out.old out.new length.old length.new
        result }
{
    match lent.plurals() {
        Some(plurals) => put_category(lent.get(), plurals.rules, value, out, length),
        None => put_number(lent.get(), value, out, length),
    }
}

// Writes the value that the text of a number shows.
fn put_shown_value(
    formatter: &NumberFormatter<'_>,
    value: &Decimal,
    out: &mut [u8],
    length: &mut usize,
) -> Result<(), CallError>
    ensures { IsPut (IsShownText formatter.now value.now) (IsShownFault formatter.now value.now) out.old out.new
        length.old length.new result }
{
    if !formatter.can_format(value) {
        return Err(CallError::Range);
    }
    match formatter.shown(value) {
        Ok(shown) => put(&shown, out, length),
        Err(_) => Err(CallError::Memory),
    }
}

// The same by what writes numbers or words.
pub(crate) fn put_shown(
    lent: &LentFormatter<'_>,
    value: &Decimal,
    out: &mut [u8],
    length: &mut usize,
) -> Result<(), CallError>
    ensures { IsPut (IsShown lent.now value.now) (IsNotShown lent.now value.now) out.old out.new length.old length.new
        result }
{
    put_shown_value(lent.get(), value, out, length)
}

// Writes the text of an exact form.
fn put_form_text(
    formatter: &NumberFormatter<'_>,
    form: &CompactDecimal,
    out: &mut [u8],
    length: &mut usize,
) -> Result<(), CallError>
    ensures { IsPut (IsExactText formatter.now form.now) (IsExactFault formatter.now form.now) out.old out.new
        length.old length.new result }
{
    format_is_text();
    match formatter.format_exact(form) {
        Ok(text) => put(&text, out, length),
        Err(ExactError::Range) => Err(CallError::Range),
        Err(ExactError::Exponent) => Err(CallError::Exponent),
    }
}

// Writes what a formatter writes of an exact form: its text, or the word of its category.
pub(crate) fn put_form(
    lent: &LentFormatter<'_>,
    form: &CompactDecimal,
    out: &mut [u8],
    length: &mut usize,
) -> Result<(), CallError>
    ensures { IsPut (IsForm lent.now form.now) (IsFormFault lent.now form.now) out.old out.new length.old length.new
        result }
{
    match lent.plurals() {
        Some(plurals) => put_form_category(lent.get(), plurals.rules, form, out, length),
        None => put_form_text(lent.get(), form, out, length),
    }
}

// The text of a number with its parts.
fn number_in_parts(
    alloc: Global,
    formatter: &NumberFormatter<'_>,
    value: &Decimal,
) -> Result<PartsSink, CallError>
    ensures value { IfOk result (λ sink. IsFormatInParts formatter.now value.now (held_text sink)) }
    ensures fault { IfErr result (λ error. IsPartsFault formatter.now value.now error) }
{
    if !formatter.can_format(value) {
        return Err(CallError::Range);
    }
    let Ok(text) = formatter.format(value) else {
        return Err(CallError::Memory);
    };
    let mut sink = PartsSink::new(alloc);
    match text.write_to(&mut sink) {
        Ok(()) => Ok(sink),
        Err(_) => Err(CallError::Memory),
    }
}

// What a formatter writes of a number with its parts: its text, or the word of its category, which has none.
pub(crate) fn text_in_parts(
    alloc: Global,
    lent: &LentFormatter<'_>,
    value: &mut Decimal,
) -> Result<PartsSink, CallError>
    ensures value { IfOk result (λ sink. IsTextInParts lent.now value.old (held_text sink)) }
    ensures fault { IfErr result (λ error. IsInPartsFault lent.now value.old error) }
{
    match lent.plurals() {
        Some(plurals) => category_in_parts(alloc, lent.get(), plurals.rules, value),
        None => number_in_parts(alloc, lent.get(), value),
    }
}
