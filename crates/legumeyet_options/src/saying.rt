//! What is said of a text: a number as it is written or printed, or why nothing is.

ghost use Rattle.std.specs.Prelude.{◌≡◌, ◌≢◌, Ok, Err, IfOk, IfErr, IsTrue, Some, option_map};
ghost use Rattle.writeable.specs.AnnotatedText.{Event, bytes};
ghost use Rattle.writeable.specs.HeldParts.{held_after};
ghost use Rattle.fixed_decimal.specs.SignedText.{signed_text_of};
ghost use Rattle.icu_decimal.specs.PlainReading.{decimal};
ghost use Rattle.locale_numbers_answers.specs.CompactReading.{compact_reading_of};
ghost use Rattle.locale_numbers_answers.specs.NumberAnswer.{signed_form};
ghost use Rattle.locale_numbers_answers.specs.NumberReading.{number, reading_of};
ghost use Rattle.locale_numbers_answers.specs.ReadAnswer.{fraction_asked, is_own_rounding, own_reading};
ghost use Rattle.locale_numbers_formatter.specs.FormatReading.{reading_by_reader};
ghost use Rattle.locale_numbers_formatter.specs.FormatText.{CanFormat};
ghost use Rattle.locale_numbers_formatter.specs.FormatParts.{format_events};
ghost use Rattle.locale_numbers_formatter.specs.FormatTyped.{reading_by_typed};
ghost use Rattle.locale_numbers_formatter.specs.ShownOperands.{is_shown};
ghost use Rattle.legumeyet_options.specs.Fractions.{has_fraction};
ghost use Rattle.legumeyet_options.specs.Sayings.{exact_saying, form_saying, IsNoReading, number_saying, read_saying, reading_saying, reads_by, reads_typed_by, sayer_for, saying, text_saying, value_saying, written_saying};

use crate::categories::{CategorySayer, SayerRules};
use fixed_decimal::{CompactDecimal, Decimal, ParseError};
use icu_decimal::error::ReadError;
use icu_dimension_fractions::{Fraction, FractionInfo};
use locale_numbers_answers::{read_compact, read_number};
use locale_numbers_formats::{NumberFormat, NumberOptions, Rounding, SignAsked};
use locale_numbers_formatter::{ExactError, LenientNumberReader, NumberFormatter, NumberReader};
use locale_numbers_requests::{Refusal, Task, as_text};
use std::alloc::{AllocError, Global};
use writeable::{PartsSink, Writeable};

/// What texts are said by.
#[derive(Drop)]
pub enum Sayer<'a> {
    /// By nothing: the tag is no locale's.
    NoTag,
    /// By nothing: the book has no table to read with.
    NoTable,
    /// Numbers are written, with these options, by a formatter where the book has one. Where it is so, one with a fraction
    /// is refused.
    Writes(Option<NumberFormatter<'a>>, NumberOptions, bool),
    /// Numbers and exponents are written, with this sign, by a formatter where the book has one.
    WritesExact(Option<NumberFormatter<'a>>, SignAsked),
    /// Texts are read that a program wrote, and amounts only with these digits.
    Reads(NumberReader<'a>, Option<Fraction>),
    /// Texts are read that people typed.
    ReadsTyped(LenientNumberReader<'a>),
    /// Plural categories of numbers as they are shown.
    Categories(CategorySayer<'a>),
    /// The same of ranges, as `1..5`.
    RangeCategories(CategorySayer<'a>),
}

/// Why nothing is said of a text.
#[derive(Clone, Copy)]
pub enum NotSaid {
    /// It is refused.
    Refused(Refusal),
    /// The number has a fraction, and `--round` is above the ones without a mode.
    Coarse,
    /// Out of memory.
    Memory,
}

// What a value is as text, with its parts.
pub(crate) fn held<T: Writeable>(alloc: Global, value: &T) -> Result<PartsSink, NotSaid>
    ensures held { IfOk result (λ sink. sink.held ≡ held_after (T.events value.now)) }
    ensures err { IfErr result (λ error. error ≡ NotSaid.Memory) }
{
    let mut sink = PartsSink::new(alloc);
    match value.write_to(&mut sink) {
        Ok(()) => Ok(sink),
        Err(_) => Err(NotSaid::Memory),
    }
}

// Whether a number has a text.
fn is_shown(formatter: &NumberFormatter<'_>, value: &Decimal) -> bool
    ensures value { result ≡ is_shown formatter.now value.now }
    ensures can { IsTrue result → CanFormat formatter.now value.now }
{
    formatter.can_format(value)
}

// A number that can be written, as a formatter writes it.
fn say_formatted(
    alloc: Global,
    formatter: &NumberFormatter<'_>,
    value: &Decimal,
) -> Result<PartsSink, NotSaid>
    requires { CanFormat formatter.now value.now }
    ensures held { IfOk result (λ sink. sink.held ≡ held_after (format_events formatter.now value.now)) }
    ensures err { IfErr result (λ error. error ≡ NotSaid.Memory) }
{
    match formatter.format(value) {
        Ok(number) => held(alloc, &number),
        Err(_) => Err(NotSaid::Memory),
    }
}

// A number as a formatter writes it.
fn say_number(
    alloc: Global,
    formatter: &NumberFormatter<'_>,
    value: &Decimal,
) -> Result<PartsSink, NotSaid>
    ensures said { IfOk result (λ sink. number_saying formatter.now value.now ≡ Ok sink.held) }
    ensures refused { IfErr result (λ why. why ≢ NotSaid.Memory → number_saying formatter.now value.now ≡ Err why) }
{
    if is_shown(formatter, value) {
        say_formatted(alloc, formatter, value)
    } else {
        Err(NotSaid::Refused(Refusal::Range))
    }
}

// A number as the options change it.
fn say_changed(
    alloc: Global,
    found: Option<&NumberFormatter<'_>>,
    options: NumberOptions,
    mut value: Decimal,
) -> Result<PartsSink, NotSaid>
    ensures said { IfOk result (λ sink.
        written_saying (option_map (λ f. f.now) found.entry) options value ≡ Ok sink.held) }
    ensures refused { IfErr result (λ why. why ≢ NotSaid.Memory
        → written_saying (option_map (λ f. f.now) found.entry) options value ≡ Err why) }
{
    let Some(formatter) = found else {
        return Err(NotSaid::Refused(Refusal::Table));
    };
    match options.change(formatter.fractions(), &mut value) {
        Ok(()) => say_number(alloc, formatter, &value),
        Err(_) => Err(NotSaid::Memory),
    }
}

// Whether a digit is shown below the ones.
pub(crate) fn has_fraction(value: &Decimal) -> bool
    ensures { result ≡ has_fraction value.now.absolute }
{
    *value.absolute.magnitude_range().start() < 0
}

// A number that is written.
fn say_value(
    alloc: Global,
    found: Option<&NumberFormatter<'_>>,
    options: NumberOptions,
    is_coarse: bool,
    value: Decimal,
) -> Result<PartsSink, NotSaid>
    ensures said { IfOk result (λ sink.
        value_saying (option_map (λ f. f.now) found.entry) options is_coarse value ≡ Ok sink.held) }
    ensures refused { IfErr result (λ why. why ≢ NotSaid.Memory
        → value_saying (option_map (λ f. f.now) found.entry) options is_coarse value ≡ Err why) }
{
    if is_coarse && has_fraction(&value) {
        return Err(NotSaid::Coarse);
    }
    say_changed(alloc, found, options, value)
}

// The number that a text says.
pub(crate) fn number_of(alloc: Global, text: &[u8]) -> Result<Decimal, NotSaid>
    ensures value { IfOk result (λ value. reading_of text.now ≡ number value) }
    ensures refused { IfErr result (λ why. why ≢ NotSaid.Memory → IsNoReading why (reading_of text.now)) }
{
    let mut value = Decimal::zero(alloc);
    match read_number(&mut value, text) {
        Ok(()) => Ok(value),
        Err(ParseError::Syntax) => Err(NotSaid::Refused(Refusal::Number)),
        Err(ParseError::Limit) => Err(NotSaid::Refused(Refusal::Limit)),
        Err(ParseError::Memory) => Err(NotSaid::Memory),
    }
}

// The number that a text says, written.
fn say_written(
    alloc: Global,
    found: Option<&NumberFormatter<'_>>,
    options: NumberOptions,
    is_coarse: bool,
    text: &[u8],
) -> Result<PartsSink, NotSaid>
    ensures said { IfOk result (λ sink.
        reading_saying (option_map (λ f. f.now) found.entry) options is_coarse (reading_of text.now) ≡ Ok sink.held) }
    ensures refused { IfErr result (λ why. why ≢ NotSaid.Memory
        → reading_saying (option_map (λ f. f.now) found.entry) options is_coarse (reading_of text.now) ≡ Err why) }
{
    match number_of(alloc, text) {
        Ok(value) => say_value(alloc, found, options, is_coarse, value),
        Err(why) => Err(why),
    }
}

// A form with its sign, by a formatter.
fn say_form(
    alloc: Global,
    formatter: &NumberFormatter<'_>,
    form: &CompactDecimal,
) -> Result<PartsSink, NotSaid>
    ensures said { IfOk result (λ sink. form_saying (Some formatter.now) form.now ≡ Ok sink.held) }
    ensures refused { IfErr result
        (λ why. why ≢ NotSaid.Memory → form_saying (Some formatter.now) form.now ≡ Err why) }
{
    match formatter.format_exact(form) {
        Ok(number) => held(alloc, &number),
        Err(ExactError::Range) => Err(NotSaid::Refused(Refusal::Range)),
        Err(ExactError::Exponent) => Err(NotSaid::Refused(Refusal::Exponent)),
    }
}

// The same form with the sign that is asked for.
fn signed(form: CompactDecimal, sign: SignAsked) -> CompactDecimal
    ensures { result ≡ signed_form sign form }
{
    let exponent = form.exponent();
    let mut significand = form.into_significand();
    match sign {
        SignAsked::Keep => {}
        SignAsked::Show(display) => significand.apply_sign_display(display),
    }
    CompactDecimal::from_significand_and_exponent(significand, exponent)
}

// A form that is written.
fn say_exact(
    alloc: Global,
    found: Option<&NumberFormatter<'_>>,
    sign: SignAsked,
    text: &str,
) -> Result<PartsSink, NotSaid>
    ensures said { IfOk result (λ sink.
        exact_saying (option_map (λ f. f.now) found.entry) sign (compact_reading_of text.now) ≡ Ok sink.held) }
    ensures refused { IfErr result (λ why. why ≢ NotSaid.Memory
        → exact_saying (option_map (λ f. f.now) found.entry) sign (compact_reading_of text.now) ≡ Err why) }
{
    let form = match read_compact(alloc, text) {
        Ok(form) => signed(form, sign),
        Err(ParseError::Syntax) => return Err(NotSaid::Refused(Refusal::Number)),
        Err(ParseError::Limit) => return Err(NotSaid::Refused(Refusal::Limit)),
        Err(ParseError::Memory) => return Err(NotSaid::Memory),
    };
    match found {
        Some(formatter) => say_form(alloc, formatter, &form),
        None => Err(NotSaid::Refused(Refusal::Table)),
    }
}

// Whether an amount has these digits.
fn is_rounded(fraction: Fraction, value: &Decimal) -> bool
    ensures { result ≡ is_own_rounding (Some fraction) value.now }
{
    fraction.is_rounded(value)
}

// Whether a number that was read has these digits, where they are asked for.
fn is_own_rounding(fraction: Option<Fraction>, value: &Decimal) -> bool
    ensures { result ≡ is_own_rounding fraction value.now }
{
    match fraction {
        None => true,
        Some(fraction) => is_rounded(fraction, value),
    }
}

// The number that a program wrote so.
fn say_read(
    alloc: Global,
    reader: &NumberReader<'_>,
    fraction: Option<Fraction>,
    text: &str,
) -> Result<PartsSink, NotSaid>
    ensures said { IfOk result (λ sink.
        read_saying (own_reading fraction (reading_by_reader reader.now text.now)) ≡ Ok sink.held) }
    ensures refused { IfErr result (λ why. why ≢ NotSaid.Memory
        → read_saying (own_reading fraction (reading_by_reader reader.now text.now)) ≡ Err why) }
{
    match reader.read(alloc, text) {
        Ok(value) if is_own_rounding(fraction, &value) => held(alloc, &value),
        Ok(_) | Err(ReadError::NotWritten) => Err(NotSaid::Refused(Refusal::NotWritten)),
        Err(ReadError::Unreadable) => Err(NotSaid::Refused(Refusal::Unreadable)),
        Err(ReadError::Memory) => Err(NotSaid::Memory),
    }
}

// The number that people type so.
fn say_typed(
    alloc: Global,
    reader: &LenientNumberReader<'_>,
    text: &str,
) -> Result<PartsSink, NotSaid>
    ensures said { IfOk result (λ sink. read_saying (reading_by_typed reader.now text.now) ≡ Ok sink.held) }
    ensures refused { IfErr result (λ why. why ≢ NotSaid.Memory
        → read_saying (reading_by_typed reader.now text.now) ≡ Err why) }
{
    match reader.read(alloc, text) {
        Ok(value) => held(alloc, &value),
        Err(ReadError::NotWritten) => Err(NotSaid::Refused(Refusal::NotWritten)),
        Err(ReadError::Unreadable) => Err(NotSaid::Refused(Refusal::Unreadable)),
        Err(ReadError::Memory) => Err(NotSaid::Memory),
    }
}

// The digits that an amount is rounded to, where no other rounding is asked for.
fn fraction_asked(fractions: Option<FractionInfo>, rounding: Rounding) -> Option<Fraction>
    ensures { result ≡ fraction_asked fractions rounding }
{
    let fractions = fractions?;
    match rounding {
        Rounding::Usual => Some(fractions.standard),
        Rounding::Cash => Some(fractions.cash),
        Rounding::AsGiven
        | Rounding::At(_, _, _)
        | Rounding::Significant(_, _)
        | Rounding::Either(_, _, _, _) => None,
    }
}

// What reads the texts of a formatter, where there is one.
fn reads_by<'a>(
    alloc: Global,
    found: Option<&NumberFormatter<'a>>,
    rounding: Rounding,
) -> Result<Sayer<'a>, AllocError>
    ensures { IfOk result (λ sayer. sayer ≡ reads_by (option_map (λ f. f.now) found.entry) rounding) }
{
    let Some(formatter) = found else {
        return Ok(Sayer::NoTable);
    };
    let reader = formatter.reader(alloc)?;
    Ok(Sayer::Reads(reader, fraction_asked(formatter.fractions(), rounding)))
}

// What reads what people type, where there is a formatter.
fn reads_typed_by<'a>(
    alloc: Global,
    found: Option<&NumberFormatter<'a>>,
    second: Option<&NumberFormatter<'a>>,
) -> Result<Sayer<'a>, AllocError>
    ensures { IfOk result (λ sayer. sayer
        ≡ reads_typed_by (option_map (λ f. f.now) found.entry) (option_map (λ f. f.now) second.entry)) }
{
    let Some(formatter) = found else {
        return Ok(Sayer::NoTable);
    };
    let reader = formatter.lenient_reader(alloc, second)?;
    Ok(Sayer::ReadsTyped(reader))
}

impl<'a> Sayer<'a> {
    /// What says texts by a task and a format, with the formatter that the book has for it; for reading what people type
    /// with a second one that stands beside it, and for plural categories with rules.
    ///
    /// Where numbers `is_coarse`, one with a fraction is refused. It allocates only for readers. `AllocError`: out of memory.
    pub fn try_of(
        alloc: Global,
        task: Task,
        format: NumberFormat,
        is_coarse: bool,
        found: Option<NumberFormatter<'a>>,
        second: Option<&NumberFormatter<'a>>,
        rules: Option<SayerRules<'a>>,
    ) -> Result<Sayer<'a>, AllocError>
        ensures value { IfOk result (λ sayer. sayer ≡ sayer_for task format is_coarse found.entry
            (option_map (λ f. f.now) second.entry) rules.entry) }
    {
        match task {
            Task::Write => Ok(Sayer::Writes(found, format.options, is_coarse)),
            Task::WriteExact => Ok(Sayer::WritesExact(found, format.options.sign)),
            Task::Read => reads_by(alloc, found.as_ref(), format.options.rounding),
            Task::ReadLenient => reads_typed_by(alloc, found.as_ref(), second),
            Task::Category(_) => Ok(Sayer::Categories(CategorySayer {
                found,
                rules,
                options: format.options,
                is_coarse,
            })),
            Task::RangeCategory => Ok(Sayer::RangeCategories(CategorySayer {
                found,
                rules,
                options: format.options,
                is_coarse,
            })),
        }
    }

    // What is said of a text.
    fn say_text(&self, alloc: Global, text: &str) -> Result<PartsSink, NotSaid>
        ensures said { IfOk result (λ sink. text_saying self.now text.now ≡ Ok sink.held) }
        ensures refused { IfErr result (λ why. why ≢ NotSaid.Memory → text_saying self.now text.now ≡ Err why) }
    {
        match self {
            Sayer::NoTag => Err(NotSaid::Refused(Refusal::Tag)),
            Sayer::NoTable => Err(NotSaid::Refused(Refusal::Table)),
            Sayer::Writes(found, options, is_coarse) => {
                say_written(alloc, found.as_ref(), *options, *is_coarse, text.as_bytes())
            }
            Sayer::WritesExact(found, sign) => say_exact(alloc, found.as_ref(), *sign, text),
            Sayer::Reads(reader, fraction) => say_read(alloc, reader, *fraction, text),
            Sayer::ReadsTyped(reader) => say_typed(alloc, reader, text),
            Sayer::Categories(sayer) => sayer.say(alloc, text.as_bytes()),
            Sayer::RangeCategories(sayer) => sayer.say_range(alloc, text.as_bytes()),
        }
    }

    /// What is said of a text: by one that writes with the formatter of `de` `1.234,5` of `1234.5`, with its parts.
    ///
    /// `NotSaid`: why nothing is, as `Refused(Refusal::Number)` of `abc`. Allocates.
    pub fn say(&self, alloc: Global, text: &[u8]) -> Result<PartsSink, NotSaid>
        ensures said { IfOk result (λ sink. saying self.now text.now ≡ Ok sink.held) }
        ensures refused { IfErr result (λ why. why ≢ NotSaid.Memory → saying self.now text.now ≡ Err why) }
    {
        match as_text(text) {
            Some(text) => self.say_text(alloc, text),
            None => Err(NotSaid::Refused(Refusal::Shape)),
        }
    }
}
