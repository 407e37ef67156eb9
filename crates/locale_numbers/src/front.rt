//! The front of a line: all that is before its text.

ghost use Rattle.std.specs.Prelude.{◌≡◌, ◌++◌, IfOk, OnErr, option_map};
ghost use Rattle.locale_numbers.specs.FormatterKeys.{key_with};
ghost use Rattle.locale_numbers.specs.Front.{adds_none, asked_text, front_of, is_as_it_is, is_standard, is_usual, keeps_zeros, rounds_none, rounds_so};
ghost use Rattle.locale_numbers.specs.LineMemory.{MayTakeTag};
ghost use Rattle.locale_numbers_requests.specs.Request.{request_of};

use crate::formatter_key::{FormatterKey, purpose_of};
use icu_decimal::DecimalFormatterPreferences;
use locale_numbers_book::read_preferences;
use locale_numbers_cache::{Hashed, KeyReader};
use locale_numbers_formats::{
    LeadingZeros, Notation, NumberFormat, NumberOptions, NumberShape, NumberUnit, Rounding,
    SignAsked, TrailingZeros, cut_last,
};
use locale_numbers_requests::{Task, read_request};
use std::alloc::{AllocError, Global};

const TAB: u8 = b'\t';

// What the front of a line asks, whatever its text.
#[derive(Clone, Copy)]
pub(crate) struct Front {
    /// What is done with the text.
    pub task: Task,
    /// What is made of a number.
    pub options: NumberOptions,
    /// Whether it asks for numbers as they are given, but for the digits of a currency.
    pub is_as_it_is: bool,
    /// What its formatter is kept under, hashed once; `None` where its tag is no tag.
    pub key: Option<Hashed<FormatterKey>>,
}

// The front of a line, which is all that is before its text, and the text, which need not be UTF-8.
//
// The front ends with the last tab. It asks what the line does, as a line with no text.
pub(crate) fn cut_text(line: &[u8]) -> (&[u8], &[u8])
    ensures asks { request_of line.now ≡ asked_text result.1.now (request_of result.0.now) }
    ensures whole { line.now ≡ result.0.now ++ result.1.now }
{
    cut_last(line, TAB)
}

// Whether numbers of a notation are written with all their digits.
pub(crate) fn is_standard(notation: Notation) -> bool
    ensures { result ≡ is_standard notation }
{
    match notation {
        Notation::Standard => true,
        Notation::Compact(_) | Notation::CompactDigits(_, _) | Notation::Scientific(_, _) => false,
    }
}

// Whether a rounding is the usual one.
fn is_usual(rounding: Rounding) -> bool
    ensures { result ≡ is_usual rounding }
{
    match rounding {
        Rounding::Usual => true,
        Rounding::Cash
        | Rounding::AsGiven
        | Rounding::At(_, _, _)
        | Rounding::Significant(_, _)
        | Rounding::Either(_, _, _, _) => false,
    }
}

// Whether a rounding leaves a number that is no amount as it is.
fn rounds_none(rounding: Rounding) -> bool
    ensures { result ≡ rounds_none rounding }
{
    match rounding {
        Rounding::Usual | Rounding::Cash | Rounding::AsGiven => true,
        Rounding::At(_, _, _) | Rounding::Significant(_, _) | Rounding::Either(_, _, _, _) => false,
    }
}

// Whether a rounding leaves a number with this unit, or with none, as it is, but for the digits of a currency.
fn rounds_so(unit: NumberUnit, rounding: Rounding) -> bool
    ensures { result ≡ rounds_so unit rounding }
{
    match unit {
        NumberUnit::None => rounds_none(rounding),
        NumberUnit::Percent(_) | NumberUnit::Currency(_) => is_usual(rounding),
    }
}

// Whether no zero is trimmed.
fn keeps_zeros(front: LeadingZeros, end: TrailingZeros) -> bool
    ensures { result ≡ keeps_zeros front end }
{
    match front {
        LeadingZeros::Keep => matches!(end, TrailingZeros::Keep),
        LeadingZeros::TrimRoundedZero | LeadingZeros::Trim => false,
    }
}

// Whether so many digits at least are none that has to be added.
fn adds_none(digits: i16) -> bool
    ensures { result ≡ adds_none digits }
{
    digits <= 0
}

// Whether a format leaves numbers as they are given, but for the digits of a currency.
fn is_as_it_is(format: &NumberFormat) -> bool
    ensures { result ≡ is_as_it_is format.now }
{
    let options = &format.options;
    is_standard(format.shape.notation)
        && rounds_so(format.shape.unit, options.rounding)
        && keeps_zeros(options.leading_zeros, options.zeros)
        && adds_none(options.integer_digits)
        && adds_none(options.fraction_digits)
        && matches!(options.sign, SignAsked::Keep)
}

// The key of what a tag prefers, a task and a shape.
fn hashed_key(
    preferences: Option<DecimalFormatterPreferences>,
    task: Task,
    shape: NumberShape,
) -> Option<Hashed<FormatterKey>>
    ensures { result ≡ option_map (key_with task shape) preferences }
{
    match preferences {
        Some(preferences) => Some(Hashed::new(FormatterKey {
            preferences,
            shape,
            purpose: purpose_of(task),
        })),
        None => None,
    }
}

// What a front asks: it is read as a line with no text. `None` where it is not one.
//
// It may allocate for its tag. `AllocError`: out of memory.
pub(crate) fn read_front(alloc: Global, bytes: &[u8]) -> Result<Option<Front>, AllocError>
    ensures value { IfOk result (λ front. front ≡ front_of bytes.now) }
    ensures room { OnErr result (MayTakeTag (request_of bytes.now)) }
{
    let Some(request) = read_request(bytes) else {
        return Ok(None);
    };
    let preferences = read_preferences(alloc, request.tag)?;
    let format = request.format;
    let is_as_it_is = is_as_it_is(&format);
    let NumberFormat { shape, options } = format;
    let key = hashed_key(preferences, request.task, shape);
    Ok(Some(Front {
        task: request.task,
        options,
        is_as_it_is,
        key,
    }))
}

// A reader of fronts.
#[derive(Clone, Copy)]
pub(crate) struct FrontReader {
    /// Where a tag may allocate.
    pub alloc: Global,
}

impl KeyReader<Option<Front>> for FrontReader {
    ghost key_of = { λ s bytes. front_of bytes };

    fn read(&self, bytes: &[u8]) -> Result<Option<Front>, AllocError> {
        read_front(self.alloc, bytes)
    }
}
