//! The form that a request asks for: what is done, and with what numbers are written.

ghost use Rattle.std.specs.Prelude.{◌≡◌};
ghost use Rattle.locale_numbers_formats.specs.Cutting.{cut_at};
ghost use Rattle.locale_numbers_requests.specs.FormField.{colon, form_for, form_named, form_with, format_exact, format_read, is_compact, listed_form, rounding_read, skeleton_in, skeleton_task, unit_form};

use crate::pieces::three_pieces;
use crate::unit_word::unit_named;
use icu_decimal_scientific::{ExponentOptions, ExponentSign, ScientificNotation};
use icu_plurals::PluralRuleType;
use locale_numbers_formats::{
    CompactWidth, LeadingZeros, Notation, NumberFormat, NumberOptions, NumberShape, NumberUnit,
    Rounding, ScientificStyle, SignAsked, Skeleton, TrailingZeros, value_beside,
};

const COLON: u8 = b':';

/// What is done with the text of a line.
#[derive(Clone, Copy, Debug, PartialEq, Eq)]
pub enum Task {
    /// The number that it spells is written: 1234.5 as `1,234.5`.
    Write,
    /// The number and the exponent that it spells are written as they are: `1.20c6` as `1.20M`.
    WriteExact,
    /// The number is read that is written so, to the byte: 1234.5 of `1,234.5`.
    Read,
    /// The number is read that people type so: 1234.5 of `1234.5`.
    ReadLenient,
    /// The plural category of the number that it spells is written, by rules of this type: of `1` as `one`.
    Category(PluralRuleType),
    /// The plural category of the range whose ends it spells is written: of `1..5` as `other`.
    RangeCategory,
}

// What a form asks for.
#[derive(Clone, Copy)]
pub(crate) enum FormAsked {
    // By a word: what is done, how digits are written, and what is beside them. The other fields say the rest.
    OfWord(Task, Notation, NumberUnit),
    // By a skeleton: what is done, and how numbers are written.
    OfSkeleton(Task, NumberFormat),
}

// Compact numbers, in short patterns and in long ones.
const SHORT: Notation = Notation::Compact(CompactWidth::Short);

const LONG: Notation = Notation::Compact(CompactWidth::Long);

// The exponents of scientific numbers: a minus sign where they are below 0, and no zero in front.
const EXPONENTS: ExponentOptions = ExponentOptions {
    sign: ExponentSign::Auto,
    least_digits: 0,
};

// Nothing is made of a significand: what is, the other fields say.
const UNCHANGED: NumberOptions = NumberOptions {
    rounding: Rounding::AsGiven,
    leading_zeros: LeadingZeros::Keep,
    zeros: TrailingZeros::Keep,
    integer_digits: 0,
    fraction_digits: 0,
    sign: SignAsked::Keep,
};

// Scientific numbers, whose exponents are each whole number or the multiples of three.
const SCIENTIFIC: Notation = Notation::Scientific(
    ScientificStyle {
        notation: ScientificNotation::Scientific,
        exponents: EXPONENTS,
    },
    UNCHANGED,
);

const ENGINEERING: Notation = Notation::Scientific(
    ScientificStyle {
        notation: ScientificNotation::Engineering,
        exponents: EXPONENTS,
    },
    UNCHANGED,
);

// Categories by the rules of how many there are, and by those of which one it is.
const CARDINAL: Task = Task::Category(PluralRuleType::Cardinal);

const ORDINAL: Task = Task::Category(PluralRuleType::Ordinal);

// The words of forms, but for those of units.
const FORMS: [(&[u8], FormAsked); 12] = [
    (
        b"plain",
        FormAsked::OfWord(Task::Write, Notation::Standard, NumberUnit::None),
    ),
    (
        b"short",
        FormAsked::OfWord(Task::Write, SHORT, NumberUnit::None),
    ),
    (
        b"long",
        FormAsked::OfWord(Task::Write, LONG, NumberUnit::None),
    ),
    (
        b"exact-short",
        FormAsked::OfWord(Task::WriteExact, SHORT, NumberUnit::None),
    ),
    (
        b"exact-long",
        FormAsked::OfWord(Task::WriteExact, LONG, NumberUnit::None),
    ),
    (
        b"read",
        FormAsked::OfWord(Task::Read, Notation::Standard, NumberUnit::None),
    ),
    (
        b"read-lenient",
        FormAsked::OfWord(Task::ReadLenient, Notation::Standard, NumberUnit::None),
    ),
    (
        b"plural",
        FormAsked::OfWord(CARDINAL, Notation::Standard, NumberUnit::None),
    ),
    (
        b"ordinal",
        FormAsked::OfWord(ORDINAL, Notation::Standard, NumberUnit::None),
    ),
    (
        b"range-plural",
        FormAsked::OfWord(Task::RangeCategory, Notation::Standard, NumberUnit::None),
    ),
    (
        b"scientific",
        FormAsked::OfWord(Task::Write, SCIENTIFIC, NumberUnit::None),
    ),
    (
        b"engineering",
        FormAsked::OfWord(Task::Write, ENGINEERING, NumberUnit::None),
    ),
];

// The form of a unit, where there is one.
fn form_with(task: Task, unit: Option<NumberUnit>) -> Option<FormAsked>
    ensures { result ≡ form_with task unit }
{
    Some(FormAsked::OfWord(task, Notation::Standard, unit?))
}

// The form that the word of a unit names, after what is done with the number.
fn unit_form(word: &[u8]) -> Option<FormAsked>
    ensures { result ≡ unit_form word.now }
{
    if let Some(unit) = word.strip_prefix(b"read-lenient-".as_slice()) {
        form_with(Task::ReadLenient, unit_named(unit))
    } else if let Some(unit) = word.strip_prefix(b"read-".as_slice()) {
        form_with(Task::Read, unit_named(unit))
    } else {
        form_with(Task::Write, unit_named(word))
    }
}

// What is done, by what is before the two colons of a skeleton.
const SKELETON_TASKS: [(&[u8], Task); 7] = [
    (b"", Task::Write),
    (b"exact", Task::WriteExact),
    (b"read", Task::Read),
    (b"read-lenient", Task::ReadLenient),
    (b"plural", CARDINAL),
    (b"ordinal", ORDINAL),
    (b"range-plural", Task::RangeCategory),
];

// The task that stands before the two colons of a skeleton.
fn skeleton_task(front: &[u8]) -> Option<Task>
    ensures { result ≡ skeleton_task front.now }
{
    value_beside(&SKELETON_TASKS, front)
}

// What is asked of the digits of an amount that is read.
fn rounding_read(rounding: Rounding) -> Rounding
    ensures { result ≡ rounding_read rounding }
{
    match rounding {
        Rounding::Usual | Rounding::Cash => rounding,
        Rounding::AsGiven
        | Rounding::At(_, _, _)
        | Rounding::Significant(_, _)
        | Rounding::Either(_, _, _, _) => Rounding::AsGiven,
    }
}

/// The format by which numbers are read that are written by another one: what is read is not rounded, but an amount may
/// have to have the digits of its currency. It does not allocate.
pub fn format_read(format: NumberFormat) -> NumberFormat
    ensures { result ≡ format_read format }
{
    NumberFormat {
        shape: format.shape,
        options: NumberOptions {
            rounding: rounding_read(format.options.rounding),
            ..format.options
        },
    }
}

/// The format by which exact forms are written, of another one: their digits are given, so of a compact format with digits
/// of its own only the width and the sign count. It does not allocate.
pub fn format_exact(format: NumberFormat) -> NumberFormat
    ensures { result ≡ format_exact format }
{
    match format.shape.notation {
        Notation::Standard | Notation::Compact(_) | Notation::Scientific(_, _) => format,
        Notation::CompactDigits(width, options) => NumberFormat {
            shape: NumberShape {
                notation: Notation::Compact(width),
                ..format.shape
            },
            options,
        },
    }
}

// Whether numbers are written with a compact pattern.
fn is_compact(notation: Notation) -> bool
    ensures { result ≡ is_compact notation }
{
    matches!(
        notation,
        Notation::Compact(_) | Notation::CompactDigits(_, _)
    )
}

// The form of a task and the format of a skeleton, where they go together.
fn form_for(task: Task, format: NumberFormat) -> Option<FormAsked>
    ensures { result ≡ form_for task format }
{
    match task {
        Task::Write | Task::Category(_) | Task::RangeCategory => {
            Some(FormAsked::OfSkeleton(task, format))
        }
        Task::WriteExact if is_compact(format.shape.notation) => {
            Some(FormAsked::OfSkeleton(task, format_exact(format)))
        }
        Task::WriteExact => None,
        Task::Read | Task::ReadLenient => Some(FormAsked::OfSkeleton(task, format_read(format))),
    }
}

// The form that a word with a skeleton at its end names.
fn skeleton_form(word: &[u8]) -> Option<FormAsked>
    ensures { result ≡ skeleton_in (cut_at colon word.now) }
{
    let (front, middle, text) = three_pieces(word, COLON)?;
    if middle != b"".as_slice() {
        return None;
    }
    let task = skeleton_task(front)?;
    match Skeleton::try_from_utf8(text) {
        Ok(skeleton) => form_for(task, skeleton.format()),
        Err(_) => None,
    }
}

// The form of a word of the list.
fn listed_form(word: &[u8]) -> Option<FormAsked>
    ensures { result ≡ listed_form word.now }
{
    value_beside(&FORMS, word)
}

// The form that a field names.
pub(crate) fn form_named(word: &[u8]) -> Option<FormAsked>
    ensures { result ≡ form_named word.now }
{
    match listed_form(word) {
        Some(form) => Some(form),
        None => match unit_form(word) {
            Some(form) => Some(form),
            None => skeleton_form(word),
        },
    }
}
