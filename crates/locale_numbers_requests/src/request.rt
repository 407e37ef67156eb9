//! The request line: six fields between tabs.

ghost use Rattle.std.specs.Prelude.{◌≡◌, true, false, ◌∷◌, [], ◌↔◌, length, IsSome, IfSome, MatchOption, Some, None};
ghost use Rattle.std.specs.Str.{is_utf8};
ghost use Rattle.locale_numbers_requests.specs.Request.{fields, format_asked, format_by, grouping_named, is_amount, options_by, placed, request_of, says_nothing, takes, with_text};

use crate::form_field::{FormAsked, Task, form_named};
use crate::rounding_field::{DigitsAsked, is_cash, keeps_digits, rounding_named};
use crate::sign_field::{keeps_sign, sign_named};
use icu_decimal_symbols::options::GroupingStrategy;
use locale_numbers_formats::{
    Notation, NumberFormat, NumberOptions, NumberShape, NumberUnit, Rounding, SignAsked, cut_field,
    value_beside,
};

const TAB: u8 = b'\t';

/// What a request line asks of whatever text it has.
#[derive(Clone, Copy)]
pub struct Request<'a> {
    /// The locale's tag.
    pub tag: &'a [u8],
    /// What is done with the text.
    pub task: Task,
    /// How numbers are written.
    pub format: NumberFormat,
}

// The words of groupings.
const GROUPINGS: [(&[u8], GroupingStrategy); 5] = [
    (b"auto", GroupingStrategy::Auto),
    (b"never", GroupingStrategy::Never),
    (b"always", GroupingStrategy::Always),
    (b"min2", GroupingStrategy::Min2),
    (b"on-aligned", GroupingStrategy::OnAligned),
];

/// The grouping that a word names: `Min2` of `min2`. `None` where it names none, as `Auto`. It does not allocate.
pub fn grouping_named(word: &[u8]) -> Option<GroupingStrategy>
    ensures { result ≡ grouping_named word.now }
{
    value_beside(&GROUPINGS, word)
}

// Whether the unit is a currency.
fn is_amount(unit: NumberUnit) -> bool
    ensures { result ≡ is_amount unit }
{
    matches!(unit, NumberUnit::Currency(_))
}

// Whether a task of numbers with a unit takes a sign and a rounding.
fn takes(task: Task, unit: NumberUnit, sign: SignAsked, rounding: Rounding) -> bool
    ensures { result ≡ takes task unit sign rounding }
{
    match task {
        Task::Write | Task::Category(_) | Task::RangeCategory => {
            is_amount(unit) || !is_cash(rounding)
        }
        Task::WriteExact => keeps_digits(rounding),
        Task::Read | Task::ReadLenient => {
            keeps_sign(sign) && (keeps_digits(rounding) || (is_amount(unit) && is_cash(rounding)))
        }
    }
}

// Whether the fields beside a skeleton say nothing.
fn says_nothing(grouping: GroupingStrategy, sign: SignAsked, rounding: Rounding) -> bool
    ensures { result ≡ says_nothing grouping sign rounding }
{
    matches!(grouping, GroupingStrategy::Auto) && keeps_sign(sign) && keeps_digits(rounding)
}

/// The format of a shape and options: those of scientific numbers go into the notation, since they are the significand's,
/// and nothing is made of the number before. Of the notation of `scientific` and two fraction digits 1600 is `1.60E3`. Those
/// of any other notation are beside the shape. It does not allocate.
pub fn placed(shape: NumberShape, options: NumberOptions) -> NumberFormat
    ensures { result ≡ placed shape options }
{
    match shape.notation {
        Notation::Standard | Notation::Compact(_) | Notation::CompactDigits(_, _) => {
            NumberFormat { shape, options }
        }
        Notation::Scientific(style, _) => NumberFormat {
            shape: NumberShape {
                notation: Notation::Scientific(style, options),
                ..shape
            },
            options: NumberOptions::unchanged(),
        },
    }
}

// What the fields of a line make of a number.
fn options_by(sign: SignAsked, digits: &DigitsAsked) -> NumberOptions
    ensures { result ≡ options_by sign digits.now }
{
    NumberOptions {
        rounding: digits.rounding,
        leading_zeros: digits.leading_zeros,
        zeros: digits.zeros,
        integer_digits: 0,
        fraction_digits: digits.fraction_digits,
        sign,
    }
}

// The format that a word of a form and the fields beside it ask for.
fn format_by(
    notation: Notation,
    unit: NumberUnit,
    grouping: GroupingStrategy,
    sign: SignAsked,
    digits: &DigitsAsked,
) -> NumberFormat
    ensures { result ≡ format_by notation unit grouping sign digits.now }
{
    let shape = NumberShape {
        notation,
        unit,
        grouping,
    };
    placed(shape, options_by(sign, digits))
}

// What is done, and the format, where the form takes the fields beside it.
fn format_asked(
    form: &FormAsked,
    grouping: GroupingStrategy,
    sign: SignAsked,
    digits: &DigitsAsked,
) -> Option<(Task, NumberFormat)>
    ensures { result ≡ format_asked form.now grouping sign digits.now }
{
    match form {
        FormAsked::OfWord(task, notation, unit) => {
            if !takes(*task, *unit, sign, digits.rounding) {
                return None;
            }
            Some((*task, format_by(*notation, *unit, grouping, sign, digits)))
        }
        FormAsked::OfSkeleton(task, format) => {
            if !says_nothing(grouping, sign, digits.rounding) {
                return None;
            }
            Some((*task, *format))
        }
    }
}

// Six fields of a line.
#[derive(Clone, Copy)]
struct Fields<'a> {
    tag: &'a [u8],
    form: &'a [u8],
    grouping: &'a [u8],
    sign: &'a [u8],
    rounding: &'a [u8],
    text: &'a [u8],
}

// The fields of a line, where they are six.
fn six_fields(line: &[u8]) -> Option<Fields<'_>>
    ensures six { IsSome result ↔ (length (fields line.now) ≡ 6) }
    ensures fields { IfSome result (λ six. fields line.now
        ≡ six.tag.now ∷ six.form.now ∷ six.grouping.now ∷ six.sign.now ∷ six.rounding.now ∷ six.text.now ∷ []) }
{
    let (tag, rest) = cut_field(line, TAB);
    let (form, rest) = cut_field(rest?, TAB);
    let (grouping, rest) = cut_field(rest?, TAB);
    let (sign, rest) = cut_field(rest?, TAB);
    let (rounding, rest) = cut_field(rest?, TAB);
    match cut_field(rest?, TAB) {
        (text, None) => Some(Fields {
            tag,
            form,
            grouping,
            sign,
            rounding,
            text,
        }),
        (_, Some(_)) => None,
    }
}

/// Whether bytes are UTF-8.
pub fn is_text(bytes: &[u8]) -> bool
    ensures { result ≡ is_utf8 bytes.now }
{
    str::from_utf8(bytes).is_ok()
}

/// The request that a line is, its text left out, or `None` where it is not one: not UTF-8, or not six known fields that
/// go together.
pub fn read_request(line: &[u8]) -> Option<Request<'_>>
    ensures { MatchOption result (request_of line.now ≡ None) (λ asked. with_text [] (request_of line.now)
        ≡ Some (record {
          tag = asked.tag.now;
          task = asked.task;
          format = asked.format;
          text = [];
        })) }
{
    if !is_text(line) {
        return None;
    }
    let six = six_fields(line)?;
    let form = form_named(six.form)?;
    let grouping = grouping_named(six.grouping)?;
    let sign = sign_named(six.sign)?;
    let digits = rounding_named(six.rounding)?;
    let (task, format) = format_asked(&form, grouping, sign, &digits)?;
    Some(Request {
        tag: six.tag,
        task,
        format,
    })
}

/// Bytes as a text, where they are UTF-8.
pub fn as_text(bytes: &[u8]) -> Option<&str>
    ensures { MatchOption result (is_utf8 bytes.now ≡ false)
        (λ text. (is_utf8 bytes.now ≡ true) × (text.now ≡ bytes.now)) }
{
    match str::from_utf8(bytes) {
        Ok(text) => Some(text),
        Err(_) => None,
    }
}
