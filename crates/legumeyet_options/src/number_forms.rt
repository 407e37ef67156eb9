//! How the digits of numbers are written: by a form, or in scientific notation.

ghost use Rattle.std.specs.Prelude.{◌≡◌};
ghost use Rattle.legumeyet_options.specs.NumberForms.{form_said, format_by, scientific_form};

use icu_decimal_scientific::{ExponentOptions, ExponentSign, ScientificNotation};
use locale_numbers_formats::{
    CompactWidth, Notation, NumberFormat, NumberOptions, NumberShape, ScientificStyle, value_beside,
};
use locale_numbers_requests::{Task, placed};

// The forms of numbers.
const FORMS: [(&[u8], (Task, Notation)); 7] = [
    (b"plain", (Task::Write, Notation::Standard)),
    (
        b"short",
        (Task::Write, Notation::Compact(CompactWidth::Short)),
    ),
    (
        b"long",
        (Task::Write, Notation::Compact(CompactWidth::Long)),
    ),
    (
        b"exact-short",
        (Task::WriteExact, Notation::Compact(CompactWidth::Short)),
    ),
    (
        b"exact-long",
        (Task::WriteExact, Notation::Compact(CompactWidth::Long)),
    ),
    (b"read", (Task::Read, Notation::Standard)),
    (b"read-lenient", (Task::ReadLenient, Notation::Standard)),
];

// What a form is.
pub(crate) fn form_said(word: &[u8]) -> Option<(Task, Notation)>
    ensures { result ≡ form_said word.now }
{
    value_beside(&FORMS, word)
}

// Scientific numbers with these exponents: a minus sign where they are below 0, and no zero in front.
pub(crate) fn scientific_form(notation: ScientificNotation) -> (Task, Notation)
    ensures { result ≡ scientific_form notation }
{
    let style = ScientificStyle {
        notation,
        exponents: ExponentOptions {
            sign: ExponentSign::Auto,
            least_digits: 0,
        },
    };
    (
        Task::Write,
        Notation::Scientific(style, NumberOptions::unchanged()),
    )
}

// The format of a shape and options: digits that are shown are those before a compact pattern, and of scientific numbers all
// are those of the significand.
pub(crate) fn format_by(shape: NumberShape, options: NumberOptions, are_shown: bool) -> NumberFormat
    ensures { result ≡ format_by shape options are_shown }
{
    match shape.notation {
        Notation::Compact(width) if are_shown => NumberFormat {
            shape: NumberShape {
                notation: Notation::CompactDigits(width, options),
                ..shape
            },
            options: NumberOptions::unchanged(),
        },
        Notation::Standard
        | Notation::Compact(_)
        | Notation::CompactDigits(_, _)
        | Notation::Scientific(_, _) => placed(shape, options),
    }
}
