//! Answers of the calls of compact formatters.

use crate::parts::{put_by, put_parts, put_range};
use crate::refusals::parsed;
use fixed_decimal::{Decimal, SignDisplay, UnsignedDecimal};
use icu_decimal::{CompactDecimalFormatter, FormattedUnsignedCompactDecimal};
use rows::{Bounded, Stop, number_of, put, put_last};
use std::alloc::Global;
use writeable::Error;

// The sign that a word asks for; none where the sign is as it is written.
fn display_of(word: &str) -> Result<Option<SignDisplay>, Stop> {
    match word {
        "keep" => Ok(None),
        "auto" => Ok(Some(SignDisplay::Auto)),
        "never" => Ok(Some(SignDisplay::Never)),
        "always" => Ok(Some(SignDisplay::Always)),
        "except-zero" => Ok(Some(SignDisplay::ExceptZero)),
        "negative" => Ok(Some(SignDisplay::Negative)),
        _ => Err(Stop::Unknown),
    }
}

// The number of a text, with its sign as it is written or as a display says.
fn signed(alloc: Global, display: &str, text: &str) -> Result<Decimal, Stop> {
    let display = display_of(display)?;
    let number = parsed(Decimal::try_from_str(alloc, text))?;
    match display {
        Some(display) => Ok(number.with_sign_display(display)),
        None => Ok(number),
    }
}

// Writes the parts of a number's text.
fn put_parts_of(
    formatter: &CompactDecimalFormatter<'_>,
    number: &Decimal,
    out: &mut String,
) -> Result<(), Stop> {
    if !formatter.can_format(number) {
        return put_range(out);
    }
    let shown = formatter.format(number)?;
    let put = put_parts(out, &shown);
    drop(shown);
    put
}

// Writes the text of a number, or that it is out of range.
fn put_text_of(
    formatter: &CompactDecimalFormatter<'_>,
    number: &Decimal,
    out: &mut String,
) -> Result<(), Stop> {
    if !formatter.can_format(number) {
        return put_range(out);
    }
    let text = formatter.format_to_string(*out.allocator(), number)?;
    put_last(out, text)
}

// Writes the text of an exact form or its parts, the words of its refusal, or that it is out of range.
fn put_exact(
    formatter: &CompactDecimalFormatter<'_>,
    call: &str,
    significand: &Decimal,
    exponent: u8,
    out: &mut String,
) -> Result<(), Stop> {
    if !formatter.exponent_in_range(significand, exponent) {
        return put_range(out);
    }
    match formatter.format_with_exponent(significand, exponent) {
        Ok(exact) => put_by(out, call, &exact),
        Err(refusal) => put(out, &refusal),
    }
}

// Writes the text that was written of a number, what the number became, and the exponent that was returned.
fn put_taken(
    out: &mut String,
    text: &str,
    number: &Decimal,
    written: Result<u8, Error>,
) -> Result<(), Stop> {
    // the sink has room, so it refuses only where memory lacks
    let Ok(exponent) = written else {
        return Err(Stop::Memory);
    };
    write!(out, "{text} {number} {exponent}")?;
    Ok(())
}

// Writes a number in its place.
fn put_in_place(
    formatter: &CompactDecimalFormatter<'_>,
    number: &mut Decimal,
    out: &mut String,
) -> Result<(), Stop> {
    if !formatter.can_format(number) {
        return put_range(out);
    }
    let mut sink = Bounded::new(*out.allocator(), 1_000);
    let written = formatter.write_shown(number, &mut sink);
    let put = put_taken(out, sink.text(), number, written);
    drop(sink);
    put
}

// Writes a significand and its exponent, with `c` between.
fn put_significand(
    shown: &FormattedUnsignedCompactDecimal<'_>,
    out: &mut String,
) -> Result<(), Stop> {
    put(out, shown.significand())?;
    write!(out, "c{}", shown.exponent())?;
    Ok(())
}

// Writes the significand and the exponent that a number is shown with.
fn put_significand_of(
    formatter: &CompactDecimalFormatter<'_>,
    number: &Decimal,
    out: &mut String,
) -> Result<(), Stop> {
    if !formatter.can_format(number) {
        return put_range(out);
    }
    let shown = formatter.format(number)?;
    let put = put_significand(shown.value(), out);
    drop(shown);
    put
}

// The answer of a call that is passed a number.
fn answer_of_number(
    formatter: &CompactDecimalFormatter<'_>,
    call: &str,
    number: &mut Decimal,
    out: &mut String,
) -> Result<(), Stop> {
    match call {
        "write_shown" => put_in_place(formatter, number, out),
        "format" => put_text_of(formatter, number, out),
        "format_parts" => put_parts_of(formatter, number, out),
        "significand" => put_significand_of(formatter, number, out),
        _ => Err(Stop::Unknown),
    }
}

// Whether a number can be shown.
fn can_show(
    formatter: &CompactDecimalFormatter<'_>,
    number: &str,
    out: &mut String,
) -> Result<(), Stop> {
    let number = parsed(UnsignedDecimal::try_from_str(*out.allocator(), number))?;
    let can = formatter.can_show(&number);
    drop(number);
    put(out, &can)
}

/// The answer of a call that is passed one field.
pub fn answer_of_one(
    formatter: &CompactDecimalFormatter<'_>,
    call: &str,
    passed: &str,
    out: &mut String,
) -> Result<(), Stop> {
    match call {
        "significand" => answer_of_two(formatter, call, "keep", passed, out),
        "can_show" => can_show(formatter, passed, out),
        "compact_exponent_for_magnitude" => {
            let magnitude = number_of(passed)?;
            put(out, &formatter.compact_exponent_for_magnitude(magnitude))
        }
        _ => Err(Stop::Unknown),
    }
}

// The answer of a call that is passed a significand and an exponent.
fn answer_of_exact(
    formatter: &CompactDecimalFormatter<'_>,
    call: &str,
    significand: &str,
    exponent: &str,
    out: &mut String,
) -> Result<(), Stop> {
    let exponent = number_of(exponent)?;
    let significand = parsed(Decimal::try_from_str(*out.allocator(), significand))?;
    let put = put_exact(formatter, call, &significand, exponent, out);
    drop(significand);
    put
}

/// The answer of a call that is passed two fields: a sign and a number, or a significand and an exponent.
pub fn answer_of_two(
    formatter: &CompactDecimalFormatter<'_>,
    call: &str,
    one: &str,
    other: &str,
    out: &mut String,
) -> Result<(), Stop> {
    match call {
        "format_with_exponent" | "format_with_exponent_parts" => {
            answer_of_exact(formatter, call, one, other, out)
        }
        _ => {
            let mut number = signed(*out.allocator(), one, other)?;
            let put = answer_of_number(formatter, call, &mut number, out);
            drop(number);
            put
        }
    }
}
