//! The formatters that a book has for a tag.

use crate::caller::text_for;
use locale_numbers::prelude::{
    AbstractFormatter, Book, CompactWidth, Decimal, FormatterError, GroupingStrategy,
};
use rows::{Stop, put_last, put_last_written};

// Writes the text of a number.
fn put_shown<F: AbstractFormatter>(
    formatter: &F,
    number: &Decimal,
    out: &mut String,
) -> Result<(), Stop> {
    if !formatter.can_write(&number.absolute) {
        return Err(Stop::Unknown);
    }
    let shown = formatter.format_unsigned(&number.absolute)?;
    put_last_written(out, formatter.format_sign(number.sign, shown))
}

// Writes the number and the text of a refusal.
fn put_refusal(fault: FormatterError, out: &mut String) -> Result<(), Stop> {
    if let FormatterError::Memory = fault {
        return Err(Stop::Memory);
    }
    write!(out, "{} {fault}", fault.number())?;
    Ok(())
}

// Writes the text that was made, or the number and the text of the refusal.
fn put_made(made: Result<String, FormatterError>, out: &mut String) -> Result<(), Stop> {
    match made {
        Ok(text) => put_last(out, text),
        Err(fault) => put_refusal(fault, out),
    }
}

// Writes the text of a number by the formatter that was found, or the number and the text of the refusal.
fn put_by<F: AbstractFormatter + Drop>(
    found: Result<F, FormatterError>,
    number: &Decimal,
    out: &mut String,
) -> Result<(), Stop> {
    match found {
        Ok(formatter) => put_shown(&formatter, number, out),
        Err(fault) => put_refusal(fault, out),
    }
}

/// Writes the text of a number by the formatter of a book for a tag, or the number and the text of the refusal.
pub fn answer(
    book: &Book,
    call: &str,
    tag: &str,
    number: &str,
    out: &mut String,
) -> Result<(), Stop> {
    let alloc = *out.allocator();
    let Ok(number) = Decimal::try_from_str(alloc, number) else {
        return Err(Stop::Unknown);
    };
    let (never, auto) = (GroupingStrategy::Never, GroupingStrategy::Auto);
    let put = match call {
        "plain_formatter" => put_by(book.plain_formatter(alloc, tag, never.into()), &number, out),
        "compact_formatter" => {
            let long = CompactWidth::Long;
            put_by(
                book.compact_formatter(alloc, tag, long, auto.into()),
                &number,
                out,
            )
        }
        "formatter" => put_made(text_for(alloc, book, tag, &number), out),
        "short_formatter" => put_by(book.short_formatter(alloc, tag), &number, out),
        "long_formatter" => put_by(book.long_formatter(alloc, tag), &number, out),
        _ => Err(Stop::Unknown),
    };
    drop(number);
    put
}
