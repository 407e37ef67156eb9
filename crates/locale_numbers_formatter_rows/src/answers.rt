//! Answers of the calls of a formatter.

use crate::calls::Call;
use crate::parts::{put_by, put_range};
use crate::texts;
use fixed_decimal::{CompactDecimal, Decimal, ParseError};
use icu_decimal::options::GroupingStrategy;
use locale_numbers_formatter::{NumberFormatter, NumberReader, OwnNumberTables};
use rows::{Stop, put_last, put_text, refused};
use writeable::PartsSink;

// The number that was read; a text that is not one is not understood.
fn parsed<T>(read: Result<T, ParseError>) -> Result<T, Stop> {
    match read {
        Ok(number) => Ok(number),
        Err(ParseError::Memory) => Err(Stop::Memory),
        Err(_) => Err(Stop::Unknown),
    }
}

// Writes the text of a number or its parts, or that it has none.
fn put_formatted(
    formatter: &NumberFormatter<'_>,
    call: &str,
    number: &Decimal,
    out: &mut String,
) -> Result<(), Stop> {
    if !formatter.can_format(number) {
        return put_range(out);
    }
    let formatted = formatter.format(number)?;
    let put = put_by(out, call, &formatted);
    drop(formatted);
    put
}

// Writes what the text of a number shows.
fn put_shown(
    formatter: &NumberFormatter<'_>,
    number: &Decimal,
    out: &mut String,
) -> Result<(), Stop> {
    if !formatter.can_format(number) {
        return put_range(out);
    }
    put_last(out, formatter.shown(number)?)
}

// Writes the text of a number between the affixes of a reader.
fn put_between(reader: &NumberReader<'_>, number: &Decimal, out: &mut String) -> Result<(), Stop> {
    if !reader.joins() {
        return put_text(out, "none");
    }
    let mut sink = PartsSink::new(*out.allocator());
    let is_written = reader.write(number, &mut sink).is_ok();
    let put = if is_written {
        put_text(out, sink.text())
    } else {
        Err(Stop::Memory)
    };
    drop(sink);
    put
}

// The same, by the reader of a formatter.
fn put_joined(
    formatter: &NumberFormatter<'_>,
    number: &Decimal,
    out: &mut String,
) -> Result<(), Stop> {
    let reader = formatter.reader(*out.allocator())?;
    let put = put_between(&reader, number, out);
    drop(reader);
    put
}

// Writes the text of a number by a copy of the tables, without separators.
fn put_owned(
    formatter: &NumberFormatter<'_>,
    number: &Decimal,
    out: &mut String,
) -> Result<(), Stop> {
    let own = OwnNumberTables::try_of(*out.allocator(), formatter, GroupingStrategy::Never)?;
    let put = put_formatted(&own.lent(), "format", number, out);
    drop(own);
    put
}

// Writes an exact form or its parts, or the words of the refusal.
fn put_exact(
    formatter: &NumberFormatter<'_>,
    call: &str,
    form: &CompactDecimal,
    out: &mut String,
) -> Result<(), Stop> {
    match formatter.format_exact(form) {
        Ok(formatted) => {
            let put = put_by(out, call, &formatted);
            drop(formatted);
            put
        }
        Err(refusal) => Err(refused(out, &refusal)),
    }
}

// The answer of a call that is passed an exact form.
fn by_form(formatter: &NumberFormatter<'_>, call: Call<'_>, out: &mut String) -> Result<(), Stop> {
    let form = parsed(CompactDecimal::try_from_str(*out.allocator(), call.text))?;
    let put = put_exact(formatter, call.name, &form, out);
    drop(form);
    put
}

// The answer of a call that is passed a number.
fn by_number(
    formatter: &NumberFormatter<'_>,
    call: Call<'_>,
    out: &mut String,
) -> Result<(), Stop> {
    let number = parsed(Decimal::try_from_str(*out.allocator(), call.text))?;
    let put = match call.name {
        "format" | "format_parts" => put_formatted(formatter, call.name, &number, out),
        "shown" => put_shown(formatter, &number, out),
        "write" => put_joined(formatter, &number, out),
        "lent" => put_owned(formatter, &number, out),
        _ => Err(Stop::Unknown),
    };
    drop(number);
    put
}

/// The answer of a call of a formatter.
pub fn answer(
    formatter: &NumberFormatter<'_>,
    call: Call<'_>,
    out: &mut String,
) -> Result<(), Stop> {
    match call.name {
        "format_exact" | "format_exact_parts" => by_form(formatter, call, out),
        "read" => texts::read(formatter, call.text, out),
        "read_lenient" => texts::read_lenient(formatter, call.text, out),
        _ => by_number(formatter, call, out),
    }
}
