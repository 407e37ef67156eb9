//! Answers of the calls that read texts.

use fixed_decimal::Decimal;
use icu_decimal::error::ReadError;
use locale_numbers_formatter::{LenientNumberReader, NumberFormatter, NumberReader};
use rows::{Stop, put_last, refused};

// Writes the number that was read, or the words of the refusal.
fn put_read(read: Result<Decimal, ReadError>, out: &mut String) -> Result<(), Stop> {
    match read {
        Ok(number) => put_last(out, number),
        Err(ReadError::Memory) => Err(Stop::Memory),
        Err(refusal) => Err(refused(out, &refusal)),
    }
}

// What a text is read as.
fn put_exact(reader: &NumberReader<'_>, text: &str, out: &mut String) -> Result<(), Stop> {
    put_read(reader.read(*out.allocator(), text), out)
}

// What a typed text is read as.
fn put_typed(reader: &LenientNumberReader<'_>, text: &str, out: &mut String) -> Result<(), Stop> {
    put_read(reader.read(*out.allocator(), text), out)
}

/// What a text is read as by the reader of a formatter.
pub fn read(formatter: &NumberFormatter<'_>, text: &str, out: &mut String) -> Result<(), Stop> {
    let reader = formatter.reader(*out.allocator())?;
    let put = put_exact(&reader, text, out);
    drop(reader);
    put
}

/// What a text is read as by the reader of what people type.
pub fn read_lenient(
    formatter: &NumberFormatter<'_>,
    text: &str,
    out: &mut String,
) -> Result<(), Stop> {
    let reader = formatter.lenient_reader(*out.allocator(), None)?;
    let put = put_typed(&reader, text, out);
    drop(reader);
    put
}
