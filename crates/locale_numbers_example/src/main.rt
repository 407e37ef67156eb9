//! Writes a number for German readers, in its parts too, and reads what they type; writes it for Hindi and Arabic readers,
//! whole and short; and writes an amount of money and a percent, and reads the amount back.

#![tactic(auto)]

use anyhow::Result;
use locale_numbers::prelude::{
    Book, CurrencyFormatter, CurrencyFormatterOptions, CurrencyUsage, Decimal, DecimalFormatter,
    PartsSink, PercentFormatter, PercentFormatterOptions, ReadError, Writeable, read_lenient,
    world_text,
};

/// A report: the number's text, and each part of it.
fn print_parts(rt: &HostRuntime, plain: &DecimalFormatter<'_>, number: &Decimal) -> Result<()> {
    println!(rt; "{}", plain.format(number))?;
    let mut sink = PartsSink::new(rt.alloc());
    plain.format(number).write_to(&mut sink)?;
    for (part, text) in sink.part_texts() {
        println!(rt; "  {} {text}", part.value)?;
    }
    Ok(())
}

/// A form field: the number that was typed, or that it is not one. In a file that a program wrote `read_plain` takes what
/// `plain` writes, to the byte, and nothing else.
fn print_field(rt: &HostRuntime, plain: &DecimalFormatter<'_>, typed: &str) -> Result<()> {
    match read_lenient(rt.alloc(), plain, typed) {
        Ok(number) => println!(rt; "{typed} is {number}")?,
        Err(ReadError::NotWritten) => println!(rt; "{typed} is no number")?,
        Err(error) => return Err(error.into()),
    }
    Ok(())
}

/// A label of a chart: the number whole, and in short form, where that can show it.
fn print_label(rt: &HostRuntime, book: &Book, tag: &str, number: &Decimal) -> Result<()> {
    let plain = book.formatter(rt.alloc(), tag)?;
    println!(rt; "{}", plain.format(number))?;
    let short = book.short_formatter(rt.alloc(), tag)?;
    if short.can_format(number) {
        println!(rt; "{}", short.format_to_string(rt.alloc(), number)?)?;
    }
    Ok(())
}

/// An amount in euros, rounded to their cents, and the number that its text is.
fn print_amount(rt: &HostRuntime, euros: &CurrencyFormatter<'_>) -> Result<()> {
    let given = Decimal::try_from_str(rt.alloc(), "-1234.5")?;
    let amount = euros.rounded(given, CurrencyUsage::Standard)?;
    let text = euros.format_to_string(rt.alloc(), &amount)?;
    let read = euros.read(rt.alloc(), text.as_str())?;
    println!(rt; "{text} is {read}")?;
    Ok(())
}

/// A share in percent.
fn print_share(rt: &HostRuntime, percents: &PercentFormatter<'_>) -> Result<()> {
    let share = Decimal::try_from_str(rt.alloc(), "12.5")?;
    println!(rt; "{}", percents.format(&share))?;
    Ok(())
}

/// A bill: an amount and a share.
fn print_bill(rt: &HostRuntime, book: &Book, tag: &str) -> Result<()> {
    let options = CurrencyFormatterOptions::default();
    match book.currency_formatter(rt.alloc(), tag, "EUR", options) {
        Ok(euros) => print_amount(rt, &euros)?,
        Err(error) => return Err(error.into()),
    }
    let options = PercentFormatterOptions::default();
    match book.percent_formatter(rt.alloc(), tag, options) {
        Ok(percents) => print_share(rt, &percents),
        Err(error) => Err(error.into()),
    }
}

/// All of them, by a book of all locales.
fn print_all(rt: &HostRuntime, book: &Book, number: &Decimal) -> Result<()> {
    let german = book.formatter(rt.alloc(), "de")?;
    print_parts(rt, &german, number)?;
    print_field(rt, &german, "1.234,50")?;
    print_field(rt, &german, "1234,50")?;
    print_field(rt, &german, "98.7654")?;
    print_label(rt, book, "hi", number)?;
    print_label(rt, book, "ar-EG", number)?;
    print_bill(rt, book, "de")?;
    print_bill(rt, book, "de-CH")
}

fn main(rt: HostRuntime) -> Result<()> {
    let number = Decimal::try_from_str(rt.alloc(), "-987654.321")?;
    let text = world_text(rt.alloc())?;
    let book = Book::from_json(rt.alloc(), text.as_bytes())?;
    let printed = print_all(&rt, &book, &number);
    drop(book);
    printed
}
