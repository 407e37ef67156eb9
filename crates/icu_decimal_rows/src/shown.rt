//! Answers of the calls of shown values.

use crate::parts::put_range;
use crate::refusals::parsed;
use fixed_decimal::UnsignedDecimal;
use icu_decimal_compact_value::{
    CompactEntry, Shown, can_show, exact_entry, exponent_for_magnitude, exponent_in_range, show,
    show_in_place,
};
use rows::{Stop, filled, number_of, push, put, put_text};
use std::alloc::Global;

// The entry of a part of a text.
fn entry_of(part: &str) -> Result<CompactEntry, Stop> {
    let Some((kind, exponent)) = part.split_once(':') else {
        return Err(Stop::Unknown);
    };
    Ok(CompactEntry {
        log10_type: number_of(kind)?,
        exponent: number_of(exponent)?,
    })
}

// Puts the entries of a text to the others.
fn put_entries(entries: &mut Vec<CompactEntry>, text: &str) -> Result<(), Stop> {
    if text.is_empty() {
        return Ok(());
    }
    for part in text.split(';') {
        push(entries, entry_of(part)?)?;
    }
    Ok(())
}

// The entries of a text: parts with semicolons between, each a type, a colon and an exponent.
fn entries_of(alloc: Global, text: &str) -> Result<Vec<CompactEntry>, Stop> {
    let mut entries = Vec::new(alloc);
    let put = put_entries(&mut entries, text);
    filled(entries, put)
}

// Writes the significand, the exponent, and the index of the entry.
fn put_shown(out: &mut String, shown: &Shown) -> Result<(), Stop> {
    write!(out, "{} {} ", &shown.significand, shown.exponent)?;
    put_index(out, shown.entry)
}

// Writes the index of an entry, or that there is none.
fn put_index(out: &mut String, entry: Option<usize>) -> Result<(), Stop> {
    match entry {
        Some(index) => put(out, &index),
        None => put_text(out, "none"),
    }
}

// What a number is shown as under these entries.
fn shown_under(
    entries: &[CompactEntry],
    number: &UnsignedDecimal,
    out: &mut String,
) -> Result<(), Stop> {
    if !can_show(number, entries) {
        return put_range(out);
    }
    let shown = show(number, entries)?;
    let put = put_shown(out, &shown);
    drop(shown);
    put
}

// What a number becomes in its place under these entries.
fn shown_in_place(
    entries: &[CompactEntry],
    number: &mut UnsignedDecimal,
    out: &mut String,
) -> Result<(), Stop> {
    if !can_show(number, entries) {
        return put_range(out);
    }
    let under = show_in_place(number, entries);
    write!(out, "{number} {} ", under.exponent)?;
    put_index(out, under.entry)
}

// What the number of a text is shown as: the significand, the exponent, and the index of the entry.
fn shown(entries: &[CompactEntry], call: &str, number: &str, out: &mut String) -> Result<(), Stop> {
    let mut number = parsed(UnsignedDecimal::try_from_str(*out.allocator(), number))?;
    let put = match call {
        "show" => shown_under(entries, &number, out),
        _ => shown_in_place(entries, &mut number, out),
    };
    drop(number);
    put
}

// The index of the entry of an exact form, or how it is refused.
fn exact_under(
    entries: &[CompactEntry],
    significand: &UnsignedDecimal,
    exponent: u8,
    out: &mut String,
) -> Result<(), Stop> {
    if !exponent_in_range(significand, exponent) {
        return put_range(out);
    }
    match exact_entry(significand, exponent, entries) {
        Ok(entry) => put_index(out, entry),
        Err(refusal) => put(out, &refusal),
    }
}

// The index of the entry of the exact form of a text and an exponent.
fn exact(
    entries: &[CompactEntry],
    significand: &str,
    exponent: &str,
    out: &mut String,
) -> Result<(), Stop> {
    let exponent = number_of(exponent)?;
    let significand = parsed(UnsignedDecimal::try_from_str(*out.allocator(), significand))?;
    let put = exact_under(entries, &significand, exponent, out);
    drop(significand);
    put
}

// The answer of a call over these entries.
fn answer_under(
    entries: &[CompactEntry],
    call: &str,
    passed: &[&str],
    out: &mut String,
) -> Result<(), Stop> {
    match passed {
        [number] if call == "show" || call == "show_in_place" => {
            shown(entries, call, number, out)
        }
        [magnitude] if call == "exponent_for_magnitude" => {
            put(out, &exponent_for_magnitude(number_of(magnitude)?, entries))
        }
        [significand, power] if call == "exact_entry" => exact(entries, significand, power, out),
        _ => Err(Stop::Unknown),
    }
}

/// The answer of a call of shown values.
pub fn answer(call: &str, passed: &[&str], out: &mut String) -> Result<(), Stop> {
    let Some((entries, passed)) = passed.split_first() else {
        return Err(Stop::Unknown);
    };
    let entries = entries_of(*out.allocator(), entries)?;
    let put = answer_under(entries.as_slice(), call, passed, out);
    drop(entries);
    put
}
