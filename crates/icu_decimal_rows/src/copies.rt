//! Tables and rules that are copied, and tables that are written as JSON and read again.

use crate::plurals::{put_category, rules_of};
use crate::refusals::made;
use crate::tables::{put_listed, table_of, value_of};
use icu_decimal::plurals::PluralRules;
use icu_decimal::provider::CompactPatterns;
use rows::{Stop, put_text};
use std::alloc::AllocError;

// The table that a JSON text says.
fn table_said(text: &str, out: &mut String) -> Result<CompactPatterns, Stop> {
    let alloc = *out.allocator();
    let value = value_of(alloc, text)?;
    let table = CompactPatterns::from_json(alloc, &value);
    drop(value);
    made(table, out)
}

// Whether a JSON text says an equal table.
fn is_said(text: &str, table: &CompactPatterns, out: &mut String) -> Result<bool, Stop> {
    let said = table_said(text, out)?;
    let is_same = said == *table;
    drop(said);
    Ok(is_same)
}

// Whether the copy of a table is equal to it.
fn is_copied(table: &CompactPatterns) -> Result<bool, AllocError> {
    let copy = table.try_clone()?;
    let is_same = copy == *table;
    drop(copy);
    Ok(is_same)
}

// Writes the JSON text of a table, where what it says and the copy of the table are both equal to the table.
fn put_same(text: &str, table: &CompactPatterns, out: &mut String) -> Result<(), Stop> {
    if is_said(text, table, out)? && is_copied(table)? {
        put_text(out, text)
    } else {
        put_text(out, "differs")
    }
}

// The JSON text of a table.
fn text_of(table: &CompactPatterns, out: &String) -> Result<String, AllocError> {
    let value = table.to_json(*out.allocator())?;
    let text = value.to_string(*out.allocator());
    drop(value);
    text
}

fn put_json(table: &CompactPatterns, out: &mut String) -> Result<(), Stop> {
    let text = text_of(table, out)?;
    let put = put_same(text.as_str(), table, out);
    drop(text);
    put
}

fn to_json(table: &str, out: &mut String) -> Result<(), Stop> {
    let table = table_of(table, None, out)?;
    let put = put_json(&table, out);
    drop(table);
    put
}

// The types and the exponents of the table that a JSON text says.
fn from_json(text: &str, out: &mut String) -> Result<(), Stop> {
    let table = table_said(text, out)?;
    let put = put_listed(out, &table);
    drop(table);
    put
}

// The category of a number with an exponent, by a copy of these rules.
fn category_by_copy(
    rules: &PluralRules,
    number: &str,
    exponent: &str,
    out: &mut String,
) -> Result<(), Stop> {
    let copy = rules.try_clone(*out.allocator())?;
    let put = put_category(&copy, number, exponent, out);
    drop(copy);
    put
}

fn copied(rules: &str, number: &str, exponent: &str, out: &mut String) -> Result<(), Stop> {
    let rules = rules_of(rules, out)?;
    let put = category_by_copy(&rules, number, exponent, out);
    drop(rules);
    put
}

/// The answer of a call that copies, writes JSON or reads it.
pub fn answer(call: &str, passed: &[&str], out: &mut String) -> Result<(), Stop> {
    match passed {
        [table] if call == "to_json" => to_json(table, out),
        [text] if call == "from_json" => from_json(text, out),
        [rules, number, exponent] if call == "category_by_copy" => {
            copied(rules, number, exponent, out)
        }
        _ => Err(Stop::Unknown),
    }
}
