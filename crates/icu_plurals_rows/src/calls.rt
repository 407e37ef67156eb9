//! Which call a row asks for, and its answer.

use crate::given::{operands_by, operands_of, ranges_of, rules_of};
use icu_plurals::{PluralRange, PluralRules, PluralRulesWithRanges};
use rows::{Stop, Table, put_after, put_text};
use std::alloc::Global;

/// The table of the calls of `icu_plurals`.
#[derive(Clone, Copy)]
pub struct Calls {
    pub alloc: Global,
}

impl Table for Calls {
    fn answer(&self, row: &str, out: &mut String) -> Result<(), Stop> {
        let fields: Vec<&str> = row.split('\t').collect(self.alloc)?;
        let answered = answer(fields.as_slice(), out);
        drop(fields);
        answered
    }
}

// The answer of a row: a call, rules, and what else the call is passed.
fn answer(fields: &[&str], out: &mut String) -> Result<(), Stop> {
    let [call, rules, passed @ ..] = fields else {
        return Err(Stop::Unknown);
    };
    let rules = rules_of(rules, out)?;
    let answered = answer_by(call, &rules, passed, out);
    drop(rules);
    answered
}

// The answer of a call of these rules.
fn answer_by(
    call: &str,
    rules: &PluralRules,
    passed: &[&str],
    out: &mut String,
) -> Result<(), Stop> {
    match call {
        "category" => put_category(rules, passed, out),
        "digits" => put_by_digits(rules, passed, out),
        "categories" => put_categories(rules, out),
        "range" => put_range_of(rules, passed, out),
        _ => Err(Stop::Unknown),
    }
}

// Writes the category of a number with an exponent.
fn put_category(rules: &PluralRules, passed: &[&str], out: &mut String) -> Result<(), Stop> {
    let [number, exponent] = passed else {
        return Err(Stop::Unknown);
    };
    let operands = operands_of(*out.allocator(), number, exponent)?;
    put_text(out, rules.category_for(&operands).as_str())
}

// Writes the category of a number by its digits.
fn put_by_digits(rules: &PluralRules, passed: &[&str], out: &mut String) -> Result<(), Stop> {
    let [i, f, v] = passed else {
        return Err(Stop::Unknown);
    };
    let operands = operands_by(i, f, v)?;
    put_text(out, rules.category_for(&operands).as_str())
}

// Writes the categories that numbers may have.
fn put_categories(rules: &PluralRules, out: &mut String) -> Result<(), Stop> {
    for category in rules.categories() {
        put_after(out, " ", category.as_str())?;
    }
    Ok(())
}

// Writes the category of a range of two numbers.
fn put_range(
    rules: &PluralRules,
    ranges: &[PluralRange],
    start: &str,
    end: &str,
    out: &mut String,
) -> Result<(), Stop> {
    let alloc = *out.allocator();
    let rules = PluralRulesWithRanges { rules, ranges };
    let start = operands_of(alloc, start, "0")?;
    let end = operands_of(alloc, end, "0")?;
    put_text(out, rules.category_for_range(&start, &end).as_str())
}

// The same, of ranges that a field says.
fn put_range_of(rules: &PluralRules, passed: &[&str], out: &mut String) -> Result<(), Stop> {
    let [ranges, start, end] = passed else {
        return Err(Stop::Unknown);
    };
    let ranges = ranges_of(*out.allocator(), ranges)?;
    let put = put_range(rules, ranges.as_slice(), start, end, out);
    drop(ranges);
    put
}
