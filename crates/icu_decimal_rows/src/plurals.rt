//! Answers of the calls of plural rules.

use crate::refusals::{made, parsed};
use fixed_decimal::UnsignedDecimal;
use icu_decimal::plurals::{PluralCategory, PluralOperands, PluralRules};
use rows::{Stop, filled, number_of, push, put, put_debug, put_text};
use std::alloc::Global;

// The category and the condition of a part of rules.
fn rule_of(part: &str) -> Result<(PluralCategory, &str), Stop> {
    let Some((word, condition)) = part.split_once(':') else {
        return Err(Stop::Unknown);
    };
    match PluralCategory::get_for_cldr_bytes(word.as_bytes()) {
        Some(category) => Ok((category, condition)),
        None => Err(Stop::Unknown),
    }
}

// Puts the parts of a text to the others.
fn put_rules<'t>(given: &mut Vec<(PluralCategory, &'t str)>, text: &'t str) -> Result<(), Stop> {
    if text.is_empty() {
        return Ok(());
    }
    for part in text.split(';') {
        push(given, rule_of(part)?)?;
    }
    Ok(())
}

// The categories of a text, each with its condition.
fn given_of<'t>(alloc: Global, text: &'t str) -> Result<Vec<(PluralCategory, &'t str)>, Stop> {
    let mut given = Vec::new(alloc);
    let put = put_rules(&mut given, text);
    filled(given, put)
}

/// The rules of a text: parts with semicolons between, each a category, a colon and a condition. The words of a refusal
/// are the answer.
pub fn rules_of(text: &str, out: &mut String) -> Result<PluralRules, Stop> {
    let alloc = *out.allocator();
    let given = given_of(alloc, text)?;
    let rules = PluralRules::new(alloc, given.as_slice());
    drop(given);
    made(rules, out)
}

// The operands of a number and an exponent.
fn operands_of(alloc: Global, number: &str, exponent: &str) -> Result<PluralOperands, Stop> {
    let exponent = number_of(exponent)?;
    let number = parsed(UnsignedDecimal::try_from_str(alloc, number))?;
    let operands = PluralOperands::from_significand_and_exponent(&number, exponent);
    drop(number);
    Ok(operands)
}

/// Writes the category of a number with an exponent, by these rules.
pub fn put_category(
    rules: &PluralRules,
    number: &str,
    exponent: &str,
    out: &mut String,
) -> Result<(), Stop> {
    let operands = operands_of(*out.allocator(), number, exponent)?;
    put_text(out, rules.category_for(&operands).as_str())
}

fn category(rules: &str, number: &str, exponent: &str, out: &mut String) -> Result<(), Stop> {
    let rules = rules_of(rules, out)?;
    let put = put_category(&rules, number, exponent, out);
    drop(rules);
    put
}

// Whether these are rules.
fn rules(text: &str, out: &mut String) -> Result<(), Stop> {
    drop(rules_of(text, out)?);
    put_text(out, "accepted")
}

// The operands of a number with an exponent.
fn operands(number: &str, exponent: &str, out: &mut String) -> Result<(), Stop> {
    let operands = operands_of(*out.allocator(), number, exponent)?;
    put_debug(out, &operands)
}

// Whether a number with an exponent is this number, shown as it is.
fn is_exactly(number: &str, exponent: &str, asked: &str, out: &mut String) -> Result<(), Stop> {
    let operands = operands_of(*out.allocator(), number, exponent)?;
    put(out, &operands.is_exactly(number_of(asked)?))
}

// The category that a word names, by its own word.
fn named(word: &str, out: &mut String) -> Result<(), Stop> {
    match PluralCategory::get_for_cldr_bytes(word.as_bytes()) {
        Some(category) => put_text(out, category.as_str()),
        None => put_text(out, "none"),
    }
}

/// The answer of a call of plural rules.
pub fn answer(call: &str, passed: &[&str], out: &mut String) -> Result<(), Stop> {
    match passed {
        [text] if call == "rules" => rules(text, out),
        [word] if call == "get_for_cldr_bytes" => named(word, out),
        [number, exponent] if call == "operands" => operands(number, exponent, out),
        [rules, number, exponent] if call == "category" => category(rules, number, exponent, out),
        [number, exponent, asked] if call == "is_exactly" => {
            is_exactly(number, exponent, asked, out)
        }
        _ => Err(Stop::Unknown),
    }
}
