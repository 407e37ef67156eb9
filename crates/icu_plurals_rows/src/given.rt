//! Rules, ranges and numbers in the fields of a row.

use fixed_decimal::Decimal;
use icu_plurals::{PluralCategory, PluralOperands, PluralRange, PluralRules};
use rows::{Stop, filled, number_of, push, refused};
use std::alloc::Global;

// The category of a word.
fn category_of(word: &str) -> Result<PluralCategory, Stop> {
    match PluralCategory::get_for_cldr_bytes(word.as_bytes()) {
        Some(category) => Ok(category),
        None => Err(Stop::Unknown),
    }
}

// The category and the condition of a part of rules.
fn rule_of(part: &str) -> Result<(PluralCategory, &str), Stop> {
    match part.split_once(':') {
        Some((word, condition)) => Ok((category_of(word)?, condition)),
        None => Err(Stop::Unknown),
    }
}

// Puts the parts of a text to the others.
fn put_rules<'t>(given: &mut Vec<(PluralCategory, &'t str)>, text: &'t str) -> Result<(), Stop> {
    if text.is_empty() {
        return Ok(());
    }
    for part in text.split(';') {
        push(given, rule_of(part)?)?;
    }
    Ok(())
}

// The categories of a text, each with its condition.
fn conditions_of<'t>(alloc: Global, text: &'t str) -> Result<Vec<(PluralCategory, &'t str)>, Stop> {
    let mut given = Vec::new(alloc);
    let put = put_rules(&mut given, text);
    filled(given, put)
}

/// The rules of a text: parts with semicolons between, each a category, a colon and a condition. The words of a refusal
/// are the answer.
pub fn rules_of(text: &str, out: &mut String) -> Result<PluralRules, Stop> {
    let alloc = *out.allocator();
    let given = conditions_of(alloc, text)?;
    let rules = PluralRules::new(alloc, given.as_slice());
    drop(given);
    match rules {
        Ok(rules) => Ok(rules),
        Err(refusal) => Err(refused(out, &refusal)),
    }
}

// The range of a part: three words.
fn range_of(part: &str) -> Result<PluralRange, Stop> {
    let Some((start, rest)) = part.split_once(' ') else {
        return Err(Stop::Unknown);
    };
    let Some((end, result)) = rest.split_once(' ') else {
        return Err(Stop::Unknown);
    };
    Ok(PluralRange {
        start: category_of(start)?,
        end: category_of(end)?,
        result: category_of(result)?,
    })
}

// Puts the parts of a text to the others.
fn put_ranges(given: &mut Vec<PluralRange>, text: &str) -> Result<(), Stop> {
    if text.is_empty() {
        return Ok(());
    }
    for part in text.split(';') {
        push(given, range_of(part)?)?;
    }
    Ok(())
}

/// The ranges of a text: parts with semicolons between, each three categories.
pub fn ranges_of(alloc: Global, text: &str) -> Result<Vec<PluralRange>, Stop> {
    let mut given = Vec::new(alloc);
    let put = put_ranges(&mut given, text);
    filled(given, put)
}

/// The operands of a number without its sign, and an exponent.
pub fn operands_of(alloc: Global, number: &str, exponent: &str) -> Result<PluralOperands, Stop> {
    let exponent = number_of(exponent)?;
    match Decimal::try_from_str(alloc, number) {
        Ok(number) => {
            let operands = PluralOperands::from_significand_and_exponent(
                &number.absolute,
                exponent,
            );
            drop(number);
            Ok(operands)
        }
        Err(_) => Err(Stop::Unknown),
    }
}

/// The operands of a number by its digits before and after the point, each a number, and how many these are.
pub fn operands_by(i: &str, f: &str, v: &str) -> Result<PluralOperands, Stop> {
    Ok(PluralOperands::from_digits(number_of(i)?, number_of(f)?, number_of(v)?))
}
