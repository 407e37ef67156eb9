//! Answers of the calls of formatters. What a formatter borrows is made by functions that each own one of its tables
//! and lend it to the next.

use crate::marks::Marks;
use crate::plurals::rules_of;
use crate::refusals::{made, parsed};
use crate::tables::{LATIN, OneLocale, table_of};
use crate::{abstract_formatter, compact, typed};
use fixed_decimal::Decimal;
use icu_decimal::options::{
    CompactDecimalFormatterOptions, DecimalFormatterOptions, GroupingStrategy,
};
use icu_decimal::plurals::PluralRules;
use icu_decimal::preferences::{CompactDecimalFormatterPreferences, DecimalFormatterPreferences};
use icu_decimal::provider::{CompactPatterns, DecimalSymbols};
use icu_decimal::{CompactDecimalFormatter, DecimalFormatter};
use rows::{Stop, put_last};
use std::alloc::Global;

/// A call of a formatter: its name; what the formatter is made of, which is its form, when separators are written, its
/// plural rules, its table, and its symbols and digits where they are not those of English; and what the call is
/// passed.
#[derive(Clone, Copy)]
pub struct FormatterCall<'r> {
    pub name: &'r str,
    pub form: &'r str,
    pub grouping: &'r str,
    pub rules: &'r str,
    pub table: &'r str,
    pub marks: Option<Marks<'r>>,
    pub passed: &'r [&'r str],
}

/// When separators are written, by its word.
pub fn strategy_of(word: &str) -> Result<GroupingStrategy, Stop> {
    match word {
        "auto" => Ok(GroupingStrategy::Auto),
        "never" => Ok(GroupingStrategy::Never),
        "always" => Ok(GroupingStrategy::Always),
        "min2" => Ok(GroupingStrategy::Min2),
        "on-aligned" => Ok(GroupingStrategy::OnAligned),
        _ => Err(Stop::Unknown),
    }
}

// The plain formatter of a row.
fn plain_of<'p>(
    provider: &'p OneLocale<'_>,
    grouping: &str,
    out: &mut String,
) -> Result<DecimalFormatter<'p>, Stop> {
    let preferences = DecimalFormatterPreferences::default();
    let options = DecimalFormatterOptions::from(strategy_of(grouping)?);
    made(
        DecimalFormatter::try_new_unstable(provider, preferences, options),
        out,
    )
}

// The compact formatter of a row, made of its tables; it is made once more of the tables that it then has.
fn of_tables<'p>(
    provider: &'p OneLocale<'_>,
    grouping: &str,
    out: &mut String,
) -> Result<CompactDecimalFormatter<'p>, Stop> {
    let plain = plain_of(provider, grouping, out)?;
    let made = CompactDecimalFormatter::from_tables(plain, provider.rules, provider.patterns);
    Ok(CompactDecimalFormatter::from_tables(*made.plain(), made.rules(), made.patterns()))
}

// The compact formatter of a row.
fn compact_of<'p>(
    provider: &'p OneLocale<'_>,
    form: &str,
    grouping: &str,
    out: &mut String,
) -> Result<CompactDecimalFormatter<'p>, Stop> {
    let preferences = CompactDecimalFormatterPreferences::default();
    let options = CompactDecimalFormatterOptions::from(strategy_of(grouping)?);
    match form {
        "short" => made(
            CompactDecimalFormatter::try_new_short_unstable(provider, preferences, options),
            out,
        ),
        "long" => made(
            CompactDecimalFormatter::try_new_long_unstable(provider, preferences, options),
            out,
        ),
        "tables" => of_tables(provider, grouping, out),
        _ => Err(Stop::Unknown),
    }
}

// The text of a number by a plain formatter.
fn put_plain(formatter: &DecimalFormatter<'_>, number: &str, out: &mut String) -> Result<(), Stop> {
    let number = parsed(Decimal::try_from_str(*out.allocator(), number))?;
    let text = formatter.format_to_string(*out.allocator(), &number);
    drop(number);
    put_last(out, text?)
}

// The answer of a call of a plain formatter: its own, or one of any formatter.
fn by_plain(
    provider: &OneLocale<'_>,
    call: &FormatterCall<'_>,
    out: &mut String,
) -> Result<(), Stop> {
    let formatter = plain_of(provider, call.grouping, out)?;
    match call.passed {
        [number] if call.name == "plain" => put_plain(&formatter, number, out),
        [text] if call.name.starts_with("read_") => {
            typed::answer(&formatter, call.name, text, out)
        }
        passed => abstract_formatter::answer(&formatter, provider.rules, call.name, passed, out),
    }
}

// The answer of a call of a compact formatter: one of its own, or of any formatter.
fn by_compact(
    provider: &OneLocale<'_>,
    call: &FormatterCall<'_>,
    out: &mut String,
) -> Result<(), Stop> {
    let formatter = compact_of(provider, call.form, call.grouping, out)?;
    match call.passed {
        [one] if call.name != "plural_operands" => {
            compact::answer_of_one(&formatter, call.name, one, out)
        }
        [one, other] if call.name != "write_sign" && call.name != "elements" => {
            compact::answer_of_two(&formatter, call.name, one, other, out)
        }
        passed => abstract_formatter::answer(&formatter, provider.rules, call.name, passed, out),
    }
}

// The symbols of a call: those of English, or those that its row spells.
fn symbols_of(alloc: Global, marks: Option<Marks<'_>>) -> Result<DecimalSymbols, Stop> {
    match marks {
        Some(marks) => marks.symbols(alloc),
        None => Ok(DecimalSymbols::new_en_for_testing(alloc)?),
    }
}

// The digits of a call: Latin ones, or those that its row spells.
fn digits_of(marks: Option<Marks<'_>>) -> [char; 10] {
    match marks {
        Some(marks) => marks.digits,
        None => LATIN,
    }
}

// The answer of a call over these tables.
fn over_tables(
    provider: &OneLocale<'_>,
    call: &FormatterCall<'_>,
    out: &mut String,
) -> Result<(), Stop> {
    if call.form == "plain" {
        by_plain(provider, call, out)
    } else {
        by_compact(provider, call, out)
    }
}

// The answer of a call over these rules and patterns, and the symbols and digits of its row.
fn over_patterns(
    rules: &PluralRules,
    patterns: &CompactPatterns,
    call: &FormatterCall<'_>,
    out: &mut String,
) -> Result<(), Stop> {
    let symbols = symbols_of(*out.allocator(), call.marks)?;
    let provider = OneLocale {
        symbols: &symbols,
        digits: digits_of(call.marks),
        rules,
        patterns,
    };
    let answered = over_tables(&provider, call, out);
    drop(symbols);
    answered
}

// The answer of a call over these rules and the patterns of its row.
fn over_rules(rules: &PluralRules, call: &FormatterCall<'_>, out: &mut String) -> Result<(), Stop> {
    let patterns = table_of(call.table, None, out)?;
    let answered = over_patterns(rules, &patterns, call, out);
    drop(patterns);
    answered
}

/// The answer of a call of a formatter.
pub fn answer(call: &FormatterCall<'_>, out: &mut String) -> Result<(), Stop> {
    let rules = rules_of(call.rules, out)?;
    let answered = over_rules(&rules, call, out);
    drop(rules);
    answered
}
