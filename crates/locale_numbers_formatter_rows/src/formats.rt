//! The formats of rows, with the symbols and digits of English. What a formatter borrows is made by functions that each own
//! one of its tables and lend it to the next.

use crate::calls::Call;
use crate::{answers, scientific};
use icu_decimal::options::GroupingStrategy;
use icu_decimal::plurals::PluralRules;
use icu_decimal::provider::{CompactPatterns, DecimalSymbols};
use icu_decimal::{CompactDecimalFormatter, DecimalFormatter, DecimalTables};
use icu_dimension::provider::CurrencySymbol;
use icu_dimension::{
    CurrencyCode, CurrencyFormatter, Fraction, FractionIncrement, FractionInfo, LetterEnds,
    PercentFormatter, PercentSign, UnitAffixes, UnitPattern, UnitPatternError,
};
use locale_numbers_formats::{CompactWidth, Notation, NumberFormat, NumberOptions};
use locale_numbers_formatter::{CompactDigitsFormatter, NumberFormatter};
use rows::Stop;
use serde_json::Value;
use std::alloc::Global;

const LATIN: [char; 10] = ['0', '1', '2', '3', '4', '5', '6', '7', '8', '9'];

// Patterns of thousands and millions in short form and in long form, and one that is in place of the number.
const SHORT: &str = r#"[[3,3,[["other",["","K"]]]],[6,6,[["other",["","M"]]]]]"#;

const LONG: &str = r#"[[3,3,[["other",[""," thousand"]]]],[6,6,[["other",[""," million"]]]]]"#;

const WORD: &str = r#"[[3,3,[["other",["thousand"]]]]]"#;

// The affixes of these texts.
fn affixes_of(alloc: Global, before: &str, after: &str) -> Result<UnitAffixes, Stop> {
    match UnitAffixes::try_new(alloc, before, after) {
        Ok(affixes) => Ok(affixes),
        Err(UnitPatternError::Memory) => Err(Stop::Memory),
        Err(_) => Err(Stop::Unknown),
    }
}

// The answer of a call of plain numbers.
fn by_plain(decimals: DecimalTables<'_>, call: Call<'_>, out: &mut String) -> Result<(), Stop> {
    let formatter = NumberFormatter::from(DecimalFormatter::from(decimals));
    answers::answer(&formatter, call, out)
}

// The patterns of a JSON text.
fn patterns_of(alloc: Global, text: &str) -> Result<CompactPatterns, Stop> {
    let value = match Value::from_str(alloc, text) {
        Ok(value) => value,
        Err(_) => return Err(Stop::Unknown),
    };
    let patterns = CompactPatterns::from_json(alloc, &value);
    drop(value);
    match patterns {
        Ok(patterns) => Ok(patterns),
        Err(_) => Err(Stop::Unknown),
    }
}

// Compact numbers: their patterns, and the options of digits of their own.
#[derive(Clone, Copy)]
struct CompactFormat {
    patterns: &'static str,
    digits: Option<NumberOptions>,
}

// The formatter of compact numbers, with digits of their own or not.
fn with_digits(
    compact: CompactDecimalFormatter<'_>,
    digits: Option<NumberOptions>,
) -> NumberFormatter<'_> {
    match digits {
        Some(options) => NumberFormatter::from(CompactDigitsFormatter::new(compact, options)),
        None => NumberFormatter::from(compact),
    }
}

// The answer of a call of compact numbers with these rules.
fn by_rules(
    decimals: DecimalTables<'_>,
    rules: &PluralRules,
    format: CompactFormat,
    call: Call<'_>,
    out: &mut String,
) -> Result<(), Stop> {
    let patterns = patterns_of(*out.allocator(), format.patterns)?;
    let plain = DecimalFormatter::from(decimals);
    let compact = CompactDecimalFormatter::from_tables(plain, rules, &patterns);
    let answered = answers::answer(&with_digits(compact, format.digits), call, out);
    drop(patterns);
    answered
}

// The answer of a call of compact numbers, without plurals.
fn by_compact(
    decimals: DecimalTables<'_>,
    format: CompactFormat,
    call: Call<'_>,
    out: &mut String,
) -> Result<(), Stop> {
    let rules = match PluralRules::new(*out.allocator(), &[]) {
        Ok(rules) => rules,
        Err(_) => return Err(Stop::Memory),
    };
    let answered = by_rules(decimals, &rules, format, call, out);
    drop(rules);
    answered
}

// The answer of a call of compact numbers with these patterns, as their own rule rounds them.
fn by_patterns(
    decimals: DecimalTables<'_>,
    patterns: &'static str,
    call: Call<'_>,
    out: &mut String,
) -> Result<(), Stop> {
    let format = CompactFormat {
        patterns,
        digits: None,
    };
    by_compact(decimals, format, call, out)
}

// Compact numbers with digits of their own.
fn with_own_digits(width: CompactWidth, options: NumberOptions) -> CompactFormat {
    CompactFormat {
        patterns: match width {
            CompactWidth::Short => SHORT,
            CompactWidth::Long => LONG,
        },
        digits: Some(options),
    }
}

// The answer of a call of the numbers that a skeleton asks for: compact ones with digits of their own, or scientific ones.
fn by_skeleton(decimals: DecimalTables<'_>, call: Call<'_>, out: &mut String) -> Result<(), Stop> {
    let notation = match NumberFormat::try_from_str(call.format) {
        Ok(format) => format.shape.notation,
        Err(_) => return Err(Stop::Unknown),
    };
    match notation {
        Notation::CompactDigits(width, options) => {
            by_compact(decimals, with_own_digits(width, options), call, out)
        }
        Notation::Scientific(style, options) => {
            scientific::answer(decimals, style, options, call, out)
        }
        Notation::Standard | Notation::Compact(_) => Err(Stop::Unknown),
    }
}

// The answer of a call of percents.
fn by_percent(decimals: DecimalTables<'_>, call: Call<'_>, out: &mut String) -> Result<(), Stop> {
    let pattern = UnitPattern::new(affixes_of(*out.allocator(), "", "¤")?, None, None);
    let formatter = PercentFormatter::from_parts(decimals, &pattern, PercentSign::Percent, "%");
    let answered = answers::answer(&NumberFormatter::from(formatter), call, out);
    drop(pattern);
    answered
}

// Two digits, of which the last one is a multiple of one.
fn two_digits() -> FractionInfo {
    let standard = Fraction {
        digits: 2,
        increment: FractionIncrement::MultiplesOf1,
    };
    FractionInfo {
        standard,
        cash: standard,
    }
}

// The code that the format of a call is.
fn code_of(call: Call<'_>) -> Result<CurrencyCode, Stop> {
    match CurrencyCode::try_from_str(call.format) {
        Ok(code) => Ok(code),
        Err(_) => Err(Stop::Unknown),
    }
}

// The answer of a call of amounts with this pattern, in a currency with this symbol or none.
fn by_amount(
    decimals: DecimalTables<'_>,
    pattern: &UnitPattern,
    symbol: Option<&CurrencySymbol>,
    call: Call<'_>,
    out: &mut String,
) -> Result<(), Stop> {
    let code = code_of(call)?;
    let formatter = CurrencyFormatter::from_parts(decimals, pattern, symbol, code, two_digits());
    answers::answer(&NumberFormatter::of_amounts(&formatter), call, out)
}

// The answer of a call of amounts in euros, with this pattern.
fn by_symbol(
    decimals: DecimalTables<'_>,
    pattern: &UnitPattern,
    call: Call<'_>,
    out: &mut String,
) -> Result<(), Stop> {
    let symbol = CurrencySymbol {
        text: String::from_str(*out.allocator(), "€")?,
        ends: LetterEnds {
            first: false,
            last: false,
        },
    };
    let answered = by_amount(decimals, pattern, Some(&symbol), call, out);
    drop(symbol);
    answered
}

// The answer of a call of amounts in euros.
fn by_euros(decimals: DecimalTables<'_>, call: Call<'_>, out: &mut String) -> Result<(), Stop> {
    let pattern = UnitPattern::new(affixes_of(*out.allocator(), "¤", "")?, None, None);
    let answered = by_symbol(decimals, &pattern, call, out);
    drop(pattern);
    answered
}

// The pattern of amounts in Swiss German, where a minus has affixes of its own.
fn swiss(alloc: Global) -> Result<UnitPattern, Stop> {
    let unsigned = affixes_of(alloc, "¤\u{a0}", "")?;
    match affixes_of(alloc, "¤-", "") {
        Ok(minus) => Ok(UnitPattern::new(unsigned, Some(minus), None)),
        Err(stop) => {
            drop(unsigned);
            Err(stop)
        }
    }
}

// The answer of a call of amounts in francs.
fn by_francs(decimals: DecimalTables<'_>, call: Call<'_>, out: &mut String) -> Result<(), Stop> {
    let pattern = swiss(*out.allocator())?;
    let answered = by_amount(decimals, &pattern, None, call, out);
    drop(pattern);
    answered
}

/// The answer of a call of the formatter of a format.
pub fn answer(call: Call<'_>, out: &mut String) -> Result<(), Stop> {
    let symbols = DecimalSymbols::new_en_for_testing(*out.allocator())?;
    let decimals = DecimalTables::new(&symbols, &LATIN, GroupingStrategy::Auto);
    let answered = match call.format {
        "plain" => by_plain(decimals, call, out),
        "short" => by_patterns(decimals, SHORT, call, out),
        "word" => by_patterns(decimals, WORD, call, out),
        "percent" => by_percent(decimals, call, out),
        "EUR" => by_euros(decimals, call, out),
        "CHF" => by_francs(decimals, call, out),
        _ => by_skeleton(decimals, call, out),
    };
    drop(symbols);
    answered
}
