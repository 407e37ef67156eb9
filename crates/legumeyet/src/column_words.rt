//! What the words ask of the fields of a table.

use crate::asking::{PartsNeeded, invalid_of, parts_of, word};
use crate::report::{UNREAD, tell_delimiter, tell_field_word, tell_padding, tell_skeleton};
use clap::ArgMatches;
use icu_plurals::PluralRuleType;
use legumeyet_columns::{Dialect, OnRefusal, Padding, TableAsked};
use legumeyet_options::{DigitWords, Invalid, NumberWords, NumbersAsked, OptionFault};
use locale_numbers_requests::Task;

/// Why a word of `--field` is wrong whose field another one chooses.
pub const TWICE: &str = "the field is chosen already";

/// A word of `--field`: the number or the name of a field, and the format that it has of its own.
#[derive(Clone, Copy)]
pub struct FieldWord<'a> {
    pub name: &'a str,
    /// By which rules the plural category of each number is asked for.
    pub rule_type: Option<PluralRuleType>,
    pub skeleton: Option<&'a str>,
}

// A text that is not empty.
fn if_some(text: &str) -> Option<&str> {
    if text.is_empty() { None } else { Some(text) }
}

// What stands in front of the colons of a format, and the skeleton behind them.
fn cut_format(format: &str) -> (&str, Option<&str>) {
    match format.split_once("::") {
        Some((front, skeleton)) => (front, if_some(skeleton)),
        None => (format, None),
    }
}

// A field with its format: a skeleton, or `plural` or `ordinal` with a skeleton behind two colons or none.
fn field_with<'a>(name: &'a str, format: &'a str) -> FieldWord<'a> {
    let (front, skeleton) = cut_format(format);
    match front {
        "plural" => FieldWord {
            name,
            rule_type: Some(PluralRuleType::Cardinal),
            skeleton,
        },
        "ordinal" => FieldWord {
            name,
            rule_type: Some(PluralRuleType::Ordinal),
            skeleton,
        },
        _ => FieldWord {
            name,
            rule_type: None,
            skeleton: if_some(format),
        },
    }
}

/// What a word of `--field` is: `share` and `percent` of `share=percent`. An empty format is none.
pub fn field_said(word: &str) -> FieldWord<'_> {
    match word.rsplit_once('=') {
        Some((name, format)) => field_with(name, format),
        None => field_with(word, ""),
    }
}

/// Whether a field is chosen by its name, and not by a number.
pub fn is_named(field: &FieldWord<'_>) -> bool {
    field.name.is_empty() || !field.name.bytes().all(|byte| byte.is_ascii_digit())
}

/// The index, from 0 on, of a field that is chosen by a number; `None` of 0, and of a number that no record has.
pub fn index_said(field: &FieldWord<'_>) -> Option<usize> {
    match field.name.parse::<usize>() {
        Ok(number) => number.checked_sub(1),
        Err(_) => None,
    }
}

// Whether two words choose a field by the same number, or by the same name.
fn is_same(one: &FieldWord<'_>, other: &FieldWord<'_>) -> bool {
    if is_named(one) || is_named(other) {
        return one.name == other.name;
    }
    index_said(one) == index_said(other)
}

// Whether a field is chosen by one of these words.
fn is_among(words: &[&str], field: &FieldWord<'_>) -> bool {
    words.iter().any(|word| is_same(&field_said(word), field))
}

// What a skeleton asks of numbers.
fn numbers_by(skeleton: &str) -> Result<NumbersAsked, OptionFault> {
    let words = NumberWords {
        form: None,
        format: Some(skeleton),
        scientific: None,
        currency: None,
        is_accounting: false,
        is_by_code: false,
        percent: None,
        grouping: None,
        sign: None,
        chosen: DigitWords {
            is_in_cash: false,
            round: None,
            digits: None,
            max_digits: None,
            min_digits: None,
            significant: None,
            priority: None,
        },
        rule_type: None,
    };
    words.asked()
}

// The same numbers, of which plural categories by these rules are asked for.
fn categories_by(
    asked: &NumbersAsked,
    rule_type: PluralRuleType,
) -> Result<NumbersAsked, OptionFault> {
    match asked.task {
        Task::Category(_) => Ok(NumbersAsked {
            task: Task::Category(rule_type),
            format: asked.format,
            is_coarse: asked.is_coarse,
        }),
        Task::Write | Task::WriteExact | Task::Read | Task::ReadLenient | Task::RangeCategory => {
            asked.categories(rule_type)
        }
    }
}

// The same, where they are asked for.
fn with_rules(
    asked: &NumbersAsked,
    rule_type: Option<PluralRuleType>,
) -> Result<NumbersAsked, OptionFault> {
    match rule_type {
        None => Ok(*asked),
        Some(rule_type) => categories_by(asked, rule_type),
    }
}

// The format of a field: that of the options, or its own.
fn format_of(numbers: &NumbersAsked, field: &FieldWord<'_>) -> Result<NumbersAsked, OptionFault> {
    match field.skeleton {
        None => with_rules(numbers, field.rule_type),
        Some(skeleton) => match numbers_by(skeleton) {
            Ok(asked) => with_rules(&asked, field.rule_type),
            Err(fault) => Err(fault),
        },
    }
}

// What is asked of numbers in a format, where that of the options is this: they are read, or their plural categories are
// asked for.
fn as_options_say(task: Task, asked: &NumbersAsked) -> Result<NumbersAsked, OptionFault> {
    match task {
        Task::Read | Task::ReadLenient => reading_of(asked, task),
        Task::Category(rule_type) if asked.task == Task::Write => asked.categories(rule_type),
        Task::Write | Task::WriteExact | Task::Category(_) | Task::RangeCategory => Ok(*asked),
    }
}

/// What is asked of the numbers of a field, where its format is one: what the options say, or the format of its own; and
/// that they are read, or that their plural categories are asked for, where the options say so.
pub fn numbers_of(
    matches: &ArgMatches<'_>,
    numbers: &NumbersAsked,
    field: &FieldWord<'_>,
) -> Result<NumbersAsked, OptionFault> {
    let task = if matches.get_flag("read-fields") {
        Task::ReadLenient
    } else {
        numbers.task
    };
    match format_of(numbers, field) {
        Ok(asked) => as_options_say(task, &asked),
        Err(fault) => Err(fault),
    }
}

// The same of texts that are read, which have no plural categories.
fn reading_of(asked: &NumbersAsked, task: Task) -> Result<NumbersAsked, OptionFault> {
    match asked.task {
        Task::Category(_) | Task::RangeCategory => Err(OptionFault::Categories),
        Task::Write | Task::WriteExact | Task::Read | Task::ReadLenient => asked.reading(task),
    }
}

/// Which parts of a book are asked for, beside the tables of numbers: by the options, and by the formats of fields.
pub fn parts_needed(matches: &ArgMatches<'_>, numbers: &NumbersAsked) -> PartsNeeded {
    let mut needed = parts_of(numbers);
    let Some(words) = matches.get_strs("field") else {
        return needed;
    };
    for word in words {
        if let Ok(asked) = numbers_of(matches, numbers, &field_said(word)) {
            needed = needed.with(parts_of(&asked));
        }
    }
    needed
}

// The dialect that a word of `--delimiter` says: a tab is without quotes.
fn dialect_said(word: &str) -> Option<Dialect> {
    match word.as_bytes() {
        b"tab" | b"\t" => Some(Dialect {
            delimiter: b'\t',
            has_quotes: false,
        }),
        [b'"' | b'\n' | b'\r'] => None,
        [byte] => Some(Dialect {
            delimiter: *byte,
            has_quotes: true,
        }),
        _ => None,
    }
}

// The padding that a word of `--padding` says.
fn padding_said(word: &str) -> Option<Padding> {
    let (digits, is_behind) = match word.strip_prefix('-') {
        Some(digits) => (digits, true),
        None => (word, false),
    };
    match digits.parse::<u16>() {
        Ok(width) => Some(Padding {
            width: usize::from(width),
            is_behind,
        }),
        Err(_) => None,
    }
}

// What is written where a field is refused.
fn on_refusal(invalid: Invalid) -> OnRefusal {
    match invalid {
        Invalid::Empty => OnRefusal::Empty,
        Invalid::Keep => OnRefusal::Keep,
        Invalid::Skip => OnRefusal::Skip,
        Invalid::Abort => OnRefusal::Abort,
    }
}

/// What is asked of the table, where the words say it.
pub fn table_said(matches: &ArgMatches<'_>) -> Option<TableAsked> {
    let dialect = dialect_said(word(matches, "delimiter", ","))?;
    let padding = padding_said(word(matches, "padding", "0"))?;
    Some(TableAsked {
        dialect,
        on_refusal: on_refusal(invalid_of(matches, Invalid::Keep)),
        padding,
    })
}

// Why a field has no plural categories.
const CATEGORIES: &str =
    "plural categories are for numbers that are written, and not by exact forms";

// Tells what is wrong with a word of `--field` after others, and returns the status.
fn tell_wrong_field(
    rt: &HostRuntime,
    matches: &ArgMatches<'_>,
    numbers: &NumbersAsked,
    others: &[&str],
    word: &str,
) -> Option<u8> {
    let field = field_said(word);
    if is_among(others, &field) {
        return Some(tell_field_word(rt, word, TWICE));
    }
    if !is_named(&field) && index_said(&field).is_none() {
        return Some(tell_field_word(rt, word, "the number of a field is from 1 on"));
    }
    match numbers_of(matches, numbers, &field) {
        Ok(_) => None,
        Err(OptionFault::Format(error)) => Some(tell_skeleton(rt, word, error)),
        Err(OptionFault::Categories) => Some(tell_field_word(rt, word, CATEGORIES)),
        Err(OptionFault::Scientific) => Some(tell_field_word(rt, word, UNREAD)),
        Err(_) => Some(tell_field_word(rt, word, "this is no skeleton")),
    }
}

/// Tells which of the words that ask for the fields of a table is wrong, where one is, and returns the status.
pub fn tell_wrong_table(
    rt: &HostRuntime,
    matches: &ArgMatches<'_>,
    numbers: &NumbersAsked,
) -> Option<u8> {
    let delimiter = word(matches, "delimiter", ",");
    if dialect_said(delimiter).is_none() {
        return Some(tell_delimiter(rt, delimiter));
    }
    let padding = word(matches, "padding", "0");
    if padding_said(padding).is_none() {
        return Some(tell_padding(rt, padding));
    }
    let words = matches.get_strs("field")?;
    for (index, word) in words.iter().enumerate() {
        let told = tell_wrong_field(rt, matches, numbers, &words[..index], word);
        if told.is_some() {
            return told;
        }
    }
    None
}
