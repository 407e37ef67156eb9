//! What standard error is told.

ghost use Rattle.std.specs.Prelude.{◌≡◌};
ghost use Rattle.legumeyet.specs.CallFaults.{call_status};

use crate::fault::CallFault;
use crate::messages::{Shown, ShownBytes};
use clap::error::ErrorKind;
use icu_decimal_scientific::ScientificNotation;
use icu_plurals::PluralRuleType;
use legumeyet_columns::{FieldFault, LONGEST};
use legumeyet_options::{DigitWords, NotSaid, NumberWords, OptionFault};
use locale_numbers_formats::SkeletonError;
use locale_numbers_requests::Refusal;
use std::{fmt, io};

// What a refusal means.
fn meaning(refusal: Refusal) -> &'static str {
    match refusal {
        Refusal::Shape => "the text is not UTF-8",
        Refusal::Tag => "this is no locale tag, as de or pt-BR are",
        Refusal::Number => {
            "the text is no decimal number, as 1234.5 is; --read and --read-fields read what people type"
        }
        Refusal::Limit => "the number has a digit or an exponent beyond magnitudes -32768 to 32767",
        Refusal::Table => "the book has no tables for the tag",
        Refusal::Range => {
            "the value shown, or an exact form, reaches beyond magnitudes -32768 to 32767"
        }
        Refusal::Exponent => "numbers of this magnitude are shown with another exponent",
        Refusal::Unreadable => "two numbers may have one text under the tag's symbols",
        Refusal::NotWritten => "no number is written so under this tag and grouping",
    }
}

// Why nothing is said of a text, where `round` is the word of `--round`.
#[derive(Clone, Copy)]
struct Why<'a> {
    round: &'a str,
    why: NotSaid,
}

impl fmt::Display for Why<'_> {
    fn fmt<W: fmt::Write>(&self, f: &mut fmt::Formatter<W>) -> fmt::Result {
        let round = self.round;
        match self.why {
            NotSaid::Refused(refusal) => write!(f, "{}", meaning(refusal)),
            NotSaid::Coarse => write!(
                f,
                "--round {round} rounds left of the point, and the number has a fraction: --digits {round} shows so many digits of it, --round {round},half-even rounds it"
            ),
            NotSaid::Memory => write!(f, "out of memory"),
        }
    }
}

/// Tells that a number or a text is refused, and why: `legumeyet: abc (de): the text is no decimal number, ..`. `round` is the
/// word of `--round`.
pub fn tell_refused(rt: &HostRuntime, tag: &str, round: &str, text: &[u8], why: NotSaid) {
    let (text, tag, why) = (ShownBytes(text), Shown(tag), Why { round, why });
    let _ = eprintln!(rt; "legumeyet: {text} ({tag}): {why}");
}

/// Tells the same of the text of a field, with the number of its record.
pub fn tell_refused_field(
    rt: &HostRuntime,
    number: u64,
    index: usize,
    tag: &str,
    round: &str,
    text: &[u8],
    why: NotSaid,
) {
    let (text, tag, why) = (ShownBytes(text), Shown(tag), Why { round, why });
    let field = index.saturating_add(1);
    let _ = eprintln!(rt; "legumeyet: record {number}, field {field}: {text} ({tag}): {why}");
}

/// Tells that a field is refused for what is around its text.
pub fn tell_field(rt: &HostRuntime, number: u64, index: usize, fault: FieldFault) {
    let field = index.saturating_add(1);
    let why = match fault {
        FieldFault::Quotes => "a quote in front of it does not end where it ends",
        FieldFault::Delimiter => "its text has a delimiter, and nothing is in quotes",
    };
    let _ = eprintln!(rt; "legumeyet: record {number}, field {field}: {why}");
}

/// Tells that a record lacks a field.
pub fn tell_missing(rt: &HostRuntime, number: u64, index: usize) {
    let field = index.saturating_add(1);
    let _ = eprintln!(rt; "legumeyet: record {number}: there is no field {field}");
}

/// Tells that a quote in a record does not end.
pub fn tell_open(rt: &HostRuntime, number: u64) {
    let _ = eprintln!(rt; "legumeyet: record {number}: a quote does not end");
}

/// Tells that a quote in a record does not end within the bytes that are read for it, and returns the status.
pub fn tell_long(rt: &HostRuntime, number: u64) -> u8
    ensures status { result ≡ 1 }
{
    let _ = eprintln!(rt;
        "legumeyet: record {number}: a quote does not end within {LONGEST} bytes"
    );
    1
}

/// Tells that a word of `--field` is wrong, and returns the status.
pub fn tell_field_word(rt: &HostRuntime, word: &str, why: &str) -> u8
    ensures status { result ≡ 2 }
{
    let word = Shown(word);
    let _ = eprintln!(rt; "error: --field {word}: {why}");
    2
}

/// Tells that the skeleton of a word of `--field` is none, and returns the status.
pub fn tell_skeleton(rt: &HostRuntime, word: &str, error: SkeletonError) -> u8
    ensures status { result ≡ 2 }
{
    let word = Shown(word);
    let _ = eprintln!(rt; "error: --field {word}: {error}");
    2
}

/// Tells that a delimiter is none, and returns the status.
pub fn tell_delimiter(rt: &HostRuntime, word: &str) -> u8
    ensures status { result ≡ 2 }
{
    let word = Shown(word);
    let _ = eprintln!(rt;
        "error: --delimiter {word}: a delimiter is tab, or an ASCII character but the quote"
    );
    2
}

/// Tells that a padding is none, and returns the status.
pub fn tell_padding(rt: &HostRuntime, word: &str) -> u8
    ensures status { result ≡ 2 }
{
    let word = Shown(word);
    let _ = eprintln!(rt; "error: --padding {word}: a padding is a number from -65535 to 65535");
    2
}

/// Tells a fault, and returns its status. Where nobody reads standard output any more nothing is told.
pub fn tell_fault(rt: &HostRuntime, fault: &CallFault) -> u8
    ensures status { result ≡ call_status fault.now }
{
    if !is_unread(fault) {
        let _ = eprintln!(rt; "legumeyet: {fault}");
    }
    fault.status()
}

// Whether standard output is a pipe that nobody reads any more.
fn is_unread(fault: &CallFault) -> bool {
    match fault {
        CallFault::Write(error) => error.kind() == io::ErrorKind::BrokenPipe,
        _ => false,
    }
}

/// Tells what `clap` says of the words, on standard output for help and the version, and returns the status.
pub fn tell_usage(rt: &HostRuntime, error: &clap::Error) -> u8 {
    if error.kind() == ErrorKind::OutOfMemory {
        return tell_fault(rt, &CallFault::MEMORY);
    }
    match error.print(rt) {
        Err(cause) => tell_fault(rt, &CallFault::Write(cause)),
        Ok(()) if error.use_stderr() => 2,
        Ok(()) => 0,
    }
}

/// Tells that a word is no text, and returns the status.
pub fn tell_words(rt: &HostRuntime) -> u8
    ensures status { result ≡ 2 }
{
    let _ = eprintln!(rt; "error: a word is not UTF-8");
    2
}

/// Tells that a capacity is not one, and returns the status.
pub fn tell_capacity(rt: &HostRuntime, capacity: &str) -> u8
    ensures status { result ≡ 2 }
{
    let capacity = Shown(capacity);
    let _ = eprintln!(rt;
        "error: invalid value '{capacity}' for '--capacity <N>': a capacity is one to five digits, from 1 to 65535"
    );
    2
}

// The name of the option of digits that is given.
fn name_of_digits(words: &DigitWords<'_>) -> &'static str {
    if words.is_in_cash {
        "--cash"
    } else if words.round.is_some() {
        "--round"
    } else if words.digits.is_some() {
        "--digits"
    } else if words.max_digits.is_some() {
        "--max-digits"
    } else if words.min_digits.is_some() {
        "--min-digits"
    } else {
        "--significant"
    }
}

// The name of the option of categories that is given.
fn name_of_categories(words: &NumberWords<'_>) -> &'static str {
    match words.rule_type {
        Some(PluralRuleType::Ordinal) => "--ordinal",
        Some(PluralRuleType::Cardinal) | None => "--plural",
    }
}

// The option by which numbers are in scientific notation.
fn name_of_notation(words: &NumberWords<'_>) -> &'static str {
    match words.scientific {
        Some(ScientificNotation::Scientific) => "--scientific",
        Some(ScientificNotation::Engineering) => "--engineering",
        None => "--format",
    }
}

// Tells that a word of an option is wrong, and why.
fn tell_word(rt: &HostRuntime, option: &str, said: Option<&str>, why: &str) {
    let said = Shown(said.unwrap_or(""));
    let _ = eprintln!(rt; "error: {option} {said}: {why}");
}

// Tells that a form takes no such option, and why.
fn tell_form(rt: &HostRuntime, words: &NumberWords<'_>, option: &str, why: &str) {
    let form = Shown(words.form.unwrap_or(""));
    let _ = eprintln!(rt; "error: --form {form} takes no {option}: {why}");
}

/// Why scientific texts are refused.
pub const UNREAD: &str = "texts in scientific notation are not read as people type them";

const COARSE: &str =
    "significands are rounded left of the point only with a mode, as in 2,half-even; --digits 2 shows two digits after it";

const COUNT: &str = "a count of digits is a number from 0 to 32767";

const SIGNIFICANT: &str =
    "significant digits are a number from 1 to 65535, or two with a minus between, as 1-3, of which the second is not below the first";

const ROUNDING: &str =
    "a rounding is a position from -32768 to 32767, then, where given, a mode and an increment, as -2,half-even,5: 1, 2, 5 or 25, or one of these with zeros up to 5000 behind a position from -32767, where its multiples are at most at 32767";

/// Tells which of the options that are given is wrong, and returns the status.
pub fn tell_option(rt: &HostRuntime, words: &NumberWords<'_>, fault: OptionFault) -> u8
    ensures status { result ≡ 2 }
{
    match fault {
        OptionFault::Form => tell_word(rt, "--form", words.form, "this is no form"),
        OptionFault::Format(error) => {
            let skeleton = Shown(words.format.unwrap_or(""));
            let _ = eprintln!(rt; "error: --format {skeleton}: {error}");
        }
        OptionFault::Code => tell_word(
            rt,
            "--currency",
            words.currency,
            "the code of a currency is three capitals, as EUR",
        ),
        OptionFault::Grouping => {
            tell_word(rt, "--grouping", words.grouping, "this is no grouping")
        }
        OptionFault::Sign => tell_word(rt, "--sign", words.sign, "this is no sign"),
        OptionFault::Round => tell_word(rt, "--round", words.chosen.round, ROUNDING),
        OptionFault::Digits => tell_word(rt, "--digits", words.chosen.digits, COUNT),
        OptionFault::MaxDigits => tell_word(rt, "--max-digits", words.chosen.max_digits, COUNT),
        OptionFault::MinDigits => tell_word(rt, "--min-digits", words.chosen.min_digits, COUNT),
        OptionFault::Counts => {
            let (least, most) = (
                Shown(words.chosen.min_digits.unwrap_or("")),
                Shown(words.chosen.max_digits.unwrap_or("")),
            );
            let _ = eprintln!(rt; "error: --min-digits {least} is above --max-digits {most}");
        }
        OptionFault::Significant => {
            tell_word(rt, "--significant", words.chosen.significant, SIGNIFICANT)
        }
        OptionFault::Priority => {
            tell_word(
                rt,
                "--priority",
                words.chosen.priority,
                "it is more or less, beside --significant",
            )
        }
        OptionFault::NoPriority => {
            let option = name_of_digits(&words.chosen);
            let _ = eprintln!(rt;
                "error: --significant beside {option} needs --priority more or less"
            );
        }
        OptionFault::NoFraction => {
            let _ = eprintln!(rt;
                "error: --priority needs --digits or --max-digits beside --significant"
            );
        }
        OptionFault::DigitsOfExact => tell_form(
            rt,
            words,
            name_of_digits(&words.chosen),
            "exact forms show the digits that they are given",
        ),
        OptionFault::SignOfRead => tell_form(
            rt,
            words,
            "--sign",
            "a number that is read has the sign of its text",
        ),
        OptionFault::DigitsOfRead => tell_form(
            rt,
            words,
            name_of_digits(&words.chosen),
            "a number that is read has the digits of its text",
        ),
        OptionFault::Coarse => tell_word(rt, "--round", words.chosen.round, COARSE),
        OptionFault::Scientific => {
            let option = name_of_notation(words);
            let _ = eprintln!(rt; "error: {option} takes no --read, but --read-exact: {UNREAD}");
        }
        OptionFault::Categories => tell_form(
            rt,
            words,
            name_of_categories(words),
            "plural categories are for numbers that are written, and not by exact forms",
        ),
    }
    2
}

/// Tells that a form has no parts, and returns the status.
pub fn tell_parts(rt: &HostRuntime, form: &str) -> u8
    ensures status { result ≡ 2 }
{
    let _ = eprintln!(rt;
        "error: --form {form} --parts: parts are for plain, short and long, --scientific, --engineering, --currency, --percent and --permille"
    );
    2
}
