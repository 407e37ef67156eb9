//! What the words ask of numbers, and what is written for refused ones.

ghost use Rattle.std.specs.Prelude.{◌≡◌, codes, option_map};
ghost use Rattle.clap.specs.Matches.{first_value, found_of};
ghost use Rattle.legumeyet.specs.Asking.{DigitsIn, NumbersIn, asks_more, asks_plurals, asks_signs, has_unit, invalid_by, word_by, without_dash};

use clap::ArgMatches;
use icu_decimal_scientific::ScientificNotation;
use icu_dimension_fractions::PercentSign;
use icu_plurals::PluralRuleType;
use legumeyet_options::{DigitWords, Invalid, NumberWords, NumbersAsked};
use locale_numbers_formats::{Notation, NumberUnit};
use locale_numbers_requests::Task;

/// A word of an option, or another where it has none.
pub fn word<'a>(matches: &ArgMatches<'a>, id: &str, other: &'static str) -> &'a str
    ensures value { result.now ≡ word_by (first_value (found_of matches.now) id.now) other.now }
{
    match matches.get_str(id) {
        Some(text) => text,
        None => other,
    }
}

/// What is written for what is refused, where the words say it, else another.
pub fn invalid_of(matches: &ArgMatches<'_>, other: Invalid) -> Invalid
    ensures value { result ≡ invalid_by (first_value (found_of matches.now) (codes "invalid")) other }
{
    match matches.get_str("invalid") {
        Some(word) => Invalid::named(word).unwrap_or(other),
        None => other,
    }
}

// The word of `--round`; a dash says none.
fn round_of<'a>(matches: &ArgMatches<'a>) -> Option<&'a str>
    ensures value { option_map (λ word. word.now) result
        ≡ without_dash (first_value (found_of matches.now) (codes "round")) }
{
    match matches.get_str("round") {
        Some("-") => None,
        other => other,
    }
}

// Which exponents scientific numbers have, where they are asked for.
fn scientific_of(matches: &ArgMatches<'_>) -> Option<ScientificNotation> {
    if matches.get_flag("scientific") {
        Some(ScientificNotation::Scientific)
    } else if matches.get_flag("engineering") {
        Some(ScientificNotation::Engineering)
    } else {
        None
    }
}

// With which sign percents are asked for.
fn percent_of(matches: &ArgMatches<'_>) -> Option<PercentSign> {
    if matches.get_flag("percent") {
        Some(PercentSign::Percent)
    } else if matches.get_flag("permille") {
        Some(PercentSign::Permille)
    } else {
        None
    }
}

// By which rules the plural category of each number is asked for.
fn rule_type_of(matches: &ArgMatches<'_>) -> Option<PluralRuleType> {
    if matches.get_flag("plural") {
        Some(PluralRuleType::Cardinal)
    } else if matches.get_flag("ordinal") {
        Some(PluralRuleType::Ordinal)
    } else {
        None
    }
}

// The words of the options of digits.
fn digits_of<'a>(matches: &ArgMatches<'a>) -> DigitWords<'a>
    ensures words { DigitsIn (found_of matches.now) result }
{
    DigitWords {
        is_in_cash: matches.get_flag("cash"),
        round: round_of(matches),
        digits: matches.get_str("digits"),
        max_digits: matches.get_str("max-digits"),
        min_digits: matches.get_str("min-digits"),
        significant: matches.get_str("significant"),
        priority: matches.get_str("priority"),
    }
}

/// The words of the options that say how numbers are written.
pub fn words_of<'a>(matches: &ArgMatches<'a>) -> NumberWords<'a>
    ensures words { NumbersIn (found_of matches.now) result }
    ensures digits { DigitsIn (found_of matches.now) result.chosen }
{
    NumberWords {
        form: matches.get_str("form"),
        format: matches.get_str("format"),
        scientific: scientific_of(matches),
        currency: matches.get_str("currency"),
        is_accounting: matches.get_flag("accounting"),
        is_by_code: matches.get_flag("code"),
        percent: percent_of(matches),
        grouping: matches.get_str("grouping"),
        sign: matches.get_str("sign"),
        chosen: digits_of(matches),
        rule_type: rule_type_of(matches),
    }
}

// Whether numbers have a unit.
fn has_unit(asked: &NumbersAsked) -> bool
    ensures value { result ≡ has_unit asked.now.format.shape.unit }
{
    match asked.format.shape.unit {
        NumberUnit::None => false,
        NumberUnit::Percent(_) | NumberUnit::Currency(_) => true,
    }
}

// Whether ordinal rules are asked for, or the categories of ranges.
fn asks_plurals(task: Task) -> bool
    ensures value { result ≡ asks_plurals task }
{
    match task {
        Task::Category(PluralRuleType::Ordinal) | Task::RangeCategory => true,
        Task::Category(PluralRuleType::Cardinal)
        | Task::Write
        | Task::WriteExact
        | Task::Read
        | Task::ReadLenient => false,
    }
}

// Whether the text before exponents is asked for.
fn asks_signs(notation: Notation) -> bool
    ensures value { result ≡ asks_signs notation }
{
    match notation {
        Notation::Scientific(_, _) => true,
        Notation::Standard | Notation::Compact(_) | Notation::CompactDigits(_, _) => false,
    }
}

// Whether one of these is.
fn asks_more(asked: &NumbersAsked) -> bool
    ensures value { result ≡ asks_more asked.now }
{
    asks_plurals(asked.task) || asks_signs(asked.format.shape.notation)
}

/// Which parts of a book are asked for, beside the tables of numbers.
#[derive(Clone, Copy)]
pub struct PartsNeeded {
    /// Those of units.
    pub units: bool,
    /// Those of more: ordinal rules, the categories of ranges, and signs.
    pub more: bool,
}

impl PartsNeeded {
    /// These and others.
    pub fn with(self, others: PartsNeeded) -> PartsNeeded {
        PartsNeeded {
            units: self.units || others.units,
            more: self.more || others.more,
        }
    }
}

/// Those that are asked for where this is asked of numbers.
pub fn parts_of(asked: &NumbersAsked) -> PartsNeeded
    ensures units { result.units ≡ has_unit asked.now.format.shape.unit }
    ensures more { result.more ≡ asks_more asked.now }
{
    PartsNeeded {
        units: has_unit(asked),
        more: asks_more(asked),
    }
}
