//! What the options ask of numbers.

ghost use Rattle.std.specs.Prelude.{◌≡◌, option_map};
ghost use Rattle.locale_numbers_formats.specs.Skeletons.{skeleton_of};
ghost use Rattle.legumeyet_options.specs.NumberWords.{after, asked_by, asked_for, categories_asked, exact_reading, first_fault, form_asked, grouping_asked, is_coarse_round, notation_asked, numbers_asked, numbers_said, percent_unit, plain_reading, reading_asked, sign_asked, significand_fault, skeleton_asked, task_fault, unit_asked, words_asked};

use crate::digits::{DigitWords, is_coarse};
use crate::fault::OptionFault;
use crate::number_forms::{form_said, format_by, scientific_form};
use icu_decimal_scientific::ScientificNotation;
use icu_decimal_symbols::options::GroupingStrategy;
use icu_dimension_fractions::{CurrencyCode, CurrencyStyle, CurrencyWidth, PercentSign};
use icu_plurals::PluralRuleType;
use locale_numbers_formats::{
    CurrencyUnit, Notation, NumberFormat, NumberOptions, NumberShape, NumberUnit, SignAsked,
    Skeleton,
};
use locale_numbers_requests::{Task, format_read, grouping_named, sign_named};

/// The words of the options that say how numbers are written; `None` and `false` where an option is not given.
#[derive(Clone, Copy, Debug)]
pub struct NumberWords<'a> {
    /// That of `--form`: `short`.
    pub form: Option<&'a str>,
    /// That of `--format`, a skeleton: `currency/EUR .00`.
    pub format: Option<&'a str>,
    /// Which exponents scientific numbers have: each with `--scientific`, and the multiples of three with `--engineering`.
    /// Where it is given, the form counts for nothing.
    pub scientific: Option<ScientificNotation>,
    /// That of `--currency`: `EUR`.
    pub currency: Option<&'a str>,
    /// Whether `--accounting` is given.
    pub is_accounting: bool,
    /// Whether `--code` is.
    pub is_by_code: bool,
    /// With which sign percents are written: that of permilles with `--permille`.
    pub percent: Option<PercentSign>,
    /// That of `--grouping`: `min2`.
    pub grouping: Option<&'a str>,
    /// That of `--sign`: `always`.
    pub sign: Option<&'a str>,
    /// Those of the options of digits.
    pub chosen: DigitWords<'a>,
    /// By which rules the plural category of each number is asked in its place: `Cardinal` with `--plural`, `Ordinal` with
    /// `--ordinal`.
    pub rule_type: Option<PluralRuleType>,
}

/// What is asked of numbers.
#[derive(Clone, Copy, Debug, PartialEq, Eq)]
pub struct NumbersAsked {
    /// What is done with each text.
    pub task: Task,
    /// How numbers are written.
    pub format: NumberFormat,
    /// Whether they are rounded above the ones without a mode, as by `--round 2`: one with a fraction is then refused.
    pub is_coarse: bool,
}

impl NumbersAsked {
    /// What is asked of texts that are read beside numbers that are written: another task, and the format without compact
    /// patterns and without a rounding, but that an amount has the digits of its currency where it is written so. It does
    /// not allocate.
    ///
    /// `Scientific`: the numbers are written in scientific notation, in which texts are read only by the task `Read`.
    pub fn reading(&self, task: Task) -> Result<NumbersAsked, OptionFault>
        ensures value { result ≡ reading_asked task self.now }
    {
        match self.format.shape.notation {
            Notation::Standard | Notation::Compact(_) | Notation::CompactDigits(_, _) => {
                Ok(plain_reading(task, self.format))
            }
            Notation::Scientific(_, _) => exact_reading(task, self.format),
        }
    }

    /// The same, of which in place of each number its plural category by rules of this type is asked. It does not allocate.
    ///
    /// `Categories`: no number is written that is shown as it is rounded, as by an exact form.
    pub fn categories(&self, rule_type: PluralRuleType) -> Result<NumbersAsked, OptionFault>
        ensures value { result ≡ categories_asked rule_type self.now }
    {
        match self.task {
            Task::Write => Ok(NumbersAsked {
                task: Task::Category(rule_type),
                ..*self
            }),
            Task::WriteExact
            | Task::Read
            | Task::ReadLenient
            | Task::Category(_)
            | Task::RangeCategory => Err(OptionFault::Categories),
        }
    }
}

// What is asked of texts in scientific notation that are read beside numbers of a format.
fn exact_reading(task: Task, format: NumberFormat) -> Result<NumbersAsked, OptionFault>
    ensures { result ≡ exact_reading task format }
{
    match task {
        Task::Read => Ok(NumbersAsked {
            task,
            format: format_read(format),
            is_coarse: false,
        }),
        Task::Write
        | Task::WriteExact
        | Task::ReadLenient
        | Task::Category(_)
        | Task::RangeCategory => Err(OptionFault::Scientific),
    }
}

// What is asked of texts that are read beside numbers of a format.
fn plain_reading(task: Task, format: NumberFormat) -> NumbersAsked
    ensures { result ≡ plain_reading task format }
{
    let format = format_read(format);
    NumbersAsked {
        task,
        format: NumberFormat {
            shape: NumberShape {
                notation: Notation::Standard,
                ..format.shape
            },
            options: format.options,
        },
        is_coarse: false,
    }
}

// What `--form` asks.
fn form_asked(word: Option<&str>) -> Result<(Task, Notation), OptionFault>
    ensures { result ≡ form_asked (option_map (λ word. word.now) word.entry) }
{
    let Some(word) = word else {
        return Ok((Task::Write, Notation::Standard));
    };
    match form_said(word.as_bytes()) {
        Some(form) => Ok(form),
        None => Err(OptionFault::Form),
    }
}

// What `--scientific` and `--engineering` ask, or else `--form`.
fn notation_asked(
    scientific: Option<ScientificNotation>,
    form: Option<&str>,
) -> Result<(Task, Notation), OptionFault>
    ensures { result ≡ notation_asked scientific (option_map (λ word. word.now) form.entry) }
{
    match scientific {
        Some(notation) => Ok(scientific_form(notation)),
        None => form_asked(form),
    }
}

// What `--grouping` asks.
fn grouping_asked(word: Option<&str>) -> Result<GroupingStrategy, OptionFault>
    ensures { result ≡ grouping_asked (option_map (λ word. word.now) word.entry) }
{
    let Some(word) = word else {
        return Ok(GroupingStrategy::Auto);
    };
    match grouping_named(word.as_bytes()) {
        Some(grouping) => Ok(grouping),
        None => Err(OptionFault::Grouping),
    }
}

// What `--sign` asks.
fn sign_asked(word: Option<&str>) -> Result<SignAsked, OptionFault>
    ensures { result ≡ sign_asked (option_map (λ word. word.now) word.entry) }
{
    let Some(word) = word else {
        return Ok(SignAsked::Keep);
    };
    match sign_named(word.as_bytes()) {
        Some(sign) => Ok(sign),
        None => Err(OptionFault::Sign),
    }
}

// What a sign of percents asks.
fn percent_unit(percent: Option<PercentSign>) -> NumberUnit
    ensures { result ≡ percent_unit percent }
{
    match percent {
        None => NumberUnit::None,
        Some(sign) => NumberUnit::Percent(sign),
    }
}

// What `--currency` and the options beside it ask, or a sign of percents.
fn unit_asked(
    code: Option<&str>,
    accounting: bool,
    by_code: bool,
    percent: Option<PercentSign>,
) -> Result<NumberUnit, OptionFault>
    ensures { result ≡ unit_asked (option_map (λ word. word.now) code.entry) accounting by_code percent }
{
    let Some(code) = code else {
        return Ok(percent_unit(percent));
    };
    match CurrencyCode::try_from_str(code) {
        Ok(code) => Ok(NumberUnit::Currency(CurrencyUnit {
            code,
            style: if accounting {
                CurrencyStyle::Accounting
            } else {
                CurrencyStyle::Standard
            },
            width: if by_code {
                CurrencyWidth::IsoCode
            } else {
                CurrencyWidth::Short
            },
        })),
        Err(_) => Err(OptionFault::Code),
    }
}

// What a task does not take.
fn task_fault(task: Task, sign: SignAsked, digits: bool) -> Option<OptionFault>
    ensures { result ≡ task_fault task sign digits }
{
    match task {
        Task::Write | Task::Category(_) | Task::RangeCategory => None,
        Task::WriteExact if digits => Some(OptionFault::DigitsOfExact),
        Task::WriteExact => None,
        Task::Read | Task::ReadLenient => {
            if !matches!(sign, SignAsked::Keep) {
                Some(OptionFault::SignOfRead)
            } else if digits {
                Some(OptionFault::DigitsOfRead)
            } else {
                None
            }
        }
    }
}

// What significands do not take: a rounding above the ones without a mode.
fn significand_fault(notation: Notation, is_coarse: bool) -> Option<OptionFault>
    ensures { result ≡ significand_fault notation is_coarse }
{
    match notation {
        Notation::Scientific(_, _) if is_coarse => Some(OptionFault::Coarse),
        Notation::Scientific(_, _)
        | Notation::Standard
        | Notation::Compact(_)
        | Notation::CompactDigits(_, _) => None,
    }
}

// The first of two faults that is there.
fn first_fault(fault: Option<OptionFault>, other: Option<OptionFault>) -> Option<OptionFault>
    ensures { result ≡ first_fault fault other }
{
    match fault {
        Some(fault) => Some(fault),
        None => other,
    }
}

// Whether `--round` is a position above the ones alone.
fn is_coarse_round(word: Option<&str>) -> bool
    ensures { result ≡ is_coarse_round (option_map (λ word. word.now) word.entry) }
{
    match word {
        None => false,
        Some(word) => is_coarse(word.as_bytes()),
    }
}

// What a task and a format make, where nothing is wrong with them.
fn asked_by(
    fault: Option<OptionFault>,
    task: Task,
    format: NumberFormat,
    is_coarse: bool,
) -> Result<NumbersAsked, OptionFault>
    ensures { result ≡ asked_by fault task format is_coarse }
{
    match fault {
        Some(fault) => Err(fault),
        None => Ok(NumbersAsked {
            task,
            format,
            is_coarse,
        }),
    }
}

// What a skeleton asks.
fn skeleton_asked(skeleton: &str) -> Result<NumbersAsked, OptionFault>
    ensures { result ≡ skeleton_asked (skeleton_of skeleton.now) }
{
    match Skeleton::try_from_str(skeleton) {
        Ok(skeleton) => Ok(NumbersAsked {
            task: Task::Write,
            format: skeleton.format(),
            is_coarse: false,
        }),
        Err(error) => Err(OptionFault::Format(error)),
    }
}

// What is asked, or the plural category in place of each number where that is asked.
fn asked_for(
    rule_type: Option<PluralRuleType>,
    asked: NumbersAsked,
) -> Result<NumbersAsked, OptionFault>
    ensures { result ≡ asked_for rule_type asked }
{
    match rule_type {
        None => Ok(asked),
        Some(rule_type) => asked.categories(rule_type),
    }
}

// The same, where nothing is wrong with the other words.
fn asked_after(
    rule_type: Option<PluralRuleType>,
    asked: Result<NumbersAsked, OptionFault>,
) -> Result<NumbersAsked, OptionFault>
    ensures { result ≡ after asked (asked_for rule_type) }
{
    match asked {
        Ok(asked) => asked_for(rule_type, asked),
        Err(fault) => Err(fault),
    }
}

impl NumberWords<'_> {
    // What the words ask, where they are no skeleton.
    fn words_asked(&self) -> Result<NumbersAsked, OptionFault>
        ensures { result ≡ words_asked (numbers_said self.now) }
    {
        let (task, notation) = notation_asked(self.scientific, self.form)?;
        let unit = unit_asked(
            self.currency,
            self.is_accounting,
            self.is_by_code,
            self.percent,
        )?;
        let grouping = grouping_asked(self.grouping)?;
        let sign = sign_asked(self.sign)?;
        let options = self.chosen.said()?;
        let shape = NumberShape {
            notation,
            unit,
            grouping,
        };
        let options = NumberOptions { sign, ..options };
        let is_coarse = is_coarse_round(self.chosen.round);
        let fault = first_fault(
            task_fault(task, sign, self.chosen.are_chosen()),
            significand_fault(notation, is_coarse),
        );
        let format = format_by(shape, options, self.chosen.are_shown());
        asked_by(fault, task, format, is_coarse)
    }

    /// What the words ask of numbers: of `--currency EUR --digits 3` that they are written as amounts in euros, to
    /// thousandths. It does not allocate.
    ///
    /// `OptionFault`: an option is wrong, or does not go with the form or with scientific numbers. Where several are, it is
    /// the first of the form, the currency, the grouping, the sign and the digits, and else that which does not go with the
    /// form, of which that of categories is the last.
    pub fn asked(&self) -> Result<NumbersAsked, OptionFault>
        ensures value { result ≡ numbers_asked (numbers_said self.now) }
    {
        let asked = match self.format {
            None => self.words_asked(),
            Some(skeleton) => skeleton_asked(skeleton),
        };
        asked_after(self.rule_type, asked)
    }
}
