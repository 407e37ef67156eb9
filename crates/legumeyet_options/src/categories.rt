//! The plural categories of numbers and of ranges, as they are shown.

ghost use Rattle.std.specs.Prelude.{◌≡◌, ◌≢◌, Ok, Err, IfOk, IfErr};
ghost use Rattle.locale_numbers_answers.specs.CategoryAnswer.{shown_category, shown_range_category};
ghost use Rattle.locale_numbers_answers.specs.NumberReading.{reading_of};
ghost use Rattle.locale_numbers_formats.specs.Changed.{changed};
ghost use Rattle.locale_numbers_formatter.specs.FormatText.{fractions_in};
ghost use Rattle.locale_numbers_requests.specs.RangeEnds.{range_ends};
ghost use Rattle.legumeyet_options.specs.Categories.{category_saying, ends_reading_saying, ends_saying, found_category, found_range_category, have_fraction, range_reading_saying, reading_category_saying, value_category_saying};

use crate::saying::{NotSaid, has_fraction, held, number_of};
use fixed_decimal::Decimal;
use icu_plurals::{PluralCategory, PluralRules, PluralRulesWithRanges};
use locale_numbers_answers::{shown_category, shown_range_category};
use locale_numbers_formats::NumberOptions;
use locale_numbers_formatter::NumberFormatter;
use locale_numbers_requests::{Refusal, cut_range};
use std::alloc::{AllocError, Global};
use std::marker::Model;
use writeable::PartsSink;

/// Plural rules, and the categories of ranges, that a book has for a language. It borrows them.
#[derive(Drop)]
pub struct SayerRules<'a> {
    found: PluralRulesWithRanges<'a>,
}

impl<'a> Model for SayerRules<'a> {
    ghost use Rattle.icu_plurals.specs.Rules.{Rules};
    ghost use Rattle.icu_plurals.specs.declared.PluralRange.{PluralRange};
    ghost use Rattle.std.specs.Prelude.{List};

    ghost Value = { Rules × List PluralRange };

    ghost view = { λ r. (r.found.rules.now, r.found.ranges.now) };
}

impl<'a> SayerRules<'a> {
    /// These rules and ranges. It does not allocate.
    pub fn new(found: PluralRulesWithRanges<'a>) -> Self
        ensures { result ≡ (found.entry.rules.now, found.entry.ranges.now) }
    {
        SayerRules { found }
    }

    // The rules.
    fn rules(&self) -> &'a PluralRules
        ensures { result.now ≡ self.now.0 }
    {
        self.found.rules
    }

    // The rules with the ranges.
    fn found(&self) -> PluralRulesWithRanges<'a>
        ensures rules { result.rules.now ≡ self.now.0 }
        ensures ranges { result.ranges.now ≡ self.now.1 }
    {
        self.found
    }
}

// What is said of a category, or that there is none.
fn say_found(alloc: Global, category: Option<PluralCategory>) -> Result<PartsSink, NotSaid>
    ensures said { IfOk result (λ sink. category_saying category ≡ Ok sink.held) }
    ensures refused { IfErr result (λ why. why ≢ NotSaid.Memory → category_saying category ≡ Err why) }
{
    match category {
        Some(category) => held(alloc, &category.as_str()),
        None => Err(NotSaid::Refused(Refusal::Range)),
    }
}

// The category of a number, as options change it.
fn category_by(
    formatter: &NumberFormatter<'_>,
    rules: &SayerRules<'_>,
    options: NumberOptions,
    value: &mut Decimal,
) -> Result<Option<PluralCategory>, AllocError>
    ensures { IfOk result (λ category. category
        ≡ shown_category formatter.now rules.now.0 (changed options (fractions_in formatter.now) value.old)) }
{
    options.change(formatter.fractions(), value)?;
    shown_category(formatter, rules.rules(), value)
}

// The category of a range of two numbers, each as options change it.
fn range_category_by(
    formatter: &NumberFormatter<'_>,
    rules: &SayerRules<'_>,
    options: NumberOptions,
    first: &mut Decimal,
    second: &mut Decimal,
) -> Result<Option<PluralCategory>, AllocError>
    ensures { IfOk result (λ category. category ≡ shown_range_category formatter.now rules.now.0 rules.now.1
        (changed options (fractions_in formatter.now) first.old)
        (changed options (fractions_in formatter.now) second.old)) }
{
    options.change(formatter.fractions(), first)?;
    options.change(formatter.fractions(), second)?;
    shown_range_category(formatter, &rules.found(), first, second)
}

// Whether a digit of one of the ends is shown below the ones.
fn have_fraction(first: &Decimal, second: &Decimal) -> bool
    ensures { result ≡ have_fraction first.now.absolute second.now.absolute }
{
    has_fraction(first) || has_fraction(second)
}

/// What plural categories of numbers are told by.
#[derive(Drop)]
pub struct CategorySayer<'a> {
    /// What shows the numbers, where the book has it.
    pub found: Option<NumberFormatter<'a>>,
    /// The rules, where it has them.
    pub rules: Option<SayerRules<'a>>,
    /// What is made of a number before.
    pub options: NumberOptions,
    /// Whether one with a fraction is refused.
    pub is_coarse: bool,
}

impl CategorySayer<'_> {
    // The category of a number, where there is a formatter and there are rules.
    fn category_of(&self, mut value: Decimal) -> Result<Option<PluralCategory>, NotSaid>
        ensures value { IfOk result (λ category. found_category self.now.found self.now.rules self.now.options value
            ≡ Ok category) }
        ensures refused { IfErr result (λ why. why ≢ NotSaid.Memory
            → found_category self.now.found self.now.rules self.now.options value ≡ Err why) }
    {
        let Some(formatter) = &self.found else {
            return Err(NotSaid::Refused(Refusal::Table));
        };
        let Some(rules) = &self.rules else {
            return Err(NotSaid::Refused(Refusal::Table));
        };
        match category_by(formatter, rules, self.options, &mut value) {
            Ok(category) => Ok(category),
            Err(_) => Err(NotSaid::Memory),
        }
    }

    // What is said of a number.
    fn say_value(&self, alloc: Global, value: Decimal) -> Result<PartsSink, NotSaid>
        ensures said { IfOk result (λ sink. value_category_saying self.now value ≡ Ok sink.held) }
        ensures refused { IfErr result (λ why. why ≢ NotSaid.Memory → value_category_saying self.now value ≡ Err why) }
    {
        if self.is_coarse && has_fraction(&value) {
            return Err(NotSaid::Coarse);
        }
        match self.category_of(value) {
            Ok(category) => say_found(alloc, category),
            Err(why) => Err(why),
        }
    }

    // What is said of the number that a text says.
    pub(crate) fn say(&self, alloc: Global, text: &[u8]) -> Result<PartsSink, NotSaid>
        ensures said { IfOk result (λ sink. reading_category_saying self.now (reading_of text.now) ≡ Ok sink.held) }
        ensures refused { IfErr result (λ why. why ≢ NotSaid.Memory
            → reading_category_saying self.now (reading_of text.now) ≡ Err why) }
    {
        match number_of(alloc, text) {
            Ok(value) => self.say_value(alloc, value),
            Err(why) => Err(why),
        }
    }

    // The category of a range of two numbers, where there is a formatter and there are rules.
    fn range_category_of(
        &self,
        mut first: Decimal,
        mut second: Decimal,
    ) -> Result<Option<PluralCategory>, NotSaid>
        ensures value { IfOk result (λ category.
            found_range_category self.now.found self.now.rules self.now.options first second ≡ Ok category) }
        ensures refused { IfErr result (λ why. why ≢ NotSaid.Memory
            → found_range_category self.now.found self.now.rules self.now.options first second ≡ Err why) }
    {
        let Some(formatter) = &self.found else {
            return Err(NotSaid::Refused(Refusal::Table));
        };
        let Some(rules) = &self.rules else {
            return Err(NotSaid::Refused(Refusal::Table));
        };
        match range_category_by(formatter, rules, self.options, &mut first, &mut second) {
            Ok(category) => Ok(category),
            Err(_) => Err(NotSaid::Memory),
        }
    }

    // What is said of a range of two numbers.
    fn say_ends(&self, alloc: Global, first: Decimal, second: Decimal) -> Result<PartsSink, NotSaid>
        ensures said { IfOk result (λ sink. ends_saying self.now first second ≡ Ok sink.held) }
        ensures refused { IfErr result (λ why. why ≢ NotSaid.Memory → ends_saying self.now first second ≡ Err why) }
    {
        if self.is_coarse && have_fraction(&first, &second) {
            return Err(NotSaid::Coarse);
        }
        match self.range_category_of(first, second) {
            Ok(category) => say_found(alloc, category),
            Err(why) => Err(why),
        }
    }

    // What is said of the range whose ends two texts say.
    fn say_texts(&self, alloc: Global, first: &[u8], second: &[u8]) -> Result<PartsSink, NotSaid>
        ensures said { IfOk result (λ sink.
            ends_reading_saying self.now (reading_of first.now) (reading_of second.now) ≡ Ok sink.held) }
        ensures refused { IfErr result (λ why. why ≢ NotSaid.Memory
            → ends_reading_saying self.now (reading_of first.now) (reading_of second.now) ≡ Err why) }
    {
        let first = match number_of(alloc, first) {
            Ok(value) => value,
            Err(why) => return Err(why),
        };
        match number_of(alloc, second) {
            Ok(second) => self.say_ends(alloc, first, second),
            Err(why) => Err(why),
        }
    }

    // What is said of the range that a text says.
    pub(crate) fn say_range(&self, alloc: Global, text: &[u8]) -> Result<PartsSink, NotSaid>
        ensures said { IfOk result (λ sink. range_reading_saying self.now (range_ends text.now) ≡ Ok sink.held) }
        ensures refused { IfErr result (λ why. why ≢ NotSaid.Memory
            → range_reading_saying self.now (range_ends text.now) ≡ Err why) }
    {
        match cut_range(text) {
            Some((first, second)) => self.say_texts(alloc, first, second),
            None => Err(NotSaid::Refused(Refusal::Number)),
        }
    }
}
