//! What texts are said by: the book's formatter for what is asked, and its plural rules.

ghost use Rattle.std.specs.Prelude.{◌≡◌, IfOk, None, Some, option_map};
ghost use Rattle.locale_numbers_book.specs.FoundFormats.{format_for, formats_for};
ghost use Rattle.locale_numbers_book.specs.FoundRules.{plural_rules_of};
ghost use Rattle.legumeyet.specs.Sayers.{rules_found, sayer_by, sayer_by_both, sayer_in, sayer_with, sayer_without};

use crate::fault::CallFault;
use icu_plurals::PluralRuleType;
use legumeyet_options::{CategorySayer, NumbersAsked, Sayer, SayerRules};
use locale_numbers_book::{Book, FormatterError};
use locale_numbers_formatter::NumberFormatter;
use locale_numbers_requests::Task;
use std::alloc::Global;

// What texts are said by with a formatter and with rules, or with none.
fn sayer_with<'a>(
    alloc: Global,
    asked: &NumbersAsked,
    found: Option<NumberFormatter<'a>>,
    second: Option<&NumberFormatter<'a>>,
    rules: Option<SayerRules<'a>>,
) -> Result<Sayer<'a>, CallFault>
    ensures value { IfOk result (λ sayer. sayer ≡ sayer_with asked.now
        found.entry (option_map (λ f. f.now) second.entry) rules.entry) }
{
    match Sayer::try_of(
        alloc,
        asked.task,
        asked.format,
        asked.is_coarse,
        found,
        second,
        rules,
    ) {
        Ok(sayer) => Ok(sayer),
        Err(_) => Err(CallFault::MEMORY),
    }
}

// What categories are told by where the book has no table.
fn categories_of_nothing<'a>(asked: &NumbersAsked) -> CategorySayer<'a>
    ensures { result ≡ record {
      found = None;
      rules = None;
      options = asked.now.format.options;
      is_coarse = asked.now.is_coarse;
    } }
{
    CategorySayer {
        found: None,
        rules: None,
        options: asked.format.options,
        is_coarse: asked.is_coarse,
    }
}

// What texts are said by where the book has no table.
fn sayer_of_nothing<'a>(asked: &NumbersAsked) -> Sayer<'a>
    ensures value { result ≡ sayer_with asked.now None None None }
{
    match asked.task {
        Task::Write => Sayer::Writes(None, asked.format.options, asked.is_coarse),
        Task::WriteExact => Sayer::WritesExact(None, asked.format.options.sign),
        Task::Read | Task::ReadLenient => Sayer::NoTable,
        Task::Category(_) => Sayer::Categories(categories_of_nothing(asked)),
        Task::RangeCategory => Sayer::RangeCategories(categories_of_nothing(asked)),
    }
}

// Where the book has no formatter.
fn sayer_without<'a>(asked: &NumbersAsked, error: FormatterError) -> Sayer<'a>
    ensures value { result ≡ sayer_without asked.now error }
{
    match error {
        FormatterError::Tag => Sayer::NoTag,
        FormatterError::Table | FormatterError::Memory | FormatterError::Code => {
            sayer_of_nothing(asked)
        }
    }
}

// What people type is read by the formatter for the tag, and by the one that stands beside it.
fn typed_sayer<'a>(
    alloc: Global,
    book: &'a Book,
    tag: &str,
    asked: &NumbersAsked,
) -> Result<Sayer<'a>, CallFault>
    ensures value { IfOk result (λ sayer. sayer
        ≡ sayer_by_both asked.now (formats_for book.now tag.now asked.now.format.shape)) }
{
    match book.number_formatter_with_second(alloc, tag, &asked.format.shape) {
        Ok((formatter, second)) => sayer_with(alloc, asked, Some(formatter), second.as_ref(), None),
        Err(FormatterError::Memory) => Err(CallFault::MEMORY),
        Err(error) => Ok(sayer_without(asked, error)),
    }
}

// By the formatter for the tag, and by rules where they are asked for.
fn sayer_by<'a>(
    alloc: Global,
    book: &'a Book,
    tag: &str,
    asked: &NumbersAsked,
    rules: Option<SayerRules<'a>>,
) -> Result<Sayer<'a>, CallFault>
    ensures value { IfOk result (λ sayer. sayer
        ≡ sayer_by asked.now rules.entry (format_for book.now tag.now asked.now.format.shape)) }
{
    match book.number_formatter(alloc, tag, &asked.format.shape) {
        Ok(formatter) => sayer_with(alloc, asked, Some(formatter), None, rules),
        Err(FormatterError::Memory) => Err(CallFault::MEMORY),
        Err(error) => Ok(sayer_without(asked, error)),
    }
}

// The plural rules that the book has for the tag, and the categories of ranges.
fn rules_of<'a>(
    alloc: Global,
    book: &'a Book,
    tag: &str,
    rule_type: PluralRuleType,
) -> Result<Option<SayerRules<'a>>, CallFault>
    ensures value { IfOk result (λ rules. rules ≡ rules_found (plural_rules_of book.now tag.now rule_type)) }
{
    match book.plural_rules(alloc, tag, rule_type) {
        Ok(rules) => Ok(Some(SayerRules::new(rules))),
        Err(FormatterError::Memory) => Err(CallFault::MEMORY),
        Err(_) => Ok(None),
    }
}

// Plural categories are told by the formatter and by the rules for the tag.
fn category_sayer<'a>(
    alloc: Global,
    book: &'a Book,
    tag: &str,
    asked: &NumbersAsked,
    rule_type: PluralRuleType,
) -> Result<Sayer<'a>, CallFault>
    ensures value { IfOk result (λ sayer. sayer
        ≡ sayer_by asked.now (rules_found (plural_rules_of book.now tag.now rule_type))
        (format_for book.now tag.now asked.now.format.shape)) }
{
    match rules_of(alloc, book, tag, rule_type) {
        Ok(rules) => sayer_by(alloc, book, tag, asked, rules),
        Err(fault) => Err(fault),
    }
}

/// What texts are said by under a tag: the formatter that the book has for what is asked, or none; and for plural categories
/// its rules.
pub fn sayer_of<'a>(
    alloc: Global,
    book: &'a Book,
    tag: &str,
    asked: &NumbersAsked,
) -> Result<Sayer<'a>, CallFault>
    ensures value { IfOk result (λ sayer. sayer ≡ sayer_in book.now tag.now asked.now) }
{
    match asked.task {
        Task::ReadLenient => typed_sayer(alloc, book, tag, asked),
        Task::Write | Task::WriteExact | Task::Read => sayer_by(alloc, book, tag, asked, None),
        Task::Category(rule_type) => category_sayer(alloc, book, tag, asked, rule_type),
        Task::RangeCategory => category_sayer(alloc, book, tag, asked, PluralRuleType::Cardinal),
    }
}
