//! Words as a formatter takes them, made of values by category.

ghost use Rattle.std.specs.Prelude.{◌≡◌, ◌++◌, IfOk, None, OnOk, Some, option_map, string_bytes};
ghost use Rattle.icu_dimension_words.specs.HeldWords.{word_of};
ghost use Rattle.icu_dimension_words.specs.Words.{around};
ghost use Rattle.locale_numbers_words.specs.Categories.{only};
ghost use Rattle.locale_numbers_words.specs.FoundWords.{as_pair, between_all, named, pair_named, slot_named, with_name, word_between, words_of};

use crate::by_category::ByCategory;
use crate::cuts::cut_at;
use crate::patterns::PLACEHOLDER;
use crate::texts::{CurrencyName, TextPair, UnitText};
use icu_dimension_words::{CategoryWords, PluralWords, WordPair};
use std::alloc::{AllocError, Global};

// ---- values as words

// The words of a category that is named after a number.
fn category_words(text: Option<UnitText>) -> Option<CategoryWords>
    ensures { option_map word_of result ≡ text }
{
    match text {
        Some(text) => {
            let UnitText { first, after } = text;
            match after {
                Some(after) => Some(CategoryWords::Around(WordPair::new(first, after))),
                None => Some(CategoryWords::Bare(first)),
            }
        }
        None => None,
    }
}

// The pair of a category that is not.
fn pair(alloc: Global, text: UnitText) -> WordPair
    ensures { result ≡ as_pair text }
{
    let UnitText { first, after } = text;
    match after {
        Some(after) => WordPair::new(first, after),
        None => WordPair::new(first, String::new(alloc)),
    }
}

fn pair_if_any(alloc: Global, text: Option<UnitText>) -> Option<WordPair>
    ensures { result ≡ option_map as_pair text }
{
    match text {
        Some(text) => Some(pair(alloc, text)),
        None => None,
    }
}

// Values as words. It does not allocate.
pub(crate) fn plural_words(alloc: Global, values: ByCategory<UnitText>) -> PluralWords
    ensures { result ≡ words_of values }
{
    let ByCategory {
        zero,
        one,
        two,
        few,
        many,
        other,
    } = values;
    PluralWords::new(pair(alloc, other))
        .with_zero_value(category_words(zero))
        .with_one_value(category_words(one))
        .with_two_value(category_words(two))
        .with_few_value(pair_if_any(alloc, few))
        .with_many_value(pair_if_any(alloc, many))
}

// ---- names in patterns

// Two texts as one.
fn joined(alloc: Global, first: &str, second: &str) -> Result<String, AllocError>
    ensures { IfOk result (λ text. string_bytes text ≡ first.now ++ second.now) }
{
    let mut text = String::from_str(alloc, first)?;
    text.push_str(second)?;
    Ok(text)
}

// Three texts as one.
fn three(alloc: Global, first: &str, second: &str, third: &str) -> Result<String, AllocError>
    ensures { IfOk result (λ text. string_bytes text ≡ first.now ++ (second.now ++ third.now)) }
{
    let mut text = String::from_str(alloc, first)?;
    text.push_str(second)?;
    text.push_str(third)?;
    Ok(text)
}

// A text with the name in the place of `¤`.
fn with_name(alloc: Global, name: &str, text: &str) -> Result<String, AllocError>
    ensures { IfOk result (λ made. string_bytes made ≡ with_name name.now text.now) }
{
    match cut_at(text, PLACEHOLDER) {
        Some((before, after)) => three(alloc, before, name, after),
        None => String::from_str(alloc, text),
    }
}

// The texts around a number that a pattern and a name make.
fn named_text(alloc: Global, pattern: &TextPair, name: &str) -> Result<UnitText, AllocError>
    ensures { IfOk result (λ text. text ≡ around (pair_named pattern.now name.now)) }
{
    let first = with_name(alloc, name, pattern.before())?;
    let after = with_name(alloc, name, pattern.after())?;
    Ok(UnitText {
        first,
        after: Some(after),
    })
}

// Puts them into a slot.
fn put_text(
    alloc: Global,
    pattern: &TextPair,
    name: &CurrencyName,
    into: &mut Option<UnitText>,
) -> Result<(), AllocError>
    ensures { OnOk result (into.new ≡ Some (around (pair_named pattern.now name.now))) }
{
    let made = named_text(alloc, pattern, name.as_str())?;
    drop(into.replace(made));
    Ok(())
}

// Puts those of a category into an empty slot, where it has a pattern or a name of its own.
fn put_named(
    alloc: Global,
    pattern: &Option<TextPair>,
    name: &Option<CurrencyName>,
    other_pattern: &TextPair,
    other_name: &CurrencyName,
    into: &mut Option<UnitText>,
) -> Result<(), AllocError>
    requires { into.old ≡ None }
    ensures { OnOk result (into.new ≡ slot_named pattern.now name.now other_pattern.now other_name.now) }
{
    match pattern {
        Some(pattern) => match name {
            Some(name) => put_text(alloc, pattern, name, into),
            None => put_text(alloc, pattern, other_name, into),
        },
        None => match name {
            Some(name) => put_text(alloc, other_pattern, name, into),
            None => Ok(()),
        },
    }
}

// Fills the slots beside `other`.
fn fill_named(
    alloc: Global,
    patterns: &ByCategory<TextPair>,
    names: &ByCategory<CurrencyName>,
    into: &mut ByCategory<UnitText>,
) -> Result<(), AllocError>
    requires { into.old ≡ only (around (pair_named patterns.now.other names.now.other)) }
    ensures { OnOk result (into.new ≡ named patterns.now names.now) }
{
    let (pattern, name) = (&patterns.other, &names.other);
    put_named(
        alloc,
        &patterns.zero,
        &names.zero,
        pattern,
        name,
        &mut into.zero,
    )?;
    put_named(
        alloc,
        &patterns.one,
        &names.one,
        pattern,
        name,
        &mut into.one,
    )?;
    put_named(
        alloc,
        &patterns.two,
        &names.two,
        pattern,
        name,
        &mut into.two,
    )?;
    put_named(
        alloc,
        &patterns.few,
        &names.few,
        pattern,
        name,
        &mut into.few,
    )?;
    put_named(
        alloc,
        &patterns.many,
        &names.many,
        pattern,
        name,
        &mut into.many,
    )?;
    Ok(())
}

// Each name in its pattern.
pub(crate) fn named(
    alloc: Global,
    patterns: &ByCategory<TextPair>,
    names: &ByCategory<CurrencyName>,
) -> Result<ByCategory<UnitText>, AllocError>
    ensures { IfOk result (λ made. made ≡ named patterns.now names.now) }
{
    let other = named_text(alloc, &patterns.other, names.other.as_str())?;
    let mut made = ByCategory::only(other);
    match fill_named(alloc, patterns, names, &mut made) {
        Ok(()) => Ok(made),
        Err(refused) => {
            drop(made);
            Err(refused)
        }
    }
}

// ---- words between texts

// The words of a category between the texts of a pair.
fn text_between(alloc: Global, outer: &TextPair, text: &UnitText) -> Result<UnitText, AllocError>
    ensures { IfOk result (λ made. made ≡ word_between outer.now text.now) }
{
    match &text.after {
        Some(after) => {
            let first = joined(alloc, outer.before(), text.first.as_str())?;
            let after = joined(alloc, after.as_str(), outer.after())?;
            Ok(UnitText {
                first,
                after: Some(after),
            })
        }
        None => {
            let first = three(alloc, outer.before(), text.first.as_str(), outer.after())?;
            Ok(UnitText { first, after: None })
        }
    }
}

// Puts those of a category into an empty slot, where it has any.
fn put_between(
    alloc: Global,
    outer: &TextPair,
    text: &Option<UnitText>,
    into: &mut Option<UnitText>,
) -> Result<(), AllocError>
    requires { into.old ≡ None }
    ensures { OnOk result (into.new ≡ option_map (word_between outer.now) text.now) }
{
    if let Some(text) = text {
        let made = text_between(alloc, outer, text)?;
        drop(into.replace(made));
    }
    Ok(())
}

// Fills the slots beside `other`.
fn fill_between(
    alloc: Global,
    outer: &TextPair,
    words: &ByCategory<UnitText>,
    into: &mut ByCategory<UnitText>,
) -> Result<(), AllocError>
    requires { into.old ≡ only (word_between outer.now words.now.other) }
    ensures { OnOk result (into.new ≡ between_all outer.now words.now) }
{
    put_between(alloc, outer, &words.zero, &mut into.zero)?;
    put_between(alloc, outer, &words.one, &mut into.one)?;
    put_between(alloc, outer, &words.two, &mut into.two)?;
    put_between(alloc, outer, &words.few, &mut into.few)?;
    put_between(alloc, outer, &words.many, &mut into.many)?;
    Ok(())
}

// The words of each category between the texts of a pair.
pub(crate) fn between(
    alloc: Global,
    outer: &TextPair,
    words: &ByCategory<UnitText>,
) -> Result<ByCategory<UnitText>, AllocError>
    ensures { IfOk result (λ made. made ≡ between_all outer.now words.now) }
{
    let other = text_between(alloc, outer, &words.other)?;
    let mut made = ByCategory::only(other);
    match fill_between(alloc, outer, words, &mut made) {
        Ok(()) => Ok(made),
        Err(refused) => {
            drop(made);
            Err(refused)
        }
    }
}
